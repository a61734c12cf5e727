ghost use Rattle.std.specs.Prelude.{◌≡◌, ◌≤◌, IfOk, option_map};
ghost use Rattle.serde_json.specs.View.{view};
ghost use Rattle.dbe_config.specs.Shape.{part_in, is_encrypted_of, split_of, compound_in, one_if};

use crate::read_constructor::constructors_in;
use crate::spelled::{Spelled, list_in};
use crate::spelling::{any_text_in, text_in};
use crate::{Compound, Constructors, Part, Parts};
use dbe_num::{Memory, Text};
use dbe_values::size_of;
use serde_json::Value;
use std::alloc::Global;

impl Spelled for Part {
    ghost spelled = { part_in };

    fn read_from(alloc: Global, value: &Value) -> Result<Option<Part>, Memory> {
        if size_of(value) != 4 {
            return Ok(None);
        }
        let Some(name) = any_text_in(value.get("name")) else {
            return Ok(None);
        };
        let Some(prefix) = any_text_in(value.get("prefix")) else {
            return Ok(None);
        };
        let Some(word) = any_text_in(value.get("kind")) else {
            return Ok(None);
        };
        let Some(encrypted) = is_encrypted_of(word) else {
            return Ok(None);
        };
        let Some(from) = any_text_in(value.get("from")) else {
            return Ok(None);
        };
        Ok(Some(Part {
            name: Text::copy_of(alloc, name)?,
            prefix: Text::copy_of(alloc, prefix)?,
            encrypted,
            from: Text::copy_of(alloc, from)?,
        }))
    }
}

fn is_encrypted_of(word: &str) -> Option<bool>
    ensures { result ≡ is_encrypted_of word.now }
{
    match word {
        "encrypted" => Some(true),
        "signed" => Some(false),
        _ => None,
    }
}

impl Spelled for Compound {
    ghost spelled = { compound_in };

    fn read_from(alloc: Global, value: &Value) -> Result<Option<Compound>, Memory> {
        let constructors = value.get("constructors");
        if size_of(value) != 3 + one_if(constructors) {
            return Ok(None);
        }
        let Some(name) = text_in(value.get("name"), 1, 245) else {
            return Ok(None);
        };
        let Some(split) = any_text_in(value.get("split")) else {
            return Ok(None);
        };
        let Some(parts) = list_in(alloc, value.get("parts"), 16)? else {
            return Ok(None);
        };
        let Some(constructors) = constructors_in(alloc, &parts, constructors)? else {
            return Ok(None);
        };
        Ok(Some(Compound {
            name: Text::copy_of(alloc, name)?,
            split: split_of(split.as_bytes()),
            parts: Parts::from_vec(parts),
            constructors: Constructors::from_vec(constructors),
        }))
    }
}

// 1 where a member is there.
pub(crate) fn one_if(member: Option<&Value>) -> usize
    ensures within { result ≤ 1 }
    ensures is { result ≡ one_if (option_map (λ v. view v.now) member.entry) }
{
    match member {
        Some(_) => 1,
        None => 0,
    }
}

// The split character, or 0 where the text is not one byte from 21 to 7E.
fn split_of(text: &[u8]) -> u8
    ensures { result ≡ split_of text.now }
{
    match text {
        [b] => if 33 <= *b && *b <= 126 { *b } else { 0 },
        _ => 0,
    }
}
