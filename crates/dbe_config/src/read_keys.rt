ghost use Rattle.std.specs.Prelude.{◌≡◌, IfOk, option_map};
ghost use Rattle.serde_json.specs.View.{view};
ghost use Rattle.dbe_config.specs.Shape.{kind_of, key_in, schema_in};
ghost use Rattle.dbe_config.specs.Spelling.{optional};

use crate::spelling::{any_text_in, text_in};
use dbe_num::{Memory, Text};
use dbe_values::{KeyKind, KeyName, KeySchema, size_of};
use serde_json::Value;
use std::alloc::Global;

// The keys of a configuration.
pub(crate) fn schema_in(alloc: Global, value: &Value) -> Result<Option<KeySchema>, Memory>
    ensures { IfOk result (λ s. s ≡ schema_in (view value.now)) }
{
    let Some(partition) = value.get("partition") else {
        return Ok(None);
    };
    let Some(partition) = key_in(alloc, partition)? else {
        return Ok(None);
    };
    let Some(sort) = sort_in(alloc, value.get("sort"))? else {
        return Ok(None);
    };
    Ok(Some(KeySchema { partition, sort }))
}

fn sort_in(alloc: Global, value: Option<&Value>) -> Result<Option<Option<KeyName>>, Memory>
    ensures { IfOk result (λ s. s ≡ optional key_in (option_map (λ v. view v.now) value.entry)) }
{
    let Some(value) = value else {
        return Ok(Some(None));
    };
    let Some(key) = key_in(alloc, value)? else {
        return Ok(None);
    };
    Ok(Some(Some(key)))
}

fn key_in(alloc: Global, value: &Value) -> Result<Option<KeyName>, Memory>
    ensures { IfOk result (λ k. k ≡ key_in (view value.now)) }
{
    if size_of(value) != 2 {
        return Ok(None);
    }
    let Some(name) = text_in(value.get("name"), 1, 245) else {
        return Ok(None);
    };
    let Some(word) = any_text_in(value.get("type")) else {
        return Ok(None);
    };
    let Some(kind) = kind_of(word) else {
        return Ok(None);
    };
    Ok(Some(KeyName {
        name: Text::copy_of(alloc, name)?,
        kind,
    }))
}

fn kind_of(word: &str) -> Option<KeyKind>
    ensures { result ≡ kind_of word.now }
{
    match word {
        "S" => Some(KeyKind::S),
        "N" => Some(KeyKind::N),
        "B" => Some(KeyKind::B),
        _ => None,
    }
}
