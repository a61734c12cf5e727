ghost use Rattle.std.specs.Prelude.{◌≡◌, IfOk, option_map};
ghost use Rattle.std.specs.Option.{IfSome};
ghost use Rattle.serde_json.specs.View.{view, members_view};
ghost use Rattle.dbe_config.specs.Bounds.{AreInOrder};
ghost use Rattle.dbe_config.specs.Shape.{pair_of, pairs_in, context_in};
ghost use Rattle.dbe_config.specs.Spelling.{text_of};

use crate::ContextPair;
use crate::spelling::text_of;
use dbe_num::{Memory, Text};
use dbe_values::size_of;
use serde_json::{Map, Value};
use std::alloc::Global;

const MOST_PAIRS: usize = 32;

pub(crate) fn context_in(
    alloc: Global,
    value: Option<&Value>,
) -> Result<Option<Vec<ContextPair>>, Memory>
    ensures is { IfOk result (λ c. option_map (λ v. v.items) c ≡ context_in (option_map (λ v. view v.now) value.entry)) }
    ensures order { IfOk result (λ c. IfSome c (λ v. AreInOrder v.items)) }
{
    let Some(value) = value else {
        return Ok(Some(Vec::new(alloc)));
    };
    if size_of(value) > MOST_PAIRS {
        return Ok(None);
    }
    match value.as_object() {
        Some(map) => pairs_in(alloc, map),
        None => Ok(None),
    }
}

fn pairs_in(alloc: Global, map: &Map<String, Value>) -> Result<Option<Vec<ContextPair>>, Memory>
    ensures is { IfOk result (λ c. option_map (λ v. v.items) c ≡ pairs_in (members_view map.now.entries)) }
    ensures order { IfOk result (λ c. IfSome c (λ v. AreInOrder v.items)) }
{
    let mut pairs = Vec::new(alloc);
    for (key, value) in map {
        let Some(pair) = pair_of(alloc, key.as_str(), text_of(value.as_str(), 0, 1024))? else {
            return Ok(None);
        };
        pairs.push(pair)?;
    }
    Ok(Some(pairs))
}

fn pair_of(alloc: Global, key: &str, value: Option<&str>) -> Result<Option<ContextPair>, Memory>
    ensures { IfOk result (λ p. p ≡ pair_of key.now (option_map (λ t. t.now) value.entry)) }
{
    let Some(value) = value else {
        return Ok(None);
    };
    if key.is_empty() || key.len() > 255 {
        return Ok(None);
    }
    Ok(Some(ContextPair {
        key: Text::copy_of(alloc, key)?,
        value: Text::copy_of(alloc, value)?,
    }))
}
