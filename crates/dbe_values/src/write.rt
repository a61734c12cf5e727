ghost use Rattle.std.specs.Prelude.{◌≡◌, IfOk, map, option_map, string_bytes, codes, List, ℕ, Some, Ok};
ghost use Rattle.std.specs.Str.{IsUtf8};
ghost use Rattle.serde_json.specs.View.{view as data_of, items_view, members_view};
ghost use Rattle.serde_json.specs.Data.{string, no_members};
ghost use Rattle.serde_json.specs.Written.{compact_text};
ghost use Rattle.dbe_values.specs.View.{view, vals_of, entries_of, entry_view};
ghost use Rattle.dbe_values.specs.Writing.{tagged, base64_text, strings, base64_texts, value_data, vals_data, with_entries, item_data};
ghost use Rattle.dbe_values.specs.Json.{json_of};
ghost use Rattle.dbe_values.specs.Items.{item_in};

use crate::{AttrValue, Item};
use base64::engine::general_purpose::STANDARD;
use dbe_num::{Bytes, Memory, Text};
use serde_json::{Map, Value};
use std::alloc::Global;

/// The JSON value that spells a value.
#[cycle(write)]
pub fn to_json(alloc: Global, value: &AttrValue) -> Result<Value, Memory>
    ensures { IfOk result (λ j. data_of j ≡ value_data (view value.now)) }
{
    match value {
        AttrValue::S(text) => tagged(alloc, "S", string_value(alloc, text)?),
        AttrValue::N(number) => tagged(
            alloc,
            "N",
            Value::String(number.text(alloc)?.into_string()),
        ),
        AttrValue::B(bytes) => tagged(alloc, "B", base64_value(alloc, bytes)?),
        AttrValue::Bool(b) => tagged(alloc, "BOOL", Value::Bool(*b)),
        AttrValue::Null => tagged(alloc, "NULL", Value::Bool(true)),
        AttrValue::Ss(set) => tagged(
            alloc,
            "SS",
            Value::Array(string_values(alloc, set.elements())?),
        ),
        AttrValue::Ns(set) => tagged(
            alloc,
            "NS",
            Value::Array(string_values(alloc, set.elements())?),
        ),
        AttrValue::Bs(set) => tagged(
            alloc,
            "BS",
            Value::Array(base64_values(alloc, set.elements())?),
        ),
        AttrValue::L(items) => tagged(
            alloc,
            "L",
            Value::Array(values_to_json(alloc, items.as_slice())?),
        ),
        AttrValue::M(entries) => tagged(
            alloc,
            "M",
            Value::Object(entries_to_json(alloc, entries.as_slice())?),
        ),
    }
}

fn tagged(alloc: Global, name: &str, content: Value) -> Result<Value, Memory>
    ensures { IfOk result (λ j. data_of j ≡ tagged name.now (data_of content)) }
{
    let mut map = Map::new(alloc);
    map.insert(String::from_str(alloc, name)?, content)?;
    Ok(Value::Object(map))
}

fn string_value(alloc: Global, text: &Text) -> Result<Value, Memory>
    ensures { IfOk result (λ j. data_of j ≡ string text.now) }
{
    Ok(Value::String(text.copy(alloc)?.into_string()))
}

fn base64_value(alloc: Global, bytes: &Bytes) -> Result<Value, Memory>
    ensures { IfOk result (λ j. data_of j ≡ base64_text bytes.now) }
{
    Ok(Value::String(STANDARD.encode(alloc, bytes.as_slice())?))
}

fn string_values(alloc: Global, texts: &[Text]) -> Result<Vec<Value>, Memory>
    ensures { IfOk result (λ out. items_view out.items ≡ strings texts.now) }
{
    let mut out = Vec::with_capacity(alloc, texts.len())?;
    for text in texts {
        out.push(string_value(alloc, text)?)?;
    }
    Ok(out)
}

fn base64_values(alloc: Global, binaries: &[Bytes]) -> Result<Vec<Value>, Memory>
    ensures { IfOk result (λ out. items_view out.items ≡ base64_texts binaries.now) }
{
    let mut out = Vec::with_capacity(alloc, binaries.len())?;
    for bytes in binaries {
        out.push(base64_value(alloc, bytes)?)?;
    }
    Ok(out)
}

#[cycle(write)]
fn values_to_json(alloc: Global, items: &[AttrValue]) -> Result<Vec<Value>, Memory>
    ensures { IfOk result (λ out. items_view out.items ≡ vals_data (vals_of (map view items.now))) }
{
    let mut out = Vec::with_capacity(alloc, items.len())?;
    for item in items {
        out.push(to_json(alloc, item)?)?;
    }
    Ok(out)
}

#[cycle(write)]
fn entries_to_json(
    alloc: Global,
    entries: &[(Text, AttrValue)],
) -> Result<Map<String, Value>, Memory>
    ensures { IfOk result (λ out. members_view out.entries ≡ with_entries no_members (entries_of (map entry_view entries.now))) }
{
    let mut out = Map::new(alloc);
    for entry in entries {
        let value = to_json(alloc, &entry.1)?;
        out.insert(entry.0.copy(alloc)?.into_string(), value)?;
    }
    Ok(out)
}

/// The JSON value that spells an item.
pub fn item_to_json(alloc: Global, item: &Item) -> Result<Value, Memory>
    ensures { IfOk result (λ j. data_of j ≡ item_data item.now) }
{
    let mut map = Map::new(alloc);
    for i in 0..item.len() {
        let (name, value) = item.at(i);
        let value = to_json(alloc, value)?;
        map.insert(name.copy(alloc)?.into_string(), value)?;
    }
    Ok(Value::Object(map))
}

/// The compact JSON text of an item.
pub fn item_text(alloc: Global, item: &Item) -> Result<Vec<u8>, Memory>
    ensures text { IfOk result (λ text. text.items ≡ compact_text (item_data item.now)) }
    ensures utf8 { IfOk result (λ text. IsUtf8 text.items) }
    ensures json { IfOk result (λ text. json_of text.items ≡ Some (item_data item.now)) }
    ensures reads_back { IfOk result (λ text. option_map item_in (json_of text.items) ≡ Some (Ok (entries_of (map entry_view item.now)))) }
{
    item.is_lawful();
    let value = item_to_json(alloc, item)?;
    Ok(value.to_vec(alloc)?)
}
