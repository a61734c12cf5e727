//! Values.

use crate::texts::push;
use dbe_num::Memory;
use dbe_values::{AttrValue, from_json, json_value, to_json};
use serde_json::Value;
use std::alloc::Global;

/// The text of a value.
pub(crate) fn push_value(alloc: Global, out: &mut String, value: &AttrValue) -> Result<(), Memory> {
    let json = to_json(alloc, value)?;
    push_json(alloc, out, &json)
}

fn push_json(alloc: Global, out: &mut String, json: &Value) -> Result<(), Memory> {
    let text = json.to_string(alloc)?;
    push(out, text.as_str())
}

/// The value that a text spells, written again, or the name of the fault.
pub(crate) fn read_again(alloc: Global, out: &mut String, case: &str) -> Result<(), Memory> {
    match json_value(alloc, case.as_bytes())? {
        Some(json) => push_read(alloc, out, &json),
        None => push(out, "no JSON"),
    }
}

fn push_read(alloc: Global, out: &mut String, json: &Value) -> Result<(), Memory> {
    match from_json(alloc, json) {
        Ok(value) => push_value(alloc, out, &value),
        Err(fault) => {
            write!(out, "{fault:?}")?;
            Ok(())
        }
    }
}
