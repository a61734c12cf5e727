//! Items, their texts and their copies.

use crate::fields;
use crate::texts::{parts, push, shown};
use crate::values::push_value;
use dbe_config::Config;
use dbe_num::Memory;
use dbe_values::{Item, ItemFault, equal, item_from_json, item_text, json_value, order};
use serde_json::Value;
use std::alloc::Global;

/// The answer to a case of an item: the item's text, and a name where the kind takes one.
pub(crate) fn answer(
    alloc: Global,
    out: &mut String,
    config: &Option<Config>,
    kind: &str,
    case: &str,
) -> Result<(), Memory> {
    let (spelled, name) = parts(case);
    match json_value(alloc, spelled.as_bytes())? {
        Some(json) => of_json(alloc, out, config, kind, &json, name),
        None => push(out, "no JSON"),
    }
}

fn of_json(
    alloc: Global,
    out: &mut String,
    config: &Option<Config>,
    kind: &str,
    json: &Value,
    name: &str,
) -> Result<(), Memory> {
    match item_from_json(alloc, json) {
        Ok(item) => of_item(alloc, out, config, kind, &item, name),
        Err(fault) => push_fault(out, &fault),
    }
}

// The fault of an item, after the name that it is at.
fn push_fault(out: &mut String, fault: &ItemFault) -> Result<(), Memory> {
    match fault {
        ItemFault::NotObject => push(out, "NotObject"),
        ItemFault::At { name, why } => {
            write!(out, "{}:{why:?}", name.as_str())?;
            Ok(())
        }
    }
}

fn of_item(
    alloc: Global,
    out: &mut String,
    config: &Option<Config>,
    kind: &str,
    item: &Item,
    name: &str,
) -> Result<(), Memory> {
    match kind {
        "item" => push_item(alloc, out, item),
        "copied" => copied(alloc, out, item),
        "pair" => pair(out, item),
        "get" => get(alloc, out, item, name),
        _ => match config {
            Some(config) => fields::answer(alloc, out, config, kind, item, name),
            None => push(out, "no configuration"),
        },
    }
}

/// The text of an item.
pub(crate) fn push_item(alloc: Global, out: &mut String, item: &Item) -> Result<(), Memory> {
    let text = item_text(alloc, item)?;
    push(out, shown(&text))
}

fn copied(alloc: Global, out: &mut String, item: &Item) -> Result<(), Memory> {
    let copy = item.copy(alloc)?;
    push_item(alloc, out, &copy)
}

// Whether the two values of an item are equal, and how they are ordered.
fn pair(out: &mut String, item: &Item) -> Result<(), Memory> {
    if item.len() != 2 {
        return push(out, "no pair");
    }
    let (a, b) = (item.at(0).1, item.at(1).1);
    let (same, order) = (equal(a, b), order(a, b));
    write!(out, "{same} {order:?}")?;
    Ok(())
}

fn get(alloc: Global, out: &mut String, item: &Item, name: &str) -> Result<(), Memory> {
    match item.get(name) {
        Some(value) => push_value(alloc, out, value),
        None => push(out, "none"),
    }
}
