//! Values of virtual fields and compounds over items.

use crate::items::push_item;
use crate::texts::push;
use dbe_config::Config;
use dbe_fields::{extended, is_computed, split_fault, value_of, values_of};
use dbe_num::{Memory, Text};
use dbe_values::{AttrValue, Item};
use std::alloc::Global;

pub(crate) fn computed(
    alloc: Global,
    out: &mut String,
    config: &Config,
    case: &str,
) -> Result<(), Memory> {
    let name = Text::copy_of(alloc, case)?;
    push(
        out,
        if is_computed(config, &name) {
            "yes"
        } else {
            "no"
        },
    )
}

/// The answer to a case of an item under a configuration, with names where the kind takes them.
pub(crate) fn answer(
    alloc: Global,
    out: &mut String,
    config: &Config,
    kind: &str,
    item: &Item,
    names: &str,
) -> Result<(), Memory> {
    match kind {
        "field" => field(alloc, out, config, item, names),
        "split" => split(alloc, out, config, item),
        "extended" => push_extended(alloc, out, config, item),
        "named" => named(alloc, out, config, item, names),
        _ => push(out, "no such kind"),
    }
}

// The value of a name over an item.
fn field(
    alloc: Global,
    out: &mut String,
    config: &Config,
    item: &Item,
    name: &str,
) -> Result<(), Memory> {
    let name = Text::copy_of(alloc, name)?;
    push_field(alloc, out, config, item, &name)
}

fn push_field(
    alloc: Global,
    out: &mut String,
    config: &Config,
    item: &Item,
    name: &Text,
) -> Result<(), Memory> {
    let value = value_of(alloc, config, name, item)?;
    push_any(alloc, out, &value)
}

// A text in brackets, a number in parentheses, or none.
fn push_any(alloc: Global, out: &mut String, value: &Option<AttrValue>) -> Result<(), Memory> {
    match value {
        Some(AttrValue::S(text)) => push_between(out, "[", text.as_str(), "]"),
        Some(AttrValue::N(number)) => {
            let text = number.text(alloc)?;
            push_between(out, "(", text.as_str(), ")")
        }
        Some(_) => push(out, "other"),
        None => push(out, "none"),
    }
}

fn push_between(out: &mut String, open: &str, text: &str, close: &str) -> Result<(), Memory> {
    push(out, open)?;
    push(out, text)?;
    push(out, close)
}

// The compound and the part whose text has the split character.
fn split(alloc: Global, out: &mut String, config: &Config, item: &Item) -> Result<(), Memory> {
    match split_fault(alloc, config, item)? {
        Some(at) => push_between(out, at.beacon.as_str(), ".", at.part.as_str()),
        None => push(out, "none"),
    }
}

fn push_extended(
    alloc: Global,
    out: &mut String,
    config: &Config,
    item: &Item,
) -> Result<(), Memory> {
    let extended = extended(alloc, config, item)?;
    push_item(alloc, out, &extended)
}

// An item of the values that names have over an item.
fn named(
    alloc: Global,
    out: &mut String,
    config: &Config,
    item: &Item,
    list: &str,
) -> Result<(), Memory> {
    let mut names = Vec::new(alloc);
    push_names(alloc, &mut names, list)?;
    push_named(alloc, out, config, item, &names)
}

fn push_names(alloc: Global, names: &mut Vec<Text>, list: &str) -> Result<(), Memory> {
    for name in list.split(',') {
        names.push(Text::copy_of(alloc, name)?)?;
    }
    Ok(())
}

fn push_named(
    alloc: Global,
    out: &mut String,
    config: &Config,
    item: &Item,
    names: &[Text],
) -> Result<(), Memory> {
    let values = values_of(alloc, config, names, item)?;
    push_item(alloc, out, &values)
}
