ghost use Rattle.std.specs.Prelude.{◌≡◌, IfOk, find, bytes_eq, option_map, option_and_then};
ghost use Rattle.dbe_fields.specs.Texts.{value_text};
ghost use Rattle.dbe_fields.specs.Virtuals.{part_chars, virtual_text, virtual_named, field_value};

use crate::characters::Characters;
use crate::steps::through;
use crate::texts::{attribute_text, characters_of};
use dbe_config::{Config, Virtual, VirtualPart};
use dbe_num::{Memory, Text};
use dbe_values::Item;
use std::alloc::Global;

// The virtual field of a name.
pub(crate) fn virtual_named<'a>(config: &'a Config, name: &Text) -> Option<&'a Virtual>
    ensures { option_map (λ v. v.now) result ≡ virtual_named config.now name.now }
{
    first_named(config.virtuals(), name)
}

fn first_named<'a>(fields: &'a [Virtual], name: &Text) -> Option<&'a Virtual>
    ensures { option_map (λ v. v.now) result ≡ find (λ v. bytes_eq name.now v.name) fields.now }
{
    for field in fields {
        if name.as_bytes() == field.name.as_bytes() {
            return Some(field);
        }
    }
    None
}

// The text of a virtual field over an item, where there is one.
pub(crate) fn virtual_text(
    alloc: Global,
    parts: &[VirtualPart],
    item: &Item,
) -> Result<Option<Text>, Memory>
    ensures { IfOk result (λ o. o ≡ virtual_text item.now parts.now) }
{
    let mut text = String::new(alloc);
    for part in parts {
        match part_characters(alloc, part, item)? {
            Some(characters) => characters.push_onto(&mut text)?,
            None => return Ok(None),
        }
    }
    Ok(Some(Text::from_string(text)))
}

fn part_characters(
    alloc: Global,
    part: &VirtualPart,
    item: &Item,
) -> Result<Option<Characters>, Memory>
    ensures { IfOk result (λ o. o ≡ part_chars item.now part.now) }
{
    match item.get(part.from.as_str()) {
        Some(value) => match characters_of(alloc, value)? {
            Some(text) => through(alloc, text, part.steps.as_slice()),
            None => Ok(None),
        },
        None => Ok(None),
    }
}

// The text of the virtual field or else of the attribute of a name.
pub(crate) fn field_text(
    alloc: Global,
    config: &Config,
    name: &Text,
    item: &Item,
) -> Result<Option<Text>, Memory>
    ensures { IfOk result (λ o. o ≡ option_and_then value_text (field_value config.now name.now item.now)) }
{
    match virtual_named(config, name) {
        Some(field) => virtual_text(alloc, field.parts.as_slice(), item),
        None => attribute_text(alloc, name, item),
    }
}
