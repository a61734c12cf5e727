ghost use Rattle.std.specs.Prelude.{◌≡◌, true, IfOk, option_map};
ghost use Rattle.dbe_values.specs.Attributes.{value_at};
ghost use Rattle.dbe_values.specs.declared.value.AttrValue.{S};
ghost use Rattle.dbe_fields.specs.Plain.{plain, is_computed};

use crate::compounds::{compound_named, compound_text};
use crate::virtuals::{virtual_named, virtual_text};
use dbe_config::Config;
use dbe_num::{Memory, Text};
use dbe_values::{AttrValue, Item};
use std::alloc::Global;

/// The value of a name over an item: the text of a compound, the value of a virtual field, or an attribute.
///
/// A name that is a compound's or a virtual field's has its value or none, whatever the item holds.
#[tactic(auto, unfolding(crate::specs::Plain::plain))]
pub fn value_of(
    alloc: Global,
    config: &Config,
    name: &Text,
    item: &Item,
) -> Result<Option<AttrValue>, Memory>
    ensures { IfOk result (λ v. v ≡ plain config.now name.now item.now) }
{
    match compound_named(config, name) {
        Some(compound) => Ok(value_with(compound_text(alloc, config, compound, item)?)),
        None => match virtual_named(config, name) {
            Some(field) => Ok(value_with(virtual_text(alloc, field.parts.as_slice(), item)?)),
            None => attribute(alloc, name, item),
        },
    }
}

/// The text of a virtual field or a compound over an item, where there is one.
#[tactic(auto, unfolding(crate::specs::Plain::plain))]
pub(crate) fn computed_text(
    alloc: Global,
    config: &Config,
    name: &Text,
    item: &Item,
) -> Result<Option<Text>, Memory>
    ensures { IfOk result (λ o. is_computed config.now name.now ≡ true → option_map S o ≡ plain config.now name.now item.now) }
{
    match compound_named(config, name) {
        Some(compound) => compound_text(alloc, config, compound, item),
        None => match virtual_named(config, name) {
            Some(field) => virtual_text(alloc, field.parts.as_slice(), item),
            None => Ok(None),
        },
    }
}

fn value_with(text: Option<Text>) -> Option<AttrValue>
    ensures { result ≡ option_map S text }
{
    match text {
        Some(text) => Some(AttrValue::S(text)),
        None => None,
    }
}

fn attribute(alloc: Global, name: &Text, item: &Item) -> Result<Option<AttrValue>, Memory>
    ensures { IfOk result (λ v. v ≡ value_at name.now item.now) }
{
    match item.get(name.as_str()) {
        Some(value) => Ok(Some(value.copy(alloc)?)),
        None => Ok(None),
    }
}
