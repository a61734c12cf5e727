ghost use Rattle.std.specs.Prelude.{◌≡◌, IfOk, chars, option_map, option_and_then};
ghost use Rattle.dbe_values.specs.Attributes.{value_at};
ghost use Rattle.dbe_fields.specs.Texts.{value_text};

use crate::characters::Characters;
use dbe_num::{Memory, Text};
use dbe_values::{AttrValue, Item};
use std::alloc::Global;

// The characters of a value's text, where it has one.
pub(crate) fn characters_of(alloc: Global, value: &AttrValue) -> Result<Option<Characters>, Memory>
    ensures { IfOk result (λ o. o ≡ option_map chars (value_text value.now)) }
{
    match value {
        AttrValue::S(text) => Ok(Some(Characters::of(alloc, text.as_str())?)),
        AttrValue::N(number) => {
            let text = number.text(alloc)?;
            Ok(Some(Characters::of(alloc, text.as_str())?))
        }
        AttrValue::B(_) => Ok(None),
        AttrValue::Bool(_) => Ok(None),
        AttrValue::Null => Ok(None),
        AttrValue::Ss(_) => Ok(None),
        AttrValue::Ns(_) => Ok(None),
        AttrValue::Bs(_) => Ok(None),
        AttrValue::L(_) => Ok(None),
        AttrValue::M(_) => Ok(None),
    }
}

// The text of a value, where it has one.
fn text_of(alloc: Global, value: &AttrValue) -> Result<Option<Text>, Memory>
    ensures { IfOk result (λ o. o ≡ value_text value.now) }
{
    match value {
        AttrValue::S(text) => Ok(Some(text.copy(alloc)?)),
        AttrValue::N(number) => Ok(Some(number.text(alloc)?)),
        AttrValue::B(_) => Ok(None),
        AttrValue::Bool(_) => Ok(None),
        AttrValue::Null => Ok(None),
        AttrValue::Ss(_) => Ok(None),
        AttrValue::Ns(_) => Ok(None),
        AttrValue::Bs(_) => Ok(None),
        AttrValue::L(_) => Ok(None),
        AttrValue::M(_) => Ok(None),
    }
}

// The text of an attribute, where there is one.
pub(crate) fn attribute_text(
    alloc: Global,
    name: &Text,
    item: &Item,
) -> Result<Option<Text>, Memory>
    ensures { IfOk result (λ o. o ≡ option_and_then value_text (value_at name.now item.now)) }
{
    match item.get(name.as_str()) {
        Some(value) => text_of(alloc, value),
        None => Ok(None),
    }
}
