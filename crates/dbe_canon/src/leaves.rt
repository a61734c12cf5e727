ghost use Rattle.std.specs.Prelude.{◌≡◌};
ghost use Rattle.dbe_values.specs.View.{view};
ghost use Rattle.dbe_canon.specs.Reading.{Gives, text_in, number_in, number_text_in, null_in, boolean_in};

use crate::CanonFault;
use dbe_num::{Number, Text};
use dbe_values::AttrValue;
use std::alloc::Global;

/// A text of UTF-8.
#[tactic(auto, unfolding(crate::specs::Reading::text_in))]
pub fn text_in(alloc: Global, bytes: &[u8]) -> Result<Text, CanonFault>
    ensures { Gives (λ t. t) result (text_in bytes.now) }
{
    match str::from_utf8(bytes) {
        Ok(text) => Ok(Text::copy_of(alloc, text)?),
        Err(_) => Err(CanonFault::NotCanonical),
    }
}

/// A number by its normal text.
#[tactic(auto, unfolding(crate::specs::Reading::number_in))]
pub fn number_in(alloc: Global, bytes: &[u8]) -> Result<Number, CanonFault>
    ensures { Gives (λ n. n) result (number_in bytes.now) }
{
    let Ok(text) = str::from_utf8(bytes) else {
        return Err(CanonFault::NotCanonical);
    };
    match Number::parse(text) {
        Ok(number) => {
            if number.text(alloc)?.as_bytes() == bytes {
                Ok(number)
            } else {
                Err(CanonFault::NotCanonical)
            }
        }
        Err(_) => Err(CanonFault::NotCanonical),
    }
}

/// The normal text of a number.
#[tactic(auto, unfolding(crate::specs::Reading::number_text_in))]
pub fn number_text_in(alloc: Global, bytes: &[u8]) -> Result<Text, CanonFault>
    ensures { Gives (λ t. t) result (number_text_in bytes.now) }
{
    let number = number_in(alloc, bytes)?;
    Ok(number.text(alloc)?)
}

pub fn null_in(bytes: &[u8]) -> Result<AttrValue, CanonFault>
    ensures { Gives view result (null_in bytes.now) }
{
    if bytes.is_empty() {
        Ok(AttrValue::Null)
    } else {
        Err(CanonFault::NotCanonical)
    }
}

pub fn boolean_in(bytes: &[u8]) -> Result<AttrValue, CanonFault>
    ensures { Gives view result (boolean_in bytes.now) }
{
    if bytes == [0].as_slice() {
        Ok(AttrValue::Bool(false))
    } else if bytes == [1].as_slice() {
        Ok(AttrValue::Bool(true))
    } else {
        Err(CanonFault::NotCanonical)
    }
}
