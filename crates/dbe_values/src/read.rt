ghost use Rattle.std.specs.Prelude.{◌≡◌, ◌≤◌, Ok, IfOk, length, [], List, ℕ, option_map, codes};
ghost use Rattle.std.specs.Borrow.{Bor};
ghost use Rattle.serde_json.specs.View.{view as data_of, items_view, members_view};
ghost use Rattle.serde_json.specs.Find.{as_array};
ghost use Rattle.serde_json.specs.declared.value.Value.{Value};
ghost use Rattle.dbe_values.specs.Sets.{IsIncreasing, IsNumberText, IsSetOf};
ghost use Rattle.dbe_values.specs.declared.fault.ValueFault.TheVariants as fault;
ghost use Rattle.dbe_values.specs.Val as v;
ghost use Rattle.dbe_values.specs.View.{view};
ghost use Rattle.dbe_values.specs.Faults.{Gives, or_fault};
ghost use Rattle.dbe_values.specs.Reading.{single_of, text_in, number_in, number_text_in, binary_in, elements_after, elements_in, boolean_in, kind_in, value_in};
ghost use Rattle.dbe_values.specs.declared.kind.Kind.TheVariants as kind;
ghost use Rattle.std.specs.List.{All};
ghost use Rattle.std.specs.Str.{IsUtf8};
ghost use Rattle.dbe_num.specs.Decimal.{IsNormal};
ghost use Rattle.dbe_values.specs.Lawful.{AreBytes};

use crate::kind::{Kind, kind_of};
use crate::place::{ordered_binaries, ordered_texts, put_binary, put_text};
use crate::{AttrValue, BytesSet, NumberSet, TextSet, ValueFault, size_of};
use base64::DecodeAllocError;
use base64::engine::general_purpose::STANDARD;
use dbe_num::{Bytes, Number, Text};
use serde_json::Value;
use sqlite_items::Items;
use std::alloc::Global;
use std::collections::BTreeSet;

/// The one member of an object that has just one.
pub fn single_of(value: &Value) -> Option<(&str, &Value)>
    ensures { option_map (λ m. (m.0.now, data_of m.1.now)) result ≡ single_of (data_of value.now) }
{
    if size_of(value) != 1 {
        return None;
    }
    let (name, content) = value.as_object()?.iter().next()?;
    Some((name.as_str(), content))
}

fn text_in(value: &Value) -> Result<&str, ValueFault>
    ensures { Gives (λ (t : Bor (List ℕ)). t.now) result (text_in (data_of value.now)) }
{
    match value.as_str() {
        Some(text) => Ok(text),
        None => Err(ValueFault::Shape),
    }
}

pub fn number_in(value: &Value) -> Result<Number, ValueFault>
    ensures gives { Gives (λ n. n) result (number_in (data_of value.now)) }
    ensures lawful { IfOk result IsNormal }
{
    match Number::parse(text_in(value)?) {
        Ok(number) => {
            number.is_normal();
            Ok(number)
        }
        Err(_) => Err(ValueFault::BadNumber),
    }
}

pub fn binary_in(alloc: Global, value: &Value) -> Result<Bytes, ValueFault>
    ensures lawful { IfOk result AreBytes }
    ensures gives { Gives (λ b. b) result (binary_in (data_of value.now)) }
{
    match STANDARD.decode(alloc, text_in(value)?.as_bytes()) {
        Ok(bytes) => Ok(Bytes::from_vec(bytes)),
        Err(DecodeAllocError::DecodeError(_)) => Err(ValueFault::BadBase64),
        Err(DecodeAllocError::OutOfMemory) => Err(ValueFault::Memory),
    }
}

pub fn boolean_in(value: &Value) -> Result<bool, ValueFault>
    ensures { Gives (λ b. b) result (boolean_in (data_of value.now)) }
{
    match value.as_bool() {
        Some(b) => Ok(b),
        None => Err(ValueFault::Shape),
    }
}

fn items_in(value: &Value) -> Result<&[Value], ValueFault>
    ensures { Gives (λ (vs : Bor (List Value)). items_view vs.now) result (or_fault fault.Shape (as_array (data_of value.now))) }
{
    match value.as_array() {
        Some(items) => Ok(items.as_slice()),
        None => Err(ValueFault::Shape),
    }
}

pub fn owned_text_in(alloc: Global, value: &Value) -> Result<Text, ValueFault>
    ensures lawful { IfOk result IsUtf8 }
    ensures gives { Gives (λ t. t) result (text_in (data_of value.now)) }
{
    Ok(Text::copy_of(alloc, text_in(value)?)?)
}

fn number_text_in(alloc: Global, value: &Value) -> Result<Text, ValueFault>
    ensures lawful { IfOk result IsNumberText }
    ensures gives { Gives (λ t. t) result (number_text_in (data_of value.now)) }
{
    Ok(number_in(value)?.text(alloc)?)
}

fn texts_of(alloc: Global, items: &[Value]) -> Result<Vec<Text>, ValueFault>
    ensures gives { Gives (λ xs. xs.items) result (elements_after text_in [] (items_view items.now)) }
    ensures lawful { IfOk result (λ xs. All IsUtf8 xs.items) }
    ensures rises { IfOk result (λ xs. IsIncreasing xs.items) }
    ensures some { IfOk result (λ xs. length items.now ≤ length xs.items) }
{
    let mut texts = BTreeSet::new(alloc);
    for item in items {
        put_text(&mut texts, owned_text_in(alloc, item)?)?;
    }
    Ok(ordered_texts(alloc, texts)?)
}

fn numbers_of(alloc: Global, items: &[Value]) -> Result<Vec<Text>, ValueFault>
    ensures gives { Gives (λ xs. xs.items) result (elements_after number_text_in [] (items_view items.now)) }
    ensures lawful { IfOk result (λ xs. All IsNumberText xs.items) }
    ensures rises { IfOk result (λ xs. IsIncreasing xs.items) }
    ensures some { IfOk result (λ xs. length items.now ≤ length xs.items) }
{
    let mut texts = BTreeSet::new(alloc);
    for item in items {
        put_text(&mut texts, number_text_in(alloc, item)?)?;
    }
    Ok(ordered_texts(alloc, texts)?)
}

fn binaries_of(alloc: Global, items: &[Value]) -> Result<Vec<Bytes>, ValueFault>
    ensures gives { Gives (λ xs. xs.items) result (elements_after binary_in [] (items_view items.now)) }
    ensures lawful { IfOk result (λ xs. All AreBytes xs.items) }
    ensures rises { IfOk result (λ xs. IsIncreasing xs.items) }
    ensures some { IfOk result (λ xs. length items.now ≤ length xs.items) }
{
    let mut binaries = BTreeSet::new(alloc);
    for item in items {
        put_binary(&mut binaries, binary_in(alloc, item)?)?;
    }
    Ok(ordered_binaries(alloc, binaries)?)
}

pub fn text_set_in(alloc: Global, value: &Value) -> Result<TextSet, ValueFault>
    ensures gives { Gives (λ s. s) result (elements_in text_in (data_of value.now)) }
    ensures lawful { IfOk result (IsSetOf IsUtf8) }
{
    let items = items_in(value)?;
    if items.is_empty() {
        return Err(ValueFault::EmptySet);
    }
    Ok(TextSet::from_elements(Items::from_vec(texts_of(alloc, items)?)))
}

pub fn number_set_in(alloc: Global, value: &Value) -> Result<NumberSet, ValueFault>
    ensures gives { Gives (λ s. s) result (elements_in number_text_in (data_of value.now)) }
    ensures lawful { IfOk result (IsSetOf IsNumberText) }
{
    let items = items_in(value)?;
    if items.is_empty() {
        return Err(ValueFault::EmptySet);
    }
    Ok(NumberSet::from_elements(Items::from_vec(numbers_of(alloc, items)?)))
}

pub fn binary_set_in(alloc: Global, value: &Value) -> Result<BytesSet, ValueFault>
    ensures gives { Gives (λ s. s) result (elements_in binary_in (data_of value.now)) }
    ensures lawful { IfOk result (IsSetOf AreBytes) }
{
    let items = items_in(value)?;
    if items.is_empty() {
        return Err(ValueFault::EmptySet);
    }
    Ok(BytesSet::from_elements(Items::from_vec(binaries_of(alloc, items)?)))
}
