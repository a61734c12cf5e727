ghost use Rattle.std.specs.Prelude.{◌≡◌, map, IfOk, ℕ};
ghost use Rattle.serde_json.specs.View.{view as data_of, items_view, members_view};
ghost use Rattle.dbe_values.specs.View.{view, vals_of, entries_of, entry_view};
ghost use Rattle.dbe_values.specs.Faults.{Gives};
ghost use Rattle.dbe_values.specs.Reading.{null_in, value_in, list_in, map_in, values_in, entries_in};
ghost use Rattle.dbe_values.specs.Sets.{IsIncreasing};
ghost use Rattle.dbe_values.specs.Lawful.{IsLawful, AreLawful, AreLawfulEntries, names_of};

use crate::kind::{Kind, kind_of};
use crate::read::{
    binary_in, binary_set_in, boolean_in, number_in, number_set_in, owned_text_in, single_of,
    text_set_in,
};
use crate::{AttrValue, ValueFault};
use dbe_num::Text;
use serde_json::{Map, Value};
use sqlite_items::Items;
use std::alloc::Global;

/// The value that a JSON value spells, or the first fault of the walk through it.
pub fn from_json(alloc: Global, value: &Value) -> Result<AttrValue, ValueFault>
    ensures gives { Gives view result (value_in 32 (data_of value.now)) }
    ensures lawful { IfOk result (λ v. IsLawful 32 (view v)) }
{
    value_in(alloc, value, 32)
}

/// The same, where `left` levels of lists and maps may nest.
#[cycle(read)]
fn value_in(alloc: Global, value: &Value, left: u8) -> Result<AttrValue, ValueFault>
    ensures gives { Gives view result (value_in left (data_of value.now)) }
    ensures lawful { IfOk result (λ v. IsLawful left (view v)) }
{
    let Some((name, content)) = single_of(value) else {
        return Err(ValueFault::Shape);
    };
    match kind_of(name) {
        None => Err(ValueFault::Shape),
        Some(Kind::S) => Ok(AttrValue::S(owned_text_in(alloc, content)?)),
        Some(Kind::N) => Ok(AttrValue::N(number_in(content)?)),
        Some(Kind::B) => Ok(AttrValue::B(binary_in(alloc, content)?)),
        Some(Kind::Bool) => Ok(AttrValue::Bool(boolean_in(content)?)),
        Some(Kind::Null) => null_in(content),
        Some(Kind::Ss) => Ok(AttrValue::Ss(text_set_in(alloc, content)?)),
        Some(Kind::Ns) => Ok(AttrValue::Ns(number_set_in(alloc, content)?)),
        Some(Kind::Bs) => Ok(AttrValue::Bs(binary_set_in(alloc, content)?)),
        Some(Kind::L) => list_in(alloc, content, left),
        Some(Kind::M) => map_in(alloc, content, left),
    }
}

fn null_in(value: &Value) -> Result<AttrValue, ValueFault>
    ensures gives { Gives view result (null_in (data_of value.now)) }
    ensures lawful { IfOk result (λ v. (left : ℕ) → IsLawful left (view v)) }
{
    if boolean_in(value)? {
        Ok(AttrValue::Null)
    } else {
        Err(ValueFault::Shape)
    }
}

#[cycle(read)]
fn list_in(alloc: Global, value: &Value, left: u8) -> Result<AttrValue, ValueFault>
    ensures gives { Gives view result (list_in left (data_of value.now)) }
    ensures lawful { IfOk result (λ v. IsLawful left (view v)) }
{
    if left == 0 {
        return Err(ValueFault::TooDeep);
    }
    match value.as_array() {
        Some(items) => match values_in(alloc, items.as_slice(), left - 1) {
            Ok(values) => Ok(AttrValue::L(values)),
            Err(fault) => Err(fault),
        },
        None => Err(ValueFault::Shape),
    }
}

#[cycle(read)]
fn map_in(alloc: Global, value: &Value, left: u8) -> Result<AttrValue, ValueFault>
    ensures gives { Gives view result (map_in left (data_of value.now)) }
    ensures lawful { IfOk result (λ v. IsLawful left (view v)) }
{
    if left == 0 {
        return Err(ValueFault::TooDeep);
    }
    match value.as_object() {
        Some(members) => match entries_in(alloc, members, left - 1) {
            Ok(entries) => Ok(AttrValue::M(entries)),
            Err(fault) => Err(fault),
        },
        None => Err(ValueFault::Shape),
    }
}

#[cycle(read)]
fn values_in(alloc: Global, items: &[Value], left: u8) -> Result<Items<AttrValue>, ValueFault>
    ensures gives { Gives (λ vs. vals_of (map view vs)) result (values_in left (items_view items.now)) }
    ensures lawful { IfOk result (λ vs. AreLawful left (vals_of (map view vs))) }
{
    let mut values = Items::new(alloc);
    for item in items {
        values.push(value_in(alloc, item, left)?)?;
    }
    Ok(values)
}

#[cycle(read)]
fn entries_in(
    alloc: Global,
    members: &Map<String, Value>,
    left: u8,
) -> Result<Items<(Text, AttrValue)>, ValueFault>
    ensures gives { Gives (λ es. entries_of (map entry_view es)) result (entries_in left (members_view members.now.entries)) }
    ensures lawful { IfOk result (λ es. AreLawfulEntries left (entries_of (map entry_view es))) }
    ensures rises { IfOk result (λ es. IsIncreasing (names_of es)) }
{
    let mut entries = Items::new(alloc);
    for (name, content) in members {
        let value = value_in(alloc, content, left)?;
        entries.push((Text::copy_of(alloc, name.as_str())?, value))?;
    }
    Ok(entries)
}
