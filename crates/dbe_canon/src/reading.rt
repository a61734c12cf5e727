ghost use Rattle.std.specs.Prelude.{◌≡◌, Some, IfOk, IsErrOf, map};
ghost use Rattle.dbe_values.specs.Val.{Val};
ghost use Rattle.dbe_values.specs.View.{view, entry_view};
ghost use Rattle.dbe_canon.specs.Canon.{Canon};
ghost use Rattle.dbe_canon.specs.Reading.{Gives, kind_in, kind_of, value_in, value_at, entry_at, many_at, list_of, map_of, list_in, map_in, is_increasing};

use crate::CanonFault;
use crate::kind::{Kind, kind_of};
use crate::leaves::{boolean_in, null_in, number_in, text_in};
use crate::sets::{binary_set_in, is_below, number_set_in, text_at, text_set_in};
use crate::strings::{bytes_at, count_at, string_at};
use dbe_num::{Bytes, Text};
use dbe_values::AttrValue;
use sqlite_items::Items;
use std::alloc::Global;

/// How many levels of lists and maps may nest.
const LEVELS: u8 = 32;

/// The value with this type and these canonical bytes, all of them.
///
/// `NotCanonical` where there is none: an unknown id, bytes of another form, a text that is not UTF-8, a number that is
/// not its normal text, a set that is empty or not in order, a map whose names are not in order, or lists and maps
/// nested more than 32 levels deep.
pub fn read(alloc: Global, id: [u8; 2], bytes: &[u8]) -> Result<AttrValue, CanonFault>
    ensures found { IfOk result (λ value. Canon (view value) id bytes.now) }
    ensures none { IsErrOf result CanonFault.NotCanonical → (value : Val) → Canon value id bytes.now → ⊥ }
{
    value_in(alloc, LEVELS, &id, bytes)
}

/// The same, where `left` levels of lists and maps may nest.
#[cycle(read)]
fn value_in(alloc: Global, left: u8, id: &[u8], bytes: &[u8]) -> Result<AttrValue, CanonFault>
    ensures { Gives view result (value_in left id.now bytes.now) }
{
    match kind_of(id) {
        None => Err(CanonFault::NotCanonical),
        Some(kind) => value_of(alloc, left, kind, bytes),
    }
}

/// The value of a type.
#[cycle(read)]
fn value_of(alloc: Global, left: u8, kind: Kind, bytes: &[u8]) -> Result<AttrValue, CanonFault>
    ensures { Gives view result (kind_in (Some kind) (list_in left) (map_in left) bytes.now) }
{
    match kind {
        Kind::Null => null_in(bytes),
        Kind::S => Ok(AttrValue::S(text_in(alloc, bytes)?)),
        Kind::N => Ok(AttrValue::N(number_in(alloc, bytes)?)),
        Kind::Bool => boolean_in(bytes),
        Kind::B => Ok(AttrValue::B(Bytes::copy_of(alloc, bytes)?)),
        Kind::Ss => Ok(AttrValue::Ss(text_set_in(alloc, bytes)?)),
        Kind::Ns => Ok(AttrValue::Ns(number_set_in(alloc, bytes)?)),
        Kind::Bs => Ok(AttrValue::Bs(binary_set_in(alloc, bytes)?)),
        Kind::M => map_in(alloc, left, bytes),
        Kind::L => list_in(alloc, left, bytes),
    }
}

#[cycle(read)]
fn list_in(alloc: Global, left: u8, bytes: &[u8]) -> Result<AttrValue, CanonFault>
    ensures { Gives view result (list_in left bytes.now) }
{
    if left == 0 {
        return Err(CanonFault::NotCanonical);
    }
    list_of(alloc, left - 1, bytes)
}

#[cycle(read)]
#[tactic(auto, unfolding(crate::specs::Reading::list_of))]
fn list_of(alloc: Global, left: u8, bytes: &[u8]) -> Result<AttrValue, CanonFault>
    ensures { Gives view result (list_of (value_in left) bytes.now) }
{
    let (count, rest) = count_at(bytes)?;
    let (values, rest) = values_at(alloc, left, count, rest)?;
    if !rest.is_empty() {
        return Err(CanonFault::NotCanonical);
    }
    Ok(AttrValue::L(values))
}

#[cycle(read)]
fn map_in(alloc: Global, left: u8, bytes: &[u8]) -> Result<AttrValue, CanonFault>
    ensures { Gives view result (map_in left bytes.now) }
{
    if left == 0 {
        return Err(CanonFault::NotCanonical);
    }
    map_of(alloc, left - 1, bytes)
}

#[cycle(read)]
#[tactic(auto, unfolding(crate::specs::Reading::map_of))]
fn map_of(alloc: Global, left: u8, bytes: &[u8]) -> Result<AttrValue, CanonFault>
    ensures { Gives view result (map_of (value_in left) bytes.now) }
{
    let (count, rest) = count_at(bytes)?;
    let (entries, rest) = entries_at(alloc, left, count, rest)?;
    if !rest.is_empty() {
        return Err(CanonFault::NotCanonical);
    }
    if !are_names_increasing(entries.as_slice()) {
        return Err(CanonFault::NotCanonical);
    }
    Ok(AttrValue::M(entries))
}

/// A value at the front, behind its type and its length.
#[cycle(read)]
#[tactic(auto, unfolding(crate::specs::Reading::value_at))]
fn value_at(alloc: Global, left: u8, bytes: &[u8]) -> Result<(AttrValue, &[u8]), CanonFault>
    ensures { Gives (λ x. (view x.0, x.1.now)) result (value_at (value_in left) bytes.now) }
{
    let (id, rest) = bytes_at(2, bytes)?;
    let (string, rest) = string_at(rest)?;
    Ok((value_in(alloc, left, id, string)?, rest))
}

/// A name and its value at the front.
#[cycle(read)]
#[tactic(auto, unfolding(crate::specs::Reading::entry_at))]
fn entry_at(alloc: Global, left: u8, bytes: &[u8]) -> Result<((Text, AttrValue), &[u8]), CanonFault>
    ensures { Gives (λ x. (entry_view x.0, x.1.now)) result (entry_at (value_in left) bytes.now) }
{
    let (name, rest) = text_at(alloc, bytes)?;
    let (value, rest) = value_at(alloc, left, rest)?;
    Ok(((name, value), rest))
}

#[cycle(read)]
fn values_at(
    alloc: Global,
    left: u8,
    count: u64,
    bytes: &[u8],
) -> Result<(Items<AttrValue>, &[u8]), CanonFault>
    ensures { Gives (λ x. (map view x.0, x.1.now)) result (many_at (value_at (value_in left)) count bytes.now) }
{
    let mut values = Items::new(alloc);
    let mut rest = bytes;
    for _ in 0..count {
        let (value, after) = value_at(alloc, left, rest)?;
        values.push(value)?;
        rest = after;
    }
    Ok((values, rest))
}

#[cycle(read)]
fn entries_at(
    alloc: Global,
    left: u8,
    count: u64,
    bytes: &[u8],
) -> Result<(Items<(Text, AttrValue)>, &[u8]), CanonFault>
    ensures { Gives (λ x. (map entry_view x.0, x.1.now)) result (many_at (entry_at (value_in left)) count bytes.now) }
{
    let mut entries = Items::new(alloc);
    let mut rest = bytes;
    for _ in 0..count {
        let (entry, after) = entry_at(alloc, left, rest)?;
        entries.push(entry)?;
        rest = after;
    }
    Ok((entries, rest))
}

/// Whether each name is below the one behind it.
fn are_names_increasing(entries: &[(Text, AttrValue)]) -> bool
    ensures { result ≡ is_increasing (map (λ e. e.0) entries.now) }
{
    for i in 1..entries.len() {
        if !is_below(entries[i - 1].0.as_bytes(), entries[i].0.as_bytes()) {
            return false;
        }
    }
    true
}
