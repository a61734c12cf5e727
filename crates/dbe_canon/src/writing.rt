ghost use Rattle.std.specs.Prelude.{◌≡◌, ◌+◌, ◌≤◌, ◌++◌, IfOk, OnOk, map, length, take, drop};
ghost use Rattle.dbe_values.specs.View.{view, vals_of, entries_of, entry_view};
ghost use Rattle.dbe_values.specs.Lawful.{IsLawful};
ghost use Rattle.dbe_canon.specs.Canon.{Canon, type_id, canon_of, count_bytes, long_string, long_strings, vals_bytes, entries_bytes};

use crate::type_id;
use dbe_num::{Bytes, Memory, Text};
use dbe_values::AttrValue;
use std::alloc::Global;

/// The canonical bytes of a value.
pub fn canon(alloc: Global, value: &AttrValue) -> Result<Vec<u8>, Memory>
    ensures bytes { IfOk result (λ bytes. bytes.items ≡ canon_of (view value.now)) }
    // In memory each length fits its 8 bytes.
    ensures canon { IsLawful 32 (view value.now) → IfOk result (λ bytes. Canon (view value.now) (type_id (view value.now)) bytes.items) }
{
    let mut out = Vec::new(alloc);
    put_value(&mut out, alloc, value)?;
    Ok(out)
}

/// Writes the canonical bytes of a value at the end of `out`.
pub fn put_canon(out: &mut Vec<u8>, alloc: Global, value: &AttrValue) -> Result<(), Memory>
    ensures { OnOk result (out.new.items ≡ out.old.items ++ canon_of (view value.now)) }
{
    put_value(out, alloc, value)
}

#[cycle(write)]
#[tactic(auto, unfolding(crate::specs::Canon::canon_of))]
fn put_value(out: &mut Vec<u8>, alloc: Global, value: &AttrValue) -> Result<(), Memory>
    ensures { OnOk result (out.new.items ≡ out.old.items ++ canon_of (view value.now)) }
{
    match value {
        AttrValue::Null => Ok(()),
        AttrValue::S(text) => put_bytes(out, text.as_bytes()),
        AttrValue::N(number) => put_bytes(out, number.text(alloc)?.as_bytes()),
        AttrValue::Bool(b) => put_bytes(out, &[u8::from(*b)]),
        AttrValue::B(bytes) => put_bytes(out, bytes.as_slice()),
        AttrValue::Ss(set) => put_texts(out, set.elements()),
        AttrValue::Ns(set) => put_texts(out, set.elements()),
        AttrValue::Bs(set) => put_binaries(out, set.elements()),
        AttrValue::L(values) => put_values(out, alloc, values.as_slice()),
        AttrValue::M(entries) => put_entries(out, alloc, entries.as_slice()),
    }
}

pub(crate) fn put_bytes(out: &mut Vec<u8>, bytes: &[u8]) -> Result<(), Memory>
    ensures { OnOk result (out.new.items ≡ out.old.items ++ bytes.now) }
{
    out.extend_from_slice(bytes)?;
    Ok(())
}

#[tactic(auto, unfolding(crate::specs::Canon::count_bytes))]
pub(crate) fn put_count(out: &mut Vec<u8>, count: u64) -> Result<(), Memory>
    ensures { OnOk result (out.new.items ≡ out.old.items ++ count_bytes count) }
{
    out.extend_from_slice(&count.to_be_bytes())?;
    Ok(())
}

/// Bytes behind their length.
pub(crate) fn put_string(out: &mut Vec<u8>, bytes: &[u8]) -> Result<(), Memory>
    ensures { OnOk result (out.new.items ≡ out.old.items ++ long_string bytes.now) }
{
    put_count(out, bytes.len() as u64)?;
    put_bytes(out, bytes)
}

fn put_texts(out: &mut Vec<u8>, texts: &[Text]) -> Result<(), Memory>
    ensures { OnOk result (out.new.items ≡ out.old.items ++ (count_bytes (length texts.now) ++ long_strings texts.now)) }
{
    put_count(out, texts.len() as u64)?;
    for text in texts {
        put_string(out, text.as_bytes())?;
    }
    Ok(())
}

fn put_binaries(out: &mut Vec<u8>, binaries: &[Bytes]) -> Result<(), Memory>
    ensures { OnOk result (out.new.items ≡ out.old.items ++ (count_bytes (length binaries.now) ++ long_strings binaries.now)) }
{
    put_count(out, binaries.len() as u64)?;
    for bytes in binaries {
        put_string(out, bytes.as_slice())?;
    }
    Ok(())
}

/// A value behind its type and its length, which is filled in when the value stands.
#[cycle(write)]
fn put_typed(out: &mut Vec<u8>, alloc: Global, value: &AttrValue) -> Result<(), Memory>
    ensures { OnOk result (out.new.items ≡ out.old.items ++ (type_id (view value.now) ++ long_string (canon_of (view value.now)))) }
{
    put_bytes(out, &type_id(value))?;
    let start = out.len();
    put_count(out, 0)?;
    put_value(out, alloc, value)?;
    set_length(out, start);
    Ok(())
}

/// Writes how many bytes stand behind the 8 at `start` into these 8, big-endian.
#[tactic(auto, unfolding(crate::specs::Canon::count_bytes))]
pub fn set_length(out: &mut Vec<u8>, start: usize)
    requires { start + 8 ≤ length out.old.items }
    ensures { out.new.items ≡ take start out.old.items ++ long_string (drop (start + 8) out.old.items) }
{
    let length = (out.len() - start - 8) as u64;
    let bytes = length.to_be_bytes();
    out[start..start + 8].copy_from_slice(&bytes);
}

#[cycle(write)]
#[tactic(auto, unfolding(crate::specs::Canon::canon_of))]
fn put_values(out: &mut Vec<u8>, alloc: Global, values: &[AttrValue]) -> Result<(), Memory>
    ensures { OnOk result (out.new.items ≡ out.old.items ++ (count_bytes (length values.now) ++ vals_bytes (vals_of (map view values.now)))) }
{
    put_count(out, values.len() as u64)?;
    for value in values {
        put_typed(out, alloc, value)?;
    }
    Ok(())
}

#[cycle(write)]
fn put_entries(
    out: &mut Vec<u8>,
    alloc: Global,
    entries: &[(Text, AttrValue)],
) -> Result<(), Memory>
    ensures { OnOk result (out.new.items ≡ out.old.items ++ (count_bytes (length entries.now) ++ entries_bytes (entries_of (map entry_view entries.now)))) }
{
    put_count(out, entries.len() as u64)?;
    for entry in entries {
        put_string(out, entry.0.as_bytes())?;
        put_typed(out, alloc, &entry.1)?;
    }
    Ok(())
}
