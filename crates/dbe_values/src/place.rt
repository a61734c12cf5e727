//! The elements of a set in their order, while they are read and after it.

ghost use Rattle.std.specs.Prelude.{◌≡◌, ◌+◌, map, IfOk, OnOk, length, string_bytes, vec_items};
ghost use Rattle.dbe_values.specs.Sets.{placed, IsIncreasing};
ghost use Rattle.dbe_values.specs.Faults.{Gives, or_fault};
ghost use Rattle.dbe_values.specs.declared.fault.ValueFault.TheVariants as fault;

use crate::ValueFault;
use dbe_num::{Bytes, Memory, Text};
use std::alloc::Global;
use std::collections::BTreeSet;

/// Puts a text among others, in order.
pub fn put_text(texts: &mut BTreeSet<String>, text: Text) -> Result<(), ValueFault>
    ensures gives { Gives (λ _. map string_bytes texts.new.keys) result (or_fault fault.DoubledElement (placed text (map string_bytes texts.old.keys))) }
    ensures longer { OnOk result (length texts.new.keys ≡ length texts.old.keys + 1) }
{
    if texts.insert(text.into_string())? {
        Ok(())
    } else {
        Err(ValueFault::DoubledElement)
    }
}

/// The texts of a set, in order.
pub fn ordered_texts(alloc: Global, texts: BTreeSet<String>) -> Result<Vec<Text>, Memory>
    ensures same { IfOk result (λ ordered. ordered.items ≡ map string_bytes texts.keys) }
    ensures rises { IfOk result (λ ordered. IsIncreasing ordered.items) }
{
    let mut ordered = Vec::with_capacity(alloc, texts.len())?;
    for text in texts {
        ordered.push(Text::from_string(text))?;
    }
    Ok(ordered)
}

/// Puts a binary among others, in order.
pub fn put_binary(binaries: &mut BTreeSet<Vec<u8>>, binary: Bytes) -> Result<(), ValueFault>
    ensures gives { Gives (λ _. map vec_items binaries.new.keys) result (or_fault fault.DoubledElement (placed binary (map vec_items binaries.old.keys))) }
    ensures longer { OnOk result (length binaries.new.keys ≡ length binaries.old.keys + 1) }
{
    if binaries.insert(binary.into_vec())? {
        Ok(())
    } else {
        Err(ValueFault::DoubledElement)
    }
}

/// The binaries of a set, in order.
pub fn ordered_binaries(alloc: Global, binaries: BTreeSet<Vec<u8>>) -> Result<Vec<Bytes>, Memory>
    ensures same { IfOk result (λ ordered. ordered.items ≡ map vec_items binaries.keys) }
    ensures rises { IfOk result (λ ordered. IsIncreasing ordered.items) }
{
    let mut ordered = Vec::with_capacity(alloc, binaries.len())?;
    for binary in binaries {
        ordered.push(Bytes::from_vec(binary))?;
    }
    Ok(ordered)
}
