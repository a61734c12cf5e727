ghost use Rattle.std.specs.Prelude.{◌≡◌};
ghost use Rattle.std.specs.Ordering.{nat_cmp, is_lt};
ghost use Rattle.std.specs.Cmp.Lexicographic.{slice_cmp};
ghost use Rattle.dbe_canon.specs.Reading.{Gives, many_at, element_at, set_in, text_in, number_text_in, binary_in, is_increasing};

use crate::CanonFault;
use crate::leaves::{number_text_in, text_in};
use crate::strings::{count_at, string_at};
use dbe_num::{Bytes, Text};
use dbe_values::{BytesSet, NumberSet, TextSet};
use sqlite_items::Items;
use std::alloc::Global;
use std::cmp::Ordering;

#[tactic(auto, unfolding(crate::specs::Reading::set_in))]
pub fn text_set_in(alloc: Global, bytes: &[u8]) -> Result<TextSet, CanonFault>
    ensures { Gives (λ s. s) result (set_in text_in bytes.now) }
{
    let (count, rest) = count_at(bytes)?;
    let (texts, rest) = texts_at(alloc, count, rest)?;
    if !rest.is_empty() || texts.is_empty() || !are_texts_increasing(texts.as_slice()) {
        return Err(CanonFault::NotCanonical);
    }
    Ok(TextSet::from_elements(texts))
}

#[tactic(auto, unfolding(crate::specs::Reading::set_in))]
pub fn number_set_in(alloc: Global, bytes: &[u8]) -> Result<NumberSet, CanonFault>
    ensures { Gives (λ s. s) result (set_in number_text_in bytes.now) }
{
    let (count, rest) = count_at(bytes)?;
    let (texts, rest) = numbers_at(alloc, count, rest)?;
    if !rest.is_empty() || texts.is_empty() || !are_texts_increasing(texts.as_slice()) {
        return Err(CanonFault::NotCanonical);
    }
    Ok(NumberSet::from_elements(texts))
}

#[tactic(auto, unfolding(crate::specs::Reading::set_in))]
pub fn binary_set_in(alloc: Global, bytes: &[u8]) -> Result<BytesSet, CanonFault>
    ensures { Gives (λ s. s) result (set_in binary_in bytes.now) }
{
    let (count, rest) = count_at(bytes)?;
    let (binaries, rest) = binaries_at(alloc, count, rest)?;
    if !rest.is_empty() || binaries.is_empty() || !are_binaries_increasing(binaries.as_slice()) {
        return Err(CanonFault::NotCanonical);
    }
    Ok(BytesSet::from_elements(binaries))
}

#[tactic(auto, unfolding(crate::specs::Reading::element_at))]
pub fn text_at(alloc: Global, bytes: &[u8]) -> Result<(Text, &[u8]), CanonFault>
    ensures { Gives (λ x. (x.0, x.1.now)) result (element_at text_in bytes.now) }
{
    let (string, rest) = string_at(bytes)?;
    Ok((text_in(alloc, string)?, rest))
}

#[tactic(auto, unfolding(crate::specs::Reading::element_at))]
fn number_at(alloc: Global, bytes: &[u8]) -> Result<(Text, &[u8]), CanonFault>
    ensures { Gives (λ x. (x.0, x.1.now)) result (element_at number_text_in bytes.now) }
{
    let (string, rest) = string_at(bytes)?;
    Ok((number_text_in(alloc, string)?, rest))
}

#[tactic(auto, unfolding(crate::specs::Reading::element_at))]
fn binary_at(alloc: Global, bytes: &[u8]) -> Result<(Bytes, &[u8]), CanonFault>
    ensures { Gives (λ x. (x.0, x.1.now)) result (element_at binary_in bytes.now) }
{
    let (string, rest) = string_at(bytes)?;
    Ok((Bytes::copy_of(alloc, string)?, rest))
}

fn texts_at(alloc: Global, count: u64, bytes: &[u8]) -> Result<(Items<Text>, &[u8]), CanonFault>
    ensures { Gives (λ x. (x.0, x.1.now)) result (many_at (element_at text_in) count bytes.now) }
{
    let mut texts = Items::new(alloc);
    let mut rest = bytes;
    for _ in 0..count {
        let (text, after) = text_at(alloc, rest)?;
        texts.push(text)?;
        rest = after;
    }
    Ok((texts, rest))
}

fn numbers_at(alloc: Global, count: u64, bytes: &[u8]) -> Result<(Items<Text>, &[u8]), CanonFault>
    ensures { Gives (λ x. (x.0, x.1.now)) result (many_at (element_at number_text_in) count bytes.now) }
{
    let mut texts = Items::new(alloc);
    let mut rest = bytes;
    for _ in 0..count {
        let (text, after) = number_at(alloc, rest)?;
        texts.push(text)?;
        rest = after;
    }
    Ok((texts, rest))
}

fn binaries_at(alloc: Global, count: u64, bytes: &[u8]) -> Result<(Items<Bytes>, &[u8]), CanonFault>
    ensures { Gives (λ x. (x.0, x.1.now)) result (many_at (element_at binary_in) count bytes.now) }
{
    let mut binaries = Items::new(alloc);
    let mut rest = bytes;
    for _ in 0..count {
        let (binary, after) = binary_at(alloc, rest)?;
        binaries.push(binary)?;
        rest = after;
    }
    Ok((binaries, rest))
}

/// Whether bytes are below others in their order.
pub fn is_below(a: &[u8], b: &[u8]) -> bool
    ensures { result ≡ is_lt (slice_cmp nat_cmp a.now b.now) }
{
    match a.cmp(&b) {
        Ordering::Less => true,
        Ordering::Equal | Ordering::Greater => false,
    }
}

/// Whether each text is below the one behind it.
fn are_texts_increasing(texts: &[Text]) -> bool
    ensures { result ≡ is_increasing texts.now }
{
    for i in 1..texts.len() {
        if !is_below(texts[i - 1].as_bytes(), texts[i].as_bytes()) {
            return false;
        }
    }
    true
}

fn are_binaries_increasing(binaries: &[Bytes]) -> bool
    ensures { result ≡ is_increasing binaries.now }
{
    for i in 1..binaries.len() {
        if !is_below(binaries[i - 1].as_slice(), binaries[i].as_slice()) {
            return false;
        }
    }
    true
}
