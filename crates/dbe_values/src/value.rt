ghost use Rattle.std.specs.Prelude.{◌≡◌, IfOk, map};
ghost use Rattle.std.specs.Ordering.{is_eq};
ghost use Rattle.dbe_values.specs.Val.{same, same_vals, same_entries, same_elements, order_of};
ghost use Rattle.dbe_values.specs.View.{view, vals_of, entries_of, entry_view};

use crate::{BytesSet, NumberSet, TextSet};
use dbe_num::{Bytes, Memory, Number, Text};
use sqlite_items::Items;
use std::alloc::Global;
use std::cmp::Ordering;

/// The value of an attribute.
#[derive(Drop)]
pub enum AttrValue {
    /// A text.
    S(Text),
    /// A number.
    N(Number),
    /// A binary.
    B(Bytes),
    Bool(bool),
    Null,
    /// A set of texts.
    Ss(TextSet),
    /// A set of numbers.
    Ns(NumberSet),
    /// A set of binaries.
    Bs(BytesSet),
    /// A list of values.
    L(Items<AttrValue>),
    /// A map of values, in order of names.
    M(Items<(Text, AttrValue)>),
}

impl AttrValue {
    /// An equal value.
    pub fn copy(&self, alloc: Global) -> Result<AttrValue, Memory>
        ensures { IfOk result (λ v. v ≡ self.now) }
    {
        copy_value(alloc, self)
    }
}

#[cycle(copy)]
fn copy_value(alloc: Global, value: &AttrValue) -> Result<AttrValue, Memory>
    ensures { IfOk result (λ v. v ≡ value.now) }
{
    match value {
        AttrValue::S(text) => Ok(AttrValue::S(text.copy(alloc)?)),
        AttrValue::N(number) => Ok(AttrValue::N(*number)),
        AttrValue::B(bytes) => Ok(AttrValue::B(bytes.copy(alloc)?)),
        AttrValue::Bool(b) => Ok(AttrValue::Bool(*b)),
        AttrValue::Null => Ok(AttrValue::Null),
        AttrValue::Ss(set) => Ok(AttrValue::Ss(set.copy(alloc)?)),
        AttrValue::Ns(set) => Ok(AttrValue::Ns(set.copy(alloc)?)),
        AttrValue::Bs(set) => Ok(AttrValue::Bs(set.copy(alloc)?)),
        AttrValue::L(items) => Ok(AttrValue::L(copy_items(alloc, items.as_slice())?)),
        AttrValue::M(entries) => Ok(AttrValue::M(copy_entries(alloc, entries.as_slice())?)),
    }
}

#[cycle(copy)]
fn copy_items(alloc: Global, items: &[AttrValue]) -> Result<Items<AttrValue>, Memory>
    ensures { IfOk result (λ copies. copies ≡ items.now) }
{
    let mut copies = Items::new(alloc);
    for item in items {
        copies.push(copy_value(alloc, item)?)?;
    }
    Ok(copies)
}

#[cycle(copy)]
fn copy_entries(
    alloc: Global,
    entries: &[(Text, AttrValue)],
) -> Result<Items<(Text, AttrValue)>, Memory>
    ensures { IfOk result (λ copies. copies ≡ entries.now) }
{
    let mut copies = Items::new(alloc);
    for entry in entries {
        copies.push((entry.0.copy(alloc)?, copy_value(alloc, &entry.1)?))?;
    }
    Ok(copies)
}

/// Whether two values are the same value, by type and content. Takes no memory.
#[cycle(equal)]
pub fn equal(a: &AttrValue, b: &AttrValue) -> bool
    ensures { result ≡ same (view a.now) (view b.now) }
{
    match (a, b) {
        (AttrValue::S(x), AttrValue::S(y)) => x.as_bytes() == y.as_bytes(),
        (AttrValue::N(x), AttrValue::N(y)) => is_equal(x.compare(y)),
        (AttrValue::B(x), AttrValue::B(y)) => x.as_slice() == y.as_slice(),
        (AttrValue::Bool(x), AttrValue::Bool(y)) => *x == *y,
        (AttrValue::Null, AttrValue::Null) => true,
        (AttrValue::Ss(x), AttrValue::Ss(y)) => equal_texts(x.elements(), y.elements()),
        (AttrValue::Ns(x), AttrValue::Ns(y)) => equal_texts(x.elements(), y.elements()),
        (AttrValue::Bs(x), AttrValue::Bs(y)) => equal_binaries(x.elements(), y.elements()),
        (AttrValue::L(xs), AttrValue::L(ys)) => equal_items(xs.as_slice(), ys.as_slice()),
        (AttrValue::M(xs), AttrValue::M(ys)) => equal_entries(xs.as_slice(), ys.as_slice()),
        _ => false,
    }
}

fn is_equal(order: Ordering) -> bool
    ensures { result ≡ is_eq order }
{
    match order {
        Ordering::Equal => true,
        Ordering::Less | Ordering::Greater => false,
    }
}

fn equal_texts(xs: &[Text], ys: &[Text]) -> bool
    ensures { result ≡ same_elements xs.now ys.now }
{
    if xs.len() != ys.len() {
        return false;
    }
    for i in 0..xs.len() {
        if xs[i].as_bytes() != ys[i].as_bytes() {
            return false;
        }
    }
    true
}

fn equal_binaries(xs: &[Bytes], ys: &[Bytes]) -> bool
    ensures { result ≡ same_elements xs.now ys.now }
{
    if xs.len() != ys.len() {
        return false;
    }
    for i in 0..xs.len() {
        if xs[i].as_slice() != ys[i].as_slice() {
            return false;
        }
    }
    true
}

#[cycle(equal)]
fn equal_items(xs: &[AttrValue], ys: &[AttrValue]) -> bool
    ensures { result ≡ same_vals (vals_of (map view xs.now)) (vals_of (map view ys.now)) }
{
    if xs.len() != ys.len() {
        return false;
    }
    for i in 0..xs.len() {
        if !equal(&xs[i], &ys[i]) {
            return false;
        }
    }
    true
}

#[cycle(equal)]
fn equal_entries(xs: &[(Text, AttrValue)], ys: &[(Text, AttrValue)]) -> bool
    ensures { result ≡ same_entries (entries_of (map entry_view xs.now)) (entries_of (map entry_view ys.now)) }
{
    if xs.len() != ys.len() {
        return false;
    }
    for i in 0..xs.len() {
        let (x, y) = (&xs[i], &ys[i]);
        if x.0.as_bytes() != y.0.as_bytes() || !equal(&x.1, &y.1) {
            return false;
        }
    }
    true
}

/// The order of two texts, two numbers or two binaries. None for all other values. Takes no memory.
pub fn order(a: &AttrValue, b: &AttrValue) -> Option<Ordering>
    ensures { result ≡ order_of (view a.now) (view b.now) }
{
    match (a, b) {
        (AttrValue::S(x), AttrValue::S(y)) => Some(x.as_bytes().cmp(&y.as_bytes())),
        (AttrValue::N(x), AttrValue::N(y)) => Some(x.compare(y)),
        (AttrValue::B(x), AttrValue::B(y)) => Some(x.as_slice().cmp(&y.as_slice())),
        _ => None,
    }
}
