ghost use Rattle.std.specs.Prelude.{◌≡◌, IfOk, option_map, Option, true};
ghost use Rattle.std.specs.Borrow.{Bor};
ghost use Rattle.std.specs.Option.{option_cmp};
ghost use Rattle.dbe_values.specs.View.{view};
ghost use Rattle.dbe_values.specs.declared.value.AttrValue.{AttrValue};
ghost use Rattle.dbe_values.specs.Keys.{has_length, fits_key, part_of, row_key, key_fault, type_rank, key_bytes, key_units, value_order, key_order, is_lawful_key};
ghost use Rattle.dbe_num.specs.Decimal.{units};
ghost use Rattle.dbe_values.specs.KeyValues.{key_view, key_found, GivesKey};

use crate::{AttrValue, Item, a_read_key_is_lawful};
use dbe_num::{Memory, Number, Text};
use std::alloc::Global;
use std::cmp::Ordering;

/// The type of a key attribute.
#[derive(Clone, Copy, Debug, PartialEq, Eq)]
pub enum KeyKind {
    /// A text.
    S,
    /// A number.
    N,
    /// A binary.
    B,
}

/// The name and the type of a key attribute.
#[derive(Debug, Drop)]
pub struct KeyName {
    pub name: Text,
    pub kind: KeyKind,
}

impl KeyName {
    pub fn copy(&self, alloc: Global) -> Result<KeyName, Memory>
        ensures { IfOk result (λ k. k ≡ self.now) }
    {
        Ok(KeyName {
            name: self.name.copy(alloc)?,
            kind: self.kind,
        })
    }
}

/// Which attributes are the key of a row.
#[derive(Debug, Drop)]
pub struct KeySchema {
    pub partition: KeyName,
    pub sort: Option<KeyName>,
}

impl KeySchema {
    pub fn copy(&self, alloc: Global) -> Result<KeySchema, Memory>
        ensures { IfOk result (λ s. s ≡ self.now) }
    {
        Ok(KeySchema {
            partition: self.partition.copy(alloc)?,
            sort: match &self.sort {
                Some(sort) => Some(sort.copy(alloc)?),
                None => None,
            },
        })
    }
}

/// The key of a row.
#[derive(Drop)]
pub struct KeyValue {
    pub partition: AttrValue,
    pub sort: Option<AttrValue>,
}

impl KeyValue {
    pub fn copy(&self, alloc: Global) -> Result<KeyValue, Memory>
        ensures { IfOk result (λ k. k ≡ self.now) }
    {
        Ok(KeyValue {
            partition: self.partition.copy(alloc)?,
            sort: match &self.sort {
                Some(sort) => Some(sort.copy(alloc)?),
                None => None,
            },
        })
    }
}

/// Why an item has no key.
#[derive(Debug, Drop)]
pub enum KeyError {
    /// The first key name, partition before sort, whose attribute is absent, of another type, an empty text or
    /// binary, or larger than 2,048 bytes for a partition and 1,024 bytes for a sort key.
    Bad { name: Text },
    /// Memory ran out.
    Memory,
}

impl From<Memory> for KeyError {
    ghost use Rattle.std.specs.Prelude.{◌≡◌};
    ghost use Rattle.dbe_values.specs.declared.key.KeyError.TheVariants as error;

    ghost from_gives = { λ _ e. e ≡ error.Memory };

    fn from(_: Memory) -> KeyError {
        KeyError::Memory
    }
}

/// The key of an item.
pub fn read_key(alloc: Global, schema: &KeySchema, item: &Item) -> Result<KeyValue, KeyError>
    ensures gives { GivesKey result (row_key schema.now item.now) }
    ensures lawful { IfOk result (λ key. is_lawful_key schema.now (key_view key) ≡ true) }
{
    a_read_key_is_lawful();
    match find_key(schema, item) {
        Ok((partition, sort)) => Ok(KeyValue {
            partition: partition.copy(alloc)?,
            sort: match sort {
                Some(sort) => Some(sort.copy(alloc)?),
                None => None,
            },
        }),
        Err(name) => Err(KeyError::Bad {
            name: name.copy(alloc)?,
        }),
    }
}

/// The name of the first key attribute, partition before sort, that is not lawful; none where the item has a lawful
/// key. Takes no memory.
pub fn key_fault<'a>(schema: &'a KeySchema, item: &Item) -> Option<&'a Text>
    ensures { option_map (λ n. n.now) result ≡ key_fault schema.now item.now }
{
    match find_key(schema, item) {
        Ok(_) => None,
        Err(name) => Some(name),
    }
}

// The values of the key, or the first name whose attribute is not lawful.
fn find_key<'a, 'b>(
    schema: &'a KeySchema,
    item: &'b Item,
) -> Result<(&'b AttrValue, Option<&'b AttrValue>), &'a Text>
    ensures { key_found result ≡ row_key schema.now item.now }
{
    let Some(partition) = part_of(item, &schema.partition, 2048) else {
        return Err(&schema.partition.name);
    };
    let Some(sort_name) = &schema.sort else {
        return Ok((partition, None));
    };
    let Some(sort) = part_of(item, sort_name, 1024) else {
        return Err(&sort_name.name);
    };
    Ok((partition, Some(sort)))
}

fn part_of<'a>(item: &'a Item, part: &KeyName, most: usize) -> Option<&'a AttrValue>
    ensures { option_map (λ (x : Bor AttrValue). view x.now) result ≡ part_of most part.now item.now }
{
    let value = item.get(part.name.as_str())?;
    if fits_key(value, part.kind, most) {
        Some(value)
    } else {
        None
    }
}

fn fits_key(value: &AttrValue, kind: KeyKind, most: usize) -> bool
    ensures { result ≡ fits_key most kind (view value.now) }
{
    match (kind, value) {
        (KeyKind::S, AttrValue::S(text)) => has_length(text.as_bytes(), most),
        (KeyKind::N, AttrValue::N(_)) => true,
        (KeyKind::B, AttrValue::B(bytes)) => has_length(bytes.as_slice(), most),
        _ => false,
    }
}

fn has_length(bytes: &[u8], most: usize) -> bool
    ensures { result ≡ has_length most bytes.now }
{
    !bytes.is_empty() && bytes.len() <= most
}

/// The order of two keys, partition first. Takes no memory.
pub fn key_order(a: &KeyValue, b: &KeyValue) -> Ordering
    ensures { result ≡ key_order (key_view a.now) (key_view b.now) }
{
    value_order(&a.partition, &b.partition).then_with(|| sort_order(&a.sort, &b.sort))
}

fn value_order(a: &AttrValue, b: &AttrValue) -> Ordering
    ensures { result ≡ value_order (view a.now) (view b.now) }
{
    type_rank(a)
        .cmp(&type_rank(b))
        .then_with(|| key_bytes(a).cmp(&key_bytes(b)))
        .then_with(|| key_number(a).compare(&key_number(b)))
}

// A type's place among the types: those of keys first.
fn type_rank(value: &AttrValue) -> u8
    ensures { result ≡ type_rank (view value.now) }
{
    match value {
        AttrValue::S(_) => 0,
        AttrValue::N(_) => 1,
        AttrValue::B(_) => 2,
        AttrValue::Bool(_) => 3,
        AttrValue::Null => 4,
        AttrValue::Ss(_) => 5,
        AttrValue::Ns(_) => 6,
        AttrValue::Bs(_) => 7,
        AttrValue::L(_) => 8,
        AttrValue::M(_) => 9,
    }
}

// The bytes of a text or a binary.
fn key_bytes(value: &AttrValue) -> &[u8]
    ensures { result.now ≡ key_bytes (view value.now) }
{
    match value {
        AttrValue::S(text) => text.as_bytes(),
        AttrValue::B(bytes) => bytes.as_slice(),
        _ => &[],
    }
}

// A number, or zero where the value is none.
fn key_number(value: &AttrValue) -> Number
    ensures { units result ≡ key_units (view value.now) }
{
    match value {
        AttrValue::N(number) => *number,
        _ => Number::zero(),
    }
}

fn sort_order(a: &Option<AttrValue>, b: &Option<AttrValue>) -> Ordering
    ensures { result ≡ option_cmp value_order (option_map view a.now) (option_map view b.now) }
{
    match (a, b) {
        (Some(a), Some(b)) => value_order(a, b),
        (Some(_), None) => Ordering::Greater,
        (None, Some(_)) => Ordering::Less,
        (None, None) => Ordering::Equal,
    }
}
