ghost use Rattle.std.specs.Prelude.{◌≡◌, ◌≤◌, ◌<◌, ◌^◌, ◌++◌, true, IfOk, OnOk, length};
ghost use Rattle.std.specs.List.{All};
ghost use Rattle.dbe_values.specs.View.{view};
ghost use Rattle.dbe_values.specs.Keys.{is_lawful_key};
ghost use Rattle.dbe_values.specs.KeyValues.{key_view};
ghost use Rattle.dbe_canon.specs.Canon.{canon_of};
ghost use Rattle.dbe_frame.specs.Header.{IsShortPair};
ghost use Rattle.dbe_frame.specs.Context.{attribute_pair, key_pairs, computed_pairs, pairs_text, full_context, HasShortNames};
ghost use Rattle.dbe_frame.specs.Keys.{IsShortName, IsNormalNumber, IsShortValue};
ghost use Rattle.dbe_frame.specs.Sizes.{most_named, most_counted};

use crate::Pairs;
use crate::writing::{pairs_len, put_bytes, put_pair_list};
use dbe_canon::{put_canon, type_id};
use dbe_num::{Bytes, Memory, Text};
use dbe_values::{AttrValue, KeyName, KeySchema, KeyValue};
use std::alloc::Global;

/// The bytes of two counts of pairs.
const TWO_COUNTS: usize = 8;

/// The full encryption context of a row: the pairs that are computed from the table, its schema and the row's key,
/// and behind them the stored pairs.
#[tactic(auto, unfolding(crate::specs::Context::full_context))]
pub fn context_bytes(
    alloc: Global,
    schema: &KeySchema,
    table: &Text,
    key: &KeyValue,
    stored: &Pairs,
) -> Result<Vec<u8>, Memory>
    requires key { is_lawful_key schema.now (key_view key.now) ≡ true }
    requires names { HasShortNames schema.now table.now }
    ensures { IfOk result (λ bytes. bytes.items ≡ full_context schema.now table.now (key_view key.now) stored.now) }
{
    let computed = computed_pairs(alloc, schema, table, key)?;
    let stored = stored.as_slice();
    let len = TWO_COUNTS
        .saturating_add(pairs_len(&computed))
        .saturating_add(pairs_len(stored));
    let mut out = Vec::with_capacity(alloc, len)?;
    put_pairs(&mut out, &computed)?;
    put_pairs(&mut out, stored)?;
    Ok(out)
}

/// How many pairs there are, in four bytes, and the pairs.
fn put_pairs(out: &mut Vec<u8>, pairs: &[(Bytes, Bytes)]) -> Result<(), Memory>
    requires few { length pairs.now ≤ most_counted }
    requires short { All IsShortPair pairs.now }
    ensures { OnOk result (out.new.items ≡ out.old.items ++ pairs_text pairs.now) }
{
    put_bytes(out, &(pairs.len() as u32).to_be_bytes())?;
    put_pair_list(out, pairs)
}

/// The pairs of the table, its schema and a key, in order of their keys.
fn computed_pairs(
    alloc: Global,
    schema: &KeySchema,
    table: &Text,
    key: &KeyValue,
) -> Result<Vec<(Bytes, Bytes)>, Memory>
    requires key { is_lawful_key schema.now (key_view key.now) ≡ true }
    requires names { HasShortNames schema.now table.now }
    ensures pairs { IfOk result (λ pairs. pairs.items ≡ computed_pairs schema.now table.now (key_view key.now)) }
    ensures few { IfOk result (λ pairs. length pairs.items ≤ most_counted) }
    ensures short { IfOk result (λ pairs. All IsShortPair pairs.items) }
{
    let mut pairs = key_pairs(alloc, schema, table, key)?;
    pairs.sort_by(|a, b| a.0.as_slice().cmp(&b.0.as_slice()))?;
    Ok(pairs)
}

/// The pairs of the table, its schema and a key.
fn key_pairs(
    alloc: Global,
    schema: &KeySchema,
    table: &Text,
    key: &KeyValue,
) -> Result<Vec<(Bytes, Bytes)>, Memory>
    requires key { is_lawful_key schema.now (key_view key.now) ≡ true }
    requires names { HasShortNames schema.now table.now }
    ensures pairs { IfOk result (λ pairs. pairs.items ≡ key_pairs schema.now table.now (key_view key.now)) }
    ensures few { IfOk result (λ pairs. length pairs.items ≤ most_counted) }
    ensures short { IfOk result (λ pairs. All IsShortPair pairs.items) }
{
    is_normal_number(&key.partition);
    let partition = &schema.partition.name;
    let attribute = attribute_pair(alloc, partition, &key.partition)?;
    let name = name_pair(alloc, b"aws-crypto-partition-name", partition)?;
    let table = name_pair(alloc, b"aws-crypto-table-name", table)?;
    match (&schema.sort, &key.sort) {
        (Some(sort), Some(value)) => {
            is_normal_number(value);
            let sort_attribute = attribute_pair(alloc, &sort.name, value)?;
            let sort_name = name_pair(alloc, b"aws-crypto-sort-name", &sort.name)?;
            Ok(Vec::from_array(alloc, [attribute, name, table, sort_attribute, sort_name])?)
        }
        _ => Ok(Vec::from_array(alloc, [attribute, name, table])?),
    }
}

/// That a number is in its normal form. Does nothing.
fn is_normal_number(value: &AttrValue)
    ensures { IsNormalNumber (view value.now) }
{
    match value {
        AttrValue::N(number) => number.is_normal(),
        AttrValue::S(_)
        | AttrValue::B(_)
        | AttrValue::Bool(_)
        | AttrValue::Null
        | AttrValue::Ss(_)
        | AttrValue::Ns(_)
        | AttrValue::Bs(_)
        | AttrValue::L(_)
        | AttrValue::M(_) => {}
    }
}

/// The name of a key attribute behind a prefix, and the type and canonical bytes of its value.
fn attribute_pair(alloc: Global, name: &Text, value: &AttrValue) -> Result<(Bytes, Bytes), Memory>
    requires name { IsShortName name.now }
    requires value { IsShortValue (view value.now) }
    ensures pair { IfOk result (λ pair. pair ≡ attribute_pair name.now (view value.now)) }
    ensures short { IfOk result (λ pair. IsShortPair pair) }
{
    let mut key = Vec::with_capacity(alloc, 16 + name.as_bytes().len())?;
    put_bytes(&mut key, b"aws-crypto-attr.")?;
    put_bytes(&mut key, name.as_bytes())?;
    let mut bytes = Vec::new(alloc);
    put_bytes(&mut bytes, &type_id(value))?;
    put_canon(&mut bytes, alloc, value)?;
    Ok((Bytes::from_vec(key), Bytes::from_vec(bytes)))
}

fn name_pair(alloc: Global, key: &[u8], name: &Text) -> Result<(Bytes, Bytes), Memory>
    requires key { length key.now ≤ most_named }
    requires name { IsShortName name.now }
    ensures pair { IfOk result (λ pair. pair ≡ (key.now, name.now)) }
    ensures short { IfOk result (λ pair. IsShortPair pair) }
{
    Ok((
        Bytes::copy_of(alloc, key)?,
        Bytes::copy_of(alloc, name.as_bytes())?,
    ))
}
