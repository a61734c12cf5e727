ghost use Rattle.std.specs.Prelude.{◌≡◌, IfOk, IfSome, OnOk, OnErr, Ok, true, option_map};
ghost use Rattle.std.specs.BTreeMap.{values};
ghost use Rattle.std.specs.List.{All};
ghost use Rattle.dbe_values.specs.View.{view};
ghost use Rattle.dbe_values.specs.Keys.{has_key, is_lawful_key, row_key};
ghost use Rattle.dbe_values.specs.KeyValues.{key_view};
ghost use Rattle.dbe_table.specs.Rows.{IsTable, put_row, row_at, wanted_rows};
ghost use Rattle.dbe_table.specs.InMemory.{IsNormalValue, IsNormalKey};

use crate::laws::a_read_key_is_lawful;
use dbe_cond::{Wanted, wants};
use dbe_num::{Memory, one_number_a_value};
use dbe_values::{AttrValue, Item, KeyError, KeySchema, KeyValue, read_key};
use std::alloc::Global;
use std::collections::BTreeMap;
use std::marker::Model;

/// Rows under their keys, in key order.
///
/// Contracts see the record `RowsByKey`.
#[derive(Drop)]
pub(crate) struct KeyedRows {
    schema: KeySchema,
    rows: BTreeMap<KeyValue, Item>,
}

impl Model for KeyedRows {
    ghost use Rattle.dbe_table.specs.InMemory.{RowsByKey};

    ghost Value = { RowsByKey };

    ghost use Rattle.dbe_values.specs.contracts.value.AttrValue as attr;
    ghost use Rattle.std.specs.Coded.{codes};

    ghost coded = { Prim.hlevel (codes, attr.the_row.coded) };

    ghost use Rattle.std.specs.BTreeMap.{values};
    ghost use Rattle.dbe_table.specs.InMemory.{AreKeyed};

    ghost view = { λ k. record { schema = k.schema; rows = values k.rows } };

    ghost invariant = { λ k. AreKeyed k.schema k.rows.entries };
}

impl KeyedRows {
    /// Copies of these rows under their keys.
    pub(crate) fn of(alloc: Global, schema: &KeySchema, rows: &[Item]) -> Result<KeyedRows, Memory>
        requires { IsTable schema.now rows.now }
        ensures { IfOk result (λ keyed. keyed ≡ record { schema = schema.now; rows = rows.now }) }
    {
        let mut keyed = KeyedRows {
            schema: schema.copy(alloc)?,
            rows: BTreeMap::new(alloc),
        };
        for row in rows {
            keyed.put(alloc, row.copy(alloc)?)?;
        }
        Ok(keyed)
    }

    /// Puts a row in place of the one of its key, or where its key belongs.
    pub(crate) fn put(&mut self, alloc: Global, row: Item) -> Result<(), Memory>
        requires { has_key self.old.schema row ≡ true }
        ensures ok { OnOk result (self.new ≡ record self.old { rows = put_row self.old.schema row self.old.rows }) }
        ensures err { OnErr result (self.new ≡ self.old) }
    {
        let key = key_of_row(alloc, &self.schema, &row)?;
        normal_key(&key);
        one_number_a_value();
        a_read_key_is_lawful();
        self.rows.insert(key, row)?;
        Ok(())
    }

    /// The row that has a key.
    pub(crate) fn get(&self, key: &KeyValue) -> Option<&Item>
        requires { is_lawful_key self.now.schema (key_view key.now) ≡ true }
        ensures found { option_map (λ row. row.now) result ≡ row_at self.now.schema (key_view key.now) self.now.rows }
        ensures key { IfSome result (λ row. row_key self.now.schema row.now ≡ Ok (key_view key.now)) }
    {
        normal_key(key);
        one_number_a_value();
        a_read_key_is_lawful();
        self.rows.get(key)
    }

    /// Copies of the rows that are wanted, in key order.
    pub(crate) fn select(&self, alloc: Global, wanted: &Wanted) -> Result<Vec<Item>, Memory>
        ensures found { IfOk result (λ found. found.items ≡ wanted_rows wanted.now self.now.rows) }
        ensures keys { IfOk result (λ found. All (λ row. has_key self.now.schema row ≡ true) found.items) }
    {
        found_among(alloc, &self.rows, wanted)
    }
}

// The key of a row that has one.
fn key_of_row(alloc: Global, schema: &KeySchema, row: &Item) -> Result<KeyValue, Memory>
    requires { has_key schema.now row.now ≡ true }
    ensures { IfOk result (λ key. row_key schema.now row.now ≡ Ok (key_view key)) }
{
    match read_key(alloc, schema, row) {
        Ok(key) => Ok(key),
        Err(KeyError::Bad { .. }) => unreachable!(),
        Err(KeyError::Memory) => Err(Memory),
    }
}

// That the numbers of a key are in their normal form. Does nothing.
fn normal_key(key: &KeyValue)
    ensures { IsNormalKey (key_view key.now) }
{
    normal_value(&key.partition);
    if let Some(sort) = &key.sort {
        normal_value(sort);
    }
}

fn normal_value(value: &AttrValue)
    ensures { IsNormalValue (view value.now) }
{
    if let AttrValue::N(number) = value {
        number.is_normal();
    }
}

fn found_among(
    alloc: Global,
    rows: &BTreeMap<KeyValue, Item>,
    wanted: &Wanted,
) -> Result<Vec<Item>, Memory>
    ensures { IfOk result (λ found. found.items ≡ wanted_rows wanted.now (values rows.now)) }
{
    let mut found = Vec::new(alloc);
    for row in rows.values() {
        if wants(wanted, row) {
            found.push(row.copy(alloc)?)?;
        }
    }
    Ok(found)
}
