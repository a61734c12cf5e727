ghost use Rattle.std.specs.Prelude.{◌≡◌, [], IfOk, IfSome, OnOk, OnErr, IsSome, Some, None, Ok, Err, true, false, length};
ghost use Rattle.std.specs.List.{All};
ghost use Rattle.std.specs.declared.option.Option.{Option};
ghost use Rattle.dbe_io.specs.Causes.{HasCause};
ghost use Rattle.dbe_io.specs.Memory.{counted, fails_at, one_more};
ghost use Rattle.dbe_values.specs.Keys.{has_key, is_lawful_key, row_key};
ghost use Rattle.dbe_values.specs.KeyValues.{key_view};
ghost use Rattle.dbe_table.specs.Faults.{is_failed};
ghost use Rattle.dbe_table.specs.Rows.{IsTable, put_row, row_at, wanted_rows, risen, found_count};

use crate::key_order::is_table;
use crate::keyed_rows::KeyedRows;
use crate::{Table, TableFault};
use dbe_cond::Wanted;
use dbe_io::FailurePlan;
use dbe_num::Memory;
use dbe_values::{Item, KeySchema, KeyValue};
use std::alloc::Global;
use std::marker::Model;

/// A table in memory, whose calls fail by a plan.
///
/// Contracts see the record `TableInMemory`.
#[derive(Drop)]
pub struct MemTable {
    alloc: Global,
    coming: Vec<Item>,
    held: Option<KeyedRows>,
    plan: FailurePlan,
    given: u64,
}

impl Model for MemTable {
    ghost use Rattle.dbe_table.specs.InMemory.{TableInMemory};

    ghost Value = { TableInMemory };

    ghost use Rattle.dbe_values.specs.contracts.value.AttrValue as attr;
    ghost use Rattle.std.specs.Coded.{codes};

    ghost coded = { Prim.hlevel (codes, attr.the_row.coded) };

    ghost use Rattle.dbe_table.specs.InMemory.{schema_held, rows_held};

    ghost view = { λ t. record { coming = t.coming.items; begun = schema_held t.held; rows = rows_held t.held; calls = t.plan.calls; fails = t.plan.fails; given = t.given; faults = t.plan.faults } };
}

impl MemTable {
    /// A table with no rows.
    ///
    /// `fails` is the plan of failures: the k-th call of `begin`, `put`, `get` and `select` together,
    /// counted from 1, fails where k is in it, and changes no row then. An empty list lets no call
    /// fail.
    pub fn new(alloc: Global, fails: Vec<u64>) -> MemTable
        ensures { result ≡ record { coming = []; begun = None; rows = []; calls = 0; fails = fails.items; given = 0; faults = 0 } }
    {
        MemTable::of(alloc, Vec::new(alloc), fails)
    }

    /// A table that begins with these rows. `fails` is as in `new`. Its `begin` also fails where they
    /// are not rows with lawful keys, each key once, in key order.
    pub fn of(alloc: Global, rows: Vec<Item>, fails: Vec<u64>) -> MemTable
        ensures { result ≡ record { coming = rows.items; begun = None; rows = []; calls = 0; fails = fails.items; given = 0; faults = 0 } }
    {
        MemTable {
            alloc,
            coming: rows,
            held: None,
            plan: FailurePlan::new(fails),
            given: 0,
        }
    }

    /// A copy of the rows, in key order. Before the table has begun there are none. The call is no
    /// call of the plan, and is not counted.
    ///
    /// `Memory`: memory ran out.
    pub fn rows(&self, alloc: Global) -> Result<Vec<Item>, Memory>
        ensures rows { IfOk result (λ rows. rows.items ≡ self.now.rows) }
        ensures not_begun { self.now.begun ≡ None → IfOk result (λ rows. rows.items ≡ []) }
    {
        match &self.held {
            Some(held) => held.select(alloc, &Wanted::Every),
            None => Ok(Vec::new(alloc)),
        }
    }

    /// How many rows it has handed out. The count stays at its greatest value.
    pub fn given(&self) -> u64
        ensures { result ≡ self.now.given }
    {
        self.given
    }

    /// How often it has failed. The count stays at its greatest value.
    pub fn faults(&self) -> u64
        ensures { result ≡ self.now.faults }
    {
        self.plan.faults()
    }

    // Counts a call, which fails where it does so by the plan.
    fn count_call(&mut self) -> Result<(), TableFault>
        ensures planned { is_failed result ≡ fails_at self.old.fails self.new.calls }
        ensures not_memory { result ≡ Err TableFault.Memory → ⊥ }
        ensures kept { self.new ≡ record self.old { calls = one_more self.old.calls; faults = counted (is_failed result) self.old.faults } }
        ensures cause { HasCause (is_failed result) self.old.faults self.new.faults }
    {
        if self.plan.count_call() {
            Err(TableFault::Failed)
        } else {
            Ok(())
        }
    }
}

impl Table for MemTable {
    ghost coming = { λ t schema. Some t.coming };

    ghost rows = { λ t. Some t.rows };

    ghost begun = { λ t. t.begun };

    ghost given = { λ t. t.given };

    ghost faults = { λ t. t.faults };

    /// After `Failed` and after `Memory` the rows that were to come are still to come.
    fn begin(&mut self, schema: &KeySchema) -> Result<(), TableFault>
        requires { self.old.begun ≡ None }
        ensures begun { OnOk result (self.new.begun ≡ Some schema.now) }
        ensures not_begun { OnErr result (self.new.begun ≡ None) }
        ensures rows { OnOk result (self.new.rows ≡ self.old.coming) }
        ensures same { OnErr result (self.new.rows ≡ self.old.rows) }
        ensures lawful { OnOk result (IsTable schema.now self.new.rows) }
        ensures taken { OnOk result (self.new.coming ≡ []) }
        ensures not_taken { OnErr result (self.new.coming ≡ self.old.coming) }
        ensures cause { HasCause (is_failed result) self.old.faults self.new.faults }
        ensures planned { fails_at self.old.fails self.new.calls ≡ true → result ≡ Err TableFault.Failed }
        ensures failed { result ≡ Err TableFault.Failed → fails_at self.old.fails self.new.calls ≡ false → IsTable schema.now self.old.coming → ⊥ }
        ensures calls { self.new.calls ≡ one_more self.old.calls }
        ensures plan { self.new.fails ≡ self.old.fails }
        ensures given { self.new.given ≡ self.old.given }
        ensures faults { self.new.faults ≡ counted (is_failed result) self.old.faults }
    {
        self.count_call()?;
        if !is_table(self.alloc, schema, &self.coming)? {
            self.plan.count_failure();
            return Err(TableFault::Failed);
        }
        self.held = Some(KeyedRows::of(self.alloc, schema, &self.coming)?);
        self.coming = Vec::new(self.alloc);
        Ok(())
    }

    fn put(&mut self, row: Item) -> Result<(), TableFault>
        requires begun { IsSome self.old.begun }
        requires key { IfSome self.old.begun (λ schema. has_key schema row ≡ true) }
        ensures rows { OnOk result (IfSome self.old.begun (λ schema. self.new.rows ≡ put_row schema row self.old.rows)) }
        ensures same { OnErr result (self.new.rows ≡ self.old.rows) }
        ensures cause { HasCause (is_failed result) self.old.faults self.new.faults }
        ensures planned { is_failed result ≡ fails_at self.old.fails self.new.calls }
        ensures kept { self.new ≡ record self.old { rows = self.new.rows; calls = one_more self.old.calls; faults = counted (is_failed result) self.old.faults } }
    {
        self.count_call()?;
        let Some(held) = &mut self.held else {
            unreachable!()
        };
        held.put(self.alloc, row)?;
        Ok(())
    }

    fn get(&mut self, key: &KeyValue) -> Result<Option<Item>, TableFault>
        requires begun { IsSome self.old.begun }
        requires key { IfSome self.old.begun (λ schema. is_lawful_key schema (key_view key.now) ≡ true) }
        ensures found { IfOk result (λ found. IfSome self.old.begun (λ schema. found ≡ row_at schema (key_view key.now) self.old.rows)) }
        ensures key { IfOk result (λ found. IfSome self.old.begun (λ schema. IfSome found (λ row. row_key schema row ≡ Ok (key_view key.now)))) }
        ensures cause { HasCause (is_failed result) self.old.faults self.new.faults }
        ensures planned { is_failed result ≡ fails_at self.old.fails self.new.calls }
        ensures given { IfOk result (λ found. self.new.given ≡ risen self.old.given (found_count found)) }
        ensures not_given { OnErr result (self.new.given ≡ self.old.given) }
        ensures kept { self.new ≡ record self.old { calls = one_more self.old.calls; given = self.new.given; faults = counted (is_failed result) self.old.faults } }
    {
        self.count_call()?;
        let Some(held) = &self.held else {
            unreachable!()
        };
        let Some(row) = held.get(key) else {
            return Ok(None);
        };
        let copy = row.copy(self.alloc)?;
        self.given = self.given.saturating_add(1);
        Ok(Some(copy))
    }

    fn select(&mut self, wanted: &Wanted) -> Result<Vec<Item>, TableFault>
        requires { IsSome self.old.begun }
        ensures found { IfOk result (λ found. found.items ≡ wanted_rows wanted.now self.old.rows) }
        ensures keys { IfOk result (λ found. IfSome self.old.begun (λ schema. All (λ row. has_key schema row ≡ true) found.items)) }
        ensures cause { HasCause (is_failed result) self.old.faults self.new.faults }
        ensures planned { is_failed result ≡ fails_at self.old.fails self.new.calls }
        ensures given { IfOk result (λ found. self.new.given ≡ risen self.old.given (length found.items)) }
        ensures not_given { OnErr result (self.new.given ≡ self.old.given) }
        ensures kept { self.new ≡ record self.old { calls = one_more self.old.calls; given = self.new.given; faults = counted (is_failed result) self.old.faults } }
    {
        self.count_call()?;
        let Some(held) = &self.held else {
            unreachable!()
        };
        let found = held.select(self.alloc, wanted)?;
        self.given = self.given.saturating_add(found.len() as u64);
        Ok(found)
    }
}
