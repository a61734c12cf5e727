ghost use Rattle.std.specs.Prelude.{◌≡◌, ℕ, List, Some, None, true, Ok, IfSome, IfOk, OnOk, OnErr, IsSome, length};
ghost use Rattle.std.specs.List.{All};
ghost use Rattle.std.specs.declared.option.Option.{Option};
ghost use Rattle.dbe_io.specs.Causes.{HasCause};
ghost use Rattle.dbe_values.specs.declared.key.KeySchema.{KeySchema};
ghost use Rattle.dbe_values.specs.Keys.{has_key, is_lawful_key, row_key};
ghost use Rattle.dbe_values.specs.KeyValues.{key_view};
ghost use Rattle.dbe_table.specs.Faults.{is_failed};
ghost use Rattle.dbe_table.specs.Rows.{Row, IsTable, put_row, row_at, wanted_rows, risen, found_count};

use dbe_cond::Wanted;
use dbe_num::Memory;
use dbe_values::{Item, KeySchema, KeyValue};

/// Why a table did not do what it was asked.
#[derive(Clone, Copy, Debug, PartialEq, Eq)]
pub enum TableFault {
    /// The table failed in this call, which its count of failures tells.
    Failed,
    /// Memory ran out.
    Memory,
}

impl From<Memory> for TableFault {
    ghost use Rattle.std.specs.Prelude.{◌≡◌};
    ghost use Rattle.dbe_table.specs.declared.table.TableFault.TheVariants as fault;

    ghost from_gives = { λ _ e. e ≡ fault.Memory };

    fn from(_: Memory) -> TableFault {
        TableFault::Memory
    }
}

/// Rows under keys, in key order.
///
/// A table may tell its rows. It counts its failures, and the rows that it hands out.
pub trait Table {
    /// The rows that a `begin` with a schema tells, where the table tells them.
    ghost coming: { Self → KeySchema → Option (List Row) };

    /// The rows, from `begin` on, where the table tells them.
    ghost rows: { Self → Option (List Row) };

    /// The schema of the `begin` that was Ok, and none before.
    ghost begun: { Self → Option KeySchema };

    /// How many rows it has handed out. The count stays at its greatest value.
    ghost given: { Self → ℕ };

    /// How often it has failed. The count stays at its greatest value.
    ghost faults: { Self → ℕ };

    /// Begins, with the schema of the rows' keys. The table must not have begun yet. Where it is Ok,
    /// and the table tells what is coming, the rows are those that it told for this schema. The rows
    /// that it tells from then on are rows with lawful keys, each key once, in key order. `given`
    /// stays as it was.
    ///
    /// `Failed`: the table failed in this call. `faults` rises then, and in no other case.
    /// `Memory`: memory ran out. After either the table has not begun, and need tell nothing of its
    /// rows.
    fn begin(&mut self, schema: &KeySchema) -> Result<(), TableFault>
        requires { begun self.old ≡ None }
        ensures begun { OnOk result (begun self.new ≡ Some schema.now) }
        ensures not_begun { OnErr result (begun self.new ≡ None) }
        ensures rows { OnOk result (IfSome (coming self.old schema.now) (λ told. rows self.new ≡ Some told)) }
        ensures lawful { OnOk result (IfSome (rows self.new) (IsTable schema.now)) }
        ensures given { given self.new ≡ given self.old }
        ensures cause { HasCause (is_failed result) (faults self.old) (faults self.new) };

    /// Puts a row in place of the one of its key, or where its key belongs. The table must have begun,
    /// and the row must have a lawful key for its schema. `given` stays as it was.
    ///
    /// `Failed`: the table failed in this call. `faults` rises then, and in no other case.
    /// `Memory`: memory ran out.
    /// After either the rows are as before.
    fn put(&mut self, row: Item) -> Result<(), TableFault>
        requires begun { IsSome (begun self.old) }
        requires key { IfSome (begun self.old) (λ schema. has_key schema row ≡ true) }
        ensures begun { begun self.new ≡ begun self.old }
        ensures rows { OnOk result (IfSome (begun self.old) (λ schema. IfSome (rows self.old) (λ before. rows self.new ≡ Some (put_row schema row before)))) }
        ensures same { OnErr result (rows self.new ≡ rows self.old) }
        ensures given { given self.new ≡ given self.old }
        ensures cause { HasCause (is_failed result) (faults self.old) (faults self.new) };

    /// The row that has a key, or none where no row has it. The table must have begun, and the key must
    /// be lawful for its schema. The rows stay as they were, and `given` rises by one where a row is
    /// answered. Whatever the table tells, that row has the key.
    ///
    /// `Failed`: the table failed in this call. `faults` rises then, and in no other case.
    /// `Memory`: memory ran out.
    /// After either `given` is as before.
    fn get(&mut self, key: &KeyValue) -> Result<Option<Item>, TableFault>
        requires begun { IsSome (begun self.old) }
        requires key { IfSome (begun self.old) (λ schema. is_lawful_key schema (key_view key.now) ≡ true) }
        ensures begun { begun self.new ≡ begun self.old }
        ensures found { IfOk result (λ found. IfSome (begun self.old) (λ schema. IfSome (rows self.old) (λ before. found ≡ row_at schema (key_view key.now) before))) }
        ensures key { IfOk result (λ found. IfSome (begun self.old) (λ schema. IfSome found (λ row. row_key schema row ≡ Ok (key_view key.now)))) }
        ensures same { rows self.new ≡ rows self.old }
        ensures given { IfOk result (λ found. given self.new ≡ risen (given self.old) (found_count found)) }
        ensures not_given { OnErr result (given self.new ≡ given self.old) }
        ensures cause { HasCause (is_failed result) (faults self.old) (faults self.new) };

    /// The rows that are wanted, in key order. The table must have begun. Its rows stay as they were,
    /// and `given` rises by the number of rows answered. Whatever the table tells, each of them has a
    /// lawful key.
    ///
    /// `Failed`: the table failed in this call. `faults` rises then, and in no other case.
    /// `Memory`: memory ran out.
    /// After either `given` is as before.
    fn select(&mut self, wanted: &Wanted) -> Result<Vec<Item>, TableFault>
        requires { IsSome (begun self.old) }
        ensures begun { begun self.new ≡ begun self.old }
        ensures found { IfOk result (λ found. IfSome (rows self.old) (λ before. found.items ≡ wanted_rows wanted.now before)) }
        ensures keys { IfOk result (λ found. IfSome (begun self.old) (λ schema. All (λ row. has_key schema row ≡ true) found.items)) }
        ensures same { rows self.new ≡ rows self.old }
        ensures given { IfOk result (λ found. given self.new ≡ risen (given self.old) (length found.items)) }
        ensures not_given { OnErr result (given self.new ≡ given self.old) }
        ensures cause { HasCause (is_failed result) (faults self.old) (faults self.new) };
}
