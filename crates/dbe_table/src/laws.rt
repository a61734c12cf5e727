//! What holds of rows in key order. These functions do nothing: their clauses are the laws.

ghost use Rattle.std.specs.Prelude.{◌≡◌, ◌++◌, ◌∷◌, List, Some, Ok, true, filter, if◌then◌else◌};
ghost use Rattle.std.specs.Ordering.{is_lt, is_eq};
ghost use Rattle.std.specs.declared.option.Option.{Option};
ghost use Rattle.dbe_values.specs.Val.{Val};
ghost use Rattle.dbe_values.specs.declared.key.KeySchema.{KeySchema as the_schema};
ghost use Rattle.dbe_values.specs.Keys.{has_key, key_of, key_order, row_key, row_order, is_lawful_key};
ghost use Rattle.dbe_table.specs.Rows.{Row, IsTable, put_row, row_at};

/// Rows stay rows with lawful keys, each key once, in key order, where one with a lawful key is put.
pub fn a_put_keeps_the_order()
    ensures { (schema : the_schema) (row : Row) (rows : List Row) → has_key schema row ≡ true → IsTable schema rows → IsTable schema (put_row schema row rows) }
{}

/// A row is put between the rows of lesser keys and those of greater ones.
pub fn a_row_is_put_at_its_place()
    ensures { (schema : the_schema) (row : Row) (rows : List Row) → IsTable schema rows → put_row schema row rows ≡ filter (λ other. is_lt (row_order schema other row)) rows ++ row ∷ filter (λ other. is_lt (row_order schema row other)) rows }
{}

/// After a put its row is at its key, and at every other key is what was there.
pub fn a_put_row_is_found()
    ensures { (schema : the_schema) (row : Row) (key : Val × Option Val) (rows : List Row) → row_at schema key (put_row schema row rows) ≡ (if is_eq (key_order key (key_of schema row)) then Some row else row_at schema key rows) }
{}

/// The key of a row is lawful.
pub fn a_read_key_is_lawful()
    ensures { (schema : the_schema) (row : Row) (key : Val × Option Val) → row_key schema row ≡ Ok key → is_lawful_key schema key ≡ true }
{
    dbe_values::a_read_key_is_lawful();
}
