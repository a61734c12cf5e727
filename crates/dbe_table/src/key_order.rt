ghost use Rattle.std.specs.Prelude.{◌≡◌, ◌↔◌, ◌&&◌, IfOk, Some, IsTrue, option_map};
ghost use Rattle.dbe_values.specs.Keys.{has_key, key_of};
ghost use Rattle.dbe_values.specs.KeyValues.{key_view};
ghost use Rattle.dbe_table.specs.Rows.{IsTable};
ghost use Rattle.dbe_table.specs.InMemory.{is_next};

use dbe_num::Memory;
use dbe_values::{Item, KeyError, KeySchema, KeyValue, key_order, read_key};
use std::alloc::Global;
use std::cmp::Ordering;

/// Whether these are rows with lawful keys, each key once, in key order.
pub(crate) fn is_table(alloc: Global, schema: &KeySchema, rows: &[Item]) -> Result<bool, Memory>
    ensures { IfOk result (λ is. IsTrue is ↔ IsTable schema.now rows.now) }
{
    let mut last = None;
    for row in rows {
        if !goes_on(alloc, schema, &mut last, row)? {
            return Ok(false);
        }
    }
    Ok(true)
}

// Whether the key of a row is lawful and comes behind the last one, whose place it then takes.
fn goes_on(
    alloc: Global,
    schema: &KeySchema,
    last: &mut Option<KeyValue>,
    row: &Item,
) -> Result<bool, Memory>
    ensures on { IfOk result (λ on. on ≡ (has_key schema.now row.now && is_next (option_map key_view last.old) (key_of schema.now row.now))) }
    ensures last { IfOk result (λ on. IsTrue on → option_map key_view last.new ≡ Some (key_of schema.now row.now)) }
{
    let key = match read_key(alloc, schema, row) {
        Ok(key) => key,
        Err(KeyError::Bad { .. }) => return Ok(false),
        Err(KeyError::Memory) => return Err(Memory),
    };
    let on = is_next(last, &key);
    *last = Some(key);
    Ok(on)
}

// Whether a key comes behind the last one.
fn is_next(last: &Option<KeyValue>, key: &KeyValue) -> bool
    ensures { result ≡ is_next (option_map key_view last.now) (key_view key.now) }
{
    match last {
        Some(last) => key_order(last, key) == Ordering::Less,
        None => true,
    }
}
