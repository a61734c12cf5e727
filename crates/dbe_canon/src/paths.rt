ghost use Rattle.std.specs.Prelude.{◌≡◌, ◌++◌, IfOk, OnOk};
ghost use Rattle.dbe_canon.specs.Path.{path_of, name_cmp};

use crate::writing::{put_count, put_string};
use dbe_num::Memory;
use std::alloc::Global;
use std::cmp::Ordering;

/// The path of an attribute: the table's name behind its length, the number of steps as 8 bytes, a `$`, and the
/// attribute's name behind its length.
pub fn path(alloc: Global, table: &[u8], name: &[u8]) -> Result<Vec<u8>, Memory>
    ensures { IfOk result (λ bytes. bytes.items ≡ path_of table.now name.now) }
{
    let mut out = Vec::new(alloc);
    put_path(&mut out, table, name)?;
    Ok(out)
}

/// Writes the path of an attribute at the end of `out`.
pub fn put_path(out: &mut Vec<u8>, table: &[u8], name: &[u8]) -> Result<(), Memory>
    ensures { OnOk result (out.new.items ≡ out.old.items ++ path_of table.now name.now) }
{
    put_string(out, table)?;
    put_count(out, 1)?;
    out.push(b'$')?;
    put_string(out, name)
}

/// The order of two names: shorter ones first, and those of one length by their bytes. Takes no memory.
pub fn name_order(a: &[u8], b: &[u8]) -> Ordering
    ensures { result ≡ name_cmp a.now b.now }
{
    a.len().cmp(&b.len()).then_with(|| a.cmp(&b))
}
