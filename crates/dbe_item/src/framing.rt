ghost use Rattle.std.specs.Prelude.{◌≡◌, true, OnOk};
ghost use Rattle.dbe_values.specs.Attributes.{is_name, put_at};
ghost use Rattle.dbe_values.specs.declared.value.AttrValue.{B};
ghost use Rattle.dbe_item.specs.Sealed.{put_all};

use crate::attributes::are_bytes;
use dbe_num::{Bytes, Memory, Text};
use dbe_values::{AttrValue, Item};
use std::alloc::Global;

/// Puts a binary at a name.
pub(crate) fn put_binary(
    alloc: Global,
    row: &mut Item,
    name: &str,
    bytes: Vec<u8>,
) -> Result<(), Memory>
    requires { is_name name.now ≡ true }
    ensures { OnOk result (row.new ≡ put_at name.now (B bytes.items) row.old) }
{
    are_bytes(&bytes);
    row.put(
        Text::copy_of(alloc, name)?,
        AttrValue::B(Bytes::from_vec(bytes)),
    )
}

/// Puts copies of attributes among those of a row.
pub(crate) fn put_all(alloc: Global, row: &mut Item, others: &Item) -> Result<(), Memory>
    ensures { OnOk result (row.new ≡ put_all others.now row.old) }
{
    others.is_lawful();
    for i in 0..others.len() {
        let (name, value) = others.at(i);
        row.put(name.copy(alloc)?, value.copy(alloc)?)?;
    }
    Ok(())
}
