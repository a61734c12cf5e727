ghost use Rattle.std.specs.Prelude.{◌≡◌, IfOk};
ghost use Rattle.dbe_item.specs.Names.{strip};

use crate::acceptance::is_reserved;
use dbe_num::Memory;
use dbe_values::Item;
use std::alloc::Global;

/// The row without the attributes that dbe keeps for itself: their names begin with `aws_dbe_`.
pub fn strip(alloc: Global, row: &Item) -> Result<Item, Memory>
    ensures { IfOk result (λ item. item ≡ strip row.now) }
{
    row.is_lawful();
    let mut item = Item::new(alloc);
    for i in 0..row.len() {
        let (name, value) = row.at(i);
        if is_reserved(name) {
            continue;
        }
        item.put(name.copy(alloc)?, value.copy(alloc)?)?;
    }
    Ok(item)
}
