ghost use Rattle.std.specs.Prelude.{◌≡◌, true, IfOk};
ghost use Rattle.dbe_values.specs.Keys.{has_key};
ghost use Rattle.dbe_item.specs.Sealed.{item_context};

use crate::Rings;
use dbe_frame::context_bytes;
use dbe_num::Memory;
use dbe_values::{Item, KeyError, read_key};
use std::alloc::Global;

/// The full encryption context of an item.
pub(crate) fn item_context(alloc: Global, rings: &Rings, item: &Item) -> Result<Vec<u8>, Memory>
    requires { has_key rings.now.schema item.now ≡ true }
    ensures { IfOk result (λ bytes. bytes.items ≡ item_context rings.now item.now) }
{
    let config = rings.config();
    config.keeps_bounds();
    let key = match read_key(alloc, config.schema(), item) {
        Ok(key) => key,
        Err(KeyError::Bad { name: _ }) => unreachable!(),
        Err(KeyError::Memory) => return Err(Memory),
    };
    context_bytes(alloc, config.schema(), config.table(), &key, rings.stored())
}
