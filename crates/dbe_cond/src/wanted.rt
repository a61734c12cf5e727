ghost use Rattle.std.specs.Prelude.{◌≡◌};
ghost use Rattle.dbe_cond.specs.Wants.{wants};

use crate::{Cond, holds};
use dbe_values::Item;

/// Which rows a table hands out.
#[derive(Drop)]
pub enum Wanted {
    /// Every row.
    Every,
    /// The rows of which a condition holds.
    Only(Cond),
}

/// Whether a row is wanted, the row taken as an item. Takes no memory.
pub fn wants(wanted: &Wanted, row: &Item) -> bool
    ensures { result ≡ wants wanted.now row.now }
{
    match wanted {
        Wanted::Every => true,
        Wanted::Only(cond) => holds(cond, row),
    }
}
