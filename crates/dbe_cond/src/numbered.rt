ghost use Rattle.std.specs.Prelude.{◌≡◌, IfOk};
ghost use Rattle.std.specs.Map.{keys_of};
ghost use Rattle.dbe_values.specs.Sets.{IsIncreasing};
ghost use Rattle.dbe_cond.specs.Printed.{numbered, by_placeholder};

use crate::placeholders::put_among;
use dbe_num::{Memory, Text};
use std::alloc::Global;

/// The placeholder of a number.
pub(crate) fn placeholder(alloc: Global, mark: &str, number: usize) -> Result<Text, Memory>
    ensures { IfOk result (λ t. t ≡ numbered mark.now number) }
{
    Ok(Text::from_string(format!(in alloc; "{mark}{number}")?))
}

/// Gives each of a list for the placeholder of its place.
pub(crate) fn by_placeholder<X: Drop>(
    alloc: Global,
    mark: &str,
    found: Vec<X>,
) -> Result<Vec<(Text, X)>, Memory>
    ensures all { IfOk result (λ entries. entries.items ≡ by_placeholder mark.now found.items) }
    ensures increasing { IfOk result (λ entries. IsIncreasing (keys_of entries.items)) }
{
    let mut entries = Vec::new(alloc);
    let mut number = 0usize;
    for x in found {
        put_among(&mut entries, placeholder(alloc, mark, number)?, x)?;
        number += 1;
    }
    Ok(entries)
}
