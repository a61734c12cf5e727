ghost use Rattle.std.specs.Prelude.{◌≡◌, ℕ, List, IfOk, bytes_eq};
ghost use Rattle.std.specs.List.{IsDistinct};
ghost use Rattle.dbe_config.specs.Rules.{is_among};
ghost use Rattle.dbe_cond.specs.Condition.{condition_of};
ghost use Rattle.dbe_cond.specs.Names.{names_of};

use dbe_cond::{Cond, names_in};
use dbe_num::{Memory, Text};
use std::alloc::Global;

/// The names of a condition, each once.
pub(crate) fn distinct_names(alloc: Global, cond: &Cond) -> Result<Vec<Text>, Memory>
    ensures same { IfOk result (λ found. (name : List ℕ) → is_among name found.items ≡ is_among name (names_of (condition_of cond.now))) }
    ensures once { IfOk result (λ found. IsDistinct bytes_eq found.items) }
{
    let names = names_in(alloc, cond)?;
    distinct(alloc, names.as_slice())
}

fn distinct(alloc: Global, names: &[Text]) -> Result<Vec<Text>, Memory>
    ensures same { IfOk result (λ found. (name : List ℕ) → is_among name found.items ≡ is_among name names.now) }
    ensures once { IfOk result (λ found. IsDistinct bytes_eq found.items) }
{
    let mut found = Vec::new(alloc);
    for name in names {
        if !is_among(name, &found) {
            found.push(name.copy(alloc)?)?;
        }
    }
    Ok(found)
}

fn is_among(name: &Text, names: &[Text]) -> bool
    ensures { result ≡ is_among name.now names.now }
{
    for other in names {
        if name.as_bytes() == other.as_bytes() {
            return true;
        }
    }
    false
}
