ghost use Rattle.std.specs.Prelude.{◌≡◌, IfOk};
ghost use Rattle.dbe_frame.specs.Signed.{signed_among, signed_names};

use dbe_canon::name_order;
use dbe_config::Config;
use dbe_num::{Memory, Text};
use dbe_values::Item;
use std::alloc::Global;

/// The signed names of a row in canonical order: shorter ones first, and those of one length by their bytes.
pub fn signed_names(alloc: Global, config: &Config, row: &Item) -> Result<Vec<Text>, Memory>
    ensures { IfOk result (λ names. names.items ≡ signed_names config.now row.now) }
{
    let mut names = signed_among(alloc, config, row)?;
    names.sort_by(|a, b| name_order(a.as_bytes(), b.as_bytes()))?;
    Ok(names)
}

/// The names of a row that are not unsigned, in the order of the row.
fn signed_among(alloc: Global, config: &Config, row: &Item) -> Result<Vec<Text>, Memory>
    ensures { IfOk result (λ names. names.items ≡ signed_among config.now row.now) }
{
    let mut names = Vec::with_capacity(alloc, row.len())?;
    for i in 0..row.len() {
        let (name, _) = row.at(i);
        if config.is_unsigned(name) {
            continue;
        }
        names.push(name.copy(alloc)?)?;
    }
    Ok(names)
}
