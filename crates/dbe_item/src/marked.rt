ghost use Rattle.std.specs.Prelude.{◌≡◌, IfOk, length};
ghost use Rattle.dbe_item.specs.Names.{marked};

use dbe_num::{Memory, Text};
use std::alloc::Global;

const ENCRYPTED: u8 = b'e';

/// The names whose legend byte says that they are encrypted, in their order.
pub(crate) fn marked_names(
    alloc: Global,
    names: &[Text],
    legend: &[u8],
) -> Result<Vec<Text>, Memory>
    requires { length legend.now ≡ length names.now }
    ensures { IfOk result (λ encrypted. encrypted.items ≡ marked names.now legend.now) }
{
    let mut encrypted = Vec::new(alloc);
    for i in 0..names.len() {
        if legend[i] != ENCRYPTED {
            continue;
        }
        encrypted.push(names[i].copy(alloc)?)?;
    }
    Ok(encrypted)
}
