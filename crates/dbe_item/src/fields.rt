ghost use Rattle.std.specs.Prelude.{◌≡◌, ◌≤◌, ◌<◌, ◌⊎◌, ℕ, List, IfOk, IfErr, length};
ghost use Rattle.dbe_values.specs.View.{view};
ghost use Rattle.dbe_item.specs.Opens.{Found, IsSigned, opened_names, opened_root};
ghost use Rattle.dbe_item.specs.Opening.{AreFields, OpensField, named_fault};
ghost use Rattle.dbe_item.specs.Reasons.{HasFieldFault, IsReason};
ghost use Rattle.dbe_item.specs.declared.open_fault.OpenFault.TheVariants as f;

use crate::OpenFault;
use crate::frame::binary;
use dbe_canon::put_path;
use dbe_config::Config;
use dbe_itemkeys::{FieldFault, ItemKeys};
use dbe_num::Text;
use dbe_values::{AttrValue, Item};
use std::alloc::Global;

/// The values of the encrypted attributes of these names, in their order; or the first that is no field.
pub(crate) fn open_fields(
    alloc: Global,
    config: &Config,
    row: &Item,
    keys: &ItemKeys,
    names: &[Text],
) -> Result<Vec<AttrValue>, OpenFault>
    requires { length names.now ≤ 65536 }
    ensures fields { IfOk result (λ values. AreFields config.now row.now keys.now.root names.now values.items) }
    ensures fault { IfErr result (λ fault. (by : Found) → IsSigned config.now row.now by → opened_names config.now row.now by.header ≡ names.now → opened_root by ≡ keys.now.root → IsReason fault config.now row.now) }
{
    let mut values = Vec::with_capacity(alloc, names.len())?;
    let mut buffers = Buffers {
        path: Vec::new(alloc),
        text: Vec::new(alloc),
    };
    for i in 0..names.len() {
        let name = &names[i];
        match open_field(alloc, &mut buffers, config, row, keys, i as u32, name) {
            Ok(value) => values.push(value)?,
            Err(fault) => return Err(with_name(alloc, fault, name)),
        }
    }
    Ok(values)
}

/// The path of a field and the text that it is deciphered to: what is in them between calls means nothing.
#[derive(Drop)]
struct Buffers {
    path: Vec<u8>,
    text: Vec<u8>,
}

/// The value of an encrypted attribute, whose number is `k`.
fn open_field(
    alloc: Global,
    buffers: &mut Buffers,
    config: &Config,
    row: &Item,
    keys: &ItemKeys,
    k: u32,
    name: &Text,
) -> Result<AttrValue, FieldFault>
    requires { k ≤ 65535 }
    ensures opens { IfOk result (λ v. OpensField config.now row.now keys.now.root k name.now v) }
    ensures fault { IfErr result (λ fault. HasFieldFault fault config.now row.now keys.now.root k name.now) }
{
    let Some(bytes) = binary(row, name.as_str()) else {
        return Err(FieldFault::Shape);
    };
    buffers.path.clear();
    match put_path(
        &mut buffers.path,
        config.table().as_bytes(),
        name.as_bytes(),
    ) {
        Ok(()) => keys.open_field(alloc, &mut buffers.text, k, &buffers.path, bytes),
        Err(_) => Err(FieldFault::Memory),
    }
}

/// The fault with the name of the attribute.
fn with_name(alloc: Global, fault: FieldFault, name: &Text) -> OpenFault
    ensures { (result ≡ f.Memory) ⊎ (result ≡ named_fault fault name.now) }
{
    let Ok(name) = name.copy(alloc) else {
        return OpenFault::Memory;
    };
    match fault {
        FieldFault::Shape => OpenFault::FieldShape { name },
        FieldFault::Tag => OpenFault::FieldTag { name },
        FieldFault::NotCanonical => OpenFault::NotCanonical { name },
        FieldFault::Memory => OpenFault::Memory,
    }
}
