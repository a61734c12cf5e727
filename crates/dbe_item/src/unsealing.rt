ghost use Rattle.std.specs.Prelude.{◌≡◌, ◌⊎◌, IfOk, IfErr};
ghost use Rattle.dbe_frame.specs.Signed.{signed_names};
ghost use Rattle.dbe_item.specs.Opens.{AreCounts, AreSealedCounts, IsFramed, Opens, OpensSealed};
ghost use Rattle.dbe_item.specs.Opening.{IsSignedWith};
ghost use Rattle.dbe_item.specs.Reasons.{IsReason, IsSealedReason};

use crate::fields::open_fields;
use crate::found::{Verified, verify};
use crate::frame::{Frame, read_frame};
use crate::marked::marked_names;
use crate::opened_item::opened_item;
use crate::{OpenFault, Rings};
use dbe_config::Config;
use dbe_frame::canonical_order;
use dbe_values::Item;
use std::alloc::Global;

/// An item that a row opened to, and what was read of the row.
#[derive(Drop)]
pub struct Opened {
    pub item: Item,
    /// The place, from 0, of the encrypted data key that a recipient unwrapped; 0 where the row is not sealed.
    pub recipient: usize,
    /// How many attributes are encrypted; 0 where the row is not sealed.
    pub encrypted: usize,
    /// How many attributes are signed, the encrypted ones included; 0 where the row is not sealed.
    pub signed: usize,
}

/// The item that a row opens to; over a plain table (a configuration without recipients) a copy of the row. A row that
/// does not open is answered with the first condition that fails, in the order of `OpenFault`.
pub fn unseal(alloc: Global, rings: &Rings, row: &Item) -> Result<Opened, OpenFault>
    ensures opens { IfOk result (λ o. Opens rings.now row.now o.item o.recipient) }
    ensures counts { IfOk result (λ o. AreCounts rings.now row.now o.encrypted o.signed) }

    // Over a plain table only memory can run out.
    ensures fault { IfErr result (λ f. (f ≡ OpenFault.Memory) ⊎ IsSealedReason f rings.now row.now) }
{
    if !rings.config().is_plain() {
        return unseal_row(alloc, rings, row);
    }
    Ok(Opened {
        item: row.copy(alloc)?,
        recipient: 0,
        encrypted: 0,
        signed: 0,
    })
}

fn unseal_row(alloc: Global, rings: &Rings, row: &Item) -> Result<Opened, OpenFault>
    ensures opens { IfOk result (λ o. OpensSealed rings.now row.now o.item o.recipient) }
    ensures counts { IfOk result (λ o. AreSealedCounts row.now o.encrypted o.signed) }
    ensures fault { IfErr result (λ f. IsReason f rings.now row.now) }
{
    let frame = match read_frame(alloc, rings.config(), row) {
        Ok(frame) => frame,
        Err(fault) => return Err(fault),
    };
    let verified = match verify(alloc, rings, row, &frame) {
        Ok(verified) => verified,
        Err(fault) => return Err(fault),
    };
    open_attributes(alloc, rings.config(), row, &frame, &verified)
}

/// Opens the encrypted attributes of a row whose tag is right.
fn open_attributes(
    alloc: Global,
    config: &Config,
    row: &Item,
    frame: &Frame,
    verified: &Verified,
) -> Result<Opened, OpenFault>
    requires framed { IsFramed config.now row.now frame.now.header frame.now.tags.items }
    requires names { frame.now.names.items ≡ signed_names config.now row.now }
    requires signed { IsSignedWith config.now row.now frame.now.header verified.now.place verified.now.keys.root }
    ensures opens { IfOk result (λ o. OpensSealed config.now row.now o.item o.recipient) }
    ensures counts { IfOk result (λ o. AreSealedCounts row.now o.encrypted o.signed) }
    ensures fault { IfErr result (λ f. IsReason f config.now row.now) }
{
    row.is_lawful();
    canonical_order();
    frame.header.has_parts();
    let legend = frame.header.legend();
    let encrypted = marked_names(alloc, &frame.names, legend)?;
    let values = match open_fields(alloc, config, row, &verified.keys, &encrypted) {
        Ok(values) => values,
        Err(fault) => return Err(fault),
    };
    Ok(Opened {
        item: opened_item(alloc, row, &encrypted, &values)?,
        recipient: verified.place,
        encrypted: encrypted.len(),
        signed: legend.len(),
    })
}
