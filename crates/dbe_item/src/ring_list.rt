ghost use Rattle.std.specs.Prelude.{◌≡◌, [], ◌∷◌, ◌++◌, IfOk, OnOk};
ghost use Rattle.std.specs.List.{All};
ghost use Rattle.dbe_config.specs.Bounds.{IsRing};
ghost use Rattle.dbe_item.specs.Sealed.{raw_rings};

use dbe_config::Recipient;
use dbe_num::Memory;
use dbe_rawring::RawRing;
use std::alloc::Global;

/// The rings of the raw recipients, in their order.
pub(crate) fn raw_rings(alloc: Global, recipients: &[Recipient]) -> Result<Vec<RawRing>, Memory>
    requires { All IsRing recipients.now }
    ensures { IfOk result (λ rings. rings.items ≡ raw_rings recipients.now) }
{
    let mut rings = Vec::with_capacity(alloc, recipients.len())?;
    for recipient in recipients {
        push_ring(alloc, &mut rings, recipient)?;
    }
    Ok(rings)
}

/// The ring of a recipient, where it is raw.
fn push_ring(alloc: Global, rings: &mut Vec<RawRing>, recipient: &Recipient) -> Result<(), Memory>
    requires { IsRing recipient.now }
    ensures { OnOk result (rings.new.items ≡ rings.old.items ++ raw_rings (recipient.now ∷ [])) }
{
    match recipient {
        Recipient::Raw {
            namespace,
            name,
            key,
        } => {
            let ring = RawRing::new(namespace.copy(alloc)?, name.copy(alloc)?, key);
            rings.push(ring)?;
            Ok(())
        }
        Recipient::Branch { .. } => Ok(()),
    }
}
