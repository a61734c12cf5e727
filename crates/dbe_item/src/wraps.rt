ghost use Rattle.std.specs.Prelude.{◌≡◌, ◌*◌, true, IfOk, length, map};
ghost use Rattle.std.specs.List.{All};
ghost use Rattle.dbe_rawring.specs.Edk.{IsEdk};
ghost use Rattle.dbe_values.specs.Keys.{has_key};
ghost use Rattle.dbe_item.specs.Sealed.{draw_length, item_wraps};
ghost use Rattle.dbe_item.specs.Sealing.{ring_wraps};

use crate::Rings;
use crate::context::item_context;
use crate::parts::part;
use dbe_kdf::EmptySalt;
use dbe_num::Memory;
use dbe_rawring::{Edk, RawRing, wrap};
use dbe_values::Item;
use std::alloc::Global;

/// The bytes of the message id and of the data key, which are drawn first.
const ITEM_BYTES: usize = 64;

/// The bytes that are drawn for a raw recipient.
const DRAWN_BYTES: usize = 44;

/// The encrypted data keys of recipients, and the keys with which they sign.
#[derive(Drop)]
pub(crate) struct Wraps {
    pub(crate) edks: Vec<Edk>,
    pub(crate) signing: Vec<[u8; 48]>,
}

/// The data key of an item, wrapped for each recipient.
pub(crate) fn item_wraps(
    alloc: Global,
    rings: &Rings,
    drawn: &[u8],
    item: &Item,
) -> Result<Wraps, Memory>
    requires key { has_key rings.now.schema item.now ≡ true }
    requires drawn { length drawn.now ≡ draw_length rings.now }
    ensures edks { IfOk result (λ w. w.edks.items ≡ map (λ x. x.edk) (item_wraps rings.now drawn.now item.now)) }
    ensures signing { IfOk result (λ w. w.signing.items ≡ map (λ x. x.signing) (item_wraps rings.now drawn.now item.now)) }
    ensures each { IfOk result (λ w. All IsEdk w.edks.items) }
{
    rings.config().keeps_built();
    let context = item_context(alloc, rings, item)?;
    let data_key = part(drawn, 32);
    let (_, others) = drawn.split_at(ITEM_BYTES);
    let wraps = wrap_all(
        alloc,
        rings.raw(),
        rings.salt(),
        &context,
        &data_key,
        others,
    )?;
    Ok(wraps)
}

/// The data key wrapped by each ring, with the bytes that were drawn for it.
pub(crate) fn wrap_all(
    alloc: Global,
    rings: &[RawRing],
    salt: &EmptySalt,
    context: &[u8],
    data_key: &[u8; 32],
    drawn: &[u8],
) -> Result<Wraps, Memory>
    requires { length drawn.now ≡ 44 * length rings.now }
    ensures edks { IfOk result (λ w. w.edks.items ≡ map (λ x. x.edk) (ring_wraps rings.now context.now data_key.now drawn.now)) }
    ensures signing { IfOk result (λ w. w.signing.items ≡ map (λ x. x.signing) (ring_wraps rings.now context.now data_key.now drawn.now)) }
    ensures each { IfOk result (λ w. All IsEdk w.edks.items) }
{
    let mut edks = Vec::with_capacity(alloc, rings.len())?;
    let mut signing = Vec::with_capacity(alloc, rings.len())?;
    let mut rest = drawn;
    for ring in rings {
        let wrapped = wrap(alloc, ring, salt, context, data_key, &part(rest, 0))?;
        wrapped.edk.is_edk();
        edks.push(wrapped.edk)?;
        signing.push(wrapped.signing)?;
        (_, rest) = rest.split_at(DRAWN_BYTES);
    }
    Ok(Wraps { edks, signing })
}
