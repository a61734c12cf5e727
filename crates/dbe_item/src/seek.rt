ghost use Rattle.std.specs.Prelude.{◌≡◌, ◌<◌, None, IfSome, length};
ghost use Rattle.dbe_item.specs.Opening.{FirstRing, NoRing, SeeksRing, SeeksNone};

use dbe_frame::Edks;
use dbe_rawring::{DataKey, Edk, EmptySalt, RawRing, unwrap};

/// A data key with its signing key, and the place of the encrypted data key that it was found in.
#[derive(Drop)]
pub(crate) struct Sought {
    pub(crate) place: usize,
    pub(crate) data_key: DataKey,
}

/// Tries the encrypted data keys in order, each with the rings in order. Takes no memory.
pub(crate) fn seek(
    rings: &[RawRing],
    salt: &EmptySalt,
    context: &[u8],
    edks: &Edks,
) -> Option<Sought>
    ensures found { IfSome result (λ s. SeeksRing rings.now context.now edks.now s.place s.data_key.key s.data_key.signing) }
    ensures within { IfSome result (λ s. s.place < length edks.now) }
    ensures none { result ≡ None → SeeksNone rings.now context.now edks.now }
{
    let edks = edks.as_slice();
    for i in 0..edks.len() {
        if let Some(data_key) = first_ring(rings, salt, context, &edks[i]) {
            return Some(Sought { place: i, data_key });
        }
    }
    None
}

/// What the first ring that unwraps an encrypted data key gives.
fn first_ring(rings: &[RawRing], salt: &EmptySalt, context: &[u8], edk: &Edk) -> Option<DataKey>
    ensures found { IfSome result (λ d. FirstRing rings.now context.now edk.now d.key d.signing) }
    ensures none { result ≡ None → NoRing rings.now context.now edk.now }
{
    for i in 0..rings.len() {
        if let Ok(data_key) = unwrap(&rings[i], salt, context, edk) {
            return Some(data_key);
        }
    }
    None
}
