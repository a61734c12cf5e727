ghost use Rattle.std.specs.Prelude.{◌≡◌, ◌++◌, ◌↔◌, ℕ, List, IfErr, IfOk, IsTrue};
ghost use Rattle.dbe_rawring.specs.Ring.{IsMine, IsRingFault, Unwraps, intermediate_of, raw_ciphertext, raw_edk};
ghost use Rattle.dbe_rawring.specs.Wrap.{signing_key};

use crate::edk::Edk;
use crate::fault::RingFault;
use crate::inner::{DataKey, unwrap_inner, wrap_inner_and_sign};
use crate::joined::{part, unwrap_key, wrap_key};
use crate::ring::RawRing;
use crate::sizes::{CIPHERTEXT_SIZE, DRAWN_SIZE, IV_SIZE, KEY_SIZE, SIGNING_SIZE, WRAPPED_SIZE};
use dbe_kdf::EmptySalt;
use dbe_num::{Bytes, Memory};
use std::alloc::Global;

/// A data key as a ring has wrapped it, and the signing key of the recipient, 48 bytes.
#[derive(Drop)]
pub struct Wrapped {
    pub edk: Edk,
    pub signing: [u8; SIGNING_SIZE],
}

/// Wraps a data key for the ring, with the full context as associated data. The drawn bytes are an intermediate key of
/// 32 bytes and then an IV of 12, and must serve for no other data key.
pub fn wrap(
    alloc: Global,
    ring: &RawRing,
    salt: &EmptySalt,
    context: &[u8],
    data_key: &[u8; KEY_SIZE],
    drawn: &[u8; DRAWN_SIZE],
) -> Result<Wrapped, Memory>
    ensures edk { IfOk result (λ w. w.edk ≡ raw_edk ring.now context.now data_key.now drawn.now) }
    ensures signing { IfOk result (λ w. w.signing ≡ signing_key (intermediate_of drawn.now)) }
{
    let intermediate = part::<KEY_SIZE>(drawn, 0);
    let iv = part::<IV_SIZE>(drawn, KEY_SIZE);
    let outer = wrap_key(&ring.key, &iv, context, &intermediate);
    let inner = wrap_inner_and_sign(salt, &intermediate, context, data_key);
    let provider = Bytes::copy_of(alloc, ring.namespace.as_bytes())?;
    let info = Bytes::copy_of(alloc, ring.name.as_bytes())?;
    let ciphertext = Bytes::copy_of(alloc, &joined(&iv, &outer, &inner.wrapped))?;
    Ok(Wrapped {
        edk: Edk::new(provider, info, ciphertext),
        signing: inner.signing,
    })
}

/// The data key that the ring has wrapped with this context, and the signing key of the recipient. Takes no memory.
pub fn unwrap(
    ring: &RawRing,
    salt: &EmptySalt,
    context: &[u8],
    edk: &Edk,
) -> Result<DataKey, RingFault>
    ensures opened { IfOk result (λ d. Unwraps ring.now context.now edk.now d.key d.signing) }
    ensures fault { IfErr result (λ f. IsRingFault f ring.now context.now edk.now) }
    ensures none { IfErr result (λ _. (data_key signing : List ℕ)
        → Unwraps ring.now context.now edk.now data_key signing → ⊥) }
{
    if !is_mine(ring, edk) {
        return Err(RingFault::NotMine);
    }
    let ciphertext = edk.ciphertext();
    let iv = part::<IV_SIZE>(ciphertext, 0);
    let outer = part::<WRAPPED_SIZE>(ciphertext, IV_SIZE);
    let inner = part::<WRAPPED_SIZE>(ciphertext, IV_SIZE + WRAPPED_SIZE);
    let Some(intermediate) = unwrap_key(&ring.key, &iv, context, &outer) else {
        return Err(RingFault::NotAuthentic);
    };
    match unwrap_inner(salt, &intermediate, context, &inner) {
        Some(data_key) => Ok(data_key),
        None => Err(RingFault::NotAuthentic),
    }
}

// Whether the ring has wrapped it, by its names and its size.
fn is_mine(ring: &RawRing, edk: &Edk) -> bool
    ensures { IsTrue result ↔ IsMine ring.now edk.now }
{
    edk.provider() == ring.namespace.as_bytes()
        && edk.info() == ring.name.as_bytes()
        && edk.ciphertext().len() == CIPHERTEXT_SIZE
}

fn joined(
    iv: &[u8; IV_SIZE],
    outer: &[u8; WRAPPED_SIZE],
    inner: &[u8; WRAPPED_SIZE],
) -> [u8; CIPHERTEXT_SIZE]
    ensures { result ≡ iv.now ++ outer.now ++ inner.now }
{
    let mut ciphertext = [0; CIPHERTEXT_SIZE];
    let (front, back) = ciphertext.split_at_mut(IV_SIZE + WRAPPED_SIZE);
    let (first, second) = front.split_at_mut(IV_SIZE);
    first.copy_from_slice(iv);
    second.copy_from_slice(outer);
    back.copy_from_slice(inner);
    ciphertext
}
