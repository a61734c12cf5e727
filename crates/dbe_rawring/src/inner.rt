ghost use Rattle.std.specs.Prelude.{◌≡◌, ◌↔◌, ℕ, List, [], IfSome, IsSome};
ghost use Rattle.dbe_kdf.specs.Hkdf.{hkdf_extract};
ghost use Rattle.dbe_rawring.specs.Wrap.{IsAuthentic, UnwrapsInner, inner_wrap, signing_key, wrapping_key, zero_iv};

use crate::joined::{unwrap_key, wrap_key};
use crate::sizes::{IV_SIZE, KEY_SIZE, SIGNING_SIZE, WRAPPED_SIZE};
use dbe_gcm::Key256;
use dbe_kdf::{EmptySalt, Prk};

/// A data key, 32 bytes, and the signing key of its recipient, 48 bytes.
#[derive(Drop)]
pub struct DataKey {
    pub key: [u8; KEY_SIZE],
    pub signing: [u8; SIGNING_SIZE],
}

/// A data key under an intermediate key, 48 bytes, and the signing key of the intermediate key, 48 bytes.
#[derive(Drop)]
pub struct InnerWrap {
    pub wrapped: [u8; WRAPPED_SIZE],
    pub signing: [u8; SIGNING_SIZE],
}

/// Wraps a data key under an intermediate key, with the full context as associated data. The intermediate key must wrap
/// no other data key.
pub fn wrap_inner(
    salt: &EmptySalt,
    intermediate: &[u8; KEY_SIZE],
    context: &[u8],
    data_key: &[u8; KEY_SIZE],
) -> [u8; WRAPPED_SIZE]
    ensures { result ≡ inner_wrap intermediate.now context.now data_key.now }
{
    wrap_under(&salt.extract(intermediate), context, data_key)
}

/// The same, with the signing key of the intermediate key.
pub fn wrap_inner_and_sign(
    salt: &EmptySalt,
    intermediate: &[u8; KEY_SIZE],
    context: &[u8],
    data_key: &[u8; KEY_SIZE],
) -> InnerWrap
    ensures wrapped { result.wrapped ≡ inner_wrap intermediate.now context.now data_key.now }
    ensures signing { result.signing ≡ signing_key intermediate.now }
{
    let prk = salt.extract(intermediate);
    InnerWrap {
        wrapped: wrap_under(&prk, context, data_key),
        signing: signing_key(&prk),
    }
}

/// The data key that was wrapped under an intermediate key with this context, and the signing key of the intermediate
/// key. None where the tag differs.
pub fn unwrap_inner(
    salt: &EmptySalt,
    intermediate: &[u8; KEY_SIZE],
    context: &[u8],
    wrapped: &[u8; WRAPPED_SIZE],
) -> Option<DataKey>
    ensures opened { IfSome result (λ d. UnwrapsInner intermediate.now context.now wrapped.now d.key) }
    ensures signing { IfSome result (λ d. d.signing ≡ signing_key intermediate.now) }
    ensures tag { IsSome result ↔ IsAuthentic (wrapping_key intermediate.now) zero_iv context.now wrapped.now }
    ensures none { result ≡ None
        → (data_key : List ℕ) → UnwrapsInner intermediate.now context.now wrapped.now data_key → ⊥ }
{
    let prk = salt.extract(intermediate);
    match unwrap_key(&wrapping_key(&prk), &[0; IV_SIZE], context, wrapped) {
        Some(key) => Some(DataKey {
            key,
            signing: signing_key(&prk),
        }),
        None => None,
    }
}

fn wrap_under(prk: &Prk, context: &[u8], data_key: &[u8; KEY_SIZE]) -> [u8; WRAPPED_SIZE]
    ensures { (intermediate : List ℕ) → prk.now ≡ hkdf_extract [] intermediate
        → result ≡ inner_wrap intermediate context.now data_key.now }
{
    wrap_key(&wrapping_key(prk), &[0; IV_SIZE], context, data_key)
}

fn wrapping_key(prk: &Prk) -> Key256
    ensures { (intermediate : List ℕ) → prk.now ≡ hkdf_extract [] intermediate
        → result ≡ wrapping_key intermediate }
{
    let mut key = [0; KEY_SIZE];
    prk.expand(b"AWS_MPL_INTERMEDIATE_KEYWRAP_ENC", &mut key);
    Key256::new(&key)
}

fn signing_key(prk: &Prk) -> [u8; SIGNING_SIZE]
    ensures { (intermediate : List ℕ) → prk.now ≡ hkdf_extract [] intermediate
        → result ≡ signing_key intermediate }
{
    let mut key = [0; SIGNING_SIZE];
    prk.expand(b"AWS_MPL_INTERMEDIATE_KEYWRAP_MAC", &mut key);
    key
}
