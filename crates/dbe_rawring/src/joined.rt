// Keys of 32 bytes, wrapped: the ciphertext and its tag, joined.

ghost use Rattle.std.specs.Prelude.{◌≡◌, ◌+◌, ◌≤◌, ◌↔◌, IfSome, IsSome, drop, length, take};
ghost use Rattle.dbe_gcm.specs.Gcm.{streamed};
ghost use Rattle.dbe_rawring.specs.Wrap.{IsAuthentic, wrapped_key};

use crate::sizes::{IV_SIZE, KEY_SIZE, TAG_SIZE, WRAPPED_SIZE};
use dbe_gcm::{Key256, open_in_place, seal_in_place};

// The N bytes from `at` on.
pub(crate) fn part<const N: usize>(bytes: &[u8], at: usize) -> [u8; N]
    requires { at + N ≤ length bytes.now }
    ensures { result ≡ take N (drop at bytes.now) }
{
    let mut part = [0; N];
    part.copy_from_slice(&bytes[at..at + N]);
    part
}

pub(crate) fn wrap_key(
    key: &Key256,
    iv: &[u8; IV_SIZE],
    aad: &[u8],
    text: &[u8; KEY_SIZE],
) -> [u8; WRAPPED_SIZE]
    ensures { result ≡ wrapped_key key.now iv.now aad.now text.now }
{
    let mut wrapped = [0; WRAPPED_SIZE];
    let (ciphertext, tag) = wrapped.split_at_mut(KEY_SIZE);
    ciphertext.copy_from_slice(text);
    tag.copy_from_slice(&seal_in_place(key, iv, aad, ciphertext));
    wrapped
}

// The key, where the tag is right.
pub(crate) fn unwrap_key(
    key: &Key256,
    iv: &[u8; IV_SIZE],
    aad: &[u8],
    wrapped: &[u8; WRAPPED_SIZE],
) -> Option<[u8; KEY_SIZE]>
    ensures authentic { IsSome result ↔ IsAuthentic key.now iv.now aad.now wrapped.now }
    ensures deciphered { IfSome result (λ text. text ≡ streamed key.now iv.now (take 32 wrapped.now)) }
    ensures wrapped { IfSome result (λ text. wrapped.now ≡ wrapped_key key.now iv.now aad.now text) }
{
    let mut text = part::<KEY_SIZE>(wrapped, 0);
    let tag = part::<TAG_SIZE>(wrapped, KEY_SIZE);
    if open_in_place(key, iv, aad, &mut text, &tag) {
        Some(text)
    } else {
        None
    }
}
