// HMAC-SHA-512 under a key whose two blocks were hashed once.

ghost use Rattle.std.specs.Prelude.{◌≡◌, ℕ, List, [], ◌∷◌, ◌++◌};
ghost use Rattle.sha2.specs.Sha512.{sha512};
ghost use Rattle.dbe_kdf.specs.Hmac.{hmac};
ghost use Rattle.dbe_kdf.specs.Keyed.{IsKeyed512};

use crate::block::{INNER_PAD, OUTER_PAD, key_block512, keyed};
use sha2::{Digest, Sha512};

pub(crate) const DIGEST: usize = 64;

// The two hashers that have taken in the key's blocks.
#[derive(Drop)]
pub(crate) struct Keyed512 {
    inner: Sha512,
    outer: Sha512,
}

impl Keyed512 {
    pub(crate) fn new(key: &[u8]) -> Keyed512
        ensures { IsKeyed512 result key.now }
    {
        let block = key_block512(key);
        Keyed512 {
            inner: keyed(&block, INNER_PAD),
            outer: keyed(&block, OUTER_PAD),
        }
    }

    // The HMAC of a text.
    #[tactic(auto, unfolding(crate::specs::Hmac::hmac))]
    pub(crate) fn hmac(&self, text: &[u8]) -> [u8; DIGEST]
        ensures { (key : List ℕ) → IsKeyed512 self.now key → result ≡ hmac sha512 key text.now }
    {
        let mut inner = copy_of(&self.inner);
        inner.update(text);
        let mut outer = copy_of(&self.outer);
        outer.update(inner.finalize().as_slice());
        outer.finalize()
    }

    // The HMAC of the last block, the info and the block's number.
    #[tactic(auto, unfolding(crate::specs::Hmac::hmac))]
    pub(crate) fn block(&self, last: &[u8], info: &[u8], number: u8) -> [u8; DIGEST]
        ensures { (key : List ℕ) → IsKeyed512 self.now key
            → result ≡ hmac sha512 key (last.now ++ info.now ++ number ∷ []) }
    {
        let mut inner = copy_of(&self.inner);
        inner.update(last);
        inner.update(info);
        inner.update([number].as_slice());
        let mut outer = copy_of(&self.outer);
        outer.update(inner.finalize().as_slice());
        outer.finalize()
    }
}

fn copy_of(hasher: &Sha512) -> Sha512
    ensures { result ≡ hasher.now }
{
    match hasher.clone() {
        Ok(copy) => copy,
        Err(_) => unreachable!(),
    }
}
