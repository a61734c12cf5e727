ghost use Rattle.std.specs.Prelude.{◌≡◌, ℕ, List, [], ◌++◌};
ghost use Rattle.sha2.specs.Sha512.{sha384};
ghost use Rattle.dbe_kdf.specs.Hmac.{hmac};
ghost use Rattle.dbe_kdf.specs.Keyed.{IsKeyed384};

use crate::block::{INNER_PAD, OUTER_PAD, key_block384, keyed};
use sha2::{Digest, Sha384};

/// HMAC-SHA-384 (RFC 2104) in progress: a key, and a text that comes piece by piece.
///
/// `IsKeyed384` names the key and the text so far.
#[derive(Drop)]
pub struct Keyed384 {
    inner: Sha384,
    outer: Sha384,
}

impl Keyed384 {
    /// An HMAC under this key, of no text yet. The key may have any length; one of more than 128 bytes counts by its
    /// SHA-384.
    pub fn new(key: &[u8]) -> Keyed384
        ensures { IsKeyed384 result key.now [] }
    {
        let block = key_block384(key);
        Keyed384 {
            inner: keyed(&block, INNER_PAD),
            outer: keyed(&block, OUTER_PAD),
        }
    }

    /// Adds these bytes to the text.
    pub fn update(&mut self, text: &[u8])
        ensures { (key before : List ℕ) → IsKeyed384 self.old key before
            → IsKeyed384 self.new key (before ++ text.now) }
    {
        self.inner.update(text);
    }

    /// The HMAC of the text, 48 bytes.
    #[tactic(auto, unfolding(crate::specs::Hmac::hmac))]
    pub fn finish(self) -> [u8; 48]
        ensures { (key text : List ℕ) → IsKeyed384 self key text → result ≡ hmac sha384 key text }
    {
        let Keyed384 { inner, mut outer } = self;
        outer.update(inner.finalize().as_slice());
        outer.finalize()
    }
}
