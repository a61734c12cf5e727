// HMAC (RFC 2104).

ghost use Rattle.std.specs.Prelude.{◌≡◌};
ghost use Rattle.sha2.specs.Sha512.{sha384, sha512};
ghost use Rattle.dbe_kdf.specs.Hmac.{hmac};

use crate::block::{INNER_PAD, OUTER_PAD, key_block512, keyed};
use crate::keyed384::Keyed384;
use sha2::{Digest, Sha512};

/// HMAC-SHA-384 of `text` under `key` (RFC 2104). Both may have any length; a key of more than 128 bytes counts by its SHA-384.
pub fn hmac384(key: &[u8], text: &[u8]) -> [u8; 48]
    ensures { result ≡ hmac sha384 key.now text.now }
{
    let mut hashers = Keyed384::new(key);
    hashers.update(text);
    hashers.finish()
}

/// HMAC-SHA-512 of `text` under `key` (RFC 2104). Both may have any length; a key of more than 128 bytes counts by its SHA-512.
#[tactic(auto, unfolding(crate::specs::Hmac::hmac))]
pub fn hmac512(key: &[u8], text: &[u8]) -> [u8; 64]
    ensures { result ≡ hmac sha512 key.now text.now }
{
    let block = key_block512(key);
    let mut inner: Sha512 = keyed(&block, INNER_PAD);
    inner.update(text);
    let mut outer: Sha512 = keyed(&block, OUTER_PAD);
    outer.update(inner.finalize().as_slice());
    outer.finalize()
}
