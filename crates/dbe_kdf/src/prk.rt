ghost use Rattle.std.specs.Prelude.{◌≡◌, ◌≤◌, length};
ghost use Rattle.dbe_kdf.specs.Hkdf.{hkdf_expand, hkdf_extract};

use crate::hmac::hmac512;
use crate::keyed512::{DIGEST, Keyed512};
use std::marker::Model;

/// A pseudorandom key (PRK, RFC 5869, section 2.2), 64 bytes, ready for use: the blocks of its HMAC were hashed once.
/// Contracts see the key's bytes.
#[derive(Drop)]
pub struct Prk {
    key: [u8; DIGEST],
    hashers: Keyed512,
}

impl Model for Prk {
    ghost use Rattle.std.specs.Prelude.{List, ℕ};
    ghost use Rattle.dbe_kdf.specs.Keyed.{IsKeyed512};

    ghost Value = { List ℕ };

    ghost view = { λ p. p.key };

    ghost invariant = { λ p. IsKeyed512 p.hashers p.key };
}

impl Prk {
    // An empty salt and the 64 zero bytes that it stands for have one key block.
    pub(crate) fn extract(salt: &[u8], ikm: &[u8]) -> Prk
        ensures { result ≡ hkdf_extract salt.now ikm.now }
    {
        Prk::of(hmac512(salt, ikm))
    }

    pub(crate) fn of(key: [u8; DIGEST]) -> Prk
        ensures { result ≡ key }
    {
        Prk {
            key,
            hashers: Keyed512::new(&key),
        }
    }

    /// Fills `out` with the keying material that this key and the `info` expand to (HKDF-Expand with SHA-512, RFC 5869,
    /// section 2.3). The info may have any length, and `out` from 0 to 16,320 bytes (255 digests).
    pub fn expand(&self, info: &[u8], out: &mut [u8])
        requires { length out.old ≤ 16320 }
        ensures { out.new ≡ hkdf_expand self.now info.now (length out.old) }
    {
        let mut last = [0u8; DIGEST];
        let mut last_len = 0;
        for i in 0..(out.len() + 63) / DIGEST {
            last = self.hashers.block(&last[..last_len], info, (i + 1) as u8);
            last_len = DIGEST;
            let at = DIGEST * i;
            let end = out.len().min(at + DIGEST);
            out[at..end].copy_from_slice(&last[..end - at]);
        }
    }
}
