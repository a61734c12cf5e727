ghost use Rattle.std.specs.Prelude.{◌≡◌, []};
ghost use Rattle.dbe_kdf.specs.Hkdf.{hkdf_extract};

use crate::keyed512::Keyed512;
use crate::prk::Prk;
use std::marker::Model;

/// The empty salt of HKDF-SHA-512, which stands for 64 zero bytes (RFC 5869, section 2.2), ready for use: the blocks of
/// its HMAC were hashed once. Each value is the same to contracts.
#[derive(Drop)]
pub struct EmptySalt {
    hashers: Keyed512,
}

impl Model for EmptySalt {
    ghost use Rattle.std.specs.Prelude.{[]};
    ghost use Rattle.dbe_kdf.specs.Keyed.{IsKeyed512};

    ghost Value = { Unit {0} };

    ghost view = { λ _. tt };

    ghost invariant = { λ s. IsKeyed512 s.hashers [] };
}

impl EmptySalt {
    pub fn new() -> EmptySalt {
        EmptySalt {
            hashers: Keyed512::new(&[]),
        }
    }

    /// The pseudorandom key of the input keying material `ikm`, which may have any length (HKDF-Extract with SHA-512,
    /// RFC 5869, section 2.2).
    pub fn extract(&self, ikm: &[u8]) -> Prk
        ensures { result ≡ hkdf_extract [] ikm.now }
    {
        Prk::of(self.hashers.hmac(ikm))
    }
}
