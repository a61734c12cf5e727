// HKDF (RFC 5869) with SHA-512.

ghost use Rattle.std.specs.Prelude.{◌≡◌, ◌≤◌, length};
ghost use Rattle.dbe_kdf.specs.Hkdf.{hkdf};

use crate::prk::Prk;

/// Fills `out` with the keying material that HKDF-SHA-512 (RFC 5869) derives from the key `ikm`, the `salt` and the `info`.
/// An empty salt stands for 64 zero bytes. The inputs may have any length, and `out` from 0 to 16,320 bytes (255 digests).
#[tactic(auto, unfolding(crate::specs::Hkdf::hkdf))]
pub fn hkdf512(ikm: &[u8], salt: &[u8], info: &[u8], out: &mut [u8])
    requires { length out.old ≤ 16320 }
    ensures { out.new ≡ hkdf ikm.now salt.now info.now (length out.old) }
{
    Prk::extract(salt, ikm).expand(info, out);
}
