// The first block of each of the two messages that an HMAC hashes.

ghost use Rattle.std.specs.Prelude.{◌≡◌, ◌≤◌, length};
ghost use Rattle.sha2.specs.Sha512.{sha384, sha512};
ghost use Rattle.dbe_kdf.specs.Hmac.{key_block, xor_pad, zero_padded};

use sha2::{Digest, Sha384, Sha512};

pub(crate) const BLOCK: usize = 128;

// The bytes of ipad and opad.
pub(crate) const INNER_PAD: u8 = 0x36;

pub(crate) const OUTER_PAD: u8 = 0x5c;

// The key as a block under SHA-384.
pub(crate) fn key_block384(key: &[u8]) -> [u8; BLOCK]
    ensures { result ≡ key_block sha384 key.now }
{
    if key.len() > BLOCK {
        zero_padded(Sha384::digest(key).as_slice())
    } else {
        zero_padded(key)
    }
}

// The key as a block under SHA-512.
pub(crate) fn key_block512(key: &[u8]) -> [u8; BLOCK]
    ensures { result ≡ key_block sha512 key.now }
{
    if key.len() > BLOCK {
        zero_padded(Sha512::digest(key).as_slice())
    } else {
        zero_padded(key)
    }
}

// The key with zeros up to a block.
fn zero_padded(key: &[u8]) -> [u8; BLOCK]
    requires { length key.now ≤ 128 }
    ensures { result ≡ zero_padded key.now }
{
    let mut block = [0u8; BLOCK];
    let (front, _) = block.split_at_mut(key.len());
    front.copy_from_slice(key);
    block
}

// A hasher that has taken in the block with each byte xored with the pad.
pub(crate) fn keyed<D: Digest>(block: &[u8; BLOCK], pad: u8) -> D
    ensures { D.holds result (xor_pad pad block.now) }
{
    let mut block = *block;
    xor_all(&mut block, pad);
    D::new_with_prefix(block.as_slice())
}

fn xor_all(bytes: &mut [u8], pad: u8)
    ensures { bytes.new ≡ xor_pad pad bytes.old }
{
    for byte in bytes.iter_mut() {
        *byte ^= pad;
    }
}
