//! Sealing and opening.

ghost use Rattle.std.specs.Prelude.{◌≡◌, ◌<◌, ◌↔◌, IsTrue, Bool, false};
ghost use Rattle.dbe_aes.specs.Counters.{inc32};
ghost use Rattle.dbe_gcm.specs.Gcm.{Sealed, gcm, hash_key, j0, streamed, tag_of};

use crate::hash::hash;
use dbe_aes::Key256;

// The first counter block.
fn j0(iv: &[u8; 12]) -> [u8; 16]
    ensures { result ≡ j0 iv.now }
{
    [
        iv[0], iv[1], iv[2], iv[3], iv[4], iv[5], iv[6], iv[7], iv[8], iv[9], iv[10], iv[11], 0, 0,
        0, 1,
    ]
}

// The counter block after it.
fn after_j0(iv: &[u8; 12]) -> [u8; 16]
    ensures { result ≡ inc32 (j0 iv.now) }
{
    [
        iv[0], iv[1], iv[2], iv[3], iv[4], iv[5], iv[6], iv[7], iv[8], iv[9], iv[10], iv[11], 0, 0,
        0, 2,
    ]
}

// The hash key.
fn hash_key(key: &Key256) -> u128
    ensures { result ≡ hash_key key.now }
{
    u128::from_be_bytes(key.block(&[0; 16]))
}

// The tag of a ciphertext.
fn tag_of(key: &Key256, iv: &[u8; 12], aad: &[u8], text: &[u8]) -> [u8; 16]
    ensures { result ≡ tag_of key.now iv.now aad.now text.now }
{
    let sum = hash(hash_key(key), aad, text);
    (sum ^ u128::from_be_bytes(key.block(&j0(iv)))).to_be_bytes()
}

// Whether two tags are the same, all of their bytes looked at.
fn is_same(a: &[u8; 16], b: &[u8; 16]) -> bool
    ensures { IsTrue result ↔ (a.now ≡ b.now) }
{
    let mut difference = 0;
    for i in 0..16 {
        difference |= a[i] ^ b[i];
    }
    difference == 0
}

/// Enciphers the bytes in place and gives the tag (SP 800-38D, 7.1). An IV must serve for one message
/// under a key. Slices of every length are taken: past the standard's limits the counter goes on
/// modulo 2^32, and the two lengths in bits are taken modulo 2^64, which is this project's own.
pub fn seal_in_place(key: &Key256, iv: &[u8; 12], aad: &[u8], bytes: &mut [u8]) -> [u8; 16]
    ensures ciphertext { bytes.new ≡ (gcm key.now iv.now aad.now bytes.old).ciphertext }
    ensures tag { result ≡ (gcm key.now iv.now aad.now bytes.old).tag }
{
    key.ctr(&after_j0(iv), bytes);
    tag_of(key, iv, aad, bytes)
}

/// Deciphers the bytes in place where the tag is theirs, and else leaves them and gives false
/// (SP 800-38D, 7.2). What is said of lengths at `seal_in_place` holds here.
pub fn open_in_place(
    key: &Key256,
    iv: &[u8; 12],
    aad: &[u8],
    bytes: &mut [u8],
    tag: &[u8; 16],
) -> bool
    ensures authentic { IsTrue result ↔ (tag.now ≡ tag_of key.now iv.now aad.now bytes.old) }
    ensures deciphered { IsTrue result → bytes.new ≡ streamed key.now iv.now bytes.old }
    ensures sealed { IsTrue result → gcm key.now iv.now aad.now bytes.new ≡ record { ciphertext = bytes.old; tag = tag.now } }
    ensures kept { result ≡ false → bytes.new ≡ bytes.old }
{
    if is_same(&tag_of(key, iv, aad, bytes), tag) {
        key.ctr(&after_j0(iv), bytes);
        true
    } else {
        false
    }
}
