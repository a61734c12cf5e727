//! A key, ready for use.

ghost use Rattle.std.specs.Prelude.{◌≡◌, ℕ, ◌+◌, ◌*◌, ◌%◌, ◌<◌, ◌≤◌, List, [], ◌∷◌, length, slice_index, bit_xor};
ghost use Rattle.dbe_aes.specs.Words.{key_schedule};
ghost use Rattle.dbe_aes.specs.Cipher.{cipher};
ghost use Rattle.dbe_aes.specs.Columns.{columns};
ghost use Rattle.dbe_aes.specs.Counters.{gctr};

use crate::schedule::key_schedule;
use crate::tables::{cipher_columns, columns_of};
use std::marker::Model;

/// A key of 32 bytes with its key schedule. Contracts see the key's bytes.
#[derive(Drop)]
pub struct Key256 {
    key: [u8; 32],
    words: [u32; 60],
}

impl Model for Key256 {
    ghost Value = { List ℕ };

    ghost view = { λ k. k.key };

    ghost invariant = { λ k. k.words ≡ key_schedule k.key };
}

impl Key256 {
    /// The key of these bytes, with its key expansion (FIPS 197, 5.2).
    pub fn new(key: &[u8; 32]) -> Key256
        ensures { result ≡ key.now }
    {
        Key256 {
            key: *key,
            words: key_schedule(key),
        }
    }

    /// The block, enciphered (FIPS 197, 5.1).
    pub fn block(&self, input: &[u8; 16]) -> [u8; 16]
        ensures { result ≡ cipher self.now input.now }
    {
        let [a, b, c, d] = columns_of(input);
        self.enciphered(a, b, c, d)
    }

    // The block of four columns, enciphered.
    #[inline(always)]
    fn enciphered(&self, a: u32, b: u32, c: u32, d: u32) -> [u8; 16]
        ensures { result ≡ cipher self.now (columns (a ∷ b ∷ c ∷ d ∷ [])) }
    {
        cipher_columns(&self.words, a, b, c, d)
    }

    /// Adds to the bytes the enciphered counter blocks, beginning with `first` itself. In each next
    /// one the last 4 bytes are greater by one, modulo 2^32 (SP 800-38D, 6.5). To do it again gives
    /// the bytes back. The slice may have any length.
    pub fn ctr(&self, first: &[u8; 16], bytes: &mut [u8])
        ensures { bytes.new ≡ gctr self.now first.now bytes.old }
    {
        let blocks = bytes.len() / 16;
        let [a, b, c, start] = columns_of(first);
        let mut count = start;
        for j in 0..blocks {
            add_block(bytes, 16 * j, &self.enciphered(a, b, c, count));
            count = count.wrapping_add(1);
        }
        if bytes.len() % 16 != 0 {
            add_rest(bytes, 16 * blocks, &self.enciphered(a, b, c, count));
        }
    }
}

// Adds a block to the 16 bytes from `at` on.
fn add_block(bytes: &mut [u8], at: usize, block: &[u8; 16])
    requires { at + 16 ≤ length bytes.old }
    ensures before { (k : ℕ) → k < at → slice_index bytes.new k ≡ slice_index bytes.old k }
    ensures added { (i : ℕ) → i < 16
        → slice_index bytes.new (at + i) ≡ bit_xor (slice_index bytes.old (at + i)) (slice_index block.now i) }
    ensures after { (k : ℕ) → at + 16 ≤ k → slice_index bytes.new k ≡ slice_index bytes.old k }
{
    for i in 0..16 {
        bytes[at + i] ^= block[i];
    }
}

// Adds the first bytes of a block to those from `at` on.
fn add_rest(bytes: &mut [u8], at: usize, block: &[u8; 16])
    requires within { at ≤ length bytes.old }
    requires short { length bytes.old ≤ at + 16 }
    ensures before { (k : ℕ) → k < at → slice_index bytes.new k ≡ slice_index bytes.old k }
    ensures added { (i : ℕ) → at + i < length bytes.old
        → slice_index bytes.new (at + i) ≡ bit_xor (slice_index bytes.old (at + i)) (slice_index block.now i) }
{
    for i in 0..bytes.len() - at {
        bytes[at + i] ^= block[i];
    }
}
