//! GHASH, block after block, by the table of the hash key.

ghost use Rattle.std.specs.Prelude.{◌≡◌, ◌+◌, ◌*◌, ◌%◌, ◌^◌, ◌<◌, ◌≤◌, ℕ, List, [], ◌∷◌, ◌++◌, length};
ghost use Rattle.dbe_gcm.specs.Hash.{block_at, blocks_of, filled, ghash, lengths_block};
ghost use Rattle.dbe_gcm.specs.Tables.{IsTable};
ghost use Rattle.dbe_gcm.specs.Gcm.{hash_of};

use crate::table::{fill_table, times};

// The block of the 16 bytes from `at` on.
#[inline(always)]
fn block_at(bytes: &[u8], at: usize) -> u128
    requires { at + 16 ≤ length bytes.now }
    ensures { result ≡ block_at bytes.now at }
{
    u128::from_be_bytes([
        bytes[at],
        bytes[at + 1],
        bytes[at + 2],
        bytes[at + 3],
        bytes[at + 4],
        bytes[at + 5],
        bytes[at + 6],
        bytes[at + 7],
        bytes[at + 8],
        bytes[at + 9],
        bytes[at + 10],
        bytes[at + 11],
        bytes[at + 12],
        bytes[at + 13],
        bytes[at + 14],
        bytes[at + 15],
    ])
}

// The block of the bytes from `at` on, filled with zeros.
fn last_block(bytes: &[u8], at: usize) -> u128
    requires within { at < length bytes.now }
    requires short { length bytes.now < at + 16 }
    requires whole { at % 16 ≡ 0 }
    ensures { result ≡ block_at (filled bytes.now) at }
{
    let mut last = [0u8; 16];
    for i in 0..bytes.len() - at {
        last[i] = bytes[at + i];
    }
    u128::from_be_bytes(last)
}

// One block more.
#[inline(always)]
fn absorb_block(table: &[u128; 512], sum: u128, block: u128) -> u128
    ensures { (h : ℕ) (xs : List ℕ) → IsTable h table.now → sum ≡ ghash h xs → result ≡ ghash h (xs ++ block ∷ []) }
{
    times(table, sum ^ block)
}

// The blocks of some bytes more, filled with zeros to whole blocks.
fn absorb(table: &[u128; 512], sum: u128, bytes: &[u8]) -> u128
    ensures { (h : ℕ) (xs : List ℕ) → IsTable h table.now → sum ≡ ghash h xs → result ≡ ghash h (xs ++ blocks_of bytes.now) }
{
    let blocks = bytes.len() / 16;
    let mut sum = sum;
    for j in 0..blocks {
        sum = absorb_block(table, sum, block_at(bytes, 16 * j));
    }
    if bytes.len() % 16 == 0 {
        sum
    } else {
        absorb_block(table, sum, last_block(bytes, 16 * blocks))
    }
}

// The two lengths in bits, modulo 2^64.
fn lengths_block(aad: &[u8], text: &[u8]) -> u128
    ensures { result ≡ lengths_block aad.now text.now }
{
    let high = aad.len().wrapping_mul(8) as u128;
    let low = text.len().wrapping_mul(8) as u128;
    (high << 64) | low
}

/// The hash of associated data and a ciphertext, under the hash key `h`.
pub fn hash(h: u128, aad: &[u8], text: &[u8]) -> u128
    ensures { result ≡ hash_of h aad.now text.now }
{
    let mut table = [0u128; 512];
    fill_table(&mut table, h);
    let sum = absorb(&table, absorb(&table, 0, aad), text);
    absorb_block(&table, sum, lengths_block(aad, text))
}
