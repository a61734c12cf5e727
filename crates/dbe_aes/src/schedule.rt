//! The key expansion.

ghost use Rattle.std.specs.Prelude.{◌≡◌, ◌+◌, ◌-◌, ◌*◌, ◌<◌, ◌≤◌, length};
ghost use Rattle.dbe_aes.specs.Words.{addend, key_schedule, rot_word, sub_word, word_at, words_of};

use crate::substitution::sbox;

// The bytes of a key that are its word i.
fn key_word(key: &[u8; 32], i: usize) -> u32
    requires { i < 8 }
    ensures { result ≡ word_at key.now (4 * i) }
{
    u32::from_be_bytes([key[4 * i], key[4 * i + 1], key[4 * i + 2], key[4 * i + 3]])
}

fn rot_word(word: u32) -> u32
    ensures { result ≡ rot_word word }
{
    let [a, b, c, d] = word.to_be_bytes();
    u32::from_be_bytes([b, c, d, a])
}

fn sub_word(word: u32) -> u32
    ensures { result ≡ sub_word word }
{
    let [a, b, c, d] = word.to_be_bytes();
    u32::from_be_bytes([sbox(a), sbox(b), sbox(c), sbox(d)])
}

// The round constants, Rcon[1] to Rcon[7].
const ROUND_CONSTANTS: [u32; 7] = [
    0x01000000, 0x02000000, 0x04000000, 0x08000000, 0x10000000, 0x20000000, 0x40000000,
];

// What is added to word `i - 8` to make word `i`.
fn addend(words: &[u32; 60], i: usize) -> u32
    requires low { 8 ≤ i }
    requires high { i < 60 }
    ensures { result ≡ addend words.now i }
{
    let last = words[i - 1];
    if i % 8 == 0 {
        sub_word(rot_word(last)) ^ ROUND_CONSTANTS[i / 8 - 1]
    } else if i % 8 == 4 {
        sub_word(last)
    } else {
        last
    }
}

/// The key schedule of a key (FIPS 197, 5.2).
pub fn key_schedule(key: &[u8; 32]) -> [u32; 60]
    ensures { result ≡ key_schedule key.now }
{
    let mut words = [0u32; 60];
    for i in 0..8 {
        words[i] = key_word(key, i);
    }
    for next in 8..60 {
        words[next] = words[next - 8] ^ addend(&words, next);
    }
    words
}
