//! The rounds, step by step as FIPS 197 writes them.

ghost use Rattle.std.specs.Prelude.{◌≡◌, ◌<◌};
ghost use Rattle.dbe_aes.specs.Bytes.{product, times_x};
ghost use Rattle.dbe_aes.specs.States.{add_round_key, mix_columns, mixed, shift_rows, sub_bytes};
ghost use Rattle.dbe_aes.specs.Cipher.{cipher_by_words};

use crate::substitution::sbox;

// The byte times x.
fn times_x(a: u8) -> u8
    ensures { result ≡ times_x a }
{
    let moved = (a & 0x7f) << 1;
    if a & 0x80 != 0 { moved ^ 0x1b } else { moved }
}

fn doubled(a: u8) -> u8
    ensures { result ≡ product 2 a }
{
    times_x(a)
}

// The byte times x + 1.
fn tripled(a: u8) -> u8
    ensures { result ≡ product 3 a }
{
    doubled(a) ^ a
}

fn sub_bytes(s: &[u8; 16]) -> [u8; 16]
    ensures { result ≡ sub_bytes s.now }
{
    let mut new = [0; 16];
    for i in 0..16 {
        new[i] = sbox(s[i]);
    }
    new
}

fn shift_rows(s: &[u8; 16]) -> [u8; 16]
    ensures { result ≡ shift_rows s.now }
{
    [
        s[0], s[5], s[10], s[15], s[4], s[9], s[14], s[3], s[8], s[13], s[2], s[7], s[12], s[1],
        s[6], s[11],
    ]
}

fn mix_column(a: u8, b: u8, c: u8, d: u8) -> [u8; 4]
    ensures { result ≡ mixed a b c d }
{
    [
        doubled(a) ^ tripled(b) ^ c ^ d,
        a ^ doubled(b) ^ tripled(c) ^ d,
        a ^ b ^ doubled(c) ^ tripled(d),
        tripled(a) ^ b ^ c ^ doubled(d),
    ]
}

fn mix_columns(s: &[u8; 16]) -> [u8; 16]
    ensures { result ≡ mix_columns s.now }
{
    let p = mix_column(s[0], s[1], s[2], s[3]);
    let q = mix_column(s[4], s[5], s[6], s[7]);
    let t = mix_column(s[8], s[9], s[10], s[11]);
    let u = mix_column(s[12], s[13], s[14], s[15]);
    [
        p[0], p[1], p[2], p[3], q[0], q[1], q[2], q[3], t[0], t[1], t[2], t[3], u[0], u[1], u[2],
        u[3],
    ]
}

fn add_round_key(words: &[u32; 60], n: usize, s: &[u8; 16]) -> [u8; 16]
    requires { n < 15 }
    ensures { result ≡ add_round_key words.now n s.now }
{
    let p = words[4 * n].to_be_bytes();
    let q = words[4 * n + 1].to_be_bytes();
    let t = words[4 * n + 2].to_be_bytes();
    let u = words[4 * n + 3].to_be_bytes();
    [
        s[0] ^ p[0],
        s[1] ^ p[1],
        s[2] ^ p[2],
        s[3] ^ p[3],
        s[4] ^ q[0],
        s[5] ^ q[1],
        s[6] ^ q[2],
        s[7] ^ q[3],
        s[8] ^ t[0],
        s[9] ^ t[1],
        s[10] ^ t[2],
        s[11] ^ t[3],
        s[12] ^ u[0],
        s[13] ^ u[1],
        s[14] ^ u[2],
        s[15] ^ u[3],
    ]
}

/// A block enciphered with the words of a key schedule.
pub fn cipher_by_words(words: &[u32; 60], block: &[u8; 16]) -> [u8; 16]
    ensures { result ≡ cipher_by_words words.now block.now }
{
    let mut s = add_round_key(words, 0, block);
    for n in 0..13 {
        s = add_round_key(words, n + 1, &mix_columns(&shift_rows(&sub_bytes(&s))));
    }
    add_round_key(words, 14, &shift_rows(&sub_bytes(&s)))
}
