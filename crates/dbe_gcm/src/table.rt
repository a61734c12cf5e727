//! Products with one block by a table of them.

ghost use Rattle.std.specs.Prelude.{◌≡◌, ◌+◌, ◌*◌, ◌<◌, ◌≤◌, ℕ, map, bit_xor};
ghost use Rattle.std.specs.List.{range_with_len};
ghost use Rattle.dbe_gcm.specs.Blocks.{product, product_of_bits, raised};
ghost use Rattle.dbe_gcm.specs.Tables.{IsTable};

use crate::product::times_x;

// The products of four bits with a block.
#[inline(always)]
fn row(v: u128) -> [u128; 16]
    ensures { result ≡ map (λ n. product_of_bits 4 n v) (range_with_len 0 16) }
{
    let w4 = times_x(v);
    let w2 = times_x(w4);
    let w1 = times_x(w2);
    let w3 = w2 ^ w1;
    let w5 = w4 ^ w1;
    let w6 = w4 ^ w2;
    let w7 = w4 ^ w3;
    [
        0,
        w1,
        w2,
        w3,
        w4,
        w5,
        w6,
        w7,
        v,
        v ^ w1,
        v ^ w2,
        v ^ w3,
        v ^ w4,
        v ^ w5,
        v ^ w6,
        v ^ w7,
    ]
}

// The block times x to the power 4.
#[inline(always)]
fn next_row(v: u128) -> u128
    ensures { result ≡ raised 4 v }
{
    times_x(times_x(times_x(times_x(v))))
}

/// Writes the table of the block `h`: 32 rows of 16 products, the row of the first four bits first.
pub fn fill_table(table: &mut [u128; 512], h: u128)
    ensures { IsTable h table.new }
{
    let mut power = h;
    for i in 0..32 {
        let row = row(power);
        for n in 0..16 {
            table[16 * i + n] = row[n];
        }
        power = next_row(power);
    }
}

// The sum with the products of 64 bits, whose first four have row `first`.
#[inline(always)]
fn add_half(table: &[u128; 512], first: usize, bits: u64, sum: u128) -> u128
    requires { first ≤ 16 }
    ensures { (h : ℕ) → IsTable h table.now → result ≡ bit_xor sum (product_of_bits 64 bits (raised (4 * first) h)) }
{
    let mut sum = sum;
    for i in 0..16 {
        sum ^= table[16 * (first + i) + ((bits >> (60 - 4 * i)) & 15) as usize];
    }
    sum
}

/// The product with the block whose table it is.
#[inline(always)]
pub fn times(table: &[u128; 512], y: u128) -> u128
    ensures { (h : ℕ) → IsTable h table.now → result ≡ product y h }
{
    let sum = add_half(table, 0, (y >> 64) as u64, 0);
    add_half(table, 16, (y & 0xffff_ffff_ffff_ffff) as u64, sum)
}
