//! The product of two blocks, bit by bit.

ghost use Rattle.std.specs.Prelude.{◌≡◌, ◌<◌, ◌==◌, bit_xor, if◌then◌else◌};
ghost use Rattle.std.specs.Int.{bit_at};
ghost use Rattle.dbe_gcm.specs.Blocks.{product, times_x};

// What stands for x^128: the bits 11100001 and 120 zeros.
const REDUCTION: u128 = 0xe1 << 120;

/// The block times x.
pub fn times_x(v: u128) -> u128
    ensures { result ≡ times_x v }
{
    if v & 1 == 1 {
        (v >> 1) ^ REDUCTION
    } else {
        v >> 1
    }
}

// The sum with `v`, where bit n of `y` is set.
fn added(sum: u128, y: u128, n: u32, v: u128) -> u128
    requires { n < 128 }
    ensures { result ≡ bit_xor sum (if bit_at y n == 1 then v else 0) }
{
    if (y >> n) & 1 == 1 { sum ^ v } else { sum }
}

/// The product of two blocks (SP 800-38D, 6.3).
pub fn product(y: u128, v: u128) -> u128
    ensures { result ≡ product y v }
{
    let mut sum = 0u128;
    let mut power = v;
    for i in 0..128u32 {
        sum = added(sum, y, 127 - i, power);
        power = times_x(power);
    }
    sum
}
