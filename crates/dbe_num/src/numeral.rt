//! The parts of a number's text.

ghost use Rattle.std.specs.Prelude.{◌≡◌, ◌+◌, ◌*◌, ◌^◌, ◌≤◌, ◌<◌, ◌++◌, length, min, true, option_map};
ghost use Rattle.std.specs.Str.{all_ascii_digits};
ghost use Rattle.dbe_num.specs.Numeral.{is_minus, fraction_digits, without_front_zeros, without_end_zeros, significant, whole_number, whole_number_after};
ghost use Rattle.dbe_num.specs.Reading.{sign_at, after_sign, digits_at, after_digits, fraction_at, after_fraction, power_of};
ghost use Rattle.dbe_num.specs.Shift.{shift_of};

/// An exponent counts up to here: it takes any number out of range, however long its text is.
const FAR: u128 = 1_180_591_620_717_411_303_424;

/// How far an exponent raises or lowers a number, up to `FAR`.
#[derive(Clone, Copy)]
pub struct Shift {
    pub raised: u128,
    pub lowered: u128,
}

/// Whether a text begins with `-`, and what follows its sign.
pub fn split_sign(text: &[u8]) -> (bool, &[u8])
    ensures sign { result.0 ≡ is_minus (sign_at text.now) }
    ensures rest { result.1.now ≡ after_sign text.now }
{
    match text.split_first() {
        Some((b'+', rest)) => (false, rest),
        Some((b'-', rest)) => (true, rest),
        _ => (false, text),
    }
}

/// The digits that a text begins with, and what follows them.
pub fn split_digits(text: &[u8]) -> (&[u8], &[u8])
    ensures digits { result.0.now ≡ digits_at text.now }
    ensures rest { result.1.now ≡ after_digits text.now }
{
    for (i, byte) in text.iter().enumerate() {
        if !byte.is_ascii_digit() {
            return text.split_at(i);
        }
    }
    text.split_at(text.len())
}

/// The digits after a point that a text begins with, and what follows them.
pub fn split_fraction(text: &[u8]) -> (&[u8], &[u8])
    ensures digits { result.0.now ≡ fraction_digits (fraction_at text.now) }
    ensures rest { result.1.now ≡ after_fraction text.now }
{
    match text.split_first() {
        Some((b'.', rest)) => split_digits(rest),
        _ => text.split_at(0),
    }
}

/// What an exponent does to a number. None where the text is neither empty nor an exponent.
pub fn read_shift(text: &[u8]) -> Option<Shift>
    ensures { result ≡ option_map shift_of (power_of text.now) }
{
    let Some((letter, rest)) = text.split_first() else {
        return Some(Shift {
            raised: 0,
            lowered: 0,
        });
    };
    if *letter != b'e' && *letter != b'E' {
        return None;
    }
    let (negative, rest) = split_sign(rest);
    let (digits, rest) = split_digits(rest);
    if digits.is_empty() || !rest.is_empty() {
        return None;
    }
    let by = number_up_to_far(digits);
    Some(if negative {
        Shift {
            raised: 0,
            lowered: by,
        }
    } else {
        Shift {
            raised: by,
            lowered: 0,
        }
    })
}

fn number_up_to_far(digits: &[u8]) -> u128
    ensures { result ≡ min (whole_number digits.now) FAR }
{
    let mut number: u128 = 0;
    for byte in digits {
        number = (number * 10 + u128::from(byte.saturating_sub(b'0'))).min(FAR);
    }
    number
}

/// The digits from the first that is not 0.
fn skip_zeros(digits: &[u8]) -> &[u8]
    ensures { result.now ≡ without_front_zeros digits.now }
{
    let mut rest = digits;
    while let Some((b'0', others)) = rest.split_first() {
        rest = others;
    }
    rest
}

/// The digits up to the last that is not 0.
fn drop_zeros(digits: &[u8]) -> &[u8]
    ensures { result.now ≡ without_end_zeros digits.now }
{
    let mut rest = digits;
    while let Some((b'0', others)) = rest.split_last() {
        rest = others;
    }
    rest
}

/// The digits before and after the point, from the first that is not 0.
pub fn without_leading<'a>(whole: &'a [u8], fraction: &'a [u8]) -> (&'a [u8], &'a [u8])
    ensures { result.0.now ++ result.1.now ≡ without_front_zeros (whole.now ++ fraction.now) }
{
    let whole = skip_zeros(whole);
    if whole.is_empty() {
        (whole, skip_zeros(fraction))
    } else {
        (whole, fraction)
    }
}

/// The digits before and after the point, up to the last that is not 0.
pub fn without_trailing<'a>(whole: &'a [u8], fraction: &'a [u8]) -> (&'a [u8], &'a [u8])
    ensures { result.0.now ++ result.1.now ≡ without_end_zeros (whole.now ++ fraction.now) }
{
    let fraction = drop_zeros(fraction);
    if fraction.is_empty() {
        (drop_zeros(whole), fraction)
    } else {
        (whole, fraction)
    }
}

/// The whole number that at most 38 digits are.
pub fn number_in(whole: &[u8], fraction: &[u8]) -> u128
    requires digits { all_ascii_digits (whole.now ++ fraction.now) ≡ true }
    requires few { length (whole.now ++ fraction.now) ≤ 38 }
    ensures { result ≡ whole_number (whole.now ++ fraction.now) }
{
    read_on(read_on(0, whole), fraction)
}

fn read_on(start: u128, digits: &[u8]) -> u128
    requires digits { all_ascii_digits digits.now ≡ true }
    requires fits { (start + 1) * 10 ^ length digits.now ≤ 10 ^ 38 }
    ensures { result ≡ whole_number_after start digits.now }
{
    let mut number = start;
    for byte in digits {
        number = number * 10 + u128::from(byte.saturating_sub(b'0'));
    }
    number
}
