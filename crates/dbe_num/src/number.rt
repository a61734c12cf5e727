ghost use Rattle.std.specs.Prelude.{◌≡◌, IsAscii, [], ◌∷◌, if◌then◌else◌, IfOk, OnOk, string_bytes, replicate, ◌+◌, ◌*◌, ◌≤◌, ◌<◌, ◌^◌, ◌++◌, length, true};
ghost use Rattle.std.specs.Str.{all_ascii_digits};
ghost use Rattle.dbe_num.specs.Decimal.{IsNormal, zero_number, number_order, digit_count};
ghost use Rattle.std.specs.Ordering.{nat_cmp};
ghost use Rattle.dbe_num.specs.NormalText.{normal_text, all_digits, fraction_length, fraction_with};
ghost use Rattle.dbe_num.specs.Reading.{number_of};
ghost use Rattle.dbe_num.specs.Numeral.{fraction_text, without_front_zeros, without_end_zeros, number_of_significant, number_of_digits};

use crate::numeral::{
    Shift, number_in, read_shift, split_digits, split_fraction, split_sign, without_leading,
    without_trailing,
};
use crate::{Memory, NumberFault, Text};
use std::alloc::Global;
use std::cmp::Ordering;
use std::marker::Model;

/// The place of the ones.
const ONES_PLACE: u16 = 167;

/// A decimal number of at most 38 digits, zero or from 10^-130 to below 10^126 in size.
///
/// It is kept as digits * 10^exponent with its sign: the digits are no multiple of 10, or the number is zero
/// in its one form. So numbers of one value are equal.
#[derive(Clone, Copy, Debug, PartialEq, Eq)]
pub struct Number {
    negative: bool,
    digits: u128,
    exponent: i16,
}

impl Model for Number {
    ghost use Rattle.std.specs.Prelude.{pos, negsuc, ◌-ℤ◌, ◌≤ℤ◌};
    ghost use Rattle.std.proofs.Common.{ap};
    ghost use Rattle.dbe_num.specs.Decimal.{Decimal, IsNormal, place_of};
    ghost use Rattle.dbe_num.specs.Places.{place_of_restored};

    ghost Value = { Decimal };

    ghost view = { λ n. record { negative = n.negative; digits = n.digits; place = place_of n.exponent } };

    ghost invariant = { λ n. (negsuc 166 ≤ℤ n.exponent) × IsNormal (record { negative = n.negative; digits = n.digits; place = place_of n.exponent }) };

    ghost inverse = { λ d. record { negative = d.negative; digits = d.digits; exponent = pos d.place -ℤ pos 167 } };

    ghost inverse_ok = { λ n h. ap (λ e. record { negative = n.negative; digits = n.digits; exponent = e }) (place_of_restored n.exponent h.0) };
}

impl Number {
    /// The number that a text is: an optional sign, digits with at most one point before, among or after them,
    /// and an optional `e` or `E` with an optional sign and digits.
    ///
    /// `NotNumber` for any other text, then `TooManyDigits` and `OutOfRange`. Takes no memory.
    pub fn parse(text: &str) -> Result<Number, NumberFault>
        ensures { result ≡ number_of text.now }
    {
        let (negative, rest) = split_sign(text.as_bytes());
        let (whole, rest) = split_digits(rest);
        let (fraction, rest) = split_fraction(rest);
        let Some(shift) = read_shift(rest) else {
            return Err(NumberFault::NotNumber);
        };
        if whole.len() + fraction.len() == 0 {
            return Err(NumberFault::NotNumber);
        }
        of_digits(negative, whole, fraction, shift)
    }

    /// The order of the two values. Takes no memory.
    pub fn compare(&self, other: &Number) -> Ordering
        ensures { result ≡ number_order self.now other.now }
    {
        match (self.negative, other.negative) {
            (false, false) => self.compare_sizes(other),
            (true, true) => other.compare_sizes(self),
            (true, false) => Ordering::Less,
            (false, true) => Ordering::Greater,
        }
    }

    fn compare_sizes(&self, other: &Number) -> Ordering
        ensures { result ≡ nat_cmp (self.now.digits * 10 ^ self.now.place) (other.now.digits * 10 ^ other.now.place) }
    {
        let place = self.place();
        let other_place = other.place();
        if place >= other_place {
            compare_raised(self.digits, place - other_place, other.digits)
        } else {
            compare_raised(other.digits, other_place - place, self.digits).reverse()
        }
    }

    /// The number as plain decimals: an optional `-`, the whole part without idle zeros, and where there is a
    /// fraction a point and its digits without zeros at their end.
    pub fn text(&self, alloc: Global) -> Result<Text, Memory>
        ensures { IfOk result (λ text. text ≡ normal_text self.now) }
    {
        let behind = usize::from(ONES_PLACE.saturating_sub(self.place()));
        let written = self.written(alloc, behind)?;
        let digits = written.as_str();
        let (whole, fraction) = digits.split_at(digits.len() - behind);
        let mut text = self.sign_text(alloc)?;
        text.push_str(whole)?;
        push_fraction(&mut text, fraction)?;
        Ok(Text::from_string(text))
    }

    /// How many bytes the text has. Takes no memory.
    pub fn text_len(&self) -> usize
        ensures { result ≡ length (normal_text self.now) }
    {
        let behind = usize::from(ONES_PLACE.saturating_sub(self.place()));
        let trailing = usize::from(self.place().saturating_sub(ONES_PLACE));
        let digits = (behind + 1).max(digit_count(self.digits) + trailing);
        usize::from(self.negative) + digits + usize::from(behind > 0)
    }

    /// That the number is in its normal form, which callers may rely on. Does nothing.
    pub fn is_normal(&self)
        ensures { IsNormal self.now }
    {
        let _ = &self.digits;
    }

    fn sign_text(&self, alloc: Global) -> Result<String, Memory>
        ensures { IfOk result (λ text. string_bytes text ≡ (if self.now.negative then 45 ∷ [] else [])) }
    {
        let mut text = String::new(alloc);
        if self.negative {
            text.push('-')?;
        }
        Ok(text)
    }

    /// The digits down to the last, with zeros in front so that one at least stands before the point.
    fn written(&self, alloc: Global, behind: usize) -> Result<String, Memory>
        requires { behind ≡ fraction_length self.now }
        ensures digits { IfOk result (λ text. string_bytes text ≡ all_digits self.now) }
        ensures ascii { IfOk result (λ text. IsAscii (string_bytes text)) }
    {
        let digits = self.digits.to_string(alloc)?;
        let trailing = usize::from(self.place().saturating_sub(ONES_PLACE));
        let leading = (behind + 1).saturating_sub(digits.len() + trailing);
        let mut text = String::new(alloc);
        push_zeros(&mut text, leading)?;
        text.push_str(&digits)?;
        push_zeros(&mut text, trailing)?;
        Ok(text)
    }

    fn at_place(negative: bool, digits: u128, place: u16) -> Number
        requires normal { IsNormal (record { negative = negative; digits = digits; place = place }) }
        requires near { place ≤ 293 }
        ensures { result ≡ record { negative = negative; digits = digits; place = place } }
    {
        Number {
            negative,
            digits,
            exponent: place as i16 - 167,
        }
    }

    fn place(&self) -> u16
        ensures { result ≡ self.now.place }
    {
        (self.exponent + 167) as u16
    }

    /// Zero.
    pub fn zero() -> Number
        ensures { result ≡ zero_number }
    {
        Number::at_place(false, 0, 167)
    }
}

/// The number with these digits, of which the last stands at the power `raised` - `lowered` of ten.
fn of_digits(
    negative: bool,
    whole: &[u8],
    fraction: &[u8],
    shift: Shift,
) -> Result<Number, NumberFault>
    requires digits { all_ascii_digits (whole.now ++ fraction.now) ≡ true }
    requires short { length (whole.now ++ fraction.now) < 2 ^ 64 }
    requires raised { shift.raised ≤ 2 ^ 70 }
    requires lowered { shift.lowered ≤ 2 ^ 70 }
    ensures { result ≡ number_of_digits negative (whole.now ++ fraction.now) shift.raised (shift.lowered + length fraction.now) }
{
    let lowered = shift.lowered + fraction.len() as u128;
    let (whole, fraction) = without_leading(whole, fraction);
    let length = whole.len() + fraction.len();
    let (whole, fraction) = without_trailing(whole, fraction);
    let idle = length - (whole.len() + fraction.len());
    of_significant(
        negative,
        whole,
        fraction,
        shift.raised + idle as u128,
        lowered,
    )
}

/// The same of digits without zeros at either end.
fn of_significant(
    negative: bool,
    whole: &[u8],
    fraction: &[u8],
    raised: u128,
    lowered: u128,
) -> Result<Number, NumberFault>
    requires digits { all_ascii_digits (whole.now ++ fraction.now) ≡ true }
    requires short { length (whole.now ++ fraction.now) < 2 ^ 64 }
    requires front { without_front_zeros (whole.now ++ fraction.now) ≡ whole.now ++ fraction.now }
    requires end { without_end_zeros (whole.now ++ fraction.now) ≡ whole.now ++ fraction.now }
    requires raised_fits { raised ≤ 2 ^ 71 }
    requires lowered_fits { lowered ≤ 2 ^ 71 }
    ensures { result ≡ number_of_significant negative (whole.now ++ fraction.now) raised lowered }
{
    let count = whole.len() + fraction.len();
    if count == 0 {
        return Ok(Number::zero());
    }
    if count > 38 {
        return Err(NumberFault::TooManyDigits);
    }
    let count = count as u128;
    if lowered > raised + count + 129 || raised + count > lowered + 126 {
        return Err(NumberFault::OutOfRange);
    }
    let place = raised + 167 - lowered;
    Ok(Number::at_place(negative, number_in(whole, fraction), place as u16))
}

/// Compares digits * 10^by with other digits.
fn compare_raised(digits: u128, by: u16, other: u128) -> Ordering
    requires { other < 10 ^ 38 }
    ensures { result ≡ nat_cmp (digits * 10 ^ by) other }
{
    if digits == 0 {
        return digits.cmp(&other);
    }
    if by >= 38 {
        return Ordering::Greater;
    }
    match digits.checked_mul(10u128.pow(u32::from(by))) {
        Some(raised) => raised.cmp(&other),
        None => Ordering::Greater,
    }
}

/// How many digits a number is written with.
fn digit_count(digits: u128) -> usize
    ensures count { result ≡ digit_count digits }
    ensures few { result ≤ 64 }
{
    let mut count = 1;
    let mut rest = digits;
    while rest >= 10 {
        rest /= 10;
        count += 1;
    }
    count
}

/// Writes this many zeros at the end of a text.
fn push_zeros(text: &mut String, count: usize) -> Result<(), Memory>
    ensures { OnOk result (string_bytes text.new ≡ string_bytes text.old ++ replicate count 48) }
{
    for _ in 0..count {
        text.push('0')?;
    }
    Ok(())
}

/// Writes a point and the digits after it, where there are any.
fn push_fraction(text: &mut String, digits: &str) -> Result<(), Memory>
    ensures { OnOk result (string_bytes text.new ≡ string_bytes text.old ++ fraction_text (fraction_with digits.now)) }
{
    if !digits.is_empty() {
        text.push('.')?;
        text.push_str(digits)?;
    }
    Ok(())
}

#[cfg(test)]
mod tests {
    use super::*;
    use std::test::Fail;

    /// Texts of numbers, and their normal texts as Python's `decimal` prints them.
    const TEXTS: [(&str, &str); 19] = [
        ("0", "0"),
        ("-0", "0"),
        ("+0.000", "0"),
        ("0E999", "0"),
        ("0E99999999999999999999", "0"),
        ("-0e-99999999999999999999", "0"),
        ("12e-1", "1.2"),
        ("1.0", "1"),
        ("1E0", "1"),
        (".5", "0.5"),
        ("5.", "5"),
        ("-00012.3400", "-12.34"),
        ("+7", "7"),
        ("1200e-4", "0.12"),
        ("-1.5E+3", "-1500"),
        ("000000000000000000000000000000000000000000001", "1"),
        ("1e0000000000000000000000000000000000000000002", "100"),
        ("0.00000012", "0.00000012"),
        (
            "12345678901234567890123456789012345678",
            "12345678901234567890123456789012345678",
        ),
    ];

    const FAULTS: [(&str, NumberFault); 22] = [
        ("", NumberFault::NotNumber),
        (".", NumberFault::NotNumber),
        ("+", NumberFault::NotNumber),
        ("-.", NumberFault::NotNumber),
        ("+-1", NumberFault::NotNumber),
        ("1E", NumberFault::NotNumber),
        ("1e+", NumberFault::NotNumber),
        ("e1", NumberFault::NotNumber),
        (".e1", NumberFault::NotNumber),
        ("1.2.3", NumberFault::NotNumber),
        ("1e2.0", NumberFault::NotNumber),
        (" 1", NumberFault::NotNumber),
        ("1 ", NumberFault::NotNumber),
        ("1_000", NumberFault::NotNumber),
        ("0x1", NumberFault::NotNumber),
        ("٣", NumberFault::NotNumber),
        (
            "999999999999999999999999999999999999999",
            NumberFault::TooManyDigits,
        ),
        (
            "1.00000000000000000000000000000000000001E999",
            NumberFault::TooManyDigits,
        ),
        ("1E126", NumberFault::OutOfRange),
        ("-1E-131", NumberFault::OutOfRange),
        ("1E99999999999999999999", NumberFault::OutOfRange),
        (
            "99999999999999999999999999999999999999E89",
            NumberFault::OutOfRange,
        ),
    ];

    #[test]
    fn reads_and_writes(rt: HostRuntime) -> Result<(), Fail> {
        for (text, normal) in TEXTS {
            let number = Number::parse(text)?;
            assert_eq!(rt; number.text(rt.alloc())?.as_str(), normal, "{text}");
            assert_eq!(rt; number.text_len(), normal.len(), "{text}");
            assert_eq!(rt; Number::parse(normal)?, number, "{text}");
        }
        for (text, fault) in FAULTS {
            assert_eq!(rt; Number::parse(text), Err(fault), "{text}");
        }
        Ok(())
    }

    #[test]
    fn reaches_the_ends_of_the_range(rt: HostRuntime) -> Result<(), Fail> {
        let nines = "99999999999999999999999999999999999999";
        let high = Number::parse("99999999999999999999999999999999999999E88")?;
        assert_eq!(rt; high.text(rt.alloc())?.as_bytes().len(), 126);
        assert!(rt; high.text(rt.alloc())?.as_str().starts_with(nines));
        let low = Number::parse("-99999999999999999999999999999999999999E-167")?;
        assert_eq!(rt; low.text(rt.alloc())?.as_bytes().len(), 170);
        assert_eq!(rt; low.text_len(), 170);
        assert_eq!(rt; high.text_len(), 126);
        assert_eq!(rt;
            Number::parse("1E125")?.text(rt.alloc())?.as_bytes().len(),
            126
        );
        assert_eq!(rt;
            Number::parse("1E-130")?.text(rt.alloc())?.as_bytes().len(),
            132
        );
        Ok(())
    }

    #[test]
    fn compares_by_value(rt: HostRuntime) -> Result<(), Fail> {
        let rising = [
            "-9E125", "-1E125", "-10", "-9.99", "-2", "-1e-130", "0", "1E-130", "0.5", "0.51", "1",
            "2", "9.99", "10", "1000", "1001", "1E125", "9E125",
        ];
        for (i, a) in rising.iter().enumerate() {
            for (j, b) in rising.iter().enumerate() {
                assert_eq!(rt;
                    Number::parse(a)?.compare(&Number::parse(b)?),
                    i.cmp(&j),
                    "{a} {b}"
                );
            }
        }
        assert_eq!(rt;
            Number::parse("1.0")?.compare(&Number::parse("1E0")?),
            Ordering::Equal
        );
        Ok(())
    }
}
