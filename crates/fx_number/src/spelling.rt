//! The texts that spell numbers, and the text that a number is written as.

ghost use Rattle.std.specs.Prelude.{◌≡◌, ℕ, ℤ, List, ◌+◌, ◌^◌, ◌<◌, ◌≤◌, ◌↔◌, ◌++◌, pos, Some};
ghost use Rattle.std.specs.Prelude.{length, take_while, IfOk, OnOk, MatchOption, string_bytes};
ghost use Rattle.std.specs.Char.{is_ascii_digit};
ghost use Rattle.std.specs.Str.Parse.{AllDigits, digits_value_after};
ghost use Rattle.fx_number.specs.Decimal.{IsInRange, greatest};
ghost use Rattle.fx_number.specs.Spelling.{Spells, IsDecimal, decimal_units, point_and};
ghost use Rattle.fx_number.specs.Spelling.{without_end_zeros, four_digits, is_minus, text_of};
ghost use Rattle.fx_number.specs.Reading.{is_space, skip_while, sign_of, after_sign, fraction_of};
ghost use Rattle.fx_number.specs.Reading.{after_fraction, spelled};

use crate::arithmetic::with_sign;
use crate::{Memory, Num};
use std::alloc::Global;

/// The number that a text spells: spaces, a sign or none, digits, a point with digits or neither,
/// and spaces. It is rounded to four decimals, half away from zero. None exactly for other texts,
/// and out of range.
pub fn read(text: &str) -> Option<Num>
    ensures { (z : ℤ) → (result ≡ Some z) ↔ (Spells text.now z × IsInRange z) }
{
    let (negative, rest) = split_sign(skip_spaces(text.as_bytes()));
    let (whole, rest) = split_digits(rest);
    let (fraction, rest) = split_fraction(rest);
    if whole.is_empty() || !skip_spaces(rest).is_empty() {
        return None;
    }
    with_sign(negative, u128::from(units(whole, fraction)?)).ok()
}

/// The text of a number, without needless zeros. Reading it gives the number back.
pub fn text(alloc: Global, a: Num) -> Result<String, Memory>
    ensures { IfOk result (λ t. string_bytes t ≡ text_of a) }
{
    let (negative, magnitude) = a.sign_and_magnitude();
    let sign = if negative { "-" } else { "" };
    let mut text = format!(in alloc; "{sign}{}", magnitude / 10_000)?;
    push_fraction(&mut text, (magnitude % 10_000) as u16)?;
    Ok(text)
}

/// Laws, and no work: a text spells one number or none, which can be found from left to right; the
/// text of a number spells that number, so that reading it gives the number back; and digits with
/// or without a fraction, and nothing around them, spell their value.
// A statement is proved only where it is a clause of a function, so a law is a function with an
// empty body.
pub fn spelling_laws()
    ensures one_number { (text : List ℕ) → (z : ℤ) → Spells text z ↔ (spelled text ≡ Some z) }
    ensures read_back { (z : ℤ) → IsInRange z → Spells (text_of z) z }
    ensures digits_alone { (text : List ℕ) → (whole : List ℕ) → (fraction : List ℕ) →
        IsDecimal text whole fraction → Spells text (pos (decimal_units whole fraction)) }
{}

// What follows the spaces at the front.
fn skip_spaces(bytes: &[u8]) -> &[u8]
    ensures { result.now ≡ skip_while is_space bytes.now }
{
    for (i, byte) in bytes.iter().enumerate() {
        if *byte != b' ' {
            return &bytes[i..];
        }
    }
    &bytes[bytes.len()..]
}

// Whether a minus stands at the front, and what follows the sign there, if any.
fn split_sign(bytes: &[u8]) -> (bool, &[u8])
    ensures sign { result.0 ≡ is_minus (sign_of bytes.now) }
    ensures rest { result.1.now ≡ after_sign bytes.now }
{
    match bytes {
        [b'+', rest @ ..] => (false, rest),
        [b'-', rest @ ..] => (true, rest),
        _ => (false, bytes),
    }
}

// The digits at the front, and what follows them.
fn split_digits(bytes: &[u8]) -> (&[u8], &[u8])
    ensures digits { result.0.now ≡ take_while is_ascii_digit bytes.now }
    ensures rest { result.1.now ≡ skip_while is_ascii_digit bytes.now }
{
    for (i, byte) in bytes.iter().enumerate() {
        if !byte.is_ascii_digit() {
            return bytes.split_at(i);
        }
    }
    bytes.split_at(bytes.len())
}

// The digits after a point at the front, and what follows them. A point without digits stays.
fn split_fraction(bytes: &[u8]) -> (&[u8], &[u8])
    ensures digits { result.0.now ≡ fraction_of bytes.now }
    ensures rest { result.1.now ≡ after_fraction bytes.now }
{
    if let [b'.', after_point @ ..] = bytes {
        let (fraction, rest) = split_digits(after_point);
        if !fraction.is_empty() {
            return (fraction, rest);
        }
    }
    bytes.split_at(0)
}

// The ten-thousandths that digits spell, rounded half up. None only for more than any number has.
fn units(whole: &[u8], fraction: &[u8]) -> Option<u64>
    requires whole { AllDigits 10 whole.now }
    requires fraction { AllDigits 10 fraction.now }
    ensures { MatchOption result (greatest < decimal_units whole.now fraction.now)
        (λ n. n ≡ decimal_units whole.now fraction.now) }
{
    let kept = &fraction[..fraction.len().min(4)];
    let units = digits_after(digits_after(0, whole)?, kept)?;
    let units = units.checked_mul(10u64.pow(4 - kept.len() as u32))?;
    if fraction.len() > 4 && fraction[4] >= b'5' {
        units.checked_add(1)
    } else {
        Some(units)
    }
}

// The whole number that these digits write behind those of another. None from 2^64 on.
fn digits_after(start: u64, digits: &[u8]) -> Option<u64>
    requires { AllDigits 10 digits.now }
    ensures { MatchOption result (2 ^ 64 ≤ digits_value_after 10 start digits.now)
        (λ n. n ≡ digits_value_after 10 start digits.now) }
{
    let mut number = start;
    for digit in digits {
        number = number
            .checked_mul(10)?
            .checked_add(u64::from(*digit - b'0'))?;
    }
    Some(number)
}

// Writes a point and the decimals of a fraction, without the zeros at their end; nothing for 0.
fn push_fraction(text: &mut String, fraction: u16) -> Result<(), Memory>
    requires { fraction < 10000 }
    ensures { OnOk result (string_bytes text.new
        ≡ string_bytes text.old ++ point_and (without_end_zeros (four_digits fraction))) }
{
    if fraction == 0 {
        return Ok(());
    }
    text.push('.')?;
    push_decimals(text, fraction)
}

// Writes the decimals of a fraction, without the zeros at their end.
fn push_decimals(text: &mut String, fraction: u16) -> Result<(), Memory>
    requires { fraction < 10000 }
    ensures { OnOk result (string_bytes text.new
        ≡ string_bytes text.old ++ without_end_zeros (four_digits fraction)) }
{
    let mut rest = fraction;
    while rest != 0 {
        text.push(char::from(b'0' + (rest / 1000) as u8))?;
        rest = rest % 1000 * 10;
    }
    Ok(())
}
