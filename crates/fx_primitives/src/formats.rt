//! Numbers by a format.
ghost use Rattle.std.specs.Prelude.{◌≡◌, ◌+◌, ◌%◌, ◌++◌, ◌∷◌, [], ◌<◌, ◌^◌, IfOk, IsAscii, OnOk};
ghost use Rattle.std.specs.Prelude.{string_bytes};
ghost use Rattle.fx_types.specs.Words.{scalars_of};
ghost use Rattle.fx_number.specs.Spelling.{point_and};
ghost use Rattle.fx_primitives.specs.Formats.{comma_before, decimals_of, formatted_number};
ghost use Rattle.fx_primitives.specs.Formats.{is_grouped as is_grouped_format, last_digits};
ghost use Rattle.fx_primitives.specs.Formats.{units_of, units_text, whole_text, with_commas};

use fx_base::Memory;
use fx_number::Num;
use fx_types::{NumberFormat, Words};
use std::alloc::Global;

/// The text of a number by a format, rounded half away from zero. A rounding to 0 has no sign.
pub fn format(alloc: Global, a: Num, format: NumberFormat) -> Result<Words, Memory>
    ensures { IfOk result (λ w. w ≡ scalars_of (formatted_number format a)) }
{
    let units = units(a.units().unsigned_abs(), format);
    let sign = if a.units() < 0 && units > 0 { "-" } else { "" };
    let mut text = String::from_str(alloc, sign)?;
    push_units(alloc, &mut text, format, units)?;
    Words::of(alloc, text.as_str())
}

// A magnitude in ten-thousandths as the nearest number of units of the format's last decimal.
fn units(magnitude: u64, format: NumberFormat) -> u64
    requires { magnitude < 2 ^ 63 }
    ensures { result ≡ units_of (decimals_of format) magnitude }
{
    match format {
        NumberFormat::Whole | NumberFormat::Grouped => (magnitude + 5_000) / 10_000,
        NumberFormat::TwoDecimals | NumberFormat::GroupedTwoDecimals => (magnitude + 50) / 100,
        NumberFormat::FourDecimals => magnitude,
    }
}

// How many units are 1.
fn scale(format: NumberFormat) -> u64
    ensures value { result ≡ 10 ^ decimals_of format }
    ensures positive { 0 < result }
{
    match format {
        NumberFormat::Whole | NumberFormat::Grouped => 1,
        NumberFormat::TwoDecimals | NumberFormat::GroupedTwoDecimals => 100,
        NumberFormat::FourDecimals => 10_000,
    }
}

fn is_grouped(format: NumberFormat) -> bool
    ensures { result ≡ is_grouped_format format }
{
    matches!(
        format,
        NumberFormat::Grouped | NumberFormat::GroupedTwoDecimals
    )
}

// Writes so many units of the format's last decimal.
fn push_units(
    alloc: Global,
    text: &mut String,
    format: NumberFormat,
    units: u64,
) -> Result<(), Memory>
    ensures { OnOk result (string_bytes text.new
        ≡ string_bytes text.old ++ units_text (is_grouped_format format) (decimals_of format) units) }
{
    push_whole(alloc, text, is_grouped(format), units / scale(format))?;
    push_fraction(text, format, units)
}

// Writes a whole number, with commas between groups of three digits or without.
fn push_whole(alloc: Global, text: &mut String, grouped: bool, whole: u64) -> Result<(), Memory>
    ensures { OnOk result (string_bytes text.new
        ≡ string_bytes text.old ++ whole_text grouped whole) }
{
    let digits = format!(in alloc; "{whole}")?;
    if grouped {
        push_grouped(text, digits.as_str())
    } else {
        Ok(text.push_str(digits.as_str())?)
    }
}

fn push_grouped(text: &mut String, digits: &str) -> Result<(), Memory>
    requires { IsAscii digits.now }
    ensures { OnOk result (string_bytes text.new ≡ string_bytes text.old ++ with_commas digits.now) }
{
    let digits = digits.as_bytes();
    for (i, digit) in digits.iter().enumerate() {
        text.push(char::from(*digit))?;
        push_comma(text, digits.len() - 1 - i)?;
    }
    Ok(())
}

// Writes a comma before digits in groups of three, of which so many follow.
fn push_comma(text: &mut String, left: usize) -> Result<(), Memory>
    ensures { OnOk result (string_bytes text.new ≡ string_bytes text.old ++ comma_before left) }
{
    if left > 0 && left % 3 == 0 {
        text.push(',')?;
    }
    Ok(())
}

// Writes a point and the format's decimals, or nothing where it has none.
fn push_fraction(text: &mut String, format: NumberFormat, units: u64) -> Result<(), Memory>
    ensures { OnOk result (string_bytes text.new
        ≡ string_bytes text.old ++ point_and (last_digits (decimals_of format) units)) }
{
    match format {
        NumberFormat::Whole | NumberFormat::Grouped => Ok(()),
        NumberFormat::TwoDecimals | NumberFormat::GroupedTwoDecimals => {
            text.push('.')?;
            push_two(text, units)
        }
        NumberFormat::FourDecimals => {
            text.push('.')?;
            push_two(text, units / 100)?;
            push_two(text, units)
        }
    }
}

// Writes the last two digits of a number.
fn push_two(text: &mut String, number: u64) -> Result<(), Memory>
    ensures { OnOk result (string_bytes text.new ≡ string_bytes text.old ++ last_digits 2 number) }
{
    push_digit(text, number / 10)?;
    push_digit(text, number)
}

// Writes the last digit of a number.
fn push_digit(text: &mut String, number: u64) -> Result<(), Memory>
    ensures { OnOk result (string_bytes text.new ≡ string_bytes text.old ++ (48 + number % 10) ∷ []) }
{
    Ok(text.push(char::from(b'0' + (number % 10) as u8))?)
}
