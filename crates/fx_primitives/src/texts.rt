// Dates as texts.
ghost use Rattle.std.specs.Prelude.{◌≡◌, ℕ, ℤ, ◌+◌, ◌<◌, ◌++◌, ◌∷◌, [], ◌↔◌, MatchOption, IfErr};
ghost use Rattle.std.specs.Prelude.{IfOk, OnOk, string_bytes};
ghost use Rattle.fx_types.specs.Days.{IsDay};
ghost use Rattle.fx_types.specs.Civil.{IsCalendarDate};
ghost use Rattle.fx_types.specs.DateText.{civil_text, date_text as date_text_of};
ghost use Rattle.fx_types.specs.DateText.{two_digits as two_digits_of};
ghost use Rattle.fx_types.specs.declared.civil.CivilDate.{CivilDate as CivilDateValue};
ghost use Rattle.fx_primitives.specs.DateTexts.{slashed as slashed_text, day_text};

use fx_base::Memory;
use fx_types::{CivilDate, DateFormat, Day, Kind, civil_date, date_text, day_of_date};
use std::alloc::Global;

/// The text of a day in a format.
pub fn format_day(alloc: Global, day: Day, format: DateFormat) -> Result<String, Memory>
    ensures { IfOk result (λ s. string_bytes s ≡ day_text format day) }
{
    let date = civil_date(day);
    match format {
        DateFormat::YearMonthDay => date_text(alloc, day),
        DateFormat::DayMonthYear => join_with_slashes(alloc, date.day, date.month, date.year),
        DateFormat::MonthDayYear => join_with_slashes(alloc, date.month, date.day, date.year),
    }
}

/// The day that a text names as `yyyy-mm-dd`. `InvalidArgument` exactly for every other text, also
/// where the calendar has no such date or it is not from 1900-01-01 to 9999-12-31.
pub fn date_value(text: &str) -> Result<Day, Kind>
    ensures value { (z : ℤ) → (result ≡ Ok z) ↔ (IsDay z × (text.now ≡ date_text_of z)) }
    ensures err { IfErr result (λ k. k ≡ Kind.InvalidArgument) }
{
    match read_date(text.as_bytes()) {
        Some(date) => day_of_date(date).ok_or(Kind::InvalidArgument),
        None => Err(Kind::InvalidArgument),
    }
}

// The year, month and day that a text names, whether or not the calendar has them.
fn read_date(text: &[u8]) -> Option<CivilDate>
    ensures { MatchOption result
        ((d : CivilDateValue) → IsCalendarDate d → ¬ (text.now ≡ civil_text d))
        (λ d. text.now ≡ civil_text d) }
{
    let [c, y, a, b, first, m, n, second, d, e] = text else {
        return None;
    };
    if *first != b'-' || *second != b'-' {
        return None;
    }
    Some(CivilDate {
        year: u16::from(two_digits(*c, *y)?) * 100 + u16::from(two_digits(*a, *b)?),
        month: two_digits(*m, *n)?,
        day: two_digits(*d, *e)?,
    })
}

// The number below 100 that two digits name.
fn two_digits(tens: u8, ones: u8) -> Option<u8>
    ensures { MatchOption result
        ((n : ℕ) → n < 100 → ¬ (two_digits_of n ≡ tens ∷ ones ∷ []))
        (λ n. (n < 100) × (two_digits_of n ≡ tens ∷ ones ∷ [])) }
{
    if tens.is_ascii_digit() && ones.is_ascii_digit() {
        Some((tens - b'0') * 10 + (ones - b'0'))
    } else {
        None
    }
}

// Two numbers below 100 and one below 10000, with slashes between.
fn join_with_slashes(alloc: Global, first: u8, second: u8, third: u16) -> Result<String, Memory>
    requires first { first < 100 }
    requires second { second < 100 }
    requires third { third < 10000 }
    ensures { IfOk result (λ s. string_bytes s ≡ slashed_text first second third) }
{
    let mut text = String::new(alloc);
    push_two(&mut text, first)?;
    text.push('/')?;
    push_two(&mut text, second)?;
    text.push('/')?;
    push_two(&mut text, (third / 100) as u8)?;
    push_two(&mut text, (third % 100) as u8)?;
    Ok(text)
}

// Writes a number below 100 in two digits.
fn push_two(text: &mut String, number: u8) -> Result<(), Memory>
    requires { number < 100 }
    ensures { OnOk result (string_bytes text.new ≡ string_bytes text.old ++ two_digits_of number) }
{
    text.push(char::from(b'0' + number / 10))?;
    text.push(char::from(b'0' + number % 10))?;
    Ok(())
}
