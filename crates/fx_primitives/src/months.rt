// The months of all years, numbered from January of the year 0.
ghost use Rattle.std.specs.Prelude.{◌≡◌, ◌+ℤ◌, ◌+◌, ◌/◌, ◌%◌, ◌^◌, ◌<◌, ◌≤◌, ◌*ℤ◌, pos};
ghost use Rattle.std.specs.Prelude.{MatchOption};
ghost use Rattle.std.specs.Int.{IsInRange};
ghost use Rattle.jiff_core.specs.Calendar.{IsBetween, IsEpochDay, IsWithin, days_from_civil};
ghost use Rattle.fx_types.specs.Civil.{IsCalendarDate};
ghost use Rattle.fx_primitives.specs.Dates.{IsDayOrInvalid, IsInMonthOrInvalid, IsMonthsLater};
ghost use Rattle.fx_primitives.specs.Months.{first_day_of_month, month_number as number_of_month};
ghost use Rattle.fx_primitives.specs.Months.{month_of, year_of};

use fx_types::{CivilDate, Day, Kind, civil_date, day_of_plain};
use jiff_core::civil::Date;

// The months in the 400 years after which the calendar repeats, and their days.
const CYCLE_MONTHS: i128 = 4_800;

const CYCLE_DAYS: i128 = 146_097;

// The number of the first day of a month.
pub(crate) fn first_day(month: i128) -> i128
    requires { IsWithin (2 ^ 100) month }
    ensures value { result ≡ first_day_of_month month }
    ensures bound { IsWithin (2 ^ 120) result }
{
    // Looked up in the years 0 to 399, since the calendar library has none beyond 9999.
    let cycles = month.div_euclid(CYCLE_MONTHS);
    let first = early_first_day(month.rem_euclid(CYCLE_MONTHS) as u16);
    cycles_later(cycles, first)
}

// The number of a day so many cycles later.
fn cycles_later(cycles: i128, number: i32) -> i128
    requires cycles { IsWithin (2 ^ 100) cycles }
    ensures value { result ≡ (cycles *ℤ pos 146097) +ℤ number }
    ensures bound { IsWithin (2 ^ 120) result }
{
    cycles * CYCLE_DAYS + i128::from(number)
}

// The number of the first day of a month of the years 0 to 399.
fn early_first_day(month: u16) -> i32
    requires { month < 4800 }
    ensures value { result ≡ days_from_civil (pos (month / 12)) (month % 12 + 1) 1 }
    ensures bound { IsEpochDay result }
{
    let year = (month / 12) as i16;
    let month = (month % 12) as u8 + 1;
    Date::constrain(year, month, 1).to_unix_epoch_day()
}

// The day of a number.
pub(crate) fn day_of_number(number: i128) -> Result<Day, Kind>
    ensures { IsDayOrInvalid number result }
{
    match i32::try_from(number) {
        Ok(number) => Day::of(number).ok_or(Kind::InvalidArgument),
        Err(_) => Err(Kind::InvalidArgument),
    }
}

// The month of a date.
pub(crate) fn month_number(date: CivilDate) -> i32
    requires { IsCalendarDate date }
    ensures { result ≡ pos (number_of_month date) }
{
    12 * i32::from(date.year) + i32::from(date.month) - 1
}

// The same day so many months later, or that month's last.
pub(crate) fn months_later(day: Day, months: i128) -> Result<Day, Kind>
    requires { IsWithin (2 ^ 100) months }
    ensures { IsMonthsLater day months result }
{
    let date = civil_date(day);
    let month = month_after(date, months);
    day_in_month(month, date.day)
}

// The month so many months after that of a date.
fn month_after(date: CivilDate, months: i128) -> i128
    requires in_calendar { IsCalendarDate date }
    requires bound { IsWithin (2 ^ 100) months }
    ensures value { result ≡ pos (number_of_month date) +ℤ months }
    ensures bound { IsWithin (2 ^ 101) result }
{
    i128::from(month_number(date)) + months
}

// The day of a month, or its last where the month is shorter.
fn day_in_month(month: i128, place: u8) -> Result<Day, Kind>
    requires place { 1 ≤ place }
    requires bound { IsWithin (2 ^ 101) month }
    ensures { IsInMonthOrInvalid month place result }
{
    match year_of_days(month) {
        Some(year) => Ok(day_of_plain(Date::constrain(year, place_in_year(month), place))),
        None => Err(Kind::InvalidArgument),
    }
}

// The year of a month, where its dates are days.
fn year_of_days(month: i128) -> Option<i16>
    requires { IsWithin (2 ^ 101) month }
    ensures { MatchOption result (¬ IsBetween (pos 1900) (pos 9999) (year_of month))
        (λ y. (y ≡ year_of month) × IsBetween (pos 1900) (pos 9999) y) }
{
    let year = month.div_euclid(12);
    if 1900 <= year && year <= 9999 {
        Some(year as i16)
    } else {
        None
    }
}

// The place of a month in its year, from 1.
fn place_in_year(month: i128) -> u8
    ensures value { result ≡ month_of month }
    ensures range { IsInRange 1 12 result }
{
    month.rem_euclid(12) as u8 + 1
}
