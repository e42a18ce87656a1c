// The dates of days.
ghost use Rattle.std.specs.Prelude.{◌≡◌, ◌↔◌, ◌≤ℤ◌, pos, IsTrue, MatchOption};
ghost use Rattle.jiff_core.specs.Date.{epoch_day};
ghost use Rattle.fx_types.specs.Days.{IsDay};
ghost use Rattle.fx_types.specs.Civil.{civil_of, IsCalendarDate};

use crate::Day;
use jiff_core::civil::{Date, days_in_month};

/// A date of the calendar: its year, its month from 1 to 12, and its day of the month from 1.
#[derive(Clone, Copy)]
pub struct CivilDate {
    pub year: u16,
    pub month: u8,
    pub day: u8,
}

/// The date of a day.
pub fn civil_date(day: Day) -> CivilDate
    ensures value { result ≡ civil_of day }
    ensures in_calendar { IsCalendarDate result }
{
    let date = plain_date(day);
    CivilDate {
        year: date.year.unsigned_abs(),
        month: date.month,
        day: date.day,
    }
}

/// The date of a day, for the calls of the calendar library.
pub fn plain_date(day: Day) -> Date
    ensures number { epoch_day result ≡ day }
    ensures year { result.year ≡ pos (civil_of day).year }
    ensures month { result.month ≡ (civil_of day).month }
    ensures day { result.day ≡ (civil_of day).day }
    ensures in_calendar { IsCalendarDate (civil_of day) }
{
    match Date::from_unix_epoch_day(i64::from(day.days())) {
        Ok(date) => date,
        Err(_) => unreachable!(),
    }
}

/// Whether the calendar has a date, and its year is from 1900 to 9999.
pub fn is_date(date: CivilDate) -> bool
    ensures { IsTrue result ↔ IsCalendarDate date }
{
    1900 <= date.year
        && date.year <= 9999
        && 1 <= date.month
        && date.month <= 12
        && 1 <= date.day
        && date.day <= days_in_month(date.year as i16, date.month)
}

/// The day of a date, and none where the calendar has no such date or its year is not from 1900 to
/// 9999.
pub fn day_of_date(date: CivilDate) -> Option<Day>
    ensures { MatchOption result (¬ IsCalendarDate date) (λ d. IsDay d × (civil_of d ≡ date)) }
{
    if is_date(date) {
        Some(day_of_plain(Date::constrain(date.year as i16, date.month, date.day)))
    } else {
        None
    }
}

/// The day of a date of the calendar library, from 1900-01-01 on.
pub fn day_of_plain(date: Date) -> Day
    requires { pos 1900 ≤ℤ date.year }
    ensures number { result ≡ epoch_day date }
    ensures in_range { IsDay result }
    ensures year { date.year ≡ pos (civil_of result).year }
    ensures month { date.month ≡ (civil_of result).month }
    ensures day { date.day ≡ (civil_of result).day }
{
    match Day::of(date.to_unix_epoch_day()) {
        Some(day) => day,
        None => unreachable!(),
    }
}
