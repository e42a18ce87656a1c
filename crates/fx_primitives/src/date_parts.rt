// The parts of dates.
ghost use Rattle.std.specs.Prelude.{◌≡◌, ℤ, ◌/◌, ◌^◌, ◌+ℤ◌, ◌-ℤ◌, ◌*ℤ◌, pos};
ghost use Rattle.jiff_core.specs.Calendar.{IsWithin};
ghost use Rattle.fx_types.specs.Days.{IsDay};
ghost use Rattle.fx_types.specs.Civil.{civil_of};
ghost use Rattle.fx_primitives.specs.Dates.{IsDayOrInvalid, number_of_parts};
ghost use Rattle.fx_primitives.specs.Dates.{full_year as full_year_of, weekday_of};

use crate::months::{day_of_number, first_day};
use fx_types::{Day, Kind, civil_date, plain_date};

const DAY_SECONDS: u64 = 86_400;

/// The day with these parts, each a whole number of any size: months before 1 and after 12 lie in
/// other years, and days before 1 and after the month's last in other months. A year from 0 to 1899
/// has 1900 added first. `InvalidArgument` exactly where the day is not from 1900-01-01 to
/// 9999-12-31.
pub fn date(year: i64, month: i64, day: i64) -> Result<Day, Kind>
    ensures { IsDayOrInvalid (number_of_parts year month day) result }
{
    let first = first_day(month_of_parts(year, month));
    day_of_number(day_after(first, day))
}

/// A law, and no work: the day with the year, the month and the day of the month of a day is that
/// day.
pub fn parts_give_the_day()
    ensures { (z : ℤ) → IsDay z → let d = civil_of z in
        number_of_parts (pos d.year) (pos d.month) (pos d.day) ≡ z }
{}

// The month of the first two parts of a date.
fn month_of_parts(year: i64, month: i64) -> i128
    ensures value { result ≡ (full_year_of year *ℤ pos 12) +ℤ (month -ℤ pos 1) }
    ensures bound { IsWithin (2 ^ 100) result }
{
    i128::from(full_year(year)) * 12 + (i128::from(month) - 1)
}

fn full_year(year: i64) -> i64
    ensures { result ≡ full_year_of year }
{
    if 0 <= year && year < 1900 {
        year + 1900
    } else {
        year
    }
}

// The number of a day that is counted from the first of a month.
fn day_after(first: i128, day: i64) -> i128
    requires { IsWithin (2 ^ 120) first }
    ensures value { result ≡ first +ℤ (day -ℤ pos 1) }
    ensures bound { IsWithin (2 ^ 121) result }
{
    first + (i128::from(day) - 1)
}

/// The day of the month, from 1.
pub fn day_of_month(day: Day) -> u8
    ensures { result ≡ (civil_of day).day }
{
    civil_date(day).day
}

/// The month, from 1 to 12.
pub fn month(day: Day) -> u8
    ensures { result ≡ (civil_of day).month }
{
    civil_date(day).month
}

/// The year, from 1900 to 9999.
pub fn year(day: Day) -> u16
    ensures { result ≡ (civil_of day).year }
{
    civil_date(day).year
}

/// The day of the week, from 1 for Sunday to 7 for Saturday.
pub fn weekday(day: Day) -> u8
    ensures { result ≡ weekday_of day }
{
    plain_date(day)
        .weekday()
        .to_sunday_one_offset()
        .unsigned_abs()
}

/// The day of a moment, in UTC. A moment is seconds since 1970-01-01. `InvalidArgument` exactly
/// past 9999-12-31.
pub fn today(moment: u64) -> Result<Day, Kind>
    ensures { IsDayOrInvalid (pos (moment / 86400)) result }
{
    day_of_number(i128::from(moment / DAY_SECONDS))
}
