// Dates so many units later, and how many units lie between dates.
ghost use Rattle.std.specs.Prelude.{◌≡◌, pos};
ghost use Rattle.fx_types.specs.Civil.{IsCalendarDate};
ghost use Rattle.fx_primitives.specs.Dates.{IsDayLater, difference};
ghost use Rattle.fx_primitives.specs.Dates.{quarter_number as number_of_quarter};

use crate::months::{day_of_number, month_number, months_later};
use fx_types::{CivilDate, Day, Kind, TimeUnit, civil_date};

/// The day so many units later, a quarter being three months and a year twelve. Months, quarters
/// and years keep the day of the month, or take the month's last day where it is shorter.
/// `InvalidArgument` exactly where the day is not from 1900-01-01 to 9999-12-31.
pub fn date_add(day: Day, count: i64, unit: TimeUnit) -> Result<Day, Kind>
    ensures { IsDayLater unit day count result }
{
    let count = i128::from(count);
    match unit {
        TimeUnit::Days => day_of_number(i128::from(day.days()) + count),
        TimeUnit::Months => months_later(day, count),
        TimeUnit::Quarters => months_later(day, count * 3),
        TimeUnit::Years => months_later(day, count * 12),
    }
}

/// The second day less the first: in days, or the difference of the numbers of their months,
/// quarters or years. A quarter begins with January, April, July or October.
pub fn date_diff(from: Day, to: Day, unit: TimeUnit) -> i32
    ensures { result ≡ difference unit from to }
{
    match unit {
        TimeUnit::Days => to.days() - from.days(),
        TimeUnit::Months => month_number(civil_date(to)) - month_number(civil_date(from)),
        TimeUnit::Quarters => quarter_number(civil_date(to)) - quarter_number(civil_date(from)),
        TimeUnit::Years => i32::from(civil_date(to).year) - i32::from(civil_date(from).year),
    }
}

// The quarter of a date.
fn quarter_number(date: CivilDate) -> i32
    requires { IsCalendarDate date }
    ensures { result ≡ pos (number_of_quarter date) }
{
    4 * i32::from(date.year) + i32::from((date.month - 1) / 3)
}
