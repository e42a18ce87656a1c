// The operators on dates.
ghost use Rattle.std.specs.Prelude.{◌≡◌, ◌-ℤ◌, neg_ℤ};
ghost use Rattle.fx_primitives.specs.Dates.{IsShifted};

use crate::months::day_of_number;
use fx_number::Num;
use fx_types::{Day, Kind};

// The ten-thousandths in 1.
const SCALE: i64 = 10_000;

/// The operator `+` of a date and a number of days, in either order. `InvalidArgument` exactly
/// where the number is not whole or the day is not from 1900-01-01 to 9999-12-31.
pub fn add_days(day: Day, days: Num) -> Result<Day, Kind>
    ensures { IsShifted day days result }
{
    shift(day, days.units())
}

/// The operator `-` of a date and a number of days. `InvalidArgument` exactly where the number is
/// not whole or the day is not from 1900-01-01 to 9999-12-31.
pub fn sub_days(day: Day, days: Num) -> Result<Day, Kind>
    ensures { IsShifted day (neg_ℤ days) result }
{
    shift(day, -days.units())
}

/// The operator `-` of two dates: the days from the second to the first.
pub fn days_between(left: Day, right: Day) -> i32
    ensures { result ≡ left -ℤ right }
{
    left.days() - right.days()
}

// The day so many ten-thousandths of a day later.
fn shift(day: Day, units: i64) -> Result<Day, Kind>
    ensures { IsShifted day units result }
{
    if units % SCALE != 0 {
        return Err(Kind::InvalidArgument);
    }
    day_of_number(i128::from(day.days()) + i128::from(units / SCALE))
}
