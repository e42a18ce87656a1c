// A day, seen as its number of days since 1970-01-01.
ghost use Rattle.std.specs.Prelude.{◌≡◌, MatchOption};
ghost use Rattle.fx_types.specs.Days.{IsDay};

use std::marker::Model;

/// The number of 1900-01-01, the first day that is a date.
const FIRST: i32 = -25567;

/// The number of 9999-12-31, the last day that is a date.
const LAST: i32 = 2932896;

/// A day from 1900-01-01 to 9999-12-31, kept as its number of days since 1970-01-01.
#[derive(Clone, Copy)]
pub struct Day {
    days: i32,
}

impl Model for Day {
    ghost use Rattle.std.specs.Prelude.{ℤ};
    ghost use Rattle.fx_types.specs.Days.{IsDay};

    ghost Value = { ℤ };

    ghost view = { λ a. a.days };

    ghost invariant = { λ a. IsDay a.days };

    ghost inverse = { λ z. record { days = z } };
}

impl Day {
    /// The day of this number, -25567 to 2932896, and none for another.
    pub fn of(days: i32) -> Option<Day>
        ensures { MatchOption result (¬ IsDay days) (λ d. (d ≡ days) × IsDay days) }
    {
        if days < FIRST || LAST < days {
            None
        } else {
            Some(Day { days })
        }
    }

    /// Its number of days since 1970-01-01, which is negative before.
    pub fn days(self) -> i32
        ensures value { result ≡ self }
        ensures in_range { IsDay result }
    {
        self.days
    }
}
