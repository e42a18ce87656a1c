//! Numbers as whole counts of ten-thousandths.
#![tactic(auto)]

ghost use Rattle.std.specs.Prelude.{◌≡◌, ◌<◌, ◌≤◌, MatchOption, IsTrue};
ghost use Rattle.fx_number.specs.Decimal.{IsInRange, greatest, signed};

use std::marker::Model;

mod arithmetic;
mod memory;
mod spelling;

pub use arithmetic::{add, div, modulo, mul, power, round, sub};
pub use memory::Memory;
pub use spelling::{read, spelling_laws, text};

/// Why an operation has no number.
#[derive(Clone, Copy)]
pub enum NumErr {
    /// The exact result, rounded, is out of range.
    Overflow,
    /// The divisor is 0.
    DivZero,
    /// The exponent is no whole number from -1,000 to 1,000.
    BadArgument,
}

/// How a number is rounded.
#[derive(Clone, Copy)]
pub enum Way {
    /// To the nearest, half away from zero.
    Near,
    /// Away from zero.
    Up,
    /// Towards zero.
    Down,
    /// Towards the lower number.
    Floor,
}

/// A number, as a whole count of ten-thousandths from -(2^63-1) to 2^63-1. There is no minus zero.
#[derive(Clone, Copy, Debug)]
pub struct Num {
    units: i64,
}

impl Model for Num {
    ghost use Rattle.std.specs.Prelude.{ℤ};
    ghost use Rattle.fx_number.specs.Decimal.{IsInRange};

    ghost Value = { ℤ };

    ghost view = { λ a. a.units };

    ghost invariant = { λ a. IsInRange a.units };

    ghost inverse = { λ z. record { units = z } };
}

impl Num {
    /// The number of this many ten-thousandths. None exactly for the least `i64`.
    pub fn from_units(units: i64) -> Option<Num>
        ensures { MatchOption result (¬ IsInRange units) (λ n. (n ≡ units) × IsInRange units) }
    {
        if units == i64::MIN {
            None
        } else {
            Some(Num { units })
        }
    }

    /// Its ten-thousandths, from -(2^63-1) to 2^63-1.
    pub fn units(self) -> i64
        ensures value { result ≡ self }
        ensures in_range { IsInRange result }
    {
        self.units
    }

    // Whether it is below 0, and how far it is from 0.
    fn sign_and_magnitude(self) -> (bool, u128)
        ensures value { signed result.0 result.1 ≡ self }
        ensures bound { result.1 ≤ greatest }
        ensures sign { IsTrue result.0 → 0 < result.1 }
    {
        (self.units < 0, u128::from(self.units.unsigned_abs()))
    }
}
