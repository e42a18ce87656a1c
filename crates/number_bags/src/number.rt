//! Numbers as keys of an ordered map.
ghost use Rattle.std.specs.Prelude.{◌≡◌};

use fx_number::Num;
use std::marker::Model;

/// A number that numbers are counted by.
// A number of its own, since `Num` has no order.
#[derive(Clone, Copy, Debug, PartialEq, Eq, PartialOrd, Ord)]
pub struct Number {
    units: i64,
}

impl Model for Number {
    ghost use Rattle.std.specs.Prelude.{ℤ};
    ghost use Rattle.fx_number.specs.Decimal.{IsInRange};

    ghost Value = { ℤ };

    ghost view = { λ a. a.units };

    ghost invariant = { λ a. IsInRange a.units };

    ghost inverse = { λ z. record { units = z } };
}

impl Number {
    /// The same number as a key.
    pub fn of(number: Num) -> Number
        ensures { result ≡ number }
    {
        Number {
            units: number.units(),
        }
    }

    /// The number.
    pub fn number(self) -> Num
        ensures { result ≡ self }
    {
        match Num::from_units(self.units) {
            Some(number) => number,
            None => unreachable!(),
        }
    }

    /// Its ten-thousandths.
    pub fn units(self) -> i64
        ensures { result ≡ self }
    {
        self.units
    }
}
