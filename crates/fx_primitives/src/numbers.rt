//! Functions of one number or two.
ghost use Rattle.std.specs.Prelude.{◌≡◌, Ok, pos, unsigned_abs};
ghost use Rattle.fx_number.specs.Decimal.{Checked, IsPower, UnlessZero, remainder_of, rounded_to};
ghost use Rattle.fx_number.specs.declared.Way.TheVariants.{Down, Floor};
ghost use Rattle.fx_primitives.specs.Numbers.{AsKind, kind_of_number_error, whole_part_of};
ghost use Rattle.fx_primitives.specs.Numbers.{with_kind};

use fx_number::{Num, NumErr, Way};
use fx_types::Kind;

/// An answer of arithmetic with the kind of its error: `Numeric` for one out of range, `Div0` for a
/// divisor 0, `InvalidArgument` for an exponent that is none.
pub fn with_kind(answer: Result<Num, NumErr>) -> Result<Num, Kind>
    ensures { result ≡ with_kind answer }
{
    match answer {
        Ok(number) => Ok(number),
        Err(error) => Err(kind(error)),
    }
}

fn kind(error: NumErr) -> Kind
    ensures { result ≡ kind_of_number_error error }
{
    match error {
        NumErr::Overflow => Kind::Numeric,
        NumErr::DivZero => Kind::Div0,
        NumErr::BadArgument => Kind::InvalidArgument,
    }
}

/// How far a number is from 0.
pub fn abs(a: Num) -> Num
    ensures { result ≡ pos (unsigned_abs a) }
{
    match Num::from_units(a.units().abs()) {
        Some(size) => size,
        None => unreachable!(),
    }
}

/// A number rounded down to a whole one. `Numeric` exactly where that is out of range.
pub fn int(a: Num) -> Result<Num, Kind>
    ensures { AsKind (Checked (rounded_to a (pos 0) Floor)) result }
{
    with_kind(fx_number::round(a, 0, Way::Floor))
}

/// A number rounded towards zero to a whole one.
pub fn trunc(a: Num) -> Result<Num, Kind>
    ensures { AsKind (Checked (rounded_to a (pos 0) Down)) result }
{
    with_kind(fx_number::round(a, 0, Way::Down))
}

/// The whole number that is left of a number where its decimals are cut off: a count, a position or
/// a number of digits.
pub fn whole_part(a: Num) -> i64
    ensures { result ≡ whole_part_of a }
{
    a.units() / 10_000
}

/// A number rounded to `digits` decimals, cut towards zero, which may be negative. `Numeric`
/// exactly where the rounded number is out of range.
pub fn round(a: Num, digits: Num, way: Way) -> Result<Num, Kind>
    ensures { AsKind (Checked (rounded_to a (whole_part_of digits) way)) result }
{
    with_kind(fx_number::round(a, whole_part(digits), way))
}

/// What `a` leaves when divided by `b` with a quotient that is rounded down, so that it has the
/// sign of `b`. `Div0` exactly where `b` is 0; there is no other error.
pub fn modulo(a: Num, b: Num) -> Result<Num, Kind>
    ensures { AsKind (UnlessZero b (λ r. r ≡ Ok (remainder_of a b))) result }
{
    with_kind(fx_number::modulo(a, b))
}

/// `a` to the power `b`, a whole number from -1,000 to 1,000, each product rounded.
/// `InvalidArgument` exactly for another exponent, `Div0` exactly where the divisor of a negative
/// exponent is 0, and `Numeric` exactly where the result or a power on the way is out of range.
pub fn power(a: Num, b: Num) -> Result<Num, Kind>
    ensures { AsKind (IsPower a b) result }
{
    with_kind(fx_number::power(a, b))
}
