//! Arithmetic that is exact and rounds once. Products and quotients are computed in 128 bits.

ghost use Rattle.std.specs.Prelude.{◌≡◌, ◌+ℤ◌, ◌-ℤ◌, ℤ, ◌+◌, ◌*◌, ◌^◌, ◌<◌, ◌≤◌, min, MatchOption};
ghost use Rattle.std.specs.Prelude.{Ok};
ghost use Rattle.fx_number.specs.Decimal.{Checked, CheckedOnWay, UnlessZero, nearest, product_of};
ghost use Rattle.fx_number.specs.Decimal.{quotient_of, remainder_of, signed, power_of};
ghost use Rattle.fx_number.specs.Decimal.{ArePowersInRange, IsPower, IsExponent, step_of, divided};
ghost use Rattle.fx_number.specs.Decimal.{rounded_to};

use crate::{Num, NumErr, Way};

// The ten-thousandths in 1.
const SCALE: u128 = 10_000;

// A step so wide that every number is less than half of one from 0.
const WIDEST_STEP: u128 = 100_000_000_000_000_000_000;

// The number 1.
const ONE: Num = Num { units: 10_000 };

/// The sum.
pub fn add(a: Num, b: Num) -> Result<Num, NumErr>
    ensures { Checked (a +ℤ b) result }
{
    match a.units.checked_add(b.units) {
        Some(sum) => Num::from_units(sum).ok_or(NumErr::Overflow),
        None => Err(NumErr::Overflow),
    }
}

/// The difference.
pub fn sub(a: Num, b: Num) -> Result<Num, NumErr>
    ensures { Checked (a -ℤ b) result }
{
    match a.units.checked_sub(b.units) {
        Some(difference) => Num::from_units(difference).ok_or(NumErr::Overflow),
        None => Err(NumErr::Overflow),
    }
}

/// The product, rounded once, half away from zero.
pub fn mul(a: Num, b: Num) -> Result<Num, NumErr>
    ensures { Checked (product_of a b) result }
{
    let (a_negative, a) = a.sign_and_magnitude();
    let (b_negative, b) = b.sign_and_magnitude();
    with_sign(a_negative != b_negative, nearest_whole(a * b, SCALE))
}

/// The quotient, rounded once, half away from zero. `DivZero` exactly where `b` is 0.
pub fn div(a: Num, b: Num) -> Result<Num, NumErr>
    ensures { UnlessZero b (Checked (quotient_of a b)) result }
{
    let (a_negative, dividend) = a.sign_and_magnitude();
    let (b_negative, divisor) = b.sign_and_magnitude();
    if divisor == 0 {
        return Err(NumErr::DivZero);
    }
    with_sign(
        a_negative != b_negative,
        nearest_whole(dividend * SCALE, divisor),
    )
}

/// What `a` leaves when divided by `b` with a quotient that is rounded down, so that it has the
/// sign of `b`. `DivZero` exactly where `b` is 0; there is no other error.
pub fn modulo(a: Num, b: Num) -> Result<Num, NumErr>
    ensures { UnlessZero b (λ r. r ≡ Ok (remainder_of a b)) result }
{
    let (a_negative, a) = a.sign_and_magnitude();
    let (b_negative, b) = b.sign_and_magnitude();
    if b == 0 {
        return Err(NumErr::DivZero);
    }
    let rest = a % b;
    if rest == 0 || a_negative == b_negative {
        with_sign(b_negative, rest)
    } else {
        with_sign(b_negative, b - rest)
    }
}

/// `a` to the power `b`, a whole number from -1,000 to 1,000: the products with `a` one after the
/// other, each rounded, and for a negative exponent 1 divided by the power. `BadArgument` exactly
/// for another exponent, `DivZero` exactly where that divisor is 0, and `Overflow` exactly where
/// the result or a power on the way is out of range.
pub fn power(a: Num, b: Num) -> Result<Num, NumErr>
    ensures { IsPower a b result }
{
    match exponent(b) {
        Some(exponent) => {
            let power = whole_power(a, exponent.unsigned_abs());
            if exponent < 0 {
                div(ONE, power?)
            } else {
                power
            }
        }
        None => Err(NumErr::BadArgument),
    }
}

/// `a` rounded to `digits` decimals, which may be negative; from four on nothing changes.
/// `Overflow` exactly where the rounded number is out of range.
pub fn round(a: Num, digits: i64, way: Way) -> Result<Num, NumErr>
    ensures { Checked (rounded_to a digits way) result }
{
    let (negative, magnitude) = a.sign_and_magnitude();
    let step = step(digits);
    let steps = steps(magnitude, step, negative, way);
    with_sign(negative, steps * step)
}

// The ten-thousandths in one unit of the last decimal kept, but never more than the widest step,
// which rounds all numbers to 0 or out of range as all wider ones do.
fn step(digits: i64) -> u128
    ensures { result ≡ min (step_of digits) (10 ^ 20) }
{
    if digits < -16 {
        WIDEST_STEP
    } else if digits < 4 {
        10u128.pow((4 - digits) as u32)
    } else {
        1
    }
}

// How many steps a number of this sign and magnitude is rounded to.
fn steps(magnitude: u128, step: u128, negative: bool, way: Way) -> u128
    requires magnitude { magnitude < 2 ^ 63 }
    requires step { 0 < step }
    requires step_small { step ≤ 10 ^ 20 }
    ensures value { signed negative result ≡ divided way (signed negative magnitude) step }
    ensures bound { result * step ≤ magnitude + step }
{
    match way {
        Way::Near => nearest_whole(magnitude, step),
        Way::Up => magnitude.div_ceil(step),
        Way::Down => magnitude / step,
        Way::Floor if negative => magnitude.div_ceil(step),
        Way::Floor => magnitude / step,
    }
}

// The whole number that `b` is, where that may be an exponent.
fn exponent(b: Num) -> Option<i64>
    ensures { MatchOption result ((e : ℤ) → ¬ IsExponent b e) (λ e. IsExponent b e) }
{
    let whole = b.units / 10_000;
    if b.units % 10_000 == 0 && -1000 <= whole && whole <= 1000 {
        Some(whole)
    } else {
        None
    }
}

// `a` multiplied with itself, each product rounded. Not by squaring, since another order of
// roundings could give another number.
fn whole_power(a: Num, exponent: u64) -> Result<Num, NumErr>
    ensures { CheckedOnWay (ArePowersInRange a exponent) (power_of a exponent) result }
{
    let mut power = ONE;
    for _ in 0..exponent {
        power = mul(power, a)?;
    }
    Ok(power)
}

// The whole number next to a quotient, half up.
fn nearest_whole(dividend: u128, divisor: u128) -> u128
    requires dividend { dividend < 2 ^ 126 }
    requires divisor { 0 < divisor }
    requires divisor_small { divisor < 2 ^ 126 }
    ensures { result ≡ nearest dividend divisor }
{
    (2 * dividend + divisor) / (2 * divisor)
}

// A number of this magnitude.
pub(crate) fn with_sign(negative: bool, magnitude: u128) -> Result<Num, NumErr>
    ensures { Checked (signed negative magnitude) result }
{
    match i64::try_from(magnitude) {
        Ok(units) => Ok(Num {
            units: if negative { -units } else { units },
        }),
        Err(_) => Err(NumErr::Overflow),
    }
}
