//! What many numbers come to, blank ones left out.
ghost use Rattle.std.specs.Prelude.{◌≡◌, ◌*◌, ◌<◌, ◌≤◌, ◌++◌, ℤ, List, MatchOption, Some, neg_ℤ};
ghost use Rattle.std.specs.Prelude.{option_to_list, pos, ◌≤ℤ◌};
ghost use Rattle.fx_number.specs.Decimal.{IsInRange, greatest as most, rounded};
ghost use Rattle.fx_primitives.specs.Folds.{AreSummedUp, IsGreatest, IsLeast, IsSum, average_of};
ghost use Rattle.fx_primitives.specs.Folds.{nonblank};

use fx_number::Num;
use fx_types::Kind;

/// The exact sum of the numbers that are not blank, and none where all are. `Numeric` exactly where
/// the sum of all of them is out of range.
pub fn sum(numbers: &[Option<Num>]) -> Result<Option<Num>, Kind>
    ensures { IsSum (nonblank numbers.now) result }
{
    let (count, total) = count_and_total(numbers);
    if count == 0 {
        return Ok(None);
    }
    match number_of(total) {
        Some(sum) => Ok(Some(sum)),
        None => Err(Kind::Numeric),
    }
}

/// The exact sum of the numbers that are not blank, divided by how many they are and rounded once,
/// half away from zero; none where all are blank.
pub fn average(numbers: &[Option<Num>]) -> Option<Num>
    ensures { result ≡ average_of (nonblank numbers.now) }
{
    let (count, total) = count_and_total(numbers);
    if count == 0 {
        None
    } else {
        quotient(total, count)
    }
}

/// The least of the numbers that are not blank, and none where all are.
pub fn min(numbers: &[Option<Num>]) -> Option<Num>
    ensures { IsLeast (nonblank numbers.now) result }
{
    let mut least = None;
    for number in numbers {
        least = lesser(least, *number);
    }
    least
}

/// The greatest of the numbers that are not blank, and none where all are.
pub fn max(numbers: &[Option<Num>]) -> Option<Num>
    ensures { IsGreatest (nonblank numbers.now) result }
{
    let mut greatest = None;
    for number in numbers {
        greatest = greater(greatest, *number);
    }
    greatest
}

// How many numbers are not blank, and their exact sum.
fn count_and_total(numbers: &[Option<Num>]) -> (u64, i128)
    ensures { AreSummedUp (nonblank numbers.now) result.0 result.1 }
{
    let mut count = 0;
    let mut total = 0;
    for number in numbers {
        let (more, part) = count_and_units(*number);
        count += more;
        total += i128::from(part);
    }
    (count, total)
}

// The same of one number. A function, so that the loop adds plain numbers on its one way through.
fn count_and_units(number: Option<Num>) -> (u64, i64)
    ensures value { AreSummedUp (option_to_list number) result.0 result.1 }
    ensures single { result.0 ≤ 1 }
{
    match number {
        Some(number) => (1, number.units()),
        None => (0, 0),
    }
}

/// The quotient of a total, in ten-thousandths, by a count, rounded half away from zero.
pub fn quotient(total: i128, count: u64) -> Option<Num>
    requires count { 0 < count }
    requires low { neg_ℤ (pos (count * most)) ≤ℤ total }
    requires high { total ≤ℤ pos (count * most) }
    ensures { result ≡ Some (rounded total count) }
{
    let count = u128::from(count);
    let size = (2 * total.unsigned_abs() + count) / (2 * count);
    if total < 0 {
        number_of(-(size as i128))
    } else {
        number_of(size as i128)
    }
}

// The number of so many ten-thousandths, if it is in range.
fn number_of(units: i128) -> Option<Num>
    ensures { MatchOption result (¬ IsInRange units) (λ n. (n ≡ units) × IsInRange units) }
{
    match i64::try_from(units) {
        Ok(units) => Num::from_units(units),
        Err(_) => None,
    }
}

// The lesser of two numbers of which one or both may be missing.
fn lesser(a: Option<Num>, b: Option<Num>) -> Option<Num>
    ensures { (zs : List ℤ) → IsLeast zs a → IsLeast (zs ++ option_to_list b) result }
{
    let Some(x) = a else {
        return b;
    };
    let Some(y) = b else {
        return a;
    };
    if x.units() <= y.units() { a } else { b }
}

// The greater of two numbers of which one or both may be missing.
fn greater(a: Option<Num>, b: Option<Num>) -> Option<Num>
    ensures { (zs : List ℤ) → IsGreatest zs a → IsGreatest (zs ++ option_to_list b) result }
{
    let Some(x) = a else {
        return b;
    };
    let Some(y) = b else {
        return a;
    };
    if y.units() <= x.units() { a } else { b }
}
