// How many conditions hold, and counts as numbers.
ghost use Rattle.std.specs.Prelude.{◌≡◌, ◌≤◌, ◌*ℤ◌, IfOk, MatchOption, length, map, pos, true};
ghost use Rattle.std.specs.Prelude.{if◌then◌else◌};
ghost use Rattle.std.specs.List.{filter as filter_of};
ghost use Rattle.fx_types.specs.Types.{numbers};
ghost use Rattle.fx_types.specs.ValueView.{view};
ghost use Rattle.fx_number.specs.Decimal.{IsInRange};
ghost use Rattle.fx_tables.specs.RowCalls.{IsCountIfOf, IsCountValue, holds as holds_in};
ghost use Rattle.fx_value.specs.Fits.{fits_in};

use crate::conditions::holds;
use crate::errors::{made_error, without_errors};
use fx_base::Memory;
use fx_number::Num;
use fx_types::faults::Kind;
use fx_types::values::Value;
use std::alloc::Global;

/// How many of the conditions hold. Where a condition is an error, the first one is the answer, and
/// `Numeric` exactly where the count is out of a number's range.
pub fn count_if(alloc: Global, conditions: Vec<Value>) -> Result<Value, Memory>
    ensures value { IfOk result (λ v. IsCountIfOf (map view conditions.items) (view v)) }
    ensures fits { IfOk result (λ v. fits_in (view v) numbers ≡ true) }
{
    match without_errors(conditions) {
        Ok(conditions) => count_value(alloc, count_of(conditions.as_slice())),
        Err(fault) => Ok(Value::Fault(fault)),
    }
}

fn count_of(conditions: &[Value]) -> usize
    ensures { result ≡ length (filter_of holds_in (map view conditions.now)) }
{
    let mut count = 0;
    for condition in conditions {
        count += count_one(condition);
    }
    count
}

fn count_one(condition: &Value) -> usize
    ensures value { result ≡ (if holds_in (view condition.now) then 1 else 0) }
    ensures bound { result ≤ 1 }
{
    if holds(condition) { 1 } else { 0 }
}

// A count as a number.
pub(crate) fn count_value(alloc: Global, count: usize) -> Result<Value, Memory>
    ensures value { IfOk result (λ v. IsCountValue count (view v)) }
    ensures fits { IfOk result (λ v. fits_in (view v) numbers ≡ true) }
{
    match number_of(count) {
        Some(number) => Ok(Value::Number(number)),
        None => made_error(alloc, Kind::Numeric),
    }
}

fn number_of(count: usize) -> Option<Num>
    ensures { MatchOption result (¬ IsInRange (pos count *ℤ pos 10000))
        (λ n. (n ≡ pos count *ℤ pos 10000) × IsInRange (pos count *ℤ pos 10000)) }
{
    match i64::try_from(count as i128 * 10_000) {
        Ok(units) => Num::from_units(units),
        Err(_) => None,
    }
}
