// What the numbers that a formula gave come to.
ghost use Rattle.std.specs.Prelude.{◌≡◌, IfOk, map, true};
ghost use Rattle.fx_types.specs.Types.{numbers as number_type};
ghost use Rattle.fx_types.specs.ValueView.{view};
ghost use Rattle.fx_primitives.specs.Folds.{nonblank};
ghost use Rattle.fx_tables.specs.AggregateCalls.{IsGreatestOf, IsLeastOf, IsSumOf, IsSumValue};
ghost use Rattle.fx_tables.specs.AggregateCalls.{averaged, number_or_blank};
ghost use Rattle.fx_value.specs.Aggregates.{number_if_one, numbers_in};
ghost use Rattle.fx_value.specs.Fits.{fits_in};

use crate::errors::{made_error, without_errors};
use fx_base::Memory;
use fx_number::Num;
use fx_types::values::Value;
use std::alloc::{AllocError, Global};

/// The sum of the numbers, and blank where there is none. Where there is an error among the values,
/// the first one is the answer, and `Numeric` exactly where the sum of all is out of range.
pub fn sum(alloc: Global, values: Vec<Value>) -> Result<Value, Memory>
    ensures value { IfOk result (λ v. IsSumOf (map view values.items) (view v)) }
    ensures fits { IfOk result (λ v. fits_in (view v) number_type ≡ true) }
{
    match without_errors(values) {
        Ok(values) => {
            let numbers = numbers(alloc, values.as_slice())?;
            sum_of(alloc, numbers.as_slice())
        }
        Err(fault) => Ok(Value::Fault(fault)),
    }
}

/// The least of the numbers, and blank where there is none. Where there is an error among the
/// values, the first one is the answer.
pub fn min(alloc: Global, values: Vec<Value>) -> Result<Value, Memory>
    ensures value { IfOk result (λ v. IsLeastOf (map view values.items) (view v)) }
    ensures fits { IfOk result (λ v. fits_in (view v) number_type ≡ true) }
{
    match without_errors(values) {
        Ok(values) => {
            let numbers = numbers(alloc, values.as_slice())?;
            Ok(value_of(fx_primitives::min(numbers.as_slice())))
        }
        Err(fault) => Ok(Value::Fault(fault)),
    }
}

/// The greatest of the numbers, and blank where there is none. Where there is an error among the
/// values, the first one is the answer.
pub fn max(alloc: Global, values: Vec<Value>) -> Result<Value, Memory>
    ensures value { IfOk result (λ v. IsGreatestOf (map view values.items) (view v)) }
    ensures fits { IfOk result (λ v. fits_in (view v) number_type ≡ true) }
{
    match without_errors(values) {
        Ok(values) => {
            let numbers = numbers(alloc, values.as_slice())?;
            Ok(value_of(fx_primitives::max(numbers.as_slice())))
        }
        Err(fault) => Ok(Value::Fault(fault)),
    }
}

/// The exact sum of the numbers divided by how many there are, rounded once, half away from zero,
/// and blank where there is none. Where there is an error among the values, the first one is the
/// answer.
pub fn average(alloc: Global, values: Vec<Value>) -> Result<Value, Memory>
    ensures value { IfOk result (λ v. view v ≡ averaged (map view values.items)) }
    ensures fits { IfOk result (λ v. fits_in (view v) number_type ≡ true) }
{
    match without_errors(values) {
        Ok(values) => {
            let numbers = numbers(alloc, values.as_slice())?;
            Ok(value_of(fx_primitives::average(numbers.as_slice())))
        }
        Err(fault) => Ok(Value::Fault(fault)),
    }
}

fn sum_of(alloc: Global, numbers: &[Option<Num>]) -> Result<Value, Memory>
    ensures value { IfOk result (λ v. IsSumValue (nonblank numbers.now) (view v)) }
    ensures fits { IfOk result (λ v. fits_in (view v) number_type ≡ true) }
{
    match fx_primitives::sum(numbers) {
        Ok(sum) => Ok(value_of(sum)),
        Err(kind) => made_error(alloc, kind),
    }
}

// The numbers among values, and none for each other one.
fn numbers(alloc: Global, values: &[Value]) -> Result<Vec<Option<Num>>, Memory>
    ensures { IfOk result (λ n. nonblank n.items ≡ numbers_in (map view values.now)) }
{
    Ok(each_number(alloc, values)?)
}

fn each_number(alloc: Global, values: &[Value]) -> Result<Vec<Option<Num>>, AllocError>
    ensures { IfOk result (λ n. n.items ≡ map (λ v. number_if_one (view v)) values.now) }
{
    values.iter().map(|value| number(value)).collect(alloc)
}

fn number(value: &Value) -> Option<Num>
    ensures { result ≡ number_if_one (view value.now) }
{
    match value {
        Value::Number(number) => Some(*number),
        _ => None,
    }
}

fn value_of(number: Option<Num>) -> Value
    ensures value { view result ≡ number_or_blank number }
    ensures fits { fits_in (view result) number_type ≡ true }
{
    match number {
        Some(number) => Value::Number(number),
        None => Value::Blank,
    }
}
