//! Values and types for the rows.
ghost use Rattle.std.specs.Prelude.{IfOk};
ghost use Rattle.fx_types.specs.ValueView.{view};
ghost use Rattle.fx_value.specs.Order.{IsScalar};

use fx_base::Memory;
use fx_number::Num;
use fx_types::{Day, Fields, Value, Words};
use std::alloc::Global;

/// A scalar, as the tables of rows have it: a number by its ten-thousandths, and a date by its days
/// since 1970-01-01.
#[derive(Clone, Copy)]
pub enum Scalar {
    Blank,
    Number(i64),
    Text(&'static str),
    Boolean(bool),
    Date(i32),
}

/// The value of a scalar; blank, where it is out of range.
pub fn value_of(alloc: Global, scalar: Scalar) -> Result<Value, Memory>
    ensures { IfOk result (λ v. IsScalar (view v)) }
{
    match scalar {
        Scalar::Blank => Ok(Value::Blank),
        Scalar::Number(units) => Ok(number(units)),
        Scalar::Text(text) => Ok(Value::Text(Words::of(alloc, text)?)),
        Scalar::Boolean(truth) => Ok(Value::Boolean(truth)),
        Scalar::Date(days) => Ok(date(days)),
    }
}

/// The number of so many ten-thousandths; blank, where it is out of range.
pub fn number(units: i64) -> Value
    ensures { IsScalar (view result) }
{
    match Num::from_units(units) {
        Some(number) => Value::Number(number),
        None => Value::Blank,
    }
}

// The date of so many days since 1970-01-01; blank, where it is out of range.
fn date(days: i32) -> Value
    ensures { IsScalar (view result) }
{
    match Day::of(days) {
        Some(day) => Value::Date(day),
        None => Value::Blank,
    }
}

/// A record of one field.
pub fn single(alloc: Global, name: &str, scalar: Scalar) -> Result<Fields, Memory> {
    let name = Words::of(alloc, name)?;
    let value = value_of(alloc, scalar)?;
    let mut fields = Fields::new(alloc);
    fields.push((name, value))?;
    Ok(fields)
}

/// A record of the fields A and B.
pub fn pair(alloc: Global, first: Value, second: Value) -> Result<Fields, Memory> {
    let mut fields = Fields::new(alloc);
    fields.push((Words::of(alloc, "A")?, first))?;
    fields.push((Words::of(alloc, "B")?, second))?;
    Ok(fields)
}
