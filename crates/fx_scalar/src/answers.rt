//! Answers as values. An error that a function makes has no message.
ghost use Rattle.std.specs.Prelude.{◌≡◌, IfOk, pos, ◌*ℤ◌, []};
ghost use Rattle.fx_number.specs.Decimal.{Checked};
ghost use Rattle.fx_types.specs.ValueView.{view};
ghost use Rattle.fx_types.specs.Values.{fault as fault_data};
ghost use Rattle.fx_scalar.specs.Answers.{IsPosition, IsWholeNumber, date_answer, maybe_answer};
ghost use Rattle.fx_scalar.specs.Answers.{number_answer, text_answer};

use crate::arguments::no_text;
use fx_base::Memory;
use fx_number::{Num, NumErr};
use fx_primitives::with_kind;
use fx_types::{Day, Fault, Kind, Value, Words};
use std::alloc::Global;

/// The value of an error without a message.
pub(crate) fn error(alloc: Global, kind: Kind) -> Result<Value, Memory>
    ensures { IfOk result (λ v. view v ≡ fault_data kind []) }
{
    Ok(Value::Fault(Fault {
        kind,
        message: no_text(alloc)?,
    }))
}

/// The value of a number, or of its error.
pub(crate) fn number(alloc: Global, answer: Result<Num, Kind>) -> Result<Value, Memory>
    ensures { IfOk result (λ v. view v ≡ number_answer answer) }
{
    match answer {
        Ok(number) => Ok(Value::Number(number)),
        Err(kind) => error(alloc, kind),
    }
}

/// The value of a number or none, or of its error.
pub(crate) fn maybe(alloc: Global, answer: Result<Option<Num>, Kind>) -> Result<Value, Memory>
    ensures { IfOk result (λ v. view v ≡ maybe_answer answer) }
{
    match answer {
        Ok(Some(number)) => Ok(Value::Number(number)),
        Ok(None) => Ok(Value::Blank),
        Err(kind) => error(alloc, kind),
    }
}

/// The value of a text, or of its error.
pub(crate) fn text(alloc: Global, answer: Result<Words, Kind>) -> Result<Value, Memory>
    ensures { IfOk result (λ v. view v ≡ text_answer answer) }
{
    match answer {
        Ok(text) => Ok(Value::Text(text)),
        Err(kind) => error(alloc, kind),
    }
}

/// The value of a day, or of its error.
pub(crate) fn date(alloc: Global, answer: Result<Day, Kind>) -> Result<Value, Memory>
    ensures { IfOk result (λ v. view v ≡ date_answer answer) }
{
    match answer {
        Ok(day) => Ok(Value::Date(day)),
        Err(kind) => error(alloc, kind),
    }
}

/// The value of a whole number: `Numeric` exactly where it is out of range.
pub(crate) fn whole(alloc: Global, whole: i128) -> Result<Value, Memory>
    ensures { IfOk result (λ v. IsWholeNumber whole (view v)) }
{
    number(alloc, with_kind(whole_number(whole)))
}

fn whole_number(whole: i128) -> Result<Num, NumErr>
    ensures { Checked (whole *ℤ pos 10000) result }
{
    match whole.checked_mul(10_000) {
        Some(units) => match i64::try_from(units) {
            Ok(units) => Num::from_units(units).ok_or(NumErr::Overflow),
            Err(_) => Err(NumErr::Overflow),
        },
        None => Err(NumErr::Overflow),
    }
}

/// The value of a position or none, or of its error.
pub(crate) fn position(alloc: Global, answer: Result<Option<usize>, Kind>) -> Result<Value, Memory>
    ensures { IfOk result (λ v. IsPosition answer (view v)) }
{
    match answer {
        Ok(Some(position)) => count(alloc, position),
        Ok(None) => Ok(Value::Blank),
        Err(kind) => error(alloc, kind),
    }
}

/// The value of a count.
pub(crate) fn count(alloc: Global, count: usize) -> Result<Value, Memory>
    ensures { IfOk result (λ v. IsWholeNumber (pos count) (view v)) }
{
    whole(alloc, count as i128)
}
