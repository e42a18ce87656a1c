//! Errors as records, and the errors that records tell.
ghost use Rattle.std.specs.Prelude.{◌≡◌, IfOk};
ghost use Rattle.fx_types.specs.Types.{texts};
ghost use Rattle.fx_types.specs.ValueView.{view};
ghost use Rattle.fx_types.specs.Values.{field_list, rec};
ghost use Rattle.fx_core.specs.declared.functions.Fun.TheVariants as fun;
ghost use Rattle.fx_value.specs.Coercion.{IsCoerced, field_or_blank};
ghost use Rattle.fx_scalar.specs.Arguments.{text_in, views};
ghost use Rattle.fx_scalar.specs.Errors.{IsErrorOf, fault_record, error_of as error_value};
ghost use Rattle.fx_scalar.specs.Errors.{error_kind_named};
ghost use Rattle.fx_scalar.specs.ScalarFunctions.{IsResult};

use crate::arguments::{at, text};
use fx_base::Memory;
use fx_types::{Fault, Fields, Kind, Ty, Value, Words};
use fx_value::coerce;
use std::alloc::Global;

// The error that a record tells. A blank one tells neither kind nor message.
pub(crate) fn error(alloc: Global, args: &[Value]) -> Result<Value, Memory>
    ensures { IfOk result (λ v. IsResult fun.Error (views args.now) (view v)) }
{
    match at(args, 0) {
        Some(Value::Rec(fields)) => error_of_fields(alloc, fields),
        _ => error_of(alloc, &Value::Blank, &Value::Blank),
    }
}

// The error that the fields of a record tell. Those but Kind and Message are ignored.
fn error_of_fields(alloc: Global, fields: &Fields) -> Result<Value, Memory>
    ensures { IfOk result (λ v. IsErrorOf (rec (field_list fields.now)) (view v)) }
{
    let kind = field_text(alloc, fields, &Words::of(alloc, "Kind")?)?;
    let message = field_text(alloc, fields, &Words::of(alloc, "Message")?)?;
    error_of(alloc, &kind, &message)
}

// A field as a text, which is blank where there is none of this name.
fn field_text(alloc: Global, fields: &Fields, name: &Words) -> Result<Value, Memory>
    ensures { IfOk result (λ v. IsCoerced (field_or_blank name.now (field_list fields.now)) texts
        (view v)) }
{
    match fields.value(name) {
        Some(value) => as_text(alloc, value),
        None => Ok(Value::Blank),
    }
}

// A value as a text; records and tables stay.
fn as_text(alloc: Global, value: &Value) -> Result<Value, Memory>
    ensures { IfOk result (λ v. IsCoerced (view value.now) texts (view v)) }
{
    match value {
        Value::Rec(_) | Value::Tab(_) => value.copy(alloc),
        _ => coerce(alloc, value.copy(alloc)?, &Ty::Text),
    }
}

// The error of a kind and a message, as texts: `Custom` where no kind has that name, and else the
// error that the kind or the message is.
fn error_of(alloc: Global, kind: &Value, message: &Value) -> Result<Value, Memory>
    ensures { IfOk result (λ v. view v ≡ error_value (view kind.now) (view message.now)) }
{
    match (kind, message) {
        (Value::Fault(fault), _) => Ok(Value::Fault(fault.copy(alloc)?)),
        (_, Value::Fault(fault)) => Ok(Value::Fault(fault.copy(alloc)?)),
        _ => Ok(Value::Fault(Fault {
            kind: kind_of(&text(alloc, kind)?),
            message: text(alloc, message)?,
        })),
    }
}

fn kind_of(name: &Words) -> Kind
    ensures { result ≡ error_kind_named name.now }
{
    fx_core::literals::error_kind(name.as_str()).unwrap_or(Kind::Custom)
}

/// An error as a record of its kind's name and its message, which is what `FirstError` is worth.
pub fn error_record(alloc: Global, fault: &Fault) -> Result<Value, Memory>
    ensures { IfOk result (λ v. view v ≡ fault_record fault.now.kind fault.now.message) }
{
    let mut fields = Fields::new(alloc);
    let kind = Words::of(alloc, fault.kind.name())?;
    fields.push((Words::of(alloc, "Kind")?, Value::Text(kind)))?;
    let message = fault.message.copy(alloc)?;
    fields.push((Words::of(alloc, "Message")?, Value::Text(message)))?;
    Ok(Value::Rec(fields))
}
