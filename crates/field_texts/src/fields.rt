// Fields of values, and values of fields.
ghost use Rattle.std.specs.Prelude.{◌≡◌, IfOk, option_map, string_bytes};
ghost use Rattle.fx_types.specs.TypeView.{shape};
ghost use Rattle.fx_types.specs.ValueView.{view};
ghost use Rattle.field_texts.specs.Fields.{field_of, spelled_in, value_of};

use crate::spelled::{spelled_day, spelled_number, spelled_truth};
use fx_base::Memory;
use fx_types::{Ty, Value, Words, date_text};
use std::alloc::Global;

/// The field of a value: blank is empty, a text is itself, a number its text, a truth value `true`
/// or `false`, a day `yyyy-mm-dd`. Of records, tables and errors, which no column has, it is empty.
pub fn field_text(alloc: Global, value: &Value) -> Result<String, Memory>
    ensures { IfOk result (λ s. string_bytes s ≡ field_of (view value.now)) }
{
    match value {
        Value::Number(number) => fx_number::text(alloc, *number),
        Value::Text(text) => Ok(String::from_str(alloc, text.as_str())?),
        Value::Boolean(true) => Ok(String::from_str(alloc, "true")?),
        Value::Boolean(false) => Ok(String::from_str(alloc, "false")?),
        Value::Date(day) => date_text(alloc, *day),
        Value::Blank | Value::Rec(_) | Value::Tab(_) | Value::Fault(_) => Ok(String::new(alloc)),
    }
}

/// The value that a field spells in a column of a type: blank where it is empty, and else what it
/// spells of that type. None where it spells no value of the type.
pub fn field_value(alloc: Global, ty: &Ty, field: &str) -> Result<Option<Value>, Memory>
    ensures { IfOk result (λ v. option_map view v ≡ value_of (shape ty.now) field.now) }
{
    if field.is_empty() {
        return Ok(Some(Value::Blank));
    }
    spelled_value(alloc, ty, field)
}

// What a field that isn't empty spells.
fn spelled_value(alloc: Global, ty: &Ty, field: &str) -> Result<Option<Value>, Memory>
    ensures { IfOk result (λ v. option_map view v ≡ spelled_in (shape ty.now) field.now) }
{
    match ty {
        Ty::Number => Ok(spelled_number(field).map(Value::Number)),
        Ty::Text => Ok(Some(Value::Text(Words::of(alloc, field)?))),
        Ty::Boolean => Ok(spelled_truth(field).map(Value::Boolean)),
        Ty::Date => Ok(spelled_day(field).map(Value::Date)),
        Ty::Blank | Ty::Rec(_) | Ty::Tab(_) => Ok(None),
    }
}
