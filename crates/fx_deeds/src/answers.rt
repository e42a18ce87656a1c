//! What deeds answer.
ghost use Rattle.std.specs.Prelude.{◌≡◌, [], IfOk, map, option_map};
ghost use Rattle.std.specs.List.{find};
ghost use Rattle.fx_types.specs.ValueView.{view};
ghost use Rattle.fx_types.specs.Values.{fault as fault_data};
ghost use Rattle.fx_tables.specs.Unions.{is_fault};
ghost use Rattle.fx_deeds.specs.RowValues.{value_if_taken as value_or};

use fx_base::Memory;
use fx_types::{Fault, Kind, Value, Words};
use std::alloc::Global;

/// An error without a message.
pub(crate) fn error(alloc: Global, kind: Kind) -> Result<Value, Memory>
    ensures { IfOk result (λ v. view v ≡ fault_data kind []) }
{
    let message = Words::of(alloc, "")?;
    Ok(Value::Fault(Fault { kind, message }))
}

/// A value where a change was made, and else the error that it is too much.
pub(crate) fn taken_or(alloc: Global, done: bool, taken: Value) -> Result<Value, Memory>
    ensures { IfOk result (λ v. view v ≡ value_or done (view taken)) }
{
    if done {
        Ok(taken)
    } else {
        error(alloc, Kind::QuotaExceeded)
    }
}

/// The first error among values.
pub(crate) fn first_error(alloc: Global, values: &[Value]) -> Result<Option<Value>, Memory>
    ensures { IfOk result (λ e. option_map view e ≡ find is_fault (map view values.now)) }
{
    let mut rest = values;
    while let Some((value, others)) = rest.split_first() {
        if let Value::Fault(fault) = value {
            return Ok(Some(Value::Fault(fault.copy(alloc)?)));
        }
        rest = others;
    }
    Ok(None)
}
