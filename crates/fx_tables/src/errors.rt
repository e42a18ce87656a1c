// The first error of values.
ghost use Rattle.std.specs.Prelude.{◌≡◌, ◌<◌, [], IfOk, MatchOption, MatchResult, length, map};
ghost use Rattle.std.specs.Prelude.{None, Some, slice_index_or};
ghost use Rattle.std.specs.List.{find};
ghost use Rattle.fx_types.specs.Values.{fault};
ghost use Rattle.fx_types.specs.ValueView.{view};
ghost use Rattle.fx_tables.specs.Unions.{is_fault};

use fx_base::Memory;
use fx_types::faults::{Fault, Kind};
use fx_types::values::Value;
use fx_types::words::Words;
use std::alloc::Global;

// These values where none is an error, or the first error among them.
pub(crate) fn without_errors(values: Vec<Value>) -> Result<Vec<Value>, Fault>
    ensures { MatchResult result
        (λ vs. (vs.items ≡ values.items) × (find is_fault (map view values.items) ≡ None))
        (λ f. find is_fault (map view values.items) ≡ Some (fault f.kind f.message)) }
{
    let mut values = values;
    match place_of_error(values.as_slice()) {
        None => Ok(values),
        // The others are let go, so that their order doesn't matter.
        Some(place) => match values.swap_remove(place) {
            Value::Fault(fault) => Err(fault),
            _ => unreachable!(),
        },
    }
}

// Where the first error stands.
fn place_of_error(values: &[Value]) -> Option<usize>
    ensures { MatchOption result (find is_fault (map view values.now) ≡ None)
        (λ place. (place < length values.now)
        × ((v : Value) → v ≡ slice_index_or values.now place v
        → find is_fault (map view values.now) ≡ Some (view v))) }
{
    for (place, value) in values.iter().enumerate() {
        if is_error(value) {
            return Some(place);
        }
    }
    None
}

fn is_error(value: &Value) -> bool
    ensures { result ≡ is_fault (view value.now) }
{
    matches!(value, Value::Fault(_))
}

// An error that a call makes, which has no message.
pub(crate) fn made_error(alloc: Global, kind: Kind) -> Result<Value, Memory>
    ensures { IfOk result (λ v. view v ≡ fault kind []) }
{
    let message = Words::of(alloc, "")?;
    Ok(Value::Fault(Fault { kind, message }))
}
