// The texts that a formula gave, joined.
ghost use Rattle.std.specs.Prelude.{◌≡◌, ◌++◌, ◌∷◌, [], IfOk, List, OnOk, map, true, ℕ};
ghost use Rattle.fx_types.specs.Types.{texts as text_type};
ghost use Rattle.fx_types.specs.ValueView.{view};
ghost use Rattle.fx_tables.specs.AggregateCalls.{characters_in, concatenated_by, made_value};
ghost use Rattle.fx_tables.specs.AggregateCalls.{separated};
ghost use Rattle.fx_primitives.specs.Texts.{text_or_quota as made_of, joined};
ghost use Rattle.fx_value.specs.Fits.{fits_in};

use crate::errors::{made_error, without_errors};
use fx_base::Memory;
use fx_primitives::concatenate;
use fx_types::values::Value;
use fx_types::words::Words;
use std::alloc::Global;

/// The texts joined in row order, with the separator between each two; a blank text or separator is
/// empty. Where there is an error among the values, the first one is the answer, else one in place
/// of the separator, and `QuotaExceeded` exactly where the joined text has more than 65,536 bytes.
pub fn concat(alloc: Global, values: Vec<Value>, separator: Value) -> Result<Value, Memory>
    ensures value { IfOk result (λ v. view v
        ≡ concatenated_by (view separator) (map view values.items)) }
    ensures fits { IfOk result (λ v. fits_in (view v) text_type ≡ true) }
{
    let values = match without_errors(values) {
        Ok(values) => values,
        Err(fault) => return Ok(Value::Fault(fault)),
    };
    match separator {
        Value::Fault(fault) => Ok(Value::Fault(fault)),
        separator => joined_value(alloc, values.as_slice(), &text_in(alloc, &separator)?),
    }
}

fn joined_value(alloc: Global, values: &[Value], separator: &Words) -> Result<Value, Memory>
    ensures value { IfOk result (λ v. view v ≡ made_value (made_of (joined
        (separated separator.now (map characters_in (map view values.now)))))) }
    ensures fits { IfOk result (λ v. fits_in (view v) text_type ≡ true) }
{
    let parts = parts(alloc, values, separator)?;
    match concatenate(alloc, parts.as_slice())? {
        Ok(text) => Ok(Value::Text(text)),
        Err(kind) => made_error(alloc, kind),
    }
}

// The texts, with the separator between each two.
fn parts(alloc: Global, values: &[Value], separator: &Words) -> Result<Vec<Words>, Memory>
    ensures { IfOk result (λ p. p.items
        ≡ separated separator.now (map characters_in (map view values.now))) }
{
    let mut parts = Vec::new(alloc);
    for value in values {
        push_part(alloc, &mut parts, separator, value)?;
    }
    Ok(parts)
}

// One more text, after a separator unless it is the first.
fn push_part(
    alloc: Global,
    parts: &mut Vec<Words>,
    separator: &Words,
    value: &Value,
) -> Result<(), Memory>
    ensures { (ts : List (List ℕ)) → parts.old.items ≡ separated separator.now ts
        → OnOk result (parts.new.items
        ≡ separated separator.now (ts ++ characters_in (view value.now) ∷ [])) }
{
    let text = text_in(alloc, value)?;
    if parts.as_slice().is_empty() {
        parts.push(text)?;
        return Ok(());
    }
    parts.push(separator.copy(alloc)?)?;
    parts.push(text)?;
    Ok(())
}

fn text_in(alloc: Global, value: &Value) -> Result<Words, Memory>
    ensures { IfOk result (λ w. w ≡ characters_in (view value.now)) }
{
    match value {
        Value::Text(text) => text.copy(alloc),
        _ => Words::of(alloc, ""),
    }
}
