// Coercions.
ghost use Rattle.std.specs.Prelude.{◌≡◌, IfOk, true, not, ℤ, List, ℕ, pos, codes, encode_utf8_all};
ghost use Rattle.std.specs.Prelude.{if◌then◌else◌};
ghost use Rattle.std.specs.Ordering.{int_eq};
ghost use Rattle.fx_types.specs.DateText.{date_text as date_text_of};
ghost use Rattle.fx_types.specs.TypeView.{shape};
ghost use Rattle.fx_types.specs.Types.{blanks, numbers, texts, booleans};
ghost use Rattle.fx_types.specs.ValueView.{view};
ghost use Rattle.fx_types.specs.Words.{scalars_of};
ghost use Rattle.fx_number.specs.Spelling.{text_of};
ghost use Rattle.fx_value.specs.Coercion.{CanCoerce, IsCoerced, IsReadAs, JoinTakesBoth};
ghost use Rattle.fx_value.specs.Coercion.{are_spaces};
ghost use Rattle.fx_value.specs.Fits.{fits_in};

use crate::widening::widen;
use fx_base::Memory;
use fx_number::Num;
use fx_types::days::Day;
use fx_types::faults::{Fault, Kind};
use fx_types::types::Ty;
use fx_types::values::Value;
use fx_types::words::Words;
use std::alloc::Global;

/// The value as one of another type, for a pair of types that has a coercion. Blank and errors stay
/// as they are, and other values become blank as ones of type Blank. Numbers and dates become texts
/// and are 0 or not as Booleans, Booleans are `true` and `false` or 1 and 0, and a text is read as
/// a number, where one that spells none is an InvalidArgument. Records and tables are widened.
pub fn coerce(alloc: Global, v: Value, to: &Ty) -> Result<Value, Memory>
    requires { CanCoerce (view v) (shape to.now) }
    ensures value { IfOk result (λ w. IsCoerced (view v) (shape to.now) (view w)) }
    ensures fits { IfOk result (λ w. fits_in (view w) (shape to.now) ≡ true) }
{
    match to {
        Ty::Blank => Ok(to_blank(v)),
        Ty::Number => to_number(alloc, v),
        Ty::Text => to_text(alloc, v),
        Ty::Boolean => Ok(to_boolean(v)),
        _ => widen(alloc, v, to),
    }
}

/// A law, and no work: a value of either of two types can be coerced to their join.
pub fn join_takes_both()
    ensures { JoinTakesBoth }
{}

fn to_blank(v: Value) -> Value
    ensures value { IsCoerced (view v) blanks (view result) }
    ensures fits { fits_in (view result) blanks ≡ true }
{
    match v {
        Value::Fault(fault) => Value::Fault(fault),
        _ => Value::Blank,
    }
}

fn to_number(alloc: Global, v: Value) -> Result<Value, Memory>
    requires { CanCoerce (view v) numbers }
    ensures value { IfOk result (λ w. IsCoerced (view v) numbers (view w)) }
    ensures fits { IfOk result (λ w. fits_in (view w) numbers ≡ true) }
{
    match v {
        Value::Boolean(truth) => Ok(Value::Number(bit(truth))),
        Value::Text(text) => read_number(alloc, &text),
        other => Ok(other),
    }
}

fn to_text(alloc: Global, v: Value) -> Result<Value, Memory>
    requires { CanCoerce (view v) texts }
    ensures value { IfOk result (λ w. IsCoerced (view v) texts (view w)) }
    ensures fits { IfOk result (λ w. fits_in (view w) texts ≡ true) }
{
    match v {
        Value::Number(number) => Ok(Value::Text(number_text(alloc, number)?)),
        Value::Boolean(truth) => Ok(Value::Text(truth_text(alloc, truth)?)),
        Value::Date(day) => Ok(Value::Text(date_text(alloc, day)?)),
        other => Ok(other),
    }
}

fn to_boolean(v: Value) -> Value
    requires { CanCoerce (view v) booleans }
    ensures value { IsCoerced (view v) booleans (view result) }
    ensures fits { fits_in (view result) booleans ≡ true }
{
    match v {
        Value::Number(number) => Value::Boolean(is_nonzero(number)),
        other => other,
    }
}

fn is_nonzero(number: Num) -> bool
    ensures { result ≡ not (int_eq number (pos 0)) }
{
    number.units() != 0
}

// 1 or 0, in ten-thousandths.
fn bit(truth: bool) -> Num
    ensures { result ≡ (if truth then pos 10000 else pos 0) }
{
    let units = if truth { 10_000 } else { 0 };
    match Num::from_units(units) {
        Some(number) => number,
        None => unreachable!(),
    }
}

fn truth_text(alloc: Global, truth: bool) -> Result<Words, Memory>
    ensures { IfOk result
        (λ w. w ≡ scalars_of (if truth then codes "true" else codes "false")) }
{
    if truth {
        Words::of(alloc, "true")
    } else {
        Words::of(alloc, "false")
    }
}

fn number_text(alloc: Global, number: Num) -> Result<Words, Memory>
    ensures { IfOk result (λ w. w ≡ scalars_of (text_of number)) }
{
    let text = fx_number::text(alloc, number)?;
    Words::of(alloc, text.as_str())
}

// A day as `yyyy-mm-dd`.
fn date_text(alloc: Global, day: Day) -> Result<Words, Memory>
    ensures { IfOk result (λ w. w ≡ scalars_of (date_text_of day)) }
{
    let text = fx_types::date_text(alloc, day)?;
    Words::of(alloc, text.as_str())
}

// What a text is read as: blank where it has spaces alone.
fn read_number(alloc: Global, text: &Words) -> Result<Value, Memory>
    ensures value { IfOk result (λ w. IsReadAs (encode_utf8_all text.now) (view w)) }
    ensures fits { IfOk result (λ w. fits_in (view w) numbers ≡ true) }
{
    let text = text.as_str();
    if has_only_spaces(text.as_bytes()) {
        return Ok(Value::Blank);
    }
    match fx_number::read(text) {
        Some(number) => Ok(Value::Number(number)),
        None => Ok(Value::Fault(Fault {
            kind: Kind::InvalidArgument,
            message: Words::of(alloc, "")?,
        })),
    }
}

fn has_only_spaces(bytes: &[u8]) -> bool
    ensures { result ≡ are_spaces bytes.now }
{
    bytes.iter().all(|byte| *byte == b' ')
}
