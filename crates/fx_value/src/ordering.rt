// The order of scalars.
ghost use Rattle.std.specs.Prelude.{◌≡◌};
ghost use Rattle.std.specs.Cmp.{IsTotalOrder};
ghost use Rattle.fx_types.specs.ValueView.{view};
ghost use Rattle.fx_value.specs.Order.{order, rank_of, OrderTells};

use fx_types::values::Value;
use std::cmp::Ordering;

/// The order of sorting: blank first, and scalars of one type by their values. So that it is an
/// order of all values, scalars of different types go by their types, and records, tables and
/// errors come last as if they were one.
pub fn compare(a: &Value, b: &Value) -> Ordering
    ensures { result ≡ order (view a.now) (view b.now) }
{
    match (a, b) {
        (Value::Number(a), Value::Number(b)) => a.units().cmp(&b.units()),
        (Value::Text(a), Value::Text(b)) => a.compare(b),
        (Value::Boolean(a), Value::Boolean(b)) => a.cmp(b),
        (Value::Date(a), Value::Date(b)) => a.days().cmp(&b.days()),
        _ => rank(a).cmp(&rank(b)),
    }
}

// The place of a value's type among all types.
fn rank(v: &Value) -> u8
    ensures { result ≡ rank_of (view v.now) }
{
    match v {
        Value::Blank => 0,
        Value::Number(_) => 1,
        Value::Text(_) => 2,
        Value::Boolean(_) => 3,
        Value::Date(_) => 4,
        Value::Rec(_) | Value::Tab(_) | Value::Fault(_) => 5,
    }
}

/// A law, and no work: `compare` is a total order, which tells scalars apart wherever they differ.
pub fn compare_is_total()
    ensures total { IsTotalOrder order }
    ensures tells { OrderTells }
{}
