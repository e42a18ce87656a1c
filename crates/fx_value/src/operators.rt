// The operators that compare.
ghost use Rattle.std.specs.Prelude.{◌≡◌};
ghost use Rattle.fx_types.specs.ValueView.{view};
ghost use Rattle.fx_value.specs.Operators.{holds_of, compared_by, takes as takes_of};
ghost use Rattle.fx_value.specs.Operators.{sides as sides_of, CanCompare};

use crate::ordering::compare;
use fx_types::comparisons::Cmp;
use fx_types::values::Value;
use std::cmp::Ordering;

/// Whether an operator holds of two scalars of one type or blank: `=` and `<>` of any, and
/// `< <= > >=` of numbers and dates. Blank equals blank alone. In the other four it is 0 beside a
/// number or blank, and beside a date they are false.
pub fn holds(op: Cmp, a: &Value, b: &Value) -> bool
    requires { CanCompare op (view a.now) (view b.now) }
    ensures { result ≡ holds_of op (view a.now) (view b.now) }
{
    match compare_scalars(op, a, b) {
        Some(order) => takes(op, order),
        None => false,
    }
}

// Whether an operator takes scalars that compare so.
fn takes(op: Cmp, order: Ordering) -> bool
    ensures { result ≡ takes_of op order }
{
    match op {
        Cmp::Eq => order.is_eq(),
        Cmp::Ne => order.is_ne(),
        Cmp::Lt => order.is_lt(),
        Cmp::Le => order.is_le(),
        Cmp::Gt => order.is_gt(),
        Cmp::Ge => order.is_ge(),
    }
}

// How two scalars compare under an operator, if they do.
fn compare_scalars(op: Cmp, a: &Value, b: &Value) -> Option<Ordering>
    ensures { result ≡ compared_by op (view a.now) (view b.now) }
{
    match op {
        Cmp::Eq | Cmp::Ne => Some(compare(a, b)),
        Cmp::Lt | Cmp::Le | Cmp::Gt | Cmp::Ge => sides(a, b),
    }
}

// How the two sides of `< <= > >=` compare, if they do.
fn sides(a: &Value, b: &Value) -> Option<Ordering>
    ensures { result ≡ sides_of (view a.now) (view b.now) }
{
    match (a, b) {
        (Value::Blank, Value::Blank) => Some(Ordering::Equal),
        (Value::Blank, Value::Number(b)) => Some(0.cmp(&b.units())),
        (Value::Number(a), Value::Blank) => Some(a.units().cmp(&0)),
        (Value::Number(a), Value::Number(b)) => Some(a.units().cmp(&b.units())),
        (Value::Date(a), Value::Date(b)) => Some(a.days().cmp(&b.days())),
        _ => None,
    }
}
