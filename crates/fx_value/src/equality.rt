// Which values are equal.
ghost use Rattle.std.specs.Prelude.{◌≡◌, ◌↔◌, IsTrue};
ghost use Rattle.fx_types.specs.ValueView.{view};

use fx_types::faults::Fault;
use fx_types::values::{Fields, Rows, Value};

/// Whether two values are equal part for part, errors by their kind and their message.
#[cycle(same)]
pub fn same(a: &Value, b: &Value) -> bool
    ensures { IsTrue result ↔ (view a.now ≡ view b.now) }
{
    match (a, b) {
        (Value::Blank, Value::Blank) => true,
        (Value::Number(a), Value::Number(b)) => a.units() == b.units(),
        (Value::Text(a), Value::Text(b)) => a.is(b),
        (Value::Boolean(a), Value::Boolean(b)) => a == b,
        (Value::Date(a), Value::Date(b)) => a.days() == b.days(),
        (Value::Rec(a), Value::Rec(b)) => same_record(a, b),
        (Value::Tab(a), Value::Tab(b)) => same_table(a, b),
        (Value::Fault(a), Value::Fault(b)) => same_fault(a, b),
        _ => false,
    }
}

// Two errors.
fn same_fault(a: &Fault, b: &Fault) -> bool
    ensures { IsTrue result ↔ (a.now ≡ b.now) }
{
    a.kind == b.kind && a.message.is(&b.message)
}

// Two records.
#[cycle(same)]
fn same_record(a: &Fields, b: &Fields) -> bool
    ensures { IsTrue result ↔ (a.now ≡ b.now) }
{
    let xs = a.as_slice();
    let ys = b.as_slice();
    if xs.len() != ys.len() {
        return false;
    }
    for (i, (name, value)) in xs.iter().enumerate() {
        // By index: behind a `zip` the whole lists have no names in an invariant.
        let (other_name, other) = &ys[i];
        if !name.is(other_name) || !same(value, other) {
            return false;
        }
    }
    true
}

// Two tables.
#[cycle(same)]
fn same_table(a: &Rows, b: &Rows) -> bool
    ensures { IsTrue result ↔ (a.now ≡ b.now) }
{
    let xs = a.as_slice();
    let ys = b.as_slice();
    if xs.len() != ys.len() {
        return false;
    }
    for (i, row) in xs.iter().enumerate() {
        if !same_record(row, &ys[i]) {
            return false;
        }
    }
    true
}
