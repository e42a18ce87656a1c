// What values weigh.
ghost use Rattle.std.specs.Prelude.{◌≡◌, ◌+◌, ◌-◌, ◌^◌, min};
ghost use Rattle.fx_types.specs.Values.{field_list, row_list};
ghost use Rattle.fx_types.specs.ValueView.{view};
ghost use Rattle.fx_value.specs.Weight.{bytes_in, weight_of, fields_weight, rows_weight};

use fx_types::values::{Fields, Rows, Value};
use fx_types::words::Words;

/// How much a value weighs, in bytes: 16 for each part, and the bytes of its texts and names. The
/// greatest `u64` stands for more.
#[cycle(weigh)]
pub fn weigh(v: &Value) -> u64
    ensures { result ≡ min (weight_of (view v.now)) (2 ^ 64 - 1) }
{
    match v {
        Value::Blank | Value::Number(_) | Value::Boolean(_) | Value::Date(_) => 16,
        Value::Text(text) => weigh_text(text),
        Value::Rec(fields) => weigh_fields(fields),
        Value::Tab(rows) => weigh_rows(rows),
        Value::Fault(fault) => weigh_text(&fault.message),
    }
}

// What a text or an error weighs.
fn weigh_text(text: &Words) -> u64
    ensures { result ≡ min (16 + bytes_in text.now) (2 ^ 64 - 1) }
{
    16u64.saturating_add(text.as_str().len() as u64)
}

// What a record or a row weighs.
#[cycle(weigh)]
fn weigh_fields(fields: &Fields) -> u64
    ensures { result ≡ min (16 + fields_weight (field_list fields.now)) (2 ^ 64 - 1) }
{
    let mut sum = 16u64;
    for (name, value) in fields.as_slice() {
        sum = sum
            .saturating_add(name.as_str().len() as u64)
            .saturating_add(weigh(value));
    }
    sum
}

#[cycle(weigh)]
fn weigh_rows(rows: &Rows) -> u64
    ensures { result ≡ min (16 + rows_weight (row_list rows.now)) (2 ^ 64 - 1) }
{
    let mut sum = 16u64;
    for row in rows.as_slice() {
        sum = sum.saturating_add(weigh_fields(row));
    }
    sum
}
