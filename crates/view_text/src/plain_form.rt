//! The plain form of values.

ghost use Rattle.std.specs.Prelude.{◌≡◌, ◌++◌, ◌∷◌, [], IfOk, OnOk, string_bytes, false};
ghost use Rattle.std.specs.Prelude.{encode_utf8_all};
ghost use Rattle.fx_types.specs.Values.{field_list, row_list};
ghost use Rattle.fx_types.specs.ValueView.{view};
ghost use Rattle.view_text.specs.PlainText.{comma_if, double_quote_doubled, error_text};
ghost use Rattle.view_text.specs.PlainText.{fields_text, plain_text, quoted_text, rows_text};

use fx_base::Memory;
use fx_types::{Fields, Kind, Rows, Value, Words, date_text};
use std::alloc::Global;

/// The plain form of a value, as `{A: 1, B: "x"}`.
pub fn plain(alloc: Global, value: &Value) -> Result<String, Memory>
    ensures { IfOk result (λ s. string_bytes s ≡ plain_text (view value.now)) }
{
    let mut out = String::new(alloc);
    write_value(alloc, &mut out, value)?;
    Ok(out)
}

#[cycle(plain)]
fn write_value(alloc: Global, out: &mut String, value: &Value) -> Result<(), Memory>
    ensures { OnOk result (string_bytes out.new
        ≡ string_bytes out.old ++ plain_text (view value.now)) }
{
    match value {
        Value::Blank => Ok(out.push_str("Blank()")?),
        Value::Number(number) => {
            let text = fx_number::text(alloc, *number)?;
            Ok(out.push_str(text.as_str())?)
        }
        Value::Text(text) => write_quoted(out, text),
        Value::Boolean(truth) => Ok(out.push_str(if *truth { "true" } else { "false" })?),
        Value::Date(day) => {
            let text = date_text(alloc, *day)?;
            Ok(out.push_str(text.as_str())?)
        }
        Value::Rec(fields) => write_record(alloc, out, fields),
        Value::Tab(rows) => write_table(alloc, out, rows),
        Value::Fault(fault) => write_kind(out, fault.kind),
    }
}

#[cycle(plain)]
fn write_record(alloc: Global, out: &mut String, fields: &Fields) -> Result<(), Memory>
    ensures { OnOk result (string_bytes out.new
        ≡ string_bytes out.old ++ (123 ∷ fields_text false (field_list fields.now))) }
{
    let items = fields.as_slice();
    out.push('{')?;
    for (i, (name, value)) in items.iter().enumerate() {
        write_comma(out, i > 0)?;
        out.push_str(name.as_str())?;
        out.push_str(": ")?;
        write_value(alloc, out, value)?;
    }
    Ok(out.push('}')?)
}

#[cycle(plain)]
fn write_table(alloc: Global, out: &mut String, rows: &Rows) -> Result<(), Memory>
    ensures { OnOk result (string_bytes out.new
        ≡ string_bytes out.old ++ (91 ∷ rows_text false (row_list rows.now))) }
{
    let items = rows.as_slice();
    out.push('[')?;
    for (i, row) in items.iter().enumerate() {
        write_comma(out, i > 0)?;
        write_record(alloc, out, row)?;
    }
    Ok(out.push(']')?)
}

// What stands before a part, where another part stands before it. A function, since an `if` that
// writes would part the proof of each loop in two.
fn write_comma(out: &mut String, later: bool) -> Result<(), Memory>
    ensures { OnOk result (string_bytes out.new ≡ string_bytes out.old ++ comma_if later) }
{
    if later {
        out.push_str(", ")?;
    }
    Ok(())
}

// A text between quotes.
fn write_quoted(out: &mut String, text: &Words) -> Result<(), Memory>
    ensures { OnOk result (string_bytes out.new ≡ string_bytes out.old ++ quoted_text text.now) }
{
    out.push('"')?;
    for c in text.as_str().chars() {
        write_doubled(out, c)?;
    }
    Ok(out.push('"')?)
}

// A character of a text, and a quote twice.
fn write_doubled(out: &mut String, c: char) -> Result<(), Memory>
    ensures { OnOk result (string_bytes out.new
        ≡ string_bytes out.old ++ encode_utf8_all (double_quote_doubled c)) }
{
    if c == '"' {
        out.push('"')?;
    }
    Ok(out.push(c)?)
}

fn write_kind(out: &mut String, kind: Kind) -> Result<(), Memory>
    ensures { OnOk result (string_bytes out.new ≡ string_bytes out.old ++ error_text kind) }
{
    out.push_str("Error(")?;
    out.push_str(kind.name())?;
    Ok(out.push(')')?)
}
