// The lines of batches.
ghost use Rattle.std.specs.Prelude.{◌≡◌, ◌==◌, [], map};
ghost use Rattle.std.specs.List.{list_any, position};
ghost use Rattle.csv.specs.Records.{fields_of};
ghost use Rattle.fx_types.specs.ValueView.{view};
ghost use Rattle.row_queries.specs.TableRows.{value_at};
ghost use Rattle.row_files.specs.Batches.{cell_of, cells_of, column_at, has_key as has_key_of};
ghost use Rattle.row_files.specs.Batches.{is_blank as is_blank_data};
ghost use Rattle.row_files.specs.Batches.{key_place as key_place_of, key_rule as key_rule_of};
ghost use Rattle.row_files.specs.Batches.{line_of, lines_of};
ghost use Rattle.row_files.specs.Ends.{Gives, GivesValue};

use crate::ends::{BatchEnd, ImportRule, refusal, refusal_of_record};
use crate::headers::{column_of, refusal_at};
use crate::records::field_at;
use csv::StringRecord;
use field_texts::field_value;
use fx_base::InOrder;
use fx_core::Column;
use fx_types::Value;
use fx_value::ordering::compare;
use row_queries::Cells;
use std::alloc::Global;
use std::cmp::Ordering;

// The value of a field in the column of a number.
fn read_cell(
    alloc: Global,
    columns: &[Column],
    number: u16,
    at: usize,
    field: &str,
) -> Result<Value, BatchEnd>
    ensures { GivesValue (cell_of (column_at columns.now number) at field.now) result }
{
    let Some(column) = column_of(columns, number) else {
        return Err(refusal_of_record(alloc, at, ImportRule::Kind));
    };
    match field_value(alloc, &column.ty, field)? {
        Some(value) => Ok(value),
        None => Err(refusal(alloc, at, &column.name, ImportRule::Kind)),
    }
}

// The values of a record, whose number is `at`, in the columns of these numbers.
fn read_cells(
    alloc: Global,
    columns: &[Column],
    numbers: &[u16],
    at: usize,
    line: &StringRecord,
) -> Result<Cells, BatchEnd>
    ensures { Gives (cells_of columns.now at numbers.now (fields_of line.now)) result }
{
    let mut cells = Cells::new(alloc);
    for (place, number) in numbers.iter().enumerate() {
        match field_at(line, place) {
            Some(field) => cells.push(read_cell(alloc, columns, *number, at, field)?)?,
            None => return Ok(cells),
        }
    }
    Ok(cells)
}

// Where a number stands among others.
fn place_of(key: u16, numbers: &[u16]) -> Option<usize>
    ensures { result ≡ position (λ k. k == key) numbers.now }
{
    numbers.iter().position(|number| *number == key)
}

// Where the key stands among the columns of a header.
fn key_place(key: u16, numbers: &[u16]) -> usize
    ensures { result ≡ key_place_of key numbers.now }
{
    match place_of(key, numbers) {
        Some(place) => place,
        None => 0,
    }
}

// Whether a line has this key.
fn has_key(cells: &Cells, place: usize, key: &Value) -> bool
    ensures { result ≡ has_key_of place (view key.now) cells.now }
{
    match cells.get(place) {
        Some(value) => compare(value, key) == Ordering::Equal,
        None => compare(&Value::Blank, key) == Ordering::Equal,
    }
}

// Whether a line before has this key.
fn stands_before(place: usize, before: &[Cells], key: &Value) -> bool
    ensures { result ≡ list_any (has_key_of place (view key.now)) before.now }
{
    before.iter().any(|other| has_key(other, place, key))
}

fn is_blank(value: &Value) -> bool
    ensures { result ≡ is_blank_data (view value.now) }
{
    matches!(value, Value::Blank)
}

// The rule that a key breaks, behind these lines.
fn rule_of_key(place: usize, before: &[Cells], key: &Value) -> Option<ImportRule>
    ensures { result ≡ key_rule_of place before.now (view key.now) }
{
    if is_blank(key) {
        return Some(ImportRule::Blank);
    }
    if stands_before(place, before, key) {
        return Some(ImportRule::Twice);
    }
    None
}

// The rule that the key of a line breaks, behind these lines.
fn key_rule(place: usize, before: &[Cells], cells: &Cells) -> Option<ImportRule>
    ensures { result ≡ key_rule_of place before.now (value_at cells.now place) }
{
    match cells.get(place) {
        Some(key) => rule_of_key(place, before, key),
        None => Some(ImportRule::Blank),
    }
}

// A record as a line, behind these lines.
fn read_line(
    alloc: Global,
    columns: &[Column],
    key: u16,
    numbers: &[u16],
    before: &[Cells],
    line: &StringRecord,
) -> Result<Cells, BatchEnd>
    ensures { Gives (line_of columns.now key numbers.now before.now (fields_of line.now)) result }
{
    let at = before.len() + 1;
    let cells = read_cells(alloc, columns, numbers, at, line)?;
    match key_rule(key_place(key, numbers), before, &cells) {
        None => Ok(cells),
        Some(rule) => Err(refusal_at(alloc, columns, key, at, rule)),
    }
}

/// Records as lines: the values of each in the columns of these numbers, among which is the key.
pub fn read_lines(
    alloc: Global,
    columns: &[Column],
    key: u16,
    numbers: &[u16],
    records: &[StringRecord],
) -> Result<InOrder<Cells>, BatchEnd>
    ensures { Gives (lines_of columns.now key numbers.now [] (map fields_of records.now)) result }
{
    let mut lines = InOrder::new(alloc);
    for line in records {
        let cells = read_line(alloc, columns, key, numbers, lines.as_slice(), line)?;
        lines.push(cells)?;
    }
    Ok(lines)
}
