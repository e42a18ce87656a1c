// The rules of columns.
ghost use Rattle.std.specs.Prelude.{◌≡◌, ◌+◌, ◌≤◌, ◌&&◌, ◌||◌, ℕ, false, length, IfSome};
ghost use Rattle.std.specs.List.{AllByRecursion, list_any};
ghost use Rattle.fx_types.specs.ValueView.{view};
ghost use Rattle.fx_core.specs.declared.schema.Column.{Column as ColumnValue};
ghost use Rattle.row_queries.specs.declared.rows.Row.{Row as RowValue};
ghost use Rattle.row_keeper.specs.RowRules.{first_broken, has_value, lacks, others, repeats};
ghost use Rattle.row_keeper.specs.Rules.{is_other_row};

use fx_core::Column;
use fx_types::Value;
use fx_value::compare;
use row_keeper::rules::{is_blank, is_empty};
use row_queries::{Cells, Row};

/// Whether a required column's cell is blank or an empty text.
fn is_lacking(column: &Column, cell: &Value) -> bool
    ensures { (k : ℕ) → result ≡ lacks column.now k (view cell.now) }
{
    column.required && is_empty(cell)
}

/// The number of the first required column whose cell is blank or an empty text.
pub fn first_lacking(columns: &[Column], cells: &Cells) -> Option<u16>
    requires { length columns.now ≤ 63 }
    ensures first { result ≡ first_broken lacks 1 columns.now cells.now }
    ensures column { IfSome result (λ k. (1 ≤ k) × (k ≤ length columns.now)) }
{
    for (place, column) in columns.iter().enumerate() {
        let Some(cell) = cells.get(place) else {
            return None;
        };
        if is_lacking(column, cell) {
            return Some(place as u16 + 1);
        }
    }
    None
}

/// Whether a column is unique.
pub fn have_unique(columns: &[Column]) -> bool
    ensures { result ≡ list_any (λ (c : ColumnValue). c.unique) columns.now }
{
    columns.iter().any(|column| column.unique)
}

/// Whether a row isn't the one of a number.
fn is_other(id: Option<u32>, row: &Row) -> bool
    ensures { result ≡ is_other_row id row.now }
{
    match id {
        None => true,
        Some(id) => !(row.id == id),
    }
}

/// Whether a row has this value in the column at a place, counted from 0.
fn has_cell(row: &Row, place: usize, cell: &Value) -> bool
    ensures { result ≡ has_value (place + 1) (view cell.now) row.now }
{
    match row.cells.get(place) {
        Some(value) => compare(value, cell).is_eq(),
        None => compare(&Value::Blank, cell).is_eq(),
    }
}

/// Whether a row isn't the one of a number, and has this value in the column at a place, counted
/// from 0.
fn is_repeat(row: &Row, place: usize, cell: &Value, id: Option<u32>) -> bool
    ensures { result
        ≡ (is_other_row id row.now && has_value (place + 1) (view cell.now) row.now) }
{
    is_other(id, row) && has_cell(row, place, cell)
}

fn any_repeats(rows: &[Row], place: usize, cell: &Value, id: Option<u32>) -> bool
    ensures { result ≡ list_any
        (λ (r : RowValue). is_other_row id r && has_value (place + 1) (view cell.now) r) rows.now }
{
    rows.iter().any(|row| is_repeat(row, place, cell, id))
}

/// Whether a value stands in another row, in the column at a place, counted from 0.
fn is_repeated(rows: &[Row], place: usize, cell: &Value, id: Option<u32>) -> bool
    ensures { result ≡ list_any (has_value (place + 1) (view cell.now)) (others id rows.now) }
{
    any_repeats(rows, place, cell, id)
}

/// Whether the value of a unique column, the one at a place, stands in another row. A blank one
/// doesn't count.
fn is_taken(column: &Column, rows: &[Row], place: usize, cell: &Value, id: Option<u32>) -> bool
    ensures { result ≡ repeats (others id rows.now) column.now (place + 1) (view cell.now) }
{
    column.unique && (!is_blank(cell) && is_repeated(rows, place, cell, id))
}

/// The number of the first unique column whose value stands in another row.
pub fn first_repeated(
    columns: &[Column],
    cells: &Cells,
    id: Option<u32>,
    rows: &[Row],
) -> Option<u16>
    requires { length columns.now ≤ 63 }
    ensures first { result ≡ first_broken (repeats (others id rows.now)) 1 columns.now cells.now }
    ensures column { IfSome result (λ k. (1 ≤ k) × (k ≤ length columns.now)) }
{
    for (place, column) in columns.iter().enumerate() {
        let Some(cell) = cells.get(place) else {
            return None;
        };
        if is_taken(column, rows, place, cell, id) {
            return Some(place as u16 + 1);
        }
    }
    None
}
