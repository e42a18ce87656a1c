// The rules that rows keep, asked of a table.
ghost use Rattle.std.specs.Prelude.{◌≡◌, ◌≤◌, ◌+◌, ◌-◌, ◌^◌, ◌<◌, [], ◌∷◌, ◌++◌, length, map, min};
ghost use Rattle.std.specs.Prelude.{nat_lt, ◌&&◌, is_none, slice_get, true, Some, None, IfOk};
ghost use Rattle.std.specs.Prelude.{MatchOption};
ghost use Rattle.std.specs.List.{list_any};
ghost use Rattle.fx_types.specs.ValueView.{view};
ghost use Rattle.fx_types.specs.Values.{text as text_data};
ghost use Rattle.fx_value.specs.Keys.{key_bytes};
ghost use Rattle.fx_value.specs.Order.{IsScalar};
ghost use Rattle.row_queries.specs.RowTests.{is_empty_value as is_empty_data};
ghost use Rattle.row_queries.specs.TableRows.{AreCellsOf};
ghost use Rattle.row_keeper.specs.Covered.{covered_of, covers};
ghost use Rattle.row_keeper.specs.RowRules.{cells_weight, first_broken as first_broken_of};
ghost use Rattle.row_keeper.specs.RowRules.{first_of_two, has_value, in_column};
ghost use Rattle.row_keeper.specs.RowRules.{is_blank as is_blank_data};
ghost use Rattle.row_keeper.specs.RowRules.{is_table_full as is_full_state, others, rule_in};
ghost use Rattle.row_keeper.specs.RowRules.{where_broken};
ghost use Rattle.row_keeper.specs.TableView.{states_now};
ghost use Rattle.row_keeper.specs.Tables.{all_rows as all_rows_of};
ghost use Rattle.row_keeper.specs.declared.rows.RowRule.TheVariants.{Full, Size};
ghost use Rattle.row_keeper.specs.Rules.{FitsColumn, breaks_by, is_other_row, only_key};

use crate::rows::{RowRefusal, RowRule};
use crate::table::Table;
use fx_base::Memory;
use fx_core::Column;
use fx_types::{Value, Words};
use fx_value::{keys_order, value_is_proper, weigh};
use row_queries::{Cells, Key, KeyRange, Row};
use std::alloc::Global;

fn is_empty_text(text: &Words) -> bool
    ensures { result ≡ is_empty_data (text_data text.now) }
{
    text.as_str().is_empty()
}

/// Whether a cell is blank or an empty text.
pub fn is_empty(cell: &Value) -> bool
    ensures { result ≡ is_empty_data (view cell.now) }
{
    match cell {
        Value::Blank => true,
        Value::Text(text) => is_empty_text(text),
        _ => false,
    }
}

/// Whether a cell is blank.
pub fn is_blank(cell: &Value) -> bool
    ensures { result ≡ is_blank_data (view cell.now) }
{
    matches!(cell, Value::Blank)
}

/// The range of a value's key alone.
fn only(alloc: Global, cell: &Value) -> Result<KeyRange, Memory>
    requires { IsScalar (view cell.now) }
    ensures { IfOk result (λ r. r ≡ only_key (key_bytes (view cell.now))) }
{
    let from = Key::of(alloc, cell)?;
    let mut bytes = Vec::from_slice(alloc, from.as_bytes())?;
    bytes.push(0)?;
    Ok(KeyRange {
        from,
        upto: Some(Key::from_bytes(bytes)),
    })
}

/// Whether a row isn't the one of a number.
fn is_other(id: Option<u32>, row: &Row) -> bool
    ensures { result ≡ is_other_row id row.now }
{
    match id {
        None => true,
        Some(id) => !(row.id == id),
    }
}

fn has_other(id: Option<u32>, rows: &[Row]) -> bool
    ensures { result ≡ list_any (is_other_row id) rows.now }
{
    rows.iter().any(|row| is_other(id, row))
}

/// Whether a value stands in a unique column of another row. The column is the one at a place,
/// counted from 0.
fn is_repeated(
    alloc: Global,
    table: &Table,
    place: u16,
    cell: &Value,
    id: Option<u32>,
) -> Result<bool, Memory>
    requires place { place < length table.now.columns }
    requires fit { FitsColumn table.now.columns place (view cell.now) }
    requires scalar { IsScalar (view cell.now) }
    requires covered { covers (covered_of table.now.columns) (place + 1) ≡ true }
    ensures { IfOk result (λ b. b ≡ list_any (has_value (place + 1) (view cell.now))
        (others id table.now.now.rows)) }
{
    // These are called for what they say: values that count as one have one key, and the table is
    // sound.
    keys_order();
    value_is_proper(cell);
    table.is_sound();
    let range = only(alloc, cell)?;
    let rows = table.ask(place + 1, std::slice::from_ref(&range))?;
    Ok(has_other(id, rows.as_slice()))
}

/// Whether a cell breaks a rule of its column, which is the one at a place, counted from 0.
fn breaks(
    alloc: Global,
    table: &Table,
    rule: RowRule,
    column: &Column,
    place: u16,
    cell: &Value,
    id: Option<u32>,
) -> Result<bool, Memory>
    requires place { place < length table.now.columns }
    requires column { slice_get table.now.columns place ≡ Some column.now }
    requires fit { FitsColumn table.now.columns place (view cell.now) }
    requires scalar { IsScalar (view cell.now) }
    ensures { IfOk result (λ b. b ≡ breaks_by rule (others id table.now.now.rows) column.now
        (place + 1) (view cell.now)) }
{
    match rule {
        RowRule::Required => Ok(column.required && is_empty(cell)),
        RowRule::Unique => {
            if column.unique && !is_blank(cell) {
                is_repeated(alloc, table, place, cell, id)
            } else {
                Ok(false)
            }
        }
        RowRule::Size | RowRule::Full => Ok(false),
    }
}

/// The number of the first column whose cell breaks a rule of columns.
pub fn first_broken_column(
    alloc: Global,
    table: &Table,
    rule: RowRule,
    id: Option<u32>,
    cells: &Cells,
) -> Result<Option<u16>, Memory>
    requires { AreCellsOf table.now.columns cells.now }
    ensures { IfOk result (λ k. k ≡ first_broken_of (breaks_by rule (others id table.now.now.rows))
        1 table.now.columns cells.now) }
{
    table.is_sound();
    let columns = table.columns().as_slice();
    for (place, column) in columns.iter().enumerate() {
        let Some(cell) = cells.get(place) else {
            return Ok(None);
        };
        if breaks(alloc, table, rule, column, place as u16, cell, id)? {
            return Ok(Some(place as u16 + 1));
        }
    }
    Ok(None)
}

/// What the cells of a row weigh; the greatest `u64` stands for more.
pub fn weight(cells: &Cells) -> u64
    ensures { result ≡ min (cells_weight cells.now) (2 ^ 64 - 1) }
{
    let mut sum = 0u64;
    let items = cells.as_slice();
    for cell in items {
        sum = sum.saturating_add(weigh(cell));
    }
    sum
}

/// How many rows all tables have; the greatest `u64` stands for more.
pub fn all_rows(tables: &[Table]) -> u64
    ensures { result ≡ min (all_rows_of (states_now tables.now)) (2 ^ 64 - 1) }
{
    let mut sum = 0u64;
    for table in tables {
        sum = sum.saturating_add(u64::from(table.count()));
    }
    sum
}

/// The rule, where a column breaks it.
fn refuse_at(rule: RowRule, column: Option<u16>) -> Option<RowRefusal>
    ensures { result ≡ in_column rule column }
{
    match column {
        None => None,
        Some(column) => Some(RowRefusal {
            column: Some(column),
            rule,
        }),
    }
}

/// Whether a table takes no new row, where all tables have so many rows.
// The numbers are those of `RowRule::Full`; the tests are grouped as in the definition.
fn is_full(table: &Table, all: u64) -> bool
    ensures { result ≡ is_full_state table.now.now all }
{
    table.count() >= 200_000 || (all >= 500_000 || table.last() == u32::MAX)
}

/// The first rule that cells break but for those of columns.
fn broken_whole(table: &Table, all: u64, id: Option<u32>, cells: &Cells) -> Option<RowRefusal>
    ensures { result ≡ first_of_two (where_broken Size (nat_lt 2048 (cells_weight cells.now)))
        (where_broken Full (is_none id && is_full_state table.now.now all)) }
{
    if weight(cells) > 2048 {
        return Some(RowRefusal {
            column: None,
            rule: RowRule::Size,
        });
    }
    if id.is_none() && is_full(table, all) {
        return Some(RowRefusal {
            column: None,
            rule: RowRule::Full,
        });
    }
    None
}

/// The first rule that cells break in the row of a number of a table, or in a new one, where all
/// tables have so many rows.
pub fn broken_rule(
    alloc: Global,
    table: &Table,
    all: u64,
    id: Option<u32>,
    cells: &Cells,
) -> Result<Option<RowRefusal>, Memory>
    requires { AreCellsOf table.now.columns cells.now }
    ensures { IfOk result (λ r. r ≡ rule_in table.now.columns table.now.now all id cells.now) }
{
    let lacking = first_broken_column(alloc, table, RowRule::Required, id, cells)?;
    if let Some(refusal) = refuse_at(RowRule::Required, lacking) {
        return Ok(Some(refusal));
    }
    let repeated = first_broken_column(alloc, table, RowRule::Unique, id, cells)?;
    if let Some(refusal) = refuse_at(RowRule::Unique, repeated) {
        return Ok(Some(refusal));
    }
    Ok(broken_whole(table, all, id, cells))
}
