// Tables that move to another schema, and the rules that their rows keep there.
ghost use Rattle.std.specs.Prelude.{◌≡◌, ℕ, ◌+◌, ◌<◌, ◌≤◌, ◌++◌, ◌∷◌, [], length, map, slice_get};
ghost use Rattle.std.specs.Prelude.{IfOk, IfSome, IsSomeAnd, OnOk};
ghost use Rattle.std.specs.List.{AllByRecursion};
ghost use Rattle.fx_types.specs.ValueView.{view};
ghost use Rattle.fx_core.specs.declared.schema.TableShape.{TableShape as Shape};
ghost use Rattle.row_queries.specs.TableRows.{AreCellsOf, AreInIdOrder, IsBelowAll};
ghost use Rattle.row_queries.specs.declared.rows.Row.{Row as RowValue};
ghost use Rattle.row_keeper.specs.Kept.{columns_kept, columns_shaped};
ghost use Rattle.row_keeper.specs.MovedTables.{AreMovesOf, AreSources, IsMove, IsReshaped};
ghost use Rattle.row_keeper.specs.MovedTables.{IsRowRule, breach, broken_row, broken_table};
ghost use Rattle.row_keeper.specs.MovedTables.{moved_cell as moved_cell_of};
ghost use Rattle.row_keeper.specs.MovedTables.{moved_from as moved_from_of, moved_row, moved_state};
ghost use Rattle.row_keeper.specs.MovedTables.{moved_states};
ghost use Rattle.row_keeper.specs.OneTable.{with_now};
ghost use Rattle.row_keeper.specs.TableView.{states_now};
ghost use Rattle.row_keeper.specs.Tables.{no_rows, state_at};

use crate::moves::TableMove;
use crate::rows::{Reshaped, RowRefusal};
use crate::rules::broken_rule;
use crate::scans::value_in;
use crate::schemas::copy_columns;
use crate::table::Table;
use fx_base::Memory;
use fx_core::{ColumnList, TableShape};
use fx_types::Value;
use row_queries::{Cells, Row};
use std::alloc::Global;

/// The value of a row in the column that a new one comes from, or blank.
fn moved_cell(alloc: Global, row: &Row, from: Option<u16>) -> Result<Value, Memory>
    ensures { IfOk result (λ v. view v ≡ moved_cell_of row.now from) }
{
    match from {
        None => Ok(Value::Blank),
        Some(column) => value_in(alloc, row, column),
    }
}

/// The cells of a row in the columns that come from these.
fn moved_cells(alloc: Global, row: &Row, from: &[Option<u16>]) -> Result<Cells, Memory>
    ensures { IfOk result (λ cells. cells ≡ map (moved_cell_of row.now) from.now) }
{
    let mut cells = Cells::new(alloc);
    for column in from {
        cells.push(moved_cell(alloc, row, *column)?)?;
    }
    Ok(cells)
}

/// Puts a row behind those that are there, under its own number.
fn add_row(alloc: Global, table: &mut Table, row: &Row, from: &[Option<u16>]) -> Result<(), Memory>
    requires fit { AreCellsOf table.old.columns (map (moved_cell_of row.now) from.now) }
    requires above { table.old.now.last < row.now.id }
    requires few { length table.old.now.rows < 200000 }
    ensures { OnOk result (table.new ≡ with_now table.old
        (record {
          rows = table.old.now.rows ++ moved_row from.now row.now ∷ [];
          last = row.now.id;
        })) }
{
    let cells = moved_cells(alloc, row, from)?;
    table.skip_to(row.id - 1);
    table.insert(&cells)?;
    Ok(())
}

/// Puts rows into a table without any, each under its own number.
fn add_rows(
    alloc: Global,
    table: &mut Table,
    rows: &[Row],
    from: &[Option<u16>],
) -> Result<(), Memory>
    requires empty { table.old.now ≡ no_rows }
    requires fit { AllByRecursion (λ (r : RowValue). AreCellsOf table.old.columns
        (map (moved_cell_of r) from.now)) rows.now }
    requires rising { IsBelowAll 0 rows.now × AreInIdOrder rows.now }
    requires few { length rows.now ≤ 200000 }
    ensures columns { OnOk result (table.new.columns ≡ table.old.columns) }
    ensures rows { OnOk result (table.new.now.rows ≡ map (moved_row from.now) rows.now) }
    ensures last { OnOk result ((n : ℕ) → AllByRecursion (λ (r : RowValue). r.id ≤ n) rows.now
        → table.new.now.last ≤ n) }
{
    for row in rows {
        add_row(alloc, table, row, from)?;
    }
    Ok(())
}

/// A table of these columns, which come from those of another one, with the rows of that one and
/// its last number.
pub fn table_of(
    alloc: Global,
    columns: ColumnList,
    from: &[Option<u16>],
    rows: &[Row],
    last: u32,
) -> Result<Table, Memory>
    requires narrow { length columns ≤ 63 }
    requires fit { AllByRecursion (λ (r : RowValue). AreCellsOf columns
        (map (moved_cell_of r) from.now)) rows.now }
    requires rising { IsBelowAll 0 rows.now × AreInIdOrder rows.now }
    requires few { length rows.now ≤ 200000 }
    requires given { AllByRecursion (λ (r : RowValue). r.id ≤ last) rows.now }
    ensures columns { IfOk result (λ t. t.columns ≡ columns) }
    ensures now { IfOk result (λ t. t.now ≡ moved_from_of from.now
        (record { rows = rows.now; last = last })) }
{
    let mut table = Table::new(alloc, columns)?;
    add_rows(alloc, &mut table, rows, from)?;
    table.skip_to(last);
    Ok(table)
}

/// A table of these columns, which come from those of another one, with the rows of that one.
fn moved_from(
    alloc: Global,
    source: &Table,
    columns: ColumnList,
    from: &[Option<u16>],
) -> Result<Table, Memory>
    requires narrow { length columns ≤ 63 }
    requires sources { AreSources source.now.columns columns from.now }
    ensures columns { IfOk result (λ t. t.columns ≡ columns) }
    ensures now { IfOk result (λ t. t.now ≡ moved_from_of from.now source.now.now) }
{
    source.is_sound();
    let rows = source.rows()?;
    let last = source.last();
    Ok(table_of(alloc, columns, from, &rows, last)?)
}

/// The same of the table at a place.
fn moved_from_place(
    alloc: Global,
    tables: &[Table],
    place: u16,
    columns: ColumnList,
    from: &[Option<u16>],
) -> Result<Table, Memory>
    requires narrow { length columns ≤ 63 }
    requires sources { IsSomeAnd (slice_get tables.now place)
        (λ t. AreSources t.columns columns from.now) }
    ensures columns { IfOk result (λ t. t.columns ≡ columns) }
    ensures now { IfOk result (λ t. t.now ≡ moved_from_of from.now
        (state_at (states_now tables.now) place)) }
{
    let source = &tables[place as usize];
    Ok(moved_from(alloc, source, columns, from)?)
}

/// A table of this shape with the rows of the table that it comes from, or without any.
fn moved_table(
    alloc: Global,
    tables: &[Table],
    shape: &TableShape,
    source: &TableMove,
) -> Result<Table, Memory>
    requires narrow { length shape.now.columns ≤ 63 }
    requires moves { IsMove (columns_kept tables.now) shape.now source.now }
    ensures columns { IfOk result (λ t. t.columns ≡ shape.now.columns) }
    ensures now { IfOk result (λ t. t.now ≡ moved_state (states_now tables.now) source.now) }
{
    let columns = copy_columns(alloc, &shape.columns)?;
    let from = source.columns.as_slice();
    match source.from {
        None => Ok(Table::new(alloc, columns)?),
        Some(place) => Ok(moved_from_place(alloc, tables, place, columns, from)?),
    }
}

/// A table for each of these shapes, with the rows of the one that it comes from.
pub fn moved_tables(
    alloc: Global,
    tables: &[Table],
    shapes: &[TableShape],
    moves: &[TableMove],
) -> Result<Vec<Table>, Memory>
    requires narrow { AllByRecursion (λ (t : Shape). length t.columns ≤ 63) shapes.now }
    requires moves { AreMovesOf (columns_kept tables.now) shapes.now moves.now }
    ensures columns { IfOk result (λ v. columns_kept v.items ≡ columns_shaped shapes.now) }
    ensures now { IfOk result (λ v. states_now v.items
        ≡ moved_states (states_now tables.now) moves.now) }
{
    let mut made = Vec::with_capacity(alloc, shapes.len())?;
    for (place, shape) in shapes.iter().enumerate() {
        made.push(moved_table(alloc, tables, shape, &moves[place])?)?;
    }
    Ok(made)
}

/// The first rule that a row of a table breaks beside all others.
fn broken_in(alloc: Global, table: &Table) -> Result<Option<RowRefusal>, Memory>
    ensures broken { IfOk result (λ r. r ≡ broken_row table.now.columns table.now.now
        table.now.now.rows) }
    ensures sound { IfOk result (λ r. IfSome r (IsRowRule table.now.columns)) }
{
    table.is_sound();
    let rows = table.rows()?;
    for row in &rows {
        if let Some(refusal) = broken_rule(alloc, table, 0, Some(row.id), &row.cells)? {
            return Ok(Some(refusal));
        }
    }
    Ok(None)
}

/// Whether all tables keep the rules of their rows, or the place of the first that doesn't, with
/// the first rule that breaks there.
pub fn judge(alloc: Global, tables: &[Table]) -> Result<Reshaped, Memory>
    requires { length tables.now ≤ 32 }
    ensures broken { IfOk result (λ r. broken_table 0 (columns_kept tables.now)
        (states_now tables.now) ≡ breach r) }
    ensures sound { IfOk result (IsReshaped (columns_kept tables.now)) }
{
    for (place, table) in tables.iter().enumerate() {
        if let Some(refusal) = broken_in(alloc, table)? {
            return Ok(Reshaped::Broken(place as u16, refusal));
        }
    }
    Ok(Reshaped::Done)
}
