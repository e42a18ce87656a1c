// What calls make of tables: a new row, other cells in a row, and a row less.
ghost use Rattle.std.specs.Prelude.{◌≡◌, map, slice_get, IfOk, IsSome, IsSomeAnd, OnErr};
ghost use Rattle.std.specs.List.{AllByRecursion};
ghost use Rattle.row_queries.specs.TableRows.{AreCellsOf};
ghost use Rattle.row_keeper.specs.OneTable.{ChangesAt, PutsNew, PutsOver, TakesOut, view_restored};
ghost use Rattle.row_keeper.specs.OneTable.{view_settled};
ghost use Rattle.row_keeper.specs.Skips.{passed_now};
ghost use Rattle.row_keeper.specs.Sound.{IsSoundTable};
ghost use Rattle.row_keeper.specs.TableView.{states_now};
ghost use Rattle.row_keeper.specs.Tables.{all_rows as all_rows_of};

use crate::rows::Put;
use crate::rules::{all_rows, broken_rule};
use crate::table::Table;
use fx_base::Memory;
use row_queries::Cells;
use std::alloc::Global;

/// Puts a new row into a table, where all tables have so many rows, or says which rule it breaks
/// first.
fn add_row(alloc: Global, table: &mut Table, all: u64, cells: &Cells) -> Result<Put, Memory>
    requires { AreCellsOf table.old.columns cells.now }
    ensures ok { IfOk result (λ put. PutsNew all cells.now put table.old table.new) }
    ensures err { OnErr result (table.new ≡ table.old) }
{
    let _last = table.last();
    if let Some(refusal) = broken_rule(alloc, table, all, None, cells)? {
        return Ok(Put::Refused(refusal));
    }
    let id = table.insert(cells)?;
    Ok(Put::Id(id))
}

/// Puts other cells into a row of a table, where all tables have so many rows, or says that there
/// is no row of this number, or which rule it would break first.
fn change_row(
    alloc: Global,
    table: &mut Table,
    all: u64,
    id: u32,
    cells: &Cells,
) -> Result<Put, Memory>
    requires { AreCellsOf table.old.columns cells.now }
    ensures ok { IfOk result (λ put. PutsOver all id cells.now put table.old table.new) }
    ensures err { OnErr result (table.new ≡ table.old) }
{
    if !table.has(id) {
        return Ok(Put::NoRow);
    }
    if let Some(refusal) = broken_rule(alloc, table, all, Some(id), cells)? {
        return Ok(Put::Refused(refusal));
    }
    table.replace(id, cells)?;
    Ok(Put::Id(id))
}

/// Takes a row out of a table, and says whether it was there.
fn drop_row(table: &mut Table, id: u32) -> Result<bool, Memory>
    ensures ok { IfOk result (λ was. TakesOut id was table.old table.new) }
    ensures err { OnErr result (table.new ≡ table.old) }
{
    table.remove(id)
}

/// Puts a new row into one of the tables.
pub fn insert_at(
    alloc: Global,
    tables: &mut [Table],
    place: u16,
    cells: &Cells,
) -> Result<Put, Memory>
    requires { IsSomeAnd (slice_get tables.old place) (λ t. AreCellsOf t.columns cells.now) }
    ensures ok { IfOk result (λ put. ChangesAt place
        (PutsNew (all_rows_of (states_now tables.old)) cells.now put) tables.old tables.new) }
    ensures err { OnErr result (tables.new ≡ tables.old) }
{
    let all = all_rows(tables);
    let table = &mut tables[place as usize];
    add_row(alloc, table, all, cells)
}

/// Puts other cells into a row of one of the tables.
pub fn replace_at(
    alloc: Global,
    tables: &mut [Table],
    place: u16,
    id: u32,
    cells: &Cells,
) -> Result<Put, Memory>
    requires { IsSomeAnd (slice_get tables.old place) (λ t. AreCellsOf t.columns cells.now) }
    ensures ok { IfOk result (λ put. ChangesAt place
        (PutsOver (all_rows_of (states_now tables.old)) id cells.now put) tables.old tables.new) }
    ensures err { OnErr result (tables.new ≡ tables.old) }
{
    let all = all_rows(tables);
    let table = &mut tables[place as usize];
    change_row(alloc, table, all, id, cells)
}

/// Takes a row out of one of the tables.
pub fn remove_at(tables: &mut [Table], place: u16, id: u32) -> Result<bool, Memory>
    requires { IsSome (slice_get tables.old place) }
    ensures ok { IfOk result (λ was. ChangesAt place (TakesOut id was) tables.old tables.new) }
    ensures err { OnErr result (tables.new ≡ tables.old) }
{
    let table = &mut tables[place as usize];
    drop_row(table, id)
}

/// Passes over the numbers up to this one in all tables.
pub fn skip_all(tables: &mut [Table], number: u32)
    ensures { tables.new ≡ map (passed_now number) tables.old }
{
    for table in tables.iter_mut() {
        table.skip_to(number);
    }
}

/// Ends a transaction of all tables with its changes, and takes no memory.
pub fn settle_all(tables: &mut [Table])
    ensures { tables.new ≡ map view_settled tables.old }
{
    for table in tables.iter_mut() {
        table.settle();
    }
}

/// Ends a transaction of all tables without its changes, and takes no memory.
pub fn restore_all(tables: &mut [Table])
    ensures { tables.new ≡ map view_restored tables.old }
{
    for table in tables.iter_mut() {
        table.restore();
    }
}

/// A fact about the rows of all tables, and no work.
pub fn are_sound(tables: &[Table])
    ensures { AllByRecursion IsSoundTable tables.now }
{
    for table in tables {
        table.is_sound();
    }
}
