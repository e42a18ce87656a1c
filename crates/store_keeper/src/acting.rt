// Rows of a table of a keeper, over its connection, which may be lost.
ghost use Rattle.std.specs.Prelude.{◌≡◌, ◌+◌, ◌-◌, ◌^◌, ◌≤◌, length, min, slice_get, IfOk, IfSome};
ghost use Rattle.std.specs.Prelude.{IsSome, IsSomeAnd, OnErr};
ghost use Rattle.fx_core.specs.Lawful.{IsLawfulSchema};
ghost use Rattle.sqlite.specs.Held.{state};
ghost use Rattle.row_queries.specs.TableRows.{AreCellsOf};
ghost use Rattle.row_keeper.specs.Changes.{Inserts, IsInserted, IsReplaced, Removes, Replaces};
ghost use Rattle.row_keeper.specs.Tables.{columns_at, shapes_of};
ghost use Rattle.store_keeper.specs.Acting.{SeatActs, SeatAsks, StateAsks};

use fx_core::Schema;
use row_changes::TableChanges;
use row_keeper::{KeeperEnd, Put};
use row_queries::{Cells, Query, Row};
use sqlite::{Alter, Connection};
use std::alloc::Global;
use store_model::RowCount;
use store_reading::ask;
use store_rows::{insert_row, remove_row, replace_row};

/// Puts a new row into a table, or says which rule it breaks first.
pub fn insert_seat<S: Alter>(
    alloc: Global,
    seat: &mut Option<Connection<S>>,
    schema: &Option<Schema>,
    tables: &mut Vec<TableChanges>,
    counts: &mut Vec<RowCount>,
    table: u16,
    cells: &Cells,
) -> Result<Put, KeeperEnd>
    requires lawful { IfSome schema.now IsLawfulSchema }
    requires fit { IsSomeAnd (slice_get (shapes_of schema.now) table)
        (λ t. AreCellsOf t.columns cells.now) }
    ensures acts { SeatActs (state S.Store) seat.old seat.new schema.now tables.old.items
        tables.new.items counts.old.items counts.new.items
        (Inserts (columns_at (shapes_of schema.now) table) table cells.now) result }
    ensures sound { IfOk result (IsInserted (columns_at (shapes_of schema.now) table)) }
{
    let Some(conn) = seat else {
        return Err(KeeperEnd::Failed);
    };
    let Some(schema) = schema else {
        return Err(KeeperEnd::Failed);
    };
    insert_row(alloc, conn, schema, tables, counts, table, cells)
}

/// Puts other cells into a row of a table, or says that there is none of this number, or which rule
/// it would break first.
pub fn replace_seat<S: Alter>(
    alloc: Global,
    seat: &mut Option<Connection<S>>,
    schema: &Option<Schema>,
    tables: &mut Vec<TableChanges>,
    counts: &[RowCount],
    table: u16,
    id: u32,
    cells: &Cells,
) -> Result<Put, KeeperEnd>
    requires lawful { IfSome schema.now IsLawfulSchema }
    requires fit { IsSomeAnd (slice_get (shapes_of schema.now) table)
        (λ t. AreCellsOf t.columns cells.now) }
    ensures acts { SeatActs (state S.Store) seat.old seat.new schema.now tables.old.items
        tables.new.items counts.now counts.now
        (Replaces (columns_at (shapes_of schema.now) table) table id cells.now) result }
    ensures sound { IfOk result (IsReplaced (columns_at (shapes_of schema.now) table) id) }
{
    let Some(conn) = seat else {
        return Err(KeeperEnd::Failed);
    };
    let Some(schema) = schema else {
        return Err(KeeperEnd::Failed);
    };
    replace_row(alloc, conn, schema, tables, counts, table, id, cells)
}

/// Takes a row out of a table, and says whether it was there.
pub fn remove_seat<S: Alter>(
    alloc: Global,
    seat: &mut Option<Connection<S>>,
    schema: &Option<Schema>,
    tables: &mut Vec<TableChanges>,
    counts: &mut Vec<RowCount>,
    table: u16,
    id: u32,
) -> Result<bool, KeeperEnd>
    ensures { SeatActs (state S.Store) seat.old seat.new schema.now tables.old.items
        tables.new.items counts.old.items counts.new.items (Removes table id) result }
{
    let Some(conn) = seat else {
        return Err(KeeperEnd::Failed);
    };
    let Some(schema) = schema else {
        return Err(KeeperEnd::Failed);
    };
    remove_row(alloc, conn, schema, tables, counts, table, id)
}

/// The rows that a query asks, in its order.
pub fn ask_seat<S: Alter>(
    alloc: Global,
    seat: &mut Option<Connection<S>>,
    schema: &Option<Schema>,
    tables: &[TableChanges],
    query: &Query,
) -> Result<Vec<Row>, KeeperEnd>
    requires { IsSome (slice_get (shapes_of schema.now) query.now.table) }
    ensures { SeatAsks (state S.Store) seat.old seat.new schema.now tables.now query.now result }
{
    let Some(conn) = seat else {
        return Err(KeeperEnd::Failed);
    };
    let Some(schema) = schema else {
        return Err(KeeperEnd::Failed);
    };
    ask_table(alloc, conn, schema, tables, query)
}

/// The rows that a query asks of its table, in its order.
fn ask_table<S: Alter>(
    alloc: Global,
    conn: &mut Connection<S>,
    schema: &Schema,
    tables: &[TableChanges],
    query: &Query,
) -> Result<Vec<Row>, KeeperEnd>
    ensures { StateAsks (state S.Store conn.old) (state S.Store conn.new) schema.now tables.now
        query.now result }
{
    let place = query.table as usize;
    let Some(shape) = schema.tables.get(place) else {
        return Err(KeeperEnd::Failed);
    };
    if place >= tables.len() {
        return Err(KeeperEnd::Failed);
    }
    ask(alloc, conn, &tables[place], shape, query)
}

/// Counts the rows that were asked as visited.
pub fn count_visits(visited: &mut u64, given: &Result<Vec<Row>, KeeperEnd>)
    ensures rows { IfOk given.now (λ rows. visited.new
        ≡ min (visited.old + length rows.items) (2 ^ 64 - 1)) }
    ensures none { OnErr given.now (visited.new ≡ visited.old) }
    ensures later { visited.old ≤ visited.new }
{
    if let Ok(rows) = given {
        *visited = visited.saturating_add(rows.len() as u64);
    }
}
