// Tables that a transaction moves to another schema. From then on it goes over a new database in
// memory without rows, of which it has made all rows that there are, and its end writes them whole.
ghost use Rattle.std.specs.Prelude.{◌≡◌, ◌≤◌, cond, true, length, IfOk};
ghost use Rattle.std.specs.List.{AllByRecursion};
ghost use Rattle.fx_core.specs.declared.schema.TableShape.{TableShape as Shape};
ghost use Rattle.row_keeper.specs.Kept.{columns_kept, columns_shaped};
ghost use Rattle.row_keeper.specs.MovedTables.{AreMovesOf, AreSources, IsMove};
ghost use Rattle.row_queries.specs.TableRows.{IsRowOf};
ghost use Rattle.row_queries.specs.declared.rows.Row.{Row as RowValue};
ghost use Rattle.sql_keeper.specs.View.{schema_then};

use crate::arranging::ids_rise;
use crate::changes::Changes;
use crate::database::Database;
use crate::reading::all_rows;
use crate::shaping::new_tallies;
use crate::tallies::{Count, Tally};
use crate::writing::Writing;
use fx_core::{ColumnList, Schema, TableShape};
use row_keeper::moved::table_of;
use row_keeper::schemas::copy_columns;
use row_keeper::table::Table;
use row_keeper::{KeeperEnd, TableMove};
use row_lines::lines::line_of;
use row_lines::schemas::body_of;
use row_queries::Row;
use std::alloc::Global;
use std::mem;
use std::rt::HostRuntime;

/// What a transaction goes over: a database, and a tally for each of its tables.
pub struct Ground {
    pub database: Option<Database>,
    pub tallies: Vec<Tally>,
}

// By hand, so that it is called: what is derived is opened wherever a value may end, which costs
// proofs seconds each time.
impl Drop for Ground {
    fn drop(self) {
        let Ground {
            database: _,
            tallies: _,
        } = self;
    }
}

/// Puts what a transaction went over aside, unless something is there already.
pub fn keep_first(aside: &mut Option<Ground>, ground: Ground) {
    if aside.is_none() {
        *aside = Some(ground);
    }
}

/// Goes over the database again with which a transaction began that has moved the tables.
pub fn come_back(
    database: &mut Option<Database>,
    tallies: &mut Vec<Tally>,
    aside: &mut Option<Ground>,
    with_changes: bool,
) {
    if let Some(mut before) = aside.take() {
        mem::swap(database, &mut before.database);
        if !with_changes {
            mem::swap(tallies, &mut before.tallies);
        }
    }
}

/// The schema as a transaction began. Where it has moved the tables the schema of then was kept.
pub fn schema_before(schema: Option<Schema>, was: Option<Option<Schema>>) -> Option<Schema>
    ensures { result ≡ schema_then schema was }
{
    match was {
        Some(was) => was,
        None => schema,
    }
}

/// The schema after the end of a transaction, with its changes or without.
pub fn schema_after(
    schema: Option<Schema>,
    was: Option<Option<Schema>>,
    with_changes: bool,
) -> Option<Schema>
    ensures { result ≡ cond with_changes schema (schema_then schema was) }
{
    if with_changes {
        return schema;
    }
    schema_before(schema, was)
}

/// Whether no row has a number above the last one that its table gave.
fn ids_are_given(rows: &[Row], last: u32) -> bool
    ensures { result ≡ true → AllByRecursion (λ (r : RowValue). r.id ≤ last) rows.now }
{
    for row in rows {
        if row.id > last {
            return false;
        }
    }
    true
}

/// A table of these columns, which come from those of a table, with its rows and its last number.
fn table_from(
    alloc: Global,
    table: &TableShape,
    rows: &[Row],
    last: u32,
    columns: ColumnList,
    from: &[Option<u16>],
) -> Result<Table, KeeperEnd>
    requires narrow { length columns ≤ 63 }
    requires sources { AreSources table.now.columns columns from.now }
    requires fit { AllByRecursion (IsRowOf table.now) rows.now }
    ensures { IfOk result (λ t. t.columns ≡ columns) }
{
    // A database that keeps its rules has no other rows.
    if !ids_rise(rows) || !ids_are_given(rows, last) || rows.len() > 200_000 {
        return Err(KeeperEnd::Failed);
    }
    Ok(table_of(alloc, columns, from, rows, last)?)
}

/// A table of this shape with the rows of the one that it comes from, or without any.
fn moved_table(
    alloc: Global,
    database: &mut Database,
    changes: &Changes,
    olds: &[TableShape],
    tallies: &[Tally],
    shape: &TableShape,
    source: &TableMove,
) -> Result<Table, KeeperEnd>
    requires narrow { length shape.now.columns ≤ 63 }
    requires moves { IsMove (columns_shaped olds.now) shape.now source.now }
    ensures { IfOk result (λ t. t.columns ≡ shape.now.columns) }
{
    let columns = copy_columns(alloc, &shape.columns)?;
    let from = source.columns.as_slice();
    let Some(tab) = source.from else {
        return Ok(Table::new(alloc, columns)?);
    };
    let Some(table) = olds.get(tab as usize) else {
        return Err(KeeperEnd::Failed);
    };
    let Some(tally) = tallies.get(tab as usize) else {
        return Err(KeeperEnd::Failed);
    };
    let rows = all_rows(alloc, database, Some(changes), table, tab)?;
    table_from(alloc, table, &rows, tally.now.last, columns, from)
}

/// A table for each of these shapes, with the rows of the one that it comes from.
pub fn moved_tables(
    alloc: Global,
    database: &mut Database,
    changes: &Changes,
    olds: &[TableShape],
    tallies: &[Tally],
    shapes: &[TableShape],
    moves: &[TableMove],
) -> Result<Vec<Table>, KeeperEnd>
    requires narrow { AllByRecursion (λ (t : Shape). length t.columns ≤ 63) shapes.now }
    requires moves { AreMovesOf (columns_shaped olds.now) shapes.now moves.now }
    ensures { IfOk result (λ v. columns_kept v.items ≡ columns_shaped shapes.now) }
{
    let mut made = Vec::with_capacity(alloc, shapes.len())?;
    for (place, shape) in shapes.iter().enumerate() {
        made.push(moved_table(
            alloc,
            database,
            changes,
            olds,
            tallies,
            shape,
            &moves[place],
        )?)?;
    }
    Ok(made)
}

/// Adds the rows of a table to those that a transaction has made, and counts them.
fn put_rows(
    alloc: Global,
    changes: &mut Changes,
    table: &Table,
    tab: u16,
) -> Result<Count, KeeperEnd> {
    table.is_sound();
    let rows = table.rows()?;
    for row in &rows {
        let body = line_of(alloc, table.columns().as_slice(), &row.cells)?;
        changes.put(tab, row.id, None, Some(body))?;
    }
    Ok(Count {
        last: table.last(),
        rows: table.count(),
    })
}

/// Adds the rows of all tables to those that a transaction has made, and counts them.
fn put_all(
    alloc: Global,
    changes: &mut Changes,
    tables: &[Table],
    tallies: &mut [Tally],
) -> Result<(), KeeperEnd> {
    for (place, table) in tables.iter().enumerate() {
        let (Ok(tab), Some(tally)) = (u16::try_from(place), tallies.get_mut(place)) else {
            return Err(KeeperEnd::Failed);
        };
        tally.now = put_rows(alloc, changes, table, tab)?;
    }
    Ok(())
}

/// A new database in memory with the tables of a schema, and without rows: those of these tables
/// are added to what the transaction has made.
pub fn new_ground(
    rt: &HostRuntime,
    schema: &Schema,
    tables: &[Table],
    changes: &mut Changes,
) -> Result<Ground, KeeperEnd> {
    let alloc = rt.alloc();
    let mut database = Database::open(rt, "")?;
    let body = body_of(alloc, schema)?;
    let mut tallies = new_tallies(alloc, &mut database, &body, schema.tables.len())?;
    put_all(alloc, changes, tables, &mut tallies)?;
    Ok(Ground {
        database: Some(database),
        tallies,
    })
}

/// Writes the tables of a schema in the place of all that a database keeps. Their rows are what the
/// transaction has made.
pub fn write_moved(
    alloc: Global,
    database: &mut Option<Database>,
    schema: &Schema,
    changes: &Changes,
    tallies: &[Tally],
) -> Result<(), KeeperEnd> {
    let (Some(database), Ok(tables)) = (database, u16::try_from(schema.tables.len())) else {
        return Err(KeeperEnd::Failed);
    };
    let body = body_of(alloc, schema)?;
    database.write(&Writing::Moved {
        body: &body,
        tables,
        schema,
        changes,
        tallies,
    })
}
