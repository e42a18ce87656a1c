// The rows that queries ask, in their order.
ghost use Rattle.std.specs.Prelude.{◌≡◌, IfOk, List, filter, map};
ghost use Rattle.std.specs.List.{AllByRecursion};
ghost use Rattle.sqlite.specs.Held.{state};
ghost use Rattle.sqlite.specs.State.{HasCleanDisk};
ghost use Rattle.sql_contents.specs.Contents.{lines_in};
ghost use Rattle.row_queries.specs.Queries.{AreAsked, lies as is_asked};
ghost use Rattle.row_queries.specs.TableRows.{AreHeldRows, AreInIdOrder, IsHeldRow, IsRowOf};
ghost use Rattle.row_queries.specs.declared.rows.Row.{Row as RowValue};
ghost use Rattle.row_changes.specs.Overlay.{AreOf, overlay};
ghost use Rattle.store_model.specs.Decoded.{row_in};
ghost use Rattle.store_model.specs.Ends.{call_failed};
ghost use Rattle.store_model.specs.Steady.{IsAtRest};
ghost use Rattle.store_asking.specs.Asked.{StaysAtRest};

use crate::ranges::is_in_ranges;
use crate::reading::all_rows;
use fx_base::Memory;
use fx_core::TableShape;
use row_changes::TableChanges;
use row_keeper::KeeperEnd;
use row_keeper::keys::key_in;
use row_keeper::scans::sort_rows;
use row_queries::{Query, Row};
use sqlite::{Alter, Connection};
use std::alloc::Global;

/// Whether a row lies in a query's ranges.
fn lies(alloc: Global, row: &Row, table: &TableShape, query: &Query) -> Result<bool, Memory>
    requires { IsRowOf table.now row.now }
    ensures { IfOk result (λ lies. lies ≡ is_asked query.now row.now) }
{
    let key = key_in(alloc, row.id, &row.cells, query.column)?;
    Ok(is_in_ranges(query.ranges.as_slice(), key.as_bytes()))
}

/// The rows that lie in a query's ranges, in the order that they have.
fn lying(
    alloc: Global,
    rows: Vec<Row>,
    table: &TableShape,
    query: &Query,
) -> Result<Vec<Row>, Memory>
    requires { AllByRecursion (IsHeldRow table.now) rows.items }
    ensures { IfOk result (λ asked. asked.items ≡ filter (is_asked query.now) rows.items) }
{
    let mut asked = Vec::new(alloc);
    for row in rows {
        if lies(alloc, &row, table, query)? {
            asked.push(row)?;
        }
    }
    Ok(asked)
}

/// The rows that a query asks of all those of its table, in its order.
fn arrange(
    alloc: Global,
    rows: Vec<Row>,
    table: &TableShape,
    query: &Query,
) -> Result<Vec<Row>, KeeperEnd>
    requires { AllByRecursion (IsHeldRow table.now) rows.items }
    ensures { IfOk result (λ asked. AreAsked query.now rows.items asked.items) }
{
    let mut asked = lying(alloc, rows, table, query)?;
    sort_rows(&mut asked, query.order)?;
    Ok(asked)
}

/// The rows that a query asks, in its order: of rows that the table can hold, which are those that
/// the transaction has made where the database is in order.
pub fn ask<S: Alter>(
    alloc: Global,
    conn: &mut Connection<S>,
    changes: &TableChanges,
    table: &TableShape,
    query: &Query,
) -> Result<Vec<Row>, KeeperEnd>
    ensures stays { StaysAtRest (state S.Store conn.old) (state S.Store conn.new)
        (call_failed result) }
    ensures asked { IfOk result (λ asked. (held : List RowValue) × AreHeldRows table.now held
        × AreAsked query.now held asked.items × (HasCleanDisk (state S.Store conn.new)
        → IsAtRest (state S.Store conn.old)
        → AreOf (lines_in (state S.Store conn.old).now.trees query.now.table) changes.now
        → held ≡ map (row_in table.now.columns) (overlay changes.now
        (lines_in (state S.Store conn.old).now.trees query.now.table)))) }
{
    match all_rows(alloc, conn, changes, table, query.table) {
        Ok(rows) => arrange(alloc, rows, table, query),
        Err(end) => Err(end),
    }
}
