// Rows that were read, in the order of a query.
ghost use Rattle.std.specs.Prelude.{◌≡◌, true, List, IfOk};
ghost use Rattle.std.specs.List.{AllByRecursion};
ghost use Rattle.row_queries.specs.Queries.{AreAsked, lies as is_asked};
ghost use Rattle.row_queries.specs.TableRows.{AreHeldRows, AreInIdOrder, IsHeldRow, IsRowOf};
ghost use Rattle.row_queries.specs.declared.rows.Row.{Row as RowValue};

use crate::ranges::is_in_ranges;
use fx_base::Memory;
use fx_core::TableShape;
use row_keeper::KeeperEnd;
use row_keeper::keys::key_in;
use row_keeper::scans::sort_rows;
use row_queries::{Query, Row};
use std::alloc::Global;

/// Whether the numbers of rows rise.
pub fn ids_rise(rows: &[Row]) -> bool
    ensures { result ≡ true → AreInIdOrder rows.now }
{
    let mut last = 0;
    for row in rows {
        if row.id <= last {
            return false;
        }
        last = row.id;
    }
    true
}

/// Whether a row lies in a query's ranges.
fn lies(alloc: Global, row: &Row, table: &TableShape, query: &Query) -> Result<bool, Memory>
    requires { IsRowOf table.now row.now }
    ensures { IfOk result (λ lies. lies ≡ is_asked query.now row.now) }
{
    let key = key_in(alloc, row.id, &row.cells, query.column)?;
    Ok(is_in_ranges(query.ranges.as_slice(), key.as_bytes()))
}

/// Whether all rows lie in a query's ranges.
fn all_lie(alloc: Global, rows: &[Row], table: &TableShape, query: &Query) -> Result<bool, Memory>
    requires { AllByRecursion (IsHeldRow table.now) rows.now }
    ensures { IfOk result (λ lie. lie ≡ true → AllByRecursion (λ r. is_asked query.now r ≡ true)
        rows.now) }
{
    for row in rows {
        if !lies(alloc, row, table, query)? {
            return Ok(false);
        }
    }
    Ok(true)
}

/// Rows that were read for a query, in its order. Where two have one number, or one lies outside
/// the query's ranges, the database has other marks than those of its lines, which is a fault.
pub fn arrange(
    alloc: Global,
    mut rows: Vec<Row>,
    table: &TableShape,
    query: &Query,
) -> Result<Vec<Row>, KeeperEnd>
    requires { AllByRecursion (IsHeldRow table.now) rows.items }
    ensures asked { IfOk result (λ asked. (held : List RowValue) × AreHeldRows table.now held
        × AreAsked query.now held asked.items) }
    ensures fit { IfOk result (λ asked. AllByRecursion (IsRowOf table.now) asked.items) }
{
    sort_rows(&mut rows, None)?;
    if !ids_rise(rows.as_slice()) {
        return Err(KeeperEnd::Failed);
    }
    if !all_lie(alloc, rows.as_slice(), table, query)? {
        return Err(KeeperEnd::Failed);
    }
    sort_rows(&mut rows, query.order)?;
    Ok(rows)
}
