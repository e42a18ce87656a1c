// What becomes of rows in a transaction.
ghost use Rattle.std.specs.Prelude.{IfOk};
ghost use Rattle.row_keeper.specs.Changes.{IsInserted, IsReplaced};
ghost use Rattle.row_queries.specs.TableRows.{AreCellsOf};

use crate::changes::Changes;
use crate::database::Database;
use crate::reading::body_now;
use crate::rules::{broken_rule, fullness};
use crate::tallies::{Tally, all_rows};
use fx_core::TableShape;
use row_keeper::{KeeperEnd, Put};
use row_lines::lines::line_of;
use row_queries::Cells;
use std::alloc::Global;

/// Puts a new row into a table, or says which rule it breaks first.
pub fn insert_row(
    alloc: Global,
    database: &mut Database,
    changes: &mut Changes,
    table: &TableShape,
    tab: u16,
    tallies: &mut [Tally],
    cells: &Cells,
) -> Result<Put, KeeperEnd>
    requires { AreCellsOf table.now.columns cells.now }
    ensures { IfOk result (λ put. IsInserted table.now.columns put) }
{
    let columns = table.columns.as_slice();
    let body = line_of(alloc, columns, cells)?;
    if let Some(refusal) = broken_rule(
        alloc, database, changes, columns, tab, None, cells, &body,
    )? {
        return Ok(Put::Refused(refusal));
    }
    let all = all_rows(tallies);
    let Some(tally) = tallies.get_mut(tab as usize) else {
        return Err(KeeperEnd::Failed);
    };
    if let Some(refusal) = fullness(tally.now, all) {
        return Ok(Put::Refused(refusal));
    }
    let id = tally.now.last + 1;
    changes.put(tab, id, None, Some(body))?;
    tally.now.last = id;
    tally.now.rows = tally.now.rows.saturating_add(1);
    Ok(Put::Id(id))
}

/// Puts other cells into a row of a table, or says that there is no row of this number, or which
/// rule it would break first.
pub fn replace_row(
    alloc: Global,
    database: &mut Database,
    changes: &mut Changes,
    table: &TableShape,
    tab: u16,
    id: u32,
    cells: &Cells,
) -> Result<Put, KeeperEnd>
    requires { AreCellsOf table.now.columns cells.now }
    ensures { IfOk result (λ put. IsReplaced table.now.columns id put) }
{
    let Some(was) = body_now(alloc, database, changes, table, tab, id)? else {
        return Ok(Put::NoRow);
    };
    let columns = table.columns.as_slice();
    let body = line_of(alloc, columns, cells)?;
    let broken = broken_rule(
        alloc,
        database,
        changes,
        columns,
        tab,
        Some(id),
        cells,
        &body,
    )?;
    if let Some(refusal) = broken {
        return Ok(Put::Refused(refusal));
    }
    changes.put(tab, id, Some(was), Some(body))?;
    Ok(Put::Id(id))
}

/// Takes a row out of a table, and says whether it was there.
pub fn remove_row(
    alloc: Global,
    database: &mut Database,
    changes: &mut Changes,
    table: &TableShape,
    tab: u16,
    id: u32,
    tallies: &mut [Tally],
) -> Result<bool, KeeperEnd> {
    let Some(was) = body_now(alloc, database, changes, table, tab, id)? else {
        return Ok(false);
    };
    let Some(tally) = tallies.get_mut(tab as usize) else {
        return Err(KeeperEnd::Failed);
    };
    changes.put(tab, id, Some(was), None)?;
    tally.now.rows = tally.now.rows.saturating_sub(1);
    Ok(true)
}
