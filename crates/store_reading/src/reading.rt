// The rows of a table.
ghost use Rattle.std.specs.Prelude.{◌≡◌, true, IfOk, map};
ghost use Rattle.std.specs.List.{AllByRecursion};
ghost use Rattle.sqlite.specs.Held.{state};
ghost use Rattle.sqlite.specs.State.{HasCleanDisk};
ghost use Rattle.sql_meanings.specs.Lines.{LinesOf, line_at};
ghost use Rattle.sql_contents.specs.Contents.{lines_in};
ghost use Rattle.row_queries.specs.TableRows.{AreInIdOrder, IsHeldRow};
ghost use Rattle.row_changes.specs.Overlay.{AreOf, overlay};
ghost use Rattle.store_model.specs.Decoded.{row_in};
ghost use Rattle.store_model.specs.Ends.{call_failed};
ghost use Rattle.store_model.specs.Steady.{IsAtRest};
ghost use Rattle.store_asking.specs.Asked.{StaysAtRest};

use crate::decoding::{push_all_kept, push_all_made};
use fx_core::TableShape;
use row_changes::TableChanges;
use row_keeper::KeeperEnd;
use row_keeper::scans::sort_rows;
use row_queries::Row;
use sqlite::{Alter, Connection, Row as Answer};
use std::alloc::Global;
use store_asking::ask_lines;

/// The rows of these lines that are kept, with what the transaction has made of them, by rising
/// numbers. Two rows of one number are a fault.
fn overlaid(
    alloc: Global,
    changes: &TableChanges,
    table: &TableShape,
    lines: &[Answer],
) -> Result<Vec<Row>, KeeperEnd>
    ensures held { IfOk result (λ rows. AllByRecursion (IsHeldRow table.now) rows.items) }
    ensures rising { IfOk result (λ rows. AreInIdOrder rows.items) }
    ensures rows { IfOk result (λ rows. (kept : LinesOf) → lines.now ≡ map line_at kept
        → AreOf kept changes.now
        → rows.items ≡ map (row_in table.now.columns) (overlay changes.now kept)) }
{
    changes.is_ordered();
    let mut rows = Vec::new(alloc);
    push_all_kept(alloc, &mut rows, changes, table, lines)?;
    let top = changes.last();
    let made = changes.lines(alloc, 0, top)?;
    push_all_made(alloc, &mut rows, table, &made)?;
    sort_rows(&mut rows, None)?;
    if !ids_rise(&rows) {
        return Err(KeeperEnd::Failed);
    }
    Ok(rows)
}

/// All rows of a table as the transaction has made them, by rising numbers.
pub fn all_rows<S: Alter>(
    alloc: Global,
    conn: &mut Connection<S>,
    changes: &TableChanges,
    table: &TableShape,
    tab: u16,
) -> Result<Vec<Row>, KeeperEnd>
    ensures stays { StaysAtRest (state S.Store conn.old) (state S.Store conn.new)
        (call_failed result) }
    ensures held { IfOk result (λ rows. AllByRecursion (IsHeldRow table.now) rows.items) }
    ensures rising { IfOk result (λ rows. AreInIdOrder rows.items) }
    ensures rows { HasCleanDisk (state S.Store conn.new) → IsAtRest (state S.Store conn.old)
        → AreOf (lines_in (state S.Store conn.old).now.trees tab) changes.now
        → IfOk result (λ rows. rows.items ≡ map (row_in table.now.columns)
        (overlay changes.now (lines_in (state S.Store conn.old).now.trees tab))) }
{
    // The lines that are kept have numbers that were given before the transaction began.
    match ask_lines(conn, u32::from(tab), 0, changes.first) {
        Ok(lines) => overlaid(alloc, changes, table, &lines),
        Err(end) => Err(end),
    }
}

/// Whether the numbers of rows rise.
fn ids_rise(rows: &[Row]) -> bool
    ensures { result ≡ true → AreInIdOrder rows.now }
{
    let mut last = 0;
    for row in rows {
        if row.id <= last {
            return false;
        }
        last = row.id;
    }
    true
}
