// What becomes of one table, as a row is put or taken out.
ghost use Rattle.std.specs.Prelude.{◌≡◌, ◌≤◌, List, Some, length, IfOk};
ghost use Rattle.sqlite.specs.Held.{state};
ghost use Rattle.sqlite.specs.State.{HasCleanDisk};
ghost use Rattle.fx_core.specs.declared.schema.Column.{Column as ColumnValue};
ghost use Rattle.sql_contents.specs.Contents.{lines_in};
ghost use Rattle.row_queries.specs.TableRows.{AreCellsOf};
ghost use Rattle.row_keeper.specs.Changes.{IsInserted, IsReplaced};
ghost use Rattle.row_changes.specs.Overlay.{body_at, bytes_in, last_of, overlay};
ghost use Rattle.store_model.specs.Ends.{call_failed};
ghost use Rattle.store_model.specs.Steady.{IsAtRest};
ghost use Rattle.store_model.specs.declared.counts.RowCount.{RowCount as Count};
ghost use Rattle.store_asking.specs.Asked.{StaysAtRest};
ghost use Rattle.store_rows.specs.Puts.{GoesSo, IsInOrder, LessRow, NewRow, OverRow};

use crate::changing::{add_unless, change_unless, take_if_there};
use crate::rules::{Room, broken_rule};
use fx_core::TableShape;
use row_changes::TableChanges;
use row_keeper::{KeeperEnd, Put};
use row_queries::Cells;
use sqlite::{Alter, Connection};
use std::alloc::Global;
use store_model::RowCount;
use store_reading::body_now;

/// What is asked whether a table takes a new row, where all tables have so many.
fn room_of(changes: &TableChanges, count: RowCount, all: u64) -> Room
    ensures { result ≡ record { rows = count.now; all = all; last = last_of changes.now } }
{
    Room {
        rows: count.now,
        all,
        last: changes.last(),
    }
}

/// Puts a new row, or says which rule it breaks first.
pub fn put_new<S: Alter>(
    alloc: Global,
    conn: &mut Connection<S>,
    shape: &TableShape,
    tab: u16,
    changes: &mut TableChanges,
    count: &mut RowCount,
    all: u64,
    cells: &Cells,
) -> Result<Put, KeeperEnd>
    requires narrow { length shape.now.columns ≤ 63 }
    requires fit { AreCellsOf shape.now.columns cells.now }
    ensures stays { StaysAtRest (state S.Store conn.old) (state S.Store conn.new)
        (call_failed result) }
    ensures sound { IfOk result (IsInserted shape.now.columns) }
    ensures told { HasCleanDisk (state S.Store conn.new) → IsAtRest (state S.Store conn.old)
        → IsInOrder (lines_in (state S.Store conn.old).now.trees tab) shape.now.columns changes.old
        count.old
        → GoesSo (lines_in (state S.Store conn.old).now.trees tab) shape.now.columns changes.old
        changes.new count.new (NewRow shape.now.columns all cells.now) result }
{
    let room = room_of(changes, *count, all);
    match broken_rule(alloc, conn, changes, shape, tab, room, None, cells) {
        Ok(refusal) => add_unless(alloc, shape, changes, count, refusal, cells),
        Err(end) => Err(end),
    }
}

/// Puts other cells into a row that has a line with this body, or says which rule it would break
/// first.
fn put_over_body<S: Alter>(
    alloc: Global,
    conn: &mut Connection<S>,
    shape: &TableShape,
    tab: u16,
    changes: &mut TableChanges,
    room: Room,
    id: u32,
    was: &[u8],
    cells: &Cells,
) -> Result<Put, KeeperEnd>
    requires narrow { length shape.now.columns ≤ 63 }
    requires fit { AreCellsOf shape.now.columns cells.now }
    ensures stays { StaysAtRest (state S.Store conn.old) (state S.Store conn.new)
        (call_failed result) }
    ensures sound { IfOk result (IsReplaced shape.now.columns id) }
    ensures told { HasCleanDisk (state S.Store conn.new) → IsAtRest (state S.Store conn.old)
        → (n : Count) → IsInOrder (lines_in (state S.Store conn.old).now.trees tab)
        shape.now.columns changes.old n → room.rows ≡ n.now → room.last ≡ last_of changes.old
        → body_at id (overlay changes.old (lines_in (state S.Store conn.old).now.trees tab))
        ≡ Some was.now
        → GoesSo (lines_in (state S.Store conn.old).now.trees tab) shape.now.columns changes.old
        changes.new n (OverRow shape.now.columns room.all id cells.now) result }
{
    match broken_rule(alloc, conn, changes, shape, tab, room, Some(id), cells) {
        Ok(refusal) => change_unless(alloc, shape, changes, id, was, refusal, cells),
        Err(end) => Err(end),
    }
}

/// Puts other cells into a row with this line, or says which rule it would break first; or that
/// there is no row, where it has no line.
fn put_over_line<S: Alter>(
    alloc: Global,
    conn: &mut Connection<S>,
    shape: &TableShape,
    tab: u16,
    changes: &mut TableChanges,
    room: Room,
    id: u32,
    was: Option<Vec<u8>>,
    cells: &Cells,
) -> Result<Put, KeeperEnd>
    requires narrow { length shape.now.columns ≤ 63 }
    requires fit { AreCellsOf shape.now.columns cells.now }
    ensures stays { StaysAtRest (state S.Store conn.old) (state S.Store conn.new)
        (call_failed result) }
    ensures sound { IfOk result (IsReplaced shape.now.columns id) }
    ensures told { HasCleanDisk (state S.Store conn.new) → IsAtRest (state S.Store conn.old)
        → (n : Count) → IsInOrder (lines_in (state S.Store conn.old).now.trees tab)
        shape.now.columns changes.old n → room.rows ≡ n.now → room.last ≡ last_of changes.old
        → bytes_in was
        ≡ body_at id (overlay changes.old (lines_in (state S.Store conn.old).now.trees tab))
        → GoesSo (lines_in (state S.Store conn.old).now.trees tab) shape.now.columns changes.old
        changes.new n (OverRow shape.now.columns room.all id cells.now) result }
{
    match was {
        None => Ok(Put::NoRow),
        Some(was) => put_over_body(alloc, conn, shape, tab, changes, room, id, &was, cells),
    }
}

/// Puts other cells into a row, or says that there is none of this number, or which rule it would
/// break first.
pub fn put_over<S: Alter>(
    alloc: Global,
    conn: &mut Connection<S>,
    shape: &TableShape,
    tab: u16,
    changes: &mut TableChanges,
    count: &RowCount,
    all: u64,
    id: u32,
    cells: &Cells,
) -> Result<Put, KeeperEnd>
    requires narrow { length shape.now.columns ≤ 63 }
    requires fit { AreCellsOf shape.now.columns cells.now }
    ensures stays { StaysAtRest (state S.Store conn.old) (state S.Store conn.new)
        (call_failed result) }
    ensures sound { IfOk result (IsReplaced shape.now.columns id) }
    ensures told { HasCleanDisk (state S.Store conn.new) → IsAtRest (state S.Store conn.old)
        → IsInOrder (lines_in (state S.Store conn.old).now.trees tab) shape.now.columns changes.old
        count.entry.now
        → GoesSo (lines_in (state S.Store conn.old).now.trees tab) shape.now.columns changes.old
        changes.new count.entry.now (OverRow shape.now.columns all id cells.now) result }
{
    let room = room_of(changes, *count, all);
    match body_now(alloc, conn, changes, tab, id) {
        Ok(was) => put_over_line(alloc, conn, shape, tab, changes, room, id, was, cells),
        Err(end) => Err(end),
    }
}

/// Takes a row out, and says whether it was there.
pub fn take_out<S: Alter>(
    alloc: Global,
    conn: &mut Connection<S>,
    tab: u16,
    changes: &mut TableChanges,
    count: &mut RowCount,
    id: u32,
) -> Result<bool, KeeperEnd>
    ensures stays { StaysAtRest (state S.Store conn.old) (state S.Store conn.new)
        (call_failed result) }
    ensures told { HasCleanDisk (state S.Store conn.new) → IsAtRest (state S.Store conn.old)
        → (columns : List ColumnValue)
        → IsInOrder (lines_in (state S.Store conn.old).now.trees tab) columns changes.old count.old
        → GoesSo (lines_in (state S.Store conn.old).now.trees tab) columns changes.old changes.new
        count.new (LessRow id) result }
{
    match body_now(alloc, conn, changes, tab, id) {
        Ok(was) => take_if_there(alloc, changes, count, id, was),
        Err(end) => Err(end),
    }
}
