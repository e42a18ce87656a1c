// The first rule that a row breaks.
ghost use Rattle.std.specs.Prelude.{◌≡◌, ◌<◌, ◌-◌, ◌^◌, ◌&&◌, ◌≤◌, false, List, None, Some, length};
ghost use Rattle.std.specs.Prelude.{is_none, nat_lt, IfOk, IfSome};
ghost use Rattle.sqlite.specs.Held.{state};
ghost use Rattle.sqlite.specs.State.{HasCleanDisk};
ghost use Rattle.sql_contents.specs.Contents.{lines_in};
ghost use Rattle.fx_core.specs.declared.schema.Column.{Column as ColumnValue};
ghost use Rattle.row_keeper.specs.Changes.{NamesItsColumn};
ghost use Rattle.row_keeper.specs.RowRules.{cells_weight, first_broken, first_of_two, in_column};
ghost use Rattle.row_keeper.specs.RowRules.{others, repeats, rule_in, where_broken};
ghost use Rattle.row_keeper.specs.declared.rows.RowRule.TheVariants.{Full, Size};
ghost use Rattle.row_keeper.specs.declared.rows.RowRule.TheVariants.{Unique as UniqueRule};
ghost use Rattle.row_changes.specs.Overlay.{AreOf};
ghost use Rattle.store_model.specs.Ends.{call_failed};
ghost use Rattle.store_model.specs.Steady.{IsAtRest};
ghost use Rattle.store_asking.specs.Asked.{StaysAtRest};
ghost use Rattle.store_rows.specs.Puts.{state_over};
ghost use Rattle.store_rows.specs.Rooms.{IsRoomOf, is_full_room};

use crate::columns::{first_lacking, first_repeated, have_unique};
use fx_core::TableShape;
use row_changes::TableChanges;
use row_keeper::rules::weight;
use row_keeper::{KeeperEnd, RowRefusal, RowRule};
use row_queries::Cells;
use sqlite::{Alter, Connection};
use std::alloc::Global;
use store_reading::all_rows;

/// How many rows a table has, all tables have, and the last number that the table gave.
#[derive(Clone, Copy)]
pub struct Room {
    pub rows: u32,
    pub all: u64,
    pub last: u32,
}

/// Whether a table takes no new row.
// The tests are grouped as in the definition.
fn is_full(room: Room) -> bool
    ensures full { result ≡ is_full_room room }
    ensures room { result ≡ false → room.last < 2 ^ 32 - 1 }
{
    room.rows >= 200_000 || (room.all >= 500_000 || room.last == u32::MAX)
}

/// The first rule that cells break but for those of columns.
fn broken_whole(room: Room, id: Option<u32>, cells: &Cells) -> Option<RowRefusal>
    ensures rule { result ≡ first_of_two (where_broken Size (nat_lt 2048 (cells_weight cells.now)))
        (where_broken Full (is_none id && is_full_room room)) }
    ensures room { result ≡ None → id ≡ None → room.last < 2 ^ 32 - 1 }
    ensures names { (columns : List ColumnValue) → IfSome result
        (λ r. NamesItsColumn columns r.rule r.column) }
{
    if weight(cells) > 2048 {
        return Some(RowRefusal {
            column: None,
            rule: RowRule::Size,
        });
    }
    if id.is_none() && is_full(room) {
        return Some(RowRefusal {
            column: None,
            rule: RowRule::Full,
        });
    }
    None
}

/// The first rule that cells break but for `required`, where this is the first column that repeats
/// a value.
fn broken_behind(
    repeated: Option<u16>,
    room: Room,
    id: Option<u32>,
    cells: &Cells,
) -> Option<RowRefusal>
    ensures rule { result ≡ first_of_two (in_column UniqueRule repeated)
        (first_of_two (where_broken Size (nat_lt 2048 (cells_weight cells.now)))
        (where_broken Full (is_none id && is_full_room room))) }
    ensures room { result ≡ None → id ≡ None → room.last < 2 ^ 32 - 1 }
    ensures names { (columns : List ColumnValue)
        → IfSome repeated (λ k. (1 ≤ k) × (k ≤ length columns))
        → IfSome result (λ r. NamesItsColumn columns r.rule r.column) }
{
    match repeated {
        Some(column) => Some(RowRefusal {
            column: Some(column),
            rule: RowRule::Unique,
        }),
        None => broken_whole(room, id, cells),
    }
}

/// The number of the first unique column whose value stands in another row of the table.
fn first_in_others<S: Alter>(
    alloc: Global,
    conn: &mut Connection<S>,
    changes: &TableChanges,
    table: &TableShape,
    tab: u16,
    id: Option<u32>,
    cells: &Cells,
) -> Result<Option<u16>, KeeperEnd>
    requires { length table.now.columns ≤ 63 }
    ensures stays { StaysAtRest (state S.Store conn.old) (state S.Store conn.new)
        (call_failed result) }
    ensures column { IfOk result (λ o. IfSome o
        (λ k. (1 ≤ k) × (k ≤ length table.now.columns))) }
    ensures first { HasCleanDisk (state S.Store conn.new) → IsAtRest (state S.Store conn.old)
        → AreOf (lines_in (state S.Store conn.old).now.trees tab) changes.now
        → IfOk result (λ o. o ≡ first_broken (repeats (others id
        (state_over (lines_in (state S.Store conn.old).now.trees tab) table.now.columns
        changes.now).rows)) 1 table.now.columns cells.now) }
{
    let columns = table.columns.as_slice();
    // Without a unique column no row is read.
    if !have_unique(columns) {
        return Ok(None);
    }
    match all_rows(alloc, conn, changes, table, tab) {
        Ok(rows) => Ok(first_repeated(columns, cells, id, &rows)),
        Err(end) => Err(end),
    }
}

/// The first rule that cells break in the row of a number of a table, or in a new one.
pub fn broken_rule<S: Alter>(
    alloc: Global,
    conn: &mut Connection<S>,
    changes: &TableChanges,
    table: &TableShape,
    tab: u16,
    room: Room,
    id: Option<u32>,
    cells: &Cells,
) -> Result<Option<RowRefusal>, KeeperEnd>
    requires { length table.now.columns ≤ 63 }
    ensures stays { StaysAtRest (state S.Store conn.old) (state S.Store conn.new)
        (call_failed result) }
    ensures names { IfOk result (λ o. IfSome o
        (λ r. NamesItsColumn table.now.columns r.rule r.column)) }
    ensures room { IfOk result (λ o. o ≡ None → id ≡ None → room.last < 2 ^ 32 - 1) }
    ensures rule { HasCleanDisk (state S.Store conn.new) → IsAtRest (state S.Store conn.old)
        → AreOf (lines_in (state S.Store conn.old).now.trees tab) changes.now
        → IsRoomOf room (state_over (lines_in (state S.Store conn.old).now.trees tab)
        table.now.columns changes.now)
        → IfOk result (λ o. o ≡ rule_in table.now.columns
        (state_over (lines_in (state S.Store conn.old).now.trees tab) table.now.columns
        changes.now) room.all id cells.now) }
{
    if let Some(column) = first_lacking(table.columns.as_slice(), cells) {
        return Ok(Some(RowRefusal {
            column: Some(column),
            rule: RowRule::Required,
        }));
    }
    match first_in_others(alloc, conn, changes, table, tab, id, cells) {
        Ok(repeated) => Ok(broken_behind(repeated, room, id, cells)),
        Err(end) => Err(end),
    }
}
