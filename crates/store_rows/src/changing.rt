// What becomes of the changes of one table, apart from what is read.
ghost use Rattle.std.specs.Prelude.{◌≡◌, ◌<◌, ◌-◌, ◌^◌, ℕ, List, None, Some, IfOk, IfSome};
ghost use Rattle.fx_core.specs.declared.schema.Column.{Column as ColumnValue};
ghost use Rattle.sql_meanings.specs.Lines.{LinesOf};
ghost use Rattle.row_queries.specs.TableRows.{AreCellsOf};
ghost use Rattle.row_keeper.specs.Changes.{IsInserted, IsReplaced, NamesItsColumn};
ghost use Rattle.row_keeper.specs.RowRules.{rule_in};
ghost use Rattle.row_changes.specs.Overlay.{body_at, bytes_in, last_of, overlay};
ghost use Rattle.store_model.specs.declared.counts.RowCount.{RowCount as Count};
ghost use Rattle.store_rows.specs.Puts.{GoesSo, IsInOrder, LessRow, NewRow, OverRow, state_over};

use fx_core::TableShape;
use row_changes::TableChanges;
use row_keeper::keys::cells_are_proper;
use row_keeper::{KeeperEnd, Put, RowRefusal};
use row_lines::lines::line_of;
use row_queries::Cells;
use std::alloc::Global;
use store_model::RowCount;

/// Puts a new row behind the others.
fn add_row(
    alloc: Global,
    shape: &TableShape,
    changes: &mut TableChanges,
    count: &mut RowCount,
    cells: &Cells,
) -> Result<Put, KeeperEnd>
    requires room { last_of changes.old < 2 ^ 32 - 1 }
    requires fit { AreCellsOf shape.now.columns cells.now }
    ensures sound { IfOk result (IsInserted shape.now.columns) }
    ensures told { (kept : LinesOf) (all : ℕ)
        → IsInOrder kept shape.now.columns changes.old count.old
        → rule_in shape.now.columns (state_over kept shape.now.columns changes.old) all None
        cells.now ≡ None
        → GoesSo kept shape.now.columns changes.old changes.new count.new
        (NewRow shape.now.columns all cells.now) result }
{
    cells_are_proper(cells);
    let Ok(body) = line_of(alloc, shape.columns.as_slice(), cells) else {
        return Err(KeeperEnd::Memory);
    };
    match changes.add(body) {
        Ok(id) => {
            changes.is_ordered();
            count.now = count.now.saturating_add(1);
            Ok(Put::Id(id))
        }
        Err(_) => Err(KeeperEnd::Memory),
    }
}

/// Puts a new row, unless it breaks a rule.
pub fn add_unless(
    alloc: Global,
    shape: &TableShape,
    changes: &mut TableChanges,
    count: &mut RowCount,
    refusal: Option<RowRefusal>,
    cells: &Cells,
) -> Result<Put, KeeperEnd>
    requires room { refusal ≡ None → last_of changes.old < 2 ^ 32 - 1 }
    requires names { IfSome refusal (λ r. NamesItsColumn shape.now.columns r.rule r.column) }
    requires fit { AreCellsOf shape.now.columns cells.now }
    ensures sound { IfOk result (IsInserted shape.now.columns) }
    ensures told { (kept : LinesOf) (all : ℕ)
        → IsInOrder kept shape.now.columns changes.old count.old
        → refusal ≡ rule_in shape.now.columns (state_over kept shape.now.columns changes.old) all
        None cells.now
        → GoesSo kept shape.now.columns changes.old changes.new count.new
        (NewRow shape.now.columns all cells.now) result }
{
    match refusal {
        Some(refusal) => Ok(Put::Refused(refusal)),
        None => add_row(alloc, shape, changes, count, cells),
    }
}

/// Puts other cells into a row that has a line with this body.
fn change_row(
    alloc: Global,
    shape: &TableShape,
    changes: &mut TableChanges,
    id: u32,
    was: &[u8],
    cells: &Cells,
) -> Result<Put, KeeperEnd>
    requires { AreCellsOf shape.now.columns cells.now }
    ensures sound { IfOk result (IsReplaced shape.now.columns id) }
    ensures told { (kept : LinesOf) (all : ℕ) (n : Count)
        → IsInOrder kept shape.now.columns changes.old n
        → body_at id (overlay changes.old kept) ≡ Some was.now
        → rule_in shape.now.columns (state_over kept shape.now.columns changes.old) all (Some id)
        cells.now ≡ None
        → GoesSo kept shape.now.columns changes.old changes.new n
        (OverRow shape.now.columns all id cells.now) result }
{
    cells_are_proper(cells);
    let Ok(body) = line_of(alloc, shape.columns.as_slice(), cells) else {
        return Err(KeeperEnd::Memory);
    };
    match changes.put(alloc, id, was, Some(body)) {
        Ok(()) => {
            changes.is_ordered();
            Ok(Put::Id(id))
        }
        Err(_) => Err(KeeperEnd::Memory),
    }
}

/// Puts other cells into a row that has a line with this body, unless they break a rule.
pub fn change_unless(
    alloc: Global,
    shape: &TableShape,
    changes: &mut TableChanges,
    id: u32,
    was: &[u8],
    refusal: Option<RowRefusal>,
    cells: &Cells,
) -> Result<Put, KeeperEnd>
    requires names { IfSome refusal (λ r. NamesItsColumn shape.now.columns r.rule r.column) }
    requires fit { AreCellsOf shape.now.columns cells.now }
    ensures sound { IfOk result (IsReplaced shape.now.columns id) }
    ensures told { (kept : LinesOf) (all : ℕ) (n : Count)
        → IsInOrder kept shape.now.columns changes.old n
        → body_at id (overlay changes.old kept) ≡ Some was.now
        → refusal ≡ rule_in shape.now.columns (state_over kept shape.now.columns changes.old) all
        (Some id) cells.now
        → GoesSo kept shape.now.columns changes.old changes.new n
        (OverRow shape.now.columns all id cells.now) result }
{
    match refusal {
        Some(refusal) => Ok(Put::Refused(refusal)),
        None => change_row(alloc, shape, changes, id, was, cells),
    }
}

/// Takes a row out that has a line with this body.
fn take_row(
    alloc: Global,
    changes: &mut TableChanges,
    count: &mut RowCount,
    id: u32,
    was: &[u8],
) -> Result<bool, KeeperEnd>
    ensures { (kept : LinesOf) (columns : List ColumnValue)
        → IsInOrder kept columns changes.old count.old
        → body_at id (overlay changes.old kept) ≡ Some was.now
        → GoesSo kept columns changes.old changes.new count.new (LessRow id) result }
{
    match changes.put(alloc, id, was, None) {
        Ok(()) => {
            changes.is_ordered();
            count.now = count.now.saturating_sub(1);
            Ok(true)
        }
        Err(_) => Err(KeeperEnd::Memory),
    }
}

/// Takes a row out that has a line with this body, if it has one.
pub fn take_if_there(
    alloc: Global,
    changes: &mut TableChanges,
    count: &mut RowCount,
    id: u32,
    was: Option<Vec<u8>>,
) -> Result<bool, KeeperEnd>
    ensures { (kept : LinesOf) (columns : List ColumnValue)
        → IsInOrder kept columns changes.old count.old
        → bytes_in was ≡ body_at id (overlay changes.old kept)
        → GoesSo kept columns changes.old changes.new count.new (LessRow id) result }
{
    match was {
        None => Ok(false),
        Some(was) => take_row(alloc, changes, count, id, &was),
    }
}
