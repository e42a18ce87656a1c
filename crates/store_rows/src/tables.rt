// What becomes of the tables of a keeper, one of which a call is about.
ghost use Rattle.std.specs.Prelude.{◌≡◌, ◌-◌, ◌^◌, ◌<◌, length, min, slice_get, sum_by, true, IfOk, IsSomeAnd};
ghost use Rattle.fx_core.specs.Lawful.{IsLawfulSchema};
ghost use Rattle.sqlite.specs.Held.{state};
ghost use Rattle.sqlite.specs.State.{HasCleanDisk};
ghost use Rattle.row_queries.specs.TableRows.{AreCellsOf};
ghost use Rattle.row_keeper.specs.Changes.{Inserts, IsInserted, IsReplaced, Removes, Replaces};
ghost use Rattle.row_keeper.specs.Tables.{columns_at};
ghost use Rattle.store_model.specs.Ends.{call_failed};
ghost use Rattle.store_model.specs.Steady.{IsAtRest};
ghost use Rattle.store_model.specs.declared.counts.RowCount.{RowCount as Count};
ghost use Rattle.store_asking.specs.Asked.{StaysAtRest};
ghost use Rattle.store_rows.specs.Puts.{AreKnown, GoTold};

use crate::puts::{put_new, put_over, take_out};
use fx_core::Schema;
use row_changes::TableChanges;
use row_keeper::{KeeperEnd, Put};
use row_queries::Cells;
use sqlite::{Alter, Connection};
use std::alloc::Global;
use store_model::RowCount;

/// How many rows all tables have; the greatest `u64` stands for more.
fn all_rows(counts: &[RowCount]) -> u64
    ensures { result ≡ min (sum_by (λ (n : Count). n.now) counts.now) (2 ^ 64 - 1) }
{
    let mut sum = 0u64;
    for count in counts {
        sum = sum.saturating_add(u64::from(count.now));
    }
    sum
}

/// Whether there are changes and a count at a place.
fn has_place(tables: &[TableChanges], counts: &[RowCount], place: usize) -> bool
    ensures { result ≡ true → (place < length tables.now) × (place < length counts.now) }
{
    place < tables.len() && place < counts.len()
}

/// Puts a new row into a table, or says which rule it breaks first.
pub fn insert_row<S: Alter>(
    alloc: Global,
    conn: &mut Connection<S>,
    schema: &Schema,
    tables: &mut [TableChanges],
    counts: &mut [RowCount],
    table: u16,
    cells: &Cells,
) -> Result<Put, KeeperEnd>
    requires lawful { IsLawfulSchema schema.now }
    requires fit { IsSomeAnd (slice_get schema.now.tables table)
        (λ t. AreCellsOf t.columns cells.now) }
    ensures stays { StaysAtRest (state S.Store conn.old) (state S.Store conn.new)
        (call_failed result) }
    ensures sound { IfOk result (λ put. IsInserted (columns_at schema.now.tables table) put) }
    ensures told { HasCleanDisk (state S.Store conn.new) → IsAtRest (state S.Store conn.old)
        → AreKnown (state S.Store conn.old).now.trees schema.now tables.old counts.old
        → GoTold (state S.Store conn.old).now.trees schema.now tables.old tables.new counts.new
        (Inserts (columns_at schema.now.tables table) table cells.now) result }
{
    let all = all_rows(counts);
    let place = table as usize;
    let Some(shape) = schema.tables.get(place) else {
        return Err(KeeperEnd::Failed);
    };
    if !has_place(tables, counts, place) {
        return Err(KeeperEnd::Failed);
    }
    let changes = &mut tables[place];
    let count = &mut counts[place];
    put_new(alloc, conn, shape, table, changes, count, all, cells)
}

/// Puts other cells into a row of a table, or says that there is none of this number, or which rule
/// it would break first.
pub fn replace_row<S: Alter>(
    alloc: Global,
    conn: &mut Connection<S>,
    schema: &Schema,
    tables: &mut [TableChanges],
    counts: &[RowCount],
    table: u16,
    id: u32,
    cells: &Cells,
) -> Result<Put, KeeperEnd>
    requires lawful { IsLawfulSchema schema.now }
    requires fit { IsSomeAnd (slice_get schema.now.tables table)
        (λ t. AreCellsOf t.columns cells.now) }
    ensures stays { StaysAtRest (state S.Store conn.old) (state S.Store conn.new)
        (call_failed result) }
    ensures sound { IfOk result (λ put. IsReplaced (columns_at schema.now.tables table) id put) }
    ensures told { HasCleanDisk (state S.Store conn.new) → IsAtRest (state S.Store conn.old)
        → AreKnown (state S.Store conn.old).now.trees schema.now tables.old counts.now
        → GoTold (state S.Store conn.old).now.trees schema.now tables.old tables.new counts.now
        (Replaces (columns_at schema.now.tables table) table id cells.now) result }
{
    let all = all_rows(counts);
    let place = table as usize;
    let Some(shape) = schema.tables.get(place) else {
        return Err(KeeperEnd::Failed);
    };
    if !has_place(tables, counts, place) {
        return Err(KeeperEnd::Failed);
    }
    let changes = &mut tables[place];
    let count = &counts[place];
    put_over(alloc, conn, shape, table, changes, count, all, id, cells)
}

/// Takes a row out of a table, and says whether it was there.
pub fn remove_row<S: Alter>(
    alloc: Global,
    conn: &mut Connection<S>,
    schema: &Schema,
    tables: &mut [TableChanges],
    counts: &mut [RowCount],
    table: u16,
    id: u32,
) -> Result<bool, KeeperEnd>
    ensures stays { StaysAtRest (state S.Store conn.old) (state S.Store conn.new)
        (call_failed result) }
    ensures told { HasCleanDisk (state S.Store conn.new) → IsAtRest (state S.Store conn.old)
        → AreKnown (state S.Store conn.old).now.trees schema.now tables.old counts.old
        → GoTold (state S.Store conn.old).now.trees schema.now tables.old tables.new counts.new
        (Removes table id) result }
{
    let place = table as usize;
    let Some(_shape) = schema.tables.get(place) else {
        return Err(KeeperEnd::Failed);
    };
    if !has_place(tables, counts, place) {
        return Err(KeeperEnd::Failed);
    }
    let changes = &mut tables[place];
    let count = &mut counts[place];
    take_out(alloc, conn, table, changes, count, id)
}
