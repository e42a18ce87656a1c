// The rules that rows keep, asked of a database and of what a transaction has made of it.
ghost use Rattle.std.specs.Prelude.{◌≡◌, ◌<◌, ◌≤◌, ◌-◌, ◌^◌, None, length, IfOk, IfSome};
ghost use Rattle.row_keeper.specs.declared.rows.RowRule.TheVariants.{Full};
ghost use Rattle.row_keeper.specs.Changes.{NamesItsColumn};

use crate::changes::Changes;
use crate::database::Database;
use crate::statements::{self, number_in};
use crate::tallies::{Count, is_full};
use fx_base::Memory;
use fx_core::Column;
use row_keeper::rules::{is_empty, weight};
use row_keeper::{KeeperEnd, RowRefusal, RowRule};
use row_lines::pieces::piece_at;
use row_queries::Cells;
use sqlite::Row as Answer;
use std::alloc::Global;

/// Whether the cell at a place is empty.
fn is_lacking(cells: &Cells, place: usize) -> bool {
    match cells.get(place) {
        Some(cell) => is_empty(cell),
        None => false,
    }
}

/// The number of the first required column whose cell is empty.
fn first_lacking(columns: &[Column], cells: &Cells) -> Option<u16>
    ensures { IfSome result (λ k. (1 ≤ k) × (k ≤ length columns.now)) }
{
    for (place, column) in columns.iter().enumerate() {
        if column.required && is_lacking(cells, place) {
            return u16::try_from(place + 1).ok();
        }
    }
    None
}

/// Whether a row isn't the one of a number.
fn is_other(id: Option<u32>, row: i64) -> bool {
    match id {
        None => true,
        Some(id) => i64::from(id) != row,
    }
}

/// Whether a row is kept whose mark is among these, and which the transaction has left alone, other
/// than the one of a number.
fn has_stored(marks: &[Answer], changes: &Changes, tab: u16, id: Option<u32>) -> bool {
    for mark in marks {
        if let Some(row) = number_in(mark, 1)
            && is_other(id, row)
            && !is_changed(changes, tab, row)
        {
            return true;
        }
    }
    false
}

/// Whether the transaction has changed a row.
fn is_changed(changes: &Changes, tab: u16, row: i64) -> bool {
    match u32::try_from(row) {
        Ok(id) => changes.of(tab, id).is_some(),
        Err(_) => false,
    }
}

/// Whether the transaction has given a row this key in the column at a place, other than the one of
/// a number.
fn has_changed(changes: &Changes, tab: u16, place: u16, key: &[u8], id: Option<u32>) -> bool {
    for (row, change) in &changes.by_row {
        if row.0 == tab
            && is_other(id, i64::from(row.1))
            && let Some(body) = &change.now
            && has_key(body, place, key)
        {
            return true;
        }
    }
    false
}

/// Whether a line has this key in the column at a place.
fn has_key(body: &[u8], place: u16, key: &[u8]) -> bool {
    match piece_at(body, place) {
        Some(bytes) => bytes == key,
        None => false,
    }
}

/// The bytes that come next behind a key.
fn next_behind(alloc: Global, key: &[u8]) -> Result<Vec<u8>, Memory> {
    let mut next = Vec::from_slice(alloc, key)?;
    next.push(0)?;
    Ok(next)
}

/// Whether the value in the unique column at a place stands there in another row. A blank one
/// doesn't count.
fn is_repeated(
    alloc: Global,
    database: &mut Database,
    changes: &Changes,
    tab: u16,
    place: u16,
    body: &[u8],
    id: Option<u32>,
) -> Result<bool, KeeperEnd> {
    let (Some(key), Some(column)) = (piece_at(body, place), place.checked_add(1)) else {
        return Err(KeeperEnd::Failed);
    };
    if matches!(key, [0]) {
        return Ok(false);
    }
    let upto = next_behind(alloc, key)?;
    let marks = statements::marks(database, tab, column, key, &upto)?;
    Ok(has_stored(&marks, changes, tab, id) || has_changed(changes, tab, place, key, id))
}

/// The number of the first unique column whose value stands in another row.
fn first_repeated(
    alloc: Global,
    database: &mut Database,
    changes: &Changes,
    columns: &[Column],
    tab: u16,
    body: &[u8],
    id: Option<u32>,
) -> Result<Option<u16>, KeeperEnd>
    ensures { IfOk result (λ o. IfSome o (λ k. (1 ≤ k) × (k ≤ length columns.now))) }
{
    for (place, column) in columns.iter().enumerate() {
        let Ok(at) = u16::try_from(place) else {
            return Err(KeeperEnd::Failed);
        };
        if column.unique && is_repeated(alloc, database, changes, tab, at, body, id)? {
            return Ok(at.checked_add(1));
        }
    }
    Ok(None)
}

/// The first rule that cells break in the row of a number of a table, or in a new one. This is the
/// body of their line.
pub fn broken_rule(
    alloc: Global,
    database: &mut Database,
    changes: &Changes,
    columns: &[Column],
    tab: u16,
    id: Option<u32>,
    cells: &Cells,
    body: &[u8],
) -> Result<Option<RowRefusal>, KeeperEnd>
    ensures { IfOk result (λ o. IfSome o (λ r. NamesItsColumn columns.now r.rule r.column)) }
{
    if let Some(column) = first_lacking(columns, cells) {
        return Ok(Some(RowRefusal {
            column: Some(column),
            rule: RowRule::Required,
        }));
    }
    if let Some(column) = first_repeated(alloc, database, changes, columns, tab, body, id)? {
        return Ok(Some(RowRefusal {
            column: Some(column),
            rule: RowRule::Unique,
        }));
    }
    if weight(cells) > 2048 {
        return Ok(Some(RowRefusal {
            column: None,
            rule: RowRule::Size,
        }));
    }
    Ok(None)
}

/// That a table takes no new row, if it takes none.
pub fn fullness(count: Count, all: u64) -> Option<RowRefusal>
    ensures names { IfSome result (λ r. (r.column ≡ None) × (r.rule ≡ Full)) }
    ensures room { result ≡ None → count.last < 2 ^ 32 - 1 }
{
    if is_full(count, all) {
        Some(RowRefusal {
            column: None,
            rule: RowRule::Full,
        })
    } else {
        None
    }
}
