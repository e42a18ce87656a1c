// Rows that are picked out of a table.
ghost use Rattle.std.specs.Prelude.{◌≡◌, Some, IfOk, option_map};
ghost use Rattle.std.specs.BTreeMap.{IsOrdered};
ghost use Rattle.std.specs.BTreeSet as set;
ghost use Rattle.std.specs.Ordering.{nat_cmp};
ghost use Rattle.row_keeper.specs.Found.{row_under, rows_of_ids};
ghost use Rattle.row_keeper.specs.Slots.{cells_now, now_at, rows_now};

use crate::row_slots::Slot;
use fx_base::Memory;
use row_queries::Row;
use std::alloc::Global;
use std::collections::{BTreeMap, BTreeSet};

/// The row of a slot, if it is one now.
fn row_in(alloc: Global, slot: &Slot, id: u32) -> Result<Option<Row>, Memory>
    ensures { IfOk result (λ row. row ≡ row_under id (cells_now slot.now)) }
{
    let Some(cells) = slot.cells() else {
        return Ok(None);
    };
    let cells = cells.copy(alloc)?;
    Ok(Some(Row { id, cells }))
}

/// The row of a number, if it is one now.
fn row_of(alloc: Global, rows: &BTreeMap<u32, Slot>, id: u32) -> Result<Option<Row>, Memory>
    ensures { IfOk result (λ row. row ≡ row_under id (now_at rows.now.entries id)) }
{
    let Some(slot) = rows.get(&id) else {
        return Ok(None);
    };
    row_in(alloc, slot, id)
}

/// The rows of these numbers, by rising numbers.
pub fn rows_at(
    alloc: Global,
    rows: &BTreeMap<u32, Slot>,
    ids: &BTreeSet<u32>,
) -> Result<Vec<Row>, Memory>
    ensures found { IfOk result (λ found. found.items ≡ rows_of_ids rows.now.entries ids.now.keys) }
    ensures rows { IsOrdered nat_cmp rows.now }
    ensures ids { set.IsOrdered nat_cmp ids.now }
{
    let _len = rows.len();
    let _ids = ids.len();
    let mut found = Vec::new(alloc);
    for id in ids {
        if let Some(row) = row_of(alloc, rows, *id)? {
            found.push(row)?;
        }
    }
    Ok(found)
}

/// The rows of the numbers of a list, in its order.
pub fn rows_of(alloc: Global, rows: &BTreeMap<u32, Slot>, ids: &[u32]) -> Result<Vec<Row>, Memory>
    ensures found { IfOk result (λ found. found.items ≡ rows_of_ids rows.now.entries ids.now) }
    ensures rows { IsOrdered nat_cmp rows.now }
{
    let _len = rows.len();
    let mut found = Vec::with_capacity(alloc, ids.len())?;
    for id in ids {
        if let Some(row) = row_of(alloc, rows, *id)? {
            found.push(row)?;
        }
    }
    Ok(found)
}

/// All rows, by rising numbers.
pub fn all_rows(alloc: Global, rows: &BTreeMap<u32, Slot>) -> Result<Vec<Row>, Memory>
    ensures found { IfOk result (λ found. found.items ≡ rows_now rows.now.entries) }
    ensures rows { IsOrdered nat_cmp rows.now }
{
    let _len = rows.len();
    let mut found = Vec::new(alloc);
    for (id, slot) in rows {
        if let Some(row) = row_in(alloc, slot, *id)? {
            found.push(row)?;
        }
    }
    Ok(found)
}
