// Changes of rows of a keeper, with what is counted beside them.
ghost use Rattle.std.specs.Prelude.{◌≡◌, ◌∷◌, true, None, slice_get, IfOk, IsSome, IsSomeAnd};
ghost use Rattle.row_queries.specs.TableRows.{AreCellsOf};
ghost use Rattle.row_keeper.specs.Changes.{Inserts, IsInserted, IsReplaced, Removes, Replaces};
ghost use Rattle.row_keeper.specs.Tables.{columns_at, shapes_of};
ghost use Rattle.row_books.specs.Numbers.{IsReadyAt, by_columns, numbers_of, tables_now};
ghost use Rattle.row_books.specs.Numbers.{tables_then};
ghost use Rattle.row_totals.specs.Calls.{Called, StaysCounted};

use fx_base::Memory;
use row_books::{Books, Numbers};
use row_counts::row_numbers;
use row_keeper::keys::cells_are_proper;
use row_keeper::{Keeper, KeeperEnd, Put};
use row_queries::Cells;
use std::alloc::Global;

/// The numbers in cells, for which it was made ready that others go. Nothing is counted yet.
fn make_ready(
    alloc: Global,
    books: &mut Books,
    table: u16,
    out: &Numbers,
    cells: &Cells,
) -> Result<Numbers, Memory>
    ensures now { tables_now books.new ≡ tables_now books.old }
    ensures then { tables_then books.new ≡ tables_then books.old }
    ensures numbers { IfOk result (λ n. by_columns n ≡ None ∷ numbers_of cells.now) }
    ensures ready { IfOk result (λ _. IsReadyAt table books.new out.now) }
{
    let put = Numbers::of_cells(alloc, cells.as_slice())?;
    books.prepare(table, out)?;
    Ok(put)
}

/// Puts a new row, and counts it.
pub fn insert_row<K: Keeper>(
    alloc: Global,
    keeper: &mut K,
    books: &mut Books,
    table: u16,
    cells: &Cells,
) -> Result<Put, KeeperEnd>
    requires begun { K.in_transaction keeper.old ≡ true }
    requires fit { IsSomeAnd (slice_get (shapes_of (K.shaped keeper.old).now) table)
        (λ t. AreCellsOf t.columns cells.now) }
    ensures called { Called K.Keeper (Inserts (columns_at (shapes_of (K.shaped keeper.old).now)
        table) table cells.now) keeper.old keeper.new result }
    ensures sound { IfOk result (λ put. IsInserted
        (columns_at (shapes_of (K.shaped keeper.old).now) table) put) }
    ensures counted { StaysCounted (K.shaped keeper.old).now (tables_now books.old)
        (tables_now books.new) (K.told keeper.old) (K.told keeper.new) }
    ensures then { tables_then books.new ≡ tables_then books.old }
{
    // Both are called for what they say: the rows fit their tables, and the cells are in range.
    keeper.fits();
    cells_are_proper(cells);
    let out = Numbers::none(alloc);
    // All that may want memory comes before the row is put, so that nothing can fail after it.
    let mut put = make_ready(alloc, books, table, &out, cells)?;
    match keeper.insert(table, cells) {
        Ok(Put::Id(id)) => {
            put.id = books.fresh(table, id);
            books.carry_out(table, &out, &put);
            Ok(Put::Id(id))
        }
        Ok(Put::NoRow) => Ok(Put::NoRow),
        Ok(Put::Refused(refusal)) => Ok(Put::Refused(refusal)),
        Err(end) => Err(end),
    }
}

/// Puts other cells into a row, and counts these in place of those.
pub fn replace_row<K: Keeper>(
    alloc: Global,
    keeper: &mut K,
    books: &mut Books,
    table: u16,
    id: u32,
    cells: &Cells,
) -> Result<Put, KeeperEnd>
    requires begun { K.in_transaction keeper.old ≡ true }
    requires fit { IsSomeAnd (slice_get (shapes_of (K.shaped keeper.old).now) table)
        (λ t. AreCellsOf t.columns cells.now) }
    ensures called { Called K.Keeper (Replaces (columns_at (shapes_of (K.shaped keeper.old).now)
        table) table id cells.now) keeper.old keeper.new result }
    ensures sound { IfOk result (λ put. IsReplaced
        (columns_at (shapes_of (K.shaped keeper.old).now) table) id put) }
    ensures counted { StaysCounted (K.shaped keeper.old).now (tables_now books.old)
        (tables_now books.new) (K.told keeper.old) (K.told keeper.new) }
    ensures then { tables_then books.new ≡ tables_then books.old }
{
    let mut out = match row_numbers(alloc, keeper, table, id) {
        Ok(out) => out,
        Err(end) => return Err(end),
    };
    // The row keeps its number.
    out.id = None;
    keeper.fits();
    cells_are_proper(cells);
    let put = make_ready(alloc, books, table, &out, cells)?;
    match keeper.replace(table, id, cells) {
        Ok(Put::Id(same)) => {
            books.carry_out(table, &out, &put);
            Ok(Put::Id(same))
        }
        Ok(Put::NoRow) => Ok(Put::NoRow),
        Ok(Put::Refused(refusal)) => Ok(Put::Refused(refusal)),
        Err(end) => Err(end),
    }
}

/// Takes a row out, and what was counted of it.
pub fn remove_row<K: Keeper>(
    alloc: Global,
    keeper: &mut K,
    books: &mut Books,
    table: u16,
    id: u32,
) -> Result<bool, KeeperEnd>
    requires begun { K.in_transaction keeper.old ≡ true }
    requires table { IsSome (slice_get (shapes_of (K.shaped keeper.old).now) table) }
    ensures called { Called K.Keeper (Removes table id) keeper.old keeper.new result }
    ensures counted { StaysCounted (K.shaped keeper.old).now (tables_now books.old)
        (tables_now books.new) (K.told keeper.old) (K.told keeper.new) }
    ensures then { tables_then books.new ≡ tables_then books.old }
{
    let out = match row_numbers(alloc, keeper, table, id) {
        Ok(out) => out,
        Err(end) => return Err(end),
    };
    keeper.fits();
    let put = Numbers::none(alloc);
    books.prepare(table, &out)?;
    match keeper.remove(table, id) {
        Ok(true) => {
            books.carry_out(table, &out, &put);
            Ok(true)
        }
        Ok(false) => Ok(false),
        Err(end) => Err(end),
    }
}
