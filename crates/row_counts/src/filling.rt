// What is counted of the rows that a keeper has.
ghost use Rattle.std.specs.Prelude.{◌≡◌, ◌<◌, ◌≤◌, ◌∷◌, [], Some, length, map, slice_get, IfOk};
ghost use Rattle.std.specs.Prelude.{IsSome, MatchOption, OnOk};
ghost use Rattle.std.specs.List.{All};
ghost use Rattle.fx_core.specs.Lawful.{IsLawfulSchema};
ghost use Rattle.row_queries.specs.declared.rows.Row.{Row as TableRow};
ghost use Rattle.row_keeper.specs.Over.{HasCause};
ghost use Rattle.row_keeper.specs.Tables.{shapes_of};
ghost use Rattle.row_books.specs.Numbers.{now_of, then_of};
ghost use Rattle.row_counts.specs.Filling.{CountsMore, CountsPage, IsFilled, IsLastOf};
ghost use Rattle.row_counts.specs.Looking.{OnlyLooks};
ghost use Rattle.row_counts.specs.Right.{AreCounted};

use crate::finding::next_rows;
use crate::queries::PAGE;
use fx_base::Memory;
use fx_core::Schema;
use row_books::{Book, Numbers};
use row_keeper::{Keeper, KeeperEnd};
use row_queries::Row;
use std::alloc::Global;

/// Counts a row more.
fn count_row(alloc: Global, book: &mut Book, row: &Row) -> Result<(), Memory>
    requires { 1 ≤ row.now.id }
    ensures { OnOk result (CountsMore (row.now ∷ []) (now_of book.old) (now_of book.new)) }
{
    let out = Numbers::none(alloc);
    let mut put = Numbers::of_cells(alloc, row.cells.as_slice())?;
    put.id = book.fresh(row.id);
    book.prepare(&out)?;
    book.carry_out(&out, &put);
    Ok(())
}

/// Counts rows more.
fn count_rows(alloc: Global, book: &mut Book, rows: &[Row]) -> Result<(), Memory>
    requires { All (λ (r : TableRow). 1 ≤ r.id) rows.now }
    ensures { OnOk result (CountsMore rows.now (now_of book.old) (now_of book.new)) }
{
    for row in rows {
        count_row(alloc, book, row)?;
    }
    Ok(())
}

/// The last number of a page, unless it is the last page.
fn end_of_page(rows: &[Row]) -> Option<u32>
    ensures { MatchOption result (length rows.now < 1000) (λ last. IsLastOf rows.now last) }
{
    match rows {
        [.., last] if rows.len() >= PAGE as usize => Some(last.id),
        _ => None,
    }
}

/// Counts the next page of rows of a table, and tells its last number, unless no page is behind it.
fn count_page<K: Keeper>(
    alloc: Global,
    keeper: &mut K,
    table: u16,
    after: u32,
    book: &mut Book,
) -> Result<Option<u32>, KeeperEnd>
    requires { IsSome (slice_get (shapes_of (K.shaped keeper.old).now) table) }
    ensures looked { OnlyLooks K.Keeper keeper.old keeper.new }
    ensures cause { HasCause K.Keeper keeper.old keeper.new result }
    ensures counted { IfOk result (λ last. CountsPage (K.told keeper.new) table after last
        (now_of book.old) (now_of book.new)) }
{
    let rows = next_rows(alloc, keeper, table, after)?;
    count_rows(alloc, book, &rows)?;
    Ok(end_of_page(&rows))
}

/// What is counted of the rows of a table. They are read page by page, by rising numbers.
fn fill_table<K: Keeper>(
    alloc: Global,
    keeper: &mut K,
    table: u16,
    columns: usize,
) -> Result<Book, KeeperEnd>
    requires { IsSome (slice_get (shapes_of (K.shaped keeper.old).now) table) }
    ensures looked { OnlyLooks K.Keeper keeper.old keeper.new }
    ensures cause { HasCause K.Keeper keeper.old keeper.new result }
    ensures filled { IfOk result (IsFilled columns (K.told keeper.new) table) }
{
    // Called for what it says: the rows fit the table, and stand by rising numbers.
    keeper.fits();
    let mut book = Book::new(alloc, columns)?;
    let mut after = 0;
    for _ in 0..u32::MAX {
        match count_page(alloc, keeper, table, after, &mut book)? {
            Some(last) => after = last,
            None => {
                book.settle();
                return Ok(book);
            }
        }
    }
    // No table has so many pages.
    Err(KeeperEnd::Memory)
}

/// What is counted of the rows of the tables of a schema.
pub fn fill<K: Keeper>(
    alloc: Global,
    keeper: &mut K,
    schema: &Schema,
) -> Result<Vec<Book>, KeeperEnd>
    requires shaped { (K.shaped keeper.old).now ≡ Some schema.now }
    requires lawful { IsLawfulSchema schema.now }
    ensures looked { OnlyLooks K.Keeper keeper.old keeper.new }
    ensures cause { HasCause K.Keeper keeper.old keeper.new result }
    ensures counted { IfOk result (λ v. AreCounted (Some schema.now) (map now_of v.items)
        (K.told keeper.new)) }
    ensures still { IfOk result (λ v. map then_of v.items ≡ map now_of v.items) }
{
    let mut books = Vec::new(alloc);
    for (place, shape) in schema.tables.as_slice().iter().enumerate() {
        books.push(fill_table(alloc, keeper, place as u16, shape.columns.len())?)?;
    }
    Ok(books)
}
