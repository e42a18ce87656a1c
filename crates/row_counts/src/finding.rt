// The row of a number, and the rows behind one.
ghost use Rattle.std.specs.Prelude.{IfOk, IfSome, IsSome, IsSomeAnd, slice_get};
ghost use Rattle.std.specs.List.{All};
ghost use Rattle.row_queries.specs.TableRows.{AreHeldRows, IsRowOf};
ghost use Rattle.row_keeper.specs.Over.{HasCause};
ghost use Rattle.row_keeper.specs.Tables.{shapes_of, state_at};
ghost use Rattle.row_counts.specs.Looking.{AreNumbersOf, IsFound, IsPage, OnlyLooks};
ghost use Rattle.row_books.specs.Numbers.{by_columns};

use crate::queries::{one_row, page_after};
use fx_value::keys_order;
use row_books::Numbers;
use row_keeper::{Keeper, KeeperEnd};
use row_queries::{Row, asked_once};
use std::alloc::Global;

/// The row of a number, if there is one.
fn find_row<K: Keeper>(
    alloc: Global,
    keeper: &mut K,
    table: u16,
    id: u32,
) -> Result<Option<Row>, KeeperEnd>
    requires { IsSome (slice_get (shapes_of (K.shaped keeper.old).now) table) }
    ensures looked { OnlyLooks K.Keeper keeper.old keeper.new }
    ensures cause { HasCause K.Keeper keeper.old keeper.new result }
    ensures found { IfOk result (IsFound (K.told keeper.new) table id) }
{
    // Called for what it says: rows that stand by rising numbers are asked in that order.
    asked_once();
    let query = one_row(alloc, table, id)?;
    match keeper.scan(&query) {
        Ok(answer) => {
            let mut rows = answer.rows.into_items();
            Ok(rows.pop())
        }
        Err(end) => Err(end),
    }
}

/// The numbers of the row of a number, and none where there is no such row.
pub fn row_numbers<K: Keeper>(
    alloc: Global,
    keeper: &mut K,
    table: u16,
    id: u32,
) -> Result<Numbers, KeeperEnd>
    requires { IsSome (slice_get (shapes_of (K.shaped keeper.old).now) table) }
    ensures looked { OnlyLooks K.Keeper keeper.old keeper.new }
    ensures cause { HasCause K.Keeper keeper.old keeper.new result }
    ensures found { IfOk result (λ n. AreNumbersOf (K.told keeper.new) table id (by_columns n)) }
{
    match find_row(alloc, keeper, table, id)? {
        Some(row) => Ok(Numbers::of_row(alloc, row.id, row.cells.as_slice())?),
        None => Ok(Numbers::none(alloc)),
    }
}

/// The first rows of greater numbers, as many as a page has.
pub fn next_rows<K: Keeper>(
    alloc: Global,
    keeper: &mut K,
    table: u16,
    after: u32,
) -> Result<Vec<Row>, KeeperEnd>
    requires { IsSome (slice_get (shapes_of (K.shaped keeper.old).now) table) }
    ensures looked { OnlyLooks K.Keeper keeper.old keeper.new }
    ensures cause { HasCause K.Keeper keeper.old keeper.new result }
    ensures found { IfOk result (λ rows. IsPage (K.told keeper.new) table after rows.items) }
    ensures fit { IfOk result (λ rows. IsSomeAnd
        (slice_get (shapes_of (K.shaped keeper.old).now) table) (λ t. All (IsRowOf t) rows.items)) }
    ensures held { IfOk result (λ _. IfSome (K.told keeper.new) (λ t. IsSomeAnd
        (slice_get (shapes_of (K.shaped keeper.old).now) table)
        (λ shape. AreHeldRows shape (state_at t.states table).rows))) }
{
    // Both are called for what they say: such rows are asked in that order, and their keys go as
    // their numbers do.
    asked_once();
    keys_order();
    let query = page_after(alloc, table, after)?;
    match keeper.scan(&query) {
        Ok(answer) => Ok(answer.rows.into_items()),
        Err(end) => Err(end),
    }
}
