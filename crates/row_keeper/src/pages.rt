// What queries give that take the first rows by their numbers.
ghost use Rattle.std.specs.Prelude.{◌≡◌, ◌≤◌, ◌<◌, ◌⊎◌, ◌++◌, ◌∷◌, [], true, slice_get, IfOk};
ghost use Rattle.std.specs.Prelude.{IfSome, IsSomeAnd};
ghost use Rattle.std.specs.List.{All};
ghost use Rattle.row_queries.specs.Queries.{IsQuery};
ghost use Rattle.row_queries.specs.TableRows.{IsRowOf, rows_at};
ghost use Rattle.row_keeper.specs.Pages.{GoesByNumber, HoldOneKey, IsPage, QueryGives};
ghost use Rattle.row_keeper.specs.Rules.{only_key};
ghost use Rattle.row_keeper.specs.Tables.{rows_of_tables, shapes_of};

use crate::answers::give_rows;
use crate::constants::is_sound;
use crate::scans::{first_rows, judge};
use crate::store::Store;
use fx_base::Memory;
use row_queries::{KeyRange, Query, Row};
use std::alloc::Global;

/// The rows that a query gives, and how many were asked for them.
#[derive(Drop)]
pub struct Page {
    pub rows: Vec<Row>,
    pub asked: usize,
}

/// Whether bytes are the first ones after others: those with a 0 behind.
fn is_next(bytes: &[u8], next: &[u8]) -> bool
    ensures { result ≡ true → next.now ≡ bytes.now ++ 0 ∷ [] }
{
    match next {
        [start @ .., last] => *last == 0 && start == bytes,
        [] => false,
    }
}

/// Whether a range holds its first key alone.
fn is_of_one_key(range: &KeyRange) -> bool
    ensures { result ≡ true → range.now ≡ only_key range.now.from }
{
    match &range.upto {
        Some(upto) => is_next(range.from.as_bytes(), upto.as_bytes()),
        None => false,
    }
}

/// Whether ranges hold one key alone.
fn hold_one_key(ranges: &[KeyRange]) -> bool
    ensures { result ≡ true → HoldOneKey ranges.now }
{
    match ranges {
        [range] => is_of_one_key(range),
        _ => false,
    }
}

/// Whether a query goes by the numbers of rows.
fn goes_by_number(query: &Query) -> bool
    ensures { result ≡ true → GoesByNumber query.now.column query.now.ranges }
{
    query.column == 0 || hold_one_key(query.ranges.as_slice())
}

/// How many rows a query takes, where it takes the first ones by their numbers and no constant of
/// its test is an error.
pub fn page_size(query: &Query) -> Option<u32>
    ensures { IfSome result (λ n. IsPage query.now n) }
{
    if !goes_by_number(query) || !is_sound(&query.test) {
        return None;
    }
    match query.order {
        None => query.take,
        Some(_) => None,
    }
}

/// Whether rows that were asked are enough: so many of them meet the test, or there are no more.
fn are_enough(met: usize, most: u32, asked: usize, size: u32) -> bool
    ensures { result ≡ true → (most ≤ met) ⊎ (asked < size) }
{
    met >= most as usize || asked < size as usize
}

/// What a query gives, where the first rows are enough for it, at most so many.
fn give_first(
    alloc: Global,
    store: &Store,
    query: &Query,
    most: u32,
    size: u32,
) -> Result<Option<Page>, Memory>
    requires query { IsQuery (shapes_of store.now.schema) query.now }
    requires page { IsPage query.now most }
    ensures given { IfOk result (λ o. IfSome o
        (λ p. QueryGives query.now (rows_at (rows_of_tables store.now.now) query.now.table)
        p.rows.items p.asked)) }
    ensures fit { IfOk result (λ o. IfSome o (λ p. IsSomeAnd
        (slice_get (shapes_of store.now.schema) query.now.table)
        (λ t. All (IsRowOf t) p.rows.items))) }
{
    let first = store.first(query, size)?;
    let asked = first.len();
    let judged = judge(alloc, first, query)?;
    if are_enough(judged.rows.len(), most, asked, size) {
        Ok(Some(Page {
            rows: first_rows(judged.rows, query.take),
            asked,
        }))
    } else {
        Ok(None)
    }
}

/// What a query gives, by all rows that it asks.
fn give_all(alloc: Global, store: &Store, query: &Query, most: u32) -> Result<Page, Memory>
    requires query { IsQuery (shapes_of store.now.schema) query.now }
    requires page { IsPage query.now most }
    ensures given { IfOk result (λ p. QueryGives query.now
        (rows_at (rows_of_tables store.now.now) query.now.table) p.rows.items p.asked) }
    ensures fit { IfOk result (λ p. IsSomeAnd
        (slice_get (shapes_of store.now.schema) query.now.table)
        (λ t. All (IsRowOf t) p.rows.items)) }
{
    let all = store.ask(query)?;
    let asked = all.len();
    let rows = give_rows(alloc, all, query)?;
    Ok(Page { rows, asked })
}

/// What a query gives that takes the first rows by their numbers. Rows behind those that it needs
/// aren't looked at, or few of them.
pub fn give_page(alloc: Global, store: &Store, query: &Query, most: u32) -> Result<Page, Memory>
    requires query { IsQuery (shapes_of store.now.schema) query.now }
    requires page { IsPage query.now most }
    ensures given { IfOk result (λ p. QueryGives query.now
        (rows_at (rows_of_tables store.now.now) query.now.table) p.rows.items p.asked) }
    ensures fit { IfOk result (λ p. IsSomeAnd
        (slice_get (shapes_of store.now.schema) query.now.table)
        (λ t. All (IsRowOf t) p.rows.items)) }
{
    // At first as many as are wanted, and then eight times as many each time: a test that few rows
    // meet costs hardly more than one pass over the rows in the ranges.
    let mut size = most;
    for _ in 0..7 {
        if let Some(page) = give_first(alloc, store, query, most, size)? {
            return Ok(page);
        }
        size = size.saturating_mul(8);
    }
    give_all(alloc, store, query, most)
}
