//! A keeper with kept totals.
ghost use Rattle.std.specs.Prelude.{◌≡◌, ◌≤◌, ℕ, Bool, true, false, List, Option, Some, None};
ghost use Rattle.std.specs.Prelude.{IfNone, IfOk, IfSome, IsOk};
ghost use Rattle.fx_base.specs.Silence.{Marks};
ghost use Rattle.row_queries.specs.Answers.{IsCountAnswer, IsTotalAnswer};
ghost use Rattle.row_queries.specs.Queries.{CanTotal, IsQuery};
ghost use Rattle.row_queries.specs.Ranges.{AreRangesRising};
ghost use Rattle.row_queries.specs.RowTests.{HasNoFaults};
ghost use Rattle.row_queries.specs.Visits.{VisitsTold};
ghost use Rattle.row_keeper.specs.Changes.{CountsQuery, TotalsUp};
ghost use Rattle.row_keeper.specs.Over.{Becomes, HasCause};
ghost use Rattle.row_keeper.specs.Tables.{rows_told, shapes_of};
ghost use Rattle.row_books.specs.Numbers.{IsCountOf, IsTotalOf, column_in, tables_now};
ghost use Rattle.row_books.specs.Numbers.{tables_then};
ghost use Rattle.row_counts.specs.Looking.{OnlyLooks};
ghost use Rattle.row_counts.specs.Whole.{IsOfAllRows};
ghost use Rattle.row_totals.specs.Kept.{IsTallied, shaped_if};
ghost use Rattle.row_totals.specs.Propositions.{tallied_prop};

use crate::carrying::{insert_row, remove_row, replace_row};
use fx_core::Schema;
use fx_types::Totals;
use fx_value::compare_is_total;
use row_books::Books;
use row_counts::{asks_all, fill};
use row_keeper::{Keeper, KeeperEnd, Put, Reshaped, TableMove};
use row_queries::{Cells, Query, RowList};
use std::alloc::Global;

/// A keeper with totals that are kept beside its rows. A count or a total of a whole table visits
/// no row.
///
/// It is shaped where its own `shape` has counted the rows since the last `attach`. What a call
/// changes of the totals is made ready before the inner keeper is called, so that nothing can fail
/// after it; and `back` and `commit` take no memory.
#[derive(Drop)]
pub struct Tallied<K: Keeper> {
    alloc: Global,
    keeper: K,
    books: Books,
    /// Whether the books are those of the keeper's rows.
    is_filled: bool,
    /// The same as the transaction began.
    was_filled: bool,
    ghost kept: { IsTallied is_filled was_filled (tables_now books) (tables_then books)
        (K.shaped keeper) (K.in_transaction keeper) (K.told keeper)
        (K.began keeper) } by { tallied_prop },
}

impl<K: Keeper> Tallied<K> {
    /// A keeper whose rows aren't counted yet.
    pub fn new(alloc: Global, keeper: K) -> Tallied<K>
        ensures keeper { result.keeper ≡ keeper }
        ensures filled { result.is_filled ≡ false }
    {
        Tallied {
            alloc,
            keeper,
            books: Books::new(alloc),
            is_filled: false,
            was_filled: false,
        }
    }

    /// The keeper.
    pub fn into_inner(self) -> K
        ensures { result ≡ self.keeper }
    {
        self.keeper
    }
}

/// How many rows a table has, where a query asks all of them.
fn counted(books: &Books, query: &Query) -> Option<u32>
    requires { AreRangesRising query.now.ranges }
    ensures whole { IfSome result (λ n. IsOfAllRows query.now
        × IsCountOf (column_in (tables_now books.now) query.now.table 0) (Some n)) }
    ensures none { IfNone result (IsOfAllRows query.now
        → IsCountOf (column_in (tables_now books.now) query.now.table 0) None) }
{
    if asks_all(query) {
        books.count(query.table)
    } else {
        None
    }
}

/// What a column of a table comes to, where a query asks all its rows.
fn totalled(books: &Books, query: &Query, column: u16) -> Option<Totals>
    requires { AreRangesRising query.now.ranges }
    ensures whole { IfSome result (λ totals. IsOfAllRows query.now
        × IsTotalOf (column_in (tables_now books.now) query.now.table column) (Some totals)) }
    ensures none { IfNone result (IsOfAllRows query.now
        → IsTotalOf (column_in (tables_now books.now) query.now.table column) None) }
{
    if asks_all(query) {
        books.totals(query.table, column)
    } else {
        None
    }
}

impl<K: Keeper> Keeper for Tallied<K> {
    ghost told = { λ k. K.told k.keeper };

    ghost began = { λ k. K.began k.keeper };

    ghost leaves = { λ k. K.leaves k.keeper };

    ghost attached = { λ k. K.attached k.keeper };

    ghost shaped = { λ k. shaped_if k.is_filled k.was_filled (K.shaped k.keeper) };

    ghost in_transaction = { λ k. K.in_transaction k.keeper };

    ghost marks = { λ k. K.marks k.keeper };

    ghost visited = { λ k. K.visited k.keeper };

    ghost loan = { λ k. K.loan k.keeper };

    ghost attaches = { λ k name l. K.attaches k.keeper name l.keeper };

    ghost ends = { λ _ _ _. Unit {0} };

    ghost commits = { λ k l end. K.commits k.keeper l.keeper end };

    ghost backs = { λ k l. K.backs k.keeper l.keeper };

    ghost quiet = { λ k. K.quiet k.keeper };

    ghost heard = { λ k. K.heard k.keeper };

    fn attach(&mut self, name: &str) -> Result<(), KeeperEnd> {
        self.is_filled = false;
        self.was_filled = false;
        self.keeper.attach(name)
    }

    fn shape(&mut self, schema: &Schema) -> Result<Option<Schema>, KeeperEnd> {
        match self.keeper.shape(schema) {
            Ok(Some(other)) => Ok(Some(other)),
            Ok(None) => {
                self.is_filled = false;
                self.was_filled = false;
                let books = fill(self.alloc, &mut self.keeper, schema)?;
                self.books.fill(books);
                self.is_filled = true;
                self.was_filled = true;
                Ok(None)
            }
            Err(end) => {
                self.is_filled = false;
                self.was_filled = false;
                Err(end)
            }
        }
    }

    fn begin(&mut self) -> Result<(), KeeperEnd> {
        self.keeper.begin()
    }

    fn insert(&mut self, table: u16, cells: &Cells) -> Result<Put, KeeperEnd> {
        insert_row(self.alloc, &mut self.keeper, &mut self.books, table, cells)
    }

    fn replace(&mut self, table: u16, id: u32, cells: &Cells) -> Result<Put, KeeperEnd> {
        replace_row(
            self.alloc,
            &mut self.keeper,
            &mut self.books,
            table,
            id,
            cells,
        )
    }

    fn remove(&mut self, table: u16, id: u32) -> Result<bool, KeeperEnd> {
        remove_row(self.alloc, &mut self.keeper, &mut self.books, table, id)
    }

    fn reshape(&mut self, schema: &Schema, moves: &[TableMove]) -> Result<Reshaped, KeeperEnd> {
        match self.keeper.reshape(schema, moves) {
            Ok(Reshaped::Broken(table, refusal)) => Ok(Reshaped::Broken(table, refusal)),
            Ok(Reshaped::Done) => {
                self.is_filled = false;
                let books = fill(self.alloc, &mut self.keeper, schema)?;
                self.books.move_to(books);
                self.is_filled = true;
                Ok(Reshaped::Done)
            }
            Err(end) => {
                self.is_filled = false;
                Err(end)
            }
        }
    }

    fn commit(&mut self) -> Result<(), KeeperEnd> {
        match self.keeper.commit() {
            Ok(()) => {
                self.books.settle();
                self.was_filled = self.is_filled;
                Ok(())
            }
            Err(end) => {
                self.books.restore();
                self.is_filled = self.was_filled;
                Err(end)
            }
        }
    }

    fn back(&mut self) {
        self.keeper.back();
        self.books.restore();
        self.is_filled = self.was_filled;
    }

    fn scan(&mut self, query: &Query) -> Result<RowList, KeeperEnd> {
        self.keeper.scan(query)
    }

    fn count(&mut self, query: &Query) -> Result<u32, KeeperEnd>
        requires query { IsQuery (shapes_of (shaped_if self.old.is_filled self.old.was_filled
            (K.shaped self.old.keeper)).now) query.now }
        requires sound { HasNoFaults query.now.test }
        ensures answer { IfOk result (λ n. IsCountAnswer (shapes_of
            (shaped_if self.old.is_filled self.old.was_filled (K.shaped self.old.keeper)).now)
            (rows_told (K.told self.new.keeper)) query.now n) }
        ensures number { IfOk result (λ n. Becomes K.Keeper self.old.keeper self.new.keeper
            (CountsQuery query.now n)) }
        ensures most { VisitsTold (rows_told (K.told self.new.keeper)) query.now
            (K.visited self.old.keeper) (K.visited self.new.keeper) }
        ensures looked { OnlyLooks K.Keeper self.old.keeper self.new.keeper }
        ensures shaped { shaped_if self.new.is_filled self.new.was_filled
            (K.shaped self.new.keeper)
            ≡ shaped_if self.old.is_filled self.old.was_filled (K.shaped self.old.keeper) }
        ensures cause { HasCause K.Keeper self.old.keeper self.new.keeper result }
        // Beside what each keeper ensures: of all rows none is visited, no call is made, and it
        // can't fail.
        ensures unvisited { IsOfAllRows query.now → (self.new.keeper ≡ self.old.keeper)
            × IsOk result }
    {
        // Both are called for what they say: the rows that are told fit their tables, and an order
        // of them is one of all values.
        self.keeper.fits();
        compare_is_total();
        match counted(&self.books, query) {
            Some(count) => Ok(count),
            None => self.keeper.count(query),
        }
    }

    fn total(&mut self, query: &Query, column: u16) -> Result<Totals, KeeperEnd>
        requires query { IsQuery (shapes_of (shaped_if self.old.is_filled self.old.was_filled
            (K.shaped self.old.keeper)).now) query.now }
        requires sound { HasNoFaults query.now.test }
        requires column { CanTotal (shapes_of (shaped_if self.old.is_filled self.old.was_filled
            (K.shaped self.old.keeper)).now) query.now column }
        ensures answer { IfOk result (λ totals. IsTotalAnswer (shapes_of
            (shaped_if self.old.is_filled self.old.was_filled (K.shaped self.old.keeper)).now)
            (rows_told (K.told self.new.keeper)) query.now column totals) }
        ensures totals { IfOk result (λ totals. Becomes K.Keeper self.old.keeper self.new.keeper
            (TotalsUp query.now column totals)) }
        ensures most { VisitsTold (rows_told (K.told self.new.keeper)) query.now
            (K.visited self.old.keeper) (K.visited self.new.keeper) }
        ensures looked { OnlyLooks K.Keeper self.old.keeper self.new.keeper }
        ensures shaped { shaped_if self.new.is_filled self.new.was_filled
            (K.shaped self.new.keeper)
            ≡ shaped_if self.old.is_filled self.old.was_filled (K.shaped self.old.keeper) }
        ensures cause { HasCause K.Keeper self.old.keeper self.new.keeper result }
        // Beside what each keeper ensures: of all rows none is visited, no call is made, and it
        // can't fail.
        ensures unvisited { IsOfAllRows query.now → (self.new.keeper ≡ self.old.keeper)
            × IsOk result }
    {
        // Both are called for what they say: the rows that are told fit their tables, and an order
        // of them is one of all values.
        self.keeper.fits();
        compare_is_total();
        match totalled(&self.books, query, column) {
            Some(totals) => Ok(totals),
            None => self.keeper.total(query, column),
        }
    }

    fn fits(&self) {
        self.keeper.fits();
    }
}
