//! Rows in memory.
ghost use Rattle.std.specs.Prelude.{◌≡◌, ◌≢◌, ◌≤◌, ◌+◌, Some, true, false, length, map, slice_get};
ghost use Rattle.std.specs.Prelude.{filter, IfNone, IfOk, IfSome, IsSome, IsSomeAnd, OnErr, OnOk};
ghost use Rattle.std.specs.List.{All, AllByRecursion};
ghost use Rattle.fx_core.specs.Lawful.{IsLawfulSchema};
ghost use Rattle.row_queries.specs.Answers.{IsCountAnswer, IsTotalAnswer};
ghost use Rattle.row_queries.specs.Queries.{AreAsked, CanTotal, IsQuery, IsScanned, lies};
ghost use Rattle.row_queries.specs.RowTests.{HasNoFaults};
ghost use Rattle.row_queries.specs.TableRows.{IsRowOf, rows_at};
ghost use Rattle.row_queries.specs.Visits.{VisitsAtLeast, VisitsItsRanges};
ghost use Rattle.row_keeper.specs.Causes.{HasCause, end_of};
ghost use Rattle.row_keeper.specs.Changes.{CountsQuery, Shapes, TotalsUp};
ghost use Rattle.row_keeper.specs.InMemory.{EndsAsPlanned, EndsByPlan, memory_marks, unused};
ghost use Rattle.row_keeper.specs.Pages.{CountsAsked, IsPage};
ghost use Rattle.row_keeper.specs.Shaped.{by};
ghost use Rattle.row_keeper.specs.Skips.{numbers_passed};
ghost use Rattle.row_keeper.specs.StoreView.{shape_of, tables_now};
ghost use Rattle.row_keeper.specs.Tables.{AreStatesOf, rows_of_tables, shapes_of};

use crate::answers::{answer, give_rows, values_in};
use crate::keeper::{Keeper, KeeperEnd};
use crate::moves::TableMove;
use crate::pages::{give_page, page_size};
use crate::rows::{Put, Reshaped};
use crate::scans::list;
use crate::store::Store;
use fx_base::Memory;
use fx_base::plan::FaultPlan;
use fx_core::Schema;
use fx_tables::totals;
use fx_types::Totals;
use row_queries::{Cells, Query, Row, RowList};
use std::alloc::Global;
use std::marker::Model;

/// Rows in memory. It tells all that it keeps, and fails only at the calls that it was told to.
#[derive(Drop)]
pub struct MemoryKeeper {
    alloc: Global,
    name: Option<String>,
    store: Store,
    visited: u64,
    plan: FaultPlan,
}

impl Model for MemoryKeeper {
    ghost use Rattle.std.specs.Prelude.{option_map, string_bytes};
    ghost use Rattle.std.specs.Coded.{codes};
    ghost use Rattle.fx_core.specs.contracts.schema.Schema.{the_row as schema_row};
    ghost use Rattle.row_queries.specs.contracts.rows.Row.{the_row as row_row};
    ghost use Rattle.row_keeper.specs.InMemory.{InMemory};

    ghost Value = { InMemory };

    ghost coded = { Prim.hlevel (codes, schema_row.coded, row_row.coded) };

    ghost view = { λ k. record {
      name = option_map string_bytes k.name;
      store = k.store;
      visited = k.visited;
      plan = k.plan;
    } };
}

impl MemoryKeeper {
    /// No schema and no transaction. The calls that the plan names are to fail; `back` isn't
    /// counted.
    pub fn new(alloc: Global, plan: FaultPlan) -> MemoryKeeper
        ensures { result ≡ unused plan }
    {
        MemoryKeeper {
            alloc,
            name: None,
            store: Store::new(alloc),
            visited: 0,
            plan,
        }
    }

    /// How many rows have been visited.
    pub fn visits(&self) -> u64
        ensures { result ≡ self.now.visited }
    {
        self.visited
    }

    /// How many calls have failed.
    pub fn faults(&self) -> u64
        ensures { result ≡ self.now.plan.count }
    {
        self.plan.count()
    }

    /// Passes over the numbers up to this one: no table gives one of them any more, once the
    /// transaction has ended with its changes. So the end of the numbers can be tried.
    pub fn skip_to(&mut self, number: u32)
        requires { self.old.store.is_begun ≡ true }
        ensures { self.new ≡ record self.old {
          store = record self.old.store
              { now = map (numbers_passed number) self.old.store.now };
        } }
    {
        self.store.skip_to(number);
    }

    /// Counts so many rows as visited.
    fn visit(&mut self, rows: usize)
        ensures least { VisitsAtLeast rows self.old.visited self.new.visited }
        ensures most { self.new.visited ≤ self.old.visited + rows }
        ensures later { self.old.visited ≤ self.new.visited }
        ensures same { self.new ≡ record self.old { visited = self.new.visited } }
    {
        self.visited = self.visited.saturating_add(rows as u64);
    }

    /// What a query answers that takes the first rows by their numbers.
    fn page(&mut self, query: &Query, most: u32) -> Result<RowList, Memory>
        requires query { IsQuery (shapes_of self.old.store.schema) query.now }
        requires page { IsPage query.now most }
        ensures rows { IfOk result (λ a. IsScanned query.now
            (rows_at (rows_of_tables self.old.store.now) query.now.table) a) }
        ensures fit { IfOk result (λ a. IsSomeAnd
            (slice_get (shapes_of self.old.store.schema) query.now.table)
            (λ t. All (IsRowOf t) a.rows)) }
        ensures least { IfOk result (λ a. CountsAsked query.now
            (rows_at (rows_of_tables self.old.store.now) query.now.table) (length a.rows)
            self.old.visited self.new.visited) }
        ensures most { VisitsItsRanges query.now
            (rows_at (rows_of_tables self.old.store.now) query.now.table) self.old.visited
            self.new.visited }
        ensures later { self.old.visited ≤ self.new.visited }
        ensures same { self.new ≡ record self.old { visited = self.new.visited } }
    {
        let page = give_page(self.alloc, &self.store, query, most)?;
        self.visit(page.asked);
        Ok(RowList {
            rows: list(self.alloc, page.rows)?,
            fault: None,
        })
    }

    /// What a query answers, over all rows that it asks.
    fn answer_all(&mut self, query: &Query) -> Result<RowList, Memory>
        requires { IsQuery (shapes_of self.old.store.schema) query.now }
        ensures rows { IfOk result (λ a. IsScanned query.now
            (rows_at (rows_of_tables self.old.store.now) query.now.table) a) }
        ensures fit { IfOk result (λ a. IsSomeAnd
            (slice_get (shapes_of self.old.store.schema) query.now.table)
            (λ t. All (IsRowOf t) a.rows)) }
        ensures least { IfOk result (λ a. CountsAsked query.now
            (rows_at (rows_of_tables self.old.store.now) query.now.table) (length a.rows)
            self.old.visited self.new.visited) }
        ensures most { VisitsItsRanges query.now
            (rows_at (rows_of_tables self.old.store.now) query.now.table) self.old.visited
            self.new.visited }
        ensures later { self.old.visited ≤ self.new.visited }
        ensures same { self.new ≡ record self.old { visited = self.new.visited } }
    {
        let asked = self.ask(query)?;
        Ok(answer(self.alloc, asked, query)?)
    }

    /// What a query answers.
    fn answer(&mut self, query: &Query) -> Result<RowList, Memory>
        requires { IsQuery (shapes_of self.old.store.schema) query.now }
        ensures rows { IfOk result (λ a. IsScanned query.now
            (rows_at (rows_of_tables self.old.store.now) query.now.table) a) }
        ensures fit { IfOk result (λ a. IsSomeAnd
            (slice_get (shapes_of self.old.store.schema) query.now.table)
            (λ t. All (IsRowOf t) a.rows)) }
        ensures least { IfOk result (λ a. CountsAsked query.now
            (rows_at (rows_of_tables self.old.store.now) query.now.table) (length a.rows)
            self.old.visited self.new.visited) }
        ensures most { VisitsItsRanges query.now
            (rows_at (rows_of_tables self.old.store.now) query.now.table) self.old.visited
            self.new.visited }
        ensures later { self.old.visited ≤ self.new.visited }
        ensures same { self.new ≡ record self.old { visited = self.new.visited } }
    {
        match page_size(query) {
            Some(most) => self.page(query, most),
            None => self.answer_all(query),
        }
    }

    /// The rows that a query asks, in its order. They are counted as visited.
    fn ask(&mut self, query: &Query) -> Result<Vec<Row>, Memory>
        requires { IsQuery (shapes_of self.old.store.schema) query.now }
        ensures asked { IfOk result (λ rows. AreAsked query.now
            (rows_at (rows_of_tables self.old.store.now) query.now.table) rows.items) }
        ensures fit { IfOk result (λ rows. IsSomeAnd
            (slice_get (shapes_of self.old.store.schema) query.now.table)
            (λ t. AllByRecursion (IsRowOf t) rows.items)) }
        ensures few { IfOk result (λ rows. length rows.items ≤ 200000) }
        ensures least { IfOk result (λ rows. VisitsAtLeast (length rows.items) self.old.visited
            self.new.visited) }
        ensures most { VisitsItsRanges query.now
            (rows_at (rows_of_tables self.old.store.now) query.now.table) self.old.visited
            self.new.visited }
        ensures later { self.old.visited ≤ self.new.visited }
        ensures same { self.new ≡ record self.old { visited = self.new.visited } }
    {
        let rows = self.store.ask(query)?;
        self.visit(rows.len());
        Ok(rows)
    }
}

impl Keeper for MemoryKeeper {
    ghost use Rattle.std.specs.Prelude.{None};
    ghost use Rattle.std.proofs.Common.{sym};
    ghost use Rattle.std.proofs.lemmas.Option.{none-some};
    ghost use Rattle.row_keeper.specs.InMemory.{EndsWithoutMemory};
    ghost use Rattle.row_keeper.specs.StoreView.{tables_then};

    ghost told = { λ k. Some (tables_now k.store) };

    ghost began = { λ k. Some (tables_then k.store) };

    ghost leaves = { λ _. None };

    ghost attached = { λ k. Some k.name };

    ghost shaped = { λ k. shape_of k.store };

    ghost in_transaction = { λ k. k.store.is_begun };

    ghost marks = { memory_marks };

    ghost visited = { λ k. k.visited };

    ghost loan = { λ _. None };

    ghost attaches = { λ k name l. l.store ≡ k.store };

    ghost ends = { λ k l end. EndsByPlan EndsAsPlanned k.plan l.plan end };

    ghost commits = { λ k l end. EndsByPlan EndsWithoutMemory k.plan l.plan end };

    ghost backs = { λ k l. l.plan ≡ k.plan };

    ghost quiet = { λ k e. absurd (none-some (tables_now k.store) (sym e)) };

    ghost heard = { λ _ h. h };

    fn attach(&mut self, name: &str) -> Result<(), KeeperEnd>
        requires idle { self.old.store.is_begun ≡ false }
        ensures attached { OnOk result (self.new.name ≡ Some name.now) }
        ensures err { OnErr result (self.new.name ≡ self.old.name) }
        ensures cause { HasCause (memory_marks self.old) (memory_marks self.new) result }
        ensures ends { EndsByPlan EndsAsPlanned self.old.plan self.new.plan (end_of result) }
        // Beside what each keeper ensures: what it keeps of tables stays, and no row is visited.
        ensures store { self.new.store ≡ self.old.store }
        ensures visited { self.new.visited ≡ self.old.visited }
    {
        if self.plan.next_fails() {
            return Err(KeeperEnd::Failed);
        }
        self.name = Some(String::from_str(self.alloc, name)?);
        Ok(())
    }

    fn shape(&mut self, schema: &Schema) -> Result<Option<Schema>, KeeperEnd>
        requires idle { self.old.store.is_begun ≡ false }
        requires lawful { IsLawfulSchema schema.now }
        ensures tables { IfOk result (λ other. Shapes schema.now other (tables_now self.old.store)
            (tables_now self.new.store)) }
        ensures another { IfOk result (λ other. IfSome other (λ s. s ≢ schema.now)) }
        ensures sound { IfOk result (λ other. IfNone other
            (AreStatesOf schema.now.tables self.new.store.now)) }
        ensures shaped { IfOk result (λ other. IfNone other
            (shape_of self.new.store ≡ by schema.now)) }
        ensures idle { self.new.store.is_begun ≡ false }
        ensures cause { HasCause (memory_marks self.old) (memory_marks self.new) result }
        ensures ends { EndsByPlan EndsAsPlanned self.old.plan self.new.plan (end_of result) }
        // Beside what each keeper ensures: where no schema comes to be kept all stays, and no row
        // is visited.
        ensures unshaped { IfOk result (λ other. IsSome other → self.new.store ≡ self.old.store) }
        ensures err { OnErr result (self.new.store ≡ self.old.store) }
        ensures around { (self.new.name ≡ self.old.name) × (self.new.visited ≡ self.old.visited) }
    {
        if self.plan.next_fails() {
            return Err(KeeperEnd::Failed);
        }
        Ok(self.store.shape(schema)?)
    }

    fn begin(&mut self) -> Result<(), KeeperEnd> {
        if self.plan.next_fails() {
            return Err(KeeperEnd::Failed);
        }
        self.store.begin();
        Ok(())
    }

    fn insert(&mut self, table: u16, cells: &Cells) -> Result<Put, KeeperEnd> {
        if self.plan.next_fails() {
            return Err(KeeperEnd::Failed);
        }
        Ok(self.store.insert(table, cells)?)
    }

    fn replace(&mut self, table: u16, id: u32, cells: &Cells) -> Result<Put, KeeperEnd> {
        if self.plan.next_fails() {
            return Err(KeeperEnd::Failed);
        }
        Ok(self.store.replace(table, id, cells)?)
    }

    fn remove(&mut self, table: u16, id: u32) -> Result<bool, KeeperEnd> {
        if self.plan.next_fails() {
            return Err(KeeperEnd::Failed);
        }
        Ok(self.store.remove(table, id)?)
    }

    fn reshape(&mut self, schema: &Schema, moves: &[TableMove]) -> Result<Reshaped, KeeperEnd> {
        if self.plan.next_fails() {
            return Err(KeeperEnd::Failed);
        }
        Ok(self.store.reshape(schema, moves)?)
    }

    fn commit(&mut self) -> Result<(), KeeperEnd> {
        if self.plan.next_fails() {
            self.store.restore();
            return Err(KeeperEnd::Failed);
        }
        self.store.settle();
        Ok(())
    }

    fn back(&mut self) {
        self.store.restore();
    }

    fn scan(&mut self, query: &Query) -> Result<RowList, KeeperEnd> {
        if self.plan.next_fails() {
            return Err(KeeperEnd::Failed);
        }
        self.store.are_held(query);
        Ok(self.answer(query)?)
    }

    fn count(&mut self, query: &Query) -> Result<u32, KeeperEnd>
        requires query { IsQuery (shapes_of self.old.store.schema) query.now }
        requires sound { HasNoFaults query.now.test }
        ensures answer { IfOk result (λ n. IsCountAnswer (shapes_of self.old.store.schema)
            (Some (rows_of_tables self.new.store.now)) query.now n) }
        ensures number { IfOk result (λ n. CountsQuery query.now n (tables_now self.old.store)
            (tables_now self.new.store)) }
        ensures most { VisitsItsRanges query.now
            (rows_at (rows_of_tables self.new.store.now) query.now.table) self.old.visited
            self.new.visited }
        ensures cause { HasCause (memory_marks self.old) (memory_marks self.new) result }
        ensures ends { EndsByPlan EndsAsPlanned self.old.plan self.new.plan (end_of result) }
        // Beside what each keeper ensures: what it keeps stays, and all rows that are asked are
        // counted.
        ensures store { self.new.store ≡ self.old.store }
        ensures around { (self.new.name ≡ self.old.name) × (self.old.visited ≤ self.new.visited) }
        ensures counted { IfOk result (λ _. VisitsAtLeast (length (filter (lies query.now)
            (rows_at (rows_of_tables self.old.store.now) query.now.table))) self.old.visited
            self.new.visited) }
    {
        if self.plan.next_fails() {
            return Err(KeeperEnd::Failed);
        }
        self.store.are_held(query);
        let rows = self.ask(query)?;
        let given = give_rows(self.alloc, rows, query)?;
        Ok(given.len() as u32)
    }

    fn total(&mut self, query: &Query, column: u16) -> Result<Totals, KeeperEnd>
        requires query { IsQuery (shapes_of self.old.store.schema) query.now }
        requires sound { HasNoFaults query.now.test }
        requires column { CanTotal (shapes_of self.old.store.schema) query.now column }
        ensures answer { IfOk result (λ totals. IsTotalAnswer (shapes_of self.old.store.schema)
            (Some (rows_of_tables self.new.store.now)) query.now column totals) }
        ensures totals { IfOk result (λ totals. TotalsUp query.now column totals
            (tables_now self.old.store) (tables_now self.new.store)) }
        ensures most { VisitsItsRanges query.now
            (rows_at (rows_of_tables self.new.store.now) query.now.table) self.old.visited
            self.new.visited }
        ensures cause { HasCause (memory_marks self.old) (memory_marks self.new) result }
        ensures ends { EndsByPlan EndsAsPlanned self.old.plan self.new.plan (end_of result) }
        // Beside what each keeper ensures: what it keeps stays, and all rows that are asked are
        // counted.
        ensures store { self.new.store ≡ self.old.store }
        ensures around { (self.new.name ≡ self.old.name) × (self.old.visited ≤ self.new.visited) }
        ensures counted { IfOk result (λ _. VisitsAtLeast (length (filter (lies query.now)
            (rows_at (rows_of_tables self.old.store.now) query.now.table))) self.old.visited
            self.new.visited) }
    {
        if self.plan.next_fails() {
            return Err(KeeperEnd::Failed);
        }
        self.store.are_held(query);
        let asked = self.ask(query)?;
        let rows = give_rows(self.alloc, asked, query)?;
        let values = values_in(self.alloc, rows.as_slice(), column)?;
        Ok(totals(values.as_slice()))
    }

    fn fits(&self) {
        self.store.fits();
    }
}
