//! The keeper.
ghost use Rattle.std.specs.Prelude.{◌≡◌, [], false, true, List, None, Some, IfOk, IsSome, IsSomeAnd};
ghost use Rattle.std.specs.Prelude.{slice_get};
ghost use Rattle.sqlite.specs.Held.{Held, state};
ghost use Rattle.sqlite.specs.Tree.{Trees};
ghost use Rattle.row_queries.specs.TableRows.{AreCellsOf};
ghost use Rattle.row_keeper.specs.Changes.{Inserts, IsInserted, IsReplaced, Removes, Replaces};
ghost use Rattle.row_keeper.specs.Crashes.{IsOneOf};
ghost use Rattle.row_keeper.specs.Tables.{Tables, columns_at, shapes_of};
ghost use Rattle.store_model.specs.Decoded.{tables_kept};
ghost use Rattle.store_model.specs.Model.{leaves_of, shape_of};
ghost use Rattle.store_keeper.specs.Calls.{Acts, Asks, Begins, Commits, GoesBack};
ghost use Rattle.store_keeper.specs.Kept.{kept};

use crate::acting::{ask_seat, count_visits, insert_seat, remove_seat, replace_seat};
use crate::seats::{count_fault, has_answer, write_seat};
use fx_core::Schema;
use row_changes::TableChanges;
use row_keeper::{KeeperEnd, Put};
use row_queries::{Cells, Query, Row};
use sqlite::{Alter, Connection};
use std::alloc::Global;
use std::marker::Model;
use store_model::RowCount;
use store_writing::{end_all, end_counts};

/// Rows in the tables of a connection of SQLite.
pub struct StoreKeeper<S: Alter> {
    alloc: Global,
    /// The connection, unless a fault has lost it.
    seat: Option<Connection<S>>,
    /// Whether it knows the tables of the database: they were made, or looked through, and no call
    /// has failed since.
    knows: bool,
    /// The schema that it is shaped by, if any, and for each of its tables what the transaction has
    /// made of it, and how many rows it has.
    schema: Option<Schema>,
    tables: Vec<TableChanges>,
    counts: Vec<RowCount>,
    is_begun: bool,
    visited: u64,
    faults: u64,
}

// By hand, so that it is called: what is derived is opened wherever a value may end, which costs
// proofs seconds each time.
impl<S: Alter + Drop> Drop for StoreKeeper<S> {
    fn drop(self) {
        let StoreKeeper {
            alloc: _,
            seat: _,
            knows: _,
            schema: _,
            tables: _,
            counts: _,
            is_begun: _,
            visited: _,
            faults: _,
        } = self;
    }
}

impl<S: Alter> Model for StoreKeeper<S> {
    ghost use Rattle.std.specs.Coded.{codes};
    ghost use Rattle.fx_core.specs.contracts.schema.Schema.{the_row as schema_row};
    ghost use Rattle.row_queries.specs.contracts.rows.Row.{the_row as row_row};
    ghost use Rattle.row_changes.specs.contracts.table.TableChanges.{the_row as changes_row};
    ghost use Rattle.sqlite.specs.Held.{held_code, state};
    ghost use Rattle.store_model.specs.contracts.counts.RowCount.{the_row as count_row};
    ghost use Rattle.store_model.specs.Model.{Kept};
    ghost use Rattle.store_keeper.specs.Kept.{IsSound, kept};

    ghost Value = { Kept S };

    ghost coded = { Prim.hlevel (
      codes,
      held_code S.code,
      schema_row.coded,
      row_row.coded,
      changes_row.coded,
      count_row.coded,
    ) };

    ghost view = { λ k. kept k.seat k.knows k.schema k.tables.items k.counts.items k.is_begun
        k.visited k.faults };

    ghost invariant = { λ k. IsSound (state S.Store) (kept k.seat k.knows k.schema k.tables.items
        k.counts.items k.is_begun k.visited k.faults) };
}

impl<S: Alter> StoreKeeper<S> {
    /// Takes a connection over. It knows nothing of the tables yet.
    pub fn adopt(alloc: Global, connection: Connection<S>) -> StoreKeeper<S>
        ensures { result ≡ kept (Some connection) false None [] [] false 0 0 }
    {
        StoreKeeper {
            alloc,
            seat: Some(connection),
            knows: false,
            schema: None,
            tables: Vec::new(alloc),
            counts: Vec::new(alloc),
            is_begun: false,
            visited: 0,
            faults: 0,
        }
    }

    /// A law, and no work: where it tells what a crash may leave, a crash at this moment leaves a
    /// database that stands for one of these tables.
    pub fn leaves(&self)
        ensures { (ts : List Tables) → leaves_of (state S.Store) self.now ≡ Some ts
            → (conn : Held S) → self.now.seat ≡ Some conn → (db : Trees)
            → (state S.Store conn).may_leave db → IsOneOf ts (tables_kept db) }
    {
        let _ = &self.seat;
    }

    /// Begins a transaction.
    pub fn begin_changes(&mut self)
        requires { self.old.is_begun ≡ false }
        ensures { Begins (state S.Store) self.old self.new }
    {
        self.is_begun = true;
    }

    /// Ends the transaction with its changes, which are written. Where that gives no answer it ends
    /// without them.
    pub fn end_with_changes(&mut self) -> Result<(), KeeperEnd>
        requires begun { self.old.is_begun ≡ true }
        requires shaped { IsSome (shape_of self.old).now }
        ensures { Commits (state S.Store) self.old self.new result }
    {
        let given = write_seat(self.alloc, &mut self.seat, &self.schema, &self.tables);
        count_fault(&mut self.knows, &mut self.faults, &given);
        let with_changes = has_answer(&given);
        end_all(&mut self.tables, with_changes);
        end_counts(&mut self.counts, with_changes);
        self.is_begun = false;
        given
    }

    /// Ends the transaction without its changes.
    pub fn end_without_changes(&mut self)
        requires { self.old.is_begun ≡ true }
        ensures { GoesBack (state S.Store) self.old self.new }
    {
        end_all(&mut self.tables, false);
        end_counts(&mut self.counts, false);
        self.is_begun = false;
    }

    /// Puts a new row into a table in the transaction, or says which rule it breaks first.
    pub fn insert_row(&mut self, table: u16, cells: &Cells) -> Result<Put, KeeperEnd>
        requires begun { self.old.is_begun ≡ true }
        requires fit { IsSomeAnd (slice_get (shapes_of (shape_of self.old).now) table)
            (λ t. AreCellsOf t.columns cells.now) }
        ensures acts { Acts (state S.Store)
            (Inserts (columns_at (shapes_of (shape_of self.old).now) table) table cells.now)
            self.old self.new result }
        ensures sound { IfOk result
            (IsInserted (columns_at (shapes_of (shape_of self.old).now) table)) }
    {
        let given = insert_seat(
            self.alloc,
            &mut self.seat,
            &self.schema,
            &mut self.tables,
            &mut self.counts,
            table,
            cells,
        );
        count_fault(&mut self.knows, &mut self.faults, &given);
        given
    }

    /// Puts other cells into a row of a table in the transaction, or says that there is none of this
    /// number, or which rule it would break first.
    pub fn replace_row(&mut self, table: u16, id: u32, cells: &Cells) -> Result<Put, KeeperEnd>
        requires begun { self.old.is_begun ≡ true }
        requires fit { IsSomeAnd (slice_get (shapes_of (shape_of self.old).now) table)
            (λ t. AreCellsOf t.columns cells.now) }
        ensures acts { Acts (state S.Store)
            (Replaces (columns_at (shapes_of (shape_of self.old).now) table) table id cells.now)
            self.old self.new result }
        ensures sound { IfOk result
            (IsReplaced (columns_at (shapes_of (shape_of self.old).now) table) id) }
    {
        let given = replace_seat(
            self.alloc,
            &mut self.seat,
            &self.schema,
            &mut self.tables,
            &self.counts,
            table,
            id,
            cells,
        );
        count_fault(&mut self.knows, &mut self.faults, &given);
        given
    }

    /// Takes a row out of a table in the transaction, and says whether it was there.
    pub fn remove_row(&mut self, table: u16, id: u32) -> Result<bool, KeeperEnd>
        requires begun { self.old.is_begun ≡ true }
        requires table { IsSome (slice_get (shapes_of (shape_of self.old).now) table) }
        ensures { Acts (state S.Store) (Removes table id) self.old self.new result }
    {
        let given = remove_seat(
            self.alloc,
            &mut self.seat,
            &self.schema,
            &mut self.tables,
            &mut self.counts,
            table,
            id,
        );
        count_fault(&mut self.knows, &mut self.faults, &given);
        given
    }

    /// The rows that a query asks, in its order: of rows that its table can hold, even where none
    /// are told. They are counted as visited.
    pub fn ask_rows(&mut self, query: &Query) -> Result<Vec<Row>, KeeperEnd>
        requires { IsSome (slice_get (shapes_of (shape_of self.old).now) query.now.table) }
        ensures { Asks (state S.Store) query.now self.old self.new result }
    {
        let given = ask_seat(
            self.alloc,
            &mut self.seat,
            &self.schema,
            &self.tables,
            query,
        );
        count_fault(&mut self.knows, &mut self.faults, &given);
        count_visits(&mut self.visited, &given);
        given
    }
}
