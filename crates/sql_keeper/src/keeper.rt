//! A keeper over SQLite.
ghost use Rattle.std.specs.Prelude.{◌≡◌, ◌≢◌, ◌≤◌, cond, true, false, length, slice_get, None};
ghost use Rattle.std.specs.Prelude.{Some, IfNone, IfOk, IfSome, IsSome, IsErrOf, IsSomeAnd, OnErr};
ghost use Rattle.std.specs.Prelude.{OnOk};
ghost use Rattle.std.specs.List.{All, AllByRecursion};
ghost use Rattle.fx_base.specs.Faults.{Rose};
ghost use Rattle.fx_core.specs.Lawful.{IsLawfulSchema};
ghost use Rattle.row_keeper.specs.Causes.{end_of};
ghost use Rattle.row_keeper.specs.Changes.{IsInserted, IsReplaced};
ghost use Rattle.row_keeper.specs.Kept.{columns_shaped};
ghost use Rattle.row_keeper.specs.MovedTables.{AreMoves, IsReshaped};
ghost use Rattle.row_keeper.specs.Shaped.{gone_back, shaped_so, steady};
ghost use Rattle.row_keeper.specs.Tables.{columns_at, shapes_of};
ghost use Rattle.row_keeper.specs.declared.keeper.KeeperEnd.TheVariants.{Failed as CallFailed};
ghost use Rattle.row_queries.specs.Answers.{IsCountAnswer, IsScanAnswer, IsTotalAnswer, OfRows};
ghost use Rattle.row_queries.specs.Queries.{AreAsked, IsQuery};
ghost use Rattle.row_queries.specs.RowTests.{HasNoFaults};
ghost use Rattle.row_queries.specs.TableRows.{AreCellsOf, IsRowOf};
ghost use Rattle.row_queries.specs.Visits.{VisitsAtLeast};
ghost use Rattle.sql_keeper.specs.Given.{IsGivenOf};
ghost use Rattle.sql_keeper.specs.View.{faults_after, sql_shape};

use crate::changes::Changes;
use crate::changing::{insert_row, remove_row, replace_row};
use crate::database::Database;
use crate::moving::{
    Ground, come_back, keep_first, moved_tables, new_ground, schema_after, schema_before,
    write_moved,
};
use crate::reading::ask;
use crate::shaping::{kept_body, kept_tallies, new_tallies, other_schema};
use crate::tallies::{Tally, end};
use crate::writing::Writing;
use fx_core::Schema;
use fx_tables::totals;
use fx_types::Totals;
use row_keeper::answers::{answer, give_rows, values_in};
use row_keeper::moved::judge;
use row_keeper::schemas::copy_schema;
use row_keeper::{Keeper, KeeperEnd, Put, Reshaped, TableMove};
use row_lines::schemas::body_of;
use row_queries::{Cells, Query, Row, RowList};
use std::marker::Model;
use std::mem;
use std::rt::HostRuntime;

/// Rows in a SQLite database: a new one in memory where the name attached is empty or `:memory:`,
/// else that of a file. Each refusal of a statement for another cause than memory is a fault, and
/// so is a line that is no row of the schema.
pub struct SqlKeeper {
    rt: HostRuntime,
    database: Option<Database>,
    /// The schema that it is shaped by, if any, and a tally for each of its tables.
    schema: Option<Schema>,
    tallies: Vec<Tally>,
    /// What the transaction has changed, where one is begun.
    changes: Option<Changes>,
    /// The schema as the transaction began, and what it went over then, where it has moved the
    /// tables.
    was: Option<Option<Schema>>,
    aside: Option<Ground>,
    visited: u64,
    faults: u64,
}

// By hand, so that it is called: what is derived is opened wherever a value may end, which costs
// proofs seconds each time.
impl Drop for SqlKeeper {
    fn drop(self) {
        let SqlKeeper {
            rt: _,
            database: _,
            schema: _,
            tallies: _,
            changes: _,
            was: _,
            aside: _,
            visited: _,
            faults: _,
        } = self;
    }
}

impl Model for SqlKeeper {
    ghost use Rattle.std.specs.Prelude.{is_some};
    ghost use Rattle.std.specs.Coded.{codes};
    ghost use Rattle.fx_core.specs.contracts.schema.Schema.{the_row as schema_row};
    ghost use Rattle.sql_keeper.specs.View.{SqlView, schema_then};

    ghost Value = { SqlView };

    ghost coded = { Prim.hlevel (codes, schema_row.coded) };

    ghost view = { λ k. record {
      schema = k.schema;
      was = schema_then k.schema k.was;
      is_begun = is_some k.changes;
      visited = k.visited;
      faults = k.faults;
    } };
}

impl SqlKeeper {
    /// No database, no schema and no transaction. Files are opened by the runtime.
    pub fn new(rt: HostRuntime) -> SqlKeeper
        ensures { result ≡ record {
          schema = None;
          was = None;
          is_begun = false;
          visited = 0;
          faults = 0;
        } }
    {
        SqlKeeper {
            rt,
            database: None,
            schema: None,
            tallies: Vec::new(rt.alloc()),
            changes: None,
            was: None,
            aside: None,
            visited: 0,
            faults: 0,
        }
    }

    /// How many rows have been visited.
    pub fn visits(&self) -> u64
        ensures { result ≡ self.now.visited }
    {
        self.visited
    }

    /// How many faults were counted.
    pub fn faults(&self) -> u64
        ensures { result ≡ self.now.faults }
    {
        self.faults
    }

    /// Counts a fault where a call ended by one, and gives its end on.
    fn counted_end(&mut self, given: KeeperEnd) -> KeeperEnd
        ensures end { result ≡ given }
        ensures same { self.new ≡ record self.old { faults = self.new.faults } }
        ensures counted { self.new.faults ≡ faults_after self.old.faults (Some given) }
        ensures later { self.old.faults ≤ self.new.faults }
        ensures rose { given ≡ CallFailed → Rose self.old.faults self.new.faults }
    {
        if let KeeperEnd::Failed = given {
            // At its greatest it stands still, which `Rose` takes for a rise.
            self.faults = self.faults.saturating_add(1);
        }
        given
    }

    /// Counts a fault where a call failed, and gives its answer on.
    fn count_fault<T>(&mut self, given: Result<T, KeeperEnd>) -> Result<T, KeeperEnd>
        ensures answer { result ≡ given }
        ensures same { self.new ≡ record self.old { faults = self.new.faults } }
        ensures counted { self.new.faults ≡ faults_after self.old.faults (end_of given) }
        ensures later { self.old.faults ≤ self.new.faults }
        ensures rose { IsErrOf given CallFailed → Rose self.old.faults self.new.faults }
    {
        match given {
            Ok(answer) => Ok(answer),
            Err(end) => Err(self.counted_end(end)),
        }
    }

    /// Opens the database of a name. It is shaped by no schema then.
    fn open(&mut self, name: &str) -> Result<(), KeeperEnd>
        ensures ok { OnOk result (self.new ≡ record self.old { schema = None; was = None }) }
        ensures err { OnErr result (self.new ≡ self.old) }
    {
        let database = Database::open(&self.rt, name)?;
        self.database = Some(database);
        self.schema = None;
        self.was = None;
        Ok(())
    }

    /// Keeps a schema, or answers the other one that is kept.
    fn keep(&mut self, schema: &Schema) -> Result<Option<Schema>, KeeperEnd>
        ensures another { IfOk result (λ other. IfSome other (λ s. s ≢ schema.now)) }
        ensures shaped { IfOk result (λ other. IfNone other
            (self.new ≡ record self.old { schema = Some schema.now; was = Some schema.now })) }
        ensures unshaped { IfOk result (λ other. IsSome other → self.new ≡ self.old) }
        ensures err { OnErr result (self.new ≡ self.old) }
    {
        let alloc = self.rt.alloc();
        let body = body_of(alloc, schema)?;
        let copy = copy_schema(alloc, schema)?;
        let Some(database) = &mut self.database else {
            return Err(KeeperEnd::Failed);
        };
        let tallies = match kept_body(alloc, database)? {
            Some(kept) => match other_schema(alloc, &kept, &body)? {
                Some(other) => return Ok(Some(other)),
                None => kept_tallies(alloc, database, schema.tables.as_slice())?,
            },
            None => new_tallies(alloc, database, &body, schema.tables.len())?,
        };
        self.tallies = tallies;
        self.schema = Some(copy);
        self.was = None;
        Ok(None)
    }

    /// What becomes of a new row.
    fn put_new(&mut self, tab: u16, cells: &Cells) -> Result<Put, KeeperEnd>
        requires { IsSomeAnd (slice_get (shapes_of self.old.schema) tab)
            (λ t. AreCellsOf t.columns cells.now) }
        ensures sound { IfOk result (λ put. IsInserted (columns_at (shapes_of self.old.schema) tab)
            put) }
        ensures same { self.new ≡ self.old }
    {
        let Some(schema) = &self.schema else {
            return Err(KeeperEnd::Failed);
        };
        let Some(table) = schema.tables.get(tab as usize) else {
            return Err(KeeperEnd::Failed);
        };
        let (Some(database), Some(changes)) = (&mut self.database, &mut self.changes) else {
            return Err(KeeperEnd::Failed);
        };
        insert_row(
            self.rt.alloc(),
            database,
            changes,
            table,
            tab,
            &mut self.tallies,
            cells,
        )
    }

    /// What becomes of a row that gets other cells.
    fn put_over(&mut self, tab: u16, id: u32, cells: &Cells) -> Result<Put, KeeperEnd>
        requires { IsSomeAnd (slice_get (shapes_of self.old.schema) tab)
            (λ t. AreCellsOf t.columns cells.now) }
        ensures sound { IfOk result (λ put. IsReplaced (columns_at (shapes_of self.old.schema) tab)
            id put) }
        ensures same { self.new ≡ self.old }
    {
        let Some(schema) = &self.schema else {
            return Err(KeeperEnd::Failed);
        };
        let Some(table) = schema.tables.get(tab as usize) else {
            return Err(KeeperEnd::Failed);
        };
        let (Some(database), Some(changes)) = (&mut self.database, &mut self.changes) else {
            return Err(KeeperEnd::Failed);
        };
        replace_row(self.rt.alloc(), database, changes, table, tab, id, cells)
    }

    /// Takes a row out, and says whether it was there.
    fn take_out(&mut self, tab: u16, id: u32) -> Result<bool, KeeperEnd>
        ensures { self.new ≡ self.old }
    {
        let Some(schema) = &self.schema else {
            return Err(KeeperEnd::Failed);
        };
        let Some(table) = schema.tables.get(tab as usize) else {
            return Err(KeeperEnd::Failed);
        };
        let (Some(database), Some(changes)) = (&mut self.database, &mut self.changes) else {
            return Err(KeeperEnd::Failed);
        };
        remove_row(
            self.rt.alloc(),
            database,
            changes,
            table,
            tab,
            id,
            &mut self.tallies,
        )
    }

    /// Moves the tables to another schema, or names the first of the new tables in which a row
    /// would break a rule.
    fn move_tables(&mut self, schema: &Schema, moves: &[TableMove]) -> Result<Reshaped, KeeperEnd>
        requires begun { self.old.is_begun ≡ true }
        requires lawful { IsLawfulSchema schema.now }
        requires moves { AreMoves (shapes_of self.old.schema) schema.now.tables moves.now }
        ensures sound { IfOk result (IsReshaped (columns_shaped schema.now.tables)) }
        ensures shaped { IfOk result (λ r. sql_shape self.new
            ≡ shaped_so schema.now r (sql_shape self.old)) }
        ensures same { self.new ≡ record self.old { schema = self.new.schema } }
    {
        let alloc = self.rt.alloc();
        let (Some(olds), Some(database), Some(changes)) = (
            &self.schema,
            &mut self.database,
            &self.changes,
        ) else {
            return Err(KeeperEnd::Failed);
        };
        let tables = moved_tables(
            alloc,
            database,
            changes,
            olds.tables.as_slice(),
            &self.tallies,
            schema.tables.as_slice(),
            moves,
        )?;
        let judged = judge(alloc, &tables)?;
        match judged {
            Reshaped::Broken(..) => Ok(judged),
            Reshaped::Done => {
                let copy = copy_schema(alloc, schema)?;
                let mut made = Changes::new(alloc);
                let ground = new_ground(&self.rt, schema, &tables, &mut made)?;
                self.go_over(copy, ground, made);
                Ok(Reshaped::Done)
            }
        }
    }

    /// Goes on over tables that have moved. What it went over before goes aside, unless something
    /// is there already.
    fn go_over(&mut self, schema: Schema, mut ground: Ground, made: Changes)
        ensures { self.new ≡ record self.old { schema = Some schema; is_begun = true } }
    {
        mem::swap(&mut self.database, &mut ground.database);
        mem::swap(&mut self.tallies, &mut ground.tallies);
        keep_first(&mut self.aside, ground);
        let was = schema_before(self.schema.take(), self.was.take());
        self.was = Some(was);
        self.schema = Some(schema);
        self.changes = Some(made);
    }

    /// Writes what the transaction has made of the rows.
    fn play(&mut self) -> Result<(), KeeperEnd>
        ensures { self.new ≡ self.old }
    {
        let (Some(schema), Some(changes)) = (&self.schema, &self.changes) else {
            return Err(KeeperEnd::Failed);
        };
        if let Some(before) = &mut self.aside {
            return write_moved(
                self.rt.alloc(),
                &mut before.database,
                schema,
                changes,
                &self.tallies,
            );
        }
        let Some(database) = &mut self.database else {
            return Err(KeeperEnd::Failed);
        };
        database.write(&Writing::Rows {
            schema,
            changes,
            tallies: &self.tallies,
        })
    }

    /// Ends a transaction, with its changes or without, and takes no memory.
    fn end(&mut self, with_changes: bool)
        ensures shaped { sql_shape self.new ≡ cond with_changes (steady (sql_shape self.old))
            (gone_back (sql_shape self.old)) }
        ensures same { self.new ≡ record self.old
            { schema = self.new.schema; was = self.new.was; is_begun = false } }
    {
        come_back(
            &mut self.database,
            &mut self.tallies,
            &mut self.aside,
            with_changes,
        );
        let schema = self.schema.take();
        let was = self.was.take();
        self.schema = schema_after(schema, was, with_changes);
        end(&mut self.tallies, with_changes);
        self.changes = None;
    }

    /// The rows that a query asks, in its order. They are counted as visited.
    fn ask(&mut self, query: &Query) -> Result<Vec<Row>, KeeperEnd>
        ensures asked { IfOk result (λ rows. OfRows (shapes_of self.old.schema) None query.now
            (λ t held. AreAsked query.now held rows.items)) }
        ensures fit { IfOk result (λ rows. IsSomeAnd
            (slice_get (shapes_of self.old.schema) query.now.table)
            (λ t. AllByRecursion (IsRowOf t) rows.items)) }
        ensures least { IfOk result (λ rows. VisitsAtLeast (length rows.items) self.old.visited
            self.new.visited) }
        ensures later { self.old.visited ≤ self.new.visited }
        ensures same { self.new ≡ record self.old { visited = self.new.visited } }
    {
        let (Some(schema), Some(database)) = (&self.schema, &mut self.database) else {
            return Err(KeeperEnd::Failed);
        };
        let Some(table) = schema.tables.get(query.table as usize) else {
            return Err(KeeperEnd::Failed);
        };
        let rows = ask(
            self.rt.alloc(),
            database,
            self.changes.as_ref(),
            table,
            query,
        )?;
        self.visited = self.visited.saturating_add(rows.len() as u64);
        Ok(rows)
    }

    /// What a query answers.
    fn answer(&mut self, query: &Query) -> Result<RowList, KeeperEnd>
        requires { IsQuery (shapes_of self.old.schema) query.now }
        ensures answer { IfOk result (λ a. IsScanAnswer (shapes_of self.old.schema) None query.now
            a) }
        ensures fit { IfOk result (λ a. IsSomeAnd
            (slice_get (shapes_of self.old.schema) query.now.table) (λ t. All (IsRowOf t) a.rows)) }
        ensures least { IfOk result (λ a. VisitsAtLeast (length a.rows) self.old.visited
            self.new.visited) }
        ensures later { self.old.visited ≤ self.new.visited }
        ensures same { self.new ≡ record self.old { visited = self.new.visited } }
    {
        let asked = self.ask(query)?;
        Ok(answer(self.rt.alloc(), asked, query)?)
    }

    /// The rows that a query gives, whose test has no errors as constants.
    fn give(&mut self, query: &Query) -> Result<Vec<Row>, KeeperEnd>
        requires query { IsQuery (shapes_of self.old.schema) query.now }
        requires sound { HasNoFaults query.now.test }
        ensures given { IfOk result (λ rows. OfRows (shapes_of self.old.schema) None query.now
            (λ t held. IsGivenOf query.now held rows.items)) }
        ensures later { self.old.visited ≤ self.new.visited }
        ensures same { self.new ≡ record self.old { visited = self.new.visited } }
    {
        let asked = self.ask(query)?;
        Ok(give_rows(self.rt.alloc(), asked, query)?)
    }

    /// How many rows a query gives.
    fn tell_count(&mut self, query: &Query) -> Result<u32, KeeperEnd>
        requires query { IsQuery (shapes_of self.old.schema) query.now }
        requires sound { HasNoFaults query.now.test }
        ensures answer { IfOk result (λ n. IsCountAnswer (shapes_of self.old.schema) None query.now
            n) }
        ensures later { self.old.visited ≤ self.new.visited }
        ensures same { self.new ≡ record self.old { visited = self.new.visited } }
    {
        let rows = self.give(query)?;
        // A table that keeps its rules has fewer rows.
        match u32::try_from(rows.len()) {
            Ok(count) => Ok(count),
            Err(_) => Err(KeeperEnd::Failed),
        }
    }

    /// What the values of a column come to, in the rows that a query gives.
    fn tell_totals(&mut self, query: &Query, column: u16) -> Result<Totals, KeeperEnd>
        requires query { IsQuery (shapes_of self.old.schema) query.now }
        requires sound { HasNoFaults query.now.test }
        ensures answer { IfOk result (λ totals. IsTotalAnswer (shapes_of self.old.schema) None
            query.now column totals) }
        ensures later { self.old.visited ≤ self.new.visited }
        ensures same { self.new ≡ record self.old { visited = self.new.visited } }
    {
        let rows = self.give(query)?;
        let values = values_in(self.rt.alloc(), rows.as_slice(), column)?;
        Ok(totals(values.as_slice()))
    }
}

impl Keeper for SqlKeeper {
    ghost use Rattle.std.specs.Prelude.{◌≡◌, None, refl};
    ghost use Rattle.sql_keeper.specs.View.{CountsFailures, sql_marks, sql_shape};

    ghost told = { λ _. None };

    ghost began = { λ _. None };

    ghost attached = { λ _. None };

    ghost leaves = { λ _. None };

    ghost shaped = { sql_shape };

    ghost in_transaction = { λ k. k.is_begun };

    ghost marks = { sql_marks };

    ghost visited = { λ k. k.visited };

    ghost loan = { λ _. None };

    ghost attaches = { λ _ _ l. l.schema ≡ None };

    ghost ends = { CountsFailures };

    ghost commits = { CountsFailures };

    ghost backs = { λ k l. l.faults ≡ k.faults };

    ghost quiet = { λ _ _. (refl, refl) };

    ghost heard = { λ _ h. h };

    fn attach(&mut self, name: &str) -> Result<(), KeeperEnd> {
        let opened = self.open(name);
        self.count_fault(opened)
    }

    fn shape(&mut self, schema: &Schema) -> Result<Option<Schema>, KeeperEnd> {
        let kept = self.keep(schema);
        self.count_fault(kept)
    }

    fn begin(&mut self) -> Result<(), KeeperEnd> {
        self.changes = Some(Changes::new(self.rt.alloc()));
        self.was = None;
        Ok(())
    }

    fn insert(&mut self, table: u16, cells: &Cells) -> Result<Put, KeeperEnd> {
        let put = self.put_new(table, cells);
        self.count_fault(put)
    }

    fn replace(&mut self, table: u16, id: u32, cells: &Cells) -> Result<Put, KeeperEnd> {
        let put = self.put_over(table, id, cells);
        self.count_fault(put)
    }

    fn remove(&mut self, table: u16, id: u32) -> Result<bool, KeeperEnd> {
        let was = self.take_out(table, id);
        self.count_fault(was)
    }

    fn reshape(&mut self, schema: &Schema, moves: &[TableMove]) -> Result<Reshaped, KeeperEnd> {
        let moved = self.move_tables(schema, moves);
        self.count_fault(moved)
    }

    fn commit(&mut self) -> Result<(), KeeperEnd> {
        let played = self.play();
        self.end(played.is_ok());
        self.count_fault(played)
    }

    fn back(&mut self) {
        self.end(false);
    }

    fn scan(&mut self, query: &Query) -> Result<RowList, KeeperEnd> {
        let answer = self.answer(query);
        self.count_fault(answer)
    }

    fn count(&mut self, query: &Query) -> Result<u32, KeeperEnd> {
        let count = self.tell_count(query);
        self.count_fault(count)
    }

    fn total(&mut self, query: &Query, column: u16) -> Result<Totals, KeeperEnd> {
        match self.tell_totals(query, column) {
            Ok(totals) => Ok(totals),
            Err(end) => Err(self.counted_end(end)),
        }
    }

    fn fits(&self) {}
}
