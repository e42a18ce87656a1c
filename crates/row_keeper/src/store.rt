// The tables of a schema, with a transaction.
ghost use Rattle.std.specs.Prelude.{◌≡◌, ◌≢◌, ◌≤◌, true, false, List, length, map, slice_get, None};
ghost use Rattle.std.specs.Prelude.{Some, IfNone, IfOk, IfSome, IsSome, IsSomeAnd, OnErr, OnOk};
ghost use Rattle.std.specs.List.{AllByRecursion};
ghost use Rattle.fx_core.specs.Lawful.{IsLawfulSchema};
ghost use Rattle.fx_core.specs.declared.schema.TableShape.{TableShape as Shape};
ghost use Rattle.row_queries.specs.Queries.{AreAsked, IsQuery};
ghost use Rattle.row_queries.specs.RowTests.{CanAsk};
ghost use Rattle.row_queries.specs.TableRows.{AreCellsOf, AreHeldRows, IsRowOf, rows_at, values_of};
ghost use Rattle.row_queries.specs.declared.rows.Row.{Row as RowValue};
ghost use Rattle.row_keeper.specs.Changes.{Inserts, IsInserted, IsReplaced, Removes, Replaces};
ghost use Rattle.row_keeper.specs.Changes.{Shapes};
ghost use Rattle.row_keeper.specs.Kept.{columns_kept, columns_shaped, empty_table, schema_then};
ghost use Rattle.row_keeper.specs.Kept.{kept_then};
ghost use Rattle.row_keeper.specs.MovedTables.{AreMoves, IsReshaped, Reshapes};
ghost use Rattle.row_keeper.specs.Pages.{AreFirstRows, GoesByNumber};
ghost use Rattle.row_keeper.specs.Shaped.{by, shaped_so};
ghost use Rattle.row_keeper.specs.Skips.{numbers_passed};
ghost use Rattle.row_keeper.specs.StoreView.{no_store, shape_of, tables_now, tables_then};
ghost use Rattle.row_keeper.specs.TableView.{states_now};
ghost use Rattle.row_keeper.specs.Tables.{AreStatesOf, columns_at, rows_of_tables, shapes_of};

use crate::moved::{judge, moved_tables};
use crate::moves::TableMove;
use crate::puts::{are_sound, insert_at, remove_at, replace_at, restore_all, settle_all, skip_all};
use crate::rows::{Put, Reshaped};
use crate::scans::sort_rows;
use crate::schemas::{copy_columns, copy_schema, is_same_schema};
use crate::table::Table;
use fx_base::Memory;
use fx_core::{Schema, TableShape};
use row_queries::{Cells, Query, Row};
use std::alloc::Global;
use std::marker::Model;
use std::mem;

/// What was kept as a transaction began that moved the tables: the schema, and the tables with what
/// that transaction had made of them.
#[derive(Drop)]
struct Aside {
    schema: Option<Schema>,
    tables: Vec<Table>,
}

#[derive(Drop)]
pub struct Store {
    alloc: Global,
    /// The schema that is kept, if any.
    schema: Option<Schema>,
    /// A table for each of the schema.
    tables: Vec<Table>,
    /// What was kept before the transaction moved the tables, if it did.
    aside: Option<Aside>,
    /// Whether a transaction is begun.
    is_begun: bool,
}

impl Model for Store {
    ghost use Rattle.row_keeper.specs.Kept.{IsKept, schema_then, kept_then};
    ghost use Rattle.row_keeper.specs.StoreView.{StoreView};
    ghost use Rattle.row_keeper.specs.TableView.{states_now, states_then};
    ghost use Rattle.std.specs.Coded.{codes};
    ghost use Rattle.fx_core.specs.contracts.schema.Schema.{the_row as schema_row};
    ghost use Rattle.row_queries.specs.contracts.rows.Row.{the_row as row_row};

    ghost Value = { StoreView };

    ghost coded = { Prim.hlevel (codes, schema_row.coded, row_row.coded) };

    ghost view = { λ s. record {
      schema = s.schema;
      was = schema_then s.schema s.aside;
      now = states_now s.tables.items;
      then = states_then (kept_then s.tables.items s.aside);
      is_begun = s.is_begun;
    } };

    ghost invariant = { λ s. IsKept s.schema s.tables.items s.aside s.is_begun };
}

/// A table without rows for each of these shapes.
fn empty_tables(alloc: Global, shapes: &[TableShape]) -> Result<Vec<Table>, Memory>
    requires { AllByRecursion (λ (t : Shape). length t.columns ≤ 63) shapes.now }
    ensures { IfOk result (λ v. v.items ≡ map empty_table shapes.now) }
{
    let mut tables = Vec::with_capacity(alloc, shapes.len())?;
    for shape in shapes {
        let columns = copy_columns(alloc, &shape.columns)?;
        tables.push(Table::new(alloc, columns)?)?;
    }
    Ok(tables)
}

/// What was put aside first.
fn first_of(aside: Option<Aside>, now: Aside) -> Option<Aside>
    ensures first { IfSome aside (λ a. result ≡ Some a) }
    ensures now { IfNone aside (result ≡ Some now) }
{
    match aside {
        Some(first) => Some(first),
        None => Some(now),
    }
}

/// What was put aside comes back, if something was.
fn bring_back(schema: &mut Option<Schema>, tables: &mut Vec<Table>, aside: &mut Option<Aside>)
    ensures schema { schema.new ≡ schema_then schema.old aside.old }
    ensures tables { tables.new.items ≡ kept_then tables.old.items aside.old }
    ensures none { aside.new ≡ None }
{
    if let Some(was) = aside.take() {
        let Aside {
            schema: kept,
            tables: rows,
        } = was;
        *schema = kept;
        *tables = rows;
    }
}

impl Store {
    /// No schema and no transaction.
    pub fn new(alloc: Global) -> Store
        ensures { result ≡ no_store }
    {
        Store {
            alloc,
            schema: None,
            tables: Vec::new(alloc),
            aside: None,
            is_begun: false,
        }
    }

    /// Keeps a schema, with tables without rows, unless one is kept. Where another one is, it
    /// answers that one.
    pub fn shape(&mut self, schema: &Schema) -> Result<Option<Schema>, Memory>
        requires idle { self.old.is_begun ≡ false }
        requires lawful { IsLawfulSchema schema.now }
        ensures shapes { IfOk result (λ other. Shapes schema.now other (tables_now self.old)
            (tables_now self.new)) }
        ensures another { IfOk result (λ other. IfSome other (λ s. s ≢ schema.now)) }
        ensures sound { IfOk result (λ other. IfNone other
            (AreStatesOf schema.now.tables self.new.now)) }
        ensures shaped { IfOk result (λ other. IfNone other (shape_of self.new ≡ by schema.now)) }
        ensures unshaped { IfOk result (λ other. IsSome other → self.new ≡ self.old) }
        ensures idle { self.new.is_begun ≡ false }
        ensures err { OnErr result (self.new ≡ self.old) }
    {
        are_sound(&self.tables);
        if let Some(kept) = &self.schema {
            if is_same_schema(kept, schema) {
                return Ok(None);
            }
            return Ok(Some(copy_schema(self.alloc, kept)?));
        }
        let tables = empty_tables(self.alloc, schema.tables.as_slice())?;
        let kept = copy_schema(self.alloc, schema)?;
        self.tables = tables;
        self.schema = Some(kept);
        Ok(None)
    }

    /// Begins a transaction.
    pub fn begin(&mut self)
        requires idle { self.old.is_begun ≡ false }
        ensures begun { self.new ≡ record self.old { is_begun = true } }
        ensures still { tables_then self.old ≡ tables_now self.old }
    {
        self.is_begun = true;
    }

    /// Puts a new row into a table, or says which rule it breaks first.
    pub fn insert(&mut self, table: u16, cells: &Cells) -> Result<Put, Memory>
        requires begun { self.old.is_begun ≡ true }
        requires fit { IsSomeAnd (slice_get (shapes_of self.old.schema) table)
            (λ t. AreCellsOf t.columns cells.now) }
        ensures put { IfOk result (λ put. Inserts (columns_at (shapes_of self.old.schema) table)
            table cells.now put (tables_now self.old) (tables_now self.new)) }
        ensures sound { IfOk result (λ put. IsInserted
            (columns_at (shapes_of self.old.schema) table) put) }
        ensures began { tables_then self.new ≡ tables_then self.old }
        ensures begun { self.new.is_begun ≡ true }
        ensures err { OnErr result (self.new ≡ self.old) }
    {
        insert_at(self.alloc, &mut self.tables, table, cells)
    }

    /// Puts other cells into a row, or says that there is none of this number, or which rule it
    /// would break first.
    pub fn replace(&mut self, table: u16, id: u32, cells: &Cells) -> Result<Put, Memory>
        requires begun { self.old.is_begun ≡ true }
        requires fit { IsSomeAnd (slice_get (shapes_of self.old.schema) table)
            (λ t. AreCellsOf t.columns cells.now) }
        ensures put { IfOk result (λ put. Replaces (columns_at (shapes_of self.old.schema) table)
            table id cells.now put (tables_now self.old) (tables_now self.new)) }
        ensures sound { IfOk result (λ put. IsReplaced
            (columns_at (shapes_of self.old.schema) table) id put) }
        ensures began { tables_then self.new ≡ tables_then self.old }
        ensures begun { self.new.is_begun ≡ true }
        ensures err { OnErr result (self.new ≡ self.old) }
    {
        replace_at(self.alloc, &mut self.tables, table, id, cells)
    }

    /// Takes a row out, and says whether it was there.
    pub fn remove(&mut self, table: u16, id: u32) -> Result<bool, Memory>
        requires begun { self.old.is_begun ≡ true }
        requires table { IsSome (slice_get (shapes_of self.old.schema) table) }
        ensures was { IfOk result (λ was. Removes table id was (tables_now self.old)
            (tables_now self.new)) }
        ensures began { tables_then self.new ≡ tables_then self.old }
        ensures begun { self.new.is_begun ≡ true }
        ensures err { OnErr result (self.new ≡ self.old) }
    {
        remove_at(&mut self.tables, table, id)
    }

    /// Moves the tables to another schema, or names the first of the new tables in which a row
    /// would break a rule. What was there goes aside, unless the transaction moved the tables
    /// before.
    pub fn reshape(&mut self, schema: &Schema, moves: &[TableMove]) -> Result<Reshaped, Memory>
        requires begun { self.old.is_begun ≡ true }
        requires lawful { IsLawfulSchema schema.now }
        requires moves { AreMoves (shapes_of self.old.schema) schema.now.tables moves.now }
        ensures moved { IfOk result (λ r. Reshapes schema.now moves.now r (tables_now self.old)
            (tables_now self.new)) }
        ensures sound { IfOk result (IsReshaped (columns_shaped schema.now.tables)) }
        ensures shaped { IfOk result (λ r. shape_of self.new
            ≡ shaped_so schema.now r (shape_of self.old)) }
        ensures began { tables_then self.new ≡ tables_then self.old }
        ensures begun { self.new.is_begun ≡ true }
        ensures err { OnErr result (self.new ≡ self.old) }
    {
        let tables = moved_tables(self.alloc, &self.tables, schema.tables.as_slice(), moves)?;
        let judged = judge(self.alloc, &tables)?;
        match judged {
            Reshaped::Broken(..) => Ok(judged),
            Reshaped::Done => {
                let kept = copy_schema(self.alloc, schema)?;
                self.put_aside(kept, tables);
                Ok(Reshaped::Done)
            }
        }
    }

    /// Keeps this schema and these tables. What was there goes aside, unless something is there
    /// already.
    fn put_aside(&mut self, schema: Schema, tables: Vec<Table>)
        requires begun { self.old.is_begun ≡ true }
        requires lawful { IsLawfulSchema schema }
        requires columns { columns_kept tables.items ≡ columns_shaped schema.tables }
        ensures now { tables_now self.new ≡ record {
          kept = Some schema;
          states = states_now tables.items;
        } }
        ensures then { tables_then self.new ≡ tables_then self.old }
        ensures begun { self.new.is_begun ≡ true }
    {
        let tables = mem::replace(&mut self.tables, tables);
        let schema = mem::replace(&mut self.schema, Some(schema));
        self.aside = first_of(self.aside.take(), Aside { schema, tables });
    }

    /// Passes over the numbers up to this one in all tables.
    pub fn skip_to(&mut self, number: u32)
        requires { self.old.is_begun ≡ true }
        ensures { self.new ≡ record self.old { now = map (numbers_passed number) self.old.now } }
    {
        skip_all(&mut self.tables, number);
    }

    /// Ends a transaction with its changes, and takes no memory.
    pub fn settle(&mut self)
        ensures { self.new ≡ record self.old {
          was = self.old.schema;
          then = self.old.now;
          is_begun = false;
        } }
    {
        self.aside = None;
        settle_all(&mut self.tables);
        self.is_begun = false;
    }

    /// Ends a transaction without its changes, and takes no memory.
    pub fn restore(&mut self)
        ensures { self.new ≡ record self.old {
          schema = self.old.was;
          now = self.old.then;
          is_begun = false;
        } }
    {
        bring_back(&mut self.schema, &mut self.tables, &mut self.aside);
        restore_all(&mut self.tables);
        self.is_begun = false;
    }

    /// The first rows, at most so many, that a query asks which goes by the numbers of rows.
    pub fn first(&self, query: &Query, most: u32) -> Result<Vec<Row>, Memory>
        requires query { IsQuery (shapes_of self.now.schema) query.now }
        requires goes { GoesByNumber query.now.column query.now.ranges }
        requires order { query.now.order ≡ None }
        ensures first { IfOk result (λ rows. AreFirstRows query.now
            (rows_at (rows_of_tables self.now.now) query.now.table) most rows.items) }
        ensures fit { IfOk result (λ rows. IsSomeAnd
            (slice_get (shapes_of self.now.schema) query.now.table)
            (λ t. AllByRecursion (IsRowOf t) rows.items)) }
        ensures able { OnOk result ((asked : List RowValue)
            → AreAsked query.now (rows_at (rows_of_tables self.now.now) query.now.table) asked
            → AllByRecursion (λ (r : RowValue). CanAsk (values_of r) query.now.test) asked) }
    {
        let table = &self.tables[query.table as usize];
        table.is_sound();
        Ok(table.first(query.column, query.ranges.as_slice(), most as usize)?)
    }

    /// A fact about all tables, and no work.
    pub fn fits(&self)
        ensures { AreStatesOf (shapes_of self.now.schema) self.now.now }
    {
        are_sound(&self.tables);
    }

    /// A fact about the rows of a query's table, and no work.
    pub fn are_held(&self, query: &Query)
        requires { IsQuery (shapes_of self.now.schema) query.now }
        ensures { IsSomeAnd (slice_get (shapes_of self.now.schema) query.now.table)
            (λ t. AreHeldRows t (rows_at (rows_of_tables self.now.now) query.now.table)) }
    {
        let table = &self.tables[query.table as usize];
        table.is_sound();
    }

    /// The rows that a query asks, in its order.
    pub fn ask(&self, query: &Query) -> Result<Vec<Row>, Memory>
        requires { IsQuery (shapes_of self.now.schema) query.now }
        ensures asked { IfOk result (λ rows. AreAsked query.now
            (rows_at (rows_of_tables self.now.now) query.now.table) rows.items) }
        ensures fit { IfOk result (λ rows. IsSomeAnd
            (slice_get (shapes_of self.now.schema) query.now.table)
            (λ t. AllByRecursion (IsRowOf t) rows.items)) }
        ensures few { IfOk result (λ rows. length rows.items ≤ 200000) }
    {
        let table = &self.tables[query.table as usize];
        table.is_sound();
        let mut rows = table.ask(query.column, query.ranges.as_slice())?;
        sort_rows(&mut rows, query.order)?;
        Ok(rows)
    }
}
