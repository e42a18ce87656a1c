// A table: its rows by their numbers, an index of their keys, and what a transaction has made of
// them.
ghost use Rattle.std.specs.Prelude.{◌≡◌, ◌⊎◌, filter, ℕ, ◌-◌, ◌+◌, ◌<◌, ◌≤◌, ◌^◌, ◌++◌, ◌∷◌, []};
ghost use Rattle.std.specs.Prelude.{cond, length, map, take, true, false, IfOk, IfSome, OnErr};
ghost use Rattle.std.specs.Prelude.{OnOk, MatchOption, Some, None, option_map, slice_get};
ghost use Rattle.std.specs.BTreeMap.{IsOrdered};
ghost use Rattle.std.specs.Ordering.{nat_cmp};
ghost use Rattle.std.specs.List.{list_any};
ghost use Rattle.fx_value.specs.Order.{IsScalar};
ghost use Rattle.row_queries.specs.TableRows.{AreCellsOf, value_at};
ghost use Rattle.row_keeper.specs.Covered.{covered_of, covers, entries_of};
ghost use Rattle.row_keeper.specs.Pages.{GoesByNumber};
ghost use Rattle.row_keeper.specs.Slots.{now_at, rows_now, rows_then};
ghost use Rattle.row_queries.specs.Ranges.{AreRangesRising, HoldEveryKey};
ghost use Rattle.row_keeper.specs.Skips.{passed_now};
ghost use Rattle.row_keeper.specs.Sound.{IsSoundTable, lies_among};
ghost use Rattle.row_keeper.specs.Tables.{has_id, no_rows, with_cells, with_row, without_row};

use crate::index::{Entry, Index};
use crate::keys::{cells_are_proper, key_in};
use crate::picked_rows::{all_rows, rows_at, rows_of};
use crate::row_slots::{Made, Slots};
use fx_base::Memory;
use fx_core::ColumnList;
use fx_value::keys_order;
use row_queries::{Cells, KeyRange, Row};
use std::alloc::Global;
use std::marker::Model;

#[derive(Drop)]
pub struct Table {
    alloc: Global,
    columns: ColumnList,
    /// The numbers of the columns that the index covers.
    covered: Vec<u16>,
    slots: Slots,
    index: Index,
    /// The last number that was given, and how many rows there are.
    last: u32,
    // Counted, so that the limits are asked without a pass over the rows.
    count: u32,
    /// The same as the transaction began.
    first: u32,
    first_count: u32,
}

impl Model for Table {
    ghost use Rattle.row_keeper.specs.Slots.{rows_now, rows_then};
    ghost use Rattle.row_keeper.specs.TableView.{TableView};
    ghost use Rattle.row_keeper.specs.Whole.{IsWholeIndex};
    ghost use Rattle.std.specs.Coded.{codes};
    ghost use Rattle.fx_core.specs.contracts.schema.Column.{the_row as column_row};
    ghost use Rattle.row_queries.specs.contracts.rows.Row.{the_row as row_row};

    ghost Value = { TableView };

    ghost coded = { Prim.hlevel (codes, column_row.coded, row_row.coded) };

    ghost view = { λ t. record {
      columns = t.columns;
      now = record { rows = rows_now t.slots.by_id.entries; last = t.last };
      then = record { rows = rows_then t.slots.by_id.entries; last = t.first };
    } };

    ghost invariant = { λ t. IsWholeIndex t.columns t.covered.items t.slots.by_id.entries
        t.index.entries.entries t.last t.count t.first t.first_count };
}

/// The columns that are indexed: `ID`, and each that is indexed or unique.
fn covered_columns(alloc: Global, columns: &ColumnList) -> Result<Vec<u16>, Memory>
    requires { length columns.now ≤ 63 }
    ensures { IfOk result (λ v. v.items ≡ covered_of columns.now) }
{
    let mut covered = Vec::new(alloc);
    covered.push(0)?;
    for (place, column) in columns.as_slice().iter().enumerate() {
        if column.indexed || column.unique {
            covered.push(place as u16 + 1)?;
        }
    }
    Ok(covered)
}

/// The entries of a row.
fn entries_for(alloc: Global, covered: &[u16], id: u32, cells: &Cells) -> Result<Vec<Entry>, Memory>
    requires { (k : ℕ) → IsScalar (value_at cells.now k) }
    ensures { IfOk result (λ v. v.items ≡ entries_of covered.now id cells.now) }
{
    let mut entries = Vec::with_capacity(alloc, covered.len())?;
    for column in covered {
        let key = key_in(alloc, id, cells, *column)?;
        entries.push(((*column, key), id))?;
    }
    Ok(entries)
}

/// The entries of the row of a number, if it is one.
fn entries_at(
    alloc: Global,
    covered: &[u16],
    slots: &Slots,
    id: u32,
) -> Result<Option<Vec<Entry>>, Memory>
    requires { (i k : ℕ) → IfSome (now_at slots.now.by_id.entries i)
        (λ cells. IsScalar (value_at cells k)) }
    ensures entries { IfOk result (λ es. option_map (λ v. v.items) es
        ≡ option_map (entries_of covered.now id) (now_at slots.now.by_id.entries id)) }
    ensures ordered { IsOrdered nat_cmp slots.now.by_id }
{
    let _len = slots.by_id.len();
    let Some(slot) = slots.by_id.get(&id) else {
        return Ok(None);
    };
    let Some(cells) = slot.cells() else {
        return Ok(None);
    };
    Ok(Some(entries_for(alloc, covered, id, cells)?))
}

impl Table {
    /// A table without rows.
    pub fn new(alloc: Global, columns: ColumnList) -> Result<Table, Memory>
        requires { length columns ≤ 63 }
        ensures { IfOk result (λ t. t ≡ record { columns = columns; now = no_rows; then = no_rows }) }
    {
        let covered = covered_columns(alloc, &columns)?;
        Ok(Table {
            alloc,
            columns,
            covered,
            slots: Slots::new(alloc),
            index: Index::new(alloc),
            last: 0,
            count: 0,
            first: 0,
            first_count: 0,
        })
    }

    /// Puts a new row, under the next number.
    pub fn insert(&mut self, cells: &Cells) -> Result<u32, Memory>
        requires fit { AreCellsOf self.old.columns cells.now }
        requires room { self.old.now.last < 2 ^ 32 - 1 }
        requires few { length self.old.now.rows < 200000 }
        ensures id { IfOk result (λ id. id ≡ self.old.now.last + 1) }
        ensures ok { OnOk result (self.new ≡ record self.old
            { now = with_row cells.now self.old.now }) }
        ensures err { OnErr result (self.new ≡ self.old) }
    {
        let id = self.last + 1;
        // All that takes memory comes first, so that a call that fails changes nothing.
        let entries = entries_for(self.alloc, &self.covered, id, cells)?;
        let copy = cells.copy(self.alloc)?;
        cells_are_proper(cells);
        self.index.make_rooms(self.alloc, &entries)?;
        self.slots.put_new(id, copy)?;
        self.index.mark_all(&entries, true);
        self.last = id;
        self.count += 1;
        Ok(id)
    }

    /// Puts other cells into a row, if it is one.
    pub fn replace(&mut self, id: u32, cells: &Cells) -> Result<bool, Memory>
        requires fit { AreCellsOf self.old.columns cells.now }
        ensures was { IfOk result (λ was. was ≡ list_any (has_id id) self.old.now.rows) }
        ensures ok { IfOk result (λ was. self.new
            ≡ record self.old {
              now = cond was (with_cells id cells.now self.old.now) self.old.now;
            }) }
        ensures err { OnErr result (self.new ≡ self.old) }
    {
        let Some(out) = entries_at(self.alloc, &self.covered, &self.slots, id)? else {
            return Ok(false);
        };
        let entries = entries_for(self.alloc, &self.covered, id, cells)?;
        let copy = cells.copy(self.alloc)?;
        cells_are_proper(cells);
        self.index.make_rooms(self.alloc, &out)?;
        self.index.make_rooms(self.alloc, &entries)?;
        self.slots.put_over(id, Made::New(copy))?;
        self.index.mark_all(&out, false);
        self.index.mark_all(&entries, true);
        Ok(true)
    }

    /// Takes a row out, if it is one.
    pub fn remove(&mut self, id: u32) -> Result<bool, Memory>
        ensures was { IfOk result (λ was. was ≡ list_any (has_id id) self.old.now.rows) }
        ensures ok { IfOk result (λ was. self.new
            ≡ record self.old { now = cond was (without_row id self.old.now) self.old.now }) }
        ensures err { OnErr result (self.new ≡ self.old) }
    {
        let Some(out) = entries_at(self.alloc, &self.covered, &self.slots, id)? else {
            return Ok(false);
        };
        self.index.make_rooms(self.alloc, &out)?;
        self.slots.put_over(id, Made::Gone)?;
        self.index.mark_all(&out, false);
        self.count -= 1;
        Ok(true)
    }

    /// Passes over the numbers up to this one.
    pub fn skip_to(&mut self, number: u32)
        ensures { self.new ≡ passed_now number self.old }
    {
        self.last = self.last.max(number);
    }

    /// Whether there is a row of this number.
    pub fn has(&self, id: u32) -> bool
        ensures { result ≡ list_any (has_id id) self.now.now.rows }
    {
        let _len = self.slots.by_id.len();
        match self.slots.by_id.get(&id) {
            Some(slot) => slot.cells().is_some(),
            None => false,
        }
    }

    /// A fact about its rows, and no work.
    pub fn is_sound(&self)
        ensures { IsSoundTable self.now }
    {
        let _len = self.slots.by_id.len();
        let (_last, _first) = (self.last, self.first);
    }

    /// The rows whose keys in a column lie in ranges, by rising numbers.
    pub fn ask(&self, column: u16, ranges: &[KeyRange]) -> Result<Vec<Row>, Memory>
        requires column { column ≤ length self.now.columns }
        requires reaches { (covers (covered_of self.now.columns) column ≡ true)
            ⊎ HoldEveryKey ranges.now }
        ensures { IfOk result (λ rows. rows.items
            ≡ filter (lies_among column ranges.now) self.now.now.rows) }
    {
        if self.covered.contains(&column) {
            let ids = self.index.hits(self.alloc, column, ranges)?;
            rows_at(self.alloc, &self.slots.by_id, &ids)
        } else {
            all_rows(self.alloc, &self.slots.by_id)
        }
    }

    /// All rows, by rising numbers.
    pub fn rows(&self) -> Result<Vec<Row>, Memory>
        ensures { IfOk result (λ rows. rows.items ≡ self.now.now.rows) }
    {
        all_rows(self.alloc, &self.slots.by_id)
    }

    /// The first rows, at most so many, by rising numbers, of those whose keys in a column lie in
    /// ranges: in ranges of `ID`, or in that of one key.
    pub fn first(&self, column: u16, ranges: &[KeyRange], most: usize) -> Result<Vec<Row>, Memory>
        requires column { column ≤ length self.now.columns }
        requires reaches { (covers (covered_of self.now.columns) column ≡ true)
            ⊎ HoldEveryKey ranges.now }
        requires rises { AreRangesRising ranges.now }
        requires goes { GoesByNumber column ranges.now }
        ensures { IfOk result (λ rows. rows.items
            ≡ take most (filter (lies_among column ranges.now) self.now.now.rows)) }
    {
        // It is called for what it says: keys of numbers go as the numbers do, which the last of
        // them bounds.
        keys_order();
        let _last = self.last;
        let ids = self.index.first_hits(self.alloc, column, ranges, most)?;
        rows_of(self.alloc, &self.slots.by_id, &ids)
    }

    /// How many rows there are.
    pub fn count(&self) -> u32
        ensures { result ≡ length self.now.now.rows }
    {
        self.count
    }

    /// The last number that was given, 0 at first.
    pub fn last(&self) -> u32
        ensures { result ≡ self.now.now.last }
    {
        self.last
    }

    /// The columns, `ID` aside.
    pub fn columns(&self) -> &ColumnList
        ensures { result.now ≡ self.now.columns }
    {
        &self.columns
    }

    /// Ends a transaction without its changes, and takes no memory.
    pub fn restore(&mut self)
        ensures { self.new ≡ record self.old { now = self.old.then } }
    {
        self.slots.restore();
        self.index.restore();
        self.last = self.first;
        self.count = self.first_count;
    }

    /// Ends a transaction with its changes, and takes no memory.
    pub fn settle(&mut self)
        ensures { self.new ≡ record self.old { then = self.old.now } }
    {
        self.slots.settle();
        self.index.settle();
        self.first = self.last;
        self.first_count = self.count;
    }
}
