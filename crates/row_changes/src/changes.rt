// What a transaction has made of a table. It is written to the database at its end alone: a
// statement that fails in a transaction of the database may undo all of it.
ghost use Rattle.std.specs.Prelude.{◌≡◌, ℕ, ◌+◌, ◌-◌, ◌<◌, ◌≤◌, ◌==◌, ◌^◌, if◌then◌else◌, [], None};
ghost use Rattle.std.specs.Prelude.{Some, IfOk, OnErr, OnOk, length, set};
ghost use Rattle.std.specs.BTreeMap.{IsOrdered};
ghost use Rattle.std.specs.Ordering.{nat_cmp};
ghost use Rattle.sql_meanings.specs.Lines.{LinesOf};
ghost use Rattle.row_changes.specs.Moves.{Adds, HasNone, IsSame, Puts, changed_to};
ghost use Rattle.row_changes.specs.Overlay.{AreOf, body_of_added, bytes_in, change_at, last_of};
ghost use Rattle.row_changes.specs.Overlay.{made_of, overlay, shown};

use crate::table::{Change, Made, TableChanges};
use fx_base::Memory;
use std::alloc::Global;
use std::collections::BTreeMap;

impl TableChanges {
    /// No change of a table that has given this number last.
    pub fn new(alloc: Global, last: u32) -> TableChanges
        ensures first { result.first ≡ last }
        ensures changed { result.changed.entries ≡ [] }
        ensures added { result.added.items ≡ [] }
    {
        TableChanges {
            first: last,
            changed: BTreeMap::new(alloc),
            added: Vec::new(alloc),
        }
    }

    /// The last number that the table has given.
    pub fn last(&self) -> u32
        ensures { result ≡ self.now.first + length self.now.added.items }
    {
        self.first + self.added.len() as u32
    }

    /// What was made of the row of a number.
    pub fn made(&self, id: u32) -> Made<'_>
        ensures { shown result ≡ made_of self.now id }
    {
        if id > self.first {
            return self.made_of_added(id - self.first - 1);
        }
        match self.changed.get(&id) {
            None => Made::Same,
            Some(change) => made_by(&change.now),
        }
    }

    /// What was made of the row at a place among those that were put.
    fn made_of_added(&self, place: u32) -> Made<'_>
        ensures { shown result ≡ Some (body_of_added self.now place) }
    {
        match self.added.get(place as usize) {
            None => Made::Gone,
            Some(body) => made_by(body),
        }
    }

    /// A fact, and no work: the rows that have changed stand by rising numbers.
    pub fn is_ordered(&self)
        ensures { IsOrdered nat_cmp self.now.changed }
    {
        let _ = self.changed.len();
    }

    /// Puts a row behind all others, under the next number, which it gives.
    pub fn add(&mut self, body: Vec<u8>) -> Result<u32, Memory>
        requires { last_of self.old < 2 ^ 32 - 1 }
        ensures id { IfOk result (λ id. id ≡ last_of self.new) }
        ensures ok { OnOk result (Adds self.old self.new body.items) }
        ensures first { self.new.first ≡ self.old.first }
        ensures err { OnErr result (IsSame self.old self.new) }
    {
        let id = self.last() + 1;
        self.added.push(Some(body))?;
        Ok(id)
    }

    /// Gives a row that has a line with this body another one, or takes it out.
    pub fn put(
        &mut self,
        alloc: Global,
        id: u32,
        was: &[u8],
        now: Option<Vec<u8>>,
    ) -> Result<(), Memory>
        ensures ok { OnOk result (Puts self.old self.new id was.now (bytes_in now)) }
        ensures first { self.new.first ≡ self.old.first }
        ensures err { OnErr result (IsSame self.old self.new) }
    {
        if id > self.first {
            self.put_added(id - self.first - 1, now);
            return Ok(());
        }
        self.put_kept(alloc, id, was, now)
    }

    /// Gives the row at a place among those that were put another body, or takes it out.
    fn put_added(&mut self, place: u32, now: Option<Vec<u8>>)
        ensures first { self.new.first ≡ self.old.first }
        ensures changed { self.new.changed.entries ≡ self.old.changed.entries }
        ensures added { self.new.added.items ≡ set self.old.added.items place now }
    {
        if let Some(body) = self.added.get_mut(place as usize) {
            *body = now;
        }
    }

    /// Gives a row that was there as the transaction began another body, or takes it out.
    fn put_kept(
        &mut self,
        alloc: Global,
        id: u32,
        was: &[u8],
        now: Option<Vec<u8>>,
    ) -> Result<(), Memory>
        ensures ok { OnOk result ((q : ℕ) → change_at self.new q
            ≡ (if q == id then Some (changed_to was.now (bytes_in now) (change_at self.old id)) else
            change_at self.old q)) }
        ensures first { self.new.first ≡ self.old.first }
        ensures added { self.new.added.items ≡ self.old.added.items }
        ensures err { OnErr result (self.new.changed.entries ≡ self.old.changed.entries) }
    {
        if let Some(change) = self.changed.get_mut(&id) {
            change.now = now;
            return Ok(());
        }
        let was = Vec::from_slice(alloc, was)?;
        self.changed.insert(id, Change { was, now })?;
        Ok(())
    }

    /// Ends the transaction with its changes.
    pub fn settle(&mut self)
        ensures none { HasNone self.new (last_of self.old) }
        ensures changes { (kept : LinesOf) → AreOf kept self.old
            → AreOf (overlay self.old kept) self.new }
    {
        let last = self.last();
        self.clear();
        self.first = last;
    }

    /// Ends the transaction without its changes.
    pub fn restore(&mut self)
        ensures none { HasNone self.new self.old.first }
        ensures changes { (kept : LinesOf) → AreOf kept self.old → AreOf kept self.new }
    {
        self.clear();
    }

    fn clear(&mut self)
        ensures { HasNone self.new self.old.first }
    {
        self.changed.clear();
        self.added.clear();
    }
}

/// What was made of a row that has this body now, or is gone.
fn made_by(now: &Option<Vec<u8>>) -> Made<'_>
    ensures { shown result ≡ Some (bytes_in now.now) }
{
    match now {
        None => Made::Gone,
        Some(body) => Made::Body(body),
    }
}
