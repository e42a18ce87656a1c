// The rows of a table by their numbers. What a transaction makes of a row stands beside what the
// row was.
ghost use Rattle.std.specs.Prelude.{◌≡◌, ℕ, ◌==◌, [], if◌then◌else◌, cond, true, false, None, Some};
ghost use Rattle.std.specs.Prelude.{List, IfOk, OnOk, OnErr, MatchOption, IsSome, option_map};
ghost use Rattle.std.specs.BTreeMap.{IsOrdered, get};
ghost use Rattle.std.specs.Option.{is_some};
ghost use Rattle.std.specs.Ordering.{nat_cmp};
ghost use Rattle.row_keeper.specs.Slots.{OtherSlotsStand, slot_at_end, cells_now, slot_ended};
ghost use Rattle.row_keeper.specs.Slots.{is_no_row, has_number, now_of, now_at, slot_at, then_at};
ghost use Rattle.row_keeper.specs.Slots.{while_row};
ghost use Rattle.row_keeper.specs.Slots as spec;

use fx_base::Memory;
use row_queries::Cells;
use std::alloc::Global;
use std::collections::BTreeMap;
use std::mem;

/// What a transaction has made of a row.
#[derive(Drop)]
pub enum Made {
    Same,
    Gone,
    New(Cells),
}

/// What a row was as the transaction began, if it was one, and what it is now.
// The two stand in place of an undo list, so that neither end of a transaction takes memory.
#[derive(Drop)]
pub struct Slot {
    pub was: Option<Cells>,
    pub made: Made,
}

/// Slots by the numbers of their rows.
#[derive(Drop)]
pub struct Slots {
    pub by_id: BTreeMap<u32, Slot>,
    /// The numbers of the slots that the transaction has changed, some of them more than once.
    // A number is noted before its slot changes, so that neither end of a transaction takes memory,
    // and looks at these alone.
    pub touched: Vec<u32>,
    ghost kept: { OtherSlotsStand touched.items by_id.entries },
}

impl Slot {
    /// The cells of the row now, if it is one.
    pub fn cells(&self) -> Option<&Cells>
        ensures { MatchOption result (cells_now self.now ≡ None)
            (λ c. cells_now self.now ≡ Some c.now) }
    {
        match &self.made {
            Made::Same => match &self.was {
                None => None,
                Some(cells) => Some(cells),
            },
            Made::Gone => None,
            Made::New(cells) => Some(cells),
        }
    }

    fn settle(&mut self)
        ensures { self.new ≡ spec.settled self.old }
    {
        match mem::replace(&mut self.made, Made::Same) {
            Made::Same => {}
            Made::Gone => self.was = None,
            Made::New(cells) => self.was = Some(cells),
        }
    }

    fn restore(&mut self)
        ensures { self.new ≡ spec.restored self.old }
    {
        self.made = Made::Same;
    }

    /// Ends a transaction, with its change or without.
    fn end(&mut self, with_changes: bool)
        ensures { self.new ≡ slot_at_end with_changes self.old }
    {
        if with_changes {
            self.settle()
        } else {
            self.restore()
        }
    }
}

/// Ends a transaction in the slot of a number, if it has one.
fn end_slot(rows: &mut BTreeMap<u32, Slot>, id: u32, with_changes: bool)
    ensures { (i : ℕ) → slot_at rows.new.entries i
        ≡ cond (id == i) (option_map (slot_at_end with_changes) (slot_at rows.old.entries i))
        (slot_at rows.old.entries i) }
{
    if let Some(slot) = rows.get_mut(&id) {
        slot.end(with_changes);
    }
}

/// Whether a number has a slot of no row, once a transaction has ended there.
fn is_void(rows: &BTreeMap<u32, Slot>, id: u32) -> bool
    ensures { result ≡ is_no_row (slot_at rows.now.entries id) }
{
    match rows.get(&id) {
        Some(slot) => slot.was.is_none(),
        None => false,
    }
}

/// Takes out the slot of a number, if it is one of no row.
fn drop_slot(rows: &mut BTreeMap<u32, Slot>, id: u32)
    ensures { (i : ℕ) → slot_at rows.new.entries i
        ≡ cond (id == i) (while_row (slot_at rows.old.entries i)) (slot_at rows.old.entries i) }
{
    if is_void(rows, id) {
        rows.remove(&id);
    }
}

/// Ends a transaction at a number.
fn end_at(rows: &mut BTreeMap<u32, Slot>, id: u32, with_changes: bool)
    ensures { (i : ℕ) → slot_at rows.new.entries i
        ≡ cond (id == i) (slot_ended with_changes (slot_at rows.old.entries i))
        (slot_at rows.old.entries i) }
{
    end_slot(rows, id, with_changes);
    drop_slot(rows, id);
}

/// Ends a transaction at the numbers that it touched, and takes no memory.
fn end_all(rows: &mut BTreeMap<u32, Slot>, touched: &[u32], with_changes: bool)
    ensures slots { (i : ℕ) → slot_at rows.new.entries i
        ≡ cond (has_number touched.now i) (slot_ended with_changes (slot_at rows.old.entries i))
        (slot_at rows.old.entries i) }
    ensures was_ordered { IsOrdered nat_cmp rows.old }
    ensures ordered { IsOrdered nat_cmp rows.new }
{
    // `len` is called for its clause, here and below, by which the map's keys are in order.
    let _len = rows.len();
    for id in touched {
        end_at(rows, *id, with_changes);
    }
    let _len = rows.len();
}

impl Slots {
    pub fn new(alloc: Global) -> Slots
        ensures { result.by_id.entries ≡ [] }
    {
        Slots {
            by_id: BTreeMap::new(alloc),
            touched: Vec::new(alloc),
        }
    }

    /// Notes a number as touched.
    fn touch(&mut self, id: u32) -> Result<(), Memory>
        ensures slots { self.new.by_id ≡ self.old.by_id }
        ensures ok { OnOk result (has_number self.new.touched.items id ≡ true) }
    {
        self.touched.push(id)?;
        Ok(())
    }

    /// Puts a row in under an id that has none.
    pub fn put_new(&mut self, id: u32, cells: Cells) -> Result<(), Memory>
        requires { is_some (then_at self.old.by_id.entries id) ≡ false }
        ensures now { OnOk result ((i : ℕ) → now_at self.new.by_id.entries i
            ≡ (if id == i then Some cells else now_at self.old.by_id.entries i)) }
        ensures then { (i : ℕ) → then_at self.new.by_id.entries i
            ≡ then_at self.old.by_id.entries i }
        ensures err { OnErr result (self.new.by_id.entries ≡ self.old.by_id.entries) }
        ensures was_ordered { IsOrdered nat_cmp self.old.by_id }
        ensures ordered { IsOrdered nat_cmp self.new.by_id }
    {
        let _len = self.by_id.len();
        self.touch(id)?;
        let slot = Slot {
            was: None,
            made: Made::New(cells),
        };
        self.by_id.insert(id, slot)?;
        let _len = self.by_id.len();
        Ok(())
    }

    /// Changes what a row is now.
    pub fn put_over(&mut self, id: u32, made: Made) -> Result<(), Memory>
        requires { IsSome (get nat_cmp self.old.by_id id) }
        ensures now { OnOk result ((i : ℕ) → now_at self.new.by_id.entries i
            ≡ (if id == i then now_of (then_at self.old.by_id.entries id) made else now_at
            self.old.by_id.entries i)) }
        ensures then { (i : ℕ) → then_at self.new.by_id.entries i
            ≡ then_at self.old.by_id.entries i }
        ensures err { OnErr result (self.new.by_id.entries ≡ self.old.by_id.entries) }
        ensures was_ordered { IsOrdered nat_cmp self.old.by_id }
        ensures ordered { IsOrdered nat_cmp self.new.by_id }
    {
        let _len = self.by_id.len();
        self.touch(id)?;
        if let Some(slot) = self.by_id.get_mut(&id) {
            slot.made = made;
        }
        let _len = self.by_id.len();
        Ok(())
    }

    /// Ends a transaction without its changes, and takes no memory.
    pub fn restore(&mut self)
        ensures now { (i : ℕ) → now_at self.new.by_id.entries i ≡ then_at self.old.by_id.entries i }
        ensures then { (i : ℕ) → then_at self.new.by_id.entries i
            ≡ then_at self.old.by_id.entries i }
        ensures was_ordered { IsOrdered nat_cmp self.old.by_id }
        ensures ordered { IsOrdered nat_cmp self.new.by_id }
    {
        end_all(&mut self.by_id, &self.touched, false);
        self.touched.clear();
    }

    /// Ends a transaction with its changes, and takes no memory.
    pub fn settle(&mut self)
        ensures now { (i : ℕ) → now_at self.new.by_id.entries i ≡ now_at self.old.by_id.entries i }
        ensures then { (i : ℕ) → then_at self.new.by_id.entries i
            ≡ now_at self.old.by_id.entries i }
        ensures was_ordered { IsOrdered nat_cmp self.old.by_id }
        ensures ordered { IsOrdered nat_cmp self.new.by_id }
    {
        end_all(&mut self.by_id, &self.touched, true);
        self.touched.clear();
    }
}
