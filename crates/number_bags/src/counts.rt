// For each number, how often it stands somewhere.
ghost use Rattle.std.specs.Prelude.{◌≡◌, ℕ, ℤ, ◌+◌, ◌<◌, ◌^◌, ◌-◌, cond, true, [], IfOk, OnOk};
ghost use Rattle.std.specs.Prelude.{option_map};
ghost use Rattle.std.specs.Option.{is_some};
ghost use Rattle.std.specs.Ordering.{int_eq};
ghost use Rattle.number_bags.specs.Entries.{HasRoom, OthersStand, at_end, count_at, ended, is_gone};
ghost use Rattle.number_bags.specs.Entries.{is_one_of, now_at, then_at, while_counted};

use crate::number::Number;
use fx_base::Memory;
use std::alloc::Global;
use std::collections::BTreeMap;

/// How often a number stood there as the transaction began, and how often it does now.
// The two stand in place of an undo list, so that neither end of a transaction takes memory.
#[derive(Clone, Copy, Debug, PartialEq, Eq)]
pub struct Count {
    pub was: u32,
    pub is: u32,
}

#[derive(Drop)]
pub struct Counts {
    pub entries: BTreeMap<Number, Count>,
    /// The numbers whose counts the transaction may have changed, some of them more than once.
    pub touched: Vec<Number>,
    ghost kept: { OthersStand touched.items entries.entries },
}

/// Puts a count of none under a number, unless it has one.
fn make_entry(entries: &mut BTreeMap<Number, Count>, number: &Number) -> Result<(), Memory>
    ensures now { (q : ℤ) → now_at entries.new.entries q ≡ now_at entries.old.entries q }
    ensures then { (q : ℤ) → then_at entries.new.entries q ≡ then_at entries.old.entries q }
    ensures more { (q : ℤ) → is_some (count_at entries.old.entries q) ≡ true → is_some
        (count_at entries.new.entries q) ≡ true }
    ensures room { OnOk result (is_some (count_at entries.new.entries number.now) ≡ true) }
{
    if entries.contains_key(number) {
        return Ok(());
    }
    let count = Count { was: 0, is: 0 };
    entries.insert(*number, count)?;
    Ok(())
}

impl Count {
    /// Ends a transaction, with its change or without.
    fn end(&mut self, with_changes: bool)
        ensures { self.new ≡ at_end with_changes self.old }
    {
        if with_changes {
            self.was = self.is;
        } else {
            self.is = self.was;
        }
    }
}

/// Ends a transaction in the count of a number, if it has one.
fn end_count(entries: &mut BTreeMap<Number, Count>, number: &Number, with_changes: bool)
    ensures { (q : ℤ) → count_at entries.new.entries q ≡ cond (int_eq number.now q) (option_map
        (at_end with_changes) (count_at entries.old.entries q)) (count_at entries.old.entries q) }
{
    if let Some(count) = entries.get_mut(number) {
        count.end(with_changes);
    }
}

/// Whether a number has a count of none, once a transaction has ended there.
fn is_void(entries: &BTreeMap<Number, Count>, number: &Number) -> bool
    ensures { result ≡ is_gone (count_at entries.now.entries number.now) }
{
    match entries.get(number) {
        Some(count) => count.was == 0,
        None => false,
    }
}

/// Takes out a number whose count is one of none.
fn drop_count(entries: &mut BTreeMap<Number, Count>, number: &Number)
    ensures { (q : ℤ) → count_at entries.new.entries q ≡ cond (int_eq number.now q) (while_counted
        (count_at entries.old.entries q)) (count_at entries.old.entries q) }
{
    if is_void(entries, number) {
        entries.remove(number);
    }
}

/// Ends a transaction at a number.
fn end_at(entries: &mut BTreeMap<Number, Count>, number: &Number, with_changes: bool)
    ensures { (q : ℤ) → count_at entries.new.entries q ≡ cond (int_eq number.now q)
        (ended with_changes (count_at entries.old.entries q)) (count_at entries.old.entries q) }
{
    end_count(entries, number, with_changes);
    drop_count(entries, number);
}

/// Ends a transaction at the numbers that it touched, and takes no memory.
fn end_all(entries: &mut BTreeMap<Number, Count>, touched: &[Number], with_changes: bool)
    ensures { (q : ℤ) → count_at entries.new.entries q ≡ cond (is_one_of touched.now q)
        (ended with_changes (count_at entries.old.entries q)) (count_at entries.old.entries q) }
{
    for number in touched {
        end_at(entries, number, with_changes);
    }
}

impl Counts {
    pub fn new(alloc: Global) -> Counts
        ensures entries { result.entries.entries ≡ [] }
    {
        Counts {
            entries: BTreeMap::new(alloc),
            touched: Vec::new(alloc),
        }
    }

    /// How often a number stands there.
    pub fn count(&self, number: &Number) -> u32
        ensures { result ≡ now_at self.now.entries.entries number.now }
    {
        match self.entries.get(number) {
            Some(count) => count.is,
            None => 0,
        }
    }

    /// Makes room for a number, so that its count can be written without memory.
    pub fn make_room(&mut self, number: &Number) -> Result<(), Memory>
        ensures now { (q : ℤ) → now_at self.new.entries.entries q
            ≡ now_at self.old.entries.entries q }
        ensures then { (q : ℤ) → then_at self.new.entries.entries q
            ≡ then_at self.old.entries.entries q }
        ensures more { (q : ℤ) → HasRoom self.old.touched.items self.old.entries.entries q
            → HasRoom self.new.touched.items self.new.entries.entries q }
        ensures room { OnOk result
            (HasRoom self.new.touched.items self.new.entries.entries number.now) }
    {
        self.touched.push(*number)?;
        make_entry(&mut self.entries, number)
    }

    /// Writes how often a number stands there for which there is room.
    pub fn write(&mut self, number: &Number, is: u32)
        requires { HasRoom self.old.touched.items self.old.entries.entries number.now }
        ensures now { (q : ℤ) → now_at self.new.entries.entries q ≡ cond (int_eq number.now q) is
            (now_at self.old.entries.entries q) }
        ensures then { (q : ℤ) → then_at self.new.entries.entries q
            ≡ then_at self.old.entries.entries q }
        ensures room { (q : ℤ) → HasRoom self.old.touched.items self.old.entries.entries q
            → HasRoom self.new.touched.items self.new.entries.entries q }
    {
        if let Some(count) = self.entries.get_mut(number) {
            count.is = is;
        }
    }

    /// Takes a number out once, for which there is room.
    pub fn lower(&mut self, number: &Number)
        requires room { HasRoom self.old.touched.items self.old.entries.entries number.now }
        requires there { 0 < now_at self.old.entries.entries number.now }
        ensures now { (q : ℤ) → cond (int_eq number.now q) 1 0 + now_at self.new.entries.entries q
            ≡ now_at self.old.entries.entries q }
        ensures then { (q : ℤ) → then_at self.new.entries.entries q
            ≡ then_at self.old.entries.entries q }
        ensures room { (q : ℤ) → HasRoom self.old.touched.items self.old.entries.entries q
            → HasRoom self.new.touched.items self.new.entries.entries q }
    {
        let is = self.count(number);
        self.write(number, is - 1);
    }

    /// Puts a number in once more, for which there is room.
    pub fn raise(&mut self, number: &Number)
        requires room { HasRoom self.old.touched.items self.old.entries.entries number.now }
        requires below { now_at self.old.entries.entries number.now < 2 ^ 32 - 1 }
        ensures now { (q : ℤ) → now_at self.new.entries.entries q ≡ cond
            (int_eq number.now q) 1 0 + now_at self.old.entries.entries q }
        ensures then { (q : ℤ) → then_at self.new.entries.entries q
            ≡ then_at self.old.entries.entries q }
        ensures room { (q : ℤ) → HasRoom self.old.touched.items self.old.entries.entries q
            → HasRoom self.new.touched.items self.new.entries.entries q }
    {
        let is = self.count(number);
        self.write(number, is + 1);
    }

    /// Ends a transaction without its changes, and takes no memory.
    pub fn restore(&mut self)
        ensures now { (q : ℤ) → now_at self.new.entries.entries q
            ≡ then_at self.old.entries.entries q }
        ensures then { (q : ℤ) → then_at self.new.entries.entries q
            ≡ then_at self.old.entries.entries q }
    {
        end_all(&mut self.entries, &self.touched, false);
        self.touched.clear();
    }

    /// Ends a transaction with its changes, and takes no memory.
    pub fn settle(&mut self)
        ensures now { (q : ℤ) → now_at self.new.entries.entries q
            ≡ now_at self.old.entries.entries q }
        ensures then { (q : ℤ) → then_at self.new.entries.entries q
            ≡ now_at self.old.entries.entries q }
    {
        end_all(&mut self.entries, &self.touched, true);
        self.touched.clear();
    }
}
