// An index: an ordered map from the keys of columns, with the numbers of the rows that have them,
// to marks.
ghost use Rattle.std.specs.Prelude.{◌≡◌, ℕ, ◌-◌, ◌<◌, ◌^◌, ◌||◌, ◌++◌, ◌≤◌, cond, true, [], IfOk};
ghost use Rattle.std.specs.Prelude.{OnOk, filter, length, option_map, take};
ghost use Rattle.std.specs.BTreeMap.{IsOrdered};
ghost use Rattle.std.specs.BTreeSet as set;
ghost use Rattle.std.specs.Option.{is_some};
ghost use Rattle.std.specs.Ordering.{nat_cmp};
ghost use Rattle.row_keeper.specs.Entries.{IndexEntry as EntryValue, HasEntryRoom};
ghost use Rattle.row_keeper.specs.Entries.{OtherEntriesStand, among, mark_at_end, end_key};
ghost use Rattle.row_keeper.specs.Entries.{entry_ended, entry_cmp, hits, hits_in, ids_in, ids_of};
ghost use Rattle.row_keeper.specs.Entries.{is_entry, is_no_entry, is_entry_among, lies_at, mark_at};
ghost use Rattle.row_keeper.specs.Entries.{now_in, then_in, while_entry};

use fx_base::Memory;
use row_queries::{Key, KeyRange};
use std::alloc::Global;
use std::collections::btree_map::Range;
use std::collections::{BTreeMap, BTreeSet};

/// A column's number and a key, and the number of a row.
pub type Entry = ((u16, Key), u32);

/// Whether an entry stood for a row as the transaction began, and whether it does now.
// The two stand in place of an undo list, so that neither end of a transaction takes memory.
#[derive(Clone, Copy, Debug, PartialEq, Eq)]
pub struct Mark {
    pub was: bool,
    pub is: bool,
}

#[derive(Drop)]
pub struct Index {
    pub entries: BTreeMap<((u16, Key), u32), Mark>,
    /// The entries that the transaction may have changed, some of them more than once.
    // An entry is noted before it changes, so that neither end of a transaction takes memory, and
    // looks at these alone.
    pub touched: Vec<((u16, Key), u32)>,
    ghost kept: { OtherEntriesStand touched.items entries.entries },
}

/// The same key.
fn copy_key(alloc: Global, key: &Key) -> Result<Key, Memory>
    ensures { IfOk result (λ k. k ≡ key.now) }
{
    Ok(Key::from_bytes(Vec::from_slice(alloc, key.as_bytes())?))
}

/// The same entry.
fn copy_entry(alloc: Global, entry: &Entry) -> Result<Entry, Memory>
    ensures { IfOk result (λ e. e ≡ entry.now) }
{
    Ok(((entry.0.0, copy_key(alloc, &entry.0.1)?), entry.1))
}

/// Puts a mark of no row under an entry, unless it has one.
fn make_mark(
    alloc: Global,
    entries: &mut BTreeMap<((u16, Key), u32), Mark>,
    entry: &Entry,
) -> Result<(), Memory>
    ensures now { (q : EntryValue) → now_in entries.new.entries q ≡ now_in entries.old.entries q }
    ensures then { (q : EntryValue) → then_in entries.new.entries q
        ≡ then_in entries.old.entries q }
    ensures more { (q : EntryValue) → is_some (mark_at entries.old.entries q) ≡ true
        → is_some (mark_at entries.new.entries q) ≡ true }
    ensures room { OnOk result (is_some (mark_at entries.new.entries entry.now) ≡ true) }
{
    let entry = copy_entry(alloc, entry)?;
    if entries.contains_key(&entry) {
        return Ok(());
    }
    let mark = Mark {
        was: false,
        is: false,
    };
    entries.insert(entry, mark)?;
    Ok(())
}

/// What a range of a column ends before.
fn end_of(alloc: Global, column: u16, range: &KeyRange) -> Result<(u16, Key), Memory>
    requires { column < 2 ^ 16 - 1 }
    ensures { IfOk result (λ k. k ≡ end_key column range.now.upto) }
{
    match &range.upto {
        None => Ok((column + 1, Key::from_bytes(Vec::new(alloc)))),
        Some(upto) => Ok((column, copy_key(alloc, upto)?)),
    }
}

impl Mark {
    /// Ends a transaction, with its change or without.
    fn end(&mut self, with_changes: bool)
        ensures { self.new ≡ mark_at_end with_changes self.old }
    {
        if with_changes {
            self.was = self.is;
        } else {
            self.is = self.was;
        }
    }
}

/// Ends a transaction in the mark of an entry, if it has one.
fn end_mark(entries: &mut BTreeMap<((u16, Key), u32), Mark>, entry: &Entry, with_changes: bool)
    ensures { (q : EntryValue) → mark_at entries.new.entries q
        ≡ cond (is_entry entry.now q) (option_map (mark_at_end with_changes)
        (mark_at entries.old.entries q)) (mark_at entries.old.entries q) }
{
    if let Some(mark) = entries.get_mut(entry) {
        mark.end(with_changes);
    }
}

/// Whether an entry has a mark of no row, once a transaction has ended there.
fn is_void(entries: &BTreeMap<((u16, Key), u32), Mark>, entry: &Entry) -> bool
    ensures { result ≡ is_no_entry (mark_at entries.now.entries entry.now) }
{
    match entries.get(entry) {
        Some(mark) => !mark.was,
        None => false,
    }
}

/// Takes out an entry whose mark is that of no row.
fn drop_mark(entries: &mut BTreeMap<((u16, Key), u32), Mark>, entry: &Entry)
    ensures { (q : EntryValue) → mark_at entries.new.entries q
        ≡ cond (is_entry entry.now q) (while_entry (mark_at entries.old.entries q))
        (mark_at entries.old.entries q) }
{
    if is_void(entries, entry) {
        entries.remove(entry);
    }
}

/// Ends a transaction at an entry.
fn end_at(entries: &mut BTreeMap<((u16, Key), u32), Mark>, entry: &Entry, with_changes: bool)
    ensures { (q : EntryValue) → mark_at entries.new.entries q
        ≡ cond (is_entry entry.now q) (entry_ended with_changes (mark_at entries.old.entries q))
        (mark_at entries.old.entries q) }
{
    end_mark(entries, entry, with_changes);
    drop_mark(entries, entry);
}

/// Ends a transaction at the entries that it touched, and takes no memory.
fn end_all(entries: &mut BTreeMap<((u16, Key), u32), Mark>, touched: &[Entry], with_changes: bool)
    ensures { (q : EntryValue) → mark_at entries.new.entries q
        ≡ cond (is_entry_among touched.now q)
        (entry_ended with_changes (mark_at entries.old.entries q)) (mark_at entries.old.entries q) }
{
    for entry in touched {
        end_at(entries, entry, with_changes);
    }
}

impl Index {
    pub fn new(alloc: Global) -> Index
        ensures { result.entries.entries ≡ [] }
    {
        Index {
            entries: BTreeMap::new(alloc),
            touched: Vec::new(alloc),
        }
    }

    /// Notes an entry as touched.
    fn touch(&mut self, alloc: Global, entry: &Entry) -> Result<(), Memory>
        ensures entries { self.new.entries ≡ self.old.entries }
        ensures more { (q : EntryValue) → is_entry_among self.old.touched.items q ≡ true
            → is_entry_among self.new.touched.items q ≡ true }
        ensures ok { OnOk result (is_entry_among self.new.touched.items entry.now ≡ true) }
    {
        self.touched.push(copy_entry(alloc, entry)?)?;
        Ok(())
    }

    /// Makes room for an entry, so that it can be marked without memory.
    pub fn make_room(&mut self, alloc: Global, entry: &Entry) -> Result<(), Memory>
        ensures now { (q : EntryValue) → now_in self.new.entries.entries q
            ≡ now_in self.old.entries.entries q }
        ensures then { (q : EntryValue) → then_in self.new.entries.entries q
            ≡ then_in self.old.entries.entries q }
        ensures more { (q : EntryValue) → HasEntryRoom self.old.touched.items
            self.old.entries.entries q → HasEntryRoom self.new.touched.items
            self.new.entries.entries q }
        ensures room { OnOk result (HasEntryRoom self.new.touched.items self.new.entries.entries
            entry.now) }
    {
        self.touch(alloc, entry)?;
        make_mark(alloc, &mut self.entries, entry)
    }

    /// Marks an entry that has room as one of a row, or as none.
    pub fn mark(&mut self, entry: &Entry, is: bool)
        requires { HasEntryRoom self.old.touched.items self.old.entries.entries entry.now }
        ensures now { (q : EntryValue) → now_in self.new.entries.entries q
            ≡ cond (is_entry entry.now q) is (now_in self.old.entries.entries q) }
        ensures then { (q : EntryValue) → then_in self.new.entries.entries q
            ≡ then_in self.old.entries.entries q }
        ensures room { (q : EntryValue) → HasEntryRoom self.old.touched.items
            self.old.entries.entries q → HasEntryRoom self.new.touched.items
            self.new.entries.entries q }
    {
        if let Some(mark) = self.entries.get_mut(entry) {
            mark.is = is;
        }
    }

    /// Makes room for entries.
    pub fn make_rooms(&mut self, alloc: Global, entries: &[Entry]) -> Result<(), Memory>
        ensures now { (q : EntryValue) → now_in self.new.entries.entries q
            ≡ now_in self.old.entries.entries q }
        ensures then { (q : EntryValue) → then_in self.new.entries.entries q
            ≡ then_in self.old.entries.entries q }
        ensures more { (q : EntryValue) → HasEntryRoom self.old.touched.items
            self.old.entries.entries q → HasEntryRoom self.new.touched.items
            self.new.entries.entries q }
        ensures room { OnOk result ((q : EntryValue) → is_entry_among entries.now q ≡ true
            → HasEntryRoom self.new.touched.items self.new.entries.entries q) }
    {
        for entry in entries {
            self.make_room(alloc, entry)?;
        }
        Ok(())
    }

    /// Marks entries that have room as those of a row, or of none.
    pub fn mark_all(&mut self, entries: &[Entry], is: bool)
        requires { (q : EntryValue) → is_entry_among entries.now q ≡ true
            → HasEntryRoom self.old.touched.items self.old.entries.entries q }
        ensures now { (q : EntryValue) → now_in self.new.entries.entries q
            ≡ cond (is_entry_among entries.now q) is (now_in self.old.entries.entries q) }
        ensures then { (q : EntryValue) → then_in self.new.entries.entries q
            ≡ then_in self.old.entries.entries q }
        ensures room { (q : EntryValue) → HasEntryRoom self.old.touched.items
            self.old.entries.entries q → HasEntryRoom self.new.touched.items
            self.new.entries.entries q }
    {
        for entry in entries {
            self.mark(entry, is);
        }
    }

    /// Ends a transaction without its changes, and takes no memory.
    pub fn restore(&mut self)
        ensures now { (q : EntryValue) → now_in self.new.entries.entries q
            ≡ then_in self.old.entries.entries q }
        ensures then { (q : EntryValue) → then_in self.new.entries.entries q
            ≡ then_in self.old.entries.entries q }
    {
        end_all(&mut self.entries, &self.touched, false);
        self.touched.clear();
    }

    /// Ends a transaction with its changes, and takes no memory.
    pub fn settle(&mut self)
        ensures now { (q : EntryValue) → now_in self.new.entries.entries q
            ≡ now_in self.old.entries.entries q }
        ensures then { (q : EntryValue) → then_in self.new.entries.entries q
            ≡ now_in self.old.entries.entries q }
    {
        end_all(&mut self.entries, &self.touched, true);
        self.touched.clear();
    }

    /// Adds the numbers of the rows with an entry of a column in a range.
    fn add_hits(
        &self,
        alloc: Global,
        column: u16,
        range: &KeyRange,
        found: &mut BTreeSet<u32>,
    ) -> Result<(), Memory>
        requires { column < 2 ^ 16 - 1 }
        ensures { OnOk result ((i : ℕ) → set.contains nat_cmp found.new i
            ≡ (set.contains nat_cmp found.old i
            || hits column range.now self.now.entries.entries i)) }
    {
        let low = ((column, copy_key(alloc, &range.from)?), 0);
        let high = (end_of(alloc, column, range)?, 0);
        // A range of keys may end before it begins, and the map's `range` takes none that does.
        if low.cmp(&high).is_lt() {
            gather(self.entries.range(low..high), found)
        } else {
            Ok(())
        }
    }

    /// Adds the numbers of the rows with an entry of a column in a range, by their keys, until
    /// there are so many.
    fn add_first_hits(
        &self,
        alloc: Global,
        column: u16,
        range: &KeyRange,
        most: usize,
        found: &mut Vec<u32>,
    ) -> Result<(), Memory>
        requires column { column < 2 ^ 16 - 1 }
        requires few { length found.old.items ≤ most }
        ensures { OnOk result (found.new.items
            ≡ take most (found.old.items ++ ids_of
            (filter (lies_at column range.now) self.now.entries.entries))) }
    {
        let low = ((column, copy_key(alloc, &range.from)?), 0);
        let high = (end_of(alloc, column, range)?, 0);
        if low.cmp(&high).is_lt() {
            gather_first(self.entries.range(low..high), most, found)
        } else {
            Ok(())
        }
    }

    /// The numbers of the first rows, at most so many, with an entry of a column in the ranges:
    /// range by range, by their keys.
    pub fn first_hits(
        &self,
        alloc: Global,
        column: u16,
        ranges: &[KeyRange],
        most: usize,
    ) -> Result<Vec<u32>, Memory>
        requires { column < 2 ^ 16 - 1 }
        ensures hits { IfOk result (λ v. v.items
            ≡ take most (ids_in column ranges.now self.now.entries.entries)) }
        ensures ordered { IsOrdered entry_cmp self.now.entries }
    {
        let _len = self.entries.len();
        let mut found = Vec::new(alloc);
        for range in ranges {
            self.add_first_hits(alloc, column, range, most, &mut found)?;
        }
        Ok(found)
    }

    /// The numbers of the rows with an entry of a column in the ranges.
    pub fn hits(
        &self,
        alloc: Global,
        column: u16,
        ranges: &[KeyRange],
    ) -> Result<BTreeSet<u32>, Memory>
        requires { column < 2 ^ 16 - 1 }
        ensures hits { IfOk result (λ s. (i : ℕ)
            → set.contains nat_cmp s i ≡ hits_in column ranges.now self.now.entries.entries i) }
        ensures ordered { IsOrdered entry_cmp self.now.entries }
    {
        // `len` is called for its clause, by which the map's keys are in order.
        let _len = self.entries.len();
        let mut found = BTreeSet::new(alloc);
        for range in ranges {
            self.add_hits(alloc, column, range, &mut found)?;
        }
        Ok(found)
    }
}

/// Adds the numbers of the rows among some entries, in their order, until there are so many.
fn gather_first(
    range: Range<'_, ((u16, Key), u32), Mark>,
    most: usize,
    found: &mut Vec<u32>,
) -> Result<(), Memory>
    requires { length found.old.items ≤ most }
    ensures { OnOk result (found.new.items ≡ take most (found.old.items ++ ids_of range.entry)) }
{
    for (entry, mark) in range {
        if found.len() >= most {
            return Ok(());
        }
        if mark.is {
            found.push(entry.1)?;
        }
    }
    Ok(())
}

/// Adds the numbers of the rows among some entries.
fn gather(
    range: Range<'_, ((u16, Key), u32), Mark>,
    found: &mut BTreeSet<u32>,
) -> Result<(), Memory>
    ensures { OnOk result ((i : ℕ) → set.contains nat_cmp found.new i
        ≡ (set.contains nat_cmp found.old i || among range.entry i)) }
{
    for (entry, mark) in range {
        if mark.is {
            found.insert(entry.1)?;
        }
    }
    Ok(())
}
