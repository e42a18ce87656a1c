//! A session's cache.
ghost use Rattle.std.specs.Prelude.{◌≡◌, ◌+◌, ◌<◌, ◌≤◌, ◌^◌, ℕ, IfOk, IfSome, None, OnErr, length};
ghost use Rattle.std.specs.Prelude.{slice_index, slice_index_or};
ghost use Rattle.fx_core.specs.declared.sources.Source.{Source as Src};
ghost use Rattle.recalc.specs.Clearing.{is_mark_stamp as is_mark_of, stamp_unmarked as unmarked_of};
ghost use Rattle.recalc.specs.Kept.{IsSourceOf, source_index};

use crate::app_cells::App;
use crate::stamps::Stamp;
use crate::valued::{Valued, blank_first, blanks};
use fx_base::Memory;
use fx_core::{Names, Source};
use fx_types::values::Value;
use std::alloc::Global;
use std::marker::Model;
use std::mem;

/// The most cells of an app.
const MOST_CELLS: usize = 2_000;

/// How many kinds of sources there are. The places of those of one kind stand so far apart.
const KINDS: usize = 8;

/// The values of the cells of an app for one session, as far as they are kept, with the numbers by
/// which it is known which of them stand. Every change of a source is told it by `touched`.
pub struct Cache {
    // Kept, so that `make_room` takes none.
    alloc: Global,
    // How often all numbers were given anew. It stands still at its end.
    emptied: u64,
    last: u64,
    versions: Vec<u64>,
    stamps: Vec<Option<Stamp>>,
    valued: Valued,
    // What stands in them says nothing. They have room for what will be kept of an edited app.
    spare_versions: Vec<u64>,
    spare_stamps: Vec<Option<Stamp>>,
    spare_values: Vec<Value>,
}

// By hand, so that it is called: what is derived is opened wherever a value may end, which costs
// proofs seconds each time.
impl Drop for Cache {
    fn drop(self) {
        let Cache {
            alloc: _,
            emptied: _,
            last: _,
            versions: _,
            stamps: _,
            valued: _,
            spare_versions: _,
            spare_stamps: _,
            spare_values: _,
        } = self;
    }
}

impl Model for Cache {
    ghost use Rattle.std.specs.Prelude.{length};
    ghost use Rattle.std.specs.Coded.{codes};
    ghost use Rattle.fx_types.specs.ValueCode.{data_code};
    ghost use Rattle.recalc.specs.Kept.{CacheState};

    ghost Value = { CacheState };

    ghost coded = { Prim.hlevel (codes, data_code) };

    ghost view = { λ c. record {
      emptied = c.emptied;
      last = c.last;
      versions = c.versions.items;
      stamps = c.stamps.items;
      values = c.valued;
      room = record {
        versions = length c.spare_versions.items;
        stamps = length c.spare_stamps.items;
        values = length c.spare_values.items;
      };
    } };
}

// How many places the sources under these names have.
fn places_of(names: &Names) -> Option<usize>
    ensures { IfSome result (λ n. (s : Src) → IsSourceOf names.now s → source_index s < n) }
{
    let named = names.variables.len().max(names.collections.len());
    let shown = names.controls.len().max(names.schema.tables.len());
    named.max(shown).checked_add(1)?.checked_mul(KINDS)
}

// Takes all stamps away.
fn drop_stamps(stamps: &mut [Option<Stamp>])
    ensures long { length stamps.new ≡ length stamps.old }
    ensures none { (k : ℕ) → slice_index_or stamps.new k None ≡ None }
{
    for stamp in stamps.iter_mut() {
        *stamp = None;
    }
}

// Takes all versions back to the first number.
fn drop_versions(versions: &mut [u64])
    ensures long { length versions.new ≡ length versions.old }
    ensures zero { (p : ℕ) → slice_index versions.new p ≡ 0 }
{
    for version in versions.iter_mut() {
        *version = 0;
    }
}

// Stamps of so many cells, of which none is kept, where those were.
fn clear_stamps(mut stamps: Vec<Option<Stamp>>, count: usize) -> Vec<Option<Stamp>>
    requires { count ≤ length stamps.items }
    ensures long { length result.items ≡ count }
    ensures none { (k : ℕ) → slice_index_or result.items k None ≡ None }
{
    stamps.truncate(count);
    drop_stamps(&mut stamps);
    stamps
}

// Whether a stamp is a mark.
fn is_mark(stamp: Option<Stamp>) -> bool
    ensures { result ≡ is_mark_of stamp }
{
    match stamp {
        Some(stamp) => stamp.checked == u64::MAX,
        None => false,
    }
}

// A stamp, and none for a mark.
fn without_mark(stamp: Option<Stamp>) -> Option<Stamp>
    ensures { result ≡ unmarked_of stamp }
{
    if is_mark(stamp) { None } else { stamp }
}

// Takes all marks away.
fn unmark(stamps: &mut [Option<Stamp>])
    ensures long { length stamps.new ≡ length stamps.old }
    ensures each { (k : ℕ) → slice_index_or stamps.new k None
        ≡ unmarked_of (slice_index_or stamps.old k None) }
{
    for stamp in stamps.iter_mut() {
        *stamp = without_mark(*stamp);
    }
}

// The first versions, where those were.
fn reset_versions(mut versions: Vec<u64>) -> Vec<u64>
    ensures long { length result.items ≡ length versions.items }
    ensures zero { (p : ℕ) → slice_index result.items p ≡ 0 }
{
    drop_versions(&mut versions);
    versions
}

// The place of a source among versions.
fn place(source: Source) -> usize
    ensures { result ≡ source_index source }
{
    match source {
        Source::Cell(k) => k as usize * KINDS,
        Source::Global(k) => k as usize * KINDS + 1,
        Source::Context(k) => k as usize * KINDS + 2,
        Source::Gathered(k) => k as usize * KINDS + 3,
        Source::Input(k) => k as usize * KINDS + 4,
        Source::Chosen(k) => k as usize * KINDS + 5,
        Source::Table(k) => k as usize * KINDS + 6,
        Source::Today => 7,
    }
}

impl Cache {
    ghost use Rattle.fx_types.specs.ValueView.{view};
    ghost use Rattle.recalc.specs.Changes.{on_day, raised};
    ghost use Rattle.recalc.specs.Kept.{IsInOrder, IsRoomFor, CacheRoom, source_index, stamp_of};
    ghost use Rattle.recalc.specs.Kept.{cached_value, version_of};
    ghost use Rattle.recalc.specs.Outcomes.{IsEmpty, IsEmptied, IsForgotten, IsRestarted, let_out};
    ghost use Rattle.recalc.specs.Carrying.{received, taken_from};
    ghost use Rattle.recalc.specs.Clearing.{AreUnmarked, is_marked_cell as is_marked_in, marked};
    ghost use Rattle.recalc.specs.Steps.{confirmed, kept_with};

    /// A cache for a session of this app, on this day, in which nothing is kept.
    pub fn new(alloc: Global, app: &App, day: Value) -> Result<Cache, Memory>
        ensures order { IfOk result (IsInOrder app.now) }
        ensures empty { IfOk result IsEmpty }
        ensures day { IfOk result (λ c. c.values.day ≡ view day) }
    {
        let count = app.cells.len();
        // No app has more.
        if count > MOST_CELLS {
            return Err(Memory);
        }
        let places = places_of(&app.names).ok_or(Memory)?;
        let versions = vec![in alloc; 0; places]?;
        let stamps = vec![in alloc; None; count]?;
        let valued = Valued::blank(alloc, count, day)?;
        Ok(Cache {
            alloc,
            emptied: 0,
            last: 0,
            versions,
            stamps,
            valued,
            spare_versions: Vec::new(alloc),
            spare_stamps: Vec::new(alloc),
            spare_values: Vec::new(alloc),
        })
    }

    /// Makes room beside what is kept for what will be kept of an edited app.
    pub fn make_room(&mut self, app: &App) -> Result<(), Memory>
        ensures made { IfOk result (λ _. (r : CacheRoom) × IsRoomFor app.now r
            × (self.new ≡ record self.old { room = r })) }
        ensures stopped { OnErr result (self.new ≡ self.old) }
    {
        let count = app.cells.len();
        // No app has more.
        if count > MOST_CELLS {
            return Err(Memory);
        }
        let places = places_of(&app.names).ok_or(Memory)?;
        let versions = vec![in self.alloc; 0; places]?;
        let stamps = vec![in self.alloc; None; count]?;
        let values = blanks(self.alloc, count)?;
        self.spare_versions = versions;
        self.spare_stamps = stamps;
        self.spare_values = values;
        Ok(())
    }

    /// The last number that was given.
    pub(crate) fn last(&self) -> u64
        ensures { result ≡ self.now.last }
    {
        self.last
    }

    /// The number of a source's last change.
    pub(crate) fn version(&self, source: Source) -> u64
        ensures { result ≡ version_of self.now source }
    {
        let place = place(source);
        if place < self.versions.len() {
            self.versions[place]
        } else {
            0
        }
    }

    /// The stamp of a cell, where it is kept.
    pub(crate) fn stamp(&self, cell: u32) -> Option<Stamp>
        ensures { result ≡ stamp_of self.now cell }
    {
        match self.stamps.get(cell as usize) {
            Some(stamp) => *stamp,
            None => None,
        }
    }

    /// The values of all cells, and the day.
    pub fn values(&self) -> &Valued
        ensures { result.now ≡ self.now.values }
    {
        &self.valued
    }

    /// Keeps nothing any more. The numbers that were given stay so.
    pub fn forget(&mut self)
        ensures { IsForgotten self.old self.new }
    {
        drop_stamps(&mut self.stamps);
    }

    /// Another day begins, of which the cache is told by `touched` beside.
    pub(crate) fn set_day(&mut self, day: Value)
        ensures { self.new ≡ on_day self.old (view day) }
    {
        self.valued.set_day(day);
    }

    /// Keeps nothing any more, and gives all numbers anew, which is counted.
    pub(crate) fn empty(&mut self)
        ensures { IsEmptied self.old self.new }
    {
        drop_stamps(&mut self.stamps);
        drop_versions(&mut self.versions);
        self.last = 0;
        self.emptied = self.emptied.saturating_add(1);
    }

    /// Gives a source the next number as that of its last change.
    pub(crate) fn raise(&mut self, source: Source)
        requires room { self.old.last + 1 < 2 ^ 64 }
        requires place { source_index source < length self.old.versions }
        ensures { self.new ≡ raised self.old source }
    {
        self.last += 1;
        self.versions[place(source)] = self.last;
    }

    /// Says of a kept cell that it was checked now.
    pub(crate) fn confirm(&mut self, cell: u32, moved: u64)
        requires there { cell < length self.old.stamps }
        ensures { self.new ≡ confirmed self.old cell moved }
    {
        self.stamps[cell as usize] = Some(Stamp {
            checked: self.last,
            moved,
        });
    }

    /// Whether a cell is marked.
    pub(crate) fn is_marked(&self, cell: u32) -> bool
        ensures { result ≡ is_marked_in self.now cell }
    {
        is_mark(self.stamp(cell))
    }

    /// Marks a cell, where there is one of this number, by a stamp that none is given: numbers run
    /// out before.
    pub(crate) fn mark(&mut self, cell: u32)
        ensures { self.new ≡ marked self.old cell }
    {
        let place = cell as usize;
        if place < self.stamps.len() {
            self.stamps[place] = Some(Stamp {
                checked: u64::MAX,
                moved: u64::MAX,
            });
        }
    }

    /// Takes all marks away.
    pub(crate) fn drop_marks(&mut self)
        ensures { AreUnmarked self.old self.new }
    {
        unmark(&mut self.stamps);
    }

    /// Keeps a value that was made now, under the next number.
    pub(crate) fn keep(&mut self, cell: u32, value: Value, moved: u64)
        requires room { self.old.last + 1 < 2 ^ 64 }
        requires stamp { cell < length self.old.stamps }
        requires value { cell < length self.old.values.cells }
        ensures { self.new ≡ kept_with self.old cell (view value) moved }
    {
        self.last += 1;
        self.valued.put(cell, value);
        self.confirm(cell, moved);
    }

    /// Nothing is kept any more, in the room for so many cells, which is used up. What was kept
    /// comes out. It takes no memory.
    pub(crate) fn restart(&mut self, count: usize) -> Cache
        requires stamps { count ≤ self.old.room.stamps }
        requires values { count ≤ self.old.room.values }
        ensures out { result ≡ let_out self.old }
        ensures new { IsRestarted count self.old self.new }
    {
        let alloc = self.alloc;
        let versions = mem::replace(&mut self.spare_versions, Vec::new(alloc));
        let stamps = mem::replace(&mut self.spare_stamps, Vec::new(alloc));
        let values = mem::replace(&mut self.spare_values, Vec::new(alloc));
        Cache {
            alloc,
            emptied: self.emptied,
            last: self.last,
            versions: mem::replace(&mut self.versions, reset_versions(versions)),
            stamps: mem::replace(&mut self.stamps, clear_stamps(stamps, count)),
            valued: self.valued.exchange(blank_first(values, count)),
            spare_versions: Vec::new(alloc),
            spare_stamps: Vec::new(alloc),
            spare_values: Vec::new(alloc),
        }
    }

    /// Takes the value of a cell out.
    pub(crate) fn take(&mut self, cell: u32) -> Value
        requires { cell < length self.old.values.cells }
        ensures value { view result ≡ cached_value self.old cell }
        ensures left { self.new ≡ taken_from self.old cell }
    {
        self.valued.take(cell)
    }

    /// Gives a cell a value, and says that it was checked now.
    pub(crate) fn receive(&mut self, cell: u32, value: Value, moved: u64)
        requires stamp { cell < length self.old.stamps }
        requires value { cell < length self.old.values.cells }
        ensures { self.new ≡ received self.old cell (view value) moved }
    {
        self.valued.put(cell, value);
        self.confirm(cell, moved);
    }
}
