// What is kept goes over to an edited app.
ghost use Rattle.std.specs.Prelude.{◌≡◌, ◌↔◌, ◌+◌, ◌<◌, ℕ, IfNone, IfOk, IfSome, IsFalse, IsSome};
ghost use Rattle.std.specs.Prelude.{IsTrue, None, Some, length, slice_index, true};
ghost use Rattle.fx_core.specs.Reads.{IsAmong};
ghost use Rattle.fx_core.specs.declared.sources.Source.{Source as Src};
ghost use Rattle.recalc.specs.app_cells.Leaning.{cell_behind as behind};
ghost use Rattle.recalc.specs.app_semantics.Fresh.{reads_table as reads_any};
ghost use Rattle.recalc.specs.app_semantics.Needed.{is_alone as is_alone_in};
ghost use Rattle.recalc.specs.app_semantics.Needed.{stands_alone as is_by_itself};
ghost use Rattle.recalc.specs.app_semantics.Sound.{IsSoundApp};
ghost use Rattle.recalc.specs.Filling.{IsFilling};
ghost use Rattle.recalc.specs.Carrying.{AreOldCells, AreOldPlaces, IsBegunAnew, IsCarried};
ghost use Rattle.recalc.specs.Carrying.{IsCarriedAt};
ghost use Rattle.recalc.specs.Carrying.{IsEditOf, IsLeft, IsOldCell};
ghost use Rattle.recalc.specs.Kept.{IsInOrder, IsRoomFor, CacheState, stamp_of};

use crate::app_cells::{App, CellInfo};
use crate::cache::Cache;
use crate::evaluating::reads_table;
use crate::session_sources::cell_behind;
use crate::standing::is_alone;
use crate::trees::{are_old_reads, is_old_tree, old_places, place_at};
use crate::valued::stands_alone;
use fx_base::Memory;
use fx_core::Source;
use std::alloc::Global;

// Whether two formulas have values by themselves, and both read tables or none does.
fn are_both_alone(before: &CellInfo, after: &CellInfo) -> bool
    ensures { IsTrue result ↔ ((is_by_itself before.now ≡ true) × (is_by_itself after.now ≡ true)
        × (reads_any after.now.reads ≡ reads_any before.now.reads)) }
{
    let reads = after.reads.as_slice();
    let were = before.reads.as_slice();
    stands_alone(before) && stands_alone(after) && reads_table(reads) == reads_table(were)
}

// Whether an edit left a formula.
fn is_left(
    old: &App,
    new: &App,
    places: &[Option<usize>],
    before: &CellInfo,
    after: &CellInfo,
) -> bool
    requires { AreOldPlaces old.now new.now places.now }
    ensures { IsTrue result ↔ IsLeft old.now new.now before.now after.now }
{
    if !are_both_alone(before, after) {
        return false;
    }
    let reads = after.reads.as_slice();
    let were = before.reads.as_slice();
    are_old_reads(old, new, places, reads, were)
        && is_old_tree(old, new, places, &after.taken, &before.taken)
}

// Which cell of the app before a cell of the edited one is, if an edit left it.
fn old_cell(old: &App, new: &App, places: &[Option<usize>], cell: usize) -> Option<usize>
    requires { AreOldPlaces old.now new.now places.now }
    ensures some { IfSome result (λ j. IsOldCell old.now new.now j cell) }
    ensures none { IfNone result ((j : ℕ) → IsOldCell old.now new.now j cell → ⊥) }
{
    let was = place_at(places, cell)?;
    let before = old.cells.get(was)?;
    let after = new.cells.get(cell)?;
    if is_left(old, new, places, before, after) {
        Some(was)
    } else {
        None
    }
}

/// For each cell of an edited app the one of the app before, where that is the same: it has the
/// same address, type and tree, and what the tree reads has the same names. It is found once for
/// all caches.
pub fn old_cells(alloc: Global, old: &App, new: &App) -> Result<Vec<Option<usize>>, Memory>
    ensures { IfOk result (λ v. AreOldCells old.now new.now v.items) }
{
    let places = old_places(alloc, old, new)?;
    let count = new.cells.len();
    let mut cells = Vec::with_capacity(alloc, count)?;
    for cell in 0..count {
        cells.push(old_cell(old, new, &places, cell))?;
    }
    Ok(cells)
}

impl Cache {
    // Whether a cell has no value by itself, or is kept.
    fn is_had(&self, app: &App, cell: u32) -> bool
        ensures yes { IsTrue result → is_alone_in app.now.cells cell ≡ true
            → IsSome (stamp_of self.now cell) }
        ensures no { IsFalse result → (is_alone_in app.now.cells cell ≡ true)
            × (stamp_of self.now cell ≡ None) }
    {
        !is_alone(app, cell) || self.stamp(cell).is_some()
    }

    // The same of the cell on which leans who reads a source.
    fn is_had_behind(&self, app: &App, source: Source) -> bool
        ensures yes { IsTrue result → (d : ℕ) → behind app.now.names source ≡ Some d
            → is_alone_in app.now.cells d ≡ true → IsSome (stamp_of self.now d) }
        ensures no { IsFalse result → (d : ℕ) × (behind app.now.names source ≡ Some d)
            × (is_alone_in app.now.cells d ≡ true) × (stamp_of self.now d ≡ None) }
    {
        match cell_behind(&app.names, source) {
            Some(cell) => self.is_had(app, cell),
            None => true,
        }
    }

    // The same of all cells on which leans who reads these sources.
    fn are_had(&self, app: &App, sources: &[Source]) -> bool
        ensures yes { IsTrue result → (s : Src) (d : ℕ) → IsAmong s sources.now
            → behind app.now.names s ≡ Some d → is_alone_in app.now.cells d ≡ true
            → IsSome (stamp_of self.now d) }
        ensures no { IsFalse result → (s : Src) × (d : ℕ) × IsAmong s sources.now
            × (behind app.now.names s ≡ Some d) × (is_alone_in app.now.cells d ≡ true)
            × (stamp_of self.now d ≡ None) }
    {
        for source in sources {
            if !self.is_had_behind(app, *source) {
                return false;
            }
        }
        true
    }

    // Keeps here what another cache keeps of a cell under its number there, if it stands and all is
    // kept here on which the formula leans.
    fn carry_cell(&mut self, from: &mut Cache, old: &App, new: &App, cell: u32, was: u32)
        requires was_sound { IsSoundApp old.now }
        requires was_in_order { IsInOrder old.now from.old }
        requires room { length self.old.stamps ≡ length new.now.cells }
        requires values { length self.old.values.cells ≡ length new.now.cells }
        requires same { IsOldCell old.now new.now was cell }
        requires blank { stamp_of self.old cell ≡ None }
        ensures { IsCarriedAt old.now new.now was cell from.old from.new self.old self.new }
    {
        let Some(info) = new.cells.get(cell as usize) else {
            return;
        };
        if !from.stands(old, was) || !self.are_had(new, info.reads.as_slice()) {
            return;
        }
        if let Some(stamp) = from.stamp(was) {
            let value = from.take(was);
            self.receive(cell, value, stamp.moved);
        }
    }

    // The same of a cell, where there is one that it was.
    fn carry_next(
        &mut self,
        from: &mut Cache,
        old: &App,
        new: &App,
        cells: &[Option<usize>],
        cell: u32,
    )
        requires was_sound { IsSoundApp old.now }
        requires was_in_order { IsInOrder old.now from.old }
        requires sound { IsSoundApp new.now }
        requires cells { AreOldCells old.now new.now cells.now }
        requires there { cell < length new.now.cells }
        requires room { length self.old.stamps ≡ length new.now.cells }
        requires values { length self.old.values.cells ≡ length new.now.cells }
        requires blank { stamp_of self.old cell ≡ None }
        ensures { (before : CacheState) (i : ℕ) → i < length new.now.order
            → slice_index new.now.order i ≡ cell
            → IsFilling old.now new.now before from.old i self.old
            → IsFilling old.now new.now before from.new (i + 1) self.new }
    {
        if let Some(was) = place_at(cells, cell as usize) {
            self.carry_cell(from, old, new, cell, was as u32);
        }
    }

    /// What is kept goes over to an edited app, as far as the edit leaves it, and the room is used
    /// up. `cells` are the old cells that the edit left. It takes no memory.
    pub fn carry(&mut self, old: &App, new: &App, cells: &[Option<usize>])
        requires was_sound { IsSoundApp old.now }
        requires sound { IsSoundApp new.now }
        requires edit { IsEditOf old.now new.now }
        requires was_in_order { IsInOrder old.now self.old }
        requires room { IsRoomFor new.now self.old.room }
        requires cells { AreOldCells old.now new.now cells.now }
        ensures { IsCarried old.now new.now self.old self.new }
    {
        let mut from = self.restart(new.cells.len());
        let order = new.order.as_slice();
        for number in order {
            self.carry_next(&mut from, old, new, cells, *number);
        }
    }

    /// Goes over to an app that replaces the old one, in the room that was made, which is used up.
    /// Nothing is kept any more. It takes no memory.
    pub fn begin_anew(&mut self, app: &App)
        requires { IsRoomFor app.now self.old.room }
        ensures { IsBegunAnew app.now self.old self.new }
    {
        let _kept = self.restart(app.cells.len());
    }
}
