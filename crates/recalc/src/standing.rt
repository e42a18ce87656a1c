// Whether kept values stand.
ghost use Rattle.std.specs.Prelude.{◌≡◌, ◌<◌, ◌≤◌, ℕ, IsFalse, IsTrue, Some, false, true};
ghost use Rattle.fx_core.specs.Reads.{IsAmong};
ghost use Rattle.fx_core.specs.declared.sources.Source.{Source as Src};
ghost use Rattle.recalc.specs.app_cells.Leaning.{cell_behind as behind};
ghost use Rattle.recalc.specs.app_cells.Reach.{is_cell as is_cell_of};
ghost use Rattle.recalc.specs.app_semantics.Needed.{is_alone as is_alone_in};
ghost use Rattle.recalc.specs.app_semantics.Sound.{IsSoundApp};
ghost use Rattle.recalc.specs.Kept.{IsClean, IsInOrder, IsSettled, IsUnmoved, version_of};

use crate::app_cells::{App, CellInfo};
use crate::cache::Cache;
use crate::session_sources::cell_behind;
use crate::valued::stands_alone;
use fx_core::Source;

// Whether a source is a cell.
fn is_cell(source: Source) -> bool
    ensures { result ≡ is_cell_of source }
{
    matches!(source, Source::Cell(_))
}

/// Whether the formula of this number has a value by itself.
pub(crate) fn is_alone(app: &App, cell: u32) -> bool
    ensures { result ≡ is_alone_in app.now.cells cell }
{
    match app.cells.get(cell as usize) {
        Some(info) => stands_alone(info),
        None => false,
    }
}

impl Cache {
    // Whether a source that is no cell last changed at a number or before.
    fn is_unchanged(&self, source: Source, number: u64) -> bool
        ensures yes { IsTrue result → is_cell_of source ≡ false
            → version_of self.now source ≤ number }
        ensures no { IsFalse result → (is_cell_of source ≡ false)
            × (number < version_of self.now source) }
    {
        is_cell(source) || self.version(source) <= number
    }

    // The same of each of these sources.
    fn are_unchanged(&self, sources: &[Source], number: u64) -> bool
        ensures yes { IsTrue result → (s : Src) → is_cell_of s ≡ false → IsAmong s sources.now
            → version_of self.now s ≤ number }
        ensures no { IsFalse result → (s : Src) × (is_cell_of s ≡ false) × IsAmong s sources.now
            × (number < version_of self.now s) }
    {
        for source in sources {
            if !self.is_unchanged(*source, number) {
                return false;
            }
        }
        true
    }

    // Whether a cell is kept, and has had its value since a number.
    fn is_settled(&self, cell: u32, number: u64) -> bool
        ensures yes { IsTrue result → IsSettled self.now cell number }
        ensures no { IsFalse result → IsSettled self.now cell number → ⊥ }
    {
        match self.stamp(cell) {
            Some(stamp) => stamp.moved <= number,
            None => false,
        }
    }

    // The same of the cell on which leans who reads a source. One that has no value by itself never
    // gets another.
    fn is_settled_behind(&self, app: &App, source: Source, number: u64) -> bool
        ensures yes { IsTrue result → (d : ℕ) → behind app.now.names source ≡ Some d
            → is_alone_in app.now.cells d ≡ true → IsSettled self.now d number }
        ensures no { IsFalse result → (d : ℕ) × (behind app.now.names source ≡ Some d)
            × (is_alone_in app.now.cells d ≡ true) × (IsSettled self.now d number → ⊥) }
    {
        match cell_behind(&app.names, source) {
            Some(cell) => !is_alone(app, cell) || self.is_settled(cell, number),
            None => true,
        }
    }

    // The same of all cells on which leans who reads these sources.
    fn are_settled(&self, app: &App, sources: &[Source], number: u64) -> bool
        ensures yes { IsTrue result → (s : Src) (d : ℕ) → IsAmong s sources.now
            → behind app.now.names s ≡ Some d → is_alone_in app.now.cells d ≡ true
            → IsSettled self.now d number }
        ensures no { IsFalse result → (s : Src) × (d : ℕ) × IsAmong s sources.now
            × (behind app.now.names s ≡ Some d) × (is_alone_in app.now.cells d ≡ true)
            × (IsSettled self.now d number → ⊥) }
    {
        for source in sources {
            if !self.is_settled_behind(app, *source, number) {
                return false;
            }
        }
        true
    }

    /// Whether nothing that a formula names moved after a number.
    pub(crate) fn is_unmoved(&self, app: &App, info: &CellInfo, number: u64) -> bool
        ensures yes { IsTrue result → IsUnmoved app.now self.now info.now number }
        ensures no { IsFalse result → IsUnmoved app.now self.now info.now number → ⊥ }
    {
        let reads = info.reads.as_slice();
        self.are_unchanged(reads, number) && self.are_settled(app, reads, number)
    }

    /// Whether the value of a cell is kept and stands.
    pub(crate) fn stands(&self, app: &App, cell: u32) -> bool
        requires sound { IsSoundApp app.now }
        requires order { IsInOrder app.now self.now }
        ensures yes { IsTrue result → IsClean app.now self.now cell }
        ensures no { IsFalse result → IsClean app.now self.now cell → ⊥ }
    {
        let Some(info) = app.cells.get(cell as usize) else {
            return false;
        };
        match self.stamp(cell) {
            Some(stamp) => self.are_unchanged(info.support.as_slice(), stamp.checked),
            None => false,
        }
    }
}
