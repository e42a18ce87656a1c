// What a cell's change does to a cache.
ghost use Rattle.std.specs.Prelude.{◌≡◌, ◌↔◌, ℕ, IsFalse, IsTrue, Some, slice_get, true};
ghost use Rattle.fx_core.specs.Reads.{IsAmong};
ghost use Rattle.fx_core.specs.declared.sources.Source.{Source as Src};
ghost use Rattle.recalc.specs.app_cells.Leaning.{LeansOn, cell_behind as behind};
ghost use Rattle.recalc.specs.app_cells.declared.app.CellInfo.{CellInfo as Info};
ghost use Rattle.recalc.specs.app_semantics.Sound.{IsSoundApp};
ghost use Rattle.recalc.specs.Changes.{IsCellTouched};
ghost use Rattle.recalc.specs.Clearing.{AreCleared, IsMarkedIf, is_marked_cell as is_marked_in};
ghost use Rattle.recalc.specs.Kept.{HasNumbersLeft, IsInOrder};

use crate::app_cells::App;
use crate::cache::Cache;
use crate::session_sources::cell_behind;
use fx_core::Source;

impl Cache {
    // Whether the cell is marked on which leans who reads a source.
    fn is_marked_behind(&self, app: &App, source: Source) -> bool
        ensures yes { IsTrue result → (d : ℕ) × (behind app.now.names source ≡ Some d)
            × (is_marked_in self.now d ≡ true) }
        ensures no { IsFalse result → (d : ℕ) → behind app.now.names source ≡ Some d
            → is_marked_in self.now d ≡ true → ⊥ }
    {
        match cell_behind(&app.names, source) {
            Some(cell) => self.is_marked(cell),
            None => false,
        }
    }

    // Whether one of the cells is marked on which leans who reads these sources.
    fn is_any_marked(&self, app: &App, sources: &[Source]) -> bool
        ensures yes { IsTrue result → (s : Src) × (d : ℕ) × IsAmong s sources.now
            × (behind app.now.names s ≡ Some d) × (is_marked_in self.now d ≡ true) }
        ensures no { IsFalse result → (s : Src) (d : ℕ) → IsAmong s sources.now
            → behind app.now.names s ≡ Some d → is_marked_in self.now d ≡ true → ⊥ }
    {
        for source in sources {
            if self.is_marked_behind(app, *source) {
                return true;
            }
        }
        false
    }

    // Whether a cell leans on one that is marked.
    fn leans_on_marked(&self, app: &App, cell: u32) -> bool
        ensures { IsTrue result ↔ ((i : Info) × (d : ℕ) × (slice_get app.now.cells cell ≡ Some i)
            × LeansOn app.now.names i d × (is_marked_in self.now d ≡ true)) }
    {
        match app.cells.get(cell as usize) {
            Some(info) => self.is_any_marked(app, info.reads.as_slice()),
            None => false,
        }
    }

    // Marks a cell that is the one that was touched, or that leans on one that is marked.
    fn mark_next(&mut self, app: &App, touched: u32, cell: u32)
        ensures { IsMarkedIf app.now touched cell self.old self.new }
    {
        if cell == touched || self.leans_on_marked(app, cell) {
            self.mark(cell);
        }
    }

    // Takes the stamps of the cells away that reach one. By the order each stands behind those on
    // which it leans.
    fn clear(&mut self, app: &App, cell: u32)
        ensures { IsSoundApp app.now → IsInOrder app.now self.old → HasNumbersLeft self.old.last
            → AreCleared app.now cell self.old self.new }
    {
        let order = app.order.as_slice();
        for number in order {
            self.mark_next(app, cell, *number);
        }
        self.drop_marks();
    }

    /// Says that a cell has changed. What is kept of the cells that reach it goes.
    pub(crate) fn touch_cell(&mut self, app: &App, cell: u32)
        ensures { IsSoundApp app.now → IsInOrder app.now self.old
            → IsCellTouched app.now cell self.old self.new }
    {
        self.make_numbers();
        self.clear(app, cell);
    }
}
