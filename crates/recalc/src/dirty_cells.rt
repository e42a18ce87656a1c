// Which cells have to be brought up to date.
ghost use Rattle.std.specs.Prelude.{◌≡◌, ◌⊎◌, ◌<◌, ℕ, IfOk, IsFalse, IsTrue, Some, false, length};
ghost use Rattle.std.specs.Prelude.{slice_get, true};
ghost use Rattle.std.specs.List.{Contains};
ghost use Rattle.fx_core.specs.Reads.{IsAmong};
ghost use Rattle.fx_core.specs.declared.sources.Source.{Source as Src};
ghost use Rattle.recalc.specs.app_cells.Leaning.{cell_behind as behind};
ghost use Rattle.recalc.specs.app_semantics.Needed.{is_alone as is_alone_in};
ghost use Rattle.recalc.specs.app_semantics.Sound.{IsSoundApp};
ghost use Rattle.recalc.specs.Kept.{IsClean, IsInOrder, Leans};
ghost use Rattle.recalc.specs.Needing.{AreMarked, IsVisited, LeadsTo, is_marked};

use crate::app_cells::App;
use crate::cache::Cache;
use crate::session_sources::cell_behind;
use crate::standing::is_alone;
use fx_base::Memory;
use fx_core::Source;
use std::alloc::Global;

// Marks a cell, where there is one of this number.
fn mark(marks: &mut [bool], cell: u32)
    ensures long { length marks.new ≡ length marks.old }
    ensures still { (k : ℕ) → is_marked marks.old k ≡ true → is_marked marks.new k ≡ true }
    ensures there { cell < length marks.old → is_marked marks.new cell ≡ true }
    ensures only { (k : ℕ) → is_marked marks.new k ≡ true
        → (is_marked marks.old k ≡ true) ⊎ (k ≡ cell) }
{
    let place = cell as usize;
    if place >= marks.len() {
        return;
    }
    marks[place] = true;
}

// Marks these cells.
fn mark_all(marks: &mut [bool], cells: &[u32])
    requires { (k : ℕ) → Contains cells.now k → k < length marks.old }
    ensures long { length marks.new ≡ length marks.old }
    ensures there { (k : ℕ) → Contains cells.now k → is_marked marks.new k ≡ true }
    ensures only { (k : ℕ) → is_marked marks.new k ≡ true
        → (is_marked marks.old k ≡ true) ⊎ Contains cells.now k }
{
    for cell in cells {
        mark(marks, *cell);
    }
}

// Marks the cell on which leans who reads a source, if that has a value by itself.
fn mark_behind(app: &App, source: Source, marks: &mut [bool])
    requires { length marks.old ≡ length app.now.cells }
    ensures long { length marks.new ≡ length marks.old }
    ensures still { (k : ℕ) → is_marked marks.old k ≡ true → is_marked marks.new k ≡ true }
    ensures there { (d : ℕ) → behind app.now.names source ≡ Some d
        → is_alone_in app.now.cells d ≡ true → is_marked marks.new d ≡ true }
    ensures only { (k : ℕ) → is_marked marks.new k ≡ true
        → (is_marked marks.old k ≡ true) ⊎ ((behind app.now.names source ≡ Some k)
        × (is_alone_in app.now.cells k ≡ true)) }
{
    if let Some(cell) = cell_behind(&app.names, source) {
        if is_alone(app, cell) {
            mark(marks, cell);
        }
    }
}

// The same of all that reads these sources.
fn mark_leaned(app: &App, sources: &[Source], marks: &mut [bool])
    requires { length marks.old ≡ length app.now.cells }
    ensures long { length marks.new ≡ length marks.old }
    ensures still { (k : ℕ) → is_marked marks.old k ≡ true → is_marked marks.new k ≡ true }
    ensures there { (s : Src) (d : ℕ) → IsAmong s sources.now → behind app.now.names s ≡ Some d
        → is_alone_in app.now.cells d ≡ true → is_marked marks.new d ≡ true }
    ensures only { (k : ℕ) → is_marked marks.new k ≡ true
        → (is_marked marks.old k ≡ true) ⊎ ((s : Src) × IsAmong s sources.now
        × (behind app.now.names s ≡ Some k) × (is_alone_in app.now.cells k ≡ true)) }
{
    for source in sources {
        mark_behind(app, *source, marks);
    }
}

/// Whether a cell is marked, and its value doesn't stand.
pub(crate) fn is_due(app: &App, cache: &Cache, marks: &[bool], cell: u32) -> bool
    requires sound { IsSoundApp app.now }
    requires order { IsInOrder app.now cache.now }
    ensures yes { IsTrue result → (is_marked marks.now cell ≡ true)
        × (IsClean app.now cache.now cell → ⊥) }
    ensures no { IsFalse result → is_marked marks.now cell ≡ true → IsClean app.now cache.now cell }
{
    let place = cell as usize;
    place < marks.len() && marks[place] && !cache.stands(app, cell)
}

// Marks what a cell leans on, if it is marked and its value doesn't stand.
fn visit(app: &App, cache: &Cache, cell: u32, marks: &mut [bool])
    requires sound { IsSoundApp app.now }
    requires order { IsInOrder app.now cache.now }
    requires long { length marks.old ≡ length app.now.cells }
    ensures { IsVisited app.now cache.now cell marks.old marks.new }
{
    if !is_due(app, cache, marks, cell) {
        return;
    }
    if let Some(info) = app.cells.get(cell as usize) {
        mark_leaned(app, info.reads.as_slice(), marks);
    }
}

// Marks all that marked cells whose values don't stand lean on.
fn mark_needed(app: &App, cache: &Cache, marks: &mut [bool])
    requires sound { IsSoundApp app.now }
    requires order { IsInOrder app.now cache.now }
    requires long { length marks.old ≡ length app.now.cells }
    ensures { LeadsTo app.now cache.now marks.old marks.new }
{
    let order = app.order.as_slice();
    let mut place = order.len();
    while place > 0 {
        place -= 1;
        visit(app, cache, order[place], marks);
    }
}

/// Marks these cells, and all that have to be up to date before them.
pub(crate) fn needs_of(
    alloc: Global,
    app: &App,
    cache: &Cache,
    roots: &[u32],
) -> Result<Vec<bool>, Memory>
    requires sound { IsSoundApp app.now }
    requires order { IsInOrder app.now cache.now }
    requires roots { (k : ℕ) → Contains roots.now k → is_alone_in app.now.cells k ≡ true }
    ensures { IfOk result (λ marks. AreMarked app.now cache.now roots.now marks.items) }
{
    let mut marks = vec![in alloc; false; app.cells.len()]?;
    mark_all(&mut marks, roots);
    mark_needed(app, cache, &mut marks);
    Ok(marks)
}
