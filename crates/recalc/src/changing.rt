// What changes of sources do to a cache.
ghost use Rattle.std.specs.Prelude.{◌≡◌, ◌↔◌, ◌<◌, ℕ, IfOk, false, length};
ghost use Rattle.std.specs.List.{AllPairs, Contains};
ghost use Rattle.fx_types.specs.ValueView.{view};
ghost use Rattle.fx_core.specs.declared.sources.Source.TheVariants.{Cell, Today};
ghost use Rattle.recalc.specs.app_cells.declared.app.App.{App as AnApp};
ghost use Rattle.recalc.specs.app_cells.Reach.{is_cell};
ghost use Rattle.recalc.specs.app_semantics.Sound.{IsSoundApp};
ghost use Rattle.recalc.specs.Changes.{IsCellTouched, IsTouched, on_day};
ghost use Rattle.recalc.specs.Kept.{HasNumbersLeft, IsClean, IsInOrder, CacheState, source_index};
ghost use Rattle.recalc.specs.Outcomes.{HasNumbers};

use crate::app_cells::App;
use crate::cache::Cache;
use fx_base::Memory;
use fx_core::Source;
use fx_types::values::Value;
use std::alloc::Global;

/// How many numbers a call may take at most: one for each cell, and one.
const NUMBERS: u64 = 2_001;

impl Cache {
    /// Empties the cache where few numbers are left.
    pub(crate) fn make_numbers(&mut self)
        ensures room { HasNumbersLeft self.new.last }
        ensures places { length self.new.versions ≡ length self.old.versions }
        ensures numbers { (a : AnApp) → HasNumbers a self.old self.new }
    {
        if u64::MAX - self.last() < NUMBERS {
            self.empty();
        }
    }

    // Says that a source has changed, which is no cell.
    fn tell(&mut self, source: Source)
        requires { source_index source < length self.old.versions }
        ensures { (a : AnApp) → is_cell source ≡ false → IsTouched a source self.old self.new }
    {
        self.make_numbers();
        self.raise(source);
    }

    /// Says that a source of the app has changed. The values of the cells that reach it don't stand
    /// any more, and all others do as before: nothing but the number of the source's last change is
    /// another one, unless the numbers ran out. What is kept of the cells that reach a cell goes. It
    /// takes no memory.
    pub fn touched(&mut self, app: &App, source: Source)
        requires { is_cell source ≡ false → source_index source < length self.old.versions }
        ensures told { (a : AnApp) → is_cell source ≡ false → IsTouched a source self.old self.new }
        ensures cell { (k : ℕ) → source ≡ Cell k → IsSoundApp app.now → IsInOrder app.now self.old
            → IsCellTouched app.now k self.old self.new }
    {
        match source {
            Source::Cell(cell) => self.touch_cell(app, cell),
            _ => self.tell(source),
        }
    }

    /// Says that another day has begun: `Today()` has changed.
    pub fn turn(&mut self, day: Value)
        requires { source_index Today < length self.old.versions }
        ensures { (told : CacheState) × ((a : AnApp) → IsTouched a Today self.old told)
            × (self.new ≡ on_day told (view day)) }
    {
        self.tell(Source::Today);
        self.set_day(day);
    }

    /// The numbers of the cells whose values stand, in rising order.
    pub fn clean(&self, alloc: Global, app: &App) -> Result<Vec<u32>, Memory>
        requires sound { IsSoundApp app.now }
        requires order { IsInOrder app.now self.now }
        ensures exact { IfOk result (λ v. (k : ℕ) → Contains v.items k ↔ IsClean app.now self.now k) }
        ensures rising { IfOk result (λ v. AllPairs (λ x y. x < y) v.items) }
    {
        let mut cells = Vec::new(alloc);
        let count = app.cells.len() as u32;
        for cell in 0..count {
            if self.stands(app, cell) {
                cells.push(cell)?;
            }
        }
        Ok(cells)
    }
}
