// Cells are brought up to date.
ghost use Rattle.std.specs.Prelude.{◌≡◌, ◌≢◌, ◌+◌, ◌<◌, ◌≤◌, ◌^◌, ◌↔◌, ℕ, IfOk, IfSome, IsErrOf};
ghost use Rattle.std.specs.Prelude.{IsNone, IsTrue, [], OnErr, OnOk, Some, length, slice_get, true};
ghost use Rattle.std.specs.List.{Contains};
ghost use Rattle.fx_types.specs.ValueView.{view};
ghost use Rattle.fx_scalar.specs.ScalarFunctions.{IsToday};
ghost use Rattle.recalc.specs.Asking.{CanAsk, IsHeardOf, ReadsNone, ToldRows};
ghost use Rattle.recalc.specs.AskingOver.{HasRead};
ghost use Rattle.recalc.specs.app_semantics.Holding.{HoldsFitting};
ghost use Rattle.recalc.specs.app_semantics.Needed.{IsFreshAt, is_alone as is_alone_in};
ghost use Rattle.recalc.specs.app_semantics.Present.{present};
ghost use Rattle.recalc.specs.app_semantics.Sound.{IsSoundApp};
ghost use Rattle.row_keeper.specs.Over.{HasCause};
ghost use Rattle.row_keeper.specs.declared.keeper.KeeperEnd.TheVariants.{Failed};
ghost use Rattle.recalc.specs.Changes.{StaysCleanExcept};
ghost use Rattle.recalc.specs.Kept.{HasNumbersLeft, IsClean, IsInOrder, IsUnmoved, Leans, stamp_of};
ghost use Rattle.recalc.specs.Kept.{cached_value};
ghost use Rattle.recalc.specs.Needing.{AreMarked, is_marked};
ghost use Rattle.recalc.specs.Outcomes.{IsRightOver};
ghost use Rattle.recalc.specs.declared.stamps.Stamp.{Stamp};
ghost use Rattle.fx_eval.specs.Visits.{AtMost};
ghost use Rattle.recalc.specs.Visits.{CellVisits, MayVisit, VisitsPerCell, WhereTold};
ghost use Rattle.recalc.specs.Steps.{IsBrought, IsBroughtIf, IsCellCutOff, KeepsClean, MayStep};
ghost use Rattle.recalc.specs.Steps.{MayStepIf, OncePerCell, WasMoved};

use crate::Steps;
use crate::app_cells::{App, CellInfo};
use crate::cache::Cache;
use crate::dirty_cells::{is_due, needs_of};
use fx_types::values::Value;
use fx_value::same;
use row_keeper::{Keeper, KeeperEnd};
use session_state::Session;
use std::alloc::Global;
use std::sync::ledger::Ledger;

impl Cache {
    // Whether a kept value of a cell is this one.
    fn is_still(&self, cell: u32, value: &Value) -> bool
        requires { cell < length self.now.values.cells }
        ensures { IsTrue result ↔ (cached_value self.now cell ≡ view value.now) }
    {
        same(&self.values().as_slice()[cell as usize], value)
    }

    // Since when a value that a cell gets is what it is: since when the kept one is, if that is the
    // same, and else from the next number on.
    fn since(&self, cell: u32, value: &Value) -> u64
        requires room { self.now.last + 1 < 2 ^ 64 }
        requires there { cell < length self.now.values.cells }
        ensures { WasMoved self.now cell (view value.now) result }
    {
        let next = self.last() + 1;
        match self.stamp(cell) {
            Some(stamp) => {
                if self.is_still(cell, value) {
                    stamp.moved
                } else {
                    next
                }
            }
            None => next,
        }
    }

    // Since when a kept value is what it is, where nothing moved that its formula names.
    fn still_since(&self, app: &App, cell: u32, info: &CellInfo) -> Option<u64>
        requires { slice_get app.now.cells cell ≡ Some info.now }
        ensures some { IfSome result (λ n. (e : Stamp) × (stamp_of self.now cell ≡ Some e)
            × (n ≡ e.moved) × IsUnmoved app.now self.now info.now e.checked) }
        ensures none { IsNone result → IsCellCutOff app.now self.now self.now cell → ⊥ }
    {
        let stamp = self.stamp(cell)?;
        if !self.is_unmoved(app, info, stamp.checked) {
            return None;
        }
        Some(stamp.moved)
    }

    // Evaluates a cell, and keeps its value.
    #[tactic(auto, using(crate::proofs::Asked::read_none, crate::proofs::Asked::read_on))]
    fn evaluate<K: Keeper, L: Ledger>(
        &mut self,
        alloc: Global,
        app: &App,
        session: &Session,
        keeper: &mut K,
        moment: u64,
        cell: u32,
        info: &CellInfo,
        steps: &mut Steps<L>,
    ) -> Result<(), KeeperEnd>
        requires sound { IsSoundApp app.now }
        requires holds { HoldsFitting app.now.names session.now }
        requires day { IsToday moment self.old.values.day }
        requires asks { CanAsk app.now (K.shaped keeper.old) }
        requires order { IsInOrder app.now self.old }
        requires there { slice_get app.now.cells cell ≡ Some info.now }
        requires self_alone { is_alone_in app.now.cells cell ≡ true }
        requires room { self.old.last + 1 < 2 ^ 64 }
        requires unclean { IsClean app.now self.old cell → ⊥ }
        requires leans { (d : ℕ) → Leans app.now cell d → IsClean app.now self.old d }
        ensures order { IsInOrder app.now self.new }
        ensures right { IsRightOver app.now session.now (K.told keeper.old) moment self.old
            → IsRightOver app.now session.now (K.told keeper.new) moment self.new }
        ensures brought { OnOk result (IsBrought app.now cell self.old self.new) }
        ensures stepped { OnOk result ((steps.new ≡ steps.old + 1)
            × (self.new.last ≡ self.old.last + 1)) }
        ensures visits { IsRightOver app.now session.now (K.told keeper.old) moment self.old
            → OnOk result (WhereTold (K.told keeper.new) (λ rows.
            AtMost (CellVisits app.now session.now rows moment cell) (K.visited keeper.old)
            (K.visited keeper.new))) }
        ensures stopped { OnErr result (self.new ≡ self.old) }
        ensures read { HasRead K.Keeper keeper.old keeper.new }
        ensures cause { HasCause K.Keeper keeper.old keeper.new result }
        ensures alone { ReadsNone app.now → keeper.new ≡ keeper.old }
        ensures reached { IsErrOf result Failed → ReadsNone app.now → ⊥ }
    {
        let value = self
            .values()
            .by_itself(alloc, app, session, keeper, info, steps)?;
        let moved = self.since(cell, &value);
        self.keep(cell, value, moved);
        Ok(())
    }

    // Brings a cell up to date whose value doesn't stand, where the values of all stand on which it
    // leans.
    #[tactic(auto, using(crate::proofs::Asked::read_none, crate::proofs::Asked::read_on))]
    fn renew<K: Keeper, L: Ledger>(
        &mut self,
        alloc: Global,
        app: &App,
        session: &Session,
        keeper: &mut K,
        moment: u64,
        cell: u32,
        info: &CellInfo,
        steps: &mut Steps<L>,
    ) -> Result<(), KeeperEnd>
        requires sound { IsSoundApp app.now }
        requires holds { HoldsFitting app.now.names session.now }
        requires day { IsToday moment self.old.values.day }
        requires asks { CanAsk app.now (K.shaped keeper.old) }
        requires order { IsInOrder app.now self.old }
        requires there { slice_get app.now.cells cell ≡ Some info.now }
        requires self_alone { is_alone_in app.now.cells cell ≡ true }
        requires room { self.old.last + 1 < 2 ^ 64 }
        requires unclean { IsClean app.now self.old cell → ⊥ }
        requires leans { (d : ℕ) → Leans app.now cell d → IsClean app.now self.old d }
        ensures order { IsInOrder app.now self.new }
        ensures right { IsRightOver app.now session.now (K.told keeper.old) moment self.old
            → IsRightOver app.now session.now (K.told keeper.new) moment self.new }
        ensures brought { OnOk result (IsBrought app.now cell self.old self.new) }
        ensures ticks { OnOk result (MayStep app.now cell self.old self.new steps.old steps.new) }
        ensures visits { IsRightOver app.now session.now (K.told keeper.old) moment self.old
            → OnOk result (WhereTold (K.told keeper.new) (λ rows.
            MayVisit app.now session.now rows moment cell steps.old steps.new (K.visited keeper.old)
            (K.visited keeper.new))) }
        ensures stopped { OnErr result (self.new ≡ self.old) }
        ensures read { HasRead K.Keeper keeper.old keeper.new }
        ensures cause { HasCause K.Keeper keeper.old keeper.new result }
        ensures alone { ReadsNone app.now → keeper.new ≡ keeper.old }
        ensures idle { OnOk result (steps.new ≡ steps.old → keeper.new ≡ keeper.old) }
        ensures reached { IsErrOf result Failed → ReadsNone app.now → ⊥ }
    {
        match self.still_since(app, cell, info) {
            Some(moved) => {
                self.confirm(cell, moved);
                Ok(())
            }
            None => self.evaluate(alloc, app, session, keeper, moment, cell, info, steps),
        }
    }

    // The same of a cell that is marked; nothing is done to another one.
    #[tactic(auto, using(crate::proofs::Asked::read_none, crate::proofs::Asked::read_on))]
    fn bring<K: Keeper, L: Ledger>(
        &mut self,
        alloc: Global,
        app: &App,
        session: &Session,
        keeper: &mut K,
        moment: u64,
        marks: &[bool],
        cell: u32,
        steps: &mut Steps<L>,
    ) -> Result<(), KeeperEnd>
        requires sound { IsSoundApp app.now }
        requires holds { HoldsFitting app.now.names session.now }
        requires day { IsToday moment self.old.values.day }
        requires asks { CanAsk app.now (K.shaped keeper.old) }
        requires order { IsInOrder app.now self.old }
        requires marks { length marks.now ≡ length app.now.cells }
        requires alone { is_marked marks.now cell ≡ true → is_alone_in app.now.cells cell ≡ true }
        requires room { self.old.last + 1 < 2 ^ 64 }
        requires leans { is_marked marks.now cell ≡ true → (IsClean app.now self.old cell → ⊥)
            → (d : ℕ) → Leans app.now cell d → IsClean app.now self.old d }
        ensures order { IsInOrder app.now self.new }
        ensures right { IsRightOver app.now session.now (K.told keeper.old) moment self.old
            → IsRightOver app.now session.now (K.told keeper.new) moment self.new }
        ensures brought { OnOk result (IsBroughtIf app.now marks.now cell self.old self.new) }
        ensures ticks { OnOk result (MayStepIf app.now marks.now cell self.old self.new steps.old
            steps.new) }
        ensures visits { IsRightOver app.now session.now (K.told keeper.old) moment self.old
            → OnOk result (WhereTold (K.told keeper.new) (λ rows.
            MayVisit app.now session.now rows moment cell steps.old steps.new (K.visited keeper.old)
            (K.visited keeper.new))) }
        ensures stopped { OnErr result (self.new ≡ self.old) }
        ensures read { HasRead K.Keeper keeper.old keeper.new }
        ensures cause { HasCause K.Keeper keeper.old keeper.new result }
        ensures alone { ReadsNone app.now → keeper.new ≡ keeper.old }
        ensures idle { OnOk result (steps.new ≡ steps.old → keeper.new ≡ keeper.old) }
        ensures reached { IsErrOf result Failed → ReadsNone app.now → ⊥ }
    {
        if !is_due(app, self, marks, cell) {
            return Ok(());
        }
        match app.cells.get(cell as usize) {
            Some(info) => self.renew(alloc, app, session, keeper, moment, cell, info, steps),
            None => Ok(()),
        }
    }

    // Whether the values of all these cells stand.
    fn all_stand(&self, app: &App, cells: &[u32]) -> bool
        requires sound { IsSoundApp app.now }
        requires order { IsInOrder app.now self.now }
        ensures { IsTrue result → (k : ℕ) → Contains cells.now k → IsClean app.now self.now k }
    {
        for cell in cells {
            if !self.stands(app, *cell) {
                return false;
            }
        }
        true
    }

    // Brings all marked cells up to date, one after another.
    #[tactic(auto, using(crate::proofs::Asked::read_none, crate::proofs::Asked::read_on))]
    fn bring_all<K: Keeper, L: Ledger>(
        &mut self,
        alloc: Global,
        app: &App,
        session: &Session,
        keeper: &mut K,
        moment: u64,
        roots: &[u32],
        marks: &[bool],
        steps: &mut Steps<L>,
    ) -> Result<(), KeeperEnd>
        requires sound { IsSoundApp app.now }
        requires holds { HoldsFitting app.now.names session.now }
        requires day { IsToday moment self.old.values.day }
        requires asks { CanAsk app.now (K.shaped keeper.old) }
        requires order { IsInOrder app.now self.old }
        requires room { HasNumbersLeft self.old.last }
        requires marks { AreMarked app.now self.old roots.now marks.now }
        ensures order { IsInOrder app.now self.new }
        ensures right { IsRightOver app.now session.now (K.told keeper.old) moment self.old
            → IsRightOver app.now session.now (K.told keeper.new) moment self.new }
        ensures left { KeepsClean app.now self.old self.new }
        ensures made { OnOk result ((k : ℕ) → Contains roots.now k → IsClean app.now self.new k) }
        ensures ticks { OnOk result (OncePerCell app.now roots.now self.old self.new steps.old
            steps.new) }
        ensures visits { IsRightOver app.now session.now (K.told keeper.old) moment self.old
            → OnOk result (WhereTold (K.told keeper.new) (λ rows.
            VisitsPerCell app.now session.now rows moment roots.now self.old self.new steps.old
            steps.new (K.visited keeper.old) (K.visited keeper.new))) }
        ensures slow { OnOk result (self.new.last + steps.old ≤ self.old.last + steps.new) }
        ensures read { HasRead K.Keeper keeper.old keeper.new }
        ensures cause { HasCause K.Keeper keeper.old keeper.new result }
        ensures alone { ReadsNone app.now → keeper.new ≡ keeper.old }
        ensures idle { OnOk result (steps.new ≡ steps.old → keeper.new ≡ keeper.old) }
        ensures reached { IsErrOf result Failed → ReadsNone app.now → ⊥ }
    {
        let order = app.order.as_slice();
        for number in order {
            self.bring(alloc, app, session, keeper, moment, marks, *number, steps)?;
        }
        Ok(())
    }

    /// Brings these cells up to date, and all that they need. What is clean stays so, and no cell
    /// is evaluated more than once, none that was clean, and none of which nothing moved that it
    /// names. No more rows are visited than evaluating these cells visits. Where few numbers were
    /// left, all is evaluated that is needed. Where nothing is evaluated, the keeper is left alone.
    /// `Failed` only where it counted a fault; what is kept is right also then.
    #[tactic(auto, using(crate::proofs::Asked::read_none, crate::proofs::Asked::read_on))]
    pub fn refresh<K: Keeper, L: Ledger>(
        &mut self,
        alloc: Global,
        app: &App,
        session: &Session,
        keeper: &mut K,
        moment: u64,
        roots: &[u32],
        steps: &mut Steps<L>,
    ) -> Result<(), KeeperEnd>
        requires sound { IsSoundApp app.now }
        requires holds { HoldsFitting app.now.names session.now }
        requires day { IsToday moment self.old.values.day }
        requires asks { CanAsk app.now (K.shaped keeper.old) }
        requires order { IsInOrder app.now self.old }
        requires roots { (k : ℕ) → Contains roots.now k → is_alone_in app.now.cells k ≡ true }
        ensures order { IsInOrder app.now self.new }
        ensures right { IsRightOver app.now session.now (K.told keeper.old) moment self.old
            → IsRightOver app.now session.now (K.told keeper.new) moment self.new }
        ensures day { self.new.values.day ≡ self.old.values.day }
        ensures made { OnOk result ((k : ℕ) → Contains roots.now k → IsClean app.now self.new k) }
        ensures fresh { IsRightOver app.now session.now (K.told keeper.old) moment self.old
            → OnOk result ((tables : ToldRows) (k : ℕ) → IsHeardOf (K.told keeper.new) tables
            → Contains roots.now k →
            IsFreshAt (present app.now session.now tables moment) (cached_value self.new) k) }
        ensures left { HasNumbersLeft self.old.last → KeepsClean app.now self.old self.new }
        ensures but { StaysCleanExcept app.now [] self.old self.new }
        ensures ticks { HasNumbersLeft self.old.last
            → OnOk result (OncePerCell app.now roots.now self.old self.new steps.old steps.new) }
        ensures visits { IsRightOver app.now session.now (K.told keeper.old) moment self.old
            → HasNumbersLeft self.old.last → OnOk result (WhereTold (K.told keeper.new) (λ rows.
            VisitsPerCell app.now session.now rows moment roots.now self.old self.new steps.old
            steps.new (K.visited keeper.old) (K.visited keeper.new))) }
        ensures slow { HasNumbersLeft self.old.last
            → OnOk result (self.new.last + steps.old ≤ self.old.last + steps.new) }
        ensures read { HasRead K.Keeper keeper.old keeper.new }
        ensures cause { HasCause K.Keeper keeper.old keeper.new result }
        ensures alone { ReadsNone app.now → keeper.new ≡ keeper.old }
        ensures idle { OnOk result (steps.new ≡ steps.old → keeper.new ≡ keeper.old) }
        ensures reached { IsErrOf result Failed → ReadsNone app.now → ⊥ }
    {
        if self.all_stand(app, roots) {
            return Ok(());
        }
        self.make_numbers();
        let marks = needs_of(alloc, app, self, roots)?;
        self.bring_all(alloc, app, session, keeper, moment, roots, &marks, steps)
    }
}
