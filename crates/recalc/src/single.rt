// The value of one cell.
ghost use Rattle.std.specs.Prelude.{◌≡◌, ◌∷◌, [], ◌+◌, ◌≤◌, ℕ, IfOk, IsErrOf, OnOk, true};
ghost use Rattle.fx_types.specs.ValueView.{view};
ghost use Rattle.fx_scalar.specs.ScalarFunctions.{IsToday};
ghost use Rattle.recalc.specs.Asking.{CanAsk, IsHeardOf, ReadsNone, ToldRows};
ghost use Rattle.recalc.specs.AskingOver.{HasRead};
ghost use Rattle.recalc.specs.app_semantics.Holding.{HoldsFitting};
ghost use Rattle.recalc.specs.app_semantics.Needed.{IsFreshAt, is_alone as is_alone_in};
ghost use Rattle.recalc.specs.app_semantics.Present.{present};
ghost use Rattle.recalc.specs.app_semantics.Sound.{IsSoundApp};
ghost use Rattle.row_keeper.specs.Over.{HasCause};
ghost use Rattle.row_keeper.specs.declared.keeper.KeeperEnd.TheVariants.{Failed};
ghost use Rattle.recalc.specs.Changes.{StaysCleanExcept};
ghost use Rattle.recalc.specs.Kept.{HasNumbersLeft, IsClean, IsInOrder, cached_value as value_in};
ghost use Rattle.recalc.specs.Outcomes.{IsRightOver};
ghost use Rattle.recalc.specs.Steps.{KeepsClean, OncePerCell};
ghost use Rattle.recalc.specs.Visits.{VisitsPerCell, WhereTold};

use crate::Steps;
use crate::app_cells::App;
use crate::cache::Cache;
use fx_types::values::Value;
use row_keeper::{Keeper, KeeperEnd};
use session_state::Session;
use std::alloc::Global;
use std::sync::ledger::Ledger;

impl Cache {
    /// The value of a cell that has one by itself. It is kept, and clean from now on. `Failed` only
    /// where the keeper counted a fault; what is kept is right also then.
    #[tactic(auto, using(crate::proofs::Asked::read_none, crate::proofs::Asked::read_on))]
    pub fn value_of<K: Keeper, L: Ledger>(
        &mut self,
        alloc: Global,
        app: &App,
        session: &Session,
        keeper: &mut K,
        moment: u64,
        cell: u32,
        steps: &mut Steps<L>,
    ) -> Result<Value, KeeperEnd>
        requires sound { IsSoundApp app.now }
        requires holds { HoldsFitting app.now.names session.now }
        requires day { IsToday moment self.old.values.day }
        requires asks { CanAsk app.now (K.shaped keeper.old) }
        requires order { IsInOrder app.now self.old }
        requires alone { is_alone_in app.now.cells cell ≡ true }
        ensures order { IsInOrder app.now self.new }
        ensures right { IsRightOver app.now session.now (K.told keeper.old) moment self.old
            → IsRightOver app.now session.now (K.told keeper.new) moment self.new }
        ensures day { self.new.values.day ≡ self.old.values.day }
        ensures value { IfOk result (λ v. view v ≡ value_in self.new cell) }
        ensures made { OnOk result (IsClean app.now self.new cell) }
        ensures fresh { IsRightOver app.now session.now (K.told keeper.old) moment self.old
            → OnOk result ((tables : ToldRows) → IsHeardOf (K.told keeper.new) tables →
            IsFreshAt (present app.now session.now tables moment) (value_in self.new) cell) }
        ensures left { HasNumbersLeft self.old.last → KeepsClean app.now self.old self.new }
        ensures but { StaysCleanExcept app.now [] self.old self.new }
        ensures ticks { HasNumbersLeft self.old.last
            → OnOk result (OncePerCell app.now (cell ∷ []) self.old self.new steps.old steps.new) }
        ensures visits { IsRightOver app.now session.now (K.told keeper.old) moment self.old
            → HasNumbersLeft self.old.last → OnOk result (WhereTold (K.told keeper.new) (λ rows.
            VisitsPerCell app.now session.now rows moment (cell ∷ []) self.old self.new steps.old
            steps.new (K.visited keeper.old) (K.visited keeper.new))) }
        ensures slow { HasNumbersLeft self.old.last
            → OnOk result (self.new.last + steps.old ≤ self.old.last + steps.new) }
        ensures read { HasRead K.Keeper keeper.old keeper.new }
        ensures cause { HasCause K.Keeper keeper.old keeper.new result }
        ensures alone { ReadsNone app.now → keeper.new ≡ keeper.old }
        ensures idle { OnOk result (steps.new ≡ steps.old → keeper.new ≡ keeper.old) }
        ensures reached { IsErrOf result Failed → ReadsNone app.now → ⊥ }
    {
        let roots = [cell];
        self.refresh(alloc, app, session, keeper, moment, &roots, steps)?;
        Ok(self.values().value(alloc, cell)?)
    }
}
