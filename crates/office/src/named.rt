//! The named formulas of an app, shown.
ghost use Rattle.std.specs.Prelude.{◌≡◌, [], IfOk, IsErrOf, OnOk, map, string_bytes};
ghost use Rattle.app_loader.specs.app_semantics.Holding.{HoldsFitting};
ghost use Rattle.app_loader.specs.app_semantics.Present.{present};
ghost use Rattle.app_loader.specs.app_semantics.Sound.{IsSoundApp};
ghost use Rattle.session_requests.specs.recalc.Asking.{CanAsk, IsHeardOf, ReadsNone, ToldRows};
ghost use Rattle.session_requests.specs.recalc.Values.{value_of};
ghost use Rattle.row_keeper.specs.Over.{HasCause};
ghost use Rattle.row_keeper.specs.declared.keeper.KeeperEnd.TheVariants.{Failed};
ghost use Rattle.fx_scalar.specs.ScalarFunctions.{IsToday};
ghost use Rattle.office.specs.NamedReply.{AreNamedMade, IsNamedBody, IsNamedList, named_cells};
ghost use Rattle.office.specs.NamedReply.{named_values, reply_row};
ghost use Rattle.recalc.specs.AskingOver.{HasRead};
ghost use Rattle.recalc.specs.Changes.{StaysCleanExcept};
ghost use Rattle.recalc.specs.Kept.{HasNumbersLeft, IsInOrder};
ghost use Rattle.recalc.specs.Outcomes.{IsRightOver};
ghost use Rattle.recalc.specs.Steps.{KeepsClean, OncePerCell};
ghost use Rattle.recalc.specs.Visits.{VisitsPerCell, WhereTold};

use app_cells::App;
use fx_base::Memory;
use recalc::{Cache, Steps, Valued, evaluate};
use row_keeper::{Keeper, KeeperEnd};
use session_state::Session;
use std::alloc::Global;
use std::sync::ledger::Ledger;
use view_text::{Named, named_json};

/// The named formulas of an app with their values over a session and the rows of a keeper, at a
/// moment in seconds since 1970-01-01 UTC, in the order of their text, where nothing is kept. Where
/// no formula reads a table the keeper is left alone. `Failed` only where it counted a fault.
pub fn named_list<K: Keeper, L: Ledger>(
    alloc: Global,
    app: &App,
    session: &Session,
    keeper: &mut K,
    moment: u64,
    steps: &mut Steps<L>,
) -> Result<Vec<Named>, KeeperEnd>
    requires sound { IsSoundApp app.now }
    requires holds { HoldsFitting app.now.names session.now }
    requires asks { CanAsk app.now (K.shaped keeper.old) }
    ensures list { IfOk result (λ rows. (tables : ToldRows) → IsHeardOf (K.told keeper.new) tables
        → IsNamedList (present app.now session.now tables moment) (map reply_row rows.items)) }
    ensures read { HasRead K.Keeper keeper.old keeper.new }
    ensures cause { HasCause K.Keeper keeper.old keeper.new result }
    ensures alone { ReadsNone app.now → keeper.new ≡ keeper.old }
    ensures reached { IsErrOf result Failed → ReadsNone app.now → ⊥ }
{
    let values = evaluate(alloc, app, session, keeper, moment, steps)?;
    Ok(name_values(alloc, app, &values)?)
}

/// The named formulas with the values of their cells.
fn name_values(alloc: Global, app: &App, values: &Valued) -> Result<Vec<Named>, Memory>
    ensures { IfOk result (λ rows. map reply_row rows.items
        ≡ named_values app.now (value_of values.now)) }
{
    let mut rows = Vec::new(alloc);
    for formula in app.names.formulas.as_slice() {
        rows.push(Named {
            name: formula.name.copy(alloc)?,
            value: values.value(alloc, formula.cell)?,
        })?;
    }
    Ok(rows)
}

/// The cells of the named formulas.
fn named_roots(alloc: Global, app: &App) -> Result<Vec<u32>, Memory>
    ensures { IfOk result (λ v. v.items ≡ named_cells app.now) }
{
    let mut roots = Vec::new(alloc);
    for formula in app.names.formulas.as_slice() {
        roots.push(formula.cell)?;
    }
    Ok(roots)
}

/// The named formulas of an app with their values over a session, of which some may be kept.
#[tactic(auto, using(session_views::proofs::Needing::leaves_none, recalc::proofs::Leaving::left_same))]
fn kept_list<K: Keeper, L: Ledger>(
    alloc: Global,
    app: &App,
    session: &Session,
    cache: &mut Cache,
    keeper: &mut K,
    moment: u64,
    steps: &mut Steps<L>,
) -> Result<Vec<Named>, KeeperEnd>
    requires sound { IsSoundApp app.now }
    requires holds { HoldsFitting app.now.names session.now }
    requires asks { CanAsk app.now (K.shaped keeper.old) }
    requires day { IsToday moment cache.old.values.day }
    requires order { IsInOrder app.now cache.old }
    ensures list { IfOk result (λ rows. IsRightOver app.now session.now (K.told keeper.old) moment
        cache.old → (tables : ToldRows) → IsHeardOf (K.told keeper.new) tables
        → IsNamedList (present app.now session.now tables moment) (map reply_row rows.items)) }
    ensures order { IsInOrder app.now cache.new }
    ensures right { IsRightOver app.now session.now (K.told keeper.old) moment cache.old
        → IsRightOver app.now session.now (K.told keeper.new) moment cache.new }
    ensures day { cache.new.values.day ≡ cache.old.values.day }
    ensures left { HasNumbersLeft cache.old.last → KeepsClean app.now cache.old cache.new }
    ensures but { StaysCleanExcept app.now [] cache.old cache.new }
    ensures made { OnOk result (AreNamedMade app.now cache.new) }
    ensures ticks { OnOk result (HasNumbersLeft cache.old.last
        → OncePerCell app.now (named_cells app.now) cache.old cache.new steps.old steps.new) }
    ensures visits { OnOk result (IsRightOver app.now session.now (K.told keeper.old) moment
        cache.old → HasNumbersLeft cache.old.last → WhereTold (K.told keeper.new) (λ told.
        VisitsPerCell app.now session.now told moment (named_cells app.now) cache.old cache.new
        steps.old steps.new (K.visited keeper.old) (K.visited keeper.new))) }
    ensures idle { OnOk result (steps.new ≡ steps.old → keeper.new ≡ keeper.old) }
    ensures read { HasRead K.Keeper keeper.old keeper.new }
    ensures cause { HasCause K.Keeper keeper.old keeper.new result }
{
    let roots = named_roots(alloc, app)?;
    cache.refresh(alloc, app, session, keeper, moment, &roots, steps)?;
    Ok(name_values(alloc, app, cache.values())?)
}

/// The body of the reply that shows each named formula with its value. What is kept is right
/// afterwards, also where it stops; the cells that the named formulas need are then clean, and what
/// was clean stays so. `Failed` only where the keeper counted a fault.
#[tactic(auto, using(session_views::proofs::Needing::leaves_none, recalc::proofs::Leaving::left_same))]
pub(crate) fn named_body<K: Keeper, L: Ledger>(
    alloc: Global,
    app: &App,
    session: &Session,
    cache: &mut Cache,
    keeper: &mut K,
    moment: u64,
    steps: &mut Steps<L>,
) -> Result<String, KeeperEnd>
    requires sound { IsSoundApp app.now }
    requires holds { HoldsFitting app.now.names session.now }
    requires asks { CanAsk app.now (K.shaped keeper.old) }
    requires day { IsToday moment cache.old.values.day }
    requires order { IsInOrder app.now cache.old }
    requires right { ∥ IsRightOver app.now session.now (K.told keeper.old) moment cache.old ∥₁ }
    ensures body { IfOk result (λ s. (tables : ToldRows) → IsHeardOf (K.told keeper.new) tables
        → IsNamedBody (present app.now session.now tables moment) (string_bytes s)) }
    ensures order { IsInOrder app.now cache.new }
    ensures right { ∥ IsRightOver app.now session.now (K.told keeper.new) moment cache.new ∥₁ }
    ensures day { cache.new.values.day ≡ cache.old.values.day }
    ensures left { HasNumbersLeft cache.old.last → KeepsClean app.now cache.old cache.new }
    ensures but { StaysCleanExcept app.now [] cache.old cache.new }
    ensures made { OnOk result (AreNamedMade app.now cache.new) }
    ensures ticks { OnOk result (HasNumbersLeft cache.old.last
        → OncePerCell app.now (named_cells app.now) cache.old cache.new steps.old steps.new) }
    ensures visits { OnOk result (HasNumbersLeft cache.old.last
        → WhereTold (K.told keeper.new) (λ told.
        ∥ VisitsPerCell app.now session.now told moment (named_cells app.now) cache.old cache.new
        steps.old steps.new (K.visited keeper.old) (K.visited keeper.new) ∥₁)) }
    ensures idle { OnOk result (steps.new ≡ steps.old → keeper.new ≡ keeper.old) }
    ensures read { HasRead K.Keeper keeper.old keeper.new }
    ensures cause { HasCause K.Keeper keeper.old keeper.new result }
{
    let rows = kept_list(alloc, app, session, cache, keeper, moment, steps)?;
    Ok(named_json(alloc, &rows)?)
}
