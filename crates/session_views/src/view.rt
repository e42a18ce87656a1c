//! What a session shows.
ghost use Rattle.std.specs.Prelude.{◌≡◌, ◌+◌, ◌<◌, ◌≤◌, ◌∷◌, [], ℕ, IfOk, OnOk, Some, length};
ghost use Rattle.std.specs.Prelude.{slice_get};
ghost use Rattle.recalc.specs.AskingOver.{HasRead};
ghost use Rattle.recalc.specs.app_semantics.Holding.{HoldsFitting};
ghost use Rattle.recalc.specs.app_semantics.Present.{present};
ghost use Rattle.recalc.specs.app_semantics.Sound.{IsSoundApp};
ghost use Rattle.session_views.specs.Bounds.{AreMade, AreSteps, items_steps, shown_steps};
ghost use Rattle.session_views.specs.Looking.{is_on_screen};
ghost use Rattle.session_views.specs.Ready.{CanShow};
ghost use Rattle.session_views.specs.Views.{AreEachGiven, IsFreshView, IsShown, IsShownControl};
ghost use Rattle.session_views.specs.Views.{IsView, ShowsFirstItems};
ghost use Rattle.session_views.specs.Views.{is_top_level_shown as is_shown_of, put_if_some};
ghost use Rattle.session_views.specs.Visits.{AreRowsVisited, GivenItemsVisit, ScreenVisits};
ghost use Rattle.session_views.specs.Visits.{ShownVisits};
ghost use Rattle.fx_scalar.specs.ScalarFunctions.{IsToday};
ghost use Rattle.recalc.specs.Asking.{IsHeardOf, ToldRows};
ghost use Rattle.recalc.specs.Values.{value_of};
ghost use Rattle.recalc.specs.Visits.{WhereTold};
ghost use Rattle.recalc.specs.fx_eval.Visits.{AtMost};
ghost use Rattle.recalc.specs.Changes.{StaysCleanExcept};
ghost use Rattle.recalc.specs.Kept.{HasNumbersLeft, IsInOrder};
ghost use Rattle.recalc.specs.Outcomes.{IsRightOver};
ghost use Rattle.recalc.specs.Steps.{KeepsClean};
ghost use Rattle.row_keeper.specs.Over.{HasCause};
ghost use Rattle.row_keeper.specs.Shaped.{by};

use crate::app_cells::App;
use crate::displaying::{display, is_seen};
use crate::items::{is_gallery, items_from};
use crate::roots::{Part, roots_of};
use crate::templates::add;
use fx_base::{InOrder, Memory};
use fx_core::Names;
use fx_core::names::ControlName;
use recalc::{Cache, Steps, Valued};
use row_keeper::{Keeper, KeeperEnd};
use session_state::Session;
use std::alloc::Global;
use std::sync::ledger::Ledger;
use view_text::{Items, Shown, ShownList, View};

/// What a session shows at a moment, in seconds since 1970-01-01 UTC: its screen, and the controls
/// that are shown on it, in the order of the app. What was kept right stays so, also where it
/// stops; the cells that are looked at are clean afterwards, and what was clean stays so. `Failed`
/// only where the keeper counted a fault.
#[tactic(auto, using(recalc::proofs::Asked::read_none, recalc::proofs::Asked::read_on, crate::proofs::Needing::leaves_none, recalc::proofs::Leaving::left_same))]
pub fn view_of<K: Keeper, L: Ledger>(
    alloc: Global,
    app: &App,
    session: &Session,
    cache: &mut Cache,
    keeper: &mut K,
    moment: u64,
    steps: &mut Steps<L>,
) -> Result<View, KeeperEnd>
    requires sound { IsSoundApp app.now }
    requires holds { HoldsFitting app.now.names session.now }
    requires screen { session.now.screen < length app.now.names.screens }
    requires shaped { K.shaped keeper.old ≡ by app.now.names.schema }
    requires day { IsToday moment cache.old.values.day }
    requires order { IsInOrder app.now cache.old }
    ensures shows { IfOk result (λ v. IsRightOver app.now session.now (K.told keeper.old) moment
        cache.old → (tables : ToldRows) → IsHeardOf (K.told keeper.new) tables
        → IsFreshView (present app.now session.now tables moment) v) }
    ensures order { IsInOrder app.now cache.new }
    ensures right { IsRightOver app.now session.now (K.told keeper.old) moment cache.old
        → IsRightOver app.now session.now (K.told keeper.new) moment cache.new }
    ensures day { cache.new.values.day ≡ cache.old.values.day }
    ensures left { HasNumbersLeft cache.old.last → KeepsClean app.now cache.old cache.new }
    ensures but { StaysCleanExcept app.now [] cache.old cache.new }
    ensures made { OnOk result (AreMade app.now (is_on_screen app.now.names session.now.screen)
        cache.new) }
    ensures ticks { IfOk result (λ v. HasNumbersLeft cache.old.last
        → AreSteps app.now (is_on_screen app.now.names session.now.screen) cache.old cache.new
        (shown_steps app.now.names v.shown) steps.old steps.new) }
    ensures visits { IfOk result (λ v. IsRightOver app.now session.now (K.told keeper.old) moment
        cache.old → HasNumbersLeft cache.old.last → WhereTold (K.told keeper.new) (λ told.
        AreRowsVisited app.now session.now told moment
        (is_on_screen app.now.names session.now.screen) cache.old cache.new
        (λ values. ScreenVisits app.now session.now told moment values v.shown) steps.old
        (K.visited keeper.old) (K.visited keeper.new))) }
    ensures read { HasRead K.Keeper keeper.old keeper.new }
    ensures cause { HasCause K.Keeper keeper.old keeper.new result }
{
    let part = Part::Screen(session.screen());
    let roots = roots_of(alloc, app, part)?;
    cache.refresh(alloc, app, session, keeper, moment, &roots, steps)?;
    view_by(alloc, app, session, keeper, cache.values(), steps)
}

// The same, by the values of cells.
#[tactic(auto, using(recalc::proofs::Asked::read_none, recalc::proofs::Asked::read_on))]
fn view_by<K: Keeper, L: Ledger>(
    alloc: Global,
    app: &App,
    session: &Session,
    keeper: &mut K,
    valued: &Valued,
    steps: &mut Steps<L>,
) -> Result<View, KeeperEnd>
    requires ready { CanShow app.now session.now valued.now }
    requires screen { session.now.screen < length app.now.names.screens }
    requires shaped { K.shaped keeper.old ≡ by app.now.names.schema }
    ensures shows { IfOk result (λ v. (moment : ℕ) (tables : ToldRows)
        → IsToday moment valued.now.day → IsHeardOf (K.told keeper.new) tables
        → IsView (present app.now session.now tables moment) (value_of valued.now) v) }
    ensures ticks { IfOk result (λ v. steps.new ≤ steps.old + shown_steps app.now.names v.shown) }
    ensures visits { IfOk result (λ v. (moment : ℕ) → IsToday moment valued.now.day
        → WhereTold (K.told keeper.new) (λ told.
        AtMost (ScreenVisits app.now session.now told moment (value_of valued.now) v.shown)
        (K.visited keeper.old) (K.visited keeper.new))) }
    ensures read { HasRead K.Keeper keeper.old keeper.new }
    ensures cause { HasCause K.Keeper keeper.old keeper.new result }
{
    let shown = all_shown(alloc, app, session, keeper, valued, steps)?;
    let place = session.screen();
    match app.names.screens.get(place as usize) {
        Some(name) => {
            let screen = name.copy(alloc)?;
            Ok(View { screen, shown })
        }
        None => unreachable!(),
    }
}

// What the controls of the screen show.
#[tactic(auto, using(recalc::proofs::Asked::read_none, recalc::proofs::Asked::read_on))]
fn all_shown<K: Keeper, L: Ledger>(
    alloc: Global,
    app: &App,
    session: &Session,
    keeper: &mut K,
    valued: &Valued,
    steps: &mut Steps<L>,
) -> Result<ShownList, KeeperEnd>
    requires ready { CanShow app.now session.now valued.now }
    requires shaped { K.shaped keeper.old ≡ by app.now.names.schema }
    ensures shows { IfOk result (λ l. (moment : ℕ) (tables : ToldRows)
        → IsToday moment valued.now.day → IsHeardOf (K.told keeper.new) tables
        → AreEachGiven (IsShown (present app.now session.now tables moment) (value_of valued.now)) 0
        app.now.names.controls l) }
    ensures ticks { IfOk result (λ l. steps.new ≤ steps.old + shown_steps app.now.names l) }
    ensures visits { IfOk result (λ l. (moment : ℕ) → IsToday moment valued.now.day
        → WhereTold (K.told keeper.new) (λ told.
        AtMost (ScreenVisits app.now session.now told moment (value_of valued.now) l)
        (K.visited keeper.old) (K.visited keeper.new))) }
    ensures read { HasRead K.Keeper keeper.old keeper.new }
    ensures cause { HasCause K.Keeper keeper.old keeper.new result }
{
    let mut shown = InOrder::new(alloc);
    let mut number: u32 = 0;
    let controls = app.names.controls.as_slice();
    for control in controls {
        let given = shown_control(alloc, app, session, keeper, valued, number, control, steps)?;
        add(&mut shown, given)?;
        number += 1;
    }
    Ok(shown)
}

// Whether a control is shown by itself.
fn is_shown(
    names: &Names,
    session: &Session,
    valued: &Valued,
    number: u32,
    control: &ControlName,
) -> bool
    ensures { result ≡ is_shown_of names.now session.now (value_of valued.now) number control.now }
{
    control.gallery.is_none() && is_seen(names, session, valued, number, control)
}

// What a control shows, if it is shown.
#[tactic(auto, using(recalc::proofs::Asked::read_none, recalc::proofs::Asked::read_on))]
fn shown_control<K: Keeper, L: Ledger>(
    alloc: Global,
    app: &App,
    session: &Session,
    keeper: &mut K,
    valued: &Valued,
    number: u32,
    control: &ControlName,
    steps: &mut Steps<L>,
) -> Result<Option<Shown>, KeeperEnd>
    requires ready { CanShow app.now session.now valued.now }
    requires control { slice_get app.now.names.controls number ≡ Some control.now }
    requires shaped { K.shaped keeper.old ≡ by app.now.names.schema }
    ensures shows { IfOk result (λ o. (moment : ℕ) (tables : ToldRows)
        → IsToday moment valued.now.day → IsHeardOf (K.told keeper.new) tables
        → IsShown (present app.now session.now tables moment) (value_of valued.now) number
        control.now o) }
    ensures ticks { IfOk result (λ o. steps.new ≤ steps.old
        + shown_steps app.now.names (put_if_some o [])) }
    ensures visits { IfOk result (λ o. (moment : ℕ) → IsToday moment valued.now.day
        → WhereTold (K.told keeper.new) (λ told.
        AtMost (ShownVisits app.now session.now told moment (value_of valued.now) number control.now
        o) (K.visited keeper.old) (K.visited keeper.new))) }
    ensures read { HasRead K.Keeper keeper.old keeper.new }
    ensures cause { HasCause K.Keeper keeper.old keeper.new result }
{
    if is_shown(&app.names, session, valued, number, control) {
        let shown = shown_with(alloc, app, session, keeper, valued, number, control, steps)?;
        Ok(Some(shown))
    } else {
        Ok(None)
    }
}

// What a control that is shown shows.
#[tactic(auto, using(recalc::proofs::Asked::read_none, recalc::proofs::Asked::read_on))]
fn shown_with<K: Keeper, L: Ledger>(
    alloc: Global,
    app: &App,
    session: &Session,
    keeper: &mut K,
    valued: &Valued,
    number: u32,
    control: &ControlName,
    steps: &mut Steps<L>,
) -> Result<Shown, KeeperEnd>
    requires ready { CanShow app.now session.now valued.now }
    requires control { slice_get app.now.names.controls number ≡ Some control.now }
    requires shaped { K.shaped keeper.old ≡ by app.now.names.schema }
    ensures shows { IfOk result (λ s. (moment : ℕ) (tables : ToldRows)
        → IsToday moment valued.now.day → IsHeardOf (K.told keeper.new) tables
        → IsShownControl (present app.now session.now tables moment) (value_of valued.now) number
        control.now s) }
    ensures ticks { IfOk result (λ s. steps.new ≤ steps.old + shown_steps app.now.names (s ∷ [])) }
    ensures visits { IfOk result (λ s. (moment : ℕ) → IsToday moment valued.now.day
        → WhereTold (K.told keeper.new) (λ told.
        AtMost (GivenItemsVisit app.now session.now told moment (value_of valued.now) number 1
        s.items) (K.visited keeper.old) (K.visited keeper.new))) }
    ensures read { HasRead K.Keeper keeper.old keeper.new }
    ensures cause { HasCause K.Keeper keeper.old keeper.new result }
{
    let items = shown_items(alloc, app, session, keeper, valued, number, control, steps)?;
    let values = display(alloc, &app.names, session, valued, number, control)?;
    let name = control.name.copy(alloc)?;
    let kind = control.kind;
    Ok(Shown {
        name,
        kind,
        values,
        items,
    })
}

// The first items, of a gallery.
#[tactic(auto, using(recalc::proofs::Asked::read_none, recalc::proofs::Asked::read_on))]
fn shown_items<K: Keeper, L: Ledger>(
    alloc: Global,
    app: &App,
    session: &Session,
    keeper: &mut K,
    valued: &Valued,
    number: u32,
    control: &ControlName,
    steps: &mut Steps<L>,
) -> Result<Option<Items>, KeeperEnd>
    requires ready { CanShow app.now session.now valued.now }
    requires control { slice_get app.now.names.controls number ≡ Some control.now }
    requires shaped { K.shaped keeper.old ≡ by app.now.names.schema }
    ensures shows { IfOk result (λ o. (moment : ℕ) (tables : ToldRows)
        → IsToday moment valued.now.day → IsHeardOf (K.told keeper.new) tables
        → ShowsFirstItems (present app.now session.now tables moment) (value_of valued.now) number
        control.now.kind o) }
    ensures ticks { IfOk result (λ o. steps.new ≤ steps.old + items_steps app.now.names number o) }
    ensures visits { IfOk result (λ o. (moment : ℕ) → IsToday moment valued.now.day
        → WhereTold (K.told keeper.new) (λ told.
        AtMost (GivenItemsVisit app.now session.now told moment (value_of valued.now) number 1 o)
        (K.visited keeper.old) (K.visited keeper.new))) }
    ensures read { HasRead K.Keeper keeper.old keeper.new }
    ensures cause { HasCause K.Keeper keeper.old keeper.new result }
{
    if is_gallery(control.kind) {
        let items = items_from(alloc, app, session, keeper, valued, number, 1, steps)?;
        Ok(Some(items))
    } else {
        Ok(None)
    }
}
