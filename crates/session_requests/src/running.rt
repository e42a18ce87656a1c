//! Formulas that act in a request, one after another.
ghost use Rattle.std.specs.Prelude.{IfOk, None, OnErr, OnOk, drop, length, option_map};
ghost use Rattle.recalc.specs.app_semantics.Sound.{IsSoundApp};
ghost use Rattle.fx_types.specs.ValueView.{view};
ghost use Rattle.row_keeper.specs.Over.{Becomes, HasCause};
ghost use Rattle.session_requests.specs.Running.{ActsWriting, OpensWriting, RunsWriting};
ghost use Rattle.session_requests.specs.Running.{ShowsWriting};
ghost use Rattle.session_requests.specs.Scenes.{scene};
ghost use Rattle.session_requests.specs.Transactions.{GoesOn, IsUnderWay};
ghost use Rattle.session_requests.specs.Triggers.{ItemFits, cell_at as cell_of};
ghost use Rattle.session_requests.specs.WrittenWhole.{IsInAll, RequestWrites, ScreenWrites};
ghost use Rattle.session_requests.specs.WrittenWhole.{TriggerWrites};
ghost use Rattle.session_requests.specs.Writable.{AllSources, RequestMayWrite, ScreenMayWrite};
ghost use Rattle.session_requests.specs.Writable.{TriggerMayWrite};

use crate::acting_laws::one_acting;
use crate::app_cells::App;
use crate::performing::perform;
use crate::trigger::{Trigger, cell_at};
use fx_core::Source;
use fx_semantics::all_typings_are_lawful;
use fx_types::Value;
use recalc::{Cache, Steps};
use row_keeper::{Keeper, KeeperEnd};
use session_state::Session;
use std::alloc::Global;
use std::sync::ledger::Ledger;

/// The formula of a trigger acts, where one is written; its value, and else blank.
fn act<K: Keeper, L: Ledger>(
    alloc: Global,
    app: &App,
    before: &Session,
    session: &mut Session,
    cache: &mut Cache,
    keeper: &mut K,
    moment: u64,
    trigger: Trigger,
    item: Option<Value>,
    wrote: &mut Vec<Source>,
    steps: &mut Steps<L>,
) -> Result<Value, KeeperEnd>
    requires sound { IsSoundApp app.now }
    requires item { ItemFits app.now trigger (option_map view item) }
    requires under_way { IsUnderWay K.Keeper app.now moment before.now session.old cache.old
        keeper.old wrote.old.items }
    ensures wrote { IfOk result (λ v. Becomes K.Keeper keeper.old keeper.new
        (λ t u. ActsWriting app.now moment (cell_of trigger app.now) (option_map view item)
        (scene t session.old) (view v) (scene u session.new)
        (drop (length wrote.old.items) wrote.new.items))) }
    ensures cut { OnErr result (Becomes K.Keeper keeper.old keeper.new
        (λ t u. AllSources (IsInAll (TriggerWrites app.now moment trigger (option_map view item)
        (scene t session.old))) (drop (length wrote.old.items) wrote.new.items))) }
    ensures only { Becomes K.Keeper keeper.old keeper.new
        (λ t u. AllSources (TriggerMayWrite app.now trigger)
        (drop (length wrote.old.items) wrote.new.items)) }
    ensures under_way { IsUnderWay K.Keeper app.now moment before.now session.new cache.new
        keeper.new wrote.new.items }
    ensures goes_on { GoesOn K.Keeper app.now cache.old cache.new keeper.old keeper.new
        wrote.old.items wrote.new.items }
    ensures cause { HasCause K.Keeper keeper.old keeper.new result }
{
    // The law is called for what it says of formulas that act.
    all_typings_are_lawful();
    match cell_at(app, trigger) {
        Some(place) => {
            let info = &app.cells.as_slice()[place];
            perform(
                alloc, app, before, session, cache, keeper, moment, info, item, wrote, steps,
            )
        }
        None => Ok(Value::Blank),
    }
}

/// The current screen is shown.
fn show<K: Keeper, L: Ledger>(
    alloc: Global,
    app: &App,
    before: &Session,
    session: &mut Session,
    cache: &mut Cache,
    keeper: &mut K,
    moment: u64,
    wrote: &mut Vec<Source>,
    steps: &mut Steps<L>,
) -> Result<(), KeeperEnd>
    requires sound { IsSoundApp app.now }
    requires under_way { IsUnderWay K.Keeper app.now moment before.now session.old cache.old
        keeper.old wrote.old.items }
    ensures wrote { OnOk result (Becomes K.Keeper keeper.old keeper.new
        (λ t u. ShowsWriting app.now moment (scene t session.old) (scene u session.new)
        (drop (length wrote.old.items) wrote.new.items))) }
    ensures cut { OnErr result (Becomes K.Keeper keeper.old keeper.new
        (λ t u. AllSources (IsInAll (ScreenWrites app.now moment (scene t session.old)))
        (drop (length wrote.old.items) wrote.new.items))) }
    ensures only { Becomes K.Keeper keeper.old keeper.new
        (λ t u. AllSources (ScreenMayWrite app.now) (drop (length wrote.old.items) wrote.new.items)) }
    ensures under_way { IsUnderWay K.Keeper app.now moment before.now session.new cache.new
        keeper.new wrote.new.items }
    ensures goes_on { GoesOn K.Keeper app.now cache.old cache.new keeper.old keeper.new
        wrote.old.items wrote.new.items }
    ensures cause { HasCause K.Keeper keeper.old keeper.new result }
{
    session.take_navigated();
    let screen = Trigger::OnVisible(session.screen());
    act(
        alloc, app, before, session, cache, keeper, moment, screen, None, wrote, steps,
    )?;
    session.take_navigated();
    Ok(())
}

/// What a request does at a trigger: its formula acts, and then the screen is shown that was
/// navigated to, once. The value is the formula's, and blank where none is written. Where it gives
/// no answer, a part of it may have been done.
pub(crate) fn run<K: Keeper, L: Ledger>(
    alloc: Global,
    app: &App,
    before: &Session,
    session: &mut Session,
    cache: &mut Cache,
    keeper: &mut K,
    moment: u64,
    trigger: Trigger,
    item: Option<Value>,
    wrote: &mut Vec<Source>,
    steps: &mut Steps<L>,
) -> Result<Value, KeeperEnd>
    requires sound { IsSoundApp app.now }
    requires item { ItemFits app.now trigger (option_map view item) }
    requires under_way { IsUnderWay K.Keeper app.now moment before.now session.old cache.old
        keeper.old wrote.old.items }
    ensures wrote { IfOk result (λ v. Becomes K.Keeper keeper.old keeper.new
        (λ t u. RunsWriting app.now moment trigger (option_map view item) (scene t session.old)
        (view v) (scene u session.new) (drop (length wrote.old.items) wrote.new.items))) }
    ensures cut { OnErr result (Becomes K.Keeper keeper.old keeper.new
        (λ t u. AllSources (IsInAll (RequestWrites app.now moment trigger (option_map view item)
        (scene t session.old))) (drop (length wrote.old.items) wrote.new.items))) }
    ensures only { Becomes K.Keeper keeper.old keeper.new
        (λ t u. AllSources (RequestMayWrite app.now trigger)
        (drop (length wrote.old.items) wrote.new.items)) }
    ensures under_way { IsUnderWay K.Keeper app.now moment before.now session.new cache.new
        keeper.new wrote.new.items }
    ensures goes_on { GoesOn K.Keeper app.now cache.old cache.new keeper.old keeper.new
        wrote.old.items wrote.new.items }
    ensures cause { HasCause K.Keeper keeper.old keeper.new result }
{
    // The law is called for what it says: a formula does one thing at most.
    one_acting();
    let value = act(
        alloc, app, before, session, cache, keeper, moment, trigger, item, wrote, steps,
    )?;
    if !session.take_navigated() {
        return Ok(value);
    }
    show(
        alloc, app, before, session, cache, keeper, moment, wrote, steps,
    )?;
    Ok(value)
}

/// What opening a session does: `App.OnStart` acts, and the screen that is then current is shown.
/// Where it gives no answer, a part of it may have been done.
pub(crate) fn open<K: Keeper, L: Ledger>(
    alloc: Global,
    app: &App,
    before: &Session,
    session: &mut Session,
    cache: &mut Cache,
    keeper: &mut K,
    moment: u64,
    wrote: &mut Vec<Source>,
    steps: &mut Steps<L>,
) -> Result<(), KeeperEnd>
    requires sound { IsSoundApp app.now }
    requires under_way { IsUnderWay K.Keeper app.now moment before.now session.old cache.old
        keeper.old wrote.old.items }
    ensures wrote { OnOk result (Becomes K.Keeper keeper.old keeper.new
        (λ t u. OpensWriting app.now moment (scene t session.old) (scene u session.new)
        (drop (length wrote.old.items) wrote.new.items))) }
    ensures under_way { IsUnderWay K.Keeper app.now moment before.now session.new cache.new
        keeper.new wrote.new.items }
    ensures goes_on { GoesOn K.Keeper app.now cache.old cache.new keeper.old keeper.new
        wrote.old.items wrote.new.items }
    ensures cause { HasCause K.Keeper keeper.old keeper.new result }
{
    act(
        alloc,
        app,
        before,
        session,
        cache,
        keeper,
        moment,
        Trigger::OnStart,
        None,
        wrote,
        steps,
    )?;
    show(
        alloc, app, before, session, cache, keeper, moment, wrote, steps,
    )
}
