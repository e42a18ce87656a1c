//! Accepted events and inputs, each in one transaction.
ghost use Rattle.std.specs.Prelude.{◌≡◌, IfOk, OnErr, drop, length, option_map};
ghost use Rattle.fx_base.specs.Telling.{Stays};
ghost use Rattle.fx_types.specs.ValueView.{view};
ghost use Rattle.recalc.specs.app_semantics.Sound.{IsSoundApp};
ghost use Rattle.numbered_requests.specs.Replies.{IsReply, said};
ghost use Rattle.recalc.specs.app_cells.declared.app.App.{App as AnApp};
ghost use Rattle.recalc.specs.Kept.{IsInOrder};
ghost use Rattle.session_requests.specs.Caching.{AreSources, AreTouched, IsCached, IsPending};
ghost use Rattle.row_keeper.specs.Over.{Becomes, HasCause};
ghost use Rattle.session_requests.specs.Requests.{accepted_reply};
ghost use Rattle.session_requests.specs.Scenes.{begun, quiet, scene};
ghost use Rattle.session_requests.specs.Transactions.{CanBegin, CanGoBack, GoesOn, HasEnded};
ghost use Rattle.session_requests.specs.Transactions.{IsAccepted, IsUnderWay};
ghost use Rattle.session_requests.specs.Triggers.{ItemFits};
ghost use Rattle.session_requests.specs.WrittenWhole.{IsInAll, RequestWrites};
ghost use Rattle.session_requests.specs.Writable.{AllSources, RequestMayWrite};

use crate::acting_laws::one_acting;
use crate::app_cells::App;
use crate::running::run;
use crate::trigger::Trigger;
use fx_base::Memory;
use fx_core::Source;
use fx_types::Value;
use numbered_requests::Reply;
use recalc::{Cache, Steps};
use row_keeper::{Keeper, KeeperEnd};
use row_requests::settle;
use session_state::Session;
use std::alloc::Global;
use std::sync::ledger::Ledger;
use view_text::event_json;

/// What an accepted event or input leaves of its session, with its reply and a copy of that to
/// keep.
#[derive(Drop)]
pub struct Accepted {
    pub session: Session,
    pub reply: Reply,
    pub kept: Vec<u8>,
}

/// Runs the formula of a request in a transaction that is begun, and makes the reply.
fn prepare<K: Keeper, L: Ledger>(
    alloc: Global,
    app: &App,
    before: &Session,
    mut session: Session,
    cache: &mut Cache,
    keeper: &mut K,
    moment: u64,
    trigger: Trigger,
    item: Option<Value>,
    seq: u32,
    wrote: &mut Vec<Source>,
    steps: &mut Steps<L>,
) -> Result<Accepted, KeeperEnd>
    requires sound { IsSoundApp app.now }
    requires item { ItemFits app.now trigger (option_map view item) }
    requires under_way { IsUnderWay K.Keeper app.now moment before.now session cache.old keeper.old
        wrote.old.items }
    ensures accepted { IfOk result (IsAccepted K.Keeper app.now moment trigger
        (option_map view item) seq session cache.new keeper.old keeper.new
        (drop (length wrote.old.items) wrote.new.items)) }
    ensures cut { OnErr result (Becomes K.Keeper keeper.old keeper.new
        (λ t u. AllSources (IsInAll (RequestWrites app.now moment trigger (option_map view item)
        (scene t (begun session)))) (drop (length wrote.old.items) wrote.new.items))) }
    ensures only { Becomes K.Keeper keeper.old keeper.new
        (λ t u. AllSources (RequestMayWrite app.now trigger)
        (drop (length wrote.old.items) wrote.new.items)) }
    ensures undoable { CanGoBack K.Keeper app.now moment before.now cache.new keeper.new
        wrote.new.items }
    ensures goes_on { GoesOn K.Keeper app.now cache.old cache.new keeper.old keeper.new
        wrote.old.items wrote.new.items }
    ensures cause { HasCause K.Keeper keeper.old keeper.new result }
{
    // The law is called for what it says: a formula does one thing at most.
    one_acting();
    session.take_notices();
    session.take_navigated();
    let value = run(
        alloc,
        app,
        before,
        &mut session,
        cache,
        keeper,
        moment,
        trigger,
        item,
        wrote,
        steps,
    )?;
    Ok(accept_reply(alloc, session, seq, &value)?)
}

/// The reply to a request whose formula had this value, and what is left of its session.
fn accept_reply(
    alloc: Global,
    mut session: Session,
    seq: u32,
    value: &Value,
) -> Result<Accepted, Memory>
    ensures said { IfOk result (λ r. said r.reply ≡ accepted_reply seq (view value.now) session) }
    ensures kept { IfOk result (λ r. r.kept.items ≡ said r.reply) }
    ensures whole { IfOk result (λ r. IsReply r.reply) }
    ensures left { IfOk result (λ r. r.session ≡ quiet session) }
{
    let notices = session.take_notices();
    let text = event_json(alloc, &notices, seq, value)?;
    let reply = Reply::accept(alloc, &text)?;
    let kept = Vec::from_slice(alloc, reply.whole())?;
    Ok(Accepted {
        session,
        reply,
        kept,
    })
}

/// Does what an accepted request does, in one transaction. What stops leaves the tables, and of
/// what was written the cache is still to be told that it has changed back.
fn transact<K: Keeper, L: Ledger>(
    alloc: Global,
    app: &App,
    before: &Session,
    session: Session,
    cache: &mut Cache,
    keeper: &mut K,
    moment: u64,
    trigger: Trigger,
    item: Option<Value>,
    seq: u32,
    wrote: &mut Vec<Source>,
    steps: &mut Steps<L>,
) -> Result<Accepted, KeeperEnd>
    requires sound { IsSoundApp app.now }
    requires item { ItemFits app.now trigger (option_map view item) }
    requires ready { CanBegin K.Keeper app.now moment before.now session cache.old keeper.old
        wrote.old.items }
    ensures accepted { IfOk result (IsAccepted K.Keeper app.now moment trigger
        (option_map view item) seq session cache.new keeper.old keeper.new
        (drop (length wrote.old.items) wrote.new.items)) }
    ensures stopped { OnErr result (Becomes K.Keeper keeper.old keeper.new Stays) }
    ensures pending { OnErr result (IsPending app.now before.now (K.told keeper.new) moment
        wrote.new.items cache.new) }
    ensures cut { OnErr result (Becomes K.Keeper keeper.old keeper.new
        (λ t u. AllSources (IsInAll (RequestWrites app.now moment trigger (option_map view item)
        (scene t (begun session)))) (drop (length wrote.old.items) wrote.new.items))) }
    ensures only { Becomes K.Keeper keeper.old keeper.new
        (λ t u. AllSources (RequestMayWrite app.now trigger)
        (drop (length wrote.old.items) wrote.new.items)) }
    ensures ended { HasEnded K.Keeper app.now cache.old cache.new keeper.old keeper.new
        wrote.old.items wrote.new.items }
    ensures cause { HasCause K.Keeper keeper.old keeper.new result }
{
    // The law is called for what it says: a formula does one thing at most.
    one_acting();
    match keeper.begin() {
        Ok(()) => {}
        Err(end) => return Err(end),
    }
    match prepare(
        alloc, app, before, session, cache, keeper, moment, trigger, item, seq, wrote, steps,
    ) {
        Ok(accepted) => match settle(keeper, true) {
            Ok(()) => Ok(accepted),
            Err(end) => Err(end),
        },
        Err(end) => {
            keeper.back();
            Err(end)
        }
    }
}

/// Tells a cache that these sources have changed.
fn touch_all(app: &App, cache: &mut Cache, sources: &[Source])
    requires { (a : AnApp) × IsInOrder a cache.old × AreSources a.names sources.now }
    ensures { (a : AnApp) → AreSources a.names sources.now
        → AreTouched a sources.now cache.old cache.new }
{
    for source in sources {
        cache.touched(app, *source);
    }
}

/// Does what an accepted event or input does, in one transaction, to a session in which what is
/// given or chosen stands already; `before` is the session without it. All memory is taken before
/// the transaction ends. `wrote` is told the sources that are written. What stops leaves the
/// tables, and the cache then stands for the session as it was before.
pub fn accept_request<K: Keeper, L: Ledger>(
    alloc: Global,
    app: &App,
    before: &Session,
    session: Session,
    cache: &mut Cache,
    keeper: &mut K,
    moment: u64,
    trigger: Trigger,
    item: Option<Value>,
    seq: u32,
    wrote: &mut Vec<Source>,
    steps: &mut Steps<L>,
) -> Result<Accepted, KeeperEnd>
    requires sound { IsSoundApp app.now }
    requires item { ItemFits app.now trigger (option_map view item) }
    requires ready { CanBegin K.Keeper app.now moment before.now session cache.old keeper.old
        wrote.old.items }
    ensures accepted { IfOk result (IsAccepted K.Keeper app.now moment trigger
        (option_map view item) seq session cache.new keeper.old keeper.new
        (drop (length wrote.old.items) wrote.new.items)) }
    ensures stopped { OnErr result (Becomes K.Keeper keeper.old keeper.new Stays) }
    ensures undone { OnErr result (IsCached app.now before.now (K.told keeper.new) moment cache.new) }
    ensures cut { OnErr result (Becomes K.Keeper keeper.old keeper.new
        (λ t u. AllSources (IsInAll (RequestWrites app.now moment trigger (option_map view item)
        (scene t (begun session)))) (drop (length wrote.old.items) wrote.new.items))) }
    ensures only { Becomes K.Keeper keeper.old keeper.new
        (λ t u. AllSources (RequestMayWrite app.now trigger)
        (drop (length wrote.old.items) wrote.new.items)) }
    ensures ended { HasEnded K.Keeper app.now cache.old cache.new keeper.old keeper.new
        wrote.old.items wrote.new.items }
    ensures cause { HasCause K.Keeper keeper.old keeper.new result }
{
    match transact(
        alloc, app, before, session, cache, keeper, moment, trigger, item, seq, wrote, steps,
    ) {
        Ok(accepted) => Ok(accepted),
        Err(end) => {
            touch_all(app, cache, wrote.as_slice());
            Err(end)
        }
    }
}
