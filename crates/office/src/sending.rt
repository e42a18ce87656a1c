//! What is sent: sessions send events and inputs, and desks changes of rows. The caches of the
//! others are told which tables were written.
ghost use Rattle.std.specs.Prelude.{◌≡◌, ℕ, false, IfOk, IsErrOf, IsSome, List, Ok, OnErr, Some};
ghost use Rattle.std.specs.Prelude.{slice_get};
ghost use Rattle.app_loader.specs.app_semantics.Sound.{IsSoundApp};
ghost use Rattle.fx_base.specs.Silence.{SilenceCause};
ghost use Rattle.fx_base.specs.Telling.{Stays};
ghost use Rattle.recalc.specs.Kept.{IsInOrder, CacheState};
ghost use Rattle.numbered_requests.specs.Checked.{SessionsKeepReplies};
ghost use Rattle.numbered_requests.specs.Checks.{checks, session_of};
ghost use Rattle.numbered_requests.specs.Directory.{find};
ghost use Rattle.session_requests.specs.Bodies.{event_in, input_in};
ghost use Rattle.session_requests.specs.declared.event.Event.{Event as AnEvent};
ghost use Rattle.session_requests.specs.declared.input.Input.{Input as AnInput};
ghost use Rattle.numbered_requests.specs.Replies.{IsReply, KeepReplies, said};
ghost use Rattle.numbered_requests.specs.declared.directory.Named.{Named as Under};
ghost use Rattle.row_keeper.specs.Over.{Becomes, HasCause};
ghost use Rattle.row_keeper.specs.declared.keeper.KeeperEnd.TheVariants.{Failed};
ghost use Rattle.row_keeper.specs.Shaped.{by};
ghost use Rattle.row_requests.specs.DeskRows.{PostsRows, ReachesRows};
ghost use Rattle.row_requests.specs.Sound.{AreSound};
ghost use Rattle.session_requests.specs.Posting.{PostsEvent, PostsInput, ReachesEvent};
ghost use Rattle.session_requests.specs.Posting.{ReachesInput, SendsEvent, SendsInput};
ghost use Rattle.session_state.specs.Sessions.{SessionState};
ghost use Rattle.row_requests.specs.Written.{IsNamedBy};
ghost use Rattle.office.specs.Caches.{AreKept};
ghost use Rattle.office.specs.Leaving.{AreEachLeft, AreLeftBeside, AreStopped, EventCutOff};
ghost use Rattle.office.specs.Leaving.{EventLeaves, InputCutOff, InputLeaves, any_table, event_cut};
ghost use Rattle.office.specs.Leaving.{input_cut, nothing};
ghost use Rattle.session_views.specs.Shows.{LiveSessionsFit};

use crate::keeping::touch_others;
use app_cells::App;
use fx_types::Words;
use numbered_requests::{Checked, Named, Reply, check_session, place_of};
use recalc::{Cache, Steps};
use row_keeper::{Keeper, KeeperEnd};
use row_requests::post_rows;
use session_requests::{Event, Input, send_event, send_input};
use session_state::{Desk, Session};
use std::alloc::Global;
use std::sync::ledger::Ledger;

/// A session sends what its user gave to a control, under a number.
#[tactic(auto, using(crate::proofs::Leaving::beside_same))]
pub(crate) fn post_input<K: Keeper, L: Ledger>(
    alloc: Global,
    app: &App,
    sessions: &mut Vec<Named<Session>>,
    caches: &mut Vec<Named<Cache>>,
    keeper: &mut K,
    name: &Words,
    body: &[u8],
    moment: u64,
    steps: &mut Steps<L>,
) -> Result<Reply, KeeperEnd>
    requires sound { IsSoundApp app.now }
    requires fit { LiveSessionsFit app.now.names sessions.old.items }
    requires replies { SessionsKeepReplies sessions.old.items }
    requires kept { AreKept app.now (K.told keeper.old) moment sessions.old.items caches.old.items }
    requires shaped { K.shaped keeper.old ≡ by app.now.names.schema }
    requires rows { AreSound app.now.names.schema (K.told keeper.old) }
    requires idle { K.in_transaction keeper.old ≡ false }
    ensures done { IfOk result (λ r. PostsInput
        (SilenceCause (K.marks keeper.old) (K.marks keeper.new)) app.now moment name.now body.now
        (K.told keeper.old) sessions.old.items (said r) (K.told keeper.new) sessions.new.items) }
    ensures whole { IfOk result IsReply }
    ensures reached { IsErrOf result Failed → ReachesInput name.now body.now sessions.old.items }
    ensures stopped { OnErr result (sessions.new.items ≡ sessions.old.items) }
    ensures left { OnErr result (Becomes K.Keeper keeper.old keeper.new Stays) }
    ensures fit { LiveSessionsFit app.now.names sessions.new.items }
    ensures replies { SessionsKeepReplies sessions.new.items }
    ensures kept { AreKept app.now (K.told keeper.new) moment sessions.new.items caches.new.items }
    ensures clean { AreLeftBeside app.now name.now any_table caches.old.items caches.new.items }
    ensures own { IfOk result (λ r. InputLeaves
        (SilenceCause (K.marks keeper.old) (K.marks keeper.new)) app.now moment name.now nothing
        body.now (checks input_in (λ (i : AnInput). i.seq) (session_of name.now sessions.old.items)
        body.now) (K.told keeper.old) sessions.old.items (said r) (K.told keeper.new)
        sessions.new.items caches.old.items caches.new.items) }
    ensures cut { OnErr result (AreStopped app.now name.now nothing
        (input_cut app.now moment name.now (K.told keeper.old) sessions.old.items
        (checks input_in (λ (i : AnInput). i.seq) (session_of name.now sessions.old.items)
        body.now)) (K.told keeper.new) caches.old.items caches.new.items) }
    ensures rows { AreSound app.now.names.schema (K.told keeper.new) }
    ensures shaped { K.shaped keeper.new ≡ by app.now.names.schema }
    ensures idle { K.in_transaction keeper.new ≡ false }
    ensures cause { HasCause K.Keeper keeper.old keeper.new result }
    ensures loan { K.loan keeper.new ≡ K.loan keeper.old }
{
    match check_session::<Input>(alloc, sessions, name, body)? {
        Checked::Says(reply) => Ok(reply),
        Checked::Acts(input) => act_input(
            alloc, app, sessions, caches, keeper, name, body, input, moment, steps,
        ),
    }
}

/// The same, of an input that passed the checks of numbered requests.
#[tactic(auto, using(crate::proofs::Leaving::beside_same))]
fn act_input<K: Keeper, L: Ledger>(
    alloc: Global,
    app: &App,
    sessions: &mut Vec<Named<Session>>,
    caches: &mut Vec<Named<Cache>>,
    keeper: &mut K,
    name: &Words,
    body: &[u8],
    input: Input,
    moment: u64,
    steps: &mut Steps<L>,
) -> Result<Reply, KeeperEnd>
    requires sound { IsSoundApp app.now }
    requires live { IsSome (find name.now sessions.old.items) }
    requires fit { LiveSessionsFit app.now.names sessions.old.items }
    requires replies { SessionsKeepReplies sessions.old.items }
    requires kept { AreKept app.now (K.told keeper.old) moment sessions.old.items caches.old.items }
    requires shaped { K.shaped keeper.old ≡ by app.now.names.schema }
    requires rows { AreSound app.now.names.schema (K.told keeper.old) }
    requires idle { K.in_transaction keeper.old ≡ false }
    ensures done { IfOk result (λ r. SendsInput
        (SilenceCause (K.marks keeper.old) (K.marks keeper.new)) app.now moment name.now body.now
        input (K.told keeper.old) sessions.old.items (said r) (K.told keeper.new)
        sessions.new.items) }
    ensures whole { IfOk result IsReply }
    ensures stopped { OnErr result (sessions.new.items ≡ sessions.old.items) }
    ensures left { OnErr result (Becomes K.Keeper keeper.old keeper.new Stays) }
    ensures fit { LiveSessionsFit app.now.names sessions.new.items }
    ensures replies { SessionsKeepReplies sessions.new.items }
    ensures kept { AreKept app.now (K.told keeper.new) moment sessions.new.items caches.new.items }
    ensures clean { AreLeftBeside app.now name.now any_table caches.old.items caches.new.items }
    ensures own { IfOk result (λ r. InputLeaves
        (SilenceCause (K.marks keeper.old) (K.marks keeper.new)) app.now moment name.now nothing
        body.now (Ok input) (K.told keeper.old) sessions.old.items (said r) (K.told keeper.new)
        sessions.new.items caches.old.items caches.new.items) }
    ensures cut { OnErr result (AreStopped app.now name.now nothing
        (InputCutOff app.now moment name.now input (K.told keeper.old) sessions.old.items)
        (K.told keeper.new) caches.old.items caches.new.items) }
    ensures rows { AreSound app.now.names.schema (K.told keeper.new) }
    ensures shaped { K.shaped keeper.new ≡ by app.now.names.schema }
    ensures idle { K.in_transaction keeper.new ≡ false }
    ensures cause { HasCause K.Keeper keeper.old keeper.new result }
    ensures loan { K.loan keeper.new ≡ K.loan keeper.old }
{
    match place_of(sessions, name) {
        Some(place) => {
            let mut wrote = Vec::new(alloc);
            let cache = &mut caches[place].it;
            let reply = send_input(
                alloc, app, sessions, cache, keeper, name, body, input, moment, &mut wrote, steps,
            )?;
            touch_others(app, caches, Some(place), &wrote);
            Ok(reply)
        }
        None => unreachable!(),
    }
}

/// A session sends an event of a control, under a number.
#[tactic(auto, using(crate::proofs::Leaving::beside_same))]
pub(crate) fn post_event<K: Keeper, L: Ledger>(
    alloc: Global,
    app: &App,
    sessions: &mut Vec<Named<Session>>,
    caches: &mut Vec<Named<Cache>>,
    keeper: &mut K,
    name: &Words,
    body: &[u8],
    moment: u64,
    steps: &mut Steps<L>,
) -> Result<Reply, KeeperEnd>
    requires sound { IsSoundApp app.now }
    requires fit { LiveSessionsFit app.now.names sessions.old.items }
    requires replies { SessionsKeepReplies sessions.old.items }
    requires kept { AreKept app.now (K.told keeper.old) moment sessions.old.items caches.old.items }
    requires shaped { K.shaped keeper.old ≡ by app.now.names.schema }
    requires rows { AreSound app.now.names.schema (K.told keeper.old) }
    requires idle { K.in_transaction keeper.old ≡ false }
    ensures done { IfOk result (λ r. PostsEvent
        (SilenceCause (K.marks keeper.old) (K.marks keeper.new)) app.now moment name.now body.now
        (K.told keeper.old) sessions.old.items (said r) (K.told keeper.new) sessions.new.items) }
    ensures whole { IfOk result IsReply }
    ensures reached { IsErrOf result Failed → ReachesEvent name.now body.now sessions.old.items }
    ensures stopped { OnErr result (sessions.new.items ≡ sessions.old.items) }
    ensures left { OnErr result (Becomes K.Keeper keeper.old keeper.new Stays) }
    ensures fit { LiveSessionsFit app.now.names sessions.new.items }
    ensures replies { SessionsKeepReplies sessions.new.items }
    ensures kept { AreKept app.now (K.told keeper.new) moment sessions.new.items caches.new.items }
    ensures clean { AreLeftBeside app.now name.now any_table caches.old.items caches.new.items }
    ensures own { IfOk result (λ r. EventLeaves
        (SilenceCause (K.marks keeper.old) (K.marks keeper.new)) app.now moment name.now nothing
        body.now (checks event_in (λ (e : AnEvent). e.seq) (session_of name.now sessions.old.items)
        body.now) (K.told keeper.old) sessions.old.items (said r) (K.told keeper.new)
        sessions.new.items caches.old.items caches.new.items) }
    ensures cut { OnErr result (AreStopped app.now name.now nothing
        (event_cut app.now moment name.now (K.told keeper.old) sessions.old.items
        (checks event_in (λ (e : AnEvent). e.seq) (session_of name.now sessions.old.items)
        body.now)) (K.told keeper.new) caches.old.items caches.new.items) }
    ensures rows { AreSound app.now.names.schema (K.told keeper.new) }
    ensures shaped { K.shaped keeper.new ≡ by app.now.names.schema }
    ensures idle { K.in_transaction keeper.new ≡ false }
    ensures cause { HasCause K.Keeper keeper.old keeper.new result }
    ensures loan { K.loan keeper.new ≡ K.loan keeper.old }
{
    match check_session::<Event>(alloc, sessions, name, body)? {
        Checked::Says(reply) => Ok(reply),
        Checked::Acts(event) => act_event(
            alloc, app, sessions, caches, keeper, name, body, &event, moment, steps,
        ),
    }
}

/// The same, of an event that passed the checks of numbered requests.
#[tactic(auto, using(crate::proofs::Leaving::beside_same))]
fn act_event<K: Keeper, L: Ledger>(
    alloc: Global,
    app: &App,
    sessions: &mut Vec<Named<Session>>,
    caches: &mut Vec<Named<Cache>>,
    keeper: &mut K,
    name: &Words,
    body: &[u8],
    event: &Event,
    moment: u64,
    steps: &mut Steps<L>,
) -> Result<Reply, KeeperEnd>
    requires sound { IsSoundApp app.now }
    requires live { IsSome (find name.now sessions.old.items) }
    requires fit { LiveSessionsFit app.now.names sessions.old.items }
    requires replies { SessionsKeepReplies sessions.old.items }
    requires kept { AreKept app.now (K.told keeper.old) moment sessions.old.items caches.old.items }
    requires shaped { K.shaped keeper.old ≡ by app.now.names.schema }
    requires rows { AreSound app.now.names.schema (K.told keeper.old) }
    requires idle { K.in_transaction keeper.old ≡ false }
    ensures done { IfOk result (λ r. SendsEvent
        (SilenceCause (K.marks keeper.old) (K.marks keeper.new)) app.now moment name.now body.now
        event.now (K.told keeper.old) sessions.old.items (said r) (K.told keeper.new)
        sessions.new.items) }
    ensures whole { IfOk result IsReply }
    ensures stopped { OnErr result (sessions.new.items ≡ sessions.old.items) }
    ensures left { OnErr result (Becomes K.Keeper keeper.old keeper.new Stays) }
    ensures fit { LiveSessionsFit app.now.names sessions.new.items }
    ensures replies { SessionsKeepReplies sessions.new.items }
    ensures kept { AreKept app.now (K.told keeper.new) moment sessions.new.items caches.new.items }
    ensures clean { AreLeftBeside app.now name.now any_table caches.old.items caches.new.items }
    ensures own { IfOk result (λ r. EventLeaves
        (SilenceCause (K.marks keeper.old) (K.marks keeper.new)) app.now moment name.now nothing
        body.now (Ok event.now) (K.told keeper.old) sessions.old.items (said r) (K.told keeper.new)
        sessions.new.items caches.old.items caches.new.items) }
    ensures cut { OnErr result (AreStopped app.now name.now nothing
        (EventCutOff app.now moment name.now event.now (K.told keeper.old) sessions.old.items)
        (K.told keeper.new) caches.old.items caches.new.items) }
    ensures rows { AreSound app.now.names.schema (K.told keeper.new) }
    ensures shaped { K.shaped keeper.new ≡ by app.now.names.schema }
    ensures idle { K.in_transaction keeper.new ≡ false }
    ensures cause { HasCause K.Keeper keeper.old keeper.new result }
    ensures loan { K.loan keeper.new ≡ K.loan keeper.old }
{
    match place_of(sessions, name) {
        Some(place) => {
            let mut wrote = Vec::new(alloc);
            let cache = &mut caches[place].it;
            let reply = send_event(
                alloc, app, sessions, cache, keeper, name, body, event, moment, &mut wrote, steps,
            )?;
            touch_others(app, caches, Some(place), &wrote);
            Ok(reply)
        }
        None => unreachable!(),
    }
}

/// A desk posts changes of rows, under a number. All caches are told which tables were written.
pub(crate) fn change_rows<K: Keeper>(
    alloc: Global,
    app: &App,
    caches: &mut Vec<Named<Cache>>,
    keeper: &mut K,
    desks: &mut Vec<Named<Desk>>,
    name: &Words,
    body: &[u8],
) -> Result<Reply, KeeperEnd>
    requires sound { IsSoundApp app.now }
    requires order { (k : ℕ) (c : Under CacheState) → slice_get caches.old.items k ≡ Some c
        → IsInOrder app.now c.it }
    requires shaped { K.shaped keeper.old ≡ by app.now.names.schema }
    requires rows { AreSound app.now.names.schema (K.told keeper.old) }
    requires idle { K.in_transaction keeper.old ≡ false }
    requires replies { KeepReplies desks.old.items }
    ensures done { IfOk result (λ r. PostsRows
        (SilenceCause (K.marks keeper.old) (K.marks keeper.new)) app.now.names.schema.tables
        name.now body.now (K.told keeper.old) desks.old.items (said r) (K.told keeper.new)
        desks.new.items) }
    ensures whole { IfOk result IsReply }
    ensures stopped { OnErr result (Becomes K.Keeper keeper.old keeper.new Stays) }
    ensures same { OnErr result (desks.new.items ≡ desks.old.items) }
    ensures clean { AreEachLeft app.now (IsNamedBy app.now.names.schema.tables desks.old.items
        name.now body.now) caches.old.items caches.new.items }
    ensures kept { (m : ℕ) (sessions : List (Under SessionState))
        → AreKept app.now (K.told keeper.old) m sessions caches.old.items
        → AreKept app.now (K.told keeper.new) m sessions caches.new.items }
    ensures reached { IsErrOf result Failed → ReachesRows name.now body.now desks.old.items }
    ensures cause { HasCause K.Keeper keeper.old keeper.new result }
    ensures idle { K.in_transaction keeper.new ≡ false }
    ensures shaped { K.shaped keeper.new ≡ K.shaped keeper.old }
    ensures loan { K.loan keeper.new ≡ K.loan keeper.old }
    ensures rows { AreSound app.now.names.schema (K.told keeper.new) }
    ensures replies { KeepReplies desks.new.items }
{
    let mut wrote = Vec::new(alloc);
    let schema = &app.names.schema;
    let reply = post_rows(alloc, keeper, desks, schema, name, body, &mut wrote)?;
    touch_others(app, caches, None, &wrote);
    Ok(reply)
}
