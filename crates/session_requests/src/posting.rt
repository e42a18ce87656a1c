//! A session sends events and inputs.
ghost use Rattle.std.specs.Prelude.{◌≡◌, [], ℕ, IfErr, IfOk, IsSome, Ok, OnErr, OnOk, Some, false};
ghost use Rattle.fx_base.specs.Silence.{SilenceCause};
ghost use Rattle.fx_base.specs.Telling.{Stays};
ghost use Rattle.fx_scalar.specs.ScalarFunctions.{IsToday};
ghost use Rattle.recalc.specs.AskingOver.{HasRead};
ghost use Rattle.recalc.specs.app_semantics.Present.{present};
ghost use Rattle.recalc.specs.app_semantics.Sound.{IsSoundApp};
ghost use Rattle.recalc.specs.Asking.{IsHeardOf, ToldRows};
ghost use Rattle.recalc.specs.Values.{CellsFit, value_of as value_of_cells};
ghost use Rattle.numbered_requests.specs.Checked.{SessionsKeepReplies};
ghost use Rattle.numbered_requests.specs.Directory.{find};
ghost use Rattle.numbered_requests.specs.Replies.{IsReply, said};
ghost use Rattle.row_keeper.specs.Over.{Becomes, HasCause};
ghost use Rattle.row_keeper.specs.Tables.{rows_told};
ghost use Rattle.row_keeper.specs.Shaped.{by};
ghost use Rattle.row_requests.specs.Sound.{AreSound};
ghost use Rattle.row_requests.specs.Written.{SameTablesExcept};
ghost use Rattle.recalc.specs.Changes.{StaysCleanExcept};
ghost use Rattle.recalc.specs.Kept.{cached_value};
ghost use Rattle.session_state.specs.Changes.{FitsNames};
ghost use Rattle.session_state.specs.Sessions.{SessionState};
ghost use Rattle.view_text.specs.RefusalText.{Fits};
ghost use Rattle.session_requests.specs.Caching.{AreFreshAt, AreSources, IsCached};
ghost use Rattle.session_requests.specs.Posting.{EventLooksAt, InputLooksAt, IsVerdict, SendsEvent};
ghost use Rattle.session_requests.specs.Posting.{SendsEventWriting, SendsInput, SendsInputWriting};
ghost use Rattle.session_requests.specs.Posting.{SessionsFit};
ghost use Rattle.session_requests.specs.Targets.{IsTarget, event_target as event_target_of};
ghost use Rattle.session_requests.specs.Targets.{or_refused};
ghost use Rattle.session_requests.specs.WrittenWhole.{EventWritesWhole, InputWritesWhole, IsInAll};
ghost use Rattle.session_requests.specs.Writable.{AllSources, EventMayWrite, InputMayWrite};

use crate::app_cells::App;
use crate::app_semantics::{fitting_holds, one_fresh_at};
use crate::checked_cells::{event_cells, input_cells};
use crate::checks::{event_target, input_target, plain};
use crate::effects::{end_event, end_input};
use crate::event::Event;
use crate::fx_semantics::one_value;
use crate::input::Input;
use crate::shown::control_named;
use crate::target::Target;
use crate::visible::is_shown_for;
use fx_core::Source;
use fx_types::Words;
use numbered_requests::{Named, Reply, place_of};
use recalc::{Cache, Steps, Valued, id_name};
use row_keeper::{Keeper, KeeperEnd};
use session_state::Session;
use std::alloc::Global;
use std::sync::ledger::Ledger;
use view_text::Refusal;

/// Sends an input that passed the checks of numbered requests: what its user gave to a control is
/// kept, and then `OnChange` of the control acts, or `OnCheck` or `OnUncheck` of a box, as one
/// transaction, and the reply is kept; or nothing changes and the reply is a refusal: no control
/// (15), one that takes no input (16) or isn't shown (17), or a value that it doesn't take (20).
/// Null takes away what was given. No other session changes. What stops leaves the sessions and the
/// tables. The cache of the session stands afterwards in all cases, and `wrote` is told the sources
/// that were written. It works on a copy of the session.
#[tactic(auto, using(recalc::proofs::Leaving::left_same))]
pub fn send_input<K: Keeper, L: Ledger>(
    alloc: Global,
    app: &App,
    sessions: &mut Vec<Named<Session>>,
    cache: &mut Cache,
    keeper: &mut K,
    name: &Words,
    body: &[u8],
    input: Input,
    moment: u64,
    wrote: &mut Vec<Source>,
    steps: &mut Steps<L>,
) -> Result<Reply, KeeperEnd>
    requires sound { IsSoundApp app.now }
    requires live { IsSome (find name.now sessions.old.items) }
    requires fit { SessionsFit app.now.names sessions.old.items }
    requires kept { SessionsKeepReplies sessions.old.items }
    requires shaped { K.shaped keeper.old ≡ by app.now.names.schema }
    requires rows { AreSound app.now.names.schema (K.told keeper.old) }
    requires idle { K.in_transaction keeper.old ≡ false }
    requires cached { (s : SessionState) → find name.now sessions.old.items ≡ Some s
        → IsCached app.now s (K.told keeper.old) moment cache.old }
    requires wrote { wrote.old.items ≡ [] }
    ensures done { IfOk result (λ r. SendsInput
        (SilenceCause (K.marks keeper.old) (K.marks keeper.new)) app.now moment name.now body.now
        input (K.told keeper.old) sessions.old.items (said r) (K.told keeper.new)
        sessions.new.items) }
    ensures whole { IfOk result IsReply }
    ensures stopped { OnErr result (sessions.new.items ≡ sessions.old.items) }
    ensures left { OnErr result (Becomes K.Keeper keeper.old keeper.new Stays) }
    ensures fit { SessionsFit app.now.names sessions.new.items }
    ensures kept { SessionsKeepReplies sessions.new.items }
    ensures rows { AreSound app.now.names.schema (K.told keeper.new) }
    ensures shaped { K.shaped keeper.new ≡ by app.now.names.schema }
    ensures idle { K.in_transaction keeper.new ≡ false }
    ensures cause { HasCause K.Keeper keeper.old keeper.new result }
    ensures cached { (s : SessionState) → find name.now sessions.new.items ≡ Some s
        → IsCached app.now s (K.told keeper.new) moment cache.new }
    ensures tables { Becomes K.Keeper keeper.old keeper.new (SameTablesExcept wrote.new.items) }
    ensures sources { AreSources app.now.names wrote.new.items }
    ensures clean { StaysCleanExcept app.now wrote.new.items cache.old cache.new }
    ensures wrote { IfOk result (λ r. SendsInputWriting
        (SilenceCause (K.marks keeper.old) (K.marks keeper.new)) app.now moment name.now body.now
        input (K.told keeper.old) sessions.old.items (said r) (K.told keeper.new) sessions.new.items
        wrote.new.items) }
    ensures only { Becomes K.Keeper keeper.old keeper.new
        (λ t u. AllSources (InputMayWrite app.now input) wrote.new.items) }
    ensures cut { OnErr result (Becomes K.Keeper keeper.old keeper.new
        (λ t u. AllSources (IsInAll (InputWritesWhole app.now moment name.now input t
        sessions.old.items)) wrote.new.items)) }
    ensures loan { K.loan keeper.new ≡ K.loan keeper.old }
{
    match place_of(sessions, name) {
        Some(place) => {
            let session = sessions[place].it.copy()?;
            act_input(
                alloc, app, sessions, cache, keeper, name, body, input, session, moment, wrote,
                steps,
            )
        }
        None => unreachable!(),
    }
}

/// Brings up to date what the checks of an input look at.
#[tactic(auto, using(recalc::proofs::Asked::read_none, recalc::proofs::Leaving::left_same))]
fn look_for_input<K: Keeper, L: Ledger>(
    alloc: Global,
    app: &App,
    session: &Session,
    cache: &mut Cache,
    keeper: &mut K,
    input: &Input,
    moment: u64,
    steps: &mut Steps<L>,
) -> Result<(), KeeperEnd>
    requires sound { IsSoundApp app.now }
    requires fits { FitsNames app.now.names session.now }
    requires cached { IsCached app.now session.now (K.told keeper.old) moment cache.old }
    requires shaped { K.shaped keeper.old ≡ by app.now.names.schema }
    ensures cached { IsCached app.now session.now (K.told keeper.new) moment cache.new }
    ensures clean { StaysCleanExcept app.now [] cache.old cache.new }
    ensures fresh { OnOk result ∥ ((tables : ToldRows) → IsHeardOf (K.told keeper.new) tables
        → AreFreshAt (present app.now session.now tables moment) (InputLooksAt app.now input.now)
        (cached_value cache.new)) ∥₁ }
    ensures read { HasRead K.Keeper keeper.old keeper.new }
    ensures cause { HasCause K.Keeper keeper.old keeper.new result }
{
    fitting_holds();
    match control_named(&app.names, &input.control) {
        Some(place) => {
            let cells = input_cells(alloc, app, place as u32)?;
            cache.refresh(alloc, app, session, keeper, moment, &cells, steps)?;
            Ok(())
        }
        None => Ok(()),
    }
}

/// Sends an input of this session, which is a copy.
fn act_input<K: Keeper, L: Ledger>(
    alloc: Global,
    app: &App,
    sessions: &mut Vec<Named<Session>>,
    cache: &mut Cache,
    keeper: &mut K,
    name: &Words,
    body: &[u8],
    input: Input,
    session: Session,
    moment: u64,
    wrote: &mut Vec<Source>,
    steps: &mut Steps<L>,
) -> Result<Reply, KeeperEnd>
    requires sound { IsSoundApp app.now }
    requires found { find name.now sessions.old.items ≡ Some session }
    requires fits { FitsNames app.now.names session }
    requires fit { SessionsFit app.now.names sessions.old.items }
    requires kept { SessionsKeepReplies sessions.old.items }
    requires shaped { K.shaped keeper.old ≡ by app.now.names.schema }
    requires rows { AreSound app.now.names.schema (K.told keeper.old) }
    requires idle { K.in_transaction keeper.old ≡ false }
    requires cached { IsCached app.now session (K.told keeper.old) moment cache.old }
    requires wrote { wrote.old.items ≡ [] }
    ensures done { IfOk result (λ r. SendsInput
        (SilenceCause (K.marks keeper.old) (K.marks keeper.new)) app.now moment name.now body.now
        input (K.told keeper.old) sessions.old.items (said r) (K.told keeper.new)
        sessions.new.items) }
    ensures whole { IfOk result IsReply }
    ensures stopped { OnErr result (sessions.new.items ≡ sessions.old.items) }
    ensures left { OnErr result (Becomes K.Keeper keeper.old keeper.new Stays) }
    ensures fit { SessionsFit app.now.names sessions.new.items }
    ensures kept { SessionsKeepReplies sessions.new.items }
    ensures rows { AreSound app.now.names.schema (K.told keeper.new) }
    ensures shaped { K.shaped keeper.new ≡ by app.now.names.schema }
    ensures idle { K.in_transaction keeper.new ≡ false }
    ensures cause { HasCause K.Keeper keeper.old keeper.new result }
    ensures cached { (s : SessionState) → find name.now sessions.new.items ≡ Some s
        → IsCached app.now s (K.told keeper.new) moment cache.new }
    ensures tables { Becomes K.Keeper keeper.old keeper.new (SameTablesExcept wrote.new.items) }
    ensures sources { AreSources app.now.names wrote.new.items }
    ensures clean { StaysCleanExcept app.now wrote.new.items cache.old cache.new }
    ensures wrote { IfOk result (λ r. SendsInputWriting
        (SilenceCause (K.marks keeper.old) (K.marks keeper.new)) app.now moment name.now body.now
        input (K.told keeper.old) sessions.old.items (said r) (K.told keeper.new) sessions.new.items
        wrote.new.items) }
    ensures only { Becomes K.Keeper keeper.old keeper.new
        (λ t u. AllSources (InputMayWrite app.now input) wrote.new.items) }
    ensures cut { OnErr result (Becomes K.Keeper keeper.old keeper.new
        (λ t u. AllSources (IsInAll (InputWritesWhole app.now moment name.now input t
        sessions.old.items)) wrote.new.items)) }
    ensures loan { K.loan keeper.new ≡ K.loan keeper.old }
{
    fitting_holds();
    one_fresh_at();
    look_for_input(alloc, app, &session, cache, keeper, &input, moment, steps)?;
    let seq = input.seq;
    let values = cache.values().as_slice();
    let verdict = input_target(&app.names, session.screen(), values, input);
    end_input(
        alloc, app, sessions, cache, keeper, name, body, seq, session, verdict, moment, wrote,
        steps,
    )
}

/// Sends an event that passed the checks of numbered requests: the item that it has becomes the
/// chosen one of its gallery, and then `OnSelect` of the control acts, as one transaction, and the
/// reply is kept; or nothing changes and the reply is a refusal: no control (15), no such event of
/// it (16), a control that isn't shown (17), no such item (18), one that has moved (19), or a
/// control in a gallery that isn't visible for the item (17). No other session changes. What stops
/// leaves the sessions and the tables. The cache of the session stands afterwards in all cases, and
/// `wrote` is told the sources that were written. It works on a copy of the session.
#[tactic(auto, using(recalc::proofs::Leaving::left_same))]
pub fn send_event<K: Keeper, L: Ledger>(
    alloc: Global,
    app: &App,
    sessions: &mut Vec<Named<Session>>,
    cache: &mut Cache,
    keeper: &mut K,
    name: &Words,
    body: &[u8],
    event: &Event,
    moment: u64,
    wrote: &mut Vec<Source>,
    steps: &mut Steps<L>,
) -> Result<Reply, KeeperEnd>
    requires sound { IsSoundApp app.now }
    requires live { IsSome (find name.now sessions.old.items) }
    requires fit { SessionsFit app.now.names sessions.old.items }
    requires kept { SessionsKeepReplies sessions.old.items }
    requires shaped { K.shaped keeper.old ≡ by app.now.names.schema }
    requires rows { AreSound app.now.names.schema (K.told keeper.old) }
    requires idle { K.in_transaction keeper.old ≡ false }
    requires cached { (s : SessionState) → find name.now sessions.old.items ≡ Some s
        → IsCached app.now s (K.told keeper.old) moment cache.old }
    requires wrote { wrote.old.items ≡ [] }
    ensures done { IfOk result (λ r. SendsEvent
        (SilenceCause (K.marks keeper.old) (K.marks keeper.new)) app.now moment name.now body.now
        event.now (K.told keeper.old) sessions.old.items (said r) (K.told keeper.new)
        sessions.new.items) }
    ensures whole { IfOk result IsReply }
    ensures stopped { OnErr result (sessions.new.items ≡ sessions.old.items) }
    ensures left { OnErr result (Becomes K.Keeper keeper.old keeper.new Stays) }
    ensures fit { SessionsFit app.now.names sessions.new.items }
    ensures kept { SessionsKeepReplies sessions.new.items }
    ensures rows { AreSound app.now.names.schema (K.told keeper.new) }
    ensures shaped { K.shaped keeper.new ≡ by app.now.names.schema }
    ensures idle { K.in_transaction keeper.new ≡ false }
    ensures cause { HasCause K.Keeper keeper.old keeper.new result }
    ensures cached { (s : SessionState) → find name.now sessions.new.items ≡ Some s
        → IsCached app.now s (K.told keeper.new) moment cache.new }
    ensures tables { Becomes K.Keeper keeper.old keeper.new (SameTablesExcept wrote.new.items) }
    ensures sources { AreSources app.now.names wrote.new.items }
    ensures clean { StaysCleanExcept app.now wrote.new.items cache.old cache.new }
    ensures wrote { IfOk result (λ r. SendsEventWriting
        (SilenceCause (K.marks keeper.old) (K.marks keeper.new)) app.now moment name.now body.now
        event.now (K.told keeper.old) sessions.old.items (said r) (K.told keeper.new)
        sessions.new.items wrote.new.items) }
    ensures only { Becomes K.Keeper keeper.old keeper.new
        (λ t u. AllSources (EventMayWrite app.now event.now) wrote.new.items) }
    ensures cut { OnErr result (Becomes K.Keeper keeper.old keeper.new
        (λ t u. AllSources (IsInAll (EventWritesWhole app.now moment name.now event.now t
        sessions.old.items)) wrote.new.items)) }
    ensures loan { K.loan keeper.new ≡ K.loan keeper.old }
{
    match place_of(sessions, name) {
        Some(place) => {
            let session = sessions[place].it.copy()?;
            act_event(
                alloc, app, sessions, cache, keeper, name, body, event, session, moment, wrote,
                steps,
            )
        }
        None => unreachable!(),
    }
}

/// Brings up to date what the checks of an event look at.
#[tactic(auto, using(recalc::proofs::Asked::read_none, recalc::proofs::Leaving::left_same))]
fn look_for_event<K: Keeper, L: Ledger>(
    alloc: Global,
    app: &App,
    session: &Session,
    cache: &mut Cache,
    keeper: &mut K,
    event: &Event,
    moment: u64,
    steps: &mut Steps<L>,
) -> Result<(), KeeperEnd>
    requires sound { IsSoundApp app.now }
    requires fits { FitsNames app.now.names session.now }
    requires cached { IsCached app.now session.now (K.told keeper.old) moment cache.old }
    requires shaped { K.shaped keeper.old ≡ by app.now.names.schema }
    ensures cached { IsCached app.now session.now (K.told keeper.new) moment cache.new }
    ensures clean { StaysCleanExcept app.now [] cache.old cache.new }
    ensures fresh { OnOk result ∥ ((tables : ToldRows) → IsHeardOf (K.told keeper.new) tables
        → AreFreshAt (present app.now session.now tables moment) (EventLooksAt app.now event.now)
        (cached_value cache.new)) ∥₁ }
    ensures read { HasRead K.Keeper keeper.old keeper.new }
    ensures cause { HasCause K.Keeper keeper.old keeper.new result }
{
    fitting_holds();
    match control_named(&app.names, &event.control) {
        Some(place) => {
            let cells = event_cells(alloc, app, place as u32)?;
            cache.refresh(alloc, app, session, keeper, moment, &cells, steps)?;
            Ok(())
        }
        None => Ok(()),
    }
}

/// Sends an event of this session, which is a copy.
fn act_event<K: Keeper, L: Ledger>(
    alloc: Global,
    app: &App,
    sessions: &mut Vec<Named<Session>>,
    cache: &mut Cache,
    keeper: &mut K,
    name: &Words,
    body: &[u8],
    event: &Event,
    session: Session,
    moment: u64,
    wrote: &mut Vec<Source>,
    steps: &mut Steps<L>,
) -> Result<Reply, KeeperEnd>
    requires sound { IsSoundApp app.now }
    requires found { find name.now sessions.old.items ≡ Some session }
    requires fits { FitsNames app.now.names session }
    requires fit { SessionsFit app.now.names sessions.old.items }
    requires kept { SessionsKeepReplies sessions.old.items }
    requires shaped { K.shaped keeper.old ≡ by app.now.names.schema }
    requires rows { AreSound app.now.names.schema (K.told keeper.old) }
    requires idle { K.in_transaction keeper.old ≡ false }
    requires cached { IsCached app.now session (K.told keeper.old) moment cache.old }
    requires wrote { wrote.old.items ≡ [] }
    ensures done { IfOk result (λ r. SendsEvent
        (SilenceCause (K.marks keeper.old) (K.marks keeper.new)) app.now moment name.now body.now
        event.now (K.told keeper.old) sessions.old.items (said r) (K.told keeper.new)
        sessions.new.items) }
    ensures whole { IfOk result IsReply }
    ensures stopped { OnErr result (sessions.new.items ≡ sessions.old.items) }
    ensures left { OnErr result (Becomes K.Keeper keeper.old keeper.new Stays) }
    ensures fit { SessionsFit app.now.names sessions.new.items }
    ensures kept { SessionsKeepReplies sessions.new.items }
    ensures rows { AreSound app.now.names.schema (K.told keeper.new) }
    ensures shaped { K.shaped keeper.new ≡ by app.now.names.schema }
    ensures idle { K.in_transaction keeper.new ≡ false }
    ensures cause { HasCause K.Keeper keeper.old keeper.new result }
    ensures cached { (s : SessionState) → find name.now sessions.new.items ≡ Some s
        → IsCached app.now s (K.told keeper.new) moment cache.new }
    ensures tables { Becomes K.Keeper keeper.old keeper.new (SameTablesExcept wrote.new.items) }
    ensures sources { AreSources app.now.names wrote.new.items }
    ensures clean { StaysCleanExcept app.now wrote.new.items cache.old cache.new }
    ensures wrote { IfOk result (λ r. SendsEventWriting
        (SilenceCause (K.marks keeper.old) (K.marks keeper.new)) app.now moment name.now body.now
        event.now (K.told keeper.old) sessions.old.items (said r) (K.told keeper.new)
        sessions.new.items wrote.new.items) }
    ensures only { Becomes K.Keeper keeper.old keeper.new
        (λ t u. AllSources (EventMayWrite app.now event.now) wrote.new.items) }
    ensures cut { OnErr result (Becomes K.Keeper keeper.old keeper.new
        (λ t u. AllSources (IsInAll (EventWritesWhole app.now moment name.now event.now t
        sessions.old.items)) wrote.new.items)) }
    ensures loan { K.loan keeper.new ≡ K.loan keeper.old }
{
    fitting_holds();
    one_fresh_at();
    one_value();
    look_for_event(alloc, app, &session, cache, keeper, event, moment, steps)?;
    let verdict = judge_event(alloc, app, &session, keeper, cache.values(), event, steps)?;
    end_event(
        alloc, app, sessions, cache, keeper, name, body, event.seq, session, verdict, moment,
        wrote, steps,
    )
}

/// What becomes of an event of a session whose formulas have these values.
#[tactic(auto, using(recalc::proofs::Asked::read_none, recalc::proofs::Asked::read_on))]
fn judge_event<K: Keeper, L: Ledger>(
    alloc: Global,
    app: &App,
    session: &Session,
    keeper: &mut K,
    valued: &Valued,
    event: &Event,
    steps: &mut Steps<L>,
) -> Result<Result<Target, Refusal>, KeeperEnd>
    requires sound { IsSoundApp app.now }
    requires fits { FitsNames app.now.names session.now }
    requires cells { CellsFit app.now (value_of_cells valued.now) }
    requires day { (moment : ℕ) × IsToday moment valued.now.day }
    requires shaped { K.shaped keeper.old ≡ by app.now.names.schema }
    ensures judged { IfOk result (λ v. (moment : ℕ) → IsToday moment valued.now.day →
        IsVerdict (present app.now session.now (rows_told (K.told keeper.new)) moment)
        (value_of_cells valued.now) (event_target_of app.now.names session.now
        (value_of_cells valued.now) event.now) v) }
    ensures target { IfOk result (λ v. IfOk v
        (λ t. IsTarget app.now.names (value_of_cells valued.now) t)) }
    ensures detail { IfOk result (λ v. IfErr v (λ r. Fits r.code r.detail)) }
    ensures read { HasRead K.Keeper keeper.old keeper.new }
    ensures cause { HasCause K.Keeper keeper.old keeper.new result }
{
    fitting_holds();
    let id = id_name(alloc)?;
    match event_target(&app.names, session.screen(), valued.as_slice(), event, &id) {
        Ok(target) => {
            let shown = is_shown_for(alloc, app, session, keeper, valued, target, steps)?;
            Ok(unless_hidden(shown, target))
        }
        Err(refusal) => Ok(Err(refusal)),
    }
}

/// Refuses a control that isn't visible for its item.
fn unless_hidden(shown: bool, target: Target) -> Result<Target, Refusal>
    ensures is { result ≡ or_refused shown 17 (Ok target) }
    ensures detail { IfErr result (λ r. Fits r.code r.detail) }
{
    if shown { Ok(target) } else { Err(plain(17)) }
}
