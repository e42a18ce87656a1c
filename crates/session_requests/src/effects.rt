//! What an event or an input that passed its checks does.
ghost use Rattle.std.specs.Option.{option_to_list};
ghost use Rattle.std.specs.Prelude.{◌≡◌, ◌<◌, ◌++◌, [], IfErr, IfOk, IfSome, IsSome, OnErr, OnOk};
ghost use Rattle.std.specs.Prelude.{Some, false, length, option_map, vec_capacity, vec_len};
ghost use Rattle.fx_base.specs.Silence.{SilenceCause};
ghost use Rattle.fx_base.specs.Telling.{Stays};
ghost use Rattle.fx_types.specs.ValueView.{view};
ghost use Rattle.fx_core.specs.declared.sources.Source.TheVariants as source;
ghost use Rattle.recalc.specs.app_semantics.Sound.{IsSoundApp};
ghost use Rattle.numbered_requests.specs.Checked.{SessionsKeepReplies};
ghost use Rattle.numbered_requests.specs.Directory.{put_named as put_into};
ghost use Rattle.numbered_requests.specs.Replies.{IsReply, said};
ghost use Rattle.row_requests.specs.Sound.{AreSound};
ghost use Rattle.session_requests.specs.Triggers.{ItemFits};
ghost use Rattle.session_state.specs.Changes.{FitsNames};
ghost use Rattle.session_state.specs.Sessions.{Holds};
ghost use Rattle.row_requests.specs.Written.{SameTablesExcept};
ghost use Rattle.recalc.specs.Changes.{StaysCleanExcept};
ghost use Rattle.recalc.specs.Kept.{source_index as place_of_source, cached_value};
ghost use Rattle.numbered_requests.specs.Directory.{find};
ghost use Rattle.recalc.specs.app_cells.declared.app.App.{App as AnApp};
ghost use Rattle.session_state.specs.Sessions.{SessionState};
ghost use Rattle.session_requests.specs.Caching.{AreSources, IsCached, IsTouchedIf};
ghost use Rattle.session_requests.specs.Acting.{EffectWrites, EndsEvent, EndsInput, EventWrites};
ghost use Rattle.session_requests.specs.Acting.{InputWrites, IsBefore, TakesEffect};
ghost use Rattle.session_requests.specs.Acting.{session_answered, item_chosen as chosen_by_item};
ghost use Rattle.session_requests.specs.Acting.{input_trigger as input_trigger_of};
ghost use Rattle.session_requests.specs.Acting.{item_seen as item_seen_of};
ghost use Rattle.session_requests.specs.Acting.{trigger_of as trigger_of_kind, with_input};
ghost use Rattle.session_requests.specs.Acting.{with_target};
ghost use Rattle.session_requests.specs.Posting.{SessionsFit};
ghost use Rattle.session_requests.specs.Shown.{cell_values};
ghost use Rattle.session_requests.specs.Targets.{IsTarget, input_target};
ghost use Rattle.session_requests.specs.WrittenWhole.{GivenAndWrites, InputGivenWrites, IsInAll};
ghost use Rattle.session_requests.specs.WrittenWhole.{TargetWrites};
ghost use Rattle.session_requests.specs.Writable.{AllSources, EffectMayWrite, GivenMayWrite};
ghost use Rattle.session_requests.specs.Writable.{TargetMayWrite};
ghost use Rattle.session_requests.specs.declared.input.Input.{Input as Asked};
ghost use Rattle.view_text.specs.RefusalText.{Fits};
ghost use Rattle.row_keeper.specs.Over.{Becomes, HasCause};
ghost use Rattle.row_keeper.specs.Shaped.{by};

use crate::app_cells::App;
use crate::input::Given;
use crate::shown::item_row;
use crate::target::{Item, Target};
use crate::transaction::{Accepted, accept_request};
use crate::trigger::Trigger;
use crate::writing::note;
use fx_base::Memory;
use fx_core::{Names, Source};
use fx_types::{Control, Value, Words};
use numbered_requests::{Named, Reply, place_of, put};
use recalc::{Cache, Steps, is_true};
use row_keeper::{Keeper, KeeperEnd};
use session_state::{Change, Session};
use std::alloc::Global;
use std::sync::ledger::Ledger;
use view_text::Refusal;

/// Gives a session what its user gave to a control, or takes it away.
fn give(session: &mut Session, control: u32, given: Given)
    requires { control < length session.old.inputs }
    ensures { session.new ≡ with_input (control, given) session.old }
{
    match session.change(Change::Input(control, given.value)) {
        Ok(_) => {}
        Err(Memory) => {}
    }
}

/// Makes an item the chosen one of its gallery.
fn choose(session: &mut Session, target: Target)
    requires { IfSome target.item (λ i. i.gallery < length session.old.chosen) }
    ensures { session.new ≡ with_target target session.old }
{
    if let Some(item) = target.item {
        match session.change(Change::Choose(item.gallery, item.at, item.id)) {
            Ok(_) => {}
            Err(Memory) => {}
        }
    }
}

/// The choice that an event makes, if it makes one.
fn chosen_by(target: Target) -> Option<Source>
    ensures { option_to_list result ≡ chosen_by_item target.item }
{
    match target.item {
        Some(item) => Some(Source::Chosen(item.gallery)),
        None => None,
    }
}

/// Notes what was given or chosen as written, and tells the cache of it.
fn tell(
    app: &App,
    cache: &mut Cache,
    wrote: &mut Vec<Source>,
    given: Option<Source>,
) -> Result<(), Memory>
    requires { IfSome given (λ x. place_of_source x < length cache.old.versions) }
    ensures wrote { OnOk result (wrote.new.items ≡ wrote.old.items ++ option_to_list given) }
    ensures told { OnOk result ((a : AnApp) → IsTouchedIf a given cache.old cache.new) }
    ensures stopped { OnErr result ((wrote.new.items ≡ wrote.old.items) × (cache.new ≡ cache.old)) }
{
    wrote.reserve(1)?;
    note(app, wrote, cache, given);
    Ok(())
}

/// What acts as something is given to a control of a kind.
fn trigger_of(kind: Control, control: u32, checked: bool) -> Trigger
    ensures { result ≡ trigger_of_kind kind control checked }
{
    match (kind, checked) {
        (Control::Checkbox, true) => Trigger::OnCheck(control),
        (Control::Checkbox, false) => Trigger::OnUncheck(control),
        _ => Trigger::OnChange(control),
    }
}

/// What acts as an input of a control is accepted, which stands in the session already.
fn input_trigger(
    alloc: Global,
    names: &Names,
    session: &Session,
    cache: &Cache,
    control: u32,
) -> Result<Trigger, Memory>
    requires { Holds session.now (source.Input control) }
    ensures { IfOk result (λ t. t ≡ input_trigger_of names.now session.now (cached_value cache.now)
        control) }
{
    let value = cache.values().input(alloc, names, session, control)?;
    let checked = is_true(Some(&value));
    match names.controls.get(control as usize) {
        Some(found) => Ok(trigger_of(found.kind, control, checked)),
        None => Ok(Trigger::OnChange(control)),
    }
}

/// The row of an item, as a record, where cells have these values.
fn row_of(
    alloc: Global,
    names: &Names,
    values: &[Value],
    item: Option<Item>,
) -> Result<Option<Value>, Memory>
    ensures { IfOk result (λ o. option_map view o
        ≡ item_seen_of names.now (cell_values values.now) item) }
{
    let Some(item) = item else {
        return Ok(None);
    };
    match item_row(names, values, item.gallery, item.at) {
        Some(row) => {
            let fields = row.copy(alloc)?;
            Ok(Some(Value::Rec(fields)))
        }
        None => Ok(None),
    }
}

/// The item that the formula of an event sees.
fn item_seen(
    alloc: Global,
    names: &Names,
    cache: &Cache,
    item: Option<Item>,
) -> Result<Option<Value>, Memory>
    ensures { IfOk result (λ o. option_map view o
        ≡ item_seen_of names.now (cached_value cache.now) item) }
{
    row_of(alloc, names, cache.values().as_slice(), item)
}

/// Ends an input of a session whose formulas have these values: what is accepted acts, and what is
/// refused leaves all.
#[tactic(auto, using(recalc::proofs::Leaving::left_same))]
pub(crate) fn end_input<K: Keeper, L: Ledger>(
    alloc: Global,
    app: &App,
    sessions: &mut Vec<Named<Session>>,
    cache: &mut Cache,
    keeper: &mut K,
    name: &Words,
    body: &[u8],
    seq: u32,
    mut session: Session,
    verdict: Result<(u32, Given), Refusal>,
    moment: u64,
    wrote: &mut Vec<Source>,
    steps: &mut Steps<L>,
) -> Result<Reply, KeeperEnd>
    requires sound { IsSoundApp app.now }
    requires fits { FitsNames app.now.names session }
    requires verdict { (i : Asked) × (verdict
        ≡ input_target app.now.names session (cached_value cache.old) i) }
    requires detail { IfErr verdict (λ r. Fits r.code r.detail) }
    requires fit { SessionsFit app.now.names sessions.old.items }
    requires kept { SessionsKeepReplies sessions.old.items }
    requires shaped { K.shaped keeper.old ≡ by app.now.names.schema }
    requires rows { AreSound app.now.names.schema (K.told keeper.old) }
    requires idle { K.in_transaction keeper.old ≡ false }
    requires found { find name.now sessions.old.items ≡ Some session }
    requires cached { IsCached app.now session (K.told keeper.old) moment cache.old }
    requires wrote { wrote.old.items ≡ [] }
    ensures done { IfOk result (λ r. EndsInput
        (SilenceCause (K.marks keeper.old) (K.marks keeper.new)) app.now moment name.now body.now
        seq session (cached_value cache.old) verdict (K.told keeper.old) sessions.old.items (said r)
        (K.told keeper.new) sessions.new.items) }
    ensures whole { IfOk result IsReply }
    ensures stopped { OnErr result (sessions.new.items ≡ sessions.old.items) }
    ensures left { OnErr result (Becomes K.Keeper keeper.old keeper.new Stays) }
    ensures fit { SessionsFit app.now.names sessions.new.items }
    ensures kept { SessionsKeepReplies sessions.new.items }
    ensures rows { AreSound app.now.names.schema (K.told keeper.new) }
    ensures shaped { K.shaped keeper.new ≡ by app.now.names.schema }
    ensures idle { K.in_transaction keeper.new ≡ false }
    ensures cause { HasCause K.Keeper keeper.old keeper.new result }
    ensures cached { (s : SessionState) → find name.now sessions.new.items ≡ Some s
        → IsCached app.now s (K.told keeper.new) moment cache.new }
    ensures tables { Becomes K.Keeper keeper.old keeper.new (SameTablesExcept wrote.new.items) }
    ensures sources { AreSources app.now.names wrote.new.items }
    ensures clean { StaysCleanExcept app.now wrote.new.items cache.old cache.new }
    ensures wrote { IfOk result (λ r. InputWrites
        (SilenceCause (K.marks keeper.old) (K.marks keeper.new)) app.now moment session
        (cached_value cache.old) verdict (K.told keeper.old) (K.told keeper.new) wrote.new.items) }
    ensures only { Becomes K.Keeper keeper.old keeper.new
        (λ t u. AllSources (GivenMayWrite app.now verdict) wrote.new.items) }
    ensures cut { OnErr result (Becomes K.Keeper keeper.old keeper.new
        (λ t u. AllSources (IsInAll (InputGivenWrites app.now moment session
        (cached_value cache.old) verdict t)) wrote.new.items)) }
    ensures loan { K.loan keeper.new ≡ K.loan keeper.old }
{
    match verdict {
        Ok((control, given)) => {
            give(&mut session, control, given);
            let trigger = input_trigger(alloc, &app.names, &session, cache, control)?;
            let given = Some(Source::Input(control));
            take_effect(
                alloc, app, sessions, cache, keeper, name, body, seq, session, moment, given,
                trigger, None, wrote, steps,
            )
        }
        Err(refusal) => Ok(Reply::refuse(alloc, &refusal)?),
    }
}

/// Ends an event of a session whose formulas have these values: what is accepted acts, and what is
/// refused leaves all.
#[tactic(auto, using(recalc::proofs::Leaving::left_same))]
pub(crate) fn end_event<K: Keeper, L: Ledger>(
    alloc: Global,
    app: &App,
    sessions: &mut Vec<Named<Session>>,
    cache: &mut Cache,
    keeper: &mut K,
    name: &Words,
    body: &[u8],
    seq: u32,
    mut session: Session,
    verdict: Result<Target, Refusal>,
    moment: u64,
    wrote: &mut Vec<Source>,
    steps: &mut Steps<L>,
) -> Result<Reply, KeeperEnd>
    requires sound { IsSoundApp app.now }
    requires fits { FitsNames app.now.names session }
    requires verdict { IfOk verdict (λ t. IsTarget app.now.names (cached_value cache.old) t) }
    requires detail { IfErr verdict (λ r. Fits r.code r.detail) }
    requires fit { SessionsFit app.now.names sessions.old.items }
    requires kept { SessionsKeepReplies sessions.old.items }
    requires shaped { K.shaped keeper.old ≡ by app.now.names.schema }
    requires rows { AreSound app.now.names.schema (K.told keeper.old) }
    requires idle { K.in_transaction keeper.old ≡ false }
    requires found { find name.now sessions.old.items ≡ Some session }
    requires cached { IsCached app.now session (K.told keeper.old) moment cache.old }
    requires wrote { wrote.old.items ≡ [] }
    ensures done { IfOk result (λ r. EndsEvent
        (SilenceCause (K.marks keeper.old) (K.marks keeper.new)) app.now moment name.now body.now
        seq session (cached_value cache.old) verdict (K.told keeper.old) sessions.old.items (said r)
        (K.told keeper.new) sessions.new.items) }
    ensures whole { IfOk result IsReply }
    ensures stopped { OnErr result (sessions.new.items ≡ sessions.old.items) }
    ensures left { OnErr result (Becomes K.Keeper keeper.old keeper.new Stays) }
    ensures fit { SessionsFit app.now.names sessions.new.items }
    ensures kept { SessionsKeepReplies sessions.new.items }
    ensures rows { AreSound app.now.names.schema (K.told keeper.new) }
    ensures shaped { K.shaped keeper.new ≡ by app.now.names.schema }
    ensures idle { K.in_transaction keeper.new ≡ false }
    ensures cause { HasCause K.Keeper keeper.old keeper.new result }
    ensures cached { (s : SessionState) → find name.now sessions.new.items ≡ Some s
        → IsCached app.now s (K.told keeper.new) moment cache.new }
    ensures tables { Becomes K.Keeper keeper.old keeper.new (SameTablesExcept wrote.new.items) }
    ensures sources { AreSources app.now.names wrote.new.items }
    ensures clean { StaysCleanExcept app.now wrote.new.items cache.old cache.new }
    ensures wrote { IfOk result (λ r. EventWrites
        (SilenceCause (K.marks keeper.old) (K.marks keeper.new)) app.now moment session
        (cached_value cache.old) verdict (K.told keeper.old) (K.told keeper.new) wrote.new.items) }
    ensures only { Becomes K.Keeper keeper.old keeper.new
        (λ t u. AllSources (TargetMayWrite app.now verdict) wrote.new.items) }
    ensures cut { OnErr result (Becomes K.Keeper keeper.old keeper.new
        (λ t u. AllSources (IsInAll (TargetWrites app.now moment session (cached_value cache.old)
        verdict t)) wrote.new.items)) }
    ensures loan { K.loan keeper.new ≡ K.loan keeper.old }
{
    match verdict {
        Ok(target) => {
            let item = item_seen(alloc, &app.names, cache, target.item)?;
            choose(&mut session, target);
            let chosen = chosen_by(target);
            let trigger = Trigger::OnSelect(target.control);
            take_effect(
                alloc, app, sessions, cache, keeper, name, body, seq, session, moment, chosen,
                trigger, item, wrote, steps,
            )
        }
        Err(refusal) => {
            drop(session);
            Ok(Reply::refuse(alloc, &refusal)?)
        }
    }
}

/// The session of a name, which is live.
fn session_of<'a>(sessions: &'a [Named<Session>], name: &Words) -> &'a Session
    requires { IsSome (find name.now sessions.now) }
    ensures { find name.now sessions.now ≡ Some result.now }
{
    match place_of(sessions, name) {
        Some(place) => &sessions[place].it,
        None => unreachable!(),
    }
}

/// What an accepted request is kept by: the name of its session, and its body.
#[derive(Drop)]
struct Entry {
    name: Words,
    body: Vec<u8>,
}

/// Takes the memory that an accepted request is kept in, so that keeping it takes none, and tells
/// the cache of what was given or chosen.
fn make_room(
    alloc: Global,
    app: &App,
    sessions: &mut Vec<Named<Session>>,
    cache: &mut Cache,
    name: &Words,
    body: &[u8],
    wrote: &mut Vec<Source>,
    given: Option<Source>,
) -> Result<Entry, Memory>
    requires { IfSome given (λ x. place_of_source x < length cache.old.versions) }
    ensures name { IfOk result (λ e. e.name ≡ name.now) }
    ensures body { IfOk result (λ e. e.body.items ≡ body.now) }
    ensures sessions { sessions.new.items ≡ sessions.old.items }
    ensures room { OnOk result (vec_len sessions.new < vec_capacity sessions.new) }
    ensures wrote { OnOk result (wrote.new.items ≡ wrote.old.items ++ option_to_list given) }
    ensures told { OnOk result ((a : AnApp) → IsTouchedIf a given cache.old cache.new) }
    ensures stopped { OnErr result ((wrote.new.items ≡ wrote.old.items) × (cache.new ≡ cache.old)) }
{
    let name = name.copy(alloc)?;
    let body = Vec::from_slice(alloc, body)?;
    sessions.reserve(1)?;
    tell(app, cache, wrote, given)?;
    Ok(Entry { name, body })
}

/// Does what an accepted request does to its session, in which what is given or chosen stands
/// already: it acts, is answered and is kept. What stops leaves the sessions and the tables, and
/// the cache of the session then stands as it was.
#[tactic(auto, using(recalc::proofs::Leaving::left_same))]
fn take_effect<K: Keeper, L: Ledger>(
    alloc: Global,
    app: &App,
    sessions: &mut Vec<Named<Session>>,
    cache: &mut Cache,
    keeper: &mut K,
    name: &Words,
    body: &[u8],
    seq: u32,
    session: Session,
    moment: u64,
    given: Option<Source>,
    trigger: Trigger,
    item: Option<Value>,
    wrote: &mut Vec<Source>,
    steps: &mut Steps<L>,
) -> Result<Reply, KeeperEnd>
    requires sound { IsSoundApp app.now }
    requires fits { FitsNames app.now.names session }
    requires item { ItemFits app.now trigger (option_map view item) }
    requires fit { SessionsFit app.now.names sessions.old.items }
    requires kept { SessionsKeepReplies sessions.old.items }
    requires shaped { K.shaped keeper.old ≡ by app.now.names.schema }
    requires rows { AreSound app.now.names.schema (K.told keeper.old) }
    requires idle { K.in_transaction keeper.old ≡ false }
    requires before { IsBefore app.now name.now (option_to_list given) session (K.told keeper.old)
        moment cache.old sessions.old.items }
    requires given { AreSources app.now.names (option_to_list given) }
    requires wrote { wrote.old.items ≡ [] }
    ensures done { IfOk result (λ r. TakesEffect
        (SilenceCause (K.marks keeper.old) (K.marks keeper.new)) app.now moment trigger
        (option_map view item) name.now body.now seq session (K.told keeper.old) sessions.old.items
        (said r) (K.told keeper.new) sessions.new.items) }
    ensures whole { IfOk result IsReply }
    ensures stopped { OnErr result (sessions.new.items ≡ sessions.old.items) }
    ensures left { OnErr result (Becomes K.Keeper keeper.old keeper.new Stays) }
    ensures fit { SessionsFit app.now.names sessions.new.items }
    ensures kept { SessionsKeepReplies sessions.new.items }
    ensures rows { AreSound app.now.names.schema (K.told keeper.new) }
    ensures shaped { K.shaped keeper.new ≡ by app.now.names.schema }
    ensures idle { K.in_transaction keeper.new ≡ false }
    ensures cause { HasCause K.Keeper keeper.old keeper.new result }
    ensures cached { (s : SessionState) → find name.now sessions.new.items ≡ Some s
        → IsCached app.now s (K.told keeper.new) moment cache.new }
    ensures tables { Becomes K.Keeper keeper.old keeper.new (SameTablesExcept wrote.new.items) }
    ensures sources { AreSources app.now.names wrote.new.items }
    ensures clean { StaysCleanExcept app.now wrote.new.items cache.old cache.new }
    ensures wrote { IfOk result (λ r. EffectWrites
        (SilenceCause (K.marks keeper.old) (K.marks keeper.new)) app.now moment trigger
        (option_map view item) (option_to_list given) session (K.told keeper.old)
        (K.told keeper.new) wrote.new.items) }
    ensures only { Becomes K.Keeper keeper.old keeper.new
        (λ t u. AllSources (EffectMayWrite app.now (option_to_list given) trigger) wrote.new.items) }
    ensures cut { OnErr result (Becomes K.Keeper keeper.old keeper.new
        (λ t u. AllSources (IsInAll (GivenAndWrites app.now moment trigger (option_map view item)
        (option_to_list given) session t)) wrote.new.items)) }
    ensures loan { K.loan keeper.new ≡ K.loan keeper.old }
{
    let entry = make_room(alloc, app, sessions, cache, name, body, wrote, given)?;
    let before = session_of(sessions.as_slice(), name);
    match accept_request(
        alloc, app, before, session, cache, keeper, moment, trigger, item, seq, wrote, steps,
    ) {
        Ok(accepted) => Ok(keep(sessions, entry.name, seq, entry.body, accepted)),
        Err(end) => Err(end),
    }
}

/// Keeps what an accepted request leaves of its session, and gives the reply. It takes no memory.
fn keep(
    sessions: &mut Vec<Named<Session>>,
    name: Words,
    seq: u32,
    body: Vec<u8>,
    accepted: Accepted,
) -> Reply
    requires room { vec_len sessions.old < vec_capacity sessions.old }
    ensures reply { result ≡ accepted.reply }
    ensures kept { sessions.new.items ≡ put_into name
        (session_answered seq body.items accepted.kept.items accepted.session) sessions.old.items }
{
    let Accepted {
        mut session,
        reply,
        kept,
    } = accepted;
    session.keep(seq, body, kept);
    put(sessions, name, session);
    reply
}
