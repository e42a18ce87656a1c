//! Sessions: they begin, end, and are shown what they ask for.
ghost use Rattle.std.specs.Prelude.{◌≡◌, ◌<◌, [], ℕ, false, IfOk, IfSome, IsErrOf, List, OnErr};
ghost use Rattle.std.specs.Prelude.{OnOk, Option, Some, option_map, vec_capacity, vec_len};
ghost use Rattle.app_wire.specs.ReplyBytes.{reply};
ghost use Rattle.numbered_requests.specs.Checked.{SessionsKeepReplies};
ghost use Rattle.numbered_requests.specs.Directory.{find};
ghost use Rattle.numbered_requests.specs.Replies.{IsReply, said};
ghost use Rattle.view_text.specs.ReplyText.{ok_text};
ghost use Rattle.app_loader.specs.app_semantics.Sound.{IsSoundApp};
ghost use Rattle.fx_core.specs.declared.names.Names.{Names as Known};
ghost use Rattle.app_cells.specs.declared.app.App.{App as AnApp};
ghost use Rattle.row_keeper.specs.Over.{Becomes, HasCause};
ghost use Rattle.row_keeper.specs.Tables.{Tables};
ghost use Rattle.session_views.specs.Galleries.{gallery_named};
ghost use Rattle.session_views.specs.Shows.{LiveSessionsFit, ReachesItems, ReachesView, ShowsItems};
ghost use Rattle.session_views.specs.Shows.{ShowsView};
ghost use Rattle.recalc.specs.AskingOver.{HasRead};
ghost use Rattle.recalc.specs.Changes.{StaysCleanExcept};
ghost use Rattle.office.specs.Caches.{EachCacheBecame, AreKept, IsNew};
ghost use Rattle.office.specs.Costs.{CostOfItems, CostOfNamed, CostOfView, CostsTo, counts};
ghost use Rattle.office.specs.Leaving.{SessionsLeft, AreLeftBeside, BeginLeaves, any_table};
ghost use Rattle.office.specs.Leaving.{nothing};
ghost use Rattle.fx_base.specs.Silence.{SilenceCause};
ghost use Rattle.fx_base.specs.Telling.{Stays};
ghost use Rattle.row_requests.specs.Sound.{AreSound};
ghost use Rattle.session_requests.specs.Opening.{CanOpen};
ghost use Rattle.row_keeper.specs.declared.keeper.KeeperEnd.TheVariants.{Failed};
ghost use Rattle.row_keeper.specs.Shaped.{by};
ghost use Rattle.office.specs.Sessions.{BeginsSession, ReachesBegin, ReachesNamed, ShowsNamed};
ghost use Rattle.office.specs.Sessions.{begin_checks, sessions_without};

use crate::app_semantics::fitting_holds;
use crate::keeping::{new_cache, touch_others};
use crate::named::named_body;
use app_cells::App;
use fx_base::Memory;
use fx_types::words::Words;
use numbered_requests::{Named, Reply, is_among, place_of, put};
use recalc::{Cache, Steps};
use row_keeper::{Keeper, KeeperEnd};
use session_requests::open_session;
use session_state::Session;
use session_views::{show_items, show_view};
use std::alloc::Global;
use std::sync::ledger::Ledger;
use view_text::ok_json;

/// The most sessions that live at a time.
pub const MOST_SESSIONS: usize = 256;

/// Opens a session, if it isn't live: the formulas act that an app has for this, in one transaction
/// of the keeper. It gets a cache, and those of the others are told which tables were written. What
/// stops leaves the sessions and the tables. `Failed` only where the keeper counted a fault.
#[tactic(auto, using(crate::proofs::Leaving::beside_same, crate::proofs::Leaving::left_unchanged))]
pub(crate) fn begin<K: Keeper, L: Ledger>(
    alloc: Global,
    app: &App,
    sessions: &mut Vec<Named<Session>>,
    caches: &mut Vec<Named<Cache>>,
    keeper: &mut K,
    name: &Words,
    moment: u64,
    steps: &mut Steps<L>,
) -> Result<Reply, KeeperEnd>
    requires sound { IsSoundApp app.now }
    requires opens { CanOpen app.now.names }
    requires fit { LiveSessionsFit app.now.names sessions.old.items }
    requires replies { SessionsKeepReplies sessions.old.items }
    requires kept { AreKept app.now (K.told keeper.old) moment sessions.old.items caches.old.items }
    requires shaped { K.shaped keeper.old ≡ by app.now.names.schema }
    requires rows { AreSound app.now.names.schema (K.told keeper.old) }
    requires idle { K.in_transaction keeper.old ≡ false }
    ensures done { IfOk result (λ r. BeginsSession
        (SilenceCause (K.marks keeper.old) (K.marks keeper.new)) app.now moment name.now
        (K.told keeper.old) sessions.old.items (said r) (K.told keeper.new) sessions.new.items) }
    ensures whole { IfOk result IsReply }
    ensures reached { IsErrOf result Failed → ReachesBegin name.now sessions.old.items }
    ensures stopped { OnErr result (sessions.new.items ≡ sessions.old.items) }
    ensures left { OnErr result (Becomes K.Keeper keeper.old keeper.new Stays) }
    ensures fit { LiveSessionsFit app.now.names sessions.new.items }
    ensures replies { SessionsKeepReplies sessions.new.items }
    ensures kept { AreKept app.now (K.told keeper.new) moment sessions.new.items caches.new.items }
    ensures clean { AreLeftBeside app.now name.now any_table caches.old.items caches.new.items }
    ensures others { IfOk result (λ r. BeginLeaves
        (SilenceCause (K.marks keeper.old) (K.marks keeper.new)) app.now moment name.now nothing
        (begin_checks name.now sessions.old.items) (K.told keeper.old) sessions.old.items (said r)
        (K.told keeper.new) sessions.new.items caches.old.items caches.new.items) }
    ensures cut { OnErr result (SessionsLeft app.now nothing caches.old.items caches.new.items) }
    ensures rows { AreSound app.now.names.schema (K.told keeper.new) }
    ensures shaped { K.shaped keeper.new ≡ by app.now.names.schema }
    ensures idle { K.in_transaction keeper.new ≡ false }
    ensures cause { HasCause K.Keeper keeper.old keeper.new result }
    ensures loan { K.loan keeper.new ≡ K.loan keeper.old }
{
    if let Some(reply) = said_unopened(alloc, sessions, name)? {
        return Ok(reply);
    }
    let mut made = prepare(alloc, app, sessions, caches, name, moment)?;
    let mut wrote = Vec::new(alloc);
    let session = open_session(
        alloc,
        app,
        &mut made.cache,
        keeper,
        moment,
        &mut wrote,
        steps,
    )?;
    touch_others(app, caches, None, &wrote);
    put(sessions, made.name, session);
    put(caches, made.copy, made.cache);
    Ok(made.reply)
}

/// The reply where no session is opened: it is live already, or as many live as may.
fn said_unopened(
    alloc: Global,
    sessions: &[Named<Session>],
    name: &Words,
) -> Result<Option<Reply>, Memory>
    ensures said { IfOk result (λ o. option_map said o ≡ begin_checks name.now sessions.now) }
    ensures whole { IfOk result (λ o. IfSome o IsReply) }
{
    if is_among(sessions, name) {
        return Ok(Some(Reply::accept(alloc, ok_json())?));
    }
    if sessions.len() >= MOST_SESSIONS {
        return Ok(Some(Reply::refuse_plain(alloc, 12)?));
    }
    Ok(None)
}

/// What is made for a session before it is opened: the reply, its name for it and for its cache,
/// and the cache.
#[derive(Drop)]
struct Prepared {
    reply: Reply,
    name: Words,
    copy: Words,
    cache: Cache,
}

/// Takes all memory for a session before its transaction ends, so that want of it opens none: room
/// for it and for its cache too.
fn prepare(
    alloc: Global,
    app: &App,
    sessions: &mut Vec<Named<Session>>,
    caches: &mut Vec<Named<Cache>>,
    name: &Words,
    moment: u64,
) -> Result<Prepared, Memory>
    ensures sessions { sessions.new.items ≡ sessions.old.items }
    ensures caches { caches.new.items ≡ caches.old.items }
    ensures room { OnOk result (vec_len sessions.new < vec_capacity sessions.new) }
    ensures room_beside { OnOk result (vec_len caches.new < vec_capacity caches.new) }
    ensures said { IfOk result (λ p. said p.reply ≡ reply 200 ok_text) }
    ensures whole { IfOk result (λ p. IsReply p.reply) }
    ensures name { IfOk result (λ p. p.name ≡ name.now) }
    ensures copy { IfOk result (λ p. p.copy ≡ name.now) }
    ensures cache { IfOk result (λ p. IsNew app.now moment p.cache) }
{
    let reply = Reply::accept(alloc, ok_json())?;
    sessions.reserve(1)?;
    caches.reserve(1)?;
    let name = name.copy(alloc)?;
    let copy = name.copy(alloc)?;
    let cache = new_cache(alloc, app, moment)?;
    Ok(Prepared {
        reply,
        name,
        copy,
        cache,
    })
}

/// Ends a session, if it is live, and its cache with it.
pub(crate) fn end(
    alloc: Global,
    sessions: &mut Vec<Named<Session>>,
    caches: &mut Vec<Named<Cache>>,
    name: &Words,
) -> Result<Reply, Memory>
    ensures said { IfOk result (λ r. said r ≡ reply 200 ok_text) }
    ensures done { IfOk result (λ r. sessions.new.items
        ≡ sessions_without name.now sessions.old.items) }
    ensures fit { (names : Known) → LiveSessionsFit names sessions.old.items
        → LiveSessionsFit names sessions.new.items }
    ensures replies { SessionsKeepReplies sessions.old.items
        → SessionsKeepReplies sessions.new.items }
    ensures kept { (app : AnApp) (told : Option Tables) (m : ℕ)
        → AreKept app told m sessions.old.items caches.old.items
        → AreKept app told m sessions.new.items caches.new.items }
    ensures clean { (app : AnApp) → SessionsLeft app nothing caches.old.items caches.new.items }
    ensures whole { IfOk result IsReply }
    ensures stopped { OnErr result (sessions.new.items ≡ sessions.old.items) }
{
    let reply = Reply::accept(alloc, ok_json())?;
    remove(sessions, name);
    remove(caches, name);
    Ok(reply)
}

/// Takes out what has this name.
fn remove<T: Drop>(list: &mut Vec<Named<T>>, name: &Words)
    ensures { list.new.items ≡ sessions_without name.now list.old.items }
{
    list.retain(|named| !named.name.is(name));
}

/// Shows a live session its view, as it is at a moment over the rows of a keeper. `Failed` only
/// where it counted a fault.
#[tactic(auto, using(crate::proofs::StepLemmas::read_nothing, crate::proofs::Leaving::each_same))]
pub(crate) fn show_view_to<K: Keeper, L: Ledger>(
    alloc: Global,
    app: &App,
    sessions: &[Named<Session>],
    caches: &mut Vec<Named<Cache>>,
    keeper: &mut K,
    name: &Words,
    moment: u64,
    steps: &mut Steps<L>,
) -> Result<Reply, KeeperEnd>
    requires sound { IsSoundApp app.now }
    requires fit { LiveSessionsFit app.now.names sessions.now }
    requires kept { AreKept app.now (K.told keeper.old) moment sessions.now caches.old.items }
    requires shaped { K.shaped keeper.old ≡ by app.now.names.schema }
    ensures done { IfOk result (λ r. ShowsView
        (SilenceCause (K.marks keeper.old) (K.marks keeper.new)) moment app.now name.now
        sessions.now (K.told keeper.old) (said r) (K.told keeper.new)) }
    ensures whole { IfOk result IsReply }
    ensures reached { IsErrOf result Failed → ReachesView name.now sessions.now }
    ensures kept { AreKept app.now (K.told keeper.new) moment sessions.now caches.new.items }
    ensures clean { EachCacheBecame (λ k. StaysCleanExcept app.now []) caches.old.items
        caches.new.items }
    ensures costs { IfOk result (λ r. CostsTo
        (CostOfView app.now (K.told keeper.new) moment (said r)) name.now
        (find name.now sessions.now) caches.old.items caches.new.items
        (counts steps.old (K.visited keeper.old)) (counts steps.new (K.visited keeper.new))) }
    ensures read { HasRead K.Keeper keeper.old keeper.new }
    ensures cause { HasCause K.Keeper keeper.old keeper.new result }
{
    let Some(place) = place_of(sessions, name) else {
        return Ok(Reply::refuse_plain(alloc, 11)?);
    };
    let session = &sessions[place].it;
    show_view(
        alloc,
        app,
        session,
        &mut caches[place].it,
        keeper,
        moment,
        steps,
    )
}

/// Shows a live session the items of a gallery from a position on, of which 0 counts as 1. `Failed`
/// only where the keeper counted a fault.
#[tactic(auto, using(crate::proofs::StepLemmas::read_nothing, crate::proofs::Leaving::each_same))]
pub(crate) fn show_items_to<K: Keeper, L: Ledger>(
    alloc: Global,
    app: &App,
    sessions: &[Named<Session>],
    caches: &mut Vec<Named<Cache>>,
    keeper: &mut K,
    name: &Words,
    gallery: &Words,
    from: u32,
    moment: u64,
    steps: &mut Steps<L>,
) -> Result<Reply, KeeperEnd>
    requires sound { IsSoundApp app.now }
    requires fit { LiveSessionsFit app.now.names sessions.now }
    requires kept { AreKept app.now (K.told keeper.old) moment sessions.now caches.old.items }
    requires shaped { K.shaped keeper.old ≡ by app.now.names.schema }
    ensures done { IfOk result (λ r. ShowsItems
        (SilenceCause (K.marks keeper.old) (K.marks keeper.new)) moment app.now name.now gallery.now
        from sessions.now (K.told keeper.old) (said r) (K.told keeper.new)) }
    ensures whole { IfOk result IsReply }
    ensures reached { IsErrOf result Failed → ReachesItems app.now name.now gallery.now sessions.now }
    ensures kept { AreKept app.now (K.told keeper.new) moment sessions.now caches.new.items }
    ensures clean { EachCacheBecame (λ k. StaysCleanExcept app.now []) caches.old.items
        caches.new.items }
    ensures costs { IfOk result (λ r. CostsTo
        (CostOfItems app.now (K.told keeper.new) moment from
        (gallery_named gallery.now app.now.names) (said r)) name.now (find name.now sessions.now)
        caches.old.items caches.new.items (counts steps.old (K.visited keeper.old))
        (counts steps.new (K.visited keeper.new))) }
    ensures read { HasRead K.Keeper keeper.old keeper.new }
    ensures cause { HasCause K.Keeper keeper.old keeper.new result }
{
    let Some(place) = place_of(sessions, name) else {
        return Ok(Reply::refuse_plain(alloc, 11)?);
    };
    let session = &sessions[place].it;
    let cache = &mut caches[place].it;
    show_items(
        alloc, app, session, cache, keeper, gallery, from, moment, steps,
    )
}

/// Shows the named formulas to a live session. `Failed` only where the keeper counted a fault.
#[tactic(auto, using(crate::proofs::StepLemmas::read_nothing, crate::proofs::Leaving::each_same))]
pub(crate) fn show_named<K: Keeper, L: Ledger>(
    alloc: Global,
    app: &App,
    sessions: &[Named<Session>],
    caches: &mut Vec<Named<Cache>>,
    keeper: &mut K,
    name: &Words,
    moment: u64,
    steps: &mut Steps<L>,
) -> Result<Reply, KeeperEnd>
    requires sound { IsSoundApp app.now }
    requires fit { LiveSessionsFit app.now.names sessions.now }
    requires kept { AreKept app.now (K.told keeper.old) moment sessions.now caches.old.items }
    requires shaped { K.shaped keeper.old ≡ by app.now.names.schema }
    ensures done { IfOk result (λ r. ShowsNamed
        (SilenceCause (K.marks keeper.old) (K.marks keeper.new)) moment app.now name.now
        sessions.now (K.told keeper.old) (said r) (K.told keeper.new)) }
    ensures whole { IfOk result IsReply }
    ensures reached { IsErrOf result Failed → ReachesNamed name.now sessions.now }
    ensures kept { AreKept app.now (K.told keeper.new) moment sessions.now caches.new.items }
    ensures clean { EachCacheBecame (λ k. StaysCleanExcept app.now []) caches.old.items
        caches.new.items }
    ensures costs { OnOk result (CostsTo (CostOfNamed app.now (K.told keeper.new) moment) name.now
        (find name.now sessions.now) caches.old.items caches.new.items
        (counts steps.old (K.visited keeper.old)) (counts steps.new (K.visited keeper.new))) }
    ensures read { HasRead K.Keeper keeper.old keeper.new }
    ensures cause { HasCause K.Keeper keeper.old keeper.new result }
{
    // The law is called for what it says of a session that fits.
    fitting_holds();
    let Some(place) = place_of(sessions, name) else {
        return Ok(Reply::refuse_plain(alloc, 11)?);
    };
    let session = &sessions[place].it;
    let cache = &mut caches[place].it;
    let body = named_body(alloc, app, session, cache, keeper, moment, steps)?;
    Ok(Reply::accept(alloc, &body)?)
}
