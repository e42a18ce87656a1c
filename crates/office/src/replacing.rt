//! A desk replaces the whole app, and the tables move.
ghost use Rattle.std.specs.Prelude.{◌≡◌, ◌<◌, ◌^◌, ℕ, IfOk, IsErrOf, None, OnErr, OnOk, Some};
ghost use Rattle.std.specs.Prelude.{length, map, option_and_then, option_map, vec_capacity};
ghost use Rattle.std.specs.Prelude.{vec_len};
ghost use Rattle.serde_json.specs.View.{view as json_view};
ghost use Rattle.app_moves.specs.Refusals.{moves_refusal as refusal_of_moves};
ghost use Rattle.app_replacements.specs.Bodies.{app_in as app_of};
ghost use Rattle.numbered_requests.specs.Directory.{put_named};
ghost use Rattle.numbered_requests.specs.Replies.{IsReply, said};
ghost use Rattle.recalc.specs.Carrying.{IsBegunAnew};
ghost use Rattle.row_keeper.specs.Over.{HasCause};
ghost use Rattle.row_keeper.specs.declared.keeper.KeeperEnd.TheVariants.{Failed};
ghost use Rattle.office.specs.Caches.{EachCacheBecame, HaveRoomFor, IsButRoom};
ghost use Rattle.office.specs.Leaving.{ReplacementLeaves, nothing};
ghost use Rattle.office.specs.Replacing.{IsAccepted, MovesEnd, PostsApp, ReachesApp};
ghost use Rattle.office.specs.Replacing.{ReachesMoves, RefusesRows, Replaces, all_over, app_given};
ghost use Rattle.office.specs.Rooms.{HaveNoRoom, HaveRoom, with_room, without_room};
ghost use Rattle.office.specs.Served.{BecomesServed, IsReady, StaysServed, office_of, served};
ghost use Rattle.office.specs.Served.{silence};
ghost use Rattle.office.specs.State.{schema_of};
ghost use Rattle.office.specs.Step.{Left};

use crate::accepting::{Accepted, accept, keep, refuse};
use crate::carrying::{carry_over, drop_room, make_room};
use crate::keeping::{begin_all_anew, make_rooms};
use app_cells::App;
use app_loader::{load_value, loaded_value};
use app_moves::{move_tables, moves_refusal, rows_refusal};
use app_replacements::Replacement;
use app_replacements::body::app_in;
use fx_base::Memory;
use fx_core::AppEnd;
use fx_types::Words;
use numbered_requests::{Checked, Named, Reply, check_desk_json, json_of};
use recalc::Cache;
use row_keeper::{Keeper, KeeperEnd, Reshaped, RowRefusal};
use serde_json::Value as Json;
use session_state::{Desk, Session};
use std::alloc::Global;

/// A desk replaces the whole app, under a number, and the tables move to the new one in one
/// transaction. The reply is kept; or nothing changes and the reply is a refusal: no JSON (9),
/// another shape (10), a desk too many (12), another number (13, 14), the rules that the new app
/// breaks (24), or the first rule that a move, a column's type or a moved row breaks (27). The last
/// request once more gets the kept reply. Each session goes over to the new app, and its cache
/// begins anew. No formula that acts runs. All memory is taken before the transaction ends.
pub(crate) fn post_app<K: Keeper>(
    alloc: Global,
    app: &mut App,
    keeper: &mut K,
    sessions: &mut Vec<Named<Session>>,
    caches: &mut Vec<Named<Cache>>,
    desks: &mut Vec<Named<Desk>>,
    name: &Words,
    body: &[u8],
) -> Result<Reply, KeeperEnd>
    requires { (moment : ℕ) × IsReady (served K.Keeper app.old keeper.old sessions.old.items
        desks.old.items caches.old.items) moment }
    ensures done { IfOk result (λ r. PostsApp (silence K.Keeper keeper.old keeper.new) name.now
        body.now (office_of K.Keeper app.old keeper.old sessions.old.items desks.old.items) (said r)
        (office_of K.Keeper app.new keeper.new sessions.new.items desks.new.items)) }
    ensures whole { IfOk result IsReply }
    ensures stopped { OnErr result (Left (silence K.Keeper keeper.old keeper.new)
        (office_of K.Keeper app.old keeper.old sessions.old.items desks.old.items)
        (office_of K.Keeper app.new keeper.new sessions.new.items desks.new.items)) }
    ensures reached { IsErrOf result Failed → ReachesApp name.now body.now
        (office_of K.Keeper app.old keeper.old sessions.old.items desks.old.items) }
    ensures ready { (moment : ℕ) → IsReady (served K.Keeper app.old keeper.old sessions.old.items
        desks.old.items caches.old.items) moment → IsReady (served K.Keeper app.new keeper.new
        sessions.new.items desks.new.items caches.new.items) moment }
    ensures clean { ReplacementLeaves name.now body.now nothing
        (office_of K.Keeper app.old keeper.old sessions.old.items desks.old.items)
        (office_of K.Keeper app.new keeper.new sessions.new.items desks.new.items)
        caches.old.items caches.new.items }
    ensures cause { HasCause K.Keeper keeper.old keeper.new result }
    ensures loan { K.loan keeper.new ≡ K.loan keeper.old }
{
    let json = json_of(alloc, body)?;
    match check_desk_json::<Replacement>(alloc, desks, name, body, json.as_ref())? {
        Checked::Says(reply) => Ok(reply),
        Checked::Acts(asked) => match given_in(json.as_ref()) {
            Some(given) => replace(
                alloc, app, keeper, sessions, caches, desks, name, body, &asked, given,
            ),
            // A body of the shape has an app.
            None => unreachable!(),
        },
    }
}

/// The app that is to come, where the JSON of a body has one.
fn given_in(json: Option<&Json>) -> Option<&Json>
    ensures { option_map (λ app. json_view app.now) result
        ≡ option_and_then app_of (option_map (λ j. json_view j.now) json.entry) }
{
    app_in(json?)
}

/// Makes a replacement that passed the checks of numbered requests. `given` is the app that it
/// gives, as JSON.
fn replace<K: Keeper>(
    alloc: Global,
    app: &mut App,
    keeper: &mut K,
    sessions: &mut Vec<Named<Session>>,
    caches: &mut Vec<Named<Cache>>,
    desks: &mut Vec<Named<Desk>>,
    name: &Words,
    body: &[u8],
    asked: &Replacement,
    given: &Json,
) -> Result<Reply, KeeperEnd>
    requires ready { (moment : ℕ) × IsReady (served K.Keeper app.old keeper.old sessions.old.items
        desks.old.items caches.old.items) moment }
    requires given { app_given body.now ≡ Some (json_view given.now) }
    ensures done { IfOk result (λ r. Replaces (silence K.Keeper keeper.old keeper.new) name.now
        body.now asked.now
        (office_of K.Keeper app.old keeper.old sessions.old.items desks.old.items) (said r)
        (office_of K.Keeper app.new keeper.new sessions.new.items desks.new.items)) }
    ensures whole { IfOk result IsReply }
    ensures becomes { IfOk result (λ r. BecomesServed (silence K.Keeper keeper.old keeper.new)
        name.now body.now asked.now
        (served K.Keeper app.old keeper.old sessions.old.items desks.old.items caches.old.items)
        (served K.Keeper app.new keeper.new sessions.new.items desks.new.items caches.new.items)) }
    ensures stopped { OnErr result (StaysServed (silence K.Keeper keeper.old keeper.new)
        (served K.Keeper app.old keeper.old sessions.old.items desks.old.items caches.old.items)
        (served K.Keeper app.new keeper.new sessions.new.items desks.new.items caches.new.items)) }
    ensures reached { IsErrOf result Failed → ReachesMoves name.now body.now asked.now
        (office_of K.Keeper app.old keeper.old sessions.old.items desks.old.items) }
    ensures cause { HasCause K.Keeper keeper.old keeper.new result }
    ensures loan { K.loan keeper.new ≡ K.loan keeper.old }
{
    loaded_value();
    match load_value(alloc, given) {
        Ok(coming) => go_over(
            alloc, app, keeper, sessions, caches, desks, name, body, asked, coming,
        ),
        Err(AppEnd::Refused(breaks)) => Ok(refuse(alloc, &breaks)?),
        Err(AppEnd::Memory) => Err(KeeperEnd::Memory),
    }
}

/// The office goes over to an accepted app, unless its moves are refused.
fn go_over<K: Keeper>(
    alloc: Global,
    app: &mut App,
    keeper: &mut K,
    sessions: &mut Vec<Named<Session>>,
    caches: &mut Vec<Named<Cache>>,
    desks: &mut Vec<Named<Desk>>,
    name: &Words,
    body: &[u8],
    asked: &Replacement,
    coming: App,
) -> Result<Reply, KeeperEnd>
    requires ready { (moment : ℕ) × IsReady (served K.Keeper app.old keeper.old sessions.old.items
        desks.old.items caches.old.items) moment }
    requires accepted { IsAccepted coming }
    ensures done { IfOk result (λ r. MovesEnd (silence K.Keeper keeper.old keeper.new) name.now
        body.now asked.now coming
        (refusal_of_moves (schema_of app.old).tables (schema_of coming).tables asked.now.moves)
        (office_of K.Keeper app.old keeper.old sessions.old.items desks.old.items) (said r)
        (office_of K.Keeper app.new keeper.new sessions.new.items desks.new.items)) }
    ensures whole { IfOk result IsReply }
    ensures becomes { IfOk result (λ r. BecomesServed (silence K.Keeper keeper.old keeper.new)
        name.now body.now asked.now
        (served K.Keeper app.old keeper.old sessions.old.items desks.old.items caches.old.items)
        (served K.Keeper app.new keeper.new sessions.new.items desks.new.items caches.new.items)) }
    ensures stopped { OnErr result (StaysServed (silence K.Keeper keeper.old keeper.new)
        (served K.Keeper app.old keeper.old sessions.old.items desks.old.items caches.old.items)
        (served K.Keeper app.new keeper.new sessions.new.items desks.new.items caches.new.items)) }
    ensures fine { IsErrOf result Failed → refusal_of_moves (schema_of app.old).tables
        (schema_of coming).tables asked.now.moves ≡ None }
    ensures cause { HasCause K.Keeper keeper.old keeper.new result }
    ensures loan { K.loan keeper.new ≡ K.loan keeper.old }
{
    let olds = app.names.schema.tables.as_slice();
    let news = coming.names.schema.tables.as_slice();
    match moves_refusal(alloc, olds, news, asked.moves.as_slice())? {
        Some(refusal) => Ok(Reply::refuse(alloc, &refusal)?),
        None => move_over(
            alloc, app, keeper, sessions, caches, desks, name, body, asked, coming,
        ),
    }
}

/// The tables move, and the office with them; or a moved row breaks a rule, or it stops, and all is
/// as before. Its moves break no rule before a row is looked at.
fn move_over<K: Keeper>(
    alloc: Global,
    app: &mut App,
    keeper: &mut K,
    sessions: &mut Vec<Named<Session>>,
    caches: &mut Vec<Named<Cache>>,
    desks: &mut Vec<Named<Desk>>,
    name: &Words,
    body: &[u8],
    asked: &Replacement,
    coming: App,
) -> Result<Reply, KeeperEnd>
    requires ready { (moment : ℕ) × IsReady (served K.Keeper app.old keeper.old sessions.old.items
        desks.old.items caches.old.items) moment }
    requires accepted { IsAccepted coming }
    requires fine { refusal_of_moves (schema_of app.old).tables (schema_of coming).tables
        asked.now.moves ≡ None }
    ensures done { IfOk result (λ r. MovesEnd (silence K.Keeper keeper.old keeper.new) name.now
        body.now asked.now coming None
        (office_of K.Keeper app.old keeper.old sessions.old.items desks.old.items) (said r)
        (office_of K.Keeper app.new keeper.new sessions.new.items desks.new.items)) }
    ensures whole { IfOk result IsReply }
    ensures becomes { IfOk result (λ r. BecomesServed (silence K.Keeper keeper.old keeper.new)
        name.now body.now asked.now
        (served K.Keeper app.old keeper.old sessions.old.items desks.old.items caches.old.items)
        (served K.Keeper app.new keeper.new sessions.new.items desks.new.items caches.new.items)) }
    ensures stopped { OnErr result (StaysServed (silence K.Keeper keeper.old keeper.new)
        (served K.Keeper app.old keeper.old sessions.old.items desks.old.items caches.old.items)
        (served K.Keeper app.new keeper.new sessions.new.items desks.new.items caches.new.items)) }
    ensures cause { HasCause K.Keeper keeper.old keeper.new result }
    ensures loan { K.loan keeper.new ≡ K.loan keeper.old }
{
    let accepted = accept(alloc, name, asked.seq, body)?;
    take_room(sessions, caches, desks, &coming)?;
    let olds = &app.names.schema;
    let news = &coming.names.schema;
    match move_tables(alloc, keeper, olds, news, asked.moves.as_slice()) {
        Ok(Reshaped::Done) => Ok(settle(
            alloc, app, sessions, caches, desks, asked.seq, coming, accepted,
        )),
        Ok(Reshaped::Broken(table, broken)) => {
            give_room_back(sessions);
            Ok(refuse_rows(alloc, &coming, table, broken)?)
        }
        Err(end) => {
            give_room_back(sessions);
            Err(end)
        }
    }
}

/// Takes all memory that going over to an app needs beside its reply; or there is none, and the
/// sessions, the desks and what the caches keep are as before.
fn take_room(
    sessions: &mut Vec<Named<Session>>,
    caches: &mut Vec<Named<Cache>>,
    desks: &mut Vec<Named<Desk>>,
    coming: &App,
) -> Result<(), Memory>
    requires { HaveNoRoom sessions.old.items }
    ensures sessions { OnOk result (sessions.new.items
        ≡ map (with_room coming.now.names) sessions.old.items) }
    ensures stopped { OnErr result (sessions.new.items ≡ sessions.old.items) }
    ensures caches { EachCacheBecame (λ k. IsButRoom) caches.old.items caches.new.items }
    ensures rooms { OnOk result (HaveRoomFor coming.now caches.new.items) }
    ensures desks { desks.new.items ≡ desks.old.items }
    ensures room { OnOk result (vec_len desks.new < vec_capacity desks.new) }
{
    desks.reserve(1)?;
    make_rooms(caches, coming)?;
    make_room(sessions, &coming.names)
}

/// Gives the room beside sessions back that was taken for an app that doesn't come.
fn give_room_back(sessions: &mut Vec<Named<Session>>)
    ensures { sessions.new.items ≡ map without_room sessions.old.items }
{
    drop_room(sessions);
}

/// The refusal of moved rows, where the keeper named the new table and the rule that one breaks.
fn refuse_rows(alloc: Global, coming: &App, table: u16, broken: RowRefusal) -> Result<Reply, Memory>
    requires { table < length (schema_of coming.now).tables }
    ensures said { IfOk result (λ r. RefusesRows coming.now table broken (said r)) }
    ensures whole { IfOk result IsReply }
{
    let tables = coming.names.schema.tables.as_slice();
    let refusal = rows_refusal(alloc, tables, table, broken)?;
    Reply::refuse(alloc, &refusal)
}

/// Sessions and caches go over to the app that comes, which takes the place of the old one, and the
/// desk is answered. It takes no memory.
fn settle(
    alloc: Global,
    app: &mut App,
    sessions: &mut Vec<Named<Session>>,
    caches: &mut Vec<Named<Cache>>,
    desks: &mut Vec<Named<Desk>>,
    seq: u32,
    coming: App,
    accepted: Accepted,
) -> Reply
    requires sessions { HaveRoom coming.names sessions.old.items }
    requires screens { length coming.names.screens < 2 ^ 32 }
    requires caches { HaveRoomFor coming caches.old.items }
    requires desks { vec_len desks.old < vec_capacity desks.old }
    ensures reply { result ≡ accepted.reply }
    ensures app { app.new ≡ coming }
    ensures sessions { sessions.new.items
        ≡ all_over app.old.names coming.names sessions.old.items }
    ensures desks { desks.new.items ≡ put_named accepted.name
        (record { last = seq; body = accepted.body.items; reply = accepted.kept.items })
        desks.old.items }
    ensures caches { EachCacheBecame (λ k. IsBegunAnew coming) caches.old.items caches.new.items }
{
    carry_over(sessions, &app.names, &coming.names);
    begin_all_anew(caches, &coming);
    *app = coming;
    keep(alloc, desks, seq, accepted)
}
