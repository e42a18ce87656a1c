//! A desk edits a formula.
ghost use Rattle.std.specs.Prelude.{◌≡◌, ℕ, IfOk, OnErr, OnOk, Option};
ghost use Rattle.app_loader.specs.app_texts.Frames.{app_frame};
ghost use Rattle.app_loader.specs.Edits.{IsLoaded};
ghost use Rattle.app_loader.specs.app_semantics.Sound.{IsSoundApp};
ghost use Rattle.office.specs.Caches.{EachCacheBecame, AreKept, WentOver};
ghost use Rattle.office.specs.DeskEdits.{MakesEdit, PostsEdit, all_carried};
ghost use Rattle.session_views.specs.Shows.{LiveSessionsFit};
ghost use Rattle.numbered_requests.specs.Checked.{SessionsKeepReplies};
ghost use Rattle.numbered_requests.specs.Replies.{IsReply, KeepReplies, said};
ghost use Rattle.row_keeper.specs.Tables.{Tables};
ghost use Rattle.session_state.specs.Changes.{HoldsTables};

use crate::accepting::{accept, keep, refuse};
use crate::carrying::{carry, make_room};
use crate::keeping::{carry_all, make_rooms};
use app_cells::App;
use app_loader::edit;
use fx_base::Memory;
use fx_core::AppEnd;
use fx_types::Words;
use numbered_requests::{Checked, Edit, Named, Reply, check_desk};
use recalc::{Cache, old_cells};
use session_state::{Desk, Session};
use std::alloc::Global;

/// A desk edits a formula, under a number. The app becomes the edited one, and the reply is kept;
/// or nothing changes and the reply is a refusal: no JSON (9), another shape (10), a desk too many
/// (12), another number (13, 14), or the rules that the edited app breaks (24). The last request
/// once more gets the kept reply. Nothing but the app's formulas, this desk's record and what
/// sessions hold can change: each session goes over to the edited app, and its cache with what the
/// edit left. All memory is taken before.
#[tactic(auto, using(crate::proofs::GoingOver::each_left))]
pub fn post_edit(
    alloc: Global,
    app: &mut App,
    sessions: &mut Vec<Named<Session>>,
    caches: &mut Vec<Named<Cache>>,
    desks: &mut Vec<Named<Desk>>,
    name: &Words,
    body: &[u8],
) -> Result<Reply, Memory>
    requires loaded { IsLoaded app.old }
    requires sound { IsSoundApp app.old }
    requires tables { HoldsTables app.old.names }
    requires fit { LiveSessionsFit app.old.names sessions.old.items }
    requires kept { KeepReplies desks.old.items }
    requires replies { SessionsKeepReplies sessions.old.items }
    requires cached { (told : Option Tables) × (moment : ℕ)
        × AreKept app.old told moment sessions.old.items caches.old.items }
    ensures done { IfOk result (λ r. PostsEdit name.now body.now
        (record { app = app.old; sessions = sessions.old.items; desks = desks.old.items }) (said r)
        (record { app = app.new; sessions = sessions.new.items; desks = desks.new.items })) }
    ensures whole { IfOk result IsReply }
    ensures app { OnErr result (app.new ≡ app.old) }
    ensures sessions { OnErr result (sessions.new.items ≡ sessions.old.items) }
    ensures desks { OnErr result (desks.new.items ≡ desks.old.items) }
    ensures loaded { IsLoaded app.new }
    ensures sound { IsSoundApp app.new }
    ensures tables { HoldsTables app.new.names }
    ensures frame { app_frame app.new ≡ app_frame app.old }
    ensures fit { LiveSessionsFit app.new.names sessions.new.items }
    ensures kept { KeepReplies desks.new.items }
    ensures replies { SessionsKeepReplies sessions.new.items }
    ensures caches { (told : Option Tables) (moment : ℕ)
        → AreKept app.old told moment sessions.old.items caches.old.items
        → AreKept app.new told moment sessions.new.items caches.new.items }
    ensures over { EachCacheBecame (λ k. WentOver app.old app.new) caches.old.items caches.new.items }
{
    match check_desk::<Edit>(alloc, desks, name, body)? {
        Checked::Says(reply) => Ok(reply),
        Checked::Acts(asked) => make_edit(alloc, app, sessions, caches, desks, name, body, &asked),
    }
}

/// Makes an edit that passed the checks of numbered requests.
#[tactic(auto, using(crate::proofs::GoingOver::each_left))]
fn make_edit(
    alloc: Global,
    app: &mut App,
    sessions: &mut Vec<Named<Session>>,
    caches: &mut Vec<Named<Cache>>,
    desks: &mut Vec<Named<Desk>>,
    name: &Words,
    body: &[u8],
    asked: &Edit,
) -> Result<Reply, Memory>
    requires loaded { IsLoaded app.old }
    requires sound { IsSoundApp app.old }
    requires tables { HoldsTables app.old.names }
    requires fit { LiveSessionsFit app.old.names sessions.old.items }
    requires kept { KeepReplies desks.old.items }
    requires replies { SessionsKeepReplies sessions.old.items }
    requires cached { (told : Option Tables) × (moment : ℕ)
        × AreKept app.old told moment sessions.old.items caches.old.items }
    ensures done { IfOk result (λ r. MakesEdit name.now body.now asked.now
        (record { app = app.old; sessions = sessions.old.items; desks = desks.old.items }) (said r)
        (record { app = app.new; sessions = sessions.new.items; desks = desks.new.items })) }
    ensures whole { IfOk result IsReply }
    ensures app { OnErr result (app.new ≡ app.old) }
    ensures sessions { OnErr result (sessions.new.items ≡ sessions.old.items) }
    ensures desks { OnErr result (desks.new.items ≡ desks.old.items) }
    ensures loaded { IsLoaded app.new }
    ensures sound { IsSoundApp app.new }
    ensures tables { HoldsTables app.new.names }
    ensures frame { app_frame app.new ≡ app_frame app.old }
    ensures fit { LiveSessionsFit app.new.names sessions.new.items }
    ensures kept { KeepReplies desks.new.items }
    ensures replies { SessionsKeepReplies sessions.new.items }
    ensures caches { (told : Option Tables) (moment : ℕ)
        → AreKept app.old told moment sessions.old.items caches.old.items
        → AreKept app.new told moment sessions.new.items caches.new.items }
    ensures over { EachCacheBecame (λ k. WentOver app.old app.new) caches.old.items caches.new.items }
{
    let accepted = accept(alloc, name, asked.seq, body)?;
    desks.reserve(1)?;
    match edit(alloc, app, asked.cell.as_str(), asked.text.as_str()) {
        Ok(edited) => {
            go_over(alloc, app, edited, sessions, caches)?;
            Ok(keep(alloc, desks, asked.seq, accepted))
        }
        Err(AppEnd::Refused(breaks)) => refuse(alloc, &breaks),
        Err(AppEnd::Memory) => Err(Memory),
    }
}

/// The app becomes an edited one, and sessions and caches go over to it; or there is no memory, and
/// the app, the sessions and what the caches keep are as before.
fn go_over(
    alloc: Global,
    app: &mut App,
    edited: App,
    sessions: &mut Vec<Named<Session>>,
    caches: &mut Vec<Named<Cache>>,
) -> Result<(), Memory>
    requires sound { IsSoundApp app.old }
    requires edited { IsSoundApp edited }
    requires frame { app_frame edited ≡ app_frame app.old }
    requires fit { LiveSessionsFit app.old.names sessions.old.items }
    requires cached { (told : Option Tables) × (moment : ℕ)
        × AreKept app.old told moment sessions.old.items caches.old.items }
    ensures app { OnOk result (app.new ≡ edited) }
    ensures sessions { OnOk result (sessions.new.items
        ≡ all_carried app.old.names edited.names sessions.old.items) }
    ensures stopped { OnErr result (app.new ≡ app.old) }
    ensures stayed { OnErr result (sessions.new.items ≡ sessions.old.items) }
    ensures kept { (told : Option Tables) (moment : ℕ)
        → AreKept app.old told moment sessions.old.items caches.old.items
        → AreKept app.new told moment sessions.new.items caches.new.items }
    ensures over { EachCacheBecame (λ k. WentOver app.old app.new) caches.old.items caches.new.items }
{
    carry_over(alloc, app, &edited, sessions, caches)?;
    *app = edited;
    Ok(())
}

/// Sessions and caches go over to an edited app; or there is no memory, and the sessions and what
/// the caches keep are as before. All memory is taken before anything goes over.
fn carry_over(
    alloc: Global,
    app: &App,
    edited: &App,
    sessions: &mut Vec<Named<Session>>,
    caches: &mut Vec<Named<Cache>>,
) -> Result<(), Memory>
    requires sound { IsSoundApp app.now }
    requires edited { IsSoundApp edited.now }
    requires frame { app_frame edited.now ≡ app_frame app.now }
    requires fit { LiveSessionsFit app.now.names sessions.old.items }
    requires cached { (told : Option Tables) × (moment : ℕ)
        × AreKept app.now told moment sessions.old.items caches.old.items }
    ensures sessions { OnOk result (sessions.new.items
        ≡ all_carried app.now.names edited.now.names sessions.old.items) }
    ensures stopped { OnErr result (sessions.new.items ≡ sessions.old.items) }
    ensures kept { OnOk result ((told : Option Tables) (moment : ℕ)
        → AreKept app.now told moment sessions.old.items caches.old.items
        → AreKept edited.now told moment sessions.new.items caches.new.items) }
    ensures stayed { OnErr result ((told : Option Tables) (moment : ℕ)
        → AreKept app.now told moment sessions.old.items caches.old.items
        → AreKept app.now told moment sessions.new.items caches.new.items) }
    ensures over { OnOk result (EachCacheBecame (λ k. WentOver app.now edited.now) caches.old.items
        caches.new.items) }
    ensures left { OnErr result (EachCacheBecame (λ k. WentOver app.now app.now) caches.old.items
        caches.new.items) }
{
    let cells = old_cells(alloc, app, edited)?;
    make_rooms(caches, edited)?;
    make_room(sessions, &edited.names)?;
    carry(sessions, &app.names, &edited.names);
    carry_all(caches, app, edited, &cells);
    Ok(())
}
