//! What is shown to sessions.
ghost use Rattle.std.specs.Prelude.{◌≡◌, [], IfOk, IsErrOf, IsSome, OnOk, Some};
ghost use Rattle.session_views.specs.Bounds.{AreMade};
ghost use Rattle.session_views.specs.Galleries.{gallery_named as named_gallery};
ghost use Rattle.session_views.specs.Looking.{is_on_screen};
ghost use Rattle.session_views.specs.Ready.{IsGalleryOf};
ghost use Rattle.session_views.specs.Shows.{CostsItems, CostsView, MakesItems, SaysItemsOf};
ghost use Rattle.session_views.specs.Shows.{ShowsItemsTo, ShowsViewTo, VisitsItems, VisitsView};
ghost use Rattle.session_views.specs.Shows.{items_reply as reply_of_items};
ghost use Rattle.app_wire.specs.ReplyBytes.{reply};
ghost use Rattle.recalc.specs.AskingOver.{HasRead};
ghost use Rattle.recalc.specs.app_semantics.Present.{present};
ghost use Rattle.recalc.specs.app_semantics.Sound.{IsSoundApp};
ghost use Rattle.fx_base.specs.Silence.{SilenceCause};
ghost use Rattle.fx_scalar.specs.ScalarFunctions.{IsToday};
ghost use Rattle.recalc.specs.Changes.{StaysCleanExcept};
ghost use Rattle.recalc.specs.Kept.{HasNumbersLeft, IsInOrder};
ghost use Rattle.recalc.specs.Outcomes.{IsRightOver};
ghost use Rattle.recalc.specs.Steps.{KeepsClean};
ghost use Rattle.recalc.specs.Visits.{WhereTold};
ghost use Rattle.numbered_requests.specs.Replies.{IsReply, said};
ghost use Rattle.row_keeper.specs.Over.{HasCause};
ghost use Rattle.row_keeper.specs.Tables.{rows_told};
ghost use Rattle.row_keeper.specs.declared.keeper.KeeperEnd.TheVariants.{Failed};
ghost use Rattle.row_keeper.specs.Shaped.{by};
ghost use Rattle.session_state.specs.Changes.{FitsNames};
ghost use Rattle.view_text.specs.ViewText.{view_text};

use crate::app_cells::App;
use crate::app_semantics::fitting_holds;
use crate::items::{gallery_named, items_of};
use crate::view::view_of;
use fx_base::Memory;
use fx_types::Words;
use numbered_requests::Reply;
use recalc::{Cache, Steps};
use row_keeper::{Keeper, KeeperEnd};
use session_state::Session;
use std::alloc::Global;
use std::sync::ledger::Ledger;
use view_text::{Items, View, items_json, view_json};

/// Shows a live session its view over the rows of a keeper at a moment, in seconds since 1970-01-01
/// UTC. What is kept for it is right afterwards, also where it stops; the cells to which the view
/// looks are then clean, and what was clean stays so. `Failed` only where the keeper counted a
/// fault.
pub fn show_view<K: Keeper, L: Ledger>(
    alloc: Global,
    app: &App,
    session: &Session,
    cache: &mut Cache,
    keeper: &mut K,
    moment: u64,
    steps: &mut Steps<L>,
) -> Result<Reply, KeeperEnd>
    requires sound { IsSoundApp app.now }
    requires fits { FitsNames app.now.names session.now }
    requires shaped { K.shaped keeper.old ≡ by app.now.names.schema }
    requires day { IsToday moment cache.old.values.day }
    requires order { IsInOrder app.now cache.old }
    requires right { ∥ IsRightOver app.now session.now (K.told keeper.old) moment cache.old ∥₁ }
    ensures done { IfOk result (λ r. ShowsViewTo
        (SilenceCause (K.marks keeper.old) (K.marks keeper.new)) app.now moment (Some session.now)
        (K.told keeper.old) (said r) (K.told keeper.new)) }
    ensures whole { IfOk result IsReply }
    ensures order { IsInOrder app.now cache.new }
    ensures right { ∥ IsRightOver app.now session.now (K.told keeper.new) moment cache.new ∥₁ }
    ensures day { cache.new.values.day ≡ cache.old.values.day }
    ensures left { HasNumbersLeft cache.old.last → KeepsClean app.now cache.old cache.new }
    ensures but { StaysCleanExcept app.now [] cache.old cache.new }
    ensures made { OnOk result (AreMade app.now (is_on_screen app.now.names session.now.screen)
        cache.new) }
    ensures ticks { IfOk result (λ r. HasNumbersLeft cache.old.last
        → CostsView app.now session.now cache.old cache.new steps.old steps.new (said r)) }
    ensures visits { IfOk result (λ r. HasNumbersLeft cache.old.last
        → WhereTold (K.told keeper.new) (λ told. VisitsView app.now session.now told moment
        cache.old cache.new steps.old (K.visited keeper.old) (K.visited keeper.new) (said r))) }
    ensures read { HasRead K.Keeper keeper.old keeper.new }
    ensures cause { HasCause K.Keeper keeper.old keeper.new result }
{
    fitting_holds();
    let view = view_of(alloc, app, session, cache, keeper, moment, steps)?;
    Ok(view_reply(alloc, &view)?)
}

// The reply that shows a view.
fn view_reply(alloc: Global, view: &View) -> Result<Reply, Memory>
    ensures done { IfOk result (λ r. said r ≡ reply 200 (view_text view.now)) }
    ensures whole { IfOk result IsReply }
{
    let body = view_json(alloc, view)?;
    Reply::accept(alloc, &body)
}

/// Shows a live session the items of a gallery from a position on, of which 0 counts as 1, over the
/// rows of a keeper at a moment in seconds since 1970-01-01 UTC: a hundred at most. It is refused
/// of no such gallery (15), and of one that isn't on the current screen or isn't visible (17). What
/// is kept for it is right afterwards, also where it stops; the cells to which the items look are
/// then clean, and what was clean stays so. `Failed` only where the keeper counted a fault.
#[tactic(auto, using(recalc::proofs::Asked::read_none, crate::proofs::Needing::leaves_none, recalc::proofs::Leaving::left_same))]
pub fn show_items<K: Keeper, L: Ledger>(
    alloc: Global,
    app: &App,
    session: &Session,
    cache: &mut Cache,
    keeper: &mut K,
    gallery: &Words,
    from: u32,
    moment: u64,
    steps: &mut Steps<L>,
) -> Result<Reply, KeeperEnd>
    requires sound { IsSoundApp app.now }
    requires fits { FitsNames app.now.names session.now }
    requires shaped { K.shaped keeper.old ≡ by app.now.names.schema }
    requires day { IsToday moment cache.old.values.day }
    requires order { IsInOrder app.now cache.old }
    requires right { ∥ IsRightOver app.now session.now (K.told keeper.old) moment cache.old ∥₁ }
    ensures done { IfOk result (λ r. ShowsItemsTo
        (SilenceCause (K.marks keeper.old) (K.marks keeper.new)) app.now moment gallery.now from
        (Some session.now) (K.told keeper.old) (said r) (K.told keeper.new)) }
    ensures whole { IfOk result IsReply }
    ensures reached { IsErrOf result Failed → IsSome (named_gallery gallery.now app.now.names) }
    ensures order { IsInOrder app.now cache.new }
    ensures right { ∥ IsRightOver app.now session.now (K.told keeper.new) moment cache.new ∥₁ }
    ensures day { cache.new.values.day ≡ cache.old.values.day }
    ensures left { HasNumbersLeft cache.old.last → KeepsClean app.now cache.old cache.new }
    ensures but { StaysCleanExcept app.now [] cache.old cache.new }
    ensures made { OnOk result (MakesItems app.now (named_gallery gallery.now app.now.names)
        cache.new) }
    ensures ticks { IfOk result (λ r. HasNumbersLeft cache.old.last
        → CostsItems app.now (named_gallery gallery.now app.now.names) cache.old cache.new steps.old
        steps.new (said r)) }
    ensures visits { IfOk result (λ r. HasNumbersLeft cache.old.last
        → WhereTold (K.told keeper.new) (λ told. VisitsItems app.now session.now told moment from
        (named_gallery gallery.now app.now.names) cache.old cache.new steps.old
        (K.visited keeper.old) (K.visited keeper.new) (said r))) }
    ensures read { HasRead K.Keeper keeper.old keeper.new }
    ensures cause { HasCause K.Keeper keeper.old keeper.new result }
{
    match gallery_named(&app.names, gallery) {
        Some(number) => show_items_of(
            alloc, app, session, cache, keeper, number, from, moment, steps,
        ),
        None => Ok(Reply::refuse_plain(alloc, 15)?),
    }
}

// The same, of the gallery of this number.
fn show_items_of<K: Keeper, L: Ledger>(
    alloc: Global,
    app: &App,
    session: &Session,
    cache: &mut Cache,
    keeper: &mut K,
    gallery: u32,
    from: u32,
    moment: u64,
    steps: &mut Steps<L>,
) -> Result<Reply, KeeperEnd>
    requires sound { IsSoundApp app.now }
    requires fits { FitsNames app.now.names session.now }
    requires gallery { IsGalleryOf app.now.names gallery }
    requires shaped { K.shaped keeper.old ≡ by app.now.names.schema }
    requires day { IsToday moment cache.old.values.day }
    requires order { IsInOrder app.now cache.old }
    requires right { ∥ IsRightOver app.now session.now (K.told keeper.old) moment cache.old ∥₁ }
    ensures done { IfOk result (λ r. SaysItemsOf
        (SilenceCause (K.marks keeper.old) (K.marks keeper.new))
        (present app.now session.now (rows_told (K.told keeper.new)) moment) from (Some gallery)
        (K.told keeper.old) (said r) (K.told keeper.new)) }
    ensures whole { IfOk result IsReply }
    ensures order { IsInOrder app.now cache.new }
    ensures right { ∥ IsRightOver app.now session.now (K.told keeper.new) moment cache.new ∥₁ }
    ensures day { cache.new.values.day ≡ cache.old.values.day }
    ensures left { HasNumbersLeft cache.old.last → KeepsClean app.now cache.old cache.new }
    ensures but { StaysCleanExcept app.now [] cache.old cache.new }
    ensures made { OnOk result (MakesItems app.now (Some gallery) cache.new) }
    ensures ticks { IfOk result (λ r. HasNumbersLeft cache.old.last
        → CostsItems app.now (Some gallery) cache.old cache.new steps.old steps.new (said r)) }
    ensures visits { IfOk result (λ r. HasNumbersLeft cache.old.last
        → WhereTold (K.told keeper.new) (λ told. VisitsItems app.now session.now told moment from
        (Some gallery) cache.old cache.new steps.old (K.visited keeper.old) (K.visited keeper.new)
        (said r))) }
    ensures read { HasRead K.Keeper keeper.old keeper.new }
    ensures cause { HasCause K.Keeper keeper.old keeper.new result }
{
    fitting_holds();
    let items = items_of(
        alloc, app, session, cache, keeper, moment, gallery, from, steps,
    )?;
    Ok(items_reply(alloc, items)?)
}

// The reply that shows items, or that the gallery isn't shown.
fn items_reply(alloc: Global, items: Option<Items>) -> Result<Reply, Memory>
    ensures done { IfOk result (λ r. said r ≡ reply_of_items items) }
    ensures whole { IfOk result IsReply }
{
    match items {
        Some(items) => {
            let body = items_json(alloc, &items)?;
            Reply::accept(alloc, &body)
        }
        None => Reply::refuse_plain(alloc, 17),
    }
}
