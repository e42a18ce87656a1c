//! Whether controls in galleries are visible for an item.
ghost use Rattle.std.specs.Prelude.{◌≡◌, ℕ, IfOk, Some};
ghost use Rattle.recalc.specs.AskingOver.{HasRead};
ghost use Rattle.recalc.specs.app_semantics.Chosen.{row_at_position};
ghost use Rattle.recalc.specs.app_semantics.Holding.{HoldsFitting};
ghost use Rattle.recalc.specs.app_semantics.Present.{items_of, present};
ghost use Rattle.recalc.specs.app_semantics.Sound.{IsSoundApp};
ghost use Rattle.fx_scalar.specs.ScalarFunctions.{IsToday};
ghost use Rattle.recalc.specs.fx_semantics.Rows.{rows_in};
ghost use Rattle.fx_value.specs.Columns.{Row};
ghost use Rattle.recalc.specs.Asking.{IsHeardOf, ToldRows};
ghost use Rattle.recalc.specs.Templates.{StandsIn};
ghost use Rattle.recalc.specs.Values.{CellsFit, value_of};
ghost use Rattle.session_requests.specs.Posting.{IsShownToUser, IsVisibleFor};
ghost use Rattle.session_requests.specs.Posting.{gallery_around as gallery_around_of};
ghost use Rattle.session_requests.specs.Targets.{IsTarget};
ghost use Rattle.row_keeper.specs.Over.{HasCause};
ghost use Rattle.row_keeper.specs.Shaped.{by};

use crate::app_cells::App;
use crate::shown::item_row;
use crate::target::{Item, Target};
use recalc::{Steps, Valued, is_visible_for_item};
use row_keeper::{Keeper, KeeperEnd};
use session_state::Session;
use std::alloc::Global;
use std::sync::ledger::Ledger;

/// Whether the control of a target is visible for its item, in at most one step. Of a control that
/// stands in no gallery nothing is left to ask.
#[tactic(auto, using(recalc::proofs::Asked::read_none))]
pub(crate) fn is_shown_for<K: Keeper, L: Ledger>(
    alloc: Global,
    app: &App,
    session: &Session,
    keeper: &mut K,
    valued: &Valued,
    target: Target,
    steps: &mut Steps<L>,
) -> Result<bool, KeeperEnd>
    requires sound { IsSoundApp app.now }
    requires holds { HoldsFitting app.now.names session.now }
    requires fits { CellsFit app.now (value_of valued.now) }
    requires day { (moment : ℕ) × IsToday moment valued.now.day }
    requires target { IsTarget app.now.names (value_of valued.now) target }
    requires shaped { K.shaped keeper.old ≡ by app.now.names.schema }
    ensures shows { IfOk result (λ b. (moment : ℕ) (tables : ToldRows)
        → IsToday moment valued.now.day → IsHeardOf (K.told keeper.new) tables →
        IsShownToUser (present app.now session.now tables moment) (value_of valued.now)
        target.control (gallery_around_of app.now target.control) target.item b) }
    ensures read { HasRead K.Keeper keeper.old keeper.new }
    ensures cause { HasCause K.Keeper keeper.old keeper.new result }
{
    match (gallery_around(app, target.control), target.item) {
        (Some(_), Some(item)) => {
            is_visible_at(
                alloc,
                app,
                session,
                keeper,
                valued,
                target.control,
                item,
                steps,
            )
        }
        _ => Ok(true),
    }
}

/// The gallery that a control stands in.
pub(crate) fn gallery_around(app: &App, control: u32) -> Option<u32>
    ensures { result ≡ gallery_around_of app.now control }
{
    app.names.controls.get(control as usize)?.gallery
}

/// Whether a control in a gallery is visible for the item at a place.
#[tactic(auto, using(recalc::proofs::Asked::read_none))]
fn is_visible_at<K: Keeper, L: Ledger>(
    alloc: Global,
    app: &App,
    session: &Session,
    keeper: &mut K,
    valued: &Valued,
    control: u32,
    item: Item,
    steps: &mut Steps<L>,
) -> Result<bool, KeeperEnd>
    requires sound { IsSoundApp app.now }
    requires holds { HoldsFitting app.now.names session.now }
    requires fits { CellsFit app.now (value_of valued.now) }
    requires day { (moment : ℕ) × IsToday moment valued.now.day }
    requires stands { StandsIn app.now.names control item.gallery }
    requires there { (row : Row) × (row_at_position item.at
        (rows_in (items_of app.now.names (value_of valued.now) item.gallery)) ≡ Some row) }
    requires shaped { K.shaped keeper.old ≡ by app.now.names.schema }
    ensures shows { IfOk result (λ b. (moment : ℕ) (tables : ToldRows)
        → IsToday moment valued.now.day → IsHeardOf (K.told keeper.new) tables →
        IsVisibleFor (present app.now session.now tables moment) (value_of valued.now) control
        item.gallery item.at b) }
    ensures read { HasRead K.Keeper keeper.old keeper.new }
    ensures cause { HasCause K.Keeper keeper.old keeper.new result }
{
    match item_row(&app.names, valued.as_slice(), item.gallery, item.at) {
        Some(row) => is_visible_for_item(
            alloc,
            app,
            session,
            keeper,
            valued,
            item.gallery,
            control,
            row,
            steps,
        ),
        None => unreachable!(),
    }
}
