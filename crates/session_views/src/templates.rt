// The controls of a template, as they are for an item.
ghost use Rattle.std.specs.Prelude.{◌≡◌, ◌≤◌, ◌+◌, ◌++◌, ◌∷◌, [], ℕ, true, IfOk, OnOk, Some, codes};
ghost use Rattle.std.specs.Prelude.{slice_get};
ghost use Rattle.recalc.specs.AskingOver.{HasRead};
ghost use Rattle.recalc.specs.app_semantics.Present.{present};
ghost use Rattle.recalc.specs.app_semantics.Properties.{IsPropertyForItem};
ghost use Rattle.session_views.specs.Ready.{CanShow, IsItemOf};
ghost use Rattle.session_views.specs.Views.{AreEachGiven, IsItemControlShown, is_in as is_in_of};
ghost use Rattle.session_views.specs.Views.{put_if_some};
ghost use Rattle.session_views.specs.Visits.{AreVisited, ControlVisits, PropertyVisits};
ghost use Rattle.session_views.specs.Visits.{TemplateVisits};
ghost use Rattle.fx_types.specs.ValueView.{view};
ghost use Rattle.fx_types.specs.Values.{text as text_data};
ghost use Rattle.fx_scalar.specs.ScalarFunctions.{IsToday};
ghost use Rattle.recalc.specs.fx_semantics.Around.{record_of};
ghost use Rattle.recalc.specs.Asking.{IsHeardOf, ToldRows};
ghost use Rattle.recalc.specs.Templates.{steps_of};
ghost use Rattle.recalc.specs.Values.{value_of};
ghost use Rattle.recalc.specs.Visits.{WhereTold};
ghost use Rattle.recalc.specs.fx_eval.Visits.{AtMost};
ghost use Rattle.recalc.specs.app_cells.Leaning.{cell_of_property};
ghost use Rattle.session_views.specs.Bounds.{control_steps, formulas_for};
ghost use Rattle.session_views.specs.Looking.{is_it};
ghost use Rattle.row_keeper.specs.Over.{HasCause};
ghost use Rattle.row_keeper.specs.Shaped.{by};

use crate::app_cells::App;
use crate::displaying::{no_text, text_alone};
use fx_base::{InOrder, Memory};
use fx_core::names::ControlName;
use fx_types::{Fields, Value};
use recalc::{Steps, Valued, is_visible_for_item, property_for_item};
use row_keeper::{Keeper, KeeperEnd};
use session_state::Session;
use std::alloc::Global;
use std::sync::ledger::Ledger;
use view_text::{ItemControl, ItemControlList};

/// Adds what is given, if anything is.
pub(crate) fn add<T: Drop>(list: &mut InOrder<T>, given: Option<T>) -> Result<(), Memory>
    ensures { OnOk result (list.new ≡ list.old ++ put_if_some given []) }
{
    match given {
        Some(item) => list.push(item),
        None => Ok(()),
    }
}

// Whether a control stands in the gallery of this number.
fn is_in(gallery: u32, control: &ControlName) -> bool
    ensures { result ≡ is_in_of gallery control.now.gallery }
{
    match control.gallery {
        Some(other) => other == gallery,
        None => false,
    }
}

// The text of a control of a template for an item.
#[tactic(auto, using(recalc::proofs::Asked::read_none, recalc::proofs::Asked::read_on))]
fn text_for<K: Keeper, L: Ledger>(
    alloc: Global,
    app: &App,
    session: &Session,
    keeper: &mut K,
    valued: &Valued,
    gallery: u32,
    number: u32,
    control: &ControlName,
    row: &Fields,
    steps: &mut Steps<L>,
) -> Result<Value, KeeperEnd>
    requires ready { CanShow app.now session.now valued.now }
    requires control { slice_get app.now.names.controls number ≡ Some control.now }
    requires within { is_in_of gallery control.now.gallery ≡ true }
    requires row { IsItemOf app.now.names gallery row.now }
    requires shaped { K.shaped keeper.old ≡ by app.now.names.schema }
    ensures shows { IfOk result (λ v. (moment : ℕ) (tables : ToldRows)
        → IsToday moment valued.now.day → IsHeardOf (K.told keeper.new) tables →
        IsPropertyForItem (present app.now session.now tables moment) (value_of valued.now)
        (record_of row.now) number (codes "Text") (text_data []) (view v)) }
    ensures ticks { IfOk result (λ v. steps.new
        ≡ steps.old + steps_of (cell_of_property app.now.names number (codes "Text"))) }
    ensures visits { IfOk result (λ _. (moment : ℕ) → IsToday moment valued.now.day
        → WhereTold (K.told keeper.new) (λ told.
        AtMost (PropertyVisits app.now session.now told moment (value_of valued.now)
        (record_of row.now) number (codes "Text")) (K.visited keeper.old) (K.visited keeper.new))) }
    ensures read { HasRead K.Keeper keeper.old keeper.new }
    ensures cause { HasCause K.Keeper keeper.old keeper.new result }
{
    let unwritten = no_text(alloc)?;
    property_for_item(
        alloc, app, session, keeper, valued, gallery, number, "Text", row, unwritten, steps,
    )
}

// A control with its text.
fn item_control_with(
    alloc: Global,
    control: &ControlName,
    text: Value,
) -> Result<ItemControl, Memory>
    ensures name { IfOk result (λ c. c.name ≡ control.now.name) }
    ensures kind { IfOk result (λ c. c.kind ≡ control.now.kind) }
    ensures values { IfOk result (λ c. c.values ≡ (codes "Text", view text) ∷ []) }
{
    let values = text_alone(alloc, text)?;
    let name = control.name.copy(alloc)?;
    let kind = control.kind;
    Ok(ItemControl { name, kind, values })
}

// What a control of the gallery's template shows for an item, if it is visible for it.
#[tactic(auto, using(recalc::proofs::Asked::read_none, recalc::proofs::Asked::read_on))]
fn template_control<K: Keeper, L: Ledger>(
    alloc: Global,
    app: &App,
    session: &Session,
    keeper: &mut K,
    valued: &Valued,
    gallery: u32,
    number: u32,
    control: &ControlName,
    row: &Fields,
    steps: &mut Steps<L>,
) -> Result<Option<ItemControl>, KeeperEnd>
    requires ready { CanShow app.now session.now valued.now }
    requires control { slice_get app.now.names.controls number ≡ Some control.now }
    requires within { is_in_of gallery control.now.gallery ≡ true }
    requires row { IsItemOf app.now.names gallery row.now }
    requires shaped { K.shaped keeper.old ≡ by app.now.names.schema }
    ensures shows { IfOk result (λ o. (moment : ℕ) (tables : ToldRows)
        → IsToday moment valued.now.day → IsHeardOf (K.told keeper.new) tables
        → IsItemControlShown (present app.now session.now tables moment) (value_of valued.now)
        gallery (record_of row.now) number control.now o) }
    ensures ticks { IfOk result (λ o. steps.new ≤ steps.old
        + control_steps app.now.names number true) }
    ensures visits { IfOk result (λ o. (moment : ℕ) → IsToday moment valued.now.day
        → WhereTold (K.told keeper.new) (λ told.
        AtMost (ControlVisits app.now session.now told moment (value_of valued.now)
        (record_of row.now) number o) (K.visited keeper.old) (K.visited keeper.new))) }
    ensures read { HasRead K.Keeper keeper.old keeper.new }
    ensures cause { HasCause K.Keeper keeper.old keeper.new result }
{
    let visible = is_visible_for_item(
        alloc, app, session, keeper, valued, gallery, number, row, steps,
    )?;
    if visible {
        let text = text_for(
            alloc, app, session, keeper, valued, gallery, number, control, row, steps,
        )?;
        let shown = item_control_with(alloc, control, text)?;
        Ok(Some(shown))
    } else {
        Ok(None)
    }
}

// What a control shows for an item, if it stands in the gallery and is visible for the item.
#[tactic(auto, using(recalc::proofs::Asked::read_none, recalc::proofs::Asked::read_on))]
fn item_control<K: Keeper, L: Ledger>(
    alloc: Global,
    app: &App,
    session: &Session,
    keeper: &mut K,
    valued: &Valued,
    gallery: u32,
    number: u32,
    control: &ControlName,
    row: &Fields,
    steps: &mut Steps<L>,
) -> Result<Option<ItemControl>, KeeperEnd>
    requires ready { CanShow app.now session.now valued.now }
    requires control { slice_get app.now.names.controls number ≡ Some control.now }
    requires row { IsItemOf app.now.names gallery row.now }
    requires shaped { K.shaped keeper.old ≡ by app.now.names.schema }
    ensures shows { IfOk result (λ o. (moment : ℕ) (tables : ToldRows)
        → IsToday moment valued.now.day → IsHeardOf (K.told keeper.new) tables
        → IsItemControlShown (present app.now session.now tables moment) (value_of valued.now)
        gallery (record_of row.now) number control.now o) }
    ensures ticks { IfOk result (λ o. steps.new ≤ steps.old
        + control_steps app.now.names number (is_in_of gallery control.now.gallery)) }
    ensures visits { IfOk result (λ o. (moment : ℕ) → IsToday moment valued.now.day
        → WhereTold (K.told keeper.new) (λ told.
        AtMost (TemplateVisits app.now session.now told moment (value_of valued.now) gallery
        (record_of row.now) number control.now o) (K.visited keeper.old) (K.visited keeper.new))) }
    ensures read { HasRead K.Keeper keeper.old keeper.new }
    ensures cause { HasCause K.Keeper keeper.old keeper.new result }
{
    if is_in(gallery, control) {
        template_control(
            alloc, app, session, keeper, valued, gallery, number, control, row, steps,
        )
    } else {
        Ok(None)
    }
}

/// What the controls of a gallery's template show for an item.
#[tactic(auto, using(recalc::proofs::Asked::read_none, recalc::proofs::Asked::read_on))]
pub(crate) fn item_controls<K: Keeper, L: Ledger>(
    alloc: Global,
    app: &App,
    session: &Session,
    keeper: &mut K,
    valued: &Valued,
    gallery: u32,
    row: &Fields,
    steps: &mut Steps<L>,
) -> Result<ItemControlList, KeeperEnd>
    requires ready { CanShow app.now session.now valued.now }
    requires row { IsItemOf app.now.names gallery row.now }
    requires shaped { K.shaped keeper.old ≡ by app.now.names.schema }
    ensures shows { IfOk result (λ l. (moment : ℕ) (tables : ToldRows)
        → IsToday moment valued.now.day → IsHeardOf (K.told keeper.new) tables
        → AreEachGiven (IsItemControlShown (present app.now session.now tables moment)
        (value_of valued.now) gallery (record_of row.now)) 0 app.now.names.controls l) }
    ensures ticks { IfOk result (λ l. steps.new ≤ steps.old
        + formulas_for app.now.names (is_it gallery)) }
    ensures visits { IfOk result (λ l. (moment : ℕ) → IsToday moment valued.now.day
        → WhereTold (K.told keeper.new) (λ told.
        AtMost (AreVisited (TemplateVisits app.now session.now told moment (value_of valued.now)
        gallery (record_of row.now)) 0 app.now.names.controls l) (K.visited keeper.old)
        (K.visited keeper.new))) }
    ensures read { HasRead K.Keeper keeper.old keeper.new }
    ensures cause { HasCause K.Keeper keeper.old keeper.new result }
{
    let mut shown = InOrder::new(alloc);
    let mut number: u32 = 0;
    let controls = app.names.controls.as_slice();
    for control in controls {
        let given = item_control(
            alloc, app, session, keeper, valued, gallery, number, control, row, steps,
        )?;
        add(&mut shown, given)?;
        number += 1;
    }
    Ok(shown)
}
