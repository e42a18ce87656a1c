//! Whether controls are visible, and the properties of controls in galleries for an item.
ghost use Rattle.std.specs.Prelude.{◌≡◌, ◌+◌, ℕ, true, IfOk, Some, codes, map, option_map};
ghost use Rattle.std.specs.Prelude.{slice_get, unwrap_or};
ghost use Rattle.app_semantics.specs.app_cells.Leaning as leaning;
ghost use Rattle.app_semantics.specs.app_cells.declared.app.CellInfo.{CellInfo as Info};
ghost use Rattle.app_semantics.specs.Fresh.{IsValueOf};
ghost use Rattle.app_semantics.specs.Holding.{HoldsFitting};
ghost use Rattle.app_semantics.specs.Present.{present};
ghost use Rattle.app_semantics.specs.Properties.{IsPropertyForItem, is_true as is_true_of};
ghost use Rattle.app_semantics.specs.Properties.{is_visible as is_visible_of};
ghost use Rattle.app_semantics.specs.Sound.{IsSoundApp};
ghost use Rattle.fx_types.specs.ValueView.{view};
ghost use Rattle.fx_types.specs.Values.{Data, blank, boolean};
ghost use Rattle.fx_scalar.specs.ScalarFunctions.{IsToday};
ghost use Rattle.fx_semantics.specs.Around.{record_of};
ghost use Rattle.fx_semantics.specs.Sound.{IsItemFit};
ghost use Rattle.fx_typing.specs.Typing.{item_context};
ghost use Rattle.fx_eval.specs.Visits.{AtMost};
ghost use Rattle.recalc.specs.Asking.{IsHeardOf, ToldRows};
ghost use Rattle.recalc.specs.AskingOver.{HasRead};
ghost use Rattle.recalc.specs.ItemVisits.{ItemVisits};
ghost use Rattle.recalc.specs.Reading.{cell_value};
ghost use Rattle.recalc.specs.Templates.{IsTemplateProperty, StandsIn, steps_of};
ghost use Rattle.recalc.specs.Values.{CellsFit, value_of};
ghost use Rattle.recalc.specs.Visits.{WhereTold};
ghost use Rattle.row_keeper.specs.Over.{HasCause};
ghost use Rattle.row_keeper.specs.Shaped.{by};

use crate::app_cells::App;
use crate::session_sources::cell_of_property;
use crate::valued::Valued;
use fx_core::Names;
use fx_env::Steps;
use fx_types::values::{Fields, Value};
use row_keeper::{Keeper, KeeperEnd};
use session_state::Session;
use std::alloc::Global;
use std::sync::ledger::Ledger;

/// Whether a value is true. None counts as blank.
pub fn is_true(value: Option<&Value>) -> bool
    ensures { result ≡ is_true_of (unwrap_or (option_map (λ v. view v.now) value.entry) blank) }
{
    matches!(value, Some(Value::Boolean(true)))
}

/// Whether a control is visible by itself, where cells have these values.
pub fn is_visible(names: &Names, values: &[Value], control: u32) -> bool
    ensures { result ≡ is_visible_of names.now (cell_value (map view values.now)) control }
{
    match cell_of_property(names, control, "Visible") {
        Some(cell) => is_true(values.get(cell as usize)),
        None => true,
    }
}

/// Whether a control in a gallery is visible for an item of it, in one step where `Visible` is
/// written. `Failed` only where the keeper counted a fault.
#[tactic(auto, using(crate::proofs::Asked::read_none))]
pub fn is_visible_for_item<K: Keeper, L: Ledger>(
    alloc: Global,
    app: &App,
    session: &Session,
    keeper: &mut K,
    valued: &Valued,
    gallery: u32,
    control: u32,
    row: &Fields,
    steps: &mut Steps<L>,
) -> Result<bool, KeeperEnd>
    requires sound { IsSoundApp app.now }
    requires holds { HoldsFitting app.now.names session.now }
    requires fits { CellsFit app.now (value_of valued.now) }
    requires day { (moment : ℕ) × IsToday moment valued.now.day }
    requires stands { StandsIn app.now.names control gallery }
    requires item { IsItemFit (Some (record_of row.now)) (item_context app.now.names (Some gallery)) }
    requires shaped { K.shaped keeper.old ≡ by app.now.names.schema }
    ensures shows { IfOk result (λ b. (moment : ℕ) (tables : ToldRows)
        → IsToday moment valued.now.day → IsHeardOf (K.told keeper.new) tables →
        (v : Data) × IsPropertyForItem (present app.now session.now tables moment)
        (value_of valued.now) (record_of row.now) control (codes "Visible") (boolean true) v
        × (b ≡ is_true_of v)) }
    ensures steps { IfOk result (λ b. steps.new
        ≡ steps.old + steps_of (leaning.cell_of_property app.now.names control (codes "Visible"))) }
    ensures visits { IfOk result (λ _. (moment : ℕ) → IsToday moment valued.now.day
        → WhereTold (K.told keeper.new) (λ rows.
        AtMost (ItemVisits app.now session.now rows moment (value_of valued.now) (record_of row.now)
        (leaning.cell_of_property app.now.names control (codes "Visible"))) (K.visited keeper.old)
        (K.visited keeper.new))) }
    ensures read { HasRead K.Keeper keeper.old keeper.new }
    ensures cause { HasCause K.Keeper keeper.old keeper.new result }
{
    let always = Value::Boolean(true);
    let visible = property_for_item(
        alloc, app, session, keeper, valued, gallery, control, "Visible", row, always, steps,
    )?;
    Ok(is_true(Some(&visible)))
}

/// The value of a property of a control in a gallery for an item of it, in one step, and another
/// where it isn't written, in none. `Failed` only where the keeper counted a fault.
#[tactic(auto, using(crate::proofs::Asked::read_none))]
pub fn property_for_item<K: Keeper, L: Ledger>(
    alloc: Global,
    app: &App,
    session: &Session,
    keeper: &mut K,
    valued: &Valued,
    gallery: u32,
    control: u32,
    name: &str,
    row: &Fields,
    unwritten: Value,
    steps: &mut Steps<L>,
) -> Result<Value, KeeperEnd>
    requires sound { IsSoundApp app.now }
    requires holds { HoldsFitting app.now.names session.now }
    requires fits { CellsFit app.now (value_of valued.now) }
    requires day { (moment : ℕ) × IsToday moment valued.now.day }
    requires property { IsTemplateProperty app.now gallery
        (leaning.cell_of_property app.now.names control name.now) }
    requires item { IsItemFit (Some (record_of row.now)) (item_context app.now.names (Some gallery)) }
    requires shaped { K.shaped keeper.old ≡ by app.now.names.schema }
    ensures shows { IfOk result (λ v. (moment : ℕ) (tables : ToldRows)
        → IsToday moment valued.now.day → IsHeardOf (K.told keeper.new) tables →
        IsPropertyForItem (present app.now session.now tables moment) (value_of valued.now)
        (record_of row.now) control name.now (view unwritten) (view v)) }
    ensures steps { IfOk result (λ v. steps.new
        ≡ steps.old + steps_of (leaning.cell_of_property app.now.names control name.now)) }
    ensures visits { IfOk result (λ _. (moment : ℕ) → IsToday moment valued.now.day
        → WhereTold (K.told keeper.new) (λ rows.
        AtMost (ItemVisits app.now session.now rows moment (value_of valued.now) (record_of row.now)
        (leaning.cell_of_property app.now.names control name.now)) (K.visited keeper.old)
        (K.visited keeper.new))) }
    ensures read { HasRead K.Keeper keeper.old keeper.new }
    ensures cause { HasCause K.Keeper keeper.old keeper.new result }
{
    match cell_of_property(&app.names, control, name) {
        Some(cell) => cell_for_item(
            alloc, app, session, keeper, valued, gallery, cell, row, steps,
        ),
        None => Ok(unwritten),
    }
}

// The value of a cell of a template for an item.
#[tactic(auto, using(crate::proofs::Asked::read_none))]
fn cell_for_item<K: Keeper, L: Ledger>(
    alloc: Global,
    app: &App,
    session: &Session,
    keeper: &mut K,
    valued: &Valued,
    gallery: u32,
    cell: u32,
    row: &Fields,
    steps: &mut Steps<L>,
) -> Result<Value, KeeperEnd>
    requires sound { IsSoundApp app.now }
    requires holds { HoldsFitting app.now.names session.now }
    requires fits { CellsFit app.now (value_of valued.now) }
    requires day { (moment : ℕ) × IsToday moment valued.now.day }
    requires cell { IsTemplateProperty app.now gallery (Some cell) }
    requires item { IsItemFit (Some (record_of row.now)) (item_context app.now.names (Some gallery)) }
    requires shaped { K.shaped keeper.old ≡ by app.now.names.schema }
    ensures shows { IfOk result (λ v. (moment : ℕ) (tables : ToldRows)
        → IsToday moment valued.now.day → IsHeardOf (K.told keeper.new) tables →
        (c : Info) × (slice_get app.now.cells cell ≡ Some c)
        × IsValueOf (present app.now session.now tables moment) (value_of valued.now)
        (Some (record_of row.now)) c (view v)) }
    ensures steps { IfOk result (λ v. steps.new ≡ steps.old + 1) }
    ensures visits { IfOk result (λ _. (moment : ℕ) → IsToday moment valued.now.day
        → WhereTold (K.told keeper.new) (λ rows.
        AtMost (ItemVisits app.now session.now rows moment (value_of valued.now) (record_of row.now)
        (Some cell)) (K.visited keeper.old) (K.visited keeper.new))) }
    ensures read { HasRead K.Keeper keeper.old keeper.new }
    ensures cause { HasCause K.Keeper keeper.old keeper.new result }
{
    match app.cells.get(cell as usize) {
        Some(info) => {
            let fields = row.copy(alloc)?;
            let item = Value::Rec(fields);
            valued.in_item(alloc, app, session, keeper, info, item, steps)
        }
        None => unreachable!(),
    }
}
