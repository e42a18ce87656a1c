//! Controls that requests name, and whether they are shown.
ghost use Rattle.std.specs.Prelude.{◌≡◌, ◌<◌, IfSome, length, option_map, unwrap_or};
ghost use Rattle.recalc.specs.app_semantics.Chosen.{row_at_position};
ghost use Rattle.recalc.specs.app_semantics.Present.{items_of};
ghost use Rattle.recalc.specs.app_semantics.Properties.{property_value};
ghost use Rattle.fx_types.specs.ValueView.{view};
ghost use Rattle.fx_types.specs.Values.{blank, number as number_data};
ghost use Rattle.recalc.specs.fx_semantics.Rows.{rows_in};
ghost use Rattle.session_state.specs.Sessions.{SessionState};
ghost use Rattle.session_requests.specs.Shown.{cell_values, control_number as control_of};
ghost use Rattle.session_requests.specs.Shown.{is_shown_or_in_shown_gallery as is_shown_of};
ghost use Rattle.session_requests.specs.Targets.{bound_of};

use fx_core::Names;
use fx_core::names::ControlName;
use fx_types::{Fields, Value, Words};
use recalc::{cell_of_property, is_visible};

/// The place of the control of a name.
pub(crate) fn control_named(names: &Names, name: &Words) -> Option<usize>
    ensures place { result ≡ control_of name.now names.now }
    ensures within { IfSome result (λ k. k < length names.now.controls) }
{
    names
        .controls
        .as_slice()
        .iter()
        .position(|control| control.name.is(name))
}

/// Whether a control is on the current screen and visible, or the gallery that it stands in is.
pub(crate) fn is_shown(
    names: &Names,
    screen: u32,
    values: &[Value],
    number: u32,
    control: &ControlName,
) -> bool
    ensures { (s : SessionState) → s.screen ≡ screen
        → result ≡ is_shown_of names.now s (cell_values values.now) number control.now }
{
    control.screen == screen && is_visible(names, values, control.gallery.unwrap_or(number))
}

/// The bound that a property of a slider sets, or another where it isn't written. An error sets
/// none.
pub(crate) fn bound(
    names: &Names,
    values: &[Value],
    control: u32,
    name: &str,
    unwritten: i64,
) -> Option<i64>
    ensures { result ≡ bound_of (property_value names.now (cell_values values.now) control name.now
        (number_data unwritten)) }
{
    match cell_of_property(names, control, name) {
        Some(cell) => bound_in(values.get(cell as usize)),
        None => Some(unwritten),
    }
}

/// The bound that a value sets, of which a blank one is 0.
fn bound_in(value: Option<&Value>) -> Option<i64>
    ensures { result ≡ bound_of (unwrap_or (option_map (λ v. view v.now) value.entry) blank) }
{
    match value {
        Some(Value::Number(number)) => Some(number.units()),
        Some(Value::Blank) | None => Some(0),
        Some(_) => None,
    }
}

/// The row of a gallery's items at a position, which counts from 1.
pub(crate) fn item_row<'a>(
    names: &Names,
    values: &'a [Value],
    gallery: u32,
    at: u32,
) -> Option<&'a Fields>
    ensures { option_map (λ f. f.now) result ≡ row_at_position at
        (rows_in (items_of names.now (cell_values values.now) gallery)) }
{
    match cell_of_property(names, gallery, "Items") {
        Some(cell) => match values.get(cell as usize) {
            Some(items) => row_in(items, at),
            None => None,
        },
        None => None,
    }
}

/// The row of a table at a position, which counts from 1.
fn row_in(value: &Value, at: u32) -> Option<&Fields>
    ensures { option_map (λ f. f.now) result ≡ row_at_position at (rows_in (view value.now)) }
{
    match value {
        Value::Tab(rows) => row_at(rows.as_slice(), at),
        _ => None,
    }
}

/// The row at a position, which counts from 1.
fn row_at(rows: &[Fields], at: u32) -> Option<&Fields>
    ensures { option_map (λ f. f.now) result ≡ row_at_position at rows.now }
{
    match at.checked_sub(1) {
        Some(place) => rows.get(place as usize),
        None => None,
    }
}
