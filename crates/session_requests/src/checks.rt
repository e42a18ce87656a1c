//! The checks of what events and inputs act on.
ghost use Rattle.std.specs.Prelude.{◌≡◌, ◌<◌, ◌^◌, IfErr, IsTrue, Some, length};
ghost use Rattle.fx_types.specs.ValueView.{view};
ghost use Rattle.fx_core.specs.Lawful.{id_name};
ghost use Rattle.session_state.specs.Sessions.{SessionState};
ghost use Rattle.numbered_requests.specs.Replies.{is_plain_refusal, plain as plain_of};
ghost use Rattle.view_text.specs.RefusalText.{Fits};
ghost use Rattle.session_requests.specs.Shown.{cell_values};
ghost use Rattle.session_requests.specs.declared.input.Input.{Input as InputBody};
ghost use Rattle.session_requests.specs.Targets.{event_at, event_target as event_target_of};
ghost use Rattle.session_requests.specs.Targets.{event_gallery as gallery_of_control};
ghost use Rattle.session_requests.specs.Targets.{has_event as has_event_of, input_at};
ghost use Rattle.session_requests.specs.Targets.{input_by as input_by_kind};
ghost use Rattle.session_requests.specs.Targets.{input_target as input_target_of};
ghost use Rattle.session_requests.specs.Targets.{is_in_bounds as is_within_bounds};
ghost use Rattle.session_requests.specs.Targets.{control_takes as takes_of};
ghost use Rattle.session_requests.specs.Targets.{takes_input as takes_input_of};
ghost use Rattle.session_requests.specs.Targets.{unless_moved as unless_moved_of};
ghost use Rattle.session_requests.specs.Targets.{with_item as with_item_of};

use crate::event::{Event, Place};
use crate::input::{Given, Input};
use crate::shown::{bound, control_named, is_shown, item_row};
use crate::target::{Item, Target};
use fx_core::Names;
use fx_core::controls::{input_ty, is_behaviour};
use fx_core::names::ControlName;
use fx_types::{Control, Value, Words};
use recalc::item_id;
use view_text::{Detail, Refusal};

/// The most bytes of a text that a user gives.
const MOST_BYTES: usize = 4096;

/// What a slider's numbers lie between where no formula says so, in ten-thousandths.
const LEAST: i64 = 0;

const GREATEST: i64 = 1_000_000;

/// A refusal without a detail.
pub(crate) fn plain(code: u8) -> Refusal
    requires { IsTrue (is_plain_refusal code) }
    ensures is { result ≡ plain_of code }
    ensures detail { Fits result.code result.detail }
{
    Refusal {
        code,
        detail: Detail::None,
    }
}

/// The gallery whose item an event of a control has: the one in which it stands, or the control
/// itself.
fn gallery_of(number: u32, control: &ControlName) -> Option<u32>
    ensures { result ≡ gallery_of_control number control.now }
{
    match control.gallery {
        Some(gallery) => Some(gallery),
        None if control.kind == Control::Gallery => Some(number),
        None => None,
    }
}

/// Refuses a row that has another id than was given.
fn unless_moved(
    given: Option<Option<u32>>,
    id: Option<u32>,
    target: Target,
) -> Result<Target, Refusal>
    ensures is { result ≡ unless_moved_of given id target }
    ensures detail { IfErr result (λ r. Fits r.code r.detail) }
{
    match given {
        Some(given) if given != id => Err(Refusal {
            code: 19,
            detail: Detail::Id(id),
        }),
        _ => Ok(target),
    }
}

/// The item of a gallery that a place is.
fn item_at(
    names: &Names,
    values: &[Value],
    control: u32,
    gallery: u32,
    place: Place,
    id: &Words,
) -> Result<Target, Refusal>
    requires { id.now ≡ id_name }
    ensures is { result ≡ with_item_of names.now (cell_values values.now) control (Some place)
        (Some gallery) }
    ensures detail { IfErr result (λ r. Fits r.code r.detail) }
{
    match item_row(names, values, gallery, place.at) {
        Some(row) => {
            let id = item_id(row, id);
            let at = place.at;
            let item = Some(Item { gallery, at, id });
            unless_moved(place.id, id, Target { control, item })
        }
        None => Err(plain(18)),
    }
}

/// Whether a control has an event that may be sent.
fn has_event(event: &Event, kind: Control) -> bool
    ensures { result ≡ has_event_of event.now.event kind }
{
    event.event.as_str() == "OnSelect" && is_behaviour(kind, "OnSelect")
}

/// What an event of a control acts on.
fn target_at(
    names: &Names,
    screen: u32,
    values: &[Value],
    event: &Event,
    number: u32,
    control: &ControlName,
    id: &Words,
) -> Result<Target, Refusal>
    requires { id.now ≡ id_name }
    ensures is { (s : SessionState) → s.screen ≡ screen
        → result ≡ event_at names.now s (cell_values values.now) event.now number (Some control.now) }
    ensures detail { IfErr result (λ r. Fits r.code r.detail) }
{
    if !has_event(event, control.kind) {
        return Err(plain(16));
    }
    if !is_shown(names, screen, values, number, control) {
        return Err(plain(17));
    }
    match (event.item, gallery_of(number, control)) {
        (Some(place), Some(gallery)) => { item_at(names, values, number, gallery, place, id) }
        (None, None) => Ok(Target {
            control: number,
            item: None,
        }),
        _ => Err(plain(18)),
    }
}

/// What an event acts on: there is such a control (15) with this event (16), it is shown (17), and
/// the item is one (18) whose row has the id that is given (19). `id` is the name of the column
/// that numbers rows.
pub(crate) fn event_target(
    names: &Names,
    screen: u32,
    values: &[Value],
    event: &Event,
    id: &Words,
) -> Result<Target, Refusal>
    requires lawful { length names.now.controls < 2 ^ 32 }
    requires id { id.now ≡ id_name }
    ensures is { (s : SessionState) → s.screen ≡ screen
        → result ≡ event_target_of names.now s (cell_values values.now) event.now }
    ensures detail { IfErr result (λ r. Fits r.code r.detail) }
{
    match control_named(names, &event.control) {
        Some(place) => {
            let control = &names.controls.as_slice()[place];
            target_at(names, screen, values, event, place as u32, control, id)
        }
        None => Err(plain(15)),
    }
}

/// Whether a number lies within bounds.
fn is_within(least: Option<i64>, greatest: Option<i64>, units: i64) -> bool
    ensures { result ≡ is_within_bounds least greatest units }
{
    match (least, greatest) {
        (Some(least), Some(greatest)) => least <= units && units <= greatest,
        _ => false,
    }
}

/// Whether a control of a kind takes a value.
fn takes(kind: Control, least: Option<i64>, greatest: Option<i64>, value: &Value) -> bool
    ensures { result ≡ takes_of kind least greatest (view value.now) }
{
    match (kind, value) {
        (Control::TextInput, Value::Text(text)) => text.as_str().len() <= MOST_BYTES,
        (Control::Slider, Value::Number(number)) => is_within(least, greatest, number.units()),
        (Control::Checkbox, Value::Boolean(_)) | (Control::DatePicker, Value::Date(_)) => true,
        _ => false,
    }
}

/// What a user's input becomes: null takes it away.
fn input_by(
    kind: Control,
    least: Option<i64>,
    greatest: Option<i64>,
    given: Given,
) -> Result<Given, Refusal>
    ensures is { result ≡ input_by_kind kind least greatest given }
    ensures detail { IfErr result (λ r. Fits r.code r.detail) }
{
    match given.value {
        Some(Value::Blank) => Ok(Given { value: None }),
        Some(value) if takes(kind, least, greatest, &value) => Ok(Given { value: Some(value) }),
        _ => Err(plain(20)),
    }
}

/// Whether a control takes input. What stands in a gallery takes none.
fn takes_input(control: &ControlName) -> bool
    ensures { result ≡ takes_input_of control.now }
{
    input_ty(control.kind).is_some() && control.gallery.is_none()
}

/// What the user of a control gives.
fn given_at(
    names: &Names,
    screen: u32,
    values: &[Value],
    number: u32,
    control: &ControlName,
    given: Given,
) -> Result<(u32, Given), Refusal>
    ensures is { (s : SessionState) (i : InputBody) → s.screen ≡ screen → i.value ≡ given
        → result ≡ input_at names.now s (cell_values values.now) i number (Some control.now) }
    ensures detail { IfErr result (λ r. Fits r.code r.detail) }
{
    if !takes_input(control) {
        return Err(plain(16));
    }
    if !is_shown(names, screen, values, number, control) {
        return Err(plain(17));
    }
    let least = bound(names, values, number, "Min", LEAST);
    let greatest = bound(names, values, number, "Max", GREATEST);
    let given = input_by(control.kind, least, greatest, given)?;
    Ok((number, given))
}

/// The number of the control that an input is of, and what its user then gave: there is such a
/// control (15) that takes input (16), it is shown (17), and it takes the value (20).
pub(crate) fn input_target(
    names: &Names,
    screen: u32,
    values: &[Value],
    input: Input,
) -> Result<(u32, Given), Refusal>
    requires { length names.now.controls < 2 ^ 32 }
    ensures is { (s : SessionState) → s.screen ≡ screen
        → result ≡ input_target_of names.now s (cell_values values.now) input }
    ensures detail { IfErr result (λ r. Fits r.code r.detail) }
{
    match control_named(names, &input.control) {
        Some(place) => {
            let control = &names.controls.as_slice()[place];
            given_at(names, screen, values, place as u32, control, input.value)
        }
        None => Err(plain(15)),
    }
}
