//! What a session keeps as a whole app is replaced.
ghost use Rattle.std.specs.Prelude.{◌≡◌, ◌<◌, ◌≤◌, ◌^◌, [], IfSome, None, length, map};
ghost use Rattle.std.specs.Prelude.{option_and_then, option_map, slice_get, vec_capacity};
ghost use Rattle.fx_types.specs.ValueView.{view};
ghost use Rattle.session_state.specs.CarriedOver as over;
ghost use Rattle.session_state.specs.Carrying.{carried_values};

use crate::carrying::{is_place, put, take};
use fx_core::Names;
use fx_core::names::{ControlList, ControlName, ScreenList};
use fx_types::controls::Control;
use fx_types::values::Value;
use fx_types::words::Words;

// Whether two controls are of one kind.
fn is_same_kind(one: Control, other: Control) -> bool
    ensures { result ≡ over.is_same_kind one other }
{
    match (one, other) {
        (Control::Label, Control::Label)
        | (Control::Button, Control::Button)
        | (Control::TextInput, Control::TextInput)
        | (Control::Slider, Control::Slider)
        | (Control::Checkbox, Control::Checkbox)
        | (Control::DatePicker, Control::DatePicker)
        | (Control::Gallery, Control::Gallery) => true,
        _ => false,
    }
}

// Whether two controls have one name and are of one kind.
fn is_same_control(one: &ControlName, other: &ControlName) -> bool
    ensures { result ≡ over.is_same_control one.now other.now }
{
    one.name.is(&other.name) && is_same_kind(one.kind, other.kind)
}

// Where a control of the same name and kind stands among these.
fn place_of_control(controls: &ControlList, control: &ControlName) -> Option<usize>
    ensures { result ≡ over.place_of_control controls.now control.now }
{
    controls
        .as_slice()
        .iter()
        .position(|one| is_same_control(one, control))
}

/// Where the control at a place was among the old ones.
pub fn control_was(old: &ControlList, new: &ControlList, place: usize) -> Option<usize>
    ensures { result ≡ over.control_was old.now new.now place }
{
    let control = new.get(place)?;
    let was = place_of_control(old, control)?;
    let one = old.get(was)?;
    if is_place(place, place_of_control(new, one)) {
        Some(was)
    } else {
        None
    }
}

/// Moves what is kept of controls, and nothing for the others, to where there is room for it.
pub(crate) fn carry_kept<T: Drop>(
    old: &ControlList,
    new: &ControlList,
    from: &mut Vec<Option<T>>,
    to: &mut Vec<Option<T>>,
)
    requires empty { to.old.items ≡ [] }
    requires room { length new.now ≤ vec_capacity to.old }
    ensures { to.new.items ≡ carried_values (over.control_was old.now new.now) None from.old.items
        (length new.now) }
{
    for place in 0..new.len() {
        put(to, take(from, control_was(old, new, place), None));
    }
}

/// Moves what users gave, and nothing for the others, to where there is room for it.
pub(crate) fn carry_inputs(
    old: &ControlList,
    new: &ControlList,
    from: &mut Vec<Option<Value>>,
    to: &mut Vec<Option<Value>>,
)
    requires empty { to.old.items ≡ [] }
    requires room { length new.now ≤ vec_capacity to.old }
    ensures { map (option_map view) to.new.items ≡ carried_values
        (over.control_was old.now new.now) None (map (option_map view) from.old.items)
        (length new.now) }
{
    carry_kept(old, new, from, to);
}

// Where a name stands among these.
fn place_of_name(names: &ScreenList, name: &Words) -> Option<usize>
    ensures place { result ≡ over.place_of_name names.now name.now }
    ensures there { IfSome result (λ k. k < length names.now) }
{
    names.as_slice().iter().position(|one| one.is(name))
}

// The place of the screen of the same name, if there is one.
fn same_screen(old: &Names, new: &Names, screen: u32) -> Option<usize>
    ensures place { result ≡ option_and_then (over.place_of_name new.now.screens)
        (slice_get old.now.screens screen) }
    ensures there { IfSome result (λ k. k < length new.now.screens) }
{
    place_of_name(&new.screens, old.screens.get(screen as usize)?)
}

/// The number of the screen of the same name, or else of the first one.
pub(crate) fn screen_over(old: &Names, new: &Names, screen: u32) -> u32
    requires { length new.now.screens < 2 ^ 32 }
    ensures { result ≡ over.screen_over old.now new.now screen }
{
    match same_screen(old, new, screen) {
        Some(place) => place as u32,
        None => 0,
    }
}
