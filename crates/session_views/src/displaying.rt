// The properties that controls show.
ghost use Rattle.std.specs.Prelude.{◌≡◌, ◌∷◌, [], IfOk, Some, codes, pos, slice_get};
ghost use Rattle.recalc.specs.app_semantics.Holding.{HoldsFitting};
ghost use Rattle.recalc.specs.app_semantics.Properties as properties;
ghost use Rattle.session_views.specs.Views as views;
ghost use Rattle.fx_types.specs.ValueView.{view};
ghost use Rattle.fx_types.specs.declared.controls.Control.TheVariants as kinds;
ghost use Rattle.fx_types.specs.Values.{number as number_data, text as text_data};
ghost use Rattle.fx_core.specs.declared.sources.Source.TheVariants as source;
ghost use Rattle.recalc.specs.Values.{value_of};
ghost use Rattle.session_state.specs.Sessions.{Holds};

use fx_base::Memory;
use fx_core::Names;
use fx_core::names::ControlName;
use fx_number::Num;
use fx_types::{Control, Fields, Value, Words};
use recalc::{Valued, cell_of_property, is_visible};
use session_state::Session;
use std::alloc::Global;

/// An empty text.
pub(crate) fn no_text(alloc: Global) -> Result<Value, Memory>
    ensures { IfOk result (λ v. view v ≡ text_data []) }
{
    Ok(Value::Text(Words::of(alloc, "")?))
}

/// A record with the one field `Text`.
pub(crate) fn text_alone(alloc: Global, value: Value) -> Result<Fields, Memory>
    ensures { IfOk result (λ f. f ≡ (codes "Text", view value) ∷ []) }
{
    let name = text_name(alloc)?;
    one_field(name, value, alloc)
}

fn text_name(alloc: Global) -> Result<Words, Memory>
    ensures { IfOk result (λ w. w ≡ codes "Text") }
{
    Ok(Words::of(alloc, "Text")?)
}

fn value_name(alloc: Global) -> Result<Words, Memory>
    ensures { IfOk result (λ w. w ≡ codes "Value") }
{
    Ok(Words::of(alloc, "Value")?)
}

fn max_name(alloc: Global) -> Result<Words, Memory>
    ensures { IfOk result (λ w. w ≡ codes "Max") }
{
    Ok(Words::of(alloc, "Max")?)
}

fn min_name(alloc: Global) -> Result<Words, Memory>
    ensures { IfOk result (λ w. w ≡ codes "Min") }
{
    Ok(Words::of(alloc, "Min")?)
}

fn date_name(alloc: Global) -> Result<Words, Memory>
    ensures { IfOk result (λ w. w ≡ codes "SelectedDate") }
{
    Ok(Words::of(alloc, "SelectedDate")?)
}

// A record with one field.
fn one_field(name: Words, value: Value, alloc: Global) -> Result<Fields, Memory>
    ensures { IfOk result (λ f. f ≡ (name, view value) ∷ []) }
{
    let mut fields = Fields::new(alloc);
    fields.push((name, value))?;
    Ok(fields)
}

// The value of a control's property, and another where it isn't written.
fn property(
    alloc: Global,
    names: &Names,
    valued: &Valued,
    control: u32,
    name: &str,
    unwritten: Value,
) -> Result<Value, Memory>
    ensures { IfOk result (λ v. view v ≡ properties.property_value names.now (value_of valued.now)
        control name.now (view unwritten)) }
{
    match cell_of_property(names, control, name) {
        Some(cell) => valued.value(alloc, cell),
        None => Ok(unwritten),
    }
}

/// Whether a control stands on the current screen, and is visible.
pub(crate) fn is_seen(
    names: &Names,
    session: &Session,
    valued: &Valued,
    number: u32,
    control: &ControlName,
) -> bool
    ensures { result ≡ views.is_seen names.now session.now (value_of valued.now) number control.now }
{
    let values = valued.as_slice();
    control.screen == session.screen() && is_visible(names, values, number)
}

// What a slider goes from where nothing is written, and what it goes to.
fn least_unwritten() -> Value
    ensures { view result ≡ number_data (pos 0) }
{
    match Num::from_units(0) {
        Some(number) => Value::Number(number),
        None => unreachable!(),
    }
}

fn most_unwritten() -> Value
    ensures { view result ≡ number_data (pos 1000000) }
{
    match Num::from_units(1_000_000) {
        Some(number) => Value::Number(number),
        None => unreachable!(),
    }
}

// The text of a label, a button or a checkbox.
fn text(alloc: Global, names: &Names, valued: &Valued, control: u32) -> Result<Value, Memory>
    ensures { IfOk result (λ v. view v ≡ properties.property_value names.now (value_of valued.now)
        control (codes "Text") (text_data [])) }
{
    let unwritten = no_text(alloc)?;
    property(alloc, names, valued, control, "Text", unwritten)
}

fn slider(
    alloc: Global,
    names: &Names,
    session: &Session,
    valued: &Valued,
    control: u32,
) -> Result<Fields, Memory>
    requires { Holds session.now (source.Input control) }
    ensures { IfOk result (λ f. f ≡ views.displayed names.now session.now (value_of valued.now)
        control kinds.Slider) }
{
    let least = property(alloc, names, valued, control, "Min", least_unwritten())?;
    let most = property(alloc, names, valued, control, "Max", most_unwritten())?;
    let value = valued.input(alloc, names, session, control)?;
    let max = max_name(alloc)?;
    let mut fields = one_field(max, most, alloc)?;
    let min = min_name(alloc)?;
    fields.push((min, least))?;
    let name = value_name(alloc)?;
    fields.push((name, value))?;
    Ok(fields)
}

fn checkbox(
    alloc: Global,
    names: &Names,
    session: &Session,
    valued: &Valued,
    control: u32,
) -> Result<Fields, Memory>
    requires { Holds session.now (source.Input control) }
    ensures { IfOk result (λ f. f ≡ views.displayed names.now session.now (value_of valued.now)
        control kinds.Checkbox) }
{
    let text = text(alloc, names, valued, control)?;
    let value = valued.input(alloc, names, session, control)?;
    let mut fields = text_alone(alloc, text)?;
    let name = value_name(alloc)?;
    fields.push((name, value))?;
    Ok(fields)
}

fn text_input(
    alloc: Global,
    names: &Names,
    session: &Session,
    valued: &Valued,
    control: u32,
) -> Result<Fields, Memory>
    requires { Holds session.now (source.Input control) }
    ensures { IfOk result (λ f. f ≡ views.displayed names.now session.now (value_of valued.now)
        control kinds.TextInput) }
{
    let value = valued.input(alloc, names, session, control)?;
    text_alone(alloc, value)
}

fn date_picker(
    alloc: Global,
    names: &Names,
    session: &Session,
    valued: &Valued,
    control: u32,
) -> Result<Fields, Memory>
    requires { Holds session.now (source.Input control) }
    ensures { IfOk result (λ f. f ≡ views.displayed names.now session.now (value_of valued.now)
        control kinds.DatePicker) }
{
    let value = valued.input(alloc, names, session, control)?;
    let name = date_name(alloc)?;
    one_field(name, value, alloc)
}

// The text alone, of a label or a button.
fn text_shown(alloc: Global, names: &Names, valued: &Valued, control: u32) -> Result<Fields, Memory>
    ensures { IfOk result (λ f. f ≡ (
      codes "Text",
      properties.property_value names.now
          (value_of valued.now) control (codes "Text") (text_data []),
    ) ∷ []) }
{
    let text = text(alloc, names, valued, control)?;
    text_alone(alloc, text)
}

/// The properties that a control shows, with their values.
pub(crate) fn display(
    alloc: Global,
    names: &Names,
    session: &Session,
    valued: &Valued,
    number: u32,
    control: &ControlName,
) -> Result<Fields, Memory>
    requires holds { HoldsFitting names.now session.now }
    requires control { slice_get names.now.controls number ≡ Some control.now }
    ensures { IfOk result (λ f. f ≡ views.displayed names.now session.now (value_of valued.now)
        number control.now.kind) }
{
    match control.kind {
        Control::Label => text_shown(alloc, names, valued, number),
        Control::Button => text_shown(alloc, names, valued, number),
        Control::TextInput => text_input(alloc, names, session, valued, number),
        Control::Slider => slider(alloc, names, session, valued, number),
        Control::Checkbox => checkbox(alloc, names, session, valued, number),
        Control::DatePicker => date_picker(alloc, names, session, valued, number),
        Control::Gallery => Ok(Fields::new(alloc)),
    }
}
