//! What sources are worth, where the values of cells are known.
ghost use Rattle.std.specs.Prelude.{◌≡◌, ℕ, ◌<◌, IfOk, Some, length, map, option_map, slice_get};
ghost use Rattle.app_semantics.specs.app_cells.Leaning as leaning;
ghost use Rattle.app_semantics.specs.Present as spec;
ghost use Rattle.fx_types.specs.ValueView.{view};
ghost use Rattle.fx_types.specs.Values.{Data};
ghost use Rattle.recalc.specs.Reading.{cell_value};
ghost use Rattle.session_state.specs.Sessions.{Holds};
ghost use Rattle.fx_core.specs.declared.sources.Source.TheVariants as source;

use crate::chosen_items::selection;
use fx_base::Memory;
use fx_core::{Names, Source};
use fx_number::Num;
use fx_types::controls::Control;
use fx_types::values::{Rows, Value};
use session_state::Session;
use std::alloc::Global;

/// The value of a cell, and blank for one that isn't there.
pub(crate) fn value_of(alloc: Global, values: &[Value], cell: u32) -> Result<Value, Memory>
    ensures { IfOk result (λ v. view v ≡ cell_value (map view values.now) cell) }
{
    match values.get(cell as usize) {
        Some(value) => value.copy(alloc),
        None => Ok(Value::Blank),
    }
}

/// The number of the cell of a control's property, where that is written.
pub fn cell_of_property(names: &Names, control: u32, name: &str) -> Option<u32>
    ensures { result ≡ leaning.cell_of_property names.now control name.now }
{
    for property in names.properties.as_slice() {
        if property.control == control && property.name.as_str() == name {
            return Some(property.cell);
        }
    }
    None
}

// The property that gives an input its value until a user does.
fn default_name(kind: Control) -> Option<&'static str>
    ensures { option_map (λ n. n.now) result ≡ leaning.default_name kind }
{
    match kind {
        Control::TextInput | Control::Slider | Control::Checkbox => Some("Default"),
        Control::DatePicker => Some("DefaultDate"),
        Control::Label | Control::Button | Control::Gallery => None,
    }
}

// The number of the cell of a control's default, where it has one and that is written.
fn default_cell(names: &Names, control: u32) -> Option<u32>
    ensures { result ≡ leaning.default_cell names.now control }
{
    let kind = names.controls.get(control as usize)?.kind;
    cell_of_property(names, control, default_name(kind)?)
}

// The value of an input of this kind to which neither a user nor a formula gave one.
fn initial_value(kind: Control) -> Value
    ensures { view result ≡ spec.unset kind }
{
    match kind {
        Control::Slider => match Num::from_units(0) {
            Some(zero) => Value::Number(zero),
            None => unreachable!(),
        },
        Control::Checkbox => Value::Boolean(false),
        _ => Value::Blank,
    }
}

// The same, by the control's number.
fn unset_at(names: &Names, control: u32) -> Value
    ensures { view result ≡ spec.unset_value (slice_get names.now.controls control) }
{
    match names.controls.get(control as usize) {
        Some(control) => initial_value(control.kind),
        None => Value::Blank,
    }
}

// The value of an input's default.
fn default_of(alloc: Global, names: &Names, values: &[Value], control: u32) -> Result<Value, Memory>
    ensures { IfOk result (λ v. view v ≡ spec.cell_value_or (cell_value (map view values.now))
        (spec.unset_value (slice_get names.now.controls control))
        (leaning.default_cell names.now control)) }
{
    match default_cell(names, control) {
        Some(cell) => value_of(alloc, values, cell),
        None => Ok(unset_at(names, control)),
    }
}

/// The number of the cell on which leans who reads a source.
pub fn cell_behind(names: &Names, source: Source) -> Option<u32>
    ensures { result ≡ leaning.cell_behind names.now source }
{
    match source {
        Source::Cell(cell) => Some(cell),
        Source::Input(control) => default_cell(names, control),
        Source::Chosen(gallery) => cell_of_property(names, gallery, "Items"),
        Source::Global(_) | Source::Context(_) | Source::Gathered(_) => None,
        Source::Table(_) | Source::Today => None,
    }
}

/// The value of an input.
pub(crate) fn input(
    alloc: Global,
    names: &Names,
    session: &Session,
    values: &[Value],
    control: u32,
) -> Result<Value, Memory>
    requires { Holds session.now (source.Input control) }
    ensures { IfOk result (λ v. view v ≡ spec.input_of names.now session.now
        (cell_value (map view values.now)) control) }
{
    match session.get(Source::Input(control))? {
        Value::Blank => default_of(alloc, names, values, control),
        value => Ok(value),
    }
}

/// The items of a gallery.
pub(crate) fn items(
    alloc: Global,
    names: &Names,
    values: &[Value],
    gallery: u32,
) -> Result<Value, Memory>
    ensures { IfOk result (λ v. view v ≡ spec.items_of names.now (cell_value (map view values.now))
        gallery) }
{
    match cell_of_property(names, gallery, "Items") {
        Some(cell) => value_of(alloc, values, cell),
        None => Ok(Value::Tab(Rows::new(alloc))),
    }
}

/// The chosen item of a gallery.
pub(crate) fn chosen_item(
    alloc: Global,
    names: &Names,
    session: &Session,
    values: &[Value],
    gallery: u32,
) -> Result<Value, Memory>
    ensures { IfOk result (λ v. view v ≡ spec.selected_of names.now session.now
        (cell_value (map view values.now)) gallery) }
{
    let items = items(alloc, names, values, gallery)?;
    selection(alloc, session.chosen(gallery), &items)
}
