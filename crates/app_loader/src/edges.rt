//! Which formulas lean on which.
ghost use Rattle.std.specs.Prelude.{◌≡◌, ◌<◌, ◌^◌, ◌++◌, IfOk, OnOk, length, option_map};
ghost use Rattle.app_cells.specs.Leaning as leaning;
ghost use Rattle.app_cells.specs.Leaning.{edges_by};

use app_cells::CellInfo;
use fx_base::Memory;
use fx_core::{Names, Property, Source};
use fx_types::controls::Control;
use std::alloc::Global;

// Whether this is the property of this name of a control.
fn is_property(control: u32, name: &str, property: &Property) -> bool
    ensures { result ≡ leaning.is_property control name.now property.now }
{
    property.control == control && property.name.as_str() == name
}

// The number of the cell of a control's property, where that is written.
fn property_cell(names: &Names, control: u32, name: &str) -> Option<u32>
    ensures { result ≡ leaning.cell_of_property names.now control name.now }
{
    for property in names.properties.as_slice() {
        if is_property(control, name, property) {
            return Some(property.cell);
        }
    }
    None
}

// The property that gives an input its value until a user does.
fn default_name(kind: Control) -> Option<&'static str>
    ensures { option_map (λ n. n.now) result ≡ leaning.default_name kind }
{
    match kind {
        Control::TextInput | Control::Slider | Control::Checkbox => Some("Default"),
        Control::DatePicker => Some("DefaultDate"),
        Control::Label | Control::Button | Control::Gallery => None,
    }
}

// The number of the cell of a control's default.
fn default_cell(names: &Names, control: u32) -> Option<u32>
    ensures { result ≡ leaning.default_cell names.now control }
{
    let shape = names.controls.get(control as usize)?;
    let name = default_name(shape.kind)?;
    property_cell(names, control, name)
}

/// The number of the cell on which leans who reads a source.
pub fn cell_behind(names: &Names, source: Source) -> Option<u32>
    ensures { result ≡ leaning.cell_behind names.now source }
{
    match source {
        Source::Cell(cell) => Some(cell),
        Source::Input(control) => default_cell(names, control),
        Source::Chosen(control) => property_cell(names, control, "Items"),
        Source::Global(_)
        | Source::Context(_)
        | Source::Gathered(_)
        | Source::Table(_)
        | Source::Today => None,
    }
}

// Adds the edges from a formula through these sources.
fn put_edges(
    names: &Names,
    number: u32,
    reads: &[Source],
    edges: &mut Vec<(u32, u32)>,
) -> Result<(), Memory>
    ensures { OnOk result (edges.new.items ≡ edges.old.items ++ edges_by names.now number reads.now) }
{
    for source in reads {
        if let Some(cell) = cell_behind(names, *source) {
            edges.push((number, cell))?;
        }
    }
    Ok(())
}

/// The edges of formulas: each is one of them with one that it leans on.
pub fn edges(alloc: Global, names: &Names, infos: &[CellInfo]) -> Result<Vec<(u32, u32)>, Memory>
    requires { length infos.now < 2 ^ 32 }
    ensures { IfOk result (λ v. v.items ≡ leaning.edges_of names.now infos.now) }
{
    let mut edges = Vec::new(alloc);
    let mut number = 0;
    for info in infos {
        put_edges(names, number, info.reads.as_slice(), &mut edges)?;
        number += 1;
    }
    Ok(edges)
}
