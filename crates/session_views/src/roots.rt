// Which cells are looked at.
ghost use Rattle.std.specs.Prelude.{◌≡◌, ◌↔◌, ◌⊎◌, ℕ, IfOk, OnOk, Some, true};
ghost use Rattle.std.specs.List.{Contains};
ghost use Rattle.session_views.specs.Looking.{AreLookedAt, IsThrough, IsOwnCell, IsLeanedOn};
ghost use Rattle.session_views.specs.Looking.{is_control_among as is_among_of};
ghost use Rattle.session_views.specs.Looking.{is_in_template as is_in_template_of};
ghost use Rattle.recalc.specs.app_cells.Leaning.{LeansOn, cell_behind as behind};
ghost use Rattle.recalc.specs.app_semantics.Needed.{is_alone as is_alone_in};

use crate::app_cells::{App, CellInfo};
use fx_base::Memory;
use fx_core::{Names, Source};
use recalc::{cell_behind, stands_alone};
use std::alloc::Global;

/// The controls that are shown.
#[derive(Clone, Copy)]
pub(crate) enum Part {
    /// Those of a screen, by its number, that stand in no gallery.
    Screen(u32),
    /// A gallery alone.
    Gallery(u32),
}

// Whether the control of this number is one of a part.
fn is_among(names: &Names, part: Part, control: u32) -> bool
    ensures { result ≡ is_among_of names.now part control }
{
    match part {
        Part::Screen(screen) => match names.controls.get(control as usize) {
            Some(named) => named.gallery.is_none() && named.screen == screen,
            None => false,
        },
        Part::Gallery(gallery) => control == gallery,
    }
}

// Whether a formula stands in the template of a gallery of a part.
fn is_in_template(names: &Names, part: Part, info: &CellInfo) -> bool
    ensures { result ≡ is_in_template_of (is_among_of names.now part) info.now }
{
    match info.cell.item {
        Some(gallery) => !info.cell.acts && is_among(names, part, gallery),
        None => false,
    }
}

// Whether the formula of this number has a value by itself.
fn is_alone(app: &App, cell: u32) -> bool
    ensures { result ≡ is_alone_in app.now.cells cell }
{
    match app.cells.get(cell as usize) {
        Some(info) => stands_alone(info),
        None => false,
    }
}

// Adds a cell, if it has a value by itself.
fn add_cell(app: &App, cell: u32, roots: &mut Vec<u32>) -> Result<(), Memory>
    ensures { OnOk result ((k : ℕ) → Contains roots.new.items k
        ↔ (Contains roots.old.items k ⊎ ((cell ≡ k) × (is_alone_in app.now.cells k ≡ true)))) }
{
    if is_alone(app, cell) {
        roots.push(cell)?;
    }
    Ok(())
}

// Adds the cell on which leans who reads a source.
fn add_behind(app: &App, source: &Source, roots: &mut Vec<u32>) -> Result<(), Memory>
    ensures { OnOk result ((k : ℕ) → Contains roots.new.items k
        ↔ (Contains roots.old.items k ⊎ ((behind app.now.names source.now ≡ Some k)
        × (is_alone_in app.now.cells k ≡ true)))) }
{
    match cell_behind(&app.names, *source) {
        Some(cell) => add_cell(app, cell, roots),
        None => Ok(()),
    }
}

// Adds the cells on which a formula leans.
fn add_leaned(app: &App, info: &CellInfo, roots: &mut Vec<u32>) -> Result<(), Memory>
    ensures { OnOk result ((k : ℕ) → Contains roots.new.items k
        ↔ (Contains roots.old.items k ⊎ (LeansOn app.now.names info.now k
        × (is_alone_in app.now.cells k ≡ true)))) }
{
    for source in info.reads.as_slice() {
        add_behind(app, source, roots)?;
    }
    Ok(())
}

// The same, if it stands in the template of a gallery of a part.
fn add_under(app: &App, part: Part, info: &CellInfo, roots: &mut Vec<u32>) -> Result<(), Memory>
    ensures { OnOk result ((k : ℕ) → Contains roots.new.items k
        ↔ (Contains roots.old.items k ⊎ (IsLeanedOn app.now.names (is_among_of app.now.names part)
        info.now k × (is_alone_in app.now.cells k ≡ true)))) }
{
    if is_in_template(&app.names, part, info) {
        add_leaned(app, info, roots)
    } else {
        Ok(())
    }
}

// Adds the cells on which the formulas of templates lean.
fn add_all_under(app: &App, part: Part, roots: &mut Vec<u32>) -> Result<(), Memory>
    ensures { OnOk result ((k : ℕ) → Contains roots.new.items k
        ↔ (Contains roots.old.items k ⊎ (IsThrough
        (IsLeanedOn app.now.names (is_among_of app.now.names part)) app.now.cells k
        × (is_alone_in app.now.cells k ≡ true)))) }
{
    for info in app.cells.as_slice() {
        add_under(app, part, info, roots)?;
    }
    Ok(())
}

// Adds the formula of a property, if it is one of a part's controls.
fn add_own(
    app: &App,
    part: Part,
    control: u32,
    cell: u32,
    roots: &mut Vec<u32>,
) -> Result<(), Memory>
    ensures { OnOk result ((k : ℕ) → Contains roots.new.items k
        ↔ (Contains roots.old.items k ⊎ (((is_among_of app.now.names part control ≡ true)
        × (cell ≡ k)) × (is_alone_in app.now.cells k ≡ true)))) }
{
    if is_among(&app.names, part, control) {
        add_cell(app, cell, roots)
    } else {
        Ok(())
    }
}

// Adds the formulas of all properties of a part's controls.
fn add_all_own(app: &App, part: Part, roots: &mut Vec<u32>) -> Result<(), Memory>
    ensures { OnOk result ((k : ℕ) → Contains roots.new.items k
        ↔ (Contains roots.old.items k ⊎ (IsThrough
        (IsOwnCell app.now.names (is_among_of app.now.names part)) app.now.names.properties k
        × (is_alone_in app.now.cells k ≡ true)))) }
{
    for property in app.names.properties.as_slice() {
        add_own(app, part, property.control, property.cell, roots)?;
    }
    Ok(())
}

/// The cells that are looked at for a part's controls, but those that have no value by themselves.
pub(crate) fn roots_of(alloc: Global, app: &App, part: Part) -> Result<Vec<u32>, Memory>
    ensures { IfOk result (λ v. AreLookedAt app.now (is_among_of app.now.names part) v.items) }
{
    let mut roots = Vec::new(alloc);
    add_all_own(app, part, &mut roots)?;
    add_all_under(app, part, &mut roots)?;
    Ok(roots)
}
