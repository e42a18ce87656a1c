//! The formulas at which the checks of events and inputs look.
ghost use Rattle.std.specs.List.{Contains};
ghost use Rattle.std.specs.Prelude.{◌≡◌, ℕ, IfOk, OnOk, Some, codes, true};
ghost use Rattle.recalc.specs.app_cells.Leaning.{default_cell};
ghost use Rattle.recalc.specs.app_semantics.Needed.{is_alone};
ghost use Rattle.session_requests.specs.Posting.{IsPropertyAt, VisibleLeansOn};
ghost use Rattle.session_requests.specs.Posting.{shown_by as shown_by_of};

use crate::app_cells::App;
use crate::refresh_inputs::{cells_behind, has_value};
use crate::visible::gallery_around;
use fx_base::Memory;
use fx_core::Source;
use recalc::{cell_behind, cell_of_property};
use std::alloc::Global;

/// What a control is shown by: the gallery in which it stands, and else the control itself.
fn shown_by(app: &App, control: u32) -> u32
    ensures { result ≡ shown_by_of app.now control }
{
    gallery_around(app, control).unwrap_or(control)
}

/// Adds a cell, if there is one that has a value by itself.
fn add(app: &App, cells: &mut Vec<u32>, cell: Option<u32>) -> Result<(), Memory>
    requires alone { (d : ℕ) → Contains cells.old.items d → is_alone app.now.cells d ≡ true }
    ensures alone { OnOk result ((d : ℕ) → Contains cells.new.items d
        → is_alone app.now.cells d ≡ true) }
    ensures still { OnOk result ((d : ℕ) → Contains cells.old.items d → Contains cells.new.items d) }
    ensures added { OnOk result ((d : ℕ) → cell ≡ Some d → is_alone app.now.cells d ≡ true
        → Contains cells.new.items d) }
{
    match cell {
        Some(number) if has_value(app, number) => {
            cells.push(number)?;
            Ok(())
        }
        _ => Ok(()),
    }
}

/// The cells on which the formula leans that says whether a control is visible, as far as they have
/// values by themselves.
fn leaned_on(alloc: Global, app: &App, control: u32) -> Result<Vec<u32>, Memory>
    ensures alone { IfOk result (λ v. (d : ℕ) → Contains v.items d
        → is_alone app.now.cells d ≡ true) }
    ensures leaned { IfOk result (λ v. (d : ℕ) → VisibleLeansOn app.now control d
        → is_alone app.now.cells d ≡ true → Contains v.items d) }
{
    let Some(visible) = cell_of_property(&app.names, control, "Visible") else {
        return Ok(Vec::new(alloc));
    };
    match app.cells.get(visible as usize) {
        Some(info) => cells_behind(alloc, app, info.reads.as_slice()),
        None => Ok(Vec::new(alloc)),
    }
}

/// The cells at which the checks of an event of a control look, as far as they have values by
/// themselves.
pub(crate) fn event_cells(alloc: Global, app: &App, control: u32) -> Result<Vec<u32>, Memory>
    ensures alone { IfOk result (λ v. (d : ℕ) → Contains v.items d
        → is_alone app.now.cells d ≡ true) }
    ensures shown { IfOk result (λ v. (d : ℕ)
        → IsPropertyAt app.now (shown_by_of app.now control) (codes "Visible") d
        → is_alone app.now.cells d ≡ true → Contains v.items d) }
    ensures items { IfOk result (λ v. (d : ℕ)
        → IsPropertyAt app.now (shown_by_of app.now control) (codes "Items") d
        → is_alone app.now.cells d ≡ true → Contains v.items d) }
    ensures leaned { IfOk result (λ v. (d : ℕ) → VisibleLeansOn app.now control d
        → is_alone app.now.cells d ≡ true → Contains v.items d) }
{
    let names = &app.names;
    let around = shown_by(app, control);
    let mut cells = leaned_on(alloc, app, control)?;
    add(app, &mut cells, cell_of_property(names, around, "Visible"))?;
    add(app, &mut cells, cell_of_property(names, around, "Items"))?;
    Ok(cells)
}

/// The same of the checks of an input.
pub(crate) fn input_cells(alloc: Global, app: &App, control: u32) -> Result<Vec<u32>, Memory>
    ensures alone { IfOk result (λ v. (d : ℕ) → Contains v.items d
        → is_alone app.now.cells d ≡ true) }
    ensures shown { IfOk result (λ v. (d : ℕ)
        → IsPropertyAt app.now (shown_by_of app.now control) (codes "Visible") d
        → is_alone app.now.cells d ≡ true → Contains v.items d) }
    ensures least { IfOk result (λ v. (d : ℕ) → IsPropertyAt app.now control (codes "Min") d
        → is_alone app.now.cells d ≡ true → Contains v.items d) }
    ensures greatest { IfOk result (λ v. (d : ℕ) → IsPropertyAt app.now control (codes "Max") d
        → is_alone app.now.cells d ≡ true → Contains v.items d) }
    ensures unset { IfOk result (λ v. (d : ℕ) → default_cell app.now.names control ≡ Some d
        → is_alone app.now.cells d ≡ true → Contains v.items d) }
{
    let names = &app.names;
    let around = shown_by(app, control);
    let mut cells = Vec::new(alloc);
    add(app, &mut cells, cell_of_property(names, around, "Visible"))?;
    add(app, &mut cells, cell_of_property(names, control, "Min"))?;
    add(app, &mut cells, cell_of_property(names, control, "Max"))?;
    add(app, &mut cells, cell_behind(names, Source::Input(control)))?;
    Ok(cells)
}
