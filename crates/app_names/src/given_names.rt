//! The names of tables, screens, controls and named formulas.
ghost use Rattle.std.specs.Prelude.{◌≡◌, ◌≤◌, ◌++◌, IfOk, OnOk, length};
ghost use Rattle.app_names.specs.Declarations as table;
ghost use Rattle.app_names.specs.NameRules as rules;

use app_cells::{Cell, Frame, Spot};
use fx_base::Memory;
use fx_types::words::Words;
use std::alloc::Global;

fn put_table_names(alloc: Global, frame: &Frame, names: &mut Vec<Words>) -> Result<(), Memory>
    ensures { OnOk result (names.new.items ≡ names.old.items ++ table.frame_table_names frame.now) }
{
    for table in frame.schema.tables.as_slice() {
        names.push(table.name.copy(alloc)?)?;
    }
    Ok(())
}

/// The names of tables.
pub fn table_names(alloc: Global, frame: &Frame) -> Result<Vec<Words>, Memory>
    ensures { IfOk result (λ v. v.items ≡ table.frame_table_names frame.now) }
{
    let mut names = Vec::new(alloc);
    put_table_names(alloc, frame, &mut names)?;
    Ok(names)
}

fn put_screen_names(alloc: Global, frame: &Frame, names: &mut Vec<Words>) -> Result<(), Memory>
    ensures { OnOk result (names.new.items ≡ names.old.items ++ frame.now.screens) }
{
    for name in frame.screens.as_slice() {
        names.push(name.copy(alloc)?)?;
    }
    Ok(())
}

fn put_control_names(alloc: Global, frame: &Frame, names: &mut Vec<Words>) -> Result<(), Memory>
    ensures { OnOk result (names.new.items ≡ names.old.items ++ table.control_names frame.now) }
{
    for control in frame.controls.as_slice() {
        names.push(control.name.copy(alloc)?)?;
    }
    Ok(())
}

fn put_own_name(alloc: Global, spot: &Spot, names: &mut Vec<Words>) -> Result<(), Memory>
    ensures { OnOk result (names.new.items ≡ names.old.items ++ table.own_names spot.now) }
{
    if let Spot::Formula(name) = spot {
        names.push(name.copy(alloc)?)?;
    }
    Ok(())
}

/// Adds the names of named formulas.
pub fn put_formula_names(
    alloc: Global,
    cells: &[Cell],
    names: &mut Vec<Words>,
) -> Result<(), Memory>
    ensures { OnOk result (names.new.items ≡ names.old.items ++ table.formula_names cells.now) }
{
    for cell in cells {
        put_own_name(alloc, &cell.spot, names)?;
    }
    Ok(())
}

/// The names that no variable and no collection may have.
pub fn given_names(alloc: Global, frame: &Frame, cells: &[Cell]) -> Result<Vec<Words>, Memory>
    ensures { IfOk result (λ v. v.items ≡ table.given_names frame.now cells.now) }
{
    let mut names = Vec::new(alloc);
    put_table_names(alloc, frame, &mut names)?;
    put_screen_names(alloc, frame, &mut names)?;
    put_control_names(alloc, frame, &mut names)?;
    put_formula_names(alloc, cells, &mut names)?;
    Ok(names)
}

// Adds the names of a screen's controls.
fn put_names_on(
    alloc: Global,
    frame: &Frame,
    screen: u32,
    names: &mut Vec<Words>,
) -> Result<(), Memory>
    ensures { OnOk result (names.new.items ≡ names.old.items ++ rules.names_on frame.now screen) }
{
    for control in frame.controls.as_slice() {
        if control.screen == screen {
            names.push(control.name.copy(alloc)?)?;
        }
    }
    Ok(())
}

/// The names of screens, each before those of its controls.
pub fn screen_names(alloc: Global, frame: &Frame) -> Result<Vec<Words>, Memory>
    requires { length frame.now.screens ≤ 64 }
    ensures { IfOk result (λ v. v.items ≡ rules.names_on_screen frame.now 0 frame.now.screens) }
{
    let mut names = Vec::new(alloc);
    let mut screen = 0;
    for name in frame.screens.as_slice() {
        names.push(name.copy(alloc)?)?;
        put_names_on(alloc, frame, screen, &mut names)?;
        screen += 1;
    }
    Ok(names)
}
