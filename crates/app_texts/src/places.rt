//! The places of an app where formulas may stand.
ghost use Rattle.std.specs.Prelude.{◌≡◌, ◌≤◌, ◌++◌, IfOk, OnOk, find, flat_map, length};
ghost use Rattle.app_cells.specs.Spots.{IsFrame};
ghost use Rattle.app_cells.specs.declared.app.CellInfo.{CellInfo as Info};
ghost use Rattle.app_texts.specs.Places as places;

use crate::copies::copy_spot;
use app_cells::{CellInfo, Frame, Spot, address_at};
use app_file::keys::{Object, keys_of};
use fx_base::Memory;
use fx_core::names::ControlName;
use fx_types::controls::Control;
use fx_types::words::Words;
use std::alloc::Global;

// Adds the places of named formulas.
fn put_formulas(alloc: Global, cells: &[CellInfo], spots: &mut Vec<Spot>) -> Result<(), Memory>
    ensures { OnOk result (spots.new.items ≡ spots.old.items
        ++ flat_map (λ (i : Info). places.named_spot i.cell.spot) cells.now) }
{
    for info in cells {
        if let Spot::Formula(name) = &info.cell.spot {
            spots.push(Spot::Formula(name.copy(alloc)?))?;
        }
    }
    Ok(())
}

// Adds the places of the properties of a control.
fn put_properties(
    alloc: Global,
    number: u32,
    kind: Control,
    spots: &mut Vec<Spot>,
) -> Result<(), Memory>
    ensures { OnOk result (spots.new.items ≡ spots.old.items ++ places.property_spots number kind) }
{
    let properties = keys_of(Object::Properties(kind));
    for property in properties {
        let name = Words::of(alloc, property)?;
        spots.push(Spot::Property(number, name))?;
    }
    Ok(())
}

// Adds those of the controls of a screen.
fn put_controls(
    alloc: Global,
    controls: &[ControlName],
    screen: u32,
    spots: &mut Vec<Spot>,
) -> Result<(), Memory>
    requires { length controls.now ≤ 500 }
    ensures { OnOk result (spots.new.items ≡ spots.old.items
        ++ places.control_spots screen 0 controls.now) }
{
    let mut number = 0;
    for control in controls {
        if control.screen == screen {
            put_properties(alloc, number, control.kind, spots)?;
        }
        number += 1;
    }
    Ok(())
}

// Adds for each screen where the formula stands that runs when it is shown, and the places of its
// controls.
fn put_screens(
    alloc: Global,
    screens: &[Words],
    controls: &[ControlName],
    spots: &mut Vec<Spot>,
) -> Result<(), Memory>
    requires screens { length screens.now ≤ 64 }
    requires controls { length controls.now ≤ 500 }
    ensures { OnOk result (spots.new.items ≡ spots.old.items
        ++ places.screen_spots controls.now 0 screens.now) }
{
    let mut number = 0;
    for _name in screens {
        spots.push(Spot::OnVisible(number))?;
        put_controls(alloc, controls, number, spots)?;
        number += 1;
    }
    Ok(())
}

/// The places of an app, in its order: those of its named formulas, `App.OnStart`, and for each
/// screen its `OnVisible` and the properties of its controls, whether a formula is written there or
/// not.
pub fn spots_of(alloc: Global, frame: &Frame, cells: &[CellInfo]) -> Result<Vec<Spot>, Memory>
    requires { IsFrame frame.now }
    ensures { IfOk result (λ v. v.items ≡ places.spots_in frame.now cells.now) }
{
    let mut spots = Vec::new(alloc);
    put_formulas(alloc, cells, &mut spots)?;
    spots.push(Spot::OnStart)?;
    put_screens(
        alloc,
        frame.screens.as_slice(),
        frame.controls.as_slice(),
        &mut spots,
    )?;
    Ok(spots)
}

/// Whether two places are the same.
pub(crate) fn is_same(one: &Spot, other: &Spot) -> bool
    ensures { result ≡ places.is_same_spot one.now other.now }
{
    match one {
        Spot::Formula(name) => match other {
            Spot::Formula(it) => it.is(name),
            Spot::OnStart | Spot::OnVisible(_) | Spot::Property(_, _) => false,
        },
        Spot::OnStart => matches!(other, Spot::OnStart),
        Spot::OnVisible(screen) => match other {
            Spot::OnVisible(it) => *it == *screen,
            Spot::Formula(_) | Spot::OnStart | Spot::Property(_, _) => false,
        },
        Spot::Property(control, name) => match other {
            Spot::Property(number, it) => *number == *control && it.is(name),
            Spot::Formula(_) | Spot::OnStart | Spot::OnVisible(_) => false,
        },
    }
}

/// The first of these places whose address this is.
pub fn spot_at(
    alloc: Global,
    frame: &Frame,
    spots: &[Spot],
    address: &Words,
) -> Result<Option<Spot>, Memory>
    ensures { IfOk result (λ s. s ≡ find (places.has_address frame.now address.now) spots.now) }
{
    for spot in spots {
        if address_at(alloc, frame, spot)?.is(address) {
            return Ok(Some(copy_spot(alloc, spot)?));
        }
    }
    Ok(None)
}
