//! The places where formulas may stand, and what each makes of its formula.
ghost use Rattle.std.specs.Prelude.{◌≡◌, ◌++◌, IfOk, Some, codes, encode_utf8_all, option_map};
ghost use Rattle.std.specs.Prelude.{slice_get};
ghost use Rattle.std.specs.Str.{IsAscii};
ghost use Rattle.fx_types.specs.TypeView.{shape};
ghost use Rattle.fx_core.specs.BrokenText.{address_of};
ghost use Rattle.app_cells.specs.Spots as spots;
ghost use Rattle.app_cells.specs.Spots.{IsCell, IsSpot};

use crate::cell::{Cell, Spot};
use crate::frame::Frame;
use fx_base::Memory;
use fx_core::address;
use fx_core::controls::{is_behaviour, property_ty};
use fx_core::expr::Expr;
use fx_core::names::ControlName;
use fx_types::controls::Control;
use fx_types::types::{Columns, Ty};
use fx_types::words::Words;
use std::alloc::Global;

// The control of a number.
fn control_at(frame: &Frame, number: u32) -> Option<&ControlName>
    ensures { option_map (λ c. c.now) result ≡ slice_get frame.now.controls number }
{
    frame.controls.as_slice().get(number as usize)
}

// A name, quoted where it has to be, and what of it is meant behind a point.
fn dot(alloc: Global, name: &Words, part: &Words) -> Result<Words, Memory>
    ensures { IfOk result (λ w. w ≡ address_of name.now ++ (codes "." ++ part.now)) }
{
    let quoted = address(alloc, name)?;
    let front = quoted.as_str();
    let back = part.as_str();
    let text = format!(in alloc; "{front}.{back}")?;
    Words::of(alloc, text.as_str())
}

// A word of ASCII characters.
fn word(alloc: Global, text: &str) -> Result<Words, Memory>
    requires { IsAscii text.now }
    ensures { IfOk result (λ w. w ≡ text.now) }
{
    Words::of(alloc, text)
}

// The address of what runs when a screen is shown.
fn address_of_screen(alloc: Global, frame: &Frame, screen: u32) -> Result<Words, Memory>
    ensures { IfOk result (λ w. w ≡ spots.address_of_screen frame.now screen) }
{
    let part = word(alloc, "OnVisible")?;
    match frame.screens.as_slice().get(screen as usize) {
        Some(name) => dot(alloc, name, &part),
        None => dot(alloc, &word(alloc, "")?, &part),
    }
}

// The address of a property.
fn address_of_property(
    alloc: Global,
    frame: &Frame,
    control: u32,
    property: &Words,
) -> Result<Words, Memory>
    ensures { IfOk result (λ w. w ≡ spots.address_of_property frame.now control property.now) }
{
    match control_at(frame, control) {
        Some(control) => dot(alloc, &control.name, property),
        None => dot(alloc, &word(alloc, "")?, property),
    }
}

/// The address of the formula that stands at a place.
pub fn address_at(alloc: Global, frame: &Frame, spot: &Spot) -> Result<Words, Memory>
    ensures { IfOk result (λ w. w ≡ spots.address frame.now spot.now) }
{
    match spot {
        Spot::Formula(name) => address(alloc, name),
        Spot::OnStart => word(alloc, "App.OnStart"),
        Spot::OnVisible(screen) => address_of_screen(alloc, frame, *screen),
        Spot::Property(control, property) => {
            address_of_property(alloc, frame, *control, property)
        }
    }
}

// The screen on which the formula at a place stands.
fn screen_of(frame: &Frame, spot: &Spot) -> Option<u32>
    ensures { result ≡ spots.screen_of frame.now spot.now }
{
    match spot {
        Spot::Formula(_) | Spot::OnStart => None,
        Spot::OnVisible(screen) => Some(*screen),
        Spot::Property(control, _) => match control_at(frame, *control) {
            Some(control) => Some(control.screen),
            None => None,
        },
    }
}

// Whether a property acts, and is a gallery's.
fn acts_for_gallery(kind: Control, property: &Words) -> bool
    ensures { result ≡ spots.acts_for_gallery kind (encode_utf8_all property.now) }
{
    kind == Control::Gallery && is_behaviour(kind, property.as_str())
}

// The gallery whose item a property of this control sees.
fn item_in(number: u32, control: &ControlName, property: &Words) -> Option<u32>
    ensures { result ≡ spots.item_in number property.now (Some control.now) }
{
    match control.gallery {
        Some(gallery) => Some(gallery),
        None if acts_for_gallery(control.kind, property) => Some(number),
        None => None,
    }
}

// The gallery whose item the formula at a place sees.
fn item_of(frame: &Frame, spot: &Spot) -> Option<u32>
    ensures { result ≡ spots.gallery_seen frame.now spot.now }
{
    match spot {
        Spot::Formula(_) | Spot::OnStart | Spot::OnVisible(_) => None,
        Spot::Property(number, property) => match control_at(frame, *number) {
            Some(control) => item_in(*number, control, property),
            None => None,
        },
    }
}

// Whether the formula at a place may act.
fn acts(frame: &Frame, spot: &Spot) -> bool
    ensures { result ≡ spots.can_act frame.now spot.now }
{
    match spot {
        Spot::Formula(_) => false,
        Spot::OnStart | Spot::OnVisible(_) => true,
        Spot::Property(control, property) => match control_at(frame, *control) {
            Some(control) => is_behaviour(control.kind, property.as_str()),
            None => false,
        },
    }
}

// The type that is wanted of a property of this kind.
fn wanted_by(alloc: Global, kind: Control, property: &Words) -> Option<Ty>
    ensures { option_map shape result ≡ spots.wanted_by kind (encode_utf8_all property.now) }
{
    if kind == Control::Gallery && property.as_str() == "Items" {
        Some(Ty::Tab(Columns::new(alloc)))
    } else {
        property_ty(kind, property.as_str())
    }
}

// The type that is wanted of the formula at a place.
fn due_type(alloc: Global, frame: &Frame, spot: &Spot) -> Option<Ty>
    ensures { option_map shape result ≡ spots.wanted_shape frame.now spot.now }
{
    match spot {
        Spot::Formula(_) | Spot::OnStart | Spot::OnVisible(_) => None,
        Spot::Property(control, property) => match control_at(frame, *control) {
            Some(control) => wanted_by(alloc, control.kind, property),
            None => None,
        },
    }
}

/// The formula at a place, of this text and this tree, in which positions are told from this byte
/// on.
pub fn cell_at(
    alloc: Global,
    frame: &Frame,
    spot: Spot,
    at: u32,
    text: Words,
    expr: Expr,
) -> Result<Cell, Memory>
    requires { IsSpot frame.now spot }
    ensures { IfOk result (IsCell frame.now spot at text expr) }
{
    Ok(Cell {
        name: address_at(alloc, frame, &spot)?,
        screen: screen_of(frame, &spot),
        item: item_of(frame, &spot),
        acts: acts(frame, &spot),
        wanted: due_type(alloc, frame, &spot),
        spot,
        at,
        text,
        expr,
    })
}
