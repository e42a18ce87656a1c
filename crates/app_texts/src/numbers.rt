//! The formulas of an app, found by their places.
ghost use Rattle.std.specs.Prelude.{◌≡◌, IfOk, OnOk, map, option_map, slice_get};
ghost use Rattle.app_cells.specs.declared.app.CellInfo.{CellInfo as Info};
ghost use Rattle.app_texts.specs.Edits as edits;
ghost use Rattle.app_texts.specs.Numbers as numbers;
ghost use Rattle.app_texts.specs.Numbers.{AreNumbers, IsNumberNoted};

use app_cells::{Cell, CellInfo, Spot};
use fx_base::Memory;
use fx_types::words::Words;
use std::alloc::Global;
use std::collections::BTreeMap;

/// A place, by which a formula is found.
#[derive(PartialEq, Eq, PartialOrd, Ord, Drop)]
pub(crate) enum Place {
    Formula(Words),
    OnStart,
    OnVisible(u32),
    Property(u32, Words),
}

// A place, in the order of places.
fn place_of(alloc: Global, spot: &Spot) -> Result<Place, Memory>
    ensures { IfOk result (λ p. p ≡ numbers.spot_order spot.now) }
{
    Ok(match spot {
        Spot::Formula(name) => Place::Formula(name.copy(alloc)?),
        Spot::OnStart => Place::OnStart,
        Spot::OnVisible(screen) => Place::OnVisible(*screen),
        Spot::Property(control, name) => Place::Property(*control, name.copy(alloc)?),
    })
}

// Notes the number of the formula at a place that has none.
fn note(numbers: &mut BTreeMap<Place, usize>, place: Place, number: usize) -> Result<(), Memory>
    ensures { OnOk result (IsNumberNoted numbers.old numbers.new place number) }
{
    if !numbers.contains_key(&place) {
        numbers.insert(place, number)?;
    }
    Ok(())
}

/// The number of the first formula at each place.
pub(crate) fn numbers_of(
    alloc: Global,
    cells: &[CellInfo],
) -> Result<BTreeMap<Place, usize>, Memory>
    ensures { IfOk result (λ m. AreNumbers m cells.now) }
{
    let mut numbers = BTreeMap::new(alloc);
    for (number, info) in cells.iter().enumerate() {
        note(&mut numbers, place_of(alloc, &info.cell.spot)?, number)?;
    }
    Ok(numbers)
}

/// The formula that is written at a place.
pub(crate) fn written_at<'a>(
    alloc: Global,
    numbers: &BTreeMap<Place, usize>,
    cells: &'a [CellInfo],
    spot: &Spot,
) -> Result<Option<&'a Cell>, Memory>
    requires { AreNumbers numbers.now cells.now }
    ensures { IfOk result (λ o. option_map (λ c. c.now) o
        ≡ edits.written_at (map (λ (i : Info). i.cell) cells.now) spot.now) }
{
    let place = place_of(alloc, spot)?;
    match numbers.get(&place) {
        Some(number) => Ok(cell_at(cells, *number)),
        None => Ok(None),
    }
}

// The formula of a number.
fn cell_at(cells: &[CellInfo], number: usize) -> Option<&Cell>
    ensures { option_map (λ c. c.now) result ≡ option_map (λ (i : Info). i.cell)
        (slice_get cells.now number) }
{
    Some(&cells.get(number)?.cell)
}
