//! The formulas of an app in which one is replaced.
ghost use Rattle.std.specs.Prelude.{◌≡◌, ◌++◌, [], All, Err, IfErr, IfOk, Ok, OnOk, filter_map};
ghost use Rattle.std.specs.Prelude.{map, option_map};
ghost use Rattle.std.specs.List.{cons_option};
ghost use Rattle.app_cells.specs.Spots.{IsFrame, IsPlaced, IsSpot};
ghost use Rattle.app_cells.specs.declared.app.CellInfo.{CellInfo as Info};
ghost use Rattle.app_texts.specs.Texts.{TellsBreak};
ghost use Rattle.app_texts.specs.Edits as edits;
ghost use Rattle.app_texts.specs.Edits.{IsEdited, IsFormulaAt, TextGives};
ghost use Rattle.app_texts.specs.Frames.{app_frame, written_texts};
ghost use Rattle.app_texts.specs.Numbers.{AreNumbers};

use crate::copies::{copy_cell, copy_spot, frame_of};
use crate::numbers::{Place, numbers_of, written_at};
use crate::places::{is_same, spot_at, spots_of};
use crate::read_text;
use app_cells::{App, Cell, CellInfo, Frame, Spot};
use app_file::{FileBreak, Limit};
use fx_base::{Memory, OrMemory};
use fx_core::{Broken, Rule};
use fx_types::words::Words;
use std::alloc::Global;
use std::collections::BTreeMap;

// Whether a place is a named formula's.
fn is_named(spot: &Spot) -> bool
    ensures { result ≡ edits.is_named_formula spot.now }
{
    matches!(spot, Spot::Formula(_))
}

// That no formula can stand at an address.
fn no_place(alloc: Global, address: &Words) -> Result<Broken, Memory>
    ensures { IfOk result (λ b. b ≡ edits.no_place address.now) }
{
    Ok(Broken {
        cell: address.copy(alloc)?,
        rule: Rule::UnknownName,
        at: 0,
        detail: address.copy(alloc)?,
    })
}

// The formula of a text that is one.
fn read_cell(
    alloc: Global,
    frame: &Frame,
    spot: &Spot,
    text: &Words,
) -> Result<Option<Cell>, OrMemory<Broken>>
    requires spot { IsSpot frame.now spot.now }
    requires formula { IsFormulaAt spot.now text.now }
    ensures given { IfOk result (λ o. TextGives frame.now spot.now text.now (Ok o)) }
    ensures unread { IfErr result (TellsBreak (λ b. TextGives frame.now spot.now text.now (Err b))) }
{
    // So long a text has no room beside its tokens.
    if u32::try_from(text.as_str().len()).is_err() {
        return Err(OrMemory::Memory);
    }
    match read_text(alloc, frame, copy_spot(alloc, spot)?, text.copy(alloc)?) {
        Ok(cell) => Ok(Some(cell)),
        Err(end) => Err(end),
    }
}

// What a text gives at a place: its formula, or none.
fn given_cell(
    alloc: Global,
    frame: &Frame,
    spot: &Spot,
    text: &Words,
) -> Result<Option<Cell>, OrMemory<Broken>>
    requires { IsSpot frame.now spot.now }
    ensures given { IfOk result (λ o. TextGives frame.now spot.now text.now (Ok o)) }
    ensures broken { IfErr result (TellsBreak (λ b. TextGives frame.now spot.now text.now (Err b))) }
{
    let count = text.as_str().len();
    if is_named(spot) {
        return read_cell(alloc, frame, spot, text);
    }
    if count > Limit::Formula.most() {
        let broken = FileBreak::Passed(Limit::Formula, count).into_broken(alloc)?;
        return Err(OrMemory::Refused(broken));
    }
    if count == 0 {
        return Ok(None);
    }
    read_cell(alloc, frame, spot, text)
}

// Adds a formula, if there is one.
fn put_cell(alloc: Global, cell: Option<&Cell>, cells: &mut Vec<Cell>) -> Result<(), Memory>
    ensures { OnOk result (cells.new.items ≡ cells.old.items
        ++ cons_option (option_map (λ c. c.now) cell.entry) []) }
{
    if let Some(cell) = cell {
        cells.push(copy_cell(alloc, cell)?)?;
    }
    Ok(())
}

// What stands at a place: at the edited one what is given, and at each other one what is written
// there.
fn standing_at<'a>(
    alloc: Global,
    numbers: &BTreeMap<Place, usize>,
    cells: &'a [CellInfo],
    spot: &Spot,
    given: &'a Option<Cell>,
    here: &Spot,
) -> Result<Option<&'a Cell>, Memory>
    requires { AreNumbers numbers.now cells.now }
    ensures { IfOk result (λ o. option_map (λ c. c.now) o
        ≡ edits.edited_cell (map (λ (i : Info). i.cell) cells.now) spot.now given.now here.now) }
{
    if is_same(here, spot) {
        return Ok(given.as_ref());
    }
    written_at(alloc, numbers, cells, here)
}

// The formulas that stand at places.
fn standing_cells(
    alloc: Global,
    spots: &[Spot],
    cells: &[CellInfo],
    spot: &Spot,
    given: &Option<Cell>,
) -> Result<Vec<Cell>, Memory>
    ensures { IfOk result (λ v. v.items ≡ filter_map
        (edits.edited_cell (map (λ (i : Info). i.cell) cells.now) spot.now given.now) spots.now) }
{
    let numbers = numbers_of(alloc, cells)?;
    let mut standing = Vec::new(alloc);
    for here in spots {
        let cell = standing_at(alloc, &numbers, cells, spot, given, here)?;
        put_cell(alloc, cell, &mut standing)?;
    }
    Ok(standing)
}

/// The formulas of an app in which the one at this address is that of a text, beside what the app
/// has beside its formulas. An empty text takes a formula away that has no name. It is refused that
/// no formula can stand at the address, that the text is too long, or why it is no formula.
pub fn edit_cells(
    alloc: Global,
    app: &App,
    address: &Words,
    text: &Words,
) -> Result<(Frame, Vec<Cell>), OrMemory<Broken>>
    requires frame { IsFrame (app_frame app.now) }
    requires placed { All (IsPlaced (app_frame app.now)) (written_texts app.now) }
    ensures cells { IfOk result (λ r. IsEdited app.now address.now text.now (Ok r.1.items)) }
    ensures frame { IfOk result (λ r. r.0 ≡ app_frame app.now) }
    ensures placed { IfOk result (λ r. All (IsPlaced (app_frame app.now)) r.1.items) }
    ensures broken { IfErr result (TellsBreak (λ b. IsEdited app.now address.now text.now (Err b))) }
{
    let frame = frame_of(alloc, app)?;
    let cells = app.cells.as_slice();
    let spots = spots_of(alloc, &frame, cells)?;
    match spot_at(alloc, &frame, &spots, address)? {
        Some(spot) => {
            let given = given_cell(alloc, &frame, &spot, text)?;
            let cells = standing_cells(alloc, &spots, cells, &spot, &given)?;
            Ok((frame, cells))
        }
        None => Err(OrMemory::Refused(no_place(alloc, address)?)),
    }
}
