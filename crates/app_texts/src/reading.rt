//! From texts to formulas.
ghost use Rattle.std.specs.Prelude.{◌≡◌, ◌<◌, ◌^◌, ◌∷◌, [], All, Err, IfErr, IfOk, Ok, OnOk, codes};
ghost use Rattle.std.specs.Prelude.{encode_utf8_all, length};
ghost use Rattle.fx_core.specs.declared.broken.Broken.{Broken as Break};
ghost use Rattle.app_cells.specs.Spots.{IsFrame, IsPlaced, IsSpot};
ghost use Rattle.app_texts.specs.Files.{IsSoundFile};
ghost use Rattle.app_texts.specs.Texts.{AreNamedAt, AreNamedCells, AreReadAt, IsNamedCell};
ghost use Rattle.app_texts.specs.Texts.{IsNamedReading, IsReadAt, IsReading, IsStart, IsToldOfText};
ghost use Rattle.app_texts.specs.Texts.{IsUnreadAt, TellsBreak, TellsBreaks, bare_frame};
ghost use Rattle.app_texts.specs.Steps.{AreReadable, BeginsAt, HasSomeTree, IsFilled, ArePutBehind};
ghost use Rattle.app_texts.specs.Steps.{IsPutBehind};

use crate::file_texts::{Text, texts_of};
use crate::frames::frame_of;
use crate::unread::break_of_text;
use app_cells::{Cell, Frame, Spot, address_at, cell_at};
use app_file::AppFile;
use fx_base::{InOrder, Memory, OrMemory};
use fx_core::{AppEnd, Broken, Schema};
use fx_lexer::{LexEnd, tokens};
use fx_parser::{Named, ParseEnd, parse_formula, parse_named};
use fx_types::words::Words;
use std::alloc::Global;

/// The row limit of an app of which nothing else is said.
const ROW_LIMIT: u32 = 500;

// The byte at which the first token of a text begins.
fn first_token(alloc: Global, source: &str) -> Result<u32, Memory>
    requires short { length source.now < 2 ^ 32 }
    requires tree { HasSomeTree source.now }
    ensures { IfOk result (λ at. BeginsAt source.now at) }
{
    match tokens(alloc, source) {
        Ok(found) => match found.as_slice() {
            [] => Ok(0),
            [first, ..] => Ok(first.at),
        },
        // A text that has a tree has tokens.
        Err(LexEnd::Bad(_)) => unreachable!(),
        Err(LexEnd::Memory) => Err(Memory),
    }
}

// The byte from which positions of the formula of a text are told.
fn start_of(alloc: Global, spot: &Spot, source: &str) -> Result<u32, Memory>
    requires short { length source.now < 2 ^ 32 }
    requires tree { HasSomeTree source.now }
    ensures { IfOk result (IsStart spot.now source.now) }
{
    match spot {
        Spot::Formula(_) => first_token(alloc, source),
        Spot::OnStart | Spot::OnVisible(_) | Spot::Property(_, _) => Ok(0),
    }
}

/// The formula of a text that stands by itself, at a place of an app. This is how the formulas of a
/// file are read that aren't named, and any formula that an edit gives.
pub fn read_text(
    alloc: Global,
    frame: &Frame,
    spot: Spot,
    text: Words,
) -> Result<Cell, OrMemory<Broken>>
    requires spot { IsSpot frame.now spot }
    requires short { length (encode_utf8_all text) < 2 ^ 32 }
    ensures cell { IfOk result (IsReadAt frame.now spot text) }
    ensures unread { IfErr result (TellsBreak (IsUnreadAt frame.now spot text)) }
{
    match parse_formula(alloc, text.as_str()) {
        Ok(expr) => {
            let at = start_of(alloc, &spot, text.as_str())?;
            Ok(cell_at(alloc, frame, spot, at, text, expr)?)
        }
        Err(end) => {
            let cell = address_at(alloc, frame, &spot)?;
            Err(break_of_text(alloc, cell, text.as_str(), end))
        }
    }
}

// Adds the formula of a text, or what is broken of it.
fn put_text(
    alloc: Global,
    frame: &Frame,
    text: Text,
    cells: &mut Vec<Cell>,
    breaks: &mut Vec<Broken>,
) -> Result<(), Memory>
    requires spot { IsSpot frame.now text.spot }
    requires short { length (encode_utf8_all text.text) < 2 ^ 32 }
    ensures { OnOk result (IsPutBehind (AreReadAt frame.now (text ∷ [])) cells.old.items
        cells.new.items breaks.old.items breaks.new.items) }
{
    match read_text(alloc, frame, text.spot, text.text) {
        Ok(cell) => cells.push(cell)?,
        Err(OrMemory::Refused(broken)) => breaks.push(broken)?,
        Err(OrMemory::Memory) => return Err(Memory),
    }
    Ok(())
}

// Adds the formulas of texts, and what is broken of the others.
fn put_texts(
    alloc: Global,
    frame: &Frame,
    texts: Vec<Text>,
    cells: &mut Vec<Cell>,
    breaks: &mut Vec<Broken>,
) -> Result<(), Memory>
    requires { AreReadable frame.now texts.items }
    ensures { OnOk result (IsPutBehind (AreReadAt frame.now texts.items) cells.old.items
        cells.new.items breaks.old.items breaks.new.items) }
{
    for text in texts {
        put_text(alloc, frame, text, cells, breaks)?;
    }
    Ok(())
}

// A named formula of a text.
fn named_cell(alloc: Global, frame: &Frame, named: Named) -> Result<Cell, Memory>
    ensures { IfOk result (IsNamedCell frame.now named) }
{
    cell_at(
        alloc,
        frame,
        Spot::Formula(named.name),
        named.at,
        named.text,
        named.expr,
    )
}

// Adds the formulas of a text of named formulas, or what is broken of it.
fn put_formulas(
    alloc: Global,
    frame: &Frame,
    source: &str,
    cells: &mut Vec<Cell>,
    breaks: &mut Vec<Broken>,
) -> Result<(), Memory>
    requires { length source.now < 2 ^ 32 }
    ensures { OnOk result (IsPutBehind (AreNamedAt frame.now source.now) cells.old.items
        cells.new.items breaks.old.items breaks.new.items) }
{
    match parse_named(alloc, source) {
        Ok(all) => put_named(alloc, frame, all, cells),
        Err(end) => put_unread(alloc, source, end, breaks),
    }
}

// Adds named formulas.
fn put_named(
    alloc: Global,
    frame: &Frame,
    all: Vec<Named>,
    cells: &mut Vec<Cell>,
) -> Result<(), Memory>
    ensures { OnOk result (ArePutBehind (AreNamedCells frame.now all.items) cells.old.items
        cells.new.items) }
{
    for named in all {
        cells.push(named_cell(alloc, frame, named)?)?;
    }
    Ok(())
}

// Adds what is told of a text of named formulas that is none.
fn put_unread(
    alloc: Global,
    source: &str,
    end: ParseEnd,
    breaks: &mut Vec<Broken>,
) -> Result<(), Memory>
    requires { length source.now < 2 ^ 32 }
    ensures { OnOk result (ArePutBehind (λ bs. (b : Break) × (bs ≡ b ∷ [])
        × IsToldOfText (codes "App.Formulas") source.now end b) breaks.old.items breaks.new.items) }
{
    let cell = Words::of(alloc, "App.Formulas")?;
    match break_of_text(alloc, cell, source, end) {
        OrMemory::Refused(broken) => Ok(breaks.push(broken)?),
        OrMemory::Memory => Err(Memory),
    }
}

// A frame and formulas, if nothing is broken.
fn unless_broken(
    frame: Frame,
    cells: Vec<Cell>,
    breaks: Vec<Broken>,
) -> Result<(Frame, Vec<Cell>), AppEnd>
    ensures ok { IfOk result (λ r. (r.0 ≡ frame) × (r.1.items ≡ cells.items) × (breaks.items ≡ [])) }
    ensures broken { IfErr result (TellsBreaks (λ bs. (bs ≡ breaks.items) × IsFilled bs)) }
{
    if breaks.is_empty() {
        Ok((frame, cells))
    } else {
        Err(AppEnd::Refused(breaks))
    }
}

/// The formulas of an app file and what it has beside them, or the breaks of its texts: of the text
/// of named formulas, and of each other text, one break at most.
pub fn read_texts(alloc: Global, file: AppFile) -> Result<(Frame, Vec<Cell>), AppEnd>
    requires { IsSoundFile file }
    ensures formulas { IfOk result (λ r. IsReading file (Ok (r.0, r.1.items))) }
    ensures frame { IfOk result (λ r. IsFrame r.0) }
    ensures placed { IfOk result (λ r. All (IsPlaced r.0) r.1.items) }
    ensures broken { IfErr result (TellsBreaks (λ bs. IsReading file (Err bs))) }
{
    let texts = texts_of(alloc, &file)?;
    let AppFile {
        schema,
        row_limit,
        formulas,
        on_start: _,
        screens,
    } = file;
    let frame = frame_of(alloc, schema, row_limit, screens.as_slice())?;
    let mut cells = Vec::new(alloc);
    let mut breaks = Vec::new(alloc);
    put_formulas(alloc, &frame, formulas.as_str(), &mut cells, &mut breaks)?;
    put_texts(alloc, &frame, texts, &mut cells, &mut breaks)?;
    unless_broken(frame, cells, breaks)
}

// An app without tables and screens.
fn bare(alloc: Global) -> Frame
    ensures { result ≡ bare_frame }
{
    Frame {
        schema: Schema {
            tables: InOrder::new(alloc),
        },
        limit: ROW_LIMIT,
        screens: InOrder::new(alloc),
        controls: InOrder::new(alloc),
    }
}

/// The formulas of a text of named formulas, `A = 1; B = A + 1;`, and what an app has beside them
/// that has nothing else; or what is broken of the text.
pub fn read_named(alloc: Global, source: &str) -> Result<(Frame, Vec<Cell>), AppEnd>
    requires { length source.now < 2 ^ 32 }
    ensures formulas { IfOk result (λ r. IsNamedReading source.now (Ok (r.0, r.1.items))) }
    ensures frame { IfOk result (λ r. IsFrame r.0) }
    ensures placed { IfOk result (λ r. All (IsPlaced r.0) r.1.items) }
    ensures broken { IfErr result (TellsBreaks (λ bs. IsNamedReading source.now (Err bs))) }
{
    let frame = bare(alloc);
    let mut cells = Vec::new(alloc);
    let mut breaks = Vec::new(alloc);
    put_formulas(alloc, &frame, source, &mut cells, &mut breaks)?;
    unless_broken(frame, cells, breaks)
}
