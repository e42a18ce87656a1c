//! App files, one a line: for each the broken rule is written, or what it holds, and then what is
//! broken of its texts and among its names, or its formulas and how many names of each kind it has.
//! A line `3,HEAD|PIECE|TAIL` stands for the head, three of the piece with commas between them, and
//! the tail, and `3 HEAD|PIECE|TAIL` for the same without commas; in a piece `#` is its number,
//! from 1. An empty line and one of `#` say nothing.
#![tactic(auto)]

mod files;

ghost use Rattle.std.specs.Prelude.{All};
ghost use Rattle.app_cells.specs.Spots.{IsFrame, IsPlaced};
ghost use Rattle.app_texts.specs.Files.{IsSoundFile};

use crate::files::file_of;
use app_cells::{Cell, Frame};
use app_file::{AppFile, FileBreak};
use app_names::{name_breaks, names_of};
use app_texts::{read_is_sound, read_texts};
use fx_base::{Memory, OrMemory};
use fx_core::{AppEnd, Broken, line};
use std::alloc::Global;
use std::io::{self, ErrorKind};

fn main(rt: HostRuntime) -> io::Result<()> {
    for text in rt.lines(rt.alloc()) {
        let text = text?;
        if text.is_empty() || text.as_str().starts_with("#") {
            continue;
        }
        let file = file_of(rt.alloc(), text.as_str())?;
        let Ok(answer) = answer(rt.alloc(), file.as_str()) else {
            return Err(ErrorKind::OutOfMemory.into());
        };
        println!(rt; "{answer}")?;
    }
    Ok(())
}

/// What is broken of a file, or what it holds.
fn answer(alloc: Global, file: &str) -> Result<String, Memory> {
    // The law is called for what it says of a file that is read.
    read_is_sound();
    match app_file::read(alloc, file.as_bytes()) {
        Ok(app) => whole(alloc, app),
        Err(OrMemory::Refused(broken)) => say_break(alloc, broken),
        Err(OrMemory::Memory) => Err(Memory),
    }
}

/// What a file holds, and then what is broken of its formulas, or how many it has.
fn whole(alloc: Global, app: AppFile) -> Result<String, Memory>
    requires { IsSoundFile app }
{
    let mut text = short_summary(alloc, &app)?;
    let formulas = match read_texts(alloc, app) {
        Ok((frame, cells)) => say_cells(alloc, frame, &cells)?,
        Err(AppEnd::Refused(breaks)) => say_breaks(alloc, &breaks)?,
        Err(AppEnd::Memory) => return Err(Memory),
    };
    text.push_str(formulas.as_str())?;
    Ok(text)
}

/// What is broken among the names of an app, or its formulas and its names.
fn say_cells(alloc: Global, frame: Frame, cells: &[Cell]) -> Result<String, Memory>
    requires frame { IsFrame frame }
    requires placed { All (IsPlaced frame) cells.now }
{
    let functions = fx_sig::all();
    let breaks = name_breaks(alloc, functions, &frame, cells)?;
    if !breaks.is_empty() {
        return say_breaks(alloc, &breaks);
    }
    let names = names_of(alloc, functions, frame, cells)?;
    let mut text = formulas(alloc, cells)?;
    let formulas = names.formulas.len();
    let properties = names.properties.len();
    let variables = names.variables.len();
    let collections = names.collections.len();
    text.push_str(format!(in alloc;
        "; {formulas} named, {properties} properties, {variables} variables, {collections} collections"
    )?.as_str())?;
    Ok(text)
}

/// The formulas of a small app: their addresses, screens, galleries and whether they act.
fn formulas(alloc: Global, cells: &[Cell]) -> Result<String, Memory> {
    let mut text = String::new(alloc);
    let count = cells.len();
    text.push_str(format!(in alloc; "; {count} cells")?.as_str())?;
    if count > 12 {
        return Ok(text);
    }
    for cell in cells {
        let name = cell.name.as_str();
        let screen = cell.screen;
        let item = cell.item;
        let acts = if cell.acts { " acts" } else { "" };
        let wanted = if cell.wanted.is_some() { " wanted" } else { "" };
        let at = cell.at;
        text.push_str(format!(in alloc;
            ", {name} {screen:?} {item:?} {at}{acts}{wanted}"
        )?.as_str())?;
    }
    Ok(text)
}

/// Breaks, one behind another.
fn say_breaks(alloc: Global, breaks: &[Broken]) -> Result<String, Memory> {
    let mut text = String::new(alloc);
    for broken in breaks {
        text.push_str("; ")?;
        text.push_str(line(alloc, broken)?.as_str())?;
    }
    Ok(text)
}

/// What a file holds, where that isn't long.
fn short_summary(alloc: Global, app: &AppFile) -> Result<String, Memory> {
    let text = summary(alloc, app)?;
    if text.len() > 600 {
        Ok(String::from_str(alloc, "..")?)
    } else {
        Ok(text)
    }
}

fn say_break(alloc: Global, broken: FileBreak) -> Result<String, Memory> {
    let broken = broken.into_broken(alloc)?;
    line(alloc, &broken)
}

/// What a file holds.
fn summary(alloc: Global, app: &AppFile) -> Result<String, Memory> {
    let mut text = String::new(alloc);
    let tables = app.schema.tables.len();
    let limit = app.row_limit;
    let formulas = app.formulas.as_str();
    let start = app.on_start.as_str();
    text.push_str(format!(in alloc;
        "tables {tables}, limit {limit}, formulas <{formulas}>, start <{start}>"
    )?.as_str())?;
    for table in app.schema.tables.as_slice() {
        let name = table.name.as_str();
        let columns = table.columns.len();
        text.push_str(format!(in alloc; "; table {name} {columns}")?.as_str())?;
    }
    for screen in app.screens.as_slice() {
        let name = screen.name.as_str();
        let shown = screen.on_visible.as_str();
        text.push_str(format!(in alloc; "; screen {name} <{shown}>")?.as_str())?;
        for control in screen.controls.as_slice() {
            let name = control.name.as_str();
            let kind = control.kind;
            let gallery = control.gallery;
            text.push_str(format!(in alloc; ", {kind:?} {name} {gallery:?}")?.as_str())?;
            for property in control.properties.as_slice() {
                let name = property.name.as_str();
                let formula = property.text.as_str();
                text.push_str(format!(in alloc; " {name}=<{formula}>")?.as_str())?;
            }
        }
    }
    Ok(text)
}
