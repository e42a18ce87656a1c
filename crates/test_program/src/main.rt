//! Worked rows of the top call. Standard input has a row in lines, which say what its run is given,
//! and a line `run` for each run; for each the status is printed, and what was said and answered.
//!
//! Behind the line `loopback` stand runs over loopback and files, as `loopback.rt` has them.
//!
//! Behind these stand files of formulas: a line that begins with `== ` names one, and the lines
//! behind it are its text, of which the last line feed is left out. For each the line of its name
//! is written, then the status with which `view` ends, and what it wrote: each formula with the
//! plain form of its value, or the rules that the text breaks. The moment is 1704067200, in
//! 2024-01-01.
#![tactic(auto)]

mod asked;
mod edge;
mod escapes;
mod limits;
mod loopback;
mod pieces;
mod print;
mod requests;
mod row;
mod runs;
mod serving;
mod sheet;
mod visits;

use crate::limits::run_repeated;
use crate::loopback::Loopback;
use crate::print::{print_end, print_repeated};
use crate::row::Row;
use crate::runs::run_row;
use crate::sheet::Sheet;
use std::{io, str};

fn main(rt: HostRuntime) -> io::Result<()> {
    let mut row = Row::new(rt.alloc());
    let mut loopback = Loopback::new(rt.alloc());
    let mut sheet = Sheet::new(rt.alloc());
    for line in rt.lines(rt.alloc()) {
        take_line(&rt, &mut row, &mut loopback, &mut sheet, line?.as_str())?;
    }
    print_view(&rt, &sheet)
}

/// Takes a line of a row, of those over loopback, or of a file, which is viewed once the next one
/// is named.
fn take_line(
    rt: &HostRuntime,
    row: &mut Row,
    loopback: &mut Loopback,
    sheet: &mut Sheet,
    line: &str,
) -> io::Result<()> {
    if line.starts_with("== ") {
        print_view(rt, sheet)?;
        Ok(sheet.begin(rt.alloc(), line)?)
    } else if !sheet.name.is_empty() {
        Ok(sheet.add_line(line)?)
    } else if loopback.has_begun {
        loopback.obey(rt, line)
    } else if line == "loopback" {
        loopback.has_begun = true;
        println!(rt; "{line}")
    } else {
        obey(rt, row, line)
    }
}

/// Does what a line says. An empty line and one of `#` say nothing, `row` begins a new row, and
/// `run` makes a run; `many` makes one whose conversation sends a text so many times, and `idle`
/// one of so many conversations without bytes.
fn obey(rt: &(impl Print + AllocGlobal), row: &mut Row, line: &str) -> io::Result<()> {
    let (key, text) = line.split_once(' ').unwrap_or((line, ""));
    match key {
        "" | "#" => Ok(()),
        "row" => {
            *row = Row::new(rt.alloc());
            println!(rt; "\n{line}")
        }
        "run" => print_end(rt, &run_row(rt.alloc(), row)?),
        "many" => {
            let (times, text) = text.split_once(' ').unwrap_or((text, ""));
            let times = times.parse::<u64>().unwrap_or(0);
            print_repeated(rt, &run_repeated(rt.alloc(), row, text, times, 1)?)
        }
        "idle" => {
            let conversations = text.parse::<u64>().unwrap_or(0);
            print_repeated(rt, &run_repeated(rt.alloc(), row, "", 0, conversations)?)
        }
        _ => {
            if row.set(rt.alloc(), key, text)? {
                return Ok(());
            }
            println!(rt; "unknown: {line}")
        }
    }
}

/// Prints the name of a file, the status of its view and what was written. What has no name isn't
/// viewed.
fn print_view(rt: &(impl Print + AllocGlobal), sheet: &Sheet) -> io::Result<()> {
    if sheet.name.is_empty() {
        return Ok(());
    }
    let name = sheet.name.as_str();
    println!(rt; "{name}")?;
    let ended = run_row(rt.alloc(), &sheet.row)?;
    let status = ended.status;
    let written = str::from_utf8(&ended.said).unwrap_or("no text\n");
    print!(rt; "status {status}\n{written}")
}
