//! Cases of keepers, a call a line, over a table of names and quantities. Each line is written with
//! what its call answers over a keeper in memory. A keeper over SQLite in memory and one over
//! SQLite in a file make the same calls, and where one of them answers otherwise that stands in a
//! line below. `new` begins with new keepers and a new file; where numbers stand behind it, the
//! calls of these numbers fail in memory, and SQLite isn't asked; nor is it behind `skip`. `reopen`
//! opens the file again, `sql` runs a statement over it before, and `attach` attaches one more
//! keeper to a file. Behind `shape` may stand another table, as behind `reshape`, which moves the
//! table to it. A line of `#` is written as it is. Quantities may be `-`, for none.
//!
//! `bench/keeper_rows.py` plays the same calls over lists.
#![tactic(auto)]

mod file;
mod played;

use crate::played::Played;
use keeper_cases::Said;
use std::io::{self, ErrorKind};

fn main(rt: HostRuntime) -> io::Result<()> {
    let Ok(mut played) = Played::new(rt, "") else {
        return Err(ErrorKind::OutOfMemory.into());
    };
    for line in rt.lines(rt.alloc()) {
        let line = line?;
        let line = line.as_str();
        let mut said = Said::new(rt.alloc());
        played.obey(line, &mut said);
        print_row(rt, line, said)?;
    }
    Ok(())
}

/// Prints a line with what was said of it, if anything was.
fn print_row(rt: HostRuntime, line: &str, said: Said) -> io::Result<()> {
    match said.finish() {
        Ok(answer) if answer.is_empty() => println!(rt; "{line}"),
        Ok(answer) => println!(rt; "{line}: {answer}"),
        Err(_) => Err(ErrorKind::OutOfMemory.into()),
    }
}
