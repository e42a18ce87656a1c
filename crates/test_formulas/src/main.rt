//! Reads formulas, one a line, and writes each as it is printed, or the rule that it breaks. Behind
//! the line `== types` it writes each with its type and its typed tree, or with the rule that it
//! breaks: the first word of a line is where the formula stands, and `context.rt` says what it may
//! name. Behind the word `rounds` stands a small app as `apps.rt` has it, of which the types of all
//! names are written, and the rules that its formulas break. Behind the word `queries` stands a
//! formula that is written with what it asks of the rows of tables, and behind `limits` one that is
//! written with the tree in which it takes no more of them than it may. There an empty line and one
//! of `#` are written as they are.
#![tactic(auto)]

mod answer;
mod apps;
mod context;
mod judged;
mod names;
mod place;
mod printed;
mod queries;
mod rounds;
mod tree;
mod types;

use crate::answer::{Answer, Stop};
use crate::context::context;
use fx_core::names::Names;
use std::io::{self, ErrorKind};

fn main(rt: HostRuntime) -> io::Result<()> {
    match context(rt.alloc()) {
        Ok(names) => print_rows(rt, &names),
        Err(_) => Err(ErrorKind::OutOfMemory.into()),
    }
}

/// Prints what is written of each line.
fn print_rows(rt: HostRuntime, names: &Names) -> io::Result<()> {
    let mut are_typed = false;
    for line in rt.lines(rt.alloc()) {
        let line = line?;
        if line.as_str() == "== types" {
            are_typed = true;
        } else {
            let mut answer = Answer::new(rt.alloc());
            if are_typed {
                judged::write_row(&mut answer, names, line.as_str());
            } else {
                printed::write_row(&mut answer, line.as_str());
            }
            print_answer(rt, line.as_str(), answer)?;
        }
    }
    Ok(())
}

/// Prints what is answered to a line.
fn print_answer(rt: HostRuntime, line: &str, answer: Answer) -> io::Result<()> {
    match answer.finish() {
        Ok(text) => println!(rt; "{text}"),
        Err(Stop::NoRow) => println!(rt; "{line} is no row of this table"),
        Err(Stop::Memory) => Err(ErrorKind::OutOfMemory.into()),
    }
}
