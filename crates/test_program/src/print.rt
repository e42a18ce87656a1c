//! How a run ended, in lines.

use crate::escapes::escape;
use crate::limits::Repeated;
use crate::runs::Ended;
use std::{io, str};

/// The first bytes of each reply, and of no part of one.
const REPLY: &str = "HTTP/1.1 ";

/// Prints the status, what was said, if anything, and the replies; `next` where another
/// conversation came; how many rows were visited, where these are counted, and what the keeper was
/// asked about rows, where this is written down.
pub fn print_end(rt: &(impl Print + AllocGlobal), ended: &Ended) -> io::Result<()> {
    let status = ended.status;
    println!(rt; "status {status}")?;
    print_said(rt, &ended.said)?;
    for (conversation, answered) in ended.answered.iter().enumerate() {
        if conversation > 0 {
            println!(rt; "next")?;
        }
        print_replies(rt, text(answered))?;
    }
    if let Some(visited) = ended.visited {
        println!(rt; "visited {visited}")?;
    }
    match &ended.asked {
        Some(asked) if asked.is_empty() => println!(rt; "asked nothing"),
        Some(asked) => print_asked(rt, asked.as_str()),
        None => Ok(()),
    }
}

/// Prints how a run over repeating doors ended: the status, what was said, if anything, what was
/// written first with how often it was, and how often something else was, if it was.
pub fn print_repeated(rt: &(impl Print + AllocGlobal), ended: &Repeated) -> io::Result<()> {
    let status = ended.status;
    println!(rt; "status {status}")?;
    print_said(rt, &ended.said)?;
    if ended.same > 0 {
        let count = ended.same;
        let first = escape(rt.alloc(), text(&ended.first))?;
        println!(rt; "answers*{count} {first}")?;
    }
    match ended.others {
        0 => Ok(()),
        others => println!(rt; "others {others}"),
    }
}

/// Prints what was said, if anything.
fn print_said(rt: &(impl Print + AllocGlobal), said: &[u8]) -> io::Result<()> {
    if said.is_empty() {
        return Ok(());
    }
    let said = escape(rt.alloc(), text(said))?;
    println!(rt; "says {said}")
}

fn print_asked(rt: &impl Print, asked: &str) -> io::Result<()> {
    println!(rt; "asked {asked}")
}

/// Prints each reply in a line, and those that repeat it with their count. What comes before the
/// first is printed alone.
fn print_replies(rt: &(impl Print + AllocGlobal), answered: &str) -> io::Result<()> {
    let mut parts = answered.split(REPLY);
    print_first(rt, parts.next().unwrap_or(""))?;
    let mut last = String::new(rt.alloc());
    let mut count = 0u64;
    for reply in parts {
        if count > 0 && reply == last.as_str() {
            count = count.saturating_add(1);
        } else {
            print_times(rt, last.as_str(), count)?;
            last = String::from_str(rt.alloc(), reply)?;
            count = 1;
        }
    }
    print_times(rt, last.as_str(), count)
}

/// Prints what begins no reply, if anything.
fn print_first(rt: &(impl Print + AllocGlobal), part: &str) -> io::Result<()> {
    if part.is_empty() {
        return Ok(());
    }
    let line = escape(rt.alloc(), part)?;
    println!(rt; "answers {line}")
}

/// Prints what follows the first bytes of a reply, and how often it came where that isn't once.
fn print_times(rt: &(impl Print + AllocGlobal), reply: &str, count: u64) -> io::Result<()> {
    let line = escape(rt.alloc(), reply)?;
    match count {
        0 => Ok(()),
        1 => println!(rt; "answers {REPLY}{line}"),
        _ => println!(rt; "answers*{count} {REPLY}{line}"),
    }
}

fn text(bytes: &[u8]) -> &str {
    str::from_utf8(bytes).unwrap_or("no text")
}
