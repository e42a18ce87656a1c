//! Rows over loopback and files, and of what the program takes from the system. A line that begins
//! with a method is a request, with its body behind its path, which a client of the next run sends;
//! of `cut` it is the head of one alone, and a client that is `silent` sends nothing, and waits.
//! `serve APP DB` makes the run. `busy APP DB` makes it on a port that is listened on already.
//! `replay APP` makes one whose conversation is a stream of the requests, as standard input is.
//! Printed are the line, the status, what was said, if anything, and of each reply its status and
//! its body, or that there was none. `clock` prints whether the system's clock agrees with the time
//! of a file that is written. A line of `#` is written as it is.
//!
//! All is done in one thread: a client connects and sends its request before the server takes the
//! connection, and reads the reply once the server has hung up.

use crate::edge::clock_agrees;
use crate::requests::request_of;
use crate::serving::{Ended, replay, serve, serve_busy};
use std::alloc::Global;
use std::rt::HostRuntime;
use std::{io, mem, str};

/// The clients of the next run.
#[derive(Drop)]
pub struct Loopback {
    /// Whether the lines that come are these rows.
    pub has_begun: bool,
    requests: Vec<Vec<u8>>,
}

impl Loopback {
    /// No row has come.
    pub fn new(alloc: Global) -> Loopback {
        Loopback {
            has_begun: false,
            requests: Vec::new(alloc),
        }
    }

    /// Does what a line says.
    pub fn obey(&mut self, rt: &HostRuntime, line: &str) -> io::Result<()> {
        let (key, rest) = line.split_once(' ').unwrap_or((line, ""));
        match key {
            "#" => println!(rt; "{line}"),
            "serve" => {
                println!(rt; "{line}")?;
                print_end(rt, &serve(rt, rest, self.take_requests(rt.alloc()))?)
            }
            "busy" => {
                println!(rt; "{line}")?;
                print_end(rt, &serve_busy(rt, rest)?)
            }
            "replay" => {
                println!(rt; "{line}")?;
                print_end(rt, &replay(rt, line, &self.take_requests(rt.alloc()))?)
            }
            "clock" => {
                let agrees = clock_agrees(rt)?;
                println!(rt; "{line} {agrees}")
            }
            _ => Ok(self.requests.push(request_of(rt.alloc(), key, rest)?)?),
        }
    }

    /// The requests of a run, behind which those of the next one come.
    fn take_requests(&mut self, alloc: Global) -> Vec<Vec<u8>> {
        mem::replace(&mut self.requests, Vec::new(alloc))
    }
}

/// Prints how a run ended.
fn print_end(rt: &impl Print, ended: &Ended) -> io::Result<()> {
    let status = ended.status;
    println!(rt; "status {status}")?;
    if !ended.said.is_empty() {
        let said = text(&ended.said);
        println!(rt; "says {said}")?;
    }
    for reply in &ended.replies {
        print_reply(rt, text(reply))?;
    }
    Ok(())
}

/// Prints the status line and the body of a reply, or that there is none.
fn print_reply(rt: &impl Print, reply: &str) -> io::Result<()> {
    if reply.is_empty() {
        return println!(rt; "no reply");
    }
    let (head, body) = reply.split_once("\r\n\r\n").unwrap_or(("", ""));
    let (line, _) = head.split_once('\r').unwrap_or((head, ""));
    println!(rt; "{line} {body}")
}

/// A text without the line feed at its end.
fn text(bytes: &[u8]) -> &str {
    str::from_utf8(bytes).unwrap_or("no text").trim_end()
}
