//! Runs of `serve` and of `replay`.
ghost use Rattle.std.specs.Prelude.{◌≡◌, ◌<◌};

use crate::visits::Visits;
use app_wire::clock::ListClock;
use app_wire::doors::Doors;
use app_wire::stream::StreamDoors;
use fx_cli::{MemorySink, RealFiles, Steps, run};
use sql_keeper::SqlKeeper;
use std::alloc::{AllocError, Global};
use std::io;
use std::marker::Brand;
use std::net::{Ipv4Addr, TcpListener};
use std::rt::HostRuntime;
use std::sync::ledger::{Blank, Ledger};

/// How a run ended, what it said, and what its clients read.
#[derive(Drop)]
pub struct Ended {
    pub status: u8,
    pub said: Vec<u8>,
    pub replies: Vec<Vec<u8>>,
}

/// Serves an app from a database, by their names, to clients with these requests.
pub fn serve(rt: &HostRuntime, names: &str, requests: Vec<Vec<u8>>) -> io::Result<Ended> {
    // The listener goes at once, and its port is free then.
    let port = listener(rt)?.local_addr()?.port();
    run_on(rt, names, port, requests)
}

/// The same on a port that is listened on, where no client comes.
pub fn serve_busy(rt: &HostRuntime, names: &str) -> io::Result<Ended> {
    let listener = listener(rt)?;
    let port = listener.local_addr()?.port();
    let ended = run_on(rt, names, port, Vec::new(rt.alloc()));
    drop(listener);
    ended
}

/// A listener on a port that the system chooses.
fn listener(rt: &HostRuntime) -> io::Result<TcpListener> {
    TcpListener::bind(rt, (Ipv4Addr::LOCALHOST, 0u16))
}

/// Replays requests by the words of a line, over rows in memory: one conversation, as long as they
/// are.
pub fn replay(rt: &HostRuntime, line: &str, requests: &[Vec<u8>]) -> io::Result<Ended> {
    let mut sent = Vec::new(rt.alloc());
    for request in requests {
        sent.extend_from_slice(request)?;
    }
    let words = words_of(rt.alloc(), line)?;
    let mut answered = Vec::new(rt.alloc());
    let mut doors = StreamDoors::new(sent.as_slice(), &mut answered);
    let mut out = MemorySink::new(rt.alloc(), Vec::new(rt.alloc()));
    let status = status::<StreamDoors<&[u8], &mut Vec<u8>>, Brand>(
        rt,
        &words,
        &mut doors,
        &mut out,
        Blank::new(1),
    );
    drop(doors);
    let mut replies = Vec::new(rt.alloc());
    replies.push(answered)?;
    Ok(Ended {
        status,
        said: Vec::from_slice(rt.alloc(), out.written())?,
        replies,
    })
}

fn run_on(rt: &HostRuntime, names: &str, port: u16, requests: Vec<Vec<u8>>) -> io::Result<Ended> {
    let words = words(rt.alloc(), names, port, requests.len())?;
    let mut visits = Visits::new(*rt, requests);
    let mut out = MemorySink::new(rt.alloc(), Vec::new(rt.alloc()));
    let status = status::<Visits, Brand>(rt, &words, &mut visits, &mut out, Blank::new(1));
    Ok(Ended {
        status,
        said: Vec::from_slice(rt.alloc(), out.written())?,
        replies: visits.into_replies(),
    })
}

/// The words of a run that takes so many conversations, but at least one.
fn words(
    alloc: Global,
    names: &str,
    port: u16,
    conversations: usize,
) -> Result<Vec<String>, AllocError> {
    let count = conversations.max(1);
    let line = format!(in alloc; "serve {names} {port} {count}")?;
    words_of(alloc, line.as_str())
}

/// The words of a line.
fn words_of(alloc: Global, line: &str) -> Result<Vec<String>, AllocError> {
    let mut words = Vec::new(alloc);
    for word in line.split_whitespace() {
        words.push(String::from_str(alloc, word)?)?;
    }
    Ok(words)
}

/// The status that a run ends with, at the moment 0. The keeper is made here, where nothing else
/// may end it.
fn status<D: Doors, L: Ledger>(
    rt: &HostRuntime,
    words: &[String],
    doors: &mut D,
    out: &mut MemorySink,
    blank: Blank,
) -> u8
    requires name { blank.name ≡ L.name }
    requires parts { blank.parts ≡ L.parts }
    requires some { 0 < L.parts }
{
    run(
        rt.alloc(),
        words,
        doors,
        &mut SqlKeeper::new(*rt),
        &mut RealFiles::new(rt),
        out,
        &mut ListClock::new(Vec::new(rt.alloc())),
        &mut Steps::<L>::new(blank),
    )
    .0
}
