//! Requests in pieces, conversations in memory and over a reader and a writer, replies, and
//! moments.

use crate::page::Page;
use app_wire::doors::write_all;
use app_wire::next::{Found, next_request};
use app_wire::{
    Clock, Doors, Fed, Framer, ListClock, MemoryDoors, StreamDoors, fixed_reply, reply_bytes,
};
use fx_base::Memory;
use std::alloc::Global;
use std::str;

pub fn write(page: &mut Page) {
    page.add("# A request in pieces, and what is no request");
    add_pieces(page, &mut Framer::new(page.alloc));
    page.add("# A conversation in memory, of which a request is cut short");
    match memory_doors(page.alloc) {
        Ok(mut doors) => add_memory(page, &mut doors),
        Err(Memory) => page.miss(),
    }
    page.add("# A reader and a writer as a conversation");
    add_stream(page);
    page.add("# Replies");
    add_replies(page);
    page.add("# Moments");
    add_moments(page, "of none:", &[], 2);
    add_moments(page, "of 5 and 7:", &[5, 7], 3);
}

// What a new framer answers to pieces.
fn add_pieces(page: &mut Page, framer: &mut Framer) {
    page.add_answer("nothing is cut short", framer.finish());
    let first = matches!(framer.feed(b"GET / HT"), Ok(Fed::Need));
    page.add_answer("a first piece needs more", first);
    page.add_answer("it is cut short", framer.finish());
    let second = matches!(framer.feed(b"TP/1.1\n\nGET\n\n"), Ok(Fed::Whole(_)));
    page.add_answer("with the second it is whole", second);
    let third = matches!(framer.more(), Ok(Fed::Refused(1)));
    page.add_answer("what is behind it is no head", third);
}

// A conversation whose first call fails.
fn memory_doors(alloc: Global) -> Result<MemoryDoors, Memory> {
    let fails = Vec::from_slice(alloc, &[1])?;
    let mut conversations = Vec::new(alloc);
    conversations.push(Vec::from_slice(alloc, b"PUT /s/a HTTP/1.1\r\n\r\nGE")?)?;
    Ok(MemoryDoors::new(alloc, conversations, 7, true, fails))
}

fn add_memory(page: &mut Page, doors: &mut MemoryDoors) {
    page.add_answer("the first call fails", doors.listen(80).is_err());
    page.add_answer("something is written", doors.written(0).is_some());
    add_conversation(page, doors, "a conversation comes", b"bye");
    page.add(text(doors.written(0).unwrap_or(b"nothing")));
    page.add_answer(
        "something is written to a second",
        doors.written(1).is_some(),
    );
}

fn add_stream(page: &mut Page) {
    let mut output = Vec::new(page.alloc);
    let mut doors = StreamDoors::new(b"GET / HTTP/1.1\n\n".as_slice(), &mut output);
    page.add_answer("it is listened for", doors.listen(80).is_ok());
    add_conversation(page, &mut doors, "it comes", b"answer");
    page.add(text(&output));
}

// Adds the first two requests of a conversation, to which words are written then, and whether
// another comes.
fn add_conversation<D: Doors>(page: &mut Page, doors: &mut D, question: &str, words: &[u8]) {
    page.add_answer(question, doors.next() == Ok(true));
    page.add_answer("it ends after one reply", doors.one());
    add_requests(page, &mut Framer::new(page.alloc), doors);
    page.add_answer("words are written", write_all(doors, words).is_ok());
    doors.hang_up();
    page.add_answer("another comes", doors.next() == Ok(true));
}

fn add_requests<D: Doors>(page: &mut Page, framer: &mut Framer, doors: &mut D) {
    add_found(page, &next_request(framer, doors));
    add_found(page, &next_request(framer, doors));
}

fn add_found(page: &mut Page, found: &Found) {
    match found {
        Found::Whole(request) => {
            page.put_made(format!(in page.alloc; "{:?} ", request.method));
            page.add(text(&request.path));
        }
        Found::Refused(code) => page.add_made(format!(in page.alloc; "refused {code}")),
        Found::Quiet => page.add("no byte is left"),
        Found::Memory => page.miss(),
        Found::Failed => page.add("the doors failed"),
    }
}

fn add_replies(page: &mut Page) {
    match reply_bytes(page.alloc, 200, "{\"ok\":true}") {
        Ok(reply) => add_reply(page, &reply),
        Err(Memory) => page.miss(),
    }
    add_reply(page, fixed_reply(25));
    add_reply(page, fixed_reply(26));
}

// The bytes of a reply in one line.
fn add_reply(page: &mut Page, reply: &[u8]) {
    page.add_made(format!(in page.alloc; "{:?}", text(reply)));
}

// Adds so many moments that a clock gives which has these.
fn add_moments(page: &mut Page, what: &str, moments: &[u64], count: u32) {
    page.put(what);
    match Vec::from_slice(page.alloc, moments) {
        Ok(moments) => put_moments(page, &mut ListClock::new(moments), count),
        Err(_) => page.miss(),
    }
    page.add("");
}

fn put_moments(page: &mut Page, clock: &mut ListClock, count: u32) {
    for _ in 0..count {
        page.put_made(format!(in page.alloc; " {}", clock.now()));
    }
}

fn text(bytes: &[u8]) -> &str {
    str::from_utf8(bytes).unwrap_or("no text")
}
