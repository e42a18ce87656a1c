//! Requests from the pieces of a conversation.
ghost use Rattle.std.specs.Prelude.{◌≡◌, ◌<◌, ◌≤◌, ◌++◌, IfOk, OnErr, [], drop, length, vec_len};
ghost use Rattle.std.specs.Prelude.{◌↔◌, IsTrue, true};
ghost use Rattle.app_wire.specs.Framing.{LookFinds, Feeds, Framing, refused};

use crate::body::BodyLength;
use crate::front::{HEAD_ROOM, head_end};
use crate::head::{Head, Method, read_head};
use fx_base::Memory;
use std::alloc::Global;
use std::marker::Model;

/// A whole request.
#[derive(Drop)]
pub struct Request {
    pub method: Method,
    /// The bytes of the target up to its first question mark.
    pub path: Vec<u8>,
    /// The bytes behind the head, as many as its `Content-Length` says.
    pub body: Vec<u8>,
}

/// What the bytes so far begin with.
#[derive(Drop)]
pub enum Fed {
    /// No whole request yet.
    Need,
    Whole(Request),
    /// A refusal, by its code. Every later call answers the same.
    Refused(u8),
}

/// What bytes begin with, before it is taken from them.
#[derive(Clone, Copy)]
pub(crate) enum Look<'a> {
    Need,
    Refused(u8),
    /// A request with its method, its path, its body, and its length in bytes.
    Whole(Method, &'a [u8], &'a [u8], usize),
}

/// Looks at the bytes that came.
pub(crate) fn look_at(bytes: &[u8]) -> Look<'_>
    ensures { LookFinds bytes.now result }
{
    match head_end(bytes) {
        Some(start) => match read_head(&bytes[..start]) {
            Head::Bad => Look::Refused(1),
            Head::Whole(_, _, BodyLength::Bad) => Look::Refused(3),
            Head::Whole(_, _, BodyLength::TooLong) => Look::Refused(4),
            Head::Whole(_, _, BodyLength::NotOffered) => Look::Refused(5),
            Head::Whole(method, path, BodyLength::Bytes(size)) => {
                if bytes.len() - start < size {
                    Look::Need
                } else {
                    let len = start + size;
                    Look::Whole(method, path, &bytes[start..len], len)
                }
            }
        },
        None => {
            if bytes.len() < HEAD_ROOM {
                Look::Need
            } else {
                Look::Refused(2)
            }
        }
    }
}

/// Takes the first n away, without memory.
pub(crate) fn drop_front(bytes: &mut Vec<u8>, n: usize)
    requires { n ≤ vec_len bytes.old }
    ensures { bytes.new.items ≡ drop n bytes.old.items }
{
    let left = bytes.len() - n;
    bytes.rotate_left(n);
    bytes.truncate(left);
}

/// Finds the requests in a conversation's bytes, however they were cut. It is seen as the bytes
/// that it holds: those that came and belong to no request handed out.
#[derive(Drop)]
pub struct Framer {
    alloc: Global,
    held: Vec<u8>,
}

impl Model for Framer {
    ghost use Rattle.std.specs.Prelude.{ℕ, List};

    ghost Value = { List ℕ };

    ghost view = { λ f. f.held.items };
}

impl Framer {
    /// A framer of which nothing came yet. It takes no memory.
    pub fn new(alloc: Global) -> Framer
        ensures { result ≡ [] }
    {
        Framer {
            alloc,
            held: Vec::new(alloc),
        }
    }

    /// Answers by the bytes so far: the next whole request, which is taken from them, a refusal, or
    /// that more is needed. On want of memory, which comes only where a byte came, nothing changes.
    pub fn more(&mut self) -> Result<Fed, Memory>
        ensures fed { IfOk result (λ fed. Feeds self.old fed self.new) }
        ensures err { OnErr result (self.new ≡ self.old) }
        ensures some { OnErr result (0 < length self.old) }
    {
        match look_at(&self.held) {
            Look::Need => Ok(Fed::Need),
            Look::Refused(code) => Ok(Fed::Refused(code)),
            Look::Whole(method, path, body, len) => {
                let path = Vec::from_slice(self.alloc, path)?;
                let body = Vec::from_slice(self.alloc, body)?;
                drop_front(&mut self.held, len);
                Ok(Fed::Whole(Request { method, path, body }))
            }
        }
    }

    /// Takes the next piece of the conversation, and answers as `more` does. On want of memory,
    /// which comes only where a byte came, nothing changes, and the piece wasn't taken.
    pub fn feed(&mut self, piece: &[u8]) -> Result<Fed, Memory>
        ensures fed { IfOk result (λ fed. Feeds (self.old ++ piece.now) fed self.new) }
        ensures err { OnErr result (self.new ≡ self.old) }
        ensures some { OnErr result (0 < length (self.old ++ piece.now)) }
    {
        let before = self.held.len();
        self.held.extend_from_slice(piece)?;
        match self.more() {
            Ok(fed) => Ok(fed),
            Err(error) => {
                self.held.truncate(before);
                Err(error)
            }
        }
    }

    /// Whether the input, if it ends here, cuts a request short.
    pub fn finish(&self) -> bool
        ensures { IsTrue result ↔ Framing self.now true (refused 6) }
    {
        !self.held.is_empty() && matches!(look_at(&self.held), Look::Need)
    }
}
