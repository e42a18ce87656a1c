//! Whose accepted requests are numbered.
ghost use Rattle.std.specs.Prelude.{◌≡◌, IfOk};
ghost use Rattle.session_state.specs.Once.{nobody, turn_of};

use crate::turn::Turn;
use fx_base::Memory;
use std::alloc::Global;
use std::marker::Model;

/// What is kept of a caller: its last number, 0 at first, and the body and the reply of the request
/// that had it.
#[derive(Drop)]
pub(crate) struct Caller {
    last: u32,
    body: Vec<u8>,
    reply: Vec<u8>,
}

impl Model for Caller {
    ghost use Rattle.session_state.specs.Once.{LastRequest};

    ghost Value = { LastRequest };

    ghost view = { λ c. record { last = c.last; body = c.body.items; reply = c.reply.items } };
}

impl Caller {
    /// No request was accepted yet.
    pub(crate) fn new(alloc: Global) -> Caller
        ensures { result ≡ nobody }
    {
        Caller {
            last: 0,
            body: Vec::new(alloc),
            reply: Vec::new(alloc),
        }
    }

    /// What a request of this number and body means.
    pub(crate) fn turn(&self, seq: u32, body: &[u8]) -> Turn
        ensures { result ≡ turn_of self.now seq body.now }
    {
        if seq > self.last && seq - self.last == 1 {
            Turn::New
        } else if seq != self.last {
            Turn::OutOfStep(self.last)
        } else if body == self.body.as_slice() {
            Turn::Again
        } else {
            Turn::Reused
        }
    }

    /// A request was accepted and answered so.
    pub(crate) fn keep(&mut self, seq: u32, body: Vec<u8>, reply: Vec<u8>)
        ensures { self.new ≡ record { last = seq; body = body.items; reply = reply.items } }
    {
        self.last = seq;
        self.body = body;
        self.reply = reply;
    }

    /// The kept reply.
    pub(crate) fn last_reply(&self) -> &[u8]
        ensures { result.now ≡ self.now.reply }
    {
        self.reply.as_slice()
    }

    /// The same once more.
    pub(crate) fn copy(&self, alloc: Global) -> Result<Caller, Memory>
        ensures { IfOk result (λ c. c ≡ self.now) }
    {
        let body = Vec::from_slice(alloc, &self.body)?;
        let reply = Vec::from_slice(alloc, &self.reply)?;
        Ok(Caller {
            last: self.last,
            body,
            reply,
        })
    }
}
