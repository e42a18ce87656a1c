//! Desks, which change rows and the app.
ghost use Rattle.std.specs.Prelude.{◌≡◌};
ghost use Rattle.session_state.specs.Once.{nobody, turn_of};

use crate::caller::Caller;
use crate::turn::Turn;
use std::alloc::Global;
use std::marker::Model;

/// A desk: what is kept of its requests.
#[derive(Drop)]
pub struct Desk {
    caller: Caller,
}

impl Model for Desk {
    ghost use Rattle.session_state.specs.Once.{LastRequest};

    ghost Value = { LastRequest };

    ghost view = { λ d. d.caller };
}

impl Desk {
    /// A desk of which no request was accepted yet.
    pub fn new(alloc: Global) -> Desk
        ensures { result ≡ nobody }
    {
        Desk {
            caller: Caller::new(alloc),
        }
    }

    /// What a request of this number and body means.
    pub fn turn(&self, seq: u32, body: &[u8]) -> Turn
        ensures { result ≡ turn_of self.now seq body.now }
    {
        self.caller.turn(seq, body)
    }

    /// A request was accepted and answered so.
    pub fn keep(&mut self, seq: u32, body: Vec<u8>, reply: Vec<u8>)
        ensures { self.new ≡ record { last = seq; body = body.items; reply = reply.items } }
    {
        self.caller.keep(seq, body, reply);
    }

    /// The reply to the last accepted request.
    pub fn kept(&self) -> &[u8]
        ensures { result.now ≡ self.now.reply }
    {
        self.caller.last_reply()
    }
}
