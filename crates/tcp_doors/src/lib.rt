//! Conversations over TCP, on loopback alone, of which nothing is told.
#![tactic(auto)]

ghost use Rattle.std.specs.Prelude.{◌≡◌, true, None};

mod client;

use crate::client::Client;
use app_wire::doors::Doors;
use fx_base::Failed;
use std::marker::Model;
use std::net::{Ipv4Addr, TcpListener};
use std::rt::HostRuntime;

/// Conversations over TCP, each of one request and its reply, with clients on this machine. They
/// tell nothing, and are seen as their count of faults.
pub struct TcpDoors {
    rt: HostRuntime,
    listener: Option<TcpListener>,
    /// The client of the present conversation.
    client: Option<Client>,
    faults: u64,
}

// By hand, so that it is called: what is derived is opened wherever a value may end, which costs
// proofs seconds each time.
impl Drop for TcpDoors {
    fn drop(self) {
        let TcpDoors {
            rt: _,
            listener: _,
            client: _,
            faults: _,
        } = self;
    }
}

impl Model for TcpDoors {
    ghost use Rattle.std.specs.Prelude.{ℕ};

    ghost Value = { ℕ };

    ghost view = { λ d. d.faults };
}

impl TcpDoors {
    /// Doors that don't listen yet.
    pub fn new(rt: HostRuntime) -> TcpDoors
        ensures { result ≡ 0 }
    {
        TcpDoors {
            rt,
            listener: None,
            client: None,
            faults: 0,
        }
    }

    /// Goes to the next client, if one could be taken.
    fn take_next(&mut self) -> bool
        ensures { self.new ≡ self.old }
    {
        let Some(listener) = &self.listener else {
            return false;
        };
        match Client::next(&self.rt, listener) {
            Ok(client) => {
                self.client = Some(client);
                true
            }
            Err(_) => false,
        }
    }
}

impl Doors for TcpDoors {
    ghost told = { λ _. None };

    ghost single = { λ _. true };

    ghost faults = { λ d. d };

    fn listen(&mut self, port: u16) -> Result<(), Failed> {
        match TcpListener::bind(&self.rt, (Ipv4Addr::LOCALHOST, port)) {
            Ok(listener) => {
                self.listener = Some(listener);
                Ok(())
            }
            Err(_) => {
                self.faults = self.faults.saturating_add(1);
                Err(Failed)
            }
        }
    }

    fn next(&mut self) -> Result<bool, Failed> {
        if self.take_next() {
            return Ok(true);
        }
        self.faults = self.faults.saturating_add(1);
        Err(Failed)
    }

    fn read(&mut self, room: &mut [u8]) -> Result<usize, Failed> {
        if let Some(client) = &mut self.client
            && let Ok(n) = client.read(&self.rt, room)
        {
            return Ok(n);
        }
        self.faults = self.faults.saturating_add(1);
        Err(Failed)
    }

    fn write(&mut self, piece: &[u8]) -> Result<usize, Failed> {
        // A write of nothing counts as a fault, so that `write_all` ends.
        if let Some(client) = &mut self.client
            && let Ok(n) = client.write(&self.rt, piece)
            && (n > 0 || piece.is_empty())
        {
            return Ok(n);
        }
        self.faults = self.faults.saturating_add(1);
        Err(Failed)
    }

    fn hang_up(&mut self) {
        if let Some(client) = self.client.take() {
            client.leave(&self.rt);
        }
    }

    fn one(&self) -> bool {
        true
    }
}
