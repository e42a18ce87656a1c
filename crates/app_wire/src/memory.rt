//! Doors in memory, which can fail at any call.
ghost use Rattle.std.specs.Prelude.{◌≡◌, ◌<◌, map, option_map};
ghost use Rattle.app_wire.specs.DoorsInMemory.{at_first, written_to};

use crate::doors::Doors;
use crate::framer::drop_front;
use crate::talk::{MemoryTalk, hang_up_last, take_of_last, write_to_last};
use fx_base::Failed;
use fx_base::plan::FaultPlan;
use std::alloc::Global;
use std::marker::Model;

/// Conversations in memory. It tells all of them.
#[derive(Drop)]
pub struct MemoryDoors {
    alloc: Global,
    port: Option<u16>,
    coming: Vec<Vec<u8>>,
    unread: Vec<u8>,
    talks: Vec<MemoryTalk>,
    piece: usize,
    one: bool,
    plan: FaultPlan,
}

impl Model for MemoryDoors {
    ghost use Rattle.std.specs.Prelude.{◌<◌, map};
    ghost use Rattle.app_wire.specs.DoorsInMemory.{DoorsInMemory};

    ghost Value = { DoorsInMemory };

    ghost view = { λ m. record {
      way = record {
        port = m.port;
        coming = map (λ c. c.items) m.coming.items;
        unread = m.unread.items;
        begun = m.talks.items;
      };
      single = m.one;
      plan = m.plan;
    } };

    ghost invariant = { λ m. 0 < m.piece };
}

impl MemoryDoors {
    /// Doors with these conversations, where each read and each write takes at most `piece` bytes
    /// and the calls of the numbers `fails`, counted from 1, fail; `hang_up` and `one` aren't
    /// counted. A call fails too where memory runs out, and a write where no conversation has
    /// begun.
    pub fn new(
        alloc: Global,
        conversations: Vec<Vec<u8>>,
        piece: usize,
        one: bool,
        fails: Vec<u64>,
    ) -> MemoryDoors
        requires { 0 < piece }
        ensures { result ≡ at_first (map (λ c. c.items) conversations.items) one fails.items }
    {
        MemoryDoors {
            alloc,
            port: None,
            coming: conversations,
            unread: Vec::new(alloc),
            talks: Vec::new(alloc),
            piece,
            one,
            plan: FaultPlan::new(fails),
        }
    }

    /// What was written to a conversation, counted from 0; none for one that hasn't become the
    /// present one yet.
    pub fn written(&self, conversation: usize) -> Option<&[u8]>
        ensures { option_map (λ bytes. bytes.now) result ≡ written_to conversation self.now.way }
    {
        match self.talks.get(conversation) {
            Some(talk) => Some(talk.output()),
            None => None,
        }
    }
}

impl Doors for MemoryDoors {
    ghost use Rattle.std.specs.Prelude.{Some};

    ghost told = { λ m. Some m.way };

    ghost single = { λ m. m.single };

    ghost faults = { λ m. m.plan.count };

    fn listen(&mut self, port: u16) -> Result<(), Failed> {
        if self.plan.next_fails() {
            return Err(Failed);
        }
        self.port = Some(port);
        Ok(())
    }

    fn next(&mut self) -> Result<bool, Failed> {
        if self.plan.next_fails() {
            return Err(Failed);
        }
        if self.coming.is_empty() {
            return Ok(false);
        }
        match self.talks.push(MemoryTalk::new(self.alloc)) {
            Ok(()) => {}
            Err(_) => {
                self.plan.raise();
                return Err(Failed);
            }
        }
        self.unread = self.coming.remove(0);
        Ok(true)
    }

    fn read(&mut self, room: &mut [u8]) -> Result<usize, Failed> {
        if self.plan.next_fails() {
            return Err(Failed);
        }
        let n = self.piece.min(room.len()).min(self.unread.len());
        if !take_of_last(&mut self.talks, &self.unread[..n]) {
            self.plan.raise();
            return Err(Failed);
        }
        room[..n].copy_from_slice(&self.unread[..n]);
        drop_front(&mut self.unread, n);
        Ok(n)
    }

    fn write(&mut self, piece: &[u8]) -> Result<usize, Failed> {
        if self.plan.next_fails() {
            return Err(Failed);
        }
        let n = self.piece.min(piece.len());
        if write_to_last(&mut self.talks, &piece[..n]) {
            return Ok(n);
        }
        self.plan.raise();
        Err(Failed)
    }

    fn hang_up(&mut self) {
        self.unread.clear();
        hang_up_last(&mut self.talks);
    }

    fn one(&self) -> bool {
        self.one
    }
}
