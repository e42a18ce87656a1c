//! Runs over doors that send one text over and over, so that limits are met without room for all
//! that is sent.
ghost use Rattle.std.specs.Prelude.{None, false};

use crate::escapes::add_unescaped;
use crate::row::Row;
use crate::runs::run_over;
use app_wire::doors::Doors;
use fx_base::Failed;
use std::alloc::{AllocError, Global};

/// Conversations, in each of which a text comes so many times. What is written is counted: the
/// writes that are as the first one, which is kept, and all others.
#[derive(Drop)]
pub struct RepeatingDoors {
    text: Vec<u8>,
    times: u64,
    conversations: u64,
    /// How many texts are left of the present conversation, and how much of the first of these was
    /// read.
    left: u64,
    at: usize,
    first: Vec<u8>,
    same: u64,
    others: u64,
}

impl RepeatingDoors {
    fn new(alloc: Global, text: Vec<u8>, times: u64, conversations: u64) -> RepeatingDoors {
        RepeatingDoors {
            text,
            times,
            conversations,
            left: 0,
            at: 0,
            first: Vec::new(alloc),
            same: 0,
            others: 0,
        }
    }
}

impl Doors for RepeatingDoors {
    ghost told = { λ _. None };

    ghost single = { λ _. false };

    ghost faults = { λ _. 0 };

    fn listen(&mut self, _port: u16) -> Result<(), Failed> {
        Ok(())
    }

    fn next(&mut self) -> Result<bool, Failed> {
        if self.conversations == 0 {
            return Ok(false);
        }
        self.conversations = self.conversations.saturating_sub(1);
        self.left = self.times;
        self.at = 0;
        Ok(true)
    }

    fn read(&mut self, room: &mut [u8]) -> Result<usize, Failed> {
        if self.left == 0 {
            return Ok(0);
        }
        let rest = &self.text[self.at.min(self.text.len())..];
        let count = room.len().min(rest.len());
        room[..count].copy_from_slice(&rest[..count]);
        self.at = self.at.saturating_add(count);
        if self.at >= self.text.len() {
            self.at = 0;
            self.left = self.left.saturating_sub(1);
        }
        Ok(count)
    }

    fn write(&mut self, piece: &[u8]) -> Result<usize, Failed> {
        if self.first.is_empty() && self.first.extend_from_slice(piece).is_err() {
            self.others = self.others.saturating_add(1);
        } else if self.first.as_slice() == piece {
            self.same = self.same.saturating_add(1);
        } else {
            self.others = self.others.saturating_add(1);
        }
        Ok(piece.len())
    }

    fn hang_up(&mut self) {}

    fn one(&self) -> bool {
        false
    }
}

/// How a run ended over repeating doors: what it said, what was written first, how often it was
/// written, and how often something else.
#[derive(Drop)]
pub struct Repeated {
    pub status: u8,
    pub said: Vec<u8>,
    pub first: Vec<u8>,
    pub same: u64,
    pub others: u64,
}

/// Makes the run of a row over so many conversations, in each of which a text comes so many times.
pub fn run_repeated(
    alloc: Global,
    row: &Row,
    text: &str,
    times: u64,
    conversations: u64,
) -> Result<Repeated, AllocError> {
    let mut bytes = Vec::new(alloc);
    add_unescaped(alloc, &mut bytes, text, 1)?;
    let mut doors = RepeatingDoors::new(alloc, bytes, times, conversations);
    let (status, said) = run_over(alloc, row, &mut doors)?;
    let RepeatingDoors {
        first,
        same,
        others,
        ..
    } = doors;
    Ok(Repeated {
        status,
        said,
        first,
        same,
        others,
    })
}
