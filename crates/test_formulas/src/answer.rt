//! What is answered to a row.

use fx_base::Memory;
use std::alloc::{AllocError, AllocFailed, Global};

/// Why a row has no answer.
#[derive(Clone, Copy)]
pub enum Stop {
    /// The line is no row of this table.
    NoRow,
    /// Memory ran out.
    Memory,
}

impl From<Memory> for Stop {
    fn from(_: Memory) -> Self {
        Stop::Memory
    }
}

impl<T: Drop> From<AllocFailed<T>> for Stop {
    fn from(_: AllocFailed<T>) -> Self {
        Stop::Memory
    }
}

impl From<AllocError> for Stop {
    fn from(_: AllocError) -> Self {
        Stop::Memory
    }
}

/// The answer to a row, which is written piece by piece.
// That a piece can't be written is kept and told at the end, so that nobody ends where a piece is
// written.
#[derive(Drop)]
pub struct Answer {
    pub alloc: Global,
    text: String,
    has_entry: bool,
    stop: Option<Stop>,
}

impl Answer {
    pub fn new(alloc: Global) -> Answer {
        Answer {
            alloc,
            text: String::new(alloc),
            has_entry: false,
            stop: None,
        }
    }

    /// Adds a piece at the end.
    pub fn add(&mut self, piece: &str) {
        if self.text.push_str(piece).is_err() {
            self.stop(Stop::Memory);
        }
    }

    /// Adds a piece that was made, if there was memory for it.
    pub fn add_made<E: Drop>(&mut self, piece: Result<String, E>) {
        match piece {
            Ok(piece) => self.add(piece.as_str()),
            Err(_) => self.stop(Stop::Memory),
        }
    }

    /// Adds the comma before each part but the first.
    pub fn add_comma(&mut self, place: usize) {
        if place > 0 {
            self.add(", ");
        }
    }

    /// Begins one more entry of an answer of several.
    pub fn begin_entry(&mut self) {
        if self.has_entry {
            self.add(" | ");
        }
        self.has_entry = true;
    }

    /// Keeps why there is no answer.
    pub fn stop(&mut self, why: Stop) {
        self.stop = Some(why);
    }

    /// The answer, if no piece of it is missing.
    pub fn finish(self) -> Result<String, Stop> {
        match self.stop {
            None => Ok(self.text),
            Some(why) => Err(why),
        }
    }
}
