//! The text that is written.

use std::alloc::{AllocError, Global};

/// Lines of text.
// That there is no memory for a piece is kept and told at the end, so that no caller ends where it
// adds one.
#[derive(Drop)]
pub struct Page {
    pub alloc: Global,
    text: String,
    /// Whether a piece is missing, for which there was no memory.
    is_short: bool,
}

impl Page {
    pub fn new(alloc: Global) -> Page {
        Page {
            alloc,
            text: String::new(alloc),
            is_short: false,
        }
    }

    /// Puts a piece at the end.
    pub fn put(&mut self, piece: &str) {
        if self.text.push_str(piece).is_err() {
            self.miss();
        }
    }

    /// Puts a piece that was made at the end, if there was memory for it.
    pub fn put_made<E: Drop>(&mut self, piece: Result<String, E>) {
        match piece {
            Ok(piece) => self.put(piece.as_str()),
            Err(_) => self.miss(),
        }
    }

    /// Ends a line with a piece.
    pub fn add(&mut self, piece: &str) {
        self.put(piece);
        self.put("\n");
    }

    /// Ends a line with a piece that was made, if there was memory for it.
    pub fn add_made<E: Drop>(&mut self, piece: Result<String, E>) {
        self.put_made(piece);
        self.put("\n");
    }

    /// Adds a line of a question and its answer.
    pub fn add_answer(&mut self, question: &str, answer: bool) {
        self.put(question);
        self.add(if answer { ": true" } else { ": false" });
    }

    /// Keeps that there was no memory for a piece.
    pub fn miss(&mut self) {
        self.is_short = true;
    }

    /// The text, if no piece of it is missing.
    pub fn finish(self) -> Result<String, AllocError> {
        if self.is_short {
            return Err(AllocError);
        }
        Ok(self.text)
    }
}
