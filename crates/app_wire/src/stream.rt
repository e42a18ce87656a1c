//! A reader and a writer as one conversation, of which nothing is told.
ghost use Rattle.std.specs.Prelude.{◌≡◌, false, None};

use crate::doors::Doors;
use fx_base::Failed;
use std::io::{Read, Write};
use std::marker::Model;

/// One conversation over a reader and a writer, such as standard input and output. It tells nothing
/// of them, and is seen as its count of faults.
#[derive(Drop)]
pub struct StreamDoors<R, W> {
    input: R,
    output: W,
    began: bool,
    faults: u64,
}

impl<R, W> Model for StreamDoors<R, W> {
    ghost use Rattle.std.specs.Prelude.{ℕ};

    ghost Value = { ℕ };

    ghost view = { λ s. s.faults };
}

impl<R, W> StreamDoors<R, W> {
    /// Doors to the one conversation, which hasn't begun.
    pub fn new(input: R, output: W) -> StreamDoors<R, W>
        ensures { result ≡ 0 }
    {
        StreamDoors {
            input,
            output,
            began: false,
            faults: 0,
        }
    }
}

impl<R: Read, W: Write> Doors for StreamDoors<R, W> {
    ghost told = { λ s. None };

    ghost single = { λ s. false };

    ghost faults = { λ s. s };

    fn listen(&mut self, _port: u16) -> Result<(), Failed> {
        Ok(())
    }

    fn next(&mut self) -> Result<bool, Failed> {
        let first = !self.began;
        self.began = true;
        Ok(first)
    }

    fn read(&mut self, room: &mut [u8]) -> Result<usize, Failed> {
        match self.input.read(room) {
            Ok(n) => Ok(n),
            Err(_) => {
                self.faults = self.faults.saturating_add(1);
                Err(Failed)
            }
        }
    }

    fn write(&mut self, piece: &[u8]) -> Result<usize, Failed> {
        match self.output.write(piece) {
            // A write of nothing counts as a fault, so that `write_all` ends.
            Ok(n) if n > 0 || piece.is_empty() => Ok(n),
            _ => {
                self.faults = self.faults.saturating_add(1);
                Err(Failed)
            }
        }
    }

    fn hang_up(&mut self) {}

    fn one(&self) -> bool {
        false
    }
}
