//! A sink in memory that takes pieces.
ghost use Rattle.std.specs.Prelude.{◌<◌};

use fx_base::Failed;
use fx_cli::memory::MemorySink;
use fx_cli::sink::Sink;
use std::marker::Model;

/// A sink, of which each write takes at most so many bytes.
#[derive(Drop)]
pub struct PieceSink {
    sink: MemorySink,
    piece: usize,
}

impl Model for PieceSink {
    ghost use Rattle.std.specs.Prelude.{ℕ, ◌<◌};

    ghost Value = { ℕ };

    ghost view = { λ s. s.sink.plan.count };

    ghost invariant = { λ s. 0 < s.piece };
}

impl PieceSink {
    pub fn new(sink: MemorySink, piece: usize) -> PieceSink {
        PieceSink {
            sink,
            piece: piece.max(1),
        }
    }

    /// What was written.
    pub fn written(&self) -> &[u8] {
        self.sink.written()
    }
}

impl Sink for PieceSink {
    ghost use Rattle.std.specs.Prelude.{None};

    ghost told = { λ _. None };

    ghost faults = { λ count. count };

    fn write(&mut self, piece: &[u8]) -> Result<usize, Failed> {
        let count = piece.len().min(self.piece);
        self.sink.write(&piece[..count])
    }
}
