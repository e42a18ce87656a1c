//! Where a run writes.
ghost use Rattle.std.specs.Prelude.{◌≡◌, ◌<◌, ◌≤◌, ℕ, IfOk, List, OnErr, OnOk, Option, length};
ghost use Rattle.std.specs.Prelude.{take};
ghost use Rattle.std.specs.Io.{WritesAtMost};
ghost use Rattle.fx_base.specs.Faults.{HasFaultCause};
ghost use Rattle.fx_base.specs.Telling.{Changes, Stays, Tells};
ghost use Rattle.fx_cli.specs.Telling.{Grows, GrowsInPart};

use fx_base::Failed;

/// Bytes, one after another. A call that fails has written nothing, and one that doesn't counts no
/// fault.
pub trait Sink {
    // The bytes written, where they are told.
    ghost told: { Self → Option (List ℕ) };

    // The faults so far.
    ghost faults: { Self → ℕ };

    /// Writes some bytes of the piece: at least one, where it has one.
    fn write(&mut self, piece: &[u8]) -> Result<usize, Failed>
        ensures bound { WritesAtMost result piece.now }
        ensures some { IfOk result (λ n. 0 < length piece.now → 0 < n) }
        ensures ok { IfOk result (λ n. Changes (Grows (take n piece.now)) (told self.old)
            (told self.new)) }
        ensures still { OnOk result (faults self.new ≡ faults self.old) }
        ensures err { OnErr result (Changes Stays (told self.old) (told self.new)) }
        ensures cause { HasFaultCause (faults self.old) (faults self.new) result };
}

/// Writes all of the text, or a part of it where the sink fails, which ends it.
pub fn write_all<O: Sink>(out: &mut O, text: &[u8]) -> Result<(), Failed>
    ensures ok { OnOk result (Tells (Grows text.now) (O.told out.old) (O.told out.new)) }
    ensures still { OnOk result (O.faults out.new ≡ O.faults out.old) }
    ensures err { OnErr result (Tells (GrowsInPart text.now) (O.told out.old) (O.told out.new)) }
    ensures cause { HasFaultCause (O.faults out.old) (O.faults out.new) result }
{
    let mut at = 0;
    'writing: while at < text.len() {
        at += out.write(&text[at..])?;
    }
    Ok(())
}
