//! Conversations.
ghost use Rattle.std.specs.Prelude.{◌≡◌, ℕ, ◌<◌, ◌≤◌, Bool, IfOk, OnErr, OnOk, Option, length};
ghost use Rattle.std.specs.Prelude.{take};
ghost use Rattle.std.specs.Io.{ReadsAtMost, WritesAtMost};
ghost use Rattle.fx_base.specs.Faults.{HasFaultCause};
ghost use Rattle.fx_base.specs.Telling.{Changes, Stays, Tells};
ghost use Rattle.app_wire.specs.Doorway.{Closes, NextComes, Doorway, Listens, DoorsRead, Writes};
ghost use Rattle.app_wire.specs.Doorway.{WritesPart};

use fx_base::Failed;

/// Conversations, one after another, each with bytes to read and bytes to write. A call fails only
/// where the count of faults rose in it, and leaves all else that is told as it was.
pub trait Doors {
    ghost told: { Self → Option Doorway };

    ghost single: { Self → Bool };

    ghost faults: { Self → ℕ };

    /// Listens on this port.
    fn listen(&mut self, port: u16) -> Result<(), Failed>
        ensures ok { OnOk result (Changes (Listens port) (told self.old) (told self.new)) }
        ensures err { OnErr result (Changes Stays (told self.old) (told self.new)) }
        ensures single { single self.new ≡ single self.old }
        ensures cause { HasFaultCause (faults self.old) (faults self.new) result };

    /// Goes to the next conversation, if one is left.
    fn next(&mut self) -> Result<bool, Failed>
        ensures ok { IfOk result (λ more. Changes (NextComes more) (told self.old) (told self.new)) }
        ensures err { OnErr result (Changes Stays (told self.old) (told self.new)) }
        ensures single { single self.new ≡ single self.old }
        ensures cause { HasFaultCause (faults self.old) (faults self.new) result };

    /// Reads some bytes of the present conversation. Into room that isn't empty it reads none only
    /// at the end of the input.
    fn read(&mut self, room: &mut [u8]) -> Result<usize, Failed>
        ensures bound { ReadsAtMost result room.new }
        ensures ok { IfOk result (λ n. Changes (DoorsRead (take n room.new) (length room.old))
            (told self.old) (told self.new)) }
        ensures err { OnErr result (Changes Stays (told self.old) (told self.new)) }
        ensures single { single self.new ≡ single self.old }
        ensures cause { HasFaultCause (faults self.old) (faults self.new) result };

    /// Writes some bytes to the present conversation, at least one of a piece that isn't empty.
    fn write(&mut self, piece: &[u8]) -> Result<usize, Failed>
        ensures bound { WritesAtMost result piece.now }
        ensures some { IfOk result (λ n. 0 < length piece.now → 0 < n) }
        ensures ok { IfOk result (λ n. Changes (Writes (take n piece.now)) (told self.old)
            (told self.new)) }
        ensures err { OnErr result (Changes Stays (told self.old) (told self.new)) }
        ensures single { single self.new ≡ single self.old }
        ensures cause { HasFaultCause (faults self.old) (faults self.new) result };

    /// Ends the present conversation.
    fn hang_up(&mut self)
        ensures told { Changes Closes (told self.old) (told self.new) }
        ensures single { single self.new ≡ single self.old }
        ensures faults { faults self.new ≡ faults self.old };

    /// Whether a conversation ends after one reply.
    fn one(&self) -> bool
        ensures { result ≡ single self.now };
}

/// Writes all of the bytes, or a first part of them where the doors fail.
pub fn write_all<D: Doors>(doors: &mut D, bytes: &[u8]) -> Result<(), Failed>
    ensures ok { OnOk result (Tells (Writes bytes.now) (D.told doors.old) (D.told doors.new)) }
    ensures err { OnErr result (Tells (WritesPart bytes.now) (D.told doors.old) (D.told doors.new)) }
    ensures single { D.single doors.new ≡ D.single doors.old }
    ensures cause { HasFaultCause (D.faults doors.old) (D.faults doors.new) result }
{
    let mut at = 0;
    while at < bytes.len() {
        at += doors.write(&bytes[at..])?;
    }
    Ok(())
}
