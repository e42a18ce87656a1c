//! The next request of a conversation.
ghost use Rattle.std.specs.Prelude.{◌≡◌, ◌≤◌};
ghost use Rattle.fx_base.specs.Faults.{Rose};
ghost use Rattle.fx_base.specs.Telling.{Tells};
ghost use Rattle.app_wire.specs.NextRequest.{FindsNext, HasCode, frame_found};

use crate::doors::Doors;
use crate::framer::{Fed, Framer, Request};
use fx_base::{Failed, Memory};

/// What the rest of a conversation begins with.
#[derive(Drop)]
pub enum Found {
    Whole(Request),
    /// A framing refusal, by its code.
    Refused(u8),
    /// No byte is left.
    Quiet,
    /// Want of memory.
    Memory,
    /// The doors failed in a read.
    Failed,
}

fn found_of(fed: Result<Fed, Memory>) -> Option<Found>
    ensures { result ≡ frame_found fed }
{
    match fed {
        Ok(Fed::Need) => None,
        Ok(Fed::Whole(request)) => Some(Found::Whole(request)),
        Ok(Fed::Refused(code)) => Some(Found::Refused(code)),
        Err(_) => Some(Found::Memory),
    }
}

/// Finds the next request of the present conversation, of whose bytes the framer holds those that
/// came. It reads only while they hold no whole request.
pub fn next_request<D: Doors>(framer: &mut Framer, doors: &mut D) -> Found
    ensures found { Tells (FindsNext result framer.old framer.new) (D.told doors.old)
        (D.told doors.new) }
    ensures code { HasCode result }
    ensures single { D.single doors.new ≡ D.single doors.old }
    ensures later { D.faults doors.old ≤ D.faults doors.new }
    ensures failed { result ≡ Found.Failed → Rose (D.faults doors.old) (D.faults doors.new) }
{
    // No more than this is read ahead of a request.
    let mut room = [0; 512];
    if let Some(found) = found_of(framer.more()) {
        return found;
    }
    // It ends: each turn holds a byte more, and of 8,192 bytes a head is found or refused.
    'reading: loop {
        match doors.read(&mut room) {
            Err(Failed) => return Found::Failed,
            Ok(0) => {
                return if framer.finish() {
                    Found::Refused(6)
                } else {
                    Found::Quiet
                };
            }
            Ok(n) => {
                if let Some(found) = found_of(framer.feed(&room[..n])) {
                    return found;
                }
            }
        }
    }
}
