//! Whole conversations.
ghost use Rattle.std.specs.Prelude.{◌≡◌, ◌≢◌, ◌≤◌, IsTrue, List, length};
ghost use Rattle.fx_base.specs.Faults.{Rose};
ghost use Rattle.fx_base.specs.Silence.{IsLater};
ghost use Rattle.fx_base.specs.Telling.{Tells};
ghost use Rattle.app_wire.specs.Moments.{Ticks};
ghost use Rattle.app_wire.specs.ReplyBytes.{is_fixed, refusal};
ghost use Rattle.office.specs.Answers.{Converses, Exchange, IsAnswerCount, Plays, SaysLastWords};
ghost use Rattle.office.specs.Answers.{moments_of};

use crate::machine::Office;
use app_wire::clock::Clock;
use app_wire::doors::{Doors, write_all};
use app_wire::framer::Framer;
use app_wire::next::{Found, next_request};
use app_wire::reply::fixed_reply;
use fx_base::Failed;
use recalc::Steps;
use row_keeper::Keeper;
use std::sync::ledger::Ledger;

/// The most requests that are answered in one conversation.
pub const MOST_REQUESTS: u32 = 1_000_000;

/// How a conversation ended.
#[derive(Clone, Copy, Debug, PartialEq, Eq)]
pub enum ConvEnd {
    /// At the end of its bytes, at a framing refusal, for want of memory in finding a request, or
    /// after the one reply of doors that end it there.
    Ended,
    /// By a counted fault of the doors.
    Faulted,
    /// After the most requests that are answered in one conversation.
    Full,
}

impl<K: Keeper + Drop> Office<K> {
    /// Answers the present conversation of the doors. Each whole request is answered before more is
    /// read, at one moment of the clock.
    pub fn converse<D: Doors, C: Clock, L: Ledger>(
        &mut self,
        doors: &mut D,
        clock: &mut C,
        steps: &mut Steps<L>,
    ) -> ConvEnd
        ensures talked { (exchanges : List Exchange)
            × Ticks (C.told clock.old) (moments_of exchanges) (C.told clock.new)
            × Plays self.old.state self.old.marks exchanges self.new.state self.new.marks
            × IsAnswerCount result (D.single doors.old) (length exchanges)
            × Tells (Converses (D.single doors.old) result exchanges) (D.told doors.old)
            (D.told doors.new) }
        ensures cause { result ≡ ConvEnd.Faulted → Rose (D.faults doors.old) (D.faults doors.new) }
        ensures later { D.faults doors.old ≤ D.faults doors.new }
        ensures marks { IsLater self.old.marks self.new.marks }
        ensures loan { self.new.loan ≡ self.old.loan }
        ensures single { D.single doors.new ≡ D.single doors.old }
    {
        let mut framer = Framer::new(self.alloc);
        for answered in 0..MOST_REQUESTS {
            match next_request(&mut framer, doors) {
                Found::Whole(request) => {
                    let moment = clock.now();
                    let reply = self.answer(&request, moment, steps);
                    // By `match`, in whose arms the proof has what the call promises; a test would
                    // hide it.
                    match write_all(doors, reply.whole()) {
                        Ok(()) => {}
                        Err(Failed) => return ConvEnd::Faulted,
                    }
                    if doors.one() {
                        return ConvEnd::Ended;
                    }
                }
                Found::Refused(code) => return last_words(doors, code),
                Found::Quiet => return ConvEnd::Ended,
                Found::Memory => return last_words(doors, 26),
                Found::Failed => return ConvEnd::Faulted,
            }
        }
        ConvEnd::Full
    }
}

/// Says the last words of a conversation.
fn last_words<D: Doors>(doors: &mut D, code: u8) -> ConvEnd
    requires { IsTrue (is_fixed code) }
    ensures said { Tells (SaysLastWords result (refusal code)) (D.told doors.old) (D.told doors.new) }
    ensures never_full { result ≢ ConvEnd.Full }
    ensures cause { result ≡ ConvEnd.Faulted → Rose (D.faults doors.old) (D.faults doors.new) }
    ensures later { D.faults doors.old ≤ D.faults doors.new }
    ensures single { D.single doors.new ≡ D.single doors.old }
{
    match write_all(doors, fixed_reply(code)) {
        Ok(()) => ConvEnd::Ended,
        Err(Failed) => ConvEnd::Faulted,
    }
}
