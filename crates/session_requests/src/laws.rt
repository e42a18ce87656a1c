//! Laws of sessions' requests.
ghost use Rattle.session_requests.specs.Laws.{RequestActsOnce, IsOneOutcome, LeavesOthers};

use crate::app_semantics::{fitting_holds, one_fresh_at};
use crate::event_laws::one_running;
use crate::fx_semantics::one_value;

/// A law, and no work: what is sent by a session leaves every other as it was.
pub fn leaves_others()
    ensures { LeavesOthers }
{}

/// A law, and no work: the last accepted request of a session, when it comes again, gets the kept
/// reply and acts no more.
pub fn acts_once()
    ensures { RequestActsOnce }
{}

/// A law, and no work: what a session sends has one outcome where tables are told, and the reply
/// hangs on no other session.
pub fn one_outcome()
    ensures { IsOneOutcome }
{
    fitting_holds();
    one_fresh_at();
    one_value();
    one_running();
}
