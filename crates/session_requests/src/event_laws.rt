//! Laws of what the formulas of a request do.
ghost use Rattle.session_requests.specs.EventLaws.{OneOpening, OneRunning};

use crate::acting_laws::one_acting;

/// A law, and no work: what a request does at a trigger has one value and one end.
pub fn one_running()
    ensures { OneRunning }
{
    one_acting();
}

/// A law, and no work: opening a session has one end.
pub fn one_opening()
    ensures { OneOpening }
{
    one_acting();
}
