//! Laws of edits.
ghost use Rattle.office.specs.DeskEditLaws.{EditActsOnce, CarriesSessions, IsOneEditOutcome};
ghost use Rattle.office.specs.DeskEditLaws.{EditLeavesOthers};

use app_loader::{one_edit, one_edit_refusal, one_edited};

/// A law, and no work: an edit leaves what is kept of every other desk.
pub fn leaves_others()
    ensures { EditLeavesOthers }
{}

/// A law, and no work: an edit leaves the app and the sessions, or the sessions go over to the
/// edited app.
pub fn carries_sessions()
    ensures { CarriesSessions }
{}

/// A law, and no work: the last accepted edit of a desk, when it comes again, gets the kept reply
/// and acts no more.
pub fn acts_once()
    ensures { EditActsOnce }
{}

/// A law, and no work: an edit has one outcome; a refused one is refused for the same breaks.
pub fn one_outcome()
    ensures { IsOneEditOutcome }
{
    one_edit();
    one_edited();
    one_edit_refusal();
}
