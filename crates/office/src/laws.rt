//! Laws of the office.
ghost use Rattle.office.specs.Answers.{IsSilent};
ghost use Rattle.office.specs.Isolation.{ActsOnce, ActsOnceKept, IsAlone, LeavesDesk};
ghost use Rattle.office.specs.Isolation.{LeavesSession, ReadsAlone};
ghost use Rattle.office.specs.Refused.{RefusedLeaves};
ghost use Rattle.office.specs.Settled.{StartsSettled, StaysSettled};
ghost use Rattle.office.specs.Step.{IsOneAnswer};

use crate::app_semantics::{fitting_holds, one_fresh_at};
use crate::desk_edit_laws::one_outcome as one_edit_outcome;
use app_wire::route::one_route;
use session_requests::{laws as requests, one_opening};
use session_views::{one_items_reply, one_view_reply};

/// A request has one answer where the tables are told: the state before it, its moment and its
/// bytes determine the state after it and the reply, want of memory and faults of the keeper aside.
/// An edit or a replacement determines the app up to what has no meaning, as the order in which its
/// formulas are evaluated, and a refusal up to places, circles and parts where there are several.
pub fn one_answer()
    ensures { IsOneAnswer }
{
    one_fresh_at();
    fitting_holds();
    one_opening();
    requests::one_outcome();
    one_edit_outcome();
    one_view_reply();
    one_items_reply();
    one_route();
}

/// After each reply with another status than 200, after want of memory and a fault of the keeper
/// too, the office is as it was.
pub fn refused_leaves()
    ensures { RefusedLeaves }
{}

/// A conversation of no bytes gets none, also where the doors fail in it.
pub fn silent()
    ensures { IsSilent }
{}

/// Any request but those of a session leaves its record as it was, but that it goes over to an app
/// that a desk edits, or puts in the place of the old one.
pub fn leaves_session()
    ensures { LeavesSession }
{
    requests::leaves_others();
}

/// Any request but those of a desk leaves its record as it was.
pub fn leaves_desk()
    ensures { LeavesDesk }
{}

/// What is said to a session depends on the app, on the tables, on the moment and on its own
/// record, and on no other session.
pub fn is_alone()
    ensures { IsAlone }
{
    one_fresh_at();
    fitting_holds();
    one_opening();
    requests::one_outcome();
    one_edit_outcome();
    one_view_reply();
    one_items_reply();
    one_route();
}

/// What is shown to a session depends on no other session, also where the keeper tells no more than
/// the rows that formulas read.
pub fn reads_alone()
    ensures { ReadsAlone }
{
    one_fresh_at();
    fitting_holds();
    one_view_reply();
    one_items_reply();
    one_route();
}

/// A posted request that was accepted and comes again acts no more, whatever others asked for
/// between.
pub fn acts_once()
    ensures { ActsOnce }
{
    requests::leaves_others();
    requests::acts_once();
    one_route();
}

/// The same while what is kept of the caller stands, whatever the caller itself asked for between.
pub fn acts_once_kept()
    ensures { ActsOnceKept }
{
    requests::acts_once();
    one_route();
}

/// An office that begins with an accepted app is settled.
pub fn starts_settled()
    ensures { StartsSettled }
{}

/// Any requests leave an office settled, and its app as it is beside formulas that are edited, as
/// long as none replaces it. So what laws say of settled offices holds of each that is served.
pub fn stays_settled()
    ensures { StaysSettled }
{}
