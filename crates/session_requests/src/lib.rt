//! The requests of sessions: what is shown to one, what it sends, and what the formulas of an app
//! then do.
//!
//! `specs/Performing` says what performing a behaviour formula does: `PerformsCell` takes the
//! tables and the session to others, with a value, and with the sources that were written. What
//! sources give meanwhile says `source_gives` of `specs/WorldContext`: cells have fresh values over
//! what is there at each moment, so that what a formula writes is seen by all that it reads later.
#![tactic(auto)]

mod accepted;
pub mod acting_laws;
mod checked_cells;
mod checks;
mod effects;
pub mod event;
pub mod event_laws;
pub mod input;
pub mod laws;
pub mod opening;
pub mod performing;
pub mod posting;
mod refresh_inputs;
mod running;
mod session_world;
mod shown;
mod start;
pub mod target;
pub mod transaction;
pub mod trigger;
mod visible;
mod writing;

pub use acting_laws::one_acting;
pub use event::{Event, Place};
pub use event_laws::{one_opening, one_running};
pub use input::{Given, Input};
pub use opening::open_session;
pub use performing::perform;
pub use posting::{send_event, send_input};
use recalc::app_semantics::app_cells;
use recalc::{app_semantics, fx_semantics};
pub use target::{Item, Target};
pub use transaction::{Accepted, accept_request};
pub use trigger::Trigger;
