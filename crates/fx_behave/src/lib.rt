//! Performs behaviour formulas over any world.
//!
//! `specs/Perform` says what a formula does: what it finds, its value, and what it leaves. Parts
//! that don't act have the values of the evaluator's definition, over what sources give in the
//! state; of a query expression that isn't taken whole they take the first rows, up to the app's
//! row limit, and so do `RemoveIf` and `UpdateIf` of their filter. `specs/Actable` says which typed
//! trees can be performed.
#![tactic(auto)]

mod acting;
pub mod laws;
mod perform;

pub use acting::act;
pub use fx_deeds::World;
pub use laws::{cuts_go_on, one_performing, performings_write};
