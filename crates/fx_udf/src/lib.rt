//! Functions of an app's own: which of them call which, and the order in which each stands behind
//! all that it calls; and which trees those with calls become where each call is replaced by its
//! function's body.
#![tactic(auto)]

mod calls;
mod end;
mod laws;

pub use calls::check;
pub use end::ExpandEnd;
pub use laws::{all_have_expansions, expansions_are_one};
