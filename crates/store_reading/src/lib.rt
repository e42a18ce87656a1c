//! The rows of a table, as a transaction has made them over those that are kept.
#![tactic(auto)]

mod arranging;
mod bodies;
mod decoding;
mod ranges;
mod reading;

pub use arranging::ask;
pub use bodies::body_now;
pub use reading::all_rows;
