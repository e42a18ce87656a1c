//! What a transaction has made of rows, written to the database at its end.
#![tactic(auto)]

mod ending;
mod writing;

pub use ending::{end_all, end_counts};
pub use writing::write_changes;
