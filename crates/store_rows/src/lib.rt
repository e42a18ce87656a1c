//! What becomes of the rows of a table as a call puts or takes them, and the rules that they keep.
#![tactic(auto)]

mod changing;
mod columns;
mod puts;
mod rules;
mod tables;

pub use tables::{insert_row, remove_row, replace_row};
