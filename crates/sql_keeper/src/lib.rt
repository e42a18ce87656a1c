//! Rows in a SQLite database, in memory or in a file.
#![tactic(auto)]

mod arranging;
mod changes;
mod changing;
mod database;
pub mod keeper;
mod moving;
mod ranges;
mod reading;
mod rules;
mod shaping;
mod statements;
mod tallies;
mod writing;

pub use keeper::SqlKeeper;
