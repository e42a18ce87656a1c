//! What a transaction makes of the rows of tables, as lines beside those that are kept: nothing of
//! it is written yet.
#![tactic(auto)]

mod changes;
pub mod laws;
mod lines;
mod table;

pub use table::{Change, Made, TableChanges};
