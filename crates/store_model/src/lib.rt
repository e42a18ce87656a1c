//! What a keeper of rows over a connection of SQLite is seen as, and what it tells.
#![tactic(auto)]

mod counts;
pub mod laws;

pub use counts::RowCount;
