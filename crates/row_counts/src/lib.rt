//! What is counted of the rows that a keeper has, and the queries that read them.
#![tactic(auto)]

pub mod filling;
pub mod finding;
pub mod queries;

pub use filling::fill;
pub use finding::row_numbers;
pub use queries::asks_all;
