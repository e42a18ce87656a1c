//! The bytes of rows and schemas in a database, and what they are read as.
#![tactic(auto)]

pub mod laws;
pub mod lines;
pub mod pieces;
pub mod schemas;
mod values;
