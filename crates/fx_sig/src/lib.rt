//! The table of functions: each name with the function that it calls and how many arguments it
//! takes.
#![tactic(auto)]

pub mod table;

pub use fx_core::signatures::{SigShape, Signature};
pub use table::{all, signature};
