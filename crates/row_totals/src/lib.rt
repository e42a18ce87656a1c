//! A keeper with totals that are kept beside its rows, so that a count or a total of a whole table
//! visits no row.
#![tactic(auto)]

mod carrying;
pub mod tallied;

pub use tallied::Tallied;
