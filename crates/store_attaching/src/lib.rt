//! A database that a keeper takes over.
#![tactic(auto)]

mod attaching;

pub use attaching::take_seat;
