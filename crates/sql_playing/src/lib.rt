//! What a transaction has made of rows, written in one transaction of the database: all of it or
//! nothing, over a crash too.
#![tactic(auto)]

mod playing;

pub use playing::{commit_steps, settle};
