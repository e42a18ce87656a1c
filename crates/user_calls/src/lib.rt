//! What calls of an app's own functions are worth, and the law that a tree in which they are
//! replaced by the functions' bodies is worth the same. This crate has definitions and a law alone.
#![tactic(auto)]

mod laws;

pub use laws::calls_are_worth_their_bodies;
