//! What is said of a broken node besides its rule: the names that it has wrong, its wrong types,
//! and the limits that it passes.
#![tactic(auto)]

pub mod acted;
pub mod borrowed;
pub mod limits;
pub mod mismatches;
pub mod mistyped;
pub mod stuck;
pub mod texts;
