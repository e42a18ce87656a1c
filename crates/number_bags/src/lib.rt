//! Bags of numbers with their totals, as a transaction began and now. Neither end of a transaction
//! takes memory.
#![tactic(auto)]

mod bag_calls;
pub mod bags;
mod changes;
mod counts;
mod extremes;
pub mod number;
mod sums;

pub use bags::NumberBag;
pub use number::Number;
