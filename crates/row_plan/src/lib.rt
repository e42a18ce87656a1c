//! The statements that write, at a transaction's end, what it has made of rows: as data, before any
//! of them runs.
#![tactic(auto)]

pub mod laws;
mod marks;
mod planning;
mod steps;

pub use planning::plan;
pub use steps::{PlanEnd, Step};
