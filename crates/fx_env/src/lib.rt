//! What formulas are evaluated in: environments, steps, and the rows of tables.
#![tactic(auto)]

pub mod environment;
pub mod rows;
pub mod steps;

pub use environment::{Env, Stop};
pub use rows::rows_of;
pub use steps::Steps;
