//! What the formulas of an app are worth. This crate has definitions and laws alone.
#![tactic(auto)]

pub mod laws;

pub use app_cells;
pub use laws::{fitting_holds, fresh_fits, one_fresh, one_fresh_at};
