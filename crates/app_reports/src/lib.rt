//! What is told of the formulas of an app: what they read, as JSON, and where they take rows of
//! tables, as JSON and as lines.
#![tactic(auto)]

mod graph;
mod lines;
mod names;
mod plan;
mod tables;

pub use graph::graph_json;
pub use lines::checked_lines;
pub use plan::plan_json;
