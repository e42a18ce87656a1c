//! Lines put into a table: each changes the row of its key, or adds one.
#![tactic(auto)]

mod cells;
mod finding;
mod imports;
mod laws;
mod lines;

pub use imports::{BrokenLine, Counts, import_lines};
pub use laws::repeats_import;
pub use lines::Heading;
