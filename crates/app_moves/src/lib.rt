//! Moves of tables and columns to other names, as an app is replaced: from where each new table and
//! column comes, which rule of moves breaks first, and what a keeper is asked for.
#![tactic(auto)]

mod broken;
mod columns;
pub mod moves;
mod moving;
mod places;
mod refusals;
mod tables;

pub use moves::Move;
pub use moving::{move_tables, moved_tables_fit};
pub use places::table_moves;
pub use refusals::{moves_refusal, rows_refusal};
