//! What keeps rows, with transactions; and the rows of tables as values, with what queries of a
//! keeper come to as such.
#![tactic(auto)]

pub mod answers;
mod constants;
mod index;
pub mod keeper;
pub mod keys;
pub mod memory;
pub mod moved;
pub mod moves;
mod pages;
mod picked_rows;
mod puts;
mod row_slots;
pub mod row_tables;
pub mod rows;
pub mod rules;
pub mod scan_values;
pub mod scans;
pub mod schemas;
mod store;
pub mod table;

pub use keeper::{Keeper, KeeperEnd};
pub use memory::MemoryKeeper;
pub use moves::TableMove;
pub use rows::{Put, Reshaped, RowRefusal, RowRule};
