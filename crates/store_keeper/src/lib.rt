//! A keeper of rows over a connection of SQLite, which tells its tables.
#![tactic(auto)]

mod acting;
mod keeper;
mod seats;

pub use keeper::StoreKeeper;
