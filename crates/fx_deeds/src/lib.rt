//! What the functions do that change an app's state, from the values of their parts.
//!
//! A `World` is an environment whose session and tables can be changed, one call a change.
//! `specs/Done` says what each deed does: what it finds, its answer, and what it leaves.
//!
//! `session` has the deeds on variables, collections, screens, notices and inputs, and `deeds`
//! those on rows.
#![tactic(auto)]

pub mod acts;
mod answers;
mod changes;
mod collections;
pub mod deeds;
mod filtering;
mod put_answers;
mod removing;
mod row_changes;
pub mod session;
mod table_rows;
mod tables;
mod updates;
pub mod world;

pub use acts::do_deed;
pub use deeds::{patch, remove, remove_if, update};
pub use session::{clear, clear_collect, collect, navigate, notify, reset, set, set_all};
pub use world::World;
