//! The formulas of an app, their names and cells, what they declare, and what is broken among their
//! names.
#![tactic(auto)]

pub mod breaks;
pub mod broken;
pub mod declarations;
pub mod declared_things;
mod distinct;
mod duplicates;
mod given_names;
mod lawful_names;
mod lawful_schema;
pub mod limits;
pub mod name_clashes;
mod name_sets;
pub mod naming;

pub use breaks::name_breaks;
pub use declarations::{Declared, Thing};
pub use lawful_names::is_lawful;
pub use lawful_schema::is_lawful_schema;
pub use naming::names_of;
