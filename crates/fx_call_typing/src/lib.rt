//! Typed trees of calls, acting ones too, by the table of functions; and what the parts of a call
//! break whatever else it breaks.
#![tactic(auto)]

pub mod calls;
pub mod changing;
pub mod collections;
pub mod deeds;
pub mod filtering;
pub mod fitting;
pub mod gathering;
pub mod large;
pub mod patching;
pub mod rows;
pub mod taken;
pub mod values;
pub mod variables;

pub use calls::{call, call_by_shape, unless};
pub use changing::Changing;
pub use large::first_large_type;
pub use taken::taken_name;
