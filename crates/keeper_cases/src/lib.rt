//! Cases of keepers: calls as lines say them, over a table of names and quantities, made over any
//! keeper, and what it answers written for a reader.
#![tactic(auto)]

mod calls;
mod cases;
mod said;
mod stage;
mod stock;

pub use calls::{Call, numbers};
pub use cases::Case;
pub use said::Said;
