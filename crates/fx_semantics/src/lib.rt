//! What typed trees are worth, where what acts may stand in them, and which types they name. This
//! crate has definitions and laws alone.
#![tactic(auto)]

pub mod laws;
pub mod place_laws;

pub use laws::{one_value, typings_are_lawful, values_fit};
pub use place_laws::{admitted_is_placed, all_typings_are_lawful};
