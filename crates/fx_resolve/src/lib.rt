//! What the names of a formula mean, where they are sought, and where each part of a formula
//! stands.
#![tactic(auto)]

pub mod dots;
pub mod meanings;
pub mod named;
pub mod parts;
pub mod plans;
pub mod scoped;
pub mod scopes;
pub mod settings;
pub mod tables;
pub mod targets;

pub use dots::dot;
pub use meanings::{Meaning, Place, as_value, in_globals, meaning_of};
pub use named::Named;
pub use parts::Part;
pub use plans::{Grant, Plan, Standing, opens_rows, pick, plan_at};
pub use scopes::{Scope, Scopes};
pub use settings::{Stand, enter};
pub use targets::RowsNamed;
