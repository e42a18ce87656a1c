//! Which formulas are admitted, as which typed trees, and where others are broken: the definition
//! twice, as a judgement and as a relation, with the laws of both, and the types that its rules
//! speak of.
#![tactic(auto)]

pub mod columns;
pub mod judgement;
pub mod relation;
pub mod typed;
pub mod ways;
pub mod wrong;

pub use judgement::{admitted_is_typed, broken_is_broken, pure_is_quiet};
pub use relation::{admitted_elaborates, broken_elaborates_nothing, elaborated_is_admitted};
pub use typed::{Piece, Typed};
pub use ways::Way;
pub use wrong::Wrong;
