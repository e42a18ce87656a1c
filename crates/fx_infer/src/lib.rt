//! Which formulas are admitted, as which typed trees, where and why others are broken, and the
//! rounds of types.
#![tactic(auto)]

pub mod admitting;
pub mod assigning;
pub mod assignments;
pub mod depths;
pub mod details;
pub mod elaboration;
pub mod ends;
pub mod flaw;
pub mod giving;
pub mod joining;
pub mod judging;
pub mod next_round;
pub mod node_parts;
pub mod round_types;
pub mod rounds;
pub mod too_deep;
pub mod typed_names;

pub use depths::no_deeper;
pub use details::{detail_of, wanted_detail};
pub use elaboration::{Place, Written, elaborate, elaborate_alone};
pub use ends::InferEnd;
pub use flaw::{Flaw, Halt};
pub use fx_core::{Broken, Names};
pub use fx_diagnostics::texts;
pub use fx_typing::Typed;
pub use rounds::type_rounds;
pub use too_deep::is_too_deep;
