//! The typed tree of a node, made of its parts as they were judged: an operator, a form or a
//! function of values, or a record, a table or a deed within the limits of types.
#![tactic(auto)]

pub mod acting;
pub mod answering;
pub mod argument_scopes;
pub mod arity;
pub mod common;
pub mod first_break;
pub mod given;
pub mod limits;
pub mod lists;
pub mod node_rule;
pub mod operators;
pub mod records;

pub use acting::acts;
pub use common::join_all;
pub use node_rule::{make, make_form};
pub use operators::function_of;
