//! Evaluates typed trees over any environment.
#![tactic(auto)]

pub mod answers;
pub mod calls;
mod columns;
mod conditions;
mod courses;
pub mod demands;
pub mod evaluate;
pub mod laws;
pub mod lists;
pub mod queries;
pub mod scope;

pub use answers::{Answers, is_formula};
pub use calls::over;
pub use evaluate::eval;
pub use fx_env::{Env, Steps, Stop, rows_of};
pub use fx_plan;
pub use laws::{
    made_is_worth, queries_are_values, settled_are_values, typed_can_make, visits_are_one,
};
pub use lists::list;
pub use scope::Scope;
