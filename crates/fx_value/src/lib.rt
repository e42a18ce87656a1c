//! What is decided on values: which types they fit, how types join, what values weigh, how they
//! compare and are coerced, and their keys in an index.
#![tactic(auto)]

pub mod coercion;
pub mod equality;
pub mod fitting;
pub mod joining;
pub mod keys;
pub mod operators;
pub mod ordering;
pub mod weighing;
pub mod widening;

pub use coercion::coerce;
pub use equality::same;
pub use fitting::fits;
pub use fx_base::Memory;
pub use fx_types::{
    Cmp, Columns, Control, Day, Fault, Fields, Kind, Rows, Totals, Ty, Value, Words,
};
pub use joining::join;
pub use keys::{key_of, keys_order, value_is_proper};
pub use operators::holds;
pub use ordering::{compare, compare_is_total};
pub use weighing::weigh;
