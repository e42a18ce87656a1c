//! What functions do with tables, and with the rows that their formulas are evaluated on.
#![tactic(auto)]

pub mod aggregates;
pub mod column_calls;
pub mod columns;
pub mod conditions;
pub mod counts;
pub mod ends;
mod errors;
pub mod first_values;
pub mod formulas;
pub mod laws;
pub mod ordering;
pub mod row_calls;
pub mod rows;
pub mod sums;
pub mod texts;
pub mod unions;

pub use columns::{add_column, drop_column, rename_column, show_columns};
pub use first_values::distinct;
pub use ordering::{order_by, ordered_once};
pub use rows::{first_n, last_n};
pub use sums::totals;
pub use unions::union;
