//! Queries over the rows of tables: what they ask, and which rows they give.
#![tactic(auto)]

pub mod laws;
pub mod outcomes;
pub mod queries;
pub mod ranges;
pub mod row_tests;
pub mod rows;

pub use laws::{asked_once, rows_fit};
pub use outcomes::{fault_of, meets};
pub use queries::Query;
pub use ranges::{Key, KeyRange, RangeList};
pub use row_tests::{Held, Test, TestNode, Tests};
pub use rows::{Cells, Row, RowList};
