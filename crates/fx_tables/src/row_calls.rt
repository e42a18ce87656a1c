//! The calls of functions that take formulas of rows, by the names of the functions.

pub use crate::aggregates::{average, max, min, sum};
pub use crate::column_calls::{
    NewColumn, Renaming, add_columns, drop_columns, rename_columns, show_columns,
};
pub use crate::conditions::{filter, look_up, verdict};
pub use crate::counts::count_if;
pub use crate::ends::{count_rows, first, first_n, is_empty, last, last_n};
pub use crate::formulas::{distinct_values, for_all, sort};
pub use crate::laws::{count_if_once, count_once, greatest_once, least_once, sort_once, sum_once};
pub use crate::texts::concat;
