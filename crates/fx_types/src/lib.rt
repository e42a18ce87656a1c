//! The values of formulas and their types, and the calendar.
#![tactic(auto)]

pub mod aggregates;
mod civil;
pub mod comparisons;
pub mod controls;
mod date_texts;
pub mod days;
pub mod faults;
pub mod formats;
pub mod types;
pub mod values;
mod word_order;
pub mod words;

pub use aggregates::Totals;
pub use civil::{CivilDate, civil_date, day_of_date, day_of_plain, is_date, plain_date};
pub use comparisons::Cmp;
pub use controls::Control;
pub use date_texts::date_text;
pub use days::Day;
pub use faults::{Fault, Kind};
pub use formats::{DateFormat, NumberFormat, TimeUnit};
pub use types::{Columns, Ty};
pub use values::{Fields, Rows, Value};
pub use words::Words;
