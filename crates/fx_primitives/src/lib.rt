//! What functions do with texts, dates and numbers.
#![tactic(auto)]

mod characters;
mod date_parts;
mod folding;
mod folds;
mod formats;
mod laws;
mod making;
mod months;
mod numbers;
mod operators;
mod search;
mod spacing;
mod substitution;
mod text_parts;
mod texts;
mod units;

pub use date_parts::{date, day_of_month, month, parts_give_the_day, today, weekday, year};
pub use folding::{contains, ends_with, starts_with};
pub use folds::{average, max, min, quotient, sum};
pub use formats::format;
pub use fx_base::Memory;
pub use fx_types::{Day, Kind};
pub use laws::one_list_of_occurrences;
pub use making::{concatenate, lower, upper};
pub use numbers::{abs, int, modulo, power, round, trunc, whole_part, with_kind};
pub use operators::{add_days, days_between, sub_days};
pub use search::{contains_exactly, find};
pub use spacing::trim;
pub use substitution::substitute;
pub use text_parts::{left, length, mid, replace, right};
pub use texts::{date_value, format_day};
pub use units::{date_add, date_diff};
