//! The statements on lines and marks, each a function over any store, with what it does to the
//! lists that are kept, and what a refusal is told as.
#![tactic(auto)]

mod answers;
mod endings;
mod lines;
mod marks;

pub use answers::{bytes_in, number_in};
pub use endings::{Ending, end_after, is_usable};
pub use lines::{insert_line, read_lines, remove_line, replace_line};
pub use marks::{insert_mark, read_marks, remove_mark};
