//! What functions of values and operators answer: one total function from arguments to a value.
#![tactic(auto)]

mod answers;
mod arguments;
mod dates;
mod errors;
mod laws;
mod lazy_forms;
mod numbers;
mod table;
mod texts;
mod truths;

pub use dates::today;
pub use errors::error_record;
pub use laws::{answers_fit, fitting_can_apply, one_answer, records_tell};
pub use lazy_forms::{Decision, decide, decide_match, exhausted_value, is_blank, without_error};
pub use table::apply;
