//! From texts to trees, by descent, and which texts have none; and from trees to texts that are
//! read back.
#![tactic(auto)]

mod depth_scan;
mod descent;
mod descent_end;
mod details;
mod end;
mod entries;
mod formula;
mod front;
mod machine;
mod names;
mod operator_tails;
mod parse;
mod precedence;
pub mod reading_back;
mod recognize;
mod refusal;
mod state;
mod write;
mod writer;

pub use details::{bad_token, syntax_detail};
pub use end::ParseEnd;
pub use entries::Named;
pub use parse::{parse_formula, parse_named};
pub use reading_back::{ReadBackEnd, read_back};
pub use write::print;
