//! What the four tables hold, as it is read of a connection at rest.
#![tactic(auto)]

mod asking;

pub use asking::{ask_body, ask_lasts, ask_lines, ask_marks, refusal};
