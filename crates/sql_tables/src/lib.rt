//! The statements on whole tables, each a function over any store: they are made, cleared and found
//! in order, and they keep their last numbers and the schema's body.
#![tactic(auto)]

mod attaching;
mod body;
mod clearing;
mod lasts;
mod making;

pub use attaching::{make_all, seated};
pub use body::{insert_body, read_body};
pub use clearing::{clear_lines, clear_marks, clear_shape, clear_tabs};
pub use lasts::{insert_last, read_lasts, replace_last};
pub use making::{clear_tables, make_tables};
