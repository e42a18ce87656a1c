//! The grammar of formulas: what tokens mean, and which trees a list of them has.
#![tactic(auto)]

mod item;
mod itemize;
mod laws;
mod line;
mod marks;
mod text_laws;

pub use item::{Item, Meaning};
pub use itemize::items;
pub use laws::one_formula;
pub use line::{Join, Left, Line, Mark, Separator};
pub use marks::{Marks, undouble};
pub use text_laws::one_tree_of_a_text;
