//! From an app file, or a text of named formulas, to its app: all that breaks a rule is told, or
//! the app is sound. From an app and an edit to the edited app likewise.
#![tactic(auto)]

pub mod admitting;
pub mod cycles;
pub mod edges;
pub mod editing;
pub mod finding;
pub mod infos;
pub mod judging;
pub mod laws;
pub mod loading;
pub mod supports;
pub mod trees;
pub mod types;
pub mod verdicts;
pub mod writing;

pub use app_cells::{App, CellInfo};
pub use app_semantics;
pub use editing::{edit, loaded_app, loaded_value, one_edit, one_edit_refusal, one_edited};
pub use finding::find;
pub use fx_core::{AppEnd, Broken};
pub use loading::{load, load_named, load_value};
pub use verdicts::{
    one_app, one_app_of_a_file, one_app_of_a_text, one_app_of_a_value, one_refusal_of_a_file,
    one_refusal_of_a_text, one_refusal_of_a_value, one_value_verdict, one_verdict,
};
