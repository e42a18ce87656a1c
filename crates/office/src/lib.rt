//! The office: an app, its live sessions and desks, the keeper of its rows, and the conversations
//! that it answers.
#![tactic(auto)]

mod accepting;
mod carrying;
pub mod converse;
pub mod desk_edit_laws;
mod keeping;
pub mod laws;
pub mod machine;
pub mod named;
pub mod parts;
mod plans;
pub mod posting;
mod replacing;
mod sending;
pub mod sessions;

pub use app_cells::App;
use app_loader::app_semantics;
pub use app_loader::{load, load_named, loaded_app, one_app, one_verdict};
pub use converse::{ConvEnd, MOST_REQUESTS};
pub use machine::Office;
pub use named::named_list;
pub use numbered_requests::Reply;
pub use recalc::Steps;
pub use sessions::MOST_SESSIONS;
