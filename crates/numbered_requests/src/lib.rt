//! What every numbered request goes through before it acts: its JSON, its shape, its caller and its
//! number. Beside it stand what such requests share: things by their names, and replies.
#![tactic(auto)]

pub mod body;
pub mod checks;
pub mod directory;
pub mod edit;
pub mod reply;
pub mod values;

pub use body::{Body, json_of};
pub use checks::{Checked, MOST_DESKS, check_desk, check_desk_json, check_session};
pub use directory::{Named, is_among, place_of, put};
pub use edit::Edit;
pub use reply::Reply;
