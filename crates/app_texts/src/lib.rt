//! From an app file, or a text of named formulas, to its formulas with their trees, or to the texts
//! that are none; the places of an app where formulas may stand; and the formulas of an app in
//! which one is replaced.
#![tactic(auto)]

pub mod copies;
pub mod edits;
pub mod file_texts;
pub mod frames;
pub mod laws;
pub mod numbers;
pub mod places;
pub mod reading;
pub mod unread;

pub use copies::frame_of;
pub use edits::edit_cells;
pub use laws::read_is_sound;
pub use places::{spot_at, spots_of};
pub use reading::{read_named, read_text, read_texts};
