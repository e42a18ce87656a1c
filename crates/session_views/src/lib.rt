//! What a session is shown: its view, and the items of its galleries.
#![tactic(auto)]

mod displaying;
mod items;
mod laws;
mod roots;
mod showing;
mod templates;
mod view;

pub use items::{gallery_named, items_of};
pub use laws::{
    items_visits_are_one, one_items, one_items_reply, one_view, one_view_reply,
    screen_visits_are_one,
};
use recalc::app_semantics::app_cells;
use recalc::{app_semantics, fx_semantics};
pub use showing::{show_items, show_view};
pub use view::view_of;
