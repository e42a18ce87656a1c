//! The exact texts of values, named values and refusals.
#![tactic(auto)]

pub mod json;
pub mod plain_form;
mod refusals;
pub mod refused;
pub mod replies;
mod status;
pub mod views;

pub use fx_types::date_text;
pub use json::value_json;
pub use plain_form::plain;
pub use refusals::Cause;
pub use refused::{Detail, Lines, Refusal, refusal_json};
pub use replies::{Named, named_json, ok_json};
pub use status::reason;
pub use views::{
    ItemControl, ItemControlList, ItemList, ItemView, Items, Shown, ShownList, View, event_json,
    items_json, view_json,
};
