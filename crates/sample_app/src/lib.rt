//! A sample load: an app, the requests that it is put to, and a summary of the replies.
#![tactic(auto)]

mod app;
mod counting;
mod making;
mod telling;

pub use app::app_text;
pub use counting::count_rows;
pub use making::requests;
pub use telling::summary;
