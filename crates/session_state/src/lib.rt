//! What is kept of those who send requests: sessions, and desks.
#![tactic(auto)]

mod caller;
mod carrying;
mod carrying_over;
pub mod change;
pub mod desk;
pub mod laws;
mod lists;
pub mod session;
pub mod turn;
mod weight;

pub use carrying::{collection_was, variable_was};
pub use carrying_over::control_was;
pub use change::Change;
pub use desk::Desk;
pub use session::Session;
pub use turn::Turn;
