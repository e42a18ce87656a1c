//! The formulas of an app: where each is written, and what it is in an accepted app.
#![tactic(auto)]

pub mod app;
pub mod cell;
pub mod frame;
pub mod spots;

pub use app::{App, CellInfo, SiteList};
pub use cell::{Cell, Spot};
pub use frame::Frame;
pub use spots::{address_at, cell_at};
