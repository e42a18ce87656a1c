//! App files: JSON that names the tables, screens and controls of an app, with the texts of its
//! formulas.
#![tactic(auto)]

pub mod breaks;
pub mod file;
pub mod keys;
pub mod laws;
pub mod leaves;
pub mod limits;
pub mod parts;
pub mod paths;
pub mod reading;
pub mod screens;
pub mod steps;
pub mod tables;

pub use breaks::FileBreak;
pub use file::{AppFile, ControlShape, PropertyText, ScreenShape};
pub use laws::{one_break, one_reading};
pub use limits::Limit;
pub use reading::{read, read_value};
