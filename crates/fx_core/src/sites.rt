//! Where a formula takes rows of tables.

use fx_types::Words;

/// A largest query expression of a formula.
#[derive(Drop)]
pub struct Site {
    /// Its number, from 1, in the order in which they begin.
    pub number: u32,
    pub table: u16,
    /// The function of the nearest call around it, and `cell` where there is none.
    pub by: Words,
    /// Whether that takes the whole of it; else the first rows up to the app's row limit.
    pub delegated: bool,
}
