//! Moves, as they are asked for.

use fx_types::Words;

/// A table, or a column of one, gets another name.
#[derive(Drop)]
pub struct Move {
    /// The name of a table of the old app.
    pub table: Words,
    /// The name of a column of that table, and None where the table itself moves.
    pub column: Option<Words>,
    /// The name of a table of the new app; or that of a column of the table that the old one
    /// becomes.
    pub to: Words,
}
