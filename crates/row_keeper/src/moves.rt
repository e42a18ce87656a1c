//! From where tables and columns come that move to another schema.

use fx_base::InOrder;

/// From where a new table comes, and its columns.
#[derive(Drop)]
pub struct TableMove {
    /// The number of the table that it was, if any. A table that comes from none has no rows.
    pub from: Option<u16>,
    /// For each column in order, `ID` aside, the number of the column of that table that it was,
    /// from 1, if any. A column that comes from none is blank.
    pub columns: InOrder<Option<u16>>,
}
