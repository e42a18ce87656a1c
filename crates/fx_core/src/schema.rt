//! The tables of an app.

use fx_base::InOrder;
use fx_types::types::Ty;
use fx_types::words::Words;

/// A column of a table, other than `ID`.
#[derive(Drop)]
pub struct Column {
    pub name: Words,
    /// A number, text, Boolean or date.
    pub ty: Ty,
    pub required: bool,
    pub unique: bool,
    pub indexed: bool,
}

/// The columns of a table in app order, `ID` aside.
pub type ColumnList = InOrder<Column>;

/// A table.
#[derive(Drop)]
pub struct TableShape {
    pub name: Words,
    pub columns: ColumnList,
}

/// Tables in app order.
pub type TableList = InOrder<TableShape>;

/// The tables of an app.
#[derive(Drop)]
pub struct Schema {
    pub tables: TableList,
}
