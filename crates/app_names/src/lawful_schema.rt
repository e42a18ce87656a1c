//! Whether a schema is lawful.
ghost use Rattle.std.specs.Prelude.{◌≡◌, IsTrue, ◌↔◌};
ghost use Rattle.std.specs.List.{list_all};
ghost use Rattle.app_names.specs.Decided as decided;
ghost use Rattle.fx_core.specs.Lawful.{IsLawfulSchema};
ghost use Rattle.fx_core.specs.declared.schema.Column.{Column};

use crate::distinct::{are_distinct_columns, are_distinct_tables, is_without_id};
use fx_core::schema::{Column, Schema, TableShape};
use fx_types::types::Ty;

/// Whether a column may have this type.
pub fn is_column_type(ty: &Ty) -> bool
    ensures { result ≡ decided.is_column_type ty.now }
{
    matches!(ty, Ty::Number | Ty::Text | Ty::Boolean | Ty::Date)
}

// Whether columns have types that columns may have.
fn have_column_types(columns: &[Column]) -> bool
    ensures { result ≡ list_all (λ (c : Column). decided.is_column_type c.ty) columns.now }
{
    columns.iter().all(|column| is_column_type(&column.ty))
}

// Whether a table has at most 63 columns of such types, and no name twice, `ID` among them.
fn is_lawful_table(table: &TableShape) -> bool
    ensures { result ≡ decided.is_lawful_table table.now }
{
    let columns = table.columns.as_slice();
    // With `ID` there are at most 64.
    columns.len() < 64
        && have_column_types(columns)
        && is_without_id(columns)
        && are_distinct_columns(columns)
}

// Whether all tables are lawful.
fn are_lawful_tables(tables: &[TableShape]) -> bool
    ensures { result ≡ list_all decided.is_lawful_table tables.now }
{
    tables.iter().all(|table| is_lawful_table(table))
}

// Whether a schema is lawful. What is decided is proved here, and what it means in
// `is_lawful_schema`.
pub fn is_schema(schema: &Schema) -> bool
    ensures { result ≡ decided.is_lawful_schema schema.now }
{
    let tables = schema.tables.as_slice();
    tables.len() < 33 && are_distinct_tables(tables) && are_lawful_tables(tables)
}

/// Whether a schema is lawful: at most 32 tables of at most 63 columns, and no name twice.
pub fn is_lawful_schema(schema: &Schema) -> bool
    ensures { IsTrue result ↔ IsLawfulSchema schema.now }
{
    is_schema(schema)
}
