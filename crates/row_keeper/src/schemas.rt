// Schemas: copies, and whether two are the same.
ghost use Rattle.std.specs.Prelude.{◌≡◌, IfOk};
ghost use Rattle.fx_core.specs.Lawful.{IsColumnType};
ghost use Rattle.std.specs.List.{AllByRecursion};
ghost use Rattle.fx_core.specs.declared.schema.Column.{Column as ColumnValue};
ghost use Rattle.row_keeper.specs.Sameness.{HasColumnTypes, IsSameAnswer};

use fx_base::{InOrder, Memory};
use fx_core::{Column, ColumnList, Schema, TableList, TableShape};
use fx_types::Ty;
use std::alloc::Global;

fn copy_column(alloc: Global, column: &Column) -> Result<Column, Memory>
    ensures { IfOk result (λ c. c ≡ column.now) }
{
    Ok(Column {
        name: column.name.copy(alloc)?,
        ty: column.ty.copy(alloc)?,
        required: column.required,
        unique: column.unique,
        indexed: column.indexed,
    })
}

/// The same columns.
pub fn copy_columns(alloc: Global, columns: &ColumnList) -> Result<ColumnList, Memory>
    ensures { IfOk result (λ c. c ≡ columns.now) }
{
    let mut copy = InOrder::new(alloc);
    let items = columns.as_slice();
    for column in items {
        copy.push(copy_column(alloc, column)?)?;
    }
    Ok(copy)
}

fn copy_table(alloc: Global, table: &TableShape) -> Result<TableShape, Memory>
    ensures { IfOk result (λ t. t ≡ table.now) }
{
    Ok(TableShape {
        name: table.name.copy(alloc)?,
        columns: copy_columns(alloc, &table.columns)?,
    })
}

fn copy_tables(alloc: Global, tables: &TableList) -> Result<TableList, Memory>
    ensures { IfOk result (λ t. t ≡ tables.now) }
{
    let mut copy = InOrder::new(alloc);
    let items = tables.as_slice();
    for table in items {
        copy.push(copy_table(alloc, table)?)?;
    }
    Ok(copy)
}

/// The same schema.
pub fn copy_schema(alloc: Global, schema: &Schema) -> Result<Schema, Memory>
    ensures { IfOk result (λ s. s ≡ schema.now) }
{
    Ok(Schema {
        tables: copy_tables(alloc, &schema.tables)?,
    })
}

/// Whether two types of columns are the same.
fn is_same_type(a: &Ty, b: &Ty) -> bool
    requires a { IsColumnType a.now }
    requires b { IsColumnType b.now }
    ensures { IsSameAnswer result a.now b.now }
{
    match a {
        Ty::Number => matches!(b, Ty::Number),
        Ty::Text => matches!(b, Ty::Text),
        Ty::Boolean => matches!(b, Ty::Boolean),
        _ => matches!(b, Ty::Date),
    }
}

/// Whether two columns are the same.
fn is_same_column(a: &Column, b: &Column) -> bool
    requires a { IsColumnType a.now.ty }
    requires b { IsColumnType b.now.ty }
    ensures { IsSameAnswer result a.now b.now }
{
    if !a.name.is(&b.name) {
        return false;
    }
    if !is_same_type(&a.ty, &b.ty) {
        return false;
    }
    if a.required != b.required {
        return false;
    }
    if a.unique != b.unique {
        return false;
    }
    a.indexed == b.indexed
}

/// Whether two lists of columns are the same.
fn are_same_columns(a: &[Column], b: &[Column]) -> bool
    requires a { AllByRecursion (λ (c : ColumnValue). IsColumnType c.ty) a.now }
    requires b { AllByRecursion (λ (c : ColumnValue). IsColumnType c.ty) b.now }
    ensures { IsSameAnswer result a.now b.now }
{
    if a.len() != b.len() {
        return false;
    }
    for (place, column) in a.iter().enumerate() {
        if !is_same_column(column, &b[place]) {
            return false;
        }
    }
    true
}

/// Whether two tables are the same.
fn is_same_table(a: &TableShape, b: &TableShape) -> bool
    requires a { AllByRecursion (λ (c : ColumnValue). IsColumnType c.ty) a.now.columns }
    requires b { AllByRecursion (λ (c : ColumnValue). IsColumnType c.ty) b.now.columns }
    ensures { IsSameAnswer result a.now b.now }
{
    if !a.name.is(&b.name) {
        return false;
    }
    are_same_columns(a.columns.as_slice(), b.columns.as_slice())
}

/// Whether two lists of tables are the same.
fn are_same_tables(a: &[TableShape], b: &[TableShape]) -> bool
    requires a { AllByRecursion HasColumnTypes a.now }
    requires b { AllByRecursion HasColumnTypes b.now }
    ensures { IsSameAnswer result a.now b.now }
{
    if a.len() != b.len() {
        return false;
    }
    for (place, table) in a.iter().enumerate() {
        if !is_same_table(table, &b[place]) {
            return false;
        }
    }
    true
}

/// Whether two schemas are the same.
pub fn is_same_schema(a: &Schema, b: &Schema) -> bool
    requires a { AllByRecursion HasColumnTypes a.now.tables }
    requires b { AllByRecursion HasColumnTypes b.now.tables }
    ensures { IsSameAnswer result a.now b.now }
{
    are_same_tables(a.tables.as_slice(), b.tables.as_slice())
}
