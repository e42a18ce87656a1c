// The bodies of schemas.
ghost use Rattle.std.specs.Prelude.{◌≡◌, ◌++◌, IfOk, IfSome, OnOk, encode_utf8_all, flat_map};
ghost use Rattle.std.specs.List.{AllByRecursion};
ghost use Rattle.row_lines.specs.Bodies.{column_bytes, length_prefixed, schema_bytes, table_bytes};
ghost use Rattle.row_lines.specs.Bodies.{truth_byte, type_byte};
ghost use Rattle.row_lines.specs.FromBytes.{schema_in, type_in};
ghost use Rattle.row_lines.specs.Laws.{HasShortName, HasTypeByte, HasTypeBytes, HaveTypeBytes};
ghost use Rattle.row_lines.specs.Laws.{IsShortName, IsShortTable};

use crate::pieces::{push_piece, split_piece};
use fx_base::{InOrder, Memory};
use fx_core::{Column, ColumnList, Schema, TableList, TableShape};
use fx_types::{Ty, Words};
use std::alloc::Global;

fn type_byte(ty: &Ty) -> u8
    ensures { result ≡ type_byte ty.now }
{
    match ty {
        Ty::Number => 0,
        Ty::Text => 1,
        Ty::Boolean => 2,
        Ty::Date => 3,
        _ => 4,
    }
}

/// Adds a name as a piece.
fn push_name(body: &mut Vec<u8>, name: &Words) -> Result<(), Memory>
    ensures ok { OnOk result (body.new.items ≡ body.old.items
        ++ length_prefixed (encode_utf8_all name.now)) }
    ensures short { OnOk result (IsShortName name.now) }
{
    push_piece(body, name.as_str().as_bytes())
}

/// Adds a column.
fn push_column(body: &mut Vec<u8>, column: &Column) -> Result<(), Memory>
    ensures ok { OnOk result (body.new.items ≡ body.old.items ++ column_bytes column.now) }
    ensures short { OnOk result (HasShortName column.now) }
{
    push_name(body, &column.name)?;
    body.extend_from_slice(&[
        type_byte(&column.ty),
        u8::from(column.required),
        u8::from(column.unique),
        u8::from(column.indexed),
    ])?;
    Ok(())
}

/// The bytes of a table.
fn table_bytes(alloc: Global, table: &TableShape) -> Result<Vec<u8>, Memory>
    ensures ok { IfOk result (λ bytes. bytes.items ≡ table_bytes table.now) }
    ensures name { OnOk result (IsShortName table.now.name) }
    ensures columns { OnOk result (AllByRecursion HasShortName table.now.columns) }
{
    let mut bytes = Vec::new(alloc);
    push_name(&mut bytes, &table.name)?;
    push_columns(&mut bytes, table.columns.as_slice())?;
    Ok(bytes)
}

/// Adds columns.
fn push_columns(body: &mut Vec<u8>, columns: &[Column]) -> Result<(), Memory>
    ensures ok { OnOk result (body.new.items ≡ body.old.items ++ flat_map column_bytes columns.now) }
    ensures short { OnOk result (AllByRecursion HasShortName columns.now) }
{
    for column in columns {
        push_column(body, column)?;
    }
    Ok(())
}

/// Adds a table as a piece.
fn push_table(alloc: Global, body: &mut Vec<u8>, table: &TableShape) -> Result<(), Memory>
    ensures ok { OnOk result (body.new.items ≡ body.old.items
        ++ length_prefixed (table_bytes table.now)) }
    ensures short { OnOk result (IsShortTable table.now) }
{
    let bytes = table_bytes(alloc, table)?;
    push_piece(body, &bytes)
}

/// The body of a schema, of which it can be read again where a byte stands for the type of each
/// column.
pub fn body_of(alloc: Global, schema: &Schema) -> Result<Vec<u8>, Memory>
    ensures body { IfOk result (λ body. body.items ≡ schema_bytes schema.now) }
    ensures told { IfOk result (λ body. HaveTypeBytes schema.now
        → schema_in body.items ≡ schema.now) }
{
    let mut body = Vec::new(alloc);
    let tables = schema.tables.as_slice();
    for table in tables {
        push_table(alloc, &mut body, table)?;
    }
    Ok(body)
}

fn type_of(byte: u8) -> Ty
    ensures { type_in (type_byte result) ≡ result }
{
    match byte {
        0 => Ty::Number,
        1 => Ty::Text,
        2 => Ty::Boolean,
        3 => Ty::Date,
        _ => Ty::Blank,
    }
}

/// The name of these bytes.
fn name_of(alloc: Global, bytes: &[u8]) -> Result<Option<Words>, Memory> {
    match std::str::from_utf8(bytes) {
        Ok(name) => Ok(Some(Words::of(alloc, name)?)),
        Err(_) => Ok(None),
    }
}

/// A column out of the bytes that begin with it, with those behind it.
fn split_column(alloc: Global, bytes: &[u8]) -> Result<Option<(Column, &[u8])>, Memory>
    ensures { IfOk result (λ o. IfSome o (λ it. HasTypeByte it.0)) }
{
    let Some((name, rest)) = split_piece(bytes) else {
        return Ok(None);
    };
    let [ty, required, unique, indexed, behind @ ..] = rest else {
        return Ok(None);
    };
    let Some(name) = name_of(alloc, name)? else {
        return Ok(None);
    };
    let column = Column {
        name,
        ty: type_of(*ty),
        required: *required == 1,
        unique: *unique == 1,
        indexed: *indexed == 1,
    };
    Ok(Some((column, behind)))
}

/// The columns of these bytes.
fn columns_of(alloc: Global, bytes: &[u8]) -> Result<Option<ColumnList>, Memory>
    ensures { IfOk result (λ o. IfSome o (λ columns. AllByRecursion HasTypeByte columns)) }
{
    let mut columns = InOrder::new(alloc);
    let mut rest = bytes;
    // Each column takes some bytes, so there are no more columns than bytes.
    for _ in 0..bytes.len() {
        if rest.is_empty() {
            return Ok(Some(columns));
        }
        let Some((column, behind)) = split_column(alloc, rest)? else {
            return Ok(None);
        };
        columns.push(column)?;
        rest = behind;
    }
    Ok(Some(columns))
}

/// The table of these bytes.
fn table_of(alloc: Global, bytes: &[u8]) -> Result<Option<TableShape>, Memory>
    ensures { IfOk result (λ o. IfSome o (λ table. HasTypeBytes table)) }
{
    let Some((name, rest)) = split_piece(bytes) else {
        return Ok(None);
    };
    let Some(name) = name_of(alloc, name)? else {
        return Ok(None);
    };
    let Some(columns) = columns_of(alloc, rest)? else {
        return Ok(None);
    };
    Ok(Some(TableShape { name, columns }))
}

/// The tables of these bytes.
fn tables_of(alloc: Global, bytes: &[u8]) -> Result<Option<TableList>, Memory>
    ensures { IfOk result (λ o. IfSome o (λ tables. AllByRecursion HasTypeBytes tables)) }
{
    let mut tables = InOrder::new(alloc);
    let mut rest = bytes;
    for _ in 0..bytes.len() {
        let Some((table, behind)) = split_piece(rest) else {
            return Ok(Some(tables));
        };
        let Some(table) = table_of(alloc, table)? else {
            return Ok(None);
        };
        tables.push(table)?;
        rest = behind;
    }
    Ok(Some(tables))
}

/// The schema of a body, if it is one of a schema.
pub fn schema_of(alloc: Global, body: &[u8]) -> Result<Option<Schema>, Memory>
    ensures body { IfOk result (λ o. IfSome o (λ schema. schema_bytes schema ≡ body.now)) }
    ensures told { IfOk result (λ o. IfSome o (λ schema. schema ≡ schema_in body.now)) }
{
    let Some(tables) = tables_of(alloc, body)? else {
        return Ok(None);
    };
    let schema = Schema { tables };
    // A body stands for a schema where it is that schema's own, byte by byte.
    let own = body_of(alloc, &schema)?;
    if own.as_slice() != body {
        return Ok(None);
    }
    Ok(Some(schema))
}
