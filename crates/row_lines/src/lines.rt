// The lines of rows.
ghost use Rattle.std.specs.Prelude.{◌≡◌, ◌++◌, ◌≤◌, IfOk, IfSome, OnOk, map};
ghost use Rattle.std.specs.List.{AllByRecursion};
ghost use Rattle.fx_types.specs.ValueView.{view};
ghost use Rattle.fx_types.specs.Values.{Data};
ghost use Rattle.fx_value.specs.Keys.{key_bytes};
ghost use Rattle.fx_value.specs.Order.{IsScalar};
ghost use Rattle.row_queries.specs.TableRows.{AreCellsOf, IsHeldRow};
ghost use Rattle.row_lines.specs.Bodies.{line_bytes, length_prefixed};
ghost use Rattle.row_lines.specs.FromBytes.{cells_in};
ghost use Rattle.row_lines.specs.Laws.{HasShortKey};

use crate::pieces::{push_piece, split_piece};
use crate::values::value_of;
use fx_base::Memory;
use fx_core::{Column, TableShape};
use fx_types::Value;
use fx_value::key_of;
use row_keeper::keys::cells_are_proper;
use row_queries::{Cells, Row};
use std::alloc::Global;

/// Adds the key of a cell as a piece.
fn push_cell(alloc: Global, body: &mut Vec<u8>, cell: &Value) -> Result<(), Memory>
    requires { IsScalar (view cell.now) }
    ensures ok { OnOk result (body.new.items ≡ body.old.items
        ++ length_prefixed (key_bytes (view cell.now))) }
    ensures short { OnOk result (HasShortKey (view cell.now)) }
{
    let key = key_of(alloc, cell)?;
    push_piece(body, &key)
}

/// The body of the line of a row with these cells, of which they can be read again.
pub fn line_of(alloc: Global, columns: &[Column], cells: &Cells) -> Result<Vec<u8>, Memory>
    requires { AreCellsOf columns.now cells.now }
    ensures body { IfOk result (λ body. body.items ≡ line_bytes cells.now) }
    ensures told { IfOk result (λ body. cells_in columns.now body.items ≡ cells.now) }
{
    cells_are_proper(cells);
    let mut body = Vec::new(alloc);
    let items = cells.as_slice();
    for cell in items {
        push_cell(alloc, &mut body, cell)?;
    }
    Ok(body)
}

/// The cells of the row of a line, if it may be one of these columns.
fn cells_of(alloc: Global, columns: &[Column], body: &[u8]) -> Result<Option<Cells>, Memory>
    ensures { IfOk result (λ o. IfSome o (λ cells. AreCellsOf columns.now cells)) }
{
    let mut cells = Cells::new(alloc);
    let mut rest = body;
    for column in columns {
        let Some((key, behind)) = split_piece(rest) else {
            return Ok(None);
        };
        let Some(value) = value_of(alloc, &column.ty, key)? else {
            return Ok(None);
        };
        cells.push(value)?;
        rest = behind;
    }
    Ok(Some(cells))
}

/// The row of a line, if it is one of the table.
pub fn row_of(
    alloc: Global,
    table: &TableShape,
    id: u32,
    body: &[u8],
) -> Result<Option<Row>, Memory>
    ensures held { IfOk result (λ o. IfSome o (λ row. IsHeldRow table.now row)) }
    ensures id { IfOk result (λ o. IfSome o (λ row. row.id ≡ id)) }
    ensures line { IfOk result (λ o. IfSome o (λ row. line_bytes row.cells ≡ body.now)) }
    ensures told { IfOk result (λ o. IfSome o
        (λ row. row.cells ≡ cells_in table.now.columns body.now)) }
{
    if id == 0 {
        return Ok(None);
    }
    let columns = table.columns.as_slice();
    let Some(cells) = cells_of(alloc, columns, body)? else {
        return Ok(None);
    };
    // A line stands for a row where it is that row's own, byte by byte.
    let line = line_of(alloc, columns, &cells)?;
    if line.as_slice() != body {
        return Ok(None);
    }
    cells_are_proper(&cells);
    Ok(Some(Row { id, cells }))
}
