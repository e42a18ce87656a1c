// The cells of rows, with what is given for them.
ghost use Rattle.std.specs.Prelude.{◌≡◌, IfOk, length, map, unwrap_or};
ghost use Rattle.fx_types.specs.ValueView.{view};
ghost use Rattle.row_requests.specs.Changes.{blanks as blanks_of, cells_with as cells_with_given};
ghost use Rattle.row_requests.specs.Changes.{given_at};

use crate::bodies::Given;
use fx_base::Memory;
use fx_core::Column;
use fx_types::Value;
use row_queries::Cells;
use std::alloc::Global;

/// What is given for a column, or else what was there.
fn cell_with(alloc: Global, given: &Given, column: &Column, cell: &Value) -> Result<Value, Memory>
    ensures { IfOk result (λ v. view v ≡ unwrap_or (given_at column.now.name given.now)
        (view cell.now)) }
{
    match given.value(&column.name) {
        Some(value) => value.copy(alloc),
        None => cell.copy(alloc),
    }
}

/// A row's cells, with what is given for them.
pub(crate) fn cells_with(
    alloc: Global,
    given: &Given,
    columns: &[Column],
    cells: &[Value],
) -> Result<Cells, Memory>
    requires { length cells.now ≡ length columns.now }
    ensures { IfOk result (λ c. c ≡ cells_with_given given.now columns.now (map view cells.now)) }
{
    let mut all = Cells::new(alloc);
    for (place, column) in columns.iter().enumerate() {
        all.push(cell_with(alloc, given, column, &cells[place])?)?;
    }
    Ok(all)
}

/// A new row's cells: what isn't given is blank.
pub(crate) fn new_cells(alloc: Global, given: &Given, columns: &[Column]) -> Result<Cells, Memory>
    ensures { IfOk result (λ c. c ≡ cells_with_given given.now columns.now (blanks_of columns.now)) }
{
    let mut blanks = Vec::new(alloc);
    for _ in columns {
        blanks.push(Value::Blank)?;
    }
    cells_with(alloc, given, columns, &blanks)
}
