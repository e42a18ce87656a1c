//! The rows of a table as a value.
ghost use Rattle.std.specs.Prelude.{◌≡◌, [], ◌∷◌, length, map, slice_get, unwrap_or, IfOk};
ghost use Rattle.std.specs.List.{AllByRecursion};
ghost use Rattle.fx_types.specs.ValueView.{view};
ghost use Rattle.fx_types.specs.Values.{blank};
ghost use Rattle.fx_core.specs.Lawful.{IsLawfulTable, id_name};
ghost use Rattle.row_queries.specs.TableRows.{IsRowOf, id_value, rows_table};

use crate::scans::number_of;
use fx_base::Memory;
use fx_core::TableShape;
use fx_tables::add_column;
use fx_types::{Fields, Rows, Value, Words};
use row_queries::Row;
use std::alloc::Global;

/// Rows as a table: each is a record of its number under `ID`, and of its cells under the names of
/// their columns.
pub fn table(alloc: Global, shape: &TableShape, rows: &[Row]) -> Result<Value, Memory>
    requires lawful { IsLawfulTable shape.now }
    requires fit { AllByRecursion (IsRowOf shape.now) rows.now }
    ensures { IfOk result (λ v. view v ≡ rows_table shape.now rows.now) }
{
    let columns = shape.columns.as_slice();
    let mut records = number_rows(alloc, rows)?;
    for (place, column) in columns.iter().enumerate() {
        let cells = cells_at(alloc, rows, place)?;
        records = add_column(alloc, records, column.name.as_str(), cells)?;
    }
    Ok(Value::Tab(records))
}

// A record of its number alone for each row.
fn number_rows(alloc: Global, rows: &[Row]) -> Result<Rows, Memory>
    ensures { IfOk result (λ records. records ≡ map (λ r. (id_name, id_value r.id) ∷ []) rows.now) }
{
    let mut records = Vec::with_capacity(alloc, rows.len())?;
    for row in rows {
        records.push(number_record(alloc, row.id)?)?;
    }
    Ok(Rows::from_items(records))
}

fn number_record(alloc: Global, id: u32) -> Result<Fields, Memory>
    ensures { IfOk result (λ f. f ≡ (id_name, id_value id) ∷ []) }
{
    let mut fields = Fields::new(alloc);
    fields.push((id_column(alloc)?, number_of(id)))?;
    Ok(fields)
}

// The name of the column that numbers rows.
fn id_column(alloc: Global) -> Result<Words, Memory>
    ensures { IfOk result (λ w. w ≡ id_name) }
{
    Ok(Words::of(alloc, "ID")?)
}

// The cells of rows at a place.
fn cells_at(alloc: Global, rows: &[Row], place: usize) -> Result<Vec<Value>, Memory>
    ensures { IfOk result (λ vs. map view vs.items
        ≡ map (λ r. unwrap_or (slice_get r.cells place) blank) rows.now) }
{
    let mut cells = Vec::with_capacity(alloc, rows.len())?;
    for row in rows {
        cells.push(cell_at(alloc, row, place)?)?;
    }
    Ok(cells)
}

fn cell_at(alloc: Global, row: &Row, place: usize) -> Result<Value, Memory>
    ensures { IfOk result (λ v. view v ≡ unwrap_or (slice_get row.now.cells place) blank) }
{
    match row.cells.get(place) {
        Some(cell) => cell.copy(alloc),
        None => Ok(Value::Blank),
    }
}
