//! Rows as changes leave them. A change is a record of some columns.
ghost use Rattle.std.specs.Prelude.{◌≡◌, IfOk, map, option_map, true, unwrap_or};
ghost use Rattle.std.specs.List.{find};
ghost use Rattle.fx_types.specs.Lookup.{item_named};
ghost use Rattle.fx_types.specs.Types.{column_list};
ghost use Rattle.fx_types.specs.Values.{field_list};
ghost use Rattle.fx_types.specs.ValueView.{view};
ghost use Rattle.fx_tables.specs.Unions.{is_fault};
ghost use Rattle.fx_value.specs.Fits.{fields_fit};
ghost use Rattle.fx_deeds.specs.Fitting.{CanChange};
ghost use Rattle.fx_deeds.specs.RowValues.{blank_cells as blanks_of, cells_in};
ghost use Rattle.fx_deeds.specs.RowValues.{changed_cells as cells_by, changed_row as row_by};
ghost use Rattle.fx_deeds.specs.RowValues.{changed_value as value_by, values_among, field_values};

use fx_base::Memory;
use fx_core::Column;
use fx_types::{Columns, Fields, Value, Words};
use fx_value::widening::widen;
use row_queries::Cells;
use std::alloc::Global;

// The value that a record has under a name, and this one where it has none.
fn value_or(alloc: Global, name: &Words, row: &Fields, value: Value) -> Result<Value, Memory>
    ensures { IfOk result (λ v. view v ≡ unwrap_or (item_named name.now row.now) (view value)) }
{
    match row.value(name) {
        Some(found) => found.copy(alloc),
        None => Ok(value),
    }
}

/// The value that stands under a name after changes: that of the last one that has it.
pub(crate) fn changed_value(
    alloc: Global,
    name: &Words,
    changes: &[Fields],
    value: Value,
) -> Result<Value, Memory>
    ensures { IfOk result (λ v. view v ≡ value_by name.now changes.now (view value)) }
{
    let mut value = value;
    let mut rest = changes;
    while let Some((change, others)) = rest.split_first() {
        value = value_or(alloc, name, change, value)?;
        rest = others;
    }
    Ok(value)
}

/// A row of a collection after changes, each value as one of its column's type.
pub(crate) fn changed_row(
    alloc: Global,
    columns: &Columns,
    changes: &[Fields],
    row: &Fields,
) -> Result<Fields, Memory>
    requires { CanChange (column_list columns.now) changes.now row.now }
    ensures row { IfOk result (λ r. r ≡ row_by (column_list columns.now) changes.now row.now) }
    ensures fits { IfOk result (λ r. fields_fit (field_list r) (column_list columns.now) ≡ true) }
{
    let mut items = Vec::new(alloc);
    let mut rest = columns.as_slice();
    while let Some((column, others)) = rest.split_first() {
        let (name, ty) = column;
        let value = value_or(alloc, name, row, Value::Blank)?;
        let value = changed_value(alloc, name, changes, value)?;
        items.push((name.copy(alloc)?, widen(alloc, value, ty)?))?;
        rest = others;
    }
    Ok(Fields::from_rising(items))
}

/// The cells of a row of a table after changes.
pub(crate) fn changed_cells(
    alloc: Global,
    columns: &[Column],
    changes: &[Fields],
    cells: &[Value],
) -> Result<Cells, Memory>
    ensures { IfOk result (λ cs. cs ≡ cells_by columns.now changes.now (map view cells.now)) }
{
    let mut changed = Cells::new(alloc);
    let mut rest = columns;
    let mut left = cells;
    while let (Some((column, columns)), Some((cell, cells))) = (
        rest.split_first(),
        left.split_first(),
    ) {
        changed.push(changed_value(alloc, &column.name, changes, cell.copy(alloc)?)?)?;
        rest = columns;
        left = cells;
    }
    Ok(changed)
}

/// The cells of a new row.
pub(crate) fn blank_cells(alloc: Global, columns: &[Column]) -> Result<Cells, Memory>
    ensures { IfOk result (λ cs. cs ≡ blanks_of columns.now) }
{
    let mut cells = Cells::new(alloc);
    let mut rest = columns;
    while let Some((_, others)) = rest.split_first() {
        cells.push(Value::Blank)?;
        rest = others;
    }
    Ok(cells)
}

/// The cells of a record.
pub(crate) fn record_cells(alloc: Global, columns: &[Column], row: &Fields) -> Result<Cells, Memory>
    ensures { IfOk result (λ cs. cs ≡ cells_in columns.now row.now) }
{
    let mut cells = Cells::new(alloc);
    let mut rest = columns;
    while let Some((column, others)) = rest.split_first() {
        cells.push(value_or(alloc, &column.name, row, Value::Blank)?)?;
        rest = others;
    }
    Ok(cells)
}

// The first error in the fields of a record.
fn error_in(alloc: Global, row: &Fields) -> Result<Option<Value>, Memory>
    ensures { IfOk result (λ e. option_map view e ≡ find is_fault (field_values row.now)) }
{
    let mut rest = row.as_slice();
    while let Some((field, others)) = rest.split_first() {
        if let Value::Fault(fault) = &field.1 {
            return Ok(Some(Value::Fault(fault.copy(alloc)?)));
        }
        rest = others;
    }
    Ok(None)
}

/// The first error in the fields of changes.
pub(crate) fn error_among(alloc: Global, changes: &[Fields]) -> Result<Option<Value>, Memory>
    ensures { IfOk result (λ e. option_map view e ≡ find is_fault (values_among changes.now)) }
{
    let mut rest = changes;
    while let Some((change, others)) = rest.split_first() {
        if let Some(error) = error_in(alloc, change)? {
            return Ok(Some(error));
        }
        rest = others;
    }
    Ok(None)
}
