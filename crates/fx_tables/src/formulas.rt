// The calls that make tables of what a formula gave for each row.
ghost use Rattle.std.specs.Prelude.{◌≡◌, IfOk, length, map, not, true};
ghost use Rattle.std.specs.List.{All, filter as filter_of};
ghost use Rattle.fx_types.specs.Types.{Shape, tables};
ghost use Rattle.fx_types.specs.ValueView.{view};
ghost use Rattle.fx_types.specs.Values.{field_list, row_list, tab};
ghost use Rattle.fx_value.specs.Fits.{fits_in};
ghost use Rattle.fx_tables.specs.RowCalls.{AreKeysOrErrors, CanBeRowType, IsSortOf, distinct_or};
ghost use Rattle.fx_tables.specs.RowCalls.{for_all_of, is_blank as is_blank_in};
ghost use Rattle.fx_tables.specs.RowCalls.{rows_by_values as rows_of};
ghost use Rattle.fx_tables.specs.Distinct.{value_row as value_row_of};
ghost use Rattle.fx_tables.specs.Unions.{fields_in};
ghost use Rattle.fx_core.specs.ColumnLists.{row_columns, value_column};

use crate::errors::without_errors;
use crate::{distinct, order_by};
use fx_base::Memory;
use fx_types::values::{Fields, Rows, Value};
use fx_types::words::Words;
use std::alloc::Global;

/// The table of the values that aren't blank: records, or scalars in a column `Value`. Where there
/// is an error among them, the first one is the answer.
pub fn for_all(alloc: Global, values: Vec<Value>) -> Result<Value, Memory>
    ensures value { IfOk result (λ v. view v ≡ for_all_of (map view values.items)) }
    ensures fits { (t : Shape) → CanBeRowType t
        → All (λ d. fits_in d t ≡ true) (map view values.items)
        → IfOk result (λ v. fits_in (view v) (tables (row_columns t)) ≡ true) }
{
    match without_errors(values) {
        Ok(values) => Ok(Value::Tab(rows_by_values(alloc, without_blanks(values))?)),
        Err(fault) => Ok(Value::Fault(fault)),
    }
}

/// The rows in the order of their keys, which stand at their places, or in the order turned round;
/// rows of equal keys keep their order either way. Where a key is an error, the first one is the
/// answer.
pub fn sort(alloc: Global, rows: Rows, keys: Vec<Value>, down: bool) -> Result<Value, Memory>
    requires { length keys.items ≡ length rows }
    ensures value { IfOk result (λ v. IsSortOf down rows (map view keys.items) (view v)) }
    ensures fits { (t : Shape) → fits_in (tab (row_list rows)) t ≡ true
        → IfOk result (λ v. fits_in (view v) t ≡ true) }
{
    match without_errors(keys) {
        Ok(keys) => Ok(Value::Tab(order_by(alloc, rows, keys.as_slice(), down)?)),
        Err(fault) => Ok(Value::Fault(fault)),
    }
}

/// The values as rows with the one column `Value`, each value once, in the order in which they
/// first appear. Where there is an error among them, the first one is the answer.
pub fn distinct_values(alloc: Global, values: Vec<Value>) -> Result<Value, Memory>
    requires { AreKeysOrErrors (map view values.items) }
    ensures value { IfOk result (λ v. view v ≡ distinct_or (map view values.items)) }
    ensures fits { (t : Shape) → All (λ d. fits_in d t ≡ true) (map view values.items)
        → IfOk result (λ v. fits_in (view v) (tables (value_column t)) ≡ true) }
{
    match without_errors(values) {
        Ok(values) => Ok(Value::Tab(distinct(alloc, values.as_slice())?)),
        Err(fault) => Ok(Value::Fault(fault)),
    }
}

// Each value as a row.
fn rows_by_values(alloc: Global, values: Vec<Value>) -> Result<Rows, Memory>
    ensures { IfOk result (λ r. row_list r ≡ rows_of (map view values.items)) }
{
    let mut rows = Vec::with_capacity(alloc, values.len())?;
    for value in values {
        rows.push(row_of(alloc, value)?)?;
    }
    Ok(Rows::from_items(rows))
}

// A value as a row: a blank one has no fields, and a scalar is the field `Value`.
fn row_of(alloc: Global, value: Value) -> Result<Fields, Memory>
    ensures { IfOk result (λ f. field_list f ≡ fields_in (view value)) }
{
    match value {
        Value::Blank => Ok(Fields::new(alloc)),
        Value::Rec(fields) => Ok(fields),
        scalar => value_row(alloc, scalar),
    }
}

// A scalar as a row of its own.
fn value_row(alloc: Global, value: Value) -> Result<Fields, Memory>
    ensures { IfOk result (λ f. f ≡ value_row_of (view value)) }
{
    let mut fields = Fields::new(alloc);
    fields.push((Words::of(alloc, "Value")?, value))?;
    Ok(fields)
}

fn without_blanks(values: Vec<Value>) -> Vec<Value>
    ensures { map view result.items ≡ filter_of (λ d. not (is_blank_in d)) (map view values.items) }
{
    let mut values = values;
    values.retain(|value| !is_blank(value));
    values
}

fn is_blank(value: &Value) -> bool
    ensures { result ≡ is_blank_in (view value.now) }
{
    matches!(value, Value::Blank)
}
