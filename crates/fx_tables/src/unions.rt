// Values as the rows of one table.
ghost use Rattle.std.specs.Prelude.{◌≡◌, IfOk, map, true};
ghost use Rattle.std.specs.List.{All};
ghost use Rattle.fx_types.specs.Types.{column_list, records, tables};
ghost use Rattle.fx_types.specs.TypeView.{shape};
ghost use Rattle.fx_types.specs.ValueView.{view};
ghost use Rattle.fx_types.specs.Values.{field_list, rec, tab};
ghost use Rattle.fx_value.specs.Coercion.{CanWiden, widened};
ghost use Rattle.fx_value.specs.Fits.{fits_in};
ghost use Rattle.fx_tables.specs.Distinct.{value_row as value_row_of};
ghost use Rattle.fx_tables.specs.Unions.{CanBeRow, CanBeRows, fault_or, fields_in, values_as_rows};
ghost use Rattle.fx_tables.specs.Unions.{union_of};

use fx_base::Memory;
use fx_types::types::{Columns, Ty};
use fx_types::values::{Fields, Rows, Value};
use fx_types::words::Words;
use fx_value::widening::widen;
use std::alloc::Global;

/// The table of these values as its rows, by its type: a record gets the columns that it lacks as
/// blanks, at every depth, a blank value is a row of blanks, and a scalar stands in the column
/// `Value`. Where there is an error among the values, the first one is the answer.
pub fn union(alloc: Global, rows: Vec<Value>, ty: &Ty) -> Result<Value, Memory>
    requires { CanBeRows (shape ty.now) (map view rows.items) }
    ensures value { IfOk result (λ v. view v ≡ union_of (shape ty.now) (map view rows.items)) }
    ensures fits { IfOk result (λ v. fits_in (view v) (shape ty.now) ≡ true) }
{
    match ty {
        Ty::Tab(columns) => {
            let row_type = Ty::Rec(columns.copy(alloc)?);
            table_of(alloc, rows, columns, &row_type)
        }
        _ => unreachable!(),
    }
}

// The table of these columns, whose rows have this type.
fn table_of(
    alloc: Global,
    rows: Vec<Value>,
    columns: &Columns,
    row_type: &Ty,
) -> Result<Value, Memory>
    requires same { shape row_type.now ≡ records (column_list columns.now) }
    requires rows { All (CanBeRow (column_list columns.now)) (map view rows.items) }
    ensures value { IfOk result (λ v. view v ≡ fault_or (map view rows.items)
        (tab (values_as_rows (column_list columns.now) (map view rows.items)))) }
    ensures fits { IfOk result (λ v. fits_in (view v) (tables (column_list columns.now)) ≡ true) }
{
    // Their names rise, so that a blank value can be widened.
    let _rising = columns.as_slice();
    let mut table = Vec::with_capacity(alloc, rows.len())?;
    for value in rows {
        match value {
            Value::Fault(fault) => return Ok(Value::Fault(fault)),
            value => table.push(row_of(alloc, value, row_type)?)?,
        }
    }
    Ok(Value::Tab(Rows::from_items(table)))
}

// A value as a row of this type.
fn row_of(alloc: Global, value: Value, row_type: &Ty) -> Result<Fields, Memory>
    requires { CanWiden (rec (fields_in (view value))) (shape row_type.now) }
    ensures value { IfOk result (λ f. rec (field_list f)
        ≡ widened (rec (fields_in (view value))) (shape row_type.now)) }
    ensures fits { IfOk result (λ f. fits_in (rec (field_list f)) (shape row_type.now) ≡ true) }
{
    let fields = fields_of(alloc, value)?;
    match widen(alloc, Value::Rec(fields), row_type)? {
        Value::Rec(fields) => Ok(fields),
        _ => unreachable!(),
    }
}

// The fields of a value that is to be a row.
fn fields_of(alloc: Global, value: Value) -> Result<Fields, Memory>
    ensures { IfOk result (λ f. field_list f ≡ fields_in (view value)) }
{
    match value {
        Value::Blank => Ok(Fields::new(alloc)),
        Value::Rec(fields) => Ok(fields),
        scalar => value_row(alloc, scalar),
    }
}

// A scalar as a row of its own.
pub(crate) fn value_row(alloc: Global, value: Value) -> Result<Fields, Memory>
    ensures { IfOk result (λ f. f ≡ value_row_of (view value)) }
{
    let mut fields = Fields::new(alloc);
    fields.push((Words::of(alloc, "Value")?, value))?;
    Ok(fields)
}
