// Which values fit which types.
ghost use Rattle.std.specs.Prelude.{◌≡◌};
ghost use Rattle.fx_types.specs.Values.{field_list, row_list};
ghost use Rattle.fx_value.specs.Fits.{fits_in, fields_fit, rows_fit};
ghost use Rattle.fx_types.specs.Types.{column_list};
ghost use Rattle.fx_types.specs.TypeView.{shape};
ghost use Rattle.fx_types.specs.ValueView.{view};

use fx_types::types::{Columns, Ty};
use fx_types::values::{Fields, Rows, Value};

/// Whether a value fits a type.
#[cycle(fits)]
pub fn fits(v: &Value, t: &Ty) -> bool
    ensures { result ≡ fits_in (view v.now) (shape t.now) }
{
    match v {
        Value::Blank | Value::Fault(_) => true,
        Value::Number(_) => matches!(t, Ty::Number),
        Value::Text(_) => matches!(t, Ty::Text),
        Value::Boolean(_) => matches!(t, Ty::Boolean),
        Value::Date(_) => matches!(t, Ty::Date),
        Value::Rec(fields) => match t {
            Ty::Rec(columns) => record_fits(fields, columns),
            _ => false,
        },
        Value::Tab(rows) => match t {
            Ty::Tab(columns) => table_fits(rows, columns),
            _ => false,
        },
    }
}

#[cycle(fits)]
fn record_fits(fields: &Fields, columns: &Columns) -> bool
    ensures { result ≡ fields_fit (field_list fields.now) (column_list columns.now) }
{
    let items = fields.as_slice();
    let types = columns.as_slice();
    if items.len() != types.len() {
        return false;
    }
    for (i, (name, value)) in items.iter().enumerate() {
        let (column, ty) = &types[i];
        if !name.is(column) || !fits(value, ty) {
            return false;
        }
    }
    true
}

#[cycle(fits)]
fn table_fits(rows: &Rows, columns: &Columns) -> bool
    ensures { result ≡ rows_fit (row_list rows.now) (column_list columns.now) }
{
    for row in rows.as_slice() {
        if !record_fits(row, columns) {
            return false;
        }
    }
    true
}
