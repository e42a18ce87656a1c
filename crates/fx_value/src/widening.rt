// Values as ones of a wider type.
ghost use Rattle.std.specs.Prelude.{◌≡◌, ◌≢◌, IfOk, List, ℕ, true};
ghost use Rattle.fx_types.specs.TypeView.{shape};
ghost use Rattle.fx_types.specs.Types.{records, tables, column_list};
ghost use Rattle.fx_types.specs.ValueView.{view, fields_view};
ghost use Rattle.fx_types.specs.Values.{rec, tab, field_list, row_list};
ghost use Rattle.fx_value.specs.Coercion.{CanWiden, field_or_blank, widened, widened_fields};
ghost use Rattle.fx_value.specs.Coercion.{rows_mapped};
ghost use Rattle.fx_value.specs.Fits.{fits_in, fields_fit, rows_fit};

use fx_base::Memory;
use fx_types::types::{Columns, Ty};
use fx_types::values::{Fields, Rows, Value};
use fx_types::words::Words;
use std::alloc::Global;

/// The value as one of a wider type: records, and rows of tables, get the columns that they lack as
/// blanks, at every depth.
#[cycle(widen)]
pub fn widen(alloc: Global, v: Value, to: &Ty) -> Result<Value, Memory>
    requires { CanWiden (view v) (shape to.now) }
    ensures value { IfOk result (λ w. view w ≡ widened (view v) (shape to.now)) }
    ensures fits { IfOk result (λ w. fits_in (view w) (shape to.now) ≡ true) }
{
    match v {
        Value::Rec(fields) => match to {
            Ty::Rec(columns) => Ok(Value::Rec(widen_record(alloc, fields, columns)?)),
            _ => unreachable!(),
        },
        Value::Tab(rows) => match to {
            Ty::Tab(columns) => Ok(Value::Tab(widen_table(alloc, rows, columns)?)),
            _ => unreachable!(),
        },
        flat => Ok(flat),
    }
}

#[cycle(widen)]
fn widen_record(alloc: Global, fields: Fields, columns: &Columns) -> Result<Fields, Memory>
    requires { CanWiden (rec (field_list fields)) (records (column_list columns.now)) }
    ensures value { IfOk result
        (λ w. field_list w ≡ widened_fields (field_list fields) (column_list columns.now)) }
    ensures fits { IfOk result (λ w. fields_fit (field_list w) (column_list columns.now) ≡ true) }
{
    let types = columns.as_slice();
    let mut items = fields.into_items();
    let mut wide = Vec::with_capacity(alloc, types.len())?;
    for (name, ty) in types {
        wide.push((
            name.copy(alloc)?,
            widen(alloc, take_value(&mut items, name), ty)?,
        ))?;
    }
    Ok(Fields::from_rising(wide))
}

#[cycle(widen)]
fn widen_table(alloc: Global, rows: Rows, columns: &Columns) -> Result<Rows, Memory>
    requires { CanWiden (tab (row_list rows)) (tables (column_list columns.now)) }
    ensures value { IfOk result (λ w. row_list w
        ≡ rows_mapped (λ fs. widened_fields fs (column_list columns.now)) (row_list rows)) }
    ensures fits { IfOk result (λ w. rows_fit (row_list w) (column_list columns.now) ≡ true) }
{
    let items = rows.into_items();
    let mut wide = Vec::with_capacity(alloc, items.len())?;
    for row in items {
        wide.push(widen_record(alloc, row, columns)?)?;
    }
    Ok(Rows::from_items(wide))
}

// The value under a name, which is taken out, or blank where it is missing. A blank stays in its
// place, so that nothing is copied and no other field moves.
fn take_value(items: &mut Vec<(Words, Value)>, name: &Words) -> Value
    ensures value { view result ≡ field_or_blank name.now (field_list (fields_view items.old.items)) }
    ensures others { (m : List ℕ) → m ≢ name.now
        → field_or_blank m (field_list (fields_view items.new.items))
        ≡ field_or_blank m (field_list (fields_view items.old.items)) }
{
    for (other, value) in items.iter_mut() {
        if other.is(name) {
            return std::mem::replace(value, Value::Blank);
        }
    }
    Value::Blank
}
