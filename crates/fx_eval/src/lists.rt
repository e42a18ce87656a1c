// Tables of values.
ghost use Rattle.std.specs.Prelude.{◌≡◌, IfOk, map};
ghost use Rattle.fx_types.specs.Types.{column_list, tables};
ghost use Rattle.fx_types.specs.TypeView.{shape};
ghost use Rattle.fx_types.specs.ValueView.{view};
ghost use Rattle.fx_eval.specs.Lists.{CanList};
ghost use Rattle.fx_tables.specs.Unions.{union_of};
ghost use Rattle.fx_core.specs.ColumnLists.{row_columns as row_columns_of};
ghost use Rattle.fx_core.specs.ColumnLists.{value_column as value_column_of};

use fx_base::Memory;
use fx_tables::union;
use fx_types::types::{Columns, Ty};
use fx_types::values::Value;
use fx_types::words::Words;
use std::alloc::Global;

/// The table of these values as its rows, which are of this type: records, or scalars in a column
/// `Value`. Where there is an error among the values, the first one is the answer.
pub fn list(alloc: Global, row: &Ty, values: Vec<Value>) -> Result<Value, Memory>
    requires { CanList (shape row.now) (map view values.items) }
    ensures { IfOk result (λ v. view v ≡ union_of (tables (row_columns_of (shape row.now)))
        (map view values.items)) }
{
    let columns = row_columns(alloc, row)?;
    union(alloc, values, &Ty::Tab(columns))
}

// The columns of rows that are values of a type: a record's own, and for a scalar the column
// `Value`.
fn row_columns(alloc: Global, row: &Ty) -> Result<Columns, Memory>
    ensures { IfOk result (λ cs. column_list cs ≡ row_columns_of (shape row.now)) }
{
    match row {
        Ty::Rec(columns) => columns.copy(alloc),
        Ty::Blank | Ty::Number | Ty::Text | Ty::Boolean | Ty::Date | Ty::Tab(_) => {
            value_column(alloc, row.copy(alloc)?)
        }
    }
}

fn value_column(alloc: Global, ty: Ty) -> Result<Columns, Memory>
    ensures { IfOk result (λ cs. column_list cs ≡ value_column_of (shape ty)) }
{
    let mut columns = Columns::new(alloc);
    columns.push((Words::of(alloc, "Value")?, ty))?;
    Ok(columns)
}
