// The calls that change the columns of a table, one column after another.
ghost use Rattle.std.specs.Prelude.{◌≡◌, IfOk, List, Ok, map, true, ℕ};
ghost use Rattle.fx_types.specs.Rising.{AreNamesRising};
ghost use Rattle.fx_types.specs.Types.{ColumnList, Shape, column_list, tables};
ghost use Rattle.fx_types.specs.ValueView.{view};
ghost use Rattle.fx_types.specs.Values.{row_list, tab};
ghost use Rattle.fx_tables.specs.ColumnCalls.{AreOfTypes, CanAddColumns, CanRename, in_turn};
ghost use Rattle.fx_tables.specs.ColumnCalls.{renamed_columns, with_columns, without_columns};
ghost use Rattle.fx_tables.specs.NewColumn.{column_seen, renaming_seen};
ghost use Rattle.fx_value.specs.Columns.{fields_only};
ghost use Rattle.fx_core.specs.ColumnLists.{columns_only as only_columns, with_new, with_renamed};
ghost use Rattle.fx_core.specs.ColumnLists.{without_all};
ghost use Rattle.fx_value.specs.Fits.{fits_in};

use crate::{add_column, drop_column, rename_column};
use fx_base::Memory;
use fx_types::values::{Rows, Value};
use fx_types::words::Words;
use std::alloc::Global;

/// A new column, by what a formula gave for each row.
#[derive(Drop)]
pub struct NewColumn {
    pub name: Words,
    /// One for each row, at its place.
    pub values: Vec<Value>,
}

/// A column's new name.
#[derive(Drop)]
pub struct Renaming {
    pub from: Words,
    pub to: Words,
}

/// The rows with new columns, one after another; errors stay in the fields.
pub fn add_columns(alloc: Global, rows: Rows, columns: Vec<NewColumn>) -> Result<Value, Memory>
    requires { CanAddColumns (map column_seen columns.items) rows }
    ensures value { IfOk result (λ v. view v
        ≡ tab (row_list (with_columns (map column_seen columns.items) rows))) }
    ensures fits { (ts : List (List ℕ × Shape)) (cs ds : ColumnList)
        → AreOfTypes (map column_seen columns.items) ts
        → fits_in (tab (row_list rows)) (tables cs) ≡ true
        → in_turn (λ t. with_new t.0 t.1) ts cs ≡ Ok ds
        → IfOk result (λ v. fits_in (view v) (tables ds) ≡ true) }
{
    Ok(Value::Tab(rows_with(alloc, rows, columns)?))
}

/// The rows without the columns of these names.
pub fn drop_columns(alloc: Global, rows: Rows, names: &[Words]) -> Result<Value, Memory>
    ensures value { IfOk result (λ v. view v ≡ tab (row_list (without_columns names.now rows))) }
    ensures fits { (cs : List (List ℕ × Shape)) → AreNamesRising cs
        → fits_in (tab (row_list rows)) (tables (column_list cs)) ≡ true
        → IfOk result (λ v. fits_in (view v) (tables (without_all names.now (column_list cs)))
        ≡ true) }
{
    let mut narrower = rows;
    for name in names {
        narrower = drop_column(alloc, narrower, name.as_str())?;
    }
    Ok(Value::Tab(narrower))
}

/// The rows with the columns of these names alone.
pub fn show_columns(alloc: Global, rows: Rows, names: &[Words]) -> Result<Value, Memory>
    ensures value { IfOk result (λ v. view v ≡ tab (row_list (map (fields_only names.now) rows))) }
    ensures fits { (cs : ColumnList) → fits_in (tab (row_list rows)) (tables cs) ≡ true
        → IfOk result (λ v. fits_in (view v) (tables (only_columns names.now cs)) ≡ true) }
{
    Ok(Value::Tab(crate::show_columns(alloc, rows, names)?))
}

/// The rows with columns under new names, one after another, each of which is no column's when its
/// turn comes.
pub fn rename_columns(alloc: Global, rows: Rows, renamings: &[Renaming]) -> Result<Value, Memory>
    requires { CanRename (map renaming_seen renamings.now) rows }
    ensures value { IfOk result (λ v. view v
        ≡ tab (row_list (renamed_columns (map renaming_seen renamings.now) rows))) }
    ensures fits { (cs : List (List ℕ × Shape)) (ds : ColumnList) → AreNamesRising cs
        → fits_in (tab (row_list rows)) (tables (column_list cs)) ≡ true
        → in_turn (λ p. with_renamed p.0 p.1) (map renaming_seen renamings.now) (column_list cs)
        ≡ Ok ds
        → IfOk result (λ v. fits_in (view v) (tables ds) ≡ true) }
{
    let mut renamed = rows;
    for renaming in renamings {
        renamed = rename_column(alloc, renamed, renaming.from.as_str(), renaming.to.as_str())?;
    }
    Ok(Value::Tab(renamed))
}

fn rows_with(alloc: Global, rows: Rows, columns: Vec<NewColumn>) -> Result<Rows, Memory>
    requires { CanAddColumns (map column_seen columns.items) rows }
    ensures { IfOk result (λ r. r ≡ with_columns (map column_seen columns.items) rows) }
{
    let mut wider = rows;
    for column in columns {
        let NewColumn { name, values } = column;
        wider = add_column(alloc, wider, name.as_str(), values)?;
    }
    Ok(wider)
}
