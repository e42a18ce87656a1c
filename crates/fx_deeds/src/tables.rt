//! Rows of values.
ghost use Rattle.std.specs.Prelude.{◌≡◌, ◌++◌, IfOk, map};
ghost use Rattle.fx_types.specs.ValueView.{view};
ghost use Rattle.fx_semantics.specs.Rows.{rows_in};
ghost use Rattle.fx_deeds.specs.RowValues.{rows_among};

use fx_base::Memory;
use fx_types::{Fields, Rows, Value};
use std::alloc::Global;

/// Rows and these behind them.
pub(crate) fn with_copies(alloc: Global, rows: Rows, more: &[Fields]) -> Result<Rows, Memory>
    ensures { IfOk result (λ r. r ≡ rows ++ more.now) }
{
    let mut rows = rows;
    let mut rest = more;
    while let Some((row, others)) = rest.split_first() {
        rows.push(row.copy(alloc)?)?;
        rest = others;
    }
    Ok(rows)
}

/// Rows and those of a table behind them. A value that is no table has none.
pub(crate) fn with_table(alloc: Global, rows: Rows, table: &Value) -> Result<Rows, Memory>
    ensures { IfOk result (λ r. r ≡ rows ++ rows_in (view table.now)) }
{
    match table {
        Value::Tab(more) => with_copies(alloc, rows, more.as_slice()),
        _ => Ok(rows),
    }
}

/// Rows and those of tables behind them.
pub(crate) fn with_tables(alloc: Global, rows: Rows, tables: &[Value]) -> Result<Rows, Memory>
    ensures { IfOk result (λ r. r ≡ rows ++ rows_among (map view tables.now)) }
{
    let mut rows = rows;
    let mut rest = tables;
    while let Some((table, others)) = rest.split_first() {
        rows = with_table(alloc, rows, table)?;
        rest = others;
    }
    Ok(rows)
}
