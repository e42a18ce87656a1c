// What queries answer of the rows that they ask.
ghost use Rattle.std.specs.Prelude.{◌≡◌, map, IfOk};
ghost use Rattle.std.specs.List.{AllByRecursion};
ghost use Rattle.fx_types.specs.ValueView.{view};
ghost use Rattle.row_queries.specs.Queries.{first_outcome_fault, given_of, outcome_on};
ghost use Rattle.row_queries.specs.Queries.{rows_or_fault};
ghost use Rattle.row_queries.specs.RowTests.{CanAsk, HasNoFaults};
ghost use Rattle.row_queries.specs.TableRows.{value_at, values_of};

use crate::scans::{Judged, first_rows, judge, list, value_in};
use fx_base::{InOrder, Memory};
use fx_types::Value;
use row_queries::{Query, Row, RowList};
use std::alloc::Global;

/// What a query answers of the rows that it asks: those that it gives, or the first error of its
/// test.
pub fn answer(alloc: Global, asked: Vec<Row>, query: &Query) -> Result<RowList, Memory>
    requires { AllByRecursion (λ (r : Row). CanAsk (values_of r) query.now.test) asked.items }
    ensures { IfOk result (λ a. a ≡ rows_or_fault (given_of query.now asked.items)
        (first_outcome_fault (map (outcome_on query.now) asked.items))) }
{
    let Judged { rows, fault } = judge(alloc, asked, query)?;
    match fault {
        None => Ok(RowList {
            rows: list(alloc, first_rows(rows, query.take))?,
            fault: None,
        }),
        Some(fault) => Ok(RowList {
            rows: InOrder::new(alloc),
            fault: Some(fault),
        }),
    }
}

/// The rows that a query gives of those that it asks, where no constant of its test is an error.
pub fn give_rows(alloc: Global, asked: Vec<Row>, query: &Query) -> Result<Vec<Row>, Memory>
    requires asks { AllByRecursion (λ (r : Row). CanAsk (values_of r) query.now.test) asked.items }
    requires sound { HasNoFaults query.now.test }
    ensures { IfOk result (λ rows. rows.items ≡ given_of query.now asked.items) }
{
    let judged = judge(alloc, asked, query)?;
    Ok(first_rows(judged.rows, query.take))
}

/// The values of rows in a column.
pub fn values_in(alloc: Global, rows: &[Row], column: u16) -> Result<Vec<Value>, Memory>
    ensures { IfOk result (λ vs. map view vs.items
        ≡ map (λ r. value_at (values_of r) column) rows.now) }
{
    let mut values = Vec::with_capacity(alloc, rows.len())?;
    for row in rows {
        values.push(value_in(alloc, row, column)?)?;
    }
    Ok(values)
}
