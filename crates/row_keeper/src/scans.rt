// What queries give of the rows of a table.
ghost use Rattle.std.specs.Prelude.{◌≡◌, filter, map, None, Some, IfOk, MatchOption};
ghost use Rattle.std.specs.List.{AllByRecursion};
ghost use Rattle.std.specs.List.Sorted.{IsPermutation, IsSorted};
ghost use Rattle.fx_types.specs.ValueView.{view};
ghost use Rattle.fx_types.specs.Values.{blank as blank_data};
ghost use Rattle.fx_value.specs.Order.{order};
ghost use Rattle.row_queries.specs.Queries.{first_outcome_fault, first_of, lies, outcome_on};
ghost use Rattle.row_queries.specs.Queries.{row_order};
ghost use Rattle.row_queries.specs.RowTests.{CanAsk, held_of, is_met};
ghost use Rattle.row_queries.specs.TableRows.{id_value, value_at, values_of};

use fx_base::{InOrder, Memory};
use fx_number::Num;
use fx_types::{Fault, Value};
use fx_value::{compare, compare_is_total};
use row_queries::{Held, Query, Row, fault_of, meets};
use std::alloc::Global;
use std::cmp::Ordering;

/// The number of a row as a value.
pub fn number_of(id: u32) -> Value
    ensures { view result ≡ id_value id }
{
    match Num::from_units(i64::from(id) * 10_000) {
        Some(number) => Value::Number(number),
        None => unreachable!(),
    }
}

/// The value of a row in a column, where these are its number and blank.
fn cell<'t>(row: &'t Row, column: u16, number: &'t Value, blank: &'t Value) -> &'t Value
    requires number { view number.now ≡ id_value row.now.id }
    requires blank { view blank.now ≡ blank_data }
    ensures { view result.now ≡ value_at (values_of row.now) column }
{
    match column.checked_sub(1) {
        None => number,
        Some(place) => match row.cells.get(place as usize) {
            Some(cell) => cell,
            None => blank,
        },
    }
}

/// The value of a row in a column, as one of its own.
pub fn value_in(alloc: Global, row: &Row, column: u16) -> Result<Value, Memory>
    ensures { IfOk result (λ v. view v ≡ value_at (values_of row.now) column) }
{
    cell(row, column, &number_of(row.id), &Value::Blank).copy(alloc)
}

/// The order of two rows by a column.
fn compare_at(a: &Row, b: &Row, column: u16) -> Ordering
    ensures { result ≡ order (value_at (values_of a.now) column) (value_at (values_of b.now) column) }
{
    let (first, second) = (number_of(a.id), number_of(b.id));
    compare(
        cell(a, column, &first, &Value::Blank),
        cell(b, column, &second, &Value::Blank),
    )
}

/// The order of two rows in a query's order.
fn compare_rows(a: &Row, b: &Row, by: Option<(u16, bool)>) -> Ordering
    ensures { result ≡ row_order by a.now b.now }
{
    let by_column = match by {
        None => Ordering::Equal,
        Some((column, true)) => compare_at(b, a, column),
        Some((column, false)) => compare_at(a, b, column),
    };
    by_column.then(a.id.cmp(&b.id))
}

/// Rows in a query's order.
pub fn sort_rows(rows: &mut Vec<Row>, by: Option<(u16, bool)>) -> Result<(), Memory>
    ensures permutation { IfOk result (λ _. IsPermutation rows.old.items rows.new.items) }
    ensures sorted { IfOk result (λ _. IsSorted (row_order by) rows.new.items) }
{
    compare_is_total();
    rows.sort_by(|a, b| compare_rows(a, b, by))?;
    Ok(())
}

/// The rows that meet a query's test, or the first error of the test.
#[derive(Drop)]
pub struct Judged {
    pub rows: Vec<Row>,
    pub fault: Option<Fault>,
}

// Whether a row meets a query's test, or that the test is an error there. Apart, so that it is told
// by what the query comes to on the row.
fn test_row(alloc: Global, query: &Query, row: &Row) -> Result<Held, Memory>
    requires { CanAsk (values_of row.now) query.now.test }
    ensures { IfOk result (λ h. h ≡ held_of (outcome_on query.now row.now)) }
{
    meets(alloc, &query.test, row)
}

/// Judges rows in their order.
pub fn judge(alloc: Global, asked: Vec<Row>, query: &Query) -> Result<Judged, Memory>
    requires { AllByRecursion (λ (r : Row). CanAsk (values_of r) query.now.test) asked.items }
    ensures { IfOk result (λ j. MatchOption j.fault
        ((first_outcome_fault (map (outcome_on query.now) asked.items) ≡ None)
        × (j.rows.items ≡ filter (λ r. is_met (outcome_on query.now r)) asked.items))
        (λ f. first_outcome_fault (map (outcome_on query.now) asked.items) ≡ Some f)) }
{
    let mut rows = Vec::new(alloc);
    for row in asked {
        match test_row(alloc, query, &row)? {
            Held::Yes => rows.push(row)?,
            Held::No => {}
            Held::Error => {
                // The error is made here alone, since it takes memory.
                let fault = fault_of(alloc, &query.test, &row)?;
                return Ok(Judged {
                    rows: Vec::new(alloc),
                    fault,
                });
            }
        }
    }
    Ok(Judged { rows, fault: None })
}

/// The first rows, at most so many.
pub fn first_rows(mut rows: Vec<Row>, most: Option<u32>) -> Vec<Row>
    ensures { result.items ≡ first_of most rows.items }
{
    if let Some(most) = most {
        rows.truncate(most as usize);
    }
    rows
}

/// Rows as a list.
pub fn list(alloc: Global, rows: Vec<Row>) -> Result<InOrder<Row>, Memory>
    ensures { IfOk result (λ l. l ≡ rows.items) }
{
    let mut list = InOrder::new(alloc);
    for row in rows {
        list.push(row)?;
    }
    Ok(list)
}
