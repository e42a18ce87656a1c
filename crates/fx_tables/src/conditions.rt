// The calls that keep the rows where conditions hold.
ghost use Rattle.std.specs.Prelude.{◌≡◌, ◌++◌, ◌∷◌, [], IfOk, OnOk, length, map, true};
ghost use Rattle.std.specs.Prelude.{if◌then◌else◌};
ghost use Rattle.std.specs.List.{list_all};
ghost use Rattle.fx_types.specs.Types.{ColumnList, Shape, booleans, records, tables};
ghost use Rattle.fx_types.specs.ValueView.{view};
ghost use Rattle.fx_types.specs.Values.{row_list, tab};
ghost use Rattle.fx_tables.specs.RowCalls.{filtered, holds as holds_in, kept_rows, looked_up};
ghost use Rattle.fx_tables.specs.RowCalls.{verdict_of};
ghost use Rattle.fx_value.specs.Fits.{fits_in};

use crate::ends::first;
use crate::errors::without_errors;
use fx_base::Memory;
use fx_types::values::{Fields, Rows, Value};
use std::alloc::Global;

/// What the conditions of one row come to: the first error from the left, else whether all hold.
/// All of them have been evaluated.
pub fn verdict(conditions: Vec<Value>) -> Value
    ensures value { view result ≡ verdict_of (map view conditions.items) }
    ensures fits { fits_in (view result) booleans ≡ true }
{
    match without_errors(conditions) {
        Ok(conditions) => Value::Boolean(all_hold(conditions.as_slice())),
        Err(fault) => Value::Fault(fault),
    }
}

/// The table of the rows whose conditions, which stand at their places, hold; a blank condition
/// does not. Where a condition is an error, the first one is the answer.
pub fn filter(alloc: Global, rows: Rows, conditions: Vec<Value>) -> Result<Value, Memory>
    requires { length conditions.items ≡ length rows }
    ensures value { IfOk result (λ v. view v ≡ filtered rows (map view conditions.items)) }
    ensures fits { (t : Shape) → fits_in (tab (row_list rows)) t ≡ true
        → IfOk result (λ v. fits_in (view v) t ≡ true) }
{
    match without_errors(conditions) {
        Ok(conditions) => Ok(Value::Tab(keep_rows(alloc, rows, conditions)?)),
        Err(fault) => Ok(Value::Fault(fault)),
    }
}

/// The first row whose condition, which stands at its place, holds, or blank where there is none.
/// Where a condition is an error, the first one is the answer.
pub fn look_up(alloc: Global, rows: Rows, conditions: Vec<Value>) -> Result<Value, Memory>
    requires { length conditions.items ≡ length rows }
    ensures value { IfOk result (λ v. view v ≡ looked_up rows (map view conditions.items)) }
    ensures fits { (cs : ColumnList) → fits_in (tab (row_list rows)) (tables cs) ≡ true
        → IfOk result (λ v. fits_in (view v) (records cs) ≡ true) }
{
    match without_errors(conditions) {
        Ok(conditions) => Ok(first(keep_rows(alloc, rows, conditions)?)),
        Err(fault) => Ok(Value::Fault(fault)),
    }
}

fn all_hold(conditions: &[Value]) -> bool
    ensures { result ≡ list_all (λ v. holds_in (view v)) conditions.now }
{
    conditions.iter().all(|condition| holds(condition))
}

// The rows whose condition holds.
fn keep_rows(alloc: Global, rows: Rows, conditions: Vec<Value>) -> Result<Rows, Memory>
    requires { length conditions.items ≡ length rows }
    ensures { IfOk result (λ r. r ≡ kept_rows rows (map view conditions.items)) }
{
    let items = rows.into_items();
    let mut held = Vec::new(alloc);
    let mut left = conditions.into_iter();
    for row in items {
        let Some(condition) = left.next() else {
            unreachable!()
        };
        keep(&mut held, row, &condition)?;
    }
    Ok(Rows::from_items(held))
}

// Keeps a row whose condition holds. A function, since the loop would lose what it knows where the
// ways of an `if` meet.
fn keep(held: &mut Vec<Fields>, row: Fields, condition: &Value) -> Result<(), Memory>
    ensures { OnOk result (held.new.items
        ≡ held.old.items ++ (if holds_in (view condition.now) then row ∷ [] else [])) }
{
    if !holds(condition) {
        return Ok(());
    }
    held.push(row)?;
    Ok(())
}

pub(crate) fn holds(condition: &Value) -> bool
    ensures { result ≡ holds_in (view condition.now) }
{
    matches!(condition, Value::Boolean(true))
}
