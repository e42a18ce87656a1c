// The first and the last rows of a table, and how many there are.
ghost use Rattle.std.specs.Prelude.{◌≡◌, ◌-◌, IfOk, drop, length, option_map, take, true};
ghost use Rattle.fx_types.specs.Types.{ColumnList, Shape, booleans, numbers, records, tables};
ghost use Rattle.fx_types.specs.ValueView.{view};
ghost use Rattle.fx_types.specs.Values.{row_list, tab};
ghost use Rattle.fx_primitives.specs.Numbers.{whole_part_of};
ghost use Rattle.fx_tables.specs.Ends.{count_asked as count_asked_of, emptiness_of, first_rows};
ghost use Rattle.fx_tables.specs.Ends.{last_of, last_rows, natural as natural_of};
ghost use Rattle.fx_tables.specs.RowCalls.{IsCountValue, first_row_record};
ghost use Rattle.fx_value.specs.Fits.{fits_in};

use crate::counts::count_value;
use fx_base::Memory;
use fx_number::Num;
use fx_primitives::whole_part;
use fx_types::values::{Rows, Value};
use std::alloc::Global;

/// The first row as a record, or blank where there is none.
pub fn first(rows: Rows) -> Value
    ensures value { view result ≡ first_row_record rows }
    ensures fits { (cs : ColumnList) → fits_in (tab (row_list rows)) (tables cs) ≡ true
        → fits_in (view result) (records cs) ≡ true }
{
    match rows.into_items().into_iter().next() {
        Some(row) => Value::Rec(row),
        None => Value::Blank,
    }
}

/// The last row as a record, or blank where there is none.
pub fn last(rows: Rows) -> Value
    ensures value { view result ≡ last_of rows }
    ensures fits { (cs : ColumnList) → fits_in (tab (row_list rows)) (tables cs) ≡ true
        → fits_in (view result) (records cs) ≡ true }
{
    let mut items = rows.into_items();
    match items.pop() {
        Some(row) => Value::Rec(row),
        None => Value::Blank,
    }
}

/// The first rows, as many as the number says, or all where there are fewer. The number is cut
/// towards zero; one row where it is left out, and none where it is blank or negative. Where it is
/// an error, that is the answer.
pub fn first_n(rows: Rows, count: Option<Value>) -> Value
    ensures value { view result ≡ first_rows rows (option_map view count) }
    ensures fits { (t : Shape) → fits_in (tab (row_list rows)) t ≡ true
        → fits_in (view result) t ≡ true }
{
    match count {
        Some(Value::Fault(fault)) => Value::Fault(fault),
        count => Value::Tab(first_rows_of(rows, asked_count(&count))),
    }
}

/// The last rows in their order, as many as the number says, or all where there are fewer. The
/// number is cut towards zero; one row where it is left out, and none where it is blank or
/// negative. Where it is an error, that is the answer.
pub fn last_n(rows: Rows, count: Option<Value>) -> Value
    ensures value { view result ≡ last_rows rows (option_map view count) }
    ensures fits { (t : Shape) → fits_in (tab (row_list rows)) t ≡ true
        → fits_in (view result) t ≡ true }
{
    match count {
        Some(Value::Fault(fault)) => Value::Fault(fault),
        count => Value::Tab(last_rows_of(rows, asked_count(&count))),
    }
}

/// How many rows there are. `Numeric` exactly where the count is out of a number's range.
pub fn count_rows(alloc: Global, rows: &Rows) -> Result<Value, Memory>
    ensures value { IfOk result (λ v. IsCountValue (length rows.now) (view v)) }
    ensures fits { IfOk result (λ v. fits_in (view v) numbers ≡ true) }
{
    count_value(alloc, rows.len())
}

/// Whether there is no row.
pub fn is_empty(rows: &Rows) -> Value
    ensures value { view result ≡ emptiness_of rows.now }
    ensures fits { fits_in (view result) booleans ≡ true }
{
    Value::Boolean(rows.len() == 0)
}

fn first_rows_of(rows: Rows, count: usize) -> Rows
    ensures { result ≡ take count rows }
{
    let mut items = rows.into_items();
    items.truncate(count);
    Rows::from_items(items)
}

fn last_rows_of(rows: Rows, count: usize) -> Rows
    ensures { result ≡ drop (length rows - count) rows }
{
    let mut items = rows.into_items();
    let skipped = items.len().saturating_sub(count);
    let kept = items.len() - skipped;
    // Turned and cut off, so that no row is copied and no memory is taken.
    items.rotate_left(skipped);
    items.truncate(kept);
    Rows::from_items(items)
}

// How many rows a number asks for.
fn asked_count(count: &Option<Value>) -> usize
    ensures { result ≡ count_asked_of (option_map view count.now) }
{
    match count {
        Some(Value::Number(number)) => natural(*number),
        Some(_) => 0,
        None => 1,
    }
}

fn natural(number: Num) -> usize
    ensures { result ≡ natural_of (whole_part_of number) }
{
    usize::try_from(whole_part(number)).unwrap_or(0)
}
