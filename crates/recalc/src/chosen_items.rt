// Which row of a gallery's items is chosen.
ghost use Rattle.std.specs.Prelude.{◌≡◌, IfOk, codes, option_map};
ghost use Rattle.std.specs.List.{find};
ghost use Rattle.app_semantics.specs.Chosen as spec;
ghost use Rattle.fx_types.specs.ValueView.{view};

use crate::ids::id_name;
use fx_base::Memory;
use fx_types::values::{Fields, Value};
use fx_types::words::Words;
use std::alloc::Global;

/// The chosen row of these items, or blank where there is none. An error in their place is the
/// answer.
#[tactic(auto, using(crate::proofs::Selecting::selected_is))]
pub(crate) fn selection(
    alloc: Global,
    chosen: Option<(u32, Option<u32>)>,
    items: &Value,
) -> Result<Value, Memory>
    ensures { IfOk result (λ v. view v ≡ spec.chosen_of chosen (view items.now)) }
{
    match items {
        Value::Fault(fault) => Ok(Value::Fault(fault.copy(alloc)?)),
        Value::Tab(rows) => {
            let id = id_name(alloc)?;
            record_of(alloc, chosen_row(chosen, rows.as_slice(), &id))
        }
        _ => Ok(Value::Blank),
    }
}

// A row as a record, and blank where there is none.
fn record_of(alloc: Global, row: Option<&Fields>) -> Result<Value, Memory>
    ensures { IfOk result (λ v. view v ≡ spec.row_or_blank (option_map (λ r. r.now) row.entry)) }
{
    match row {
        Some(row) => Ok(Value::Rec(row.copy(alloc)?)),
        None => Ok(Value::Blank),
    }
}

// The row that is chosen, where `id` is the name of the column that numbers rows.
fn chosen_row<'a>(
    chosen: Option<(u32, Option<u32>)>,
    rows: &'a [Fields],
    id: &Words,
) -> Option<&'a Fields>
    requires { id.now ≡ codes "ID" }
    ensures { option_map (λ r. r.now) result ≡ spec.chosen_row chosen rows.now }
{
    match chosen {
        None => rows.first(),
        Some((_, Some(number))) => row_of(number, rows, id),
        Some((at, None)) => row_at(at, rows),
    }
}

// The row at a position, counted from 1.
fn row_at(at: u32, rows: &[Fields]) -> Option<&Fields>
    ensures { option_map (λ r. r.now) result ≡ spec.row_at_position at rows.now }
{
    match at.checked_sub(1) {
        Some(place) => rows.get(place as usize),
        None => None,
    }
}

// The first row of this number.
fn row_of<'a>(number: u32, rows: &'a [Fields], id: &Words) -> Option<&'a Fields>
    requires { id.now ≡ codes "ID" }
    ensures { option_map (λ r. r.now) result ≡ find (spec.is_item_of_id number) rows.now }
{
    for row in rows {
        if has_id(row, id, number) {
            return Some(row);
        }
    }
    None
}

// Whether a row has this number as its ID.
fn has_id(row: &Fields, id: &Words, number: u32) -> bool
    requires { id.now ≡ codes "ID" }
    ensures { result ≡ spec.is_item_of_id number row.now }
{
    match row.value(id) {
        Some(Value::Number(other)) => other.units() == i64::from(number) * 10_000,
        _ => false,
    }
}
