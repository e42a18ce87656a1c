//! The ids of items.
ghost use Rattle.std.specs.Prelude.{◌≡◌, IfOk, Some};
ghost use Rattle.app_semantics.specs.Chosen.{id_of, item_id as item_id_of};
ghost use Rattle.fx_types.specs.ValueView.{view};
ghost use Rattle.fx_core.specs.Lawful.{id_name as id_name_of};

use fx_base::Memory;
use fx_types::values::{Fields, Value};
use fx_types::words::Words;
use std::alloc::Global;

/// The ten-thousandths of 1.
const ONE: i64 = 10_000;

/// The name of the column that numbers rows.
pub fn id_name(alloc: Global) -> Result<Words, Memory>
    ensures { IfOk result (λ w. w ≡ id_name_of) }
{
    Ok(Words::of(alloc, "ID")?)
}

/// An item's id: its `ID` where that is a whole number from 1 to 4,294,967,295. `id` is the name of
/// the column that numbers rows.
pub fn item_id(row: &Fields, id: &Words) -> Option<u32>
    requires { id.now ≡ id_name_of }
    ensures { result ≡ item_id_of row.now }
{
    match row.value(id) {
        Some(value) => whole_id(value),
        None => None,
    }
}

// The id that a value is.
fn whole_id(value: &Value) -> Option<u32>
    ensures { result ≡ id_of (Some (view value.now)) }
{
    let Value::Number(number) = value else {
        return None;
    };
    let units = number.units();
    if units < ONE || units % ONE != 0 || units / ONE > i64::from(u32::MAX) {
        return None;
    }
    Some((units / ONE) as u32)
}
