//! Keys of the values of rows.
ghost use Rattle.std.specs.Prelude.{◌≡◌, ℕ, IfOk};
ghost use Rattle.std.specs.List.{AllByRecursion};
ghost use Rattle.fx_value.specs.Keys.{IsProper};
ghost use Rattle.fx_value.specs.Order.{IsScalar};
ghost use Rattle.row_queries.specs.TableRows.{value_at};
ghost use Rattle.row_keeper.specs.Covered.{key_at};

use crate::scans::number_of;
use fx_base::Memory;
use fx_types::Value;
use fx_value::value_is_proper;
use row_queries::{Cells, Key};
use std::alloc::Global;

/// The key of a row's value in a column.
pub fn key_in(alloc: Global, id: u32, cells: &Cells, column: u16) -> Result<Key, Memory>
    requires { (k : ℕ) → IsScalar (value_at cells.now k) }
    ensures { IfOk result (λ k. k ≡ key_at id cells.now column) }
{
    match column.checked_sub(1) {
        None => Key::of(alloc, &number_of(id)),
        Some(place) => match cells.get(place as usize) {
            Some(cell) => Key::of(alloc, cell),
            None => Key::of(alloc, &Value::Blank),
        },
    }
}

/// A fact about all cells, and no work: numbers and days are in their ranges.
pub fn cells_are_proper(cells: &Cells)
    ensures { AllByRecursion IsProper cells.now }
{
    let items = cells.as_slice();
    for cell in items {
        value_is_proper(cell);
    }
}
