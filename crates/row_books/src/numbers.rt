// The numbers of a row, column by column.
ghost use Rattle.std.specs.Prelude.{◌≡◌, ◌∷◌, [], map, None, Some, IfOk};
ghost use Rattle.fx_types.specs.ValueView.{view};
ghost use Rattle.fx_value.specs.Aggregates.{number_if_one};
ghost use Rattle.row_books.specs.Numbers.{by_columns, number_at, numbers_of, row_number};

use fx_base::Memory;
use fx_number::Num;
use fx_types::Value;
use number_bags::Number;
use std::alloc::Global;

/// The number of a row as a value of the column `ID`, and those in its cells.
#[derive(Drop)]
pub struct Numbers {
    pub id: Option<Number>,
    pub cells: Vec<Option<Number>>,
}

/// The number in a value, if it is one.
fn number_in(value: &Value) -> Option<Number>
    ensures { result ≡ number_if_one (view value.now) }
{
    match value {
        Value::Number(number) => Some(Number::of(*number)),
        _ => None,
    }
}

/// The number in each of some values, if it is one.
fn numbers_in(alloc: Global, values: &[Value]) -> Result<Vec<Option<Number>>, Memory>
    ensures { IfOk result (λ v. v.items ≡ numbers_of (map view values.now)) }
{
    let mut numbers = Vec::with_capacity(alloc, values.len())?;
    for value in values {
        numbers.push(number_in(value))?;
    }
    Ok(numbers)
}

/// The number of a row as a value of the column `ID`.
pub fn id_number(id: u32) -> Number
    ensures { result ≡ row_number id }
{
    match Num::from_units(i64::from(id) * 10_000) {
        Some(number) => Number::of(number),
        None => unreachable!(),
    }
}

/// The number of a place, if there is one.
pub fn number_at(numbers: &[Option<Number>], place: usize) -> Option<Number>
    ensures { result ≡ number_at numbers.now place }
{
    match numbers.get(place) {
        Some(number) => *number,
        None => None,
    }
}

impl Numbers {
    /// Those of no row.
    pub fn none(alloc: Global) -> Numbers
        ensures { by_columns result ≡ None ∷ [] }
    {
        Numbers {
            id: None,
            cells: Vec::new(alloc),
        }
    }

    /// Those in cells, without a row's number.
    pub fn of_cells(alloc: Global, cells: &[Value]) -> Result<Numbers, Memory>
        ensures { IfOk result (λ n. by_columns n ≡ None ∷ numbers_of (map view cells.now)) }
    {
        Ok(Numbers {
            id: None,
            cells: numbers_in(alloc, cells)?,
        })
    }

    /// Those of a row.
    pub fn of_row(alloc: Global, id: u32, cells: &[Value]) -> Result<Numbers, Memory>
        ensures { IfOk result (λ n. by_columns n
            ≡ Some (row_number id) ∷ numbers_of (map view cells.now)) }
    {
        Ok(Numbers {
            id: Some(id_number(id)),
            cells: numbers_in(alloc, cells)?,
        })
    }
}
