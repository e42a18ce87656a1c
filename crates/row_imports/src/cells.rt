// The cells that lines leave.
ghost use Rattle.std.specs.Prelude.{◌≡◌, ◌<◌, ◌^◌, ◌==◌, IfOk, IsSome, length, map, option_map};
ghost use Rattle.std.specs.Prelude.{unwrap_or};
ghost use Rattle.std.specs.List.{position};
ghost use Rattle.fx_types.specs.ValueView.{view};
ghost use Rattle.row_imports.specs.Imports.{blanks, given_for as given_for_number};
ghost use Rattle.row_imports.specs.Imports.{key_of as key_of_line};
ghost use Rattle.row_imports.specs.Imports.{with_given as with_given_of};

use crate::lines::Heading;
use fx_base::Memory;
use fx_core::Column;
use fx_types::Value;
use row_queries::Cells;
use std::alloc::Global;

// Where a number stands among others.
fn place_of(number: u16, numbers: &[u16]) -> Option<usize>
    ensures { result ≡ position (λ n. n == number) numbers.now }
{
    numbers.iter().position(|other| *other == number)
}

// What a line gives for the column of a number, where it gives something.
fn given_for<'a>(heading: &Heading, line: &'a Cells, number: u16) -> Option<&'a Value>
    ensures { option_map (λ v. view v.now) result
        ≡ given_for_number heading.now.columns line.now number }
{
    match place_of(number, heading.columns.as_slice()) {
        Some(place) => line.get(place),
        None => None,
    }
}

/// The key of a line that gives one.
pub(crate) fn key_of<'a>(heading: &Heading, line: &'a Cells) -> &'a Value
    requires { IsSome (given_for_number heading.now.columns line.now heading.now.key) }
    ensures { view result.now ≡ key_of_line heading.now.columns heading.now.key line.now }
{
    match given_for(heading, line, heading.key) {
        Some(value) => value,
        None => unreachable!(),
    }
}

// What a line gives for the column of a number, or else what was there.
fn cell_with(
    alloc: Global,
    heading: &Heading,
    line: &Cells,
    number: u16,
    cell: &Value,
) -> Result<Value, Memory>
    ensures { IfOk result (λ v. view v ≡ unwrap_or
        (given_for_number heading.now.columns line.now number) (view cell.now)) }
{
    match given_for(heading, line, number) {
        Some(value) => value.copy(alloc),
        None => cell.copy(alloc),
    }
}

/// A row's cells, with what a line gives in their places.
pub(crate) fn with_given(
    alloc: Global,
    heading: &Heading,
    line: &Cells,
    cells: &[Value],
) -> Result<Cells, Memory>
    requires { length cells.now < 2 ^ 16 }
    ensures { IfOk result (λ c. c ≡ with_given_of heading.now.columns line.now 1
        (map view cells.now)) }
{
    let mut all = Cells::new(alloc);
    let mut number = 0;
    for cell in cells {
        number += 1;
        all.push(cell_with(alloc, heading, line, number, cell)?)?;
    }
    Ok(all)
}

/// A new row's cells: what a line doesn't give is blank.
pub(crate) fn new_cells(
    alloc: Global,
    columns: &[Column],
    heading: &Heading,
    line: &Cells,
) -> Result<Cells, Memory>
    requires { length columns.now < 2 ^ 16 }
    ensures { IfOk result (λ c. c ≡ with_given_of heading.now.columns line.now 1
        (blanks columns.now)) }
{
    let mut blanks = Vec::new(alloc);
    for _ in columns {
        blanks.push(Value::Blank)?;
    }
    with_given(alloc, heading, line, &blanks)
}
