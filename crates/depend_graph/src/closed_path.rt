//! A closed path from its least number.
ghost use Rattle.std.specs.Prelude.{◌≡◌, ℕ, ◌<◌, ◌≤◌, length, slice_index, EachIndex, IfOk};
ghost use Rattle.depend_graph.specs.Turning.{turned_at, TurnsToLeast};

use fx_number::Memory;
use std::alloc::Global;

/// A place of the least number.
fn least_place(numbers: &[u32]) -> usize
    requires { 0 < length numbers.now }
    ensures within { result < length numbers.now }
    ensures least { EachIndex numbers.now (λ k. slice_index numbers.now result
        ≤ slice_index numbers.now k) }
{
    let mut least = 0;
    for (place, number) in numbers.iter().enumerate() {
        if *number < numbers[least] {
            least = place;
        }
    }
    least
}

/// The numbers of a circle from the least one on, which stands at the end again.
pub(crate) fn close_from_least(alloc: Global, circle: &[u32]) -> Result<Vec<u32>, Memory>
    requires { 0 < length circle.now }
    ensures { IfOk result (λ path. TurnsToLeast circle.now path.items) }
{
    let place = least_place(circle);
    let (before, from) = circle.split_at(place);
    let mut path = Vec::new(alloc);
    path.extend_from_slice(from)?;
    path.extend_from_slice(before)?;
    path.push(circle[place])?;
    Ok(path)
}
