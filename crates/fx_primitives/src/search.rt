//! Where a text stands in another.
ghost use Rattle.std.specs.Prelude.{◌≡◌, ◌+◌, ◌≤◌, ◌↔◌, IfOk, IfSome, IsTrue, length};
ghost use Rattle.fx_primitives.specs.Folding.{HasPart};
ghost use Rattle.fx_primitives.specs.Search.{IsFound, IsFoundFrom, StandsAt};

use crate::characters::characters;
use crate::text_parts::place_of;
use fx_base::Memory;
use fx_types::{Kind, Words};
use std::alloc::Global;

/// The first position, from a position on, at which a part stands in a text, with case; none where
/// it stands nowhere. `InvalidArgument` exactly for a position under 1 or more than one past the
/// end.
pub fn find(
    alloc: Global,
    part: &Words,
    text: &Words,
    start: i64,
) -> Result<Result<Option<usize>, Kind>, Memory>
    ensures { IfOk result (IsFound part.now text.now start) }
{
    let part = characters(alloc, part)?;
    let text = characters(alloc, text)?;
    match place_of(start) {
        Some(from) if from <= text.len() => {
            Ok(Ok(find_from(&part, &text, from).map(|place| place + 1)))
        }
        _ => Ok(Err(Kind::InvalidArgument)),
    }
}

/// Whether a part stands somewhere in a text, with case.
pub fn contains_exactly(alloc: Global, text: &Words, part: &Words) -> Result<bool, Memory>
    ensures { IfOk result (λ b. IsTrue b ↔ HasPart text.now part.now) }
{
    let part = characters(alloc, part)?;
    let text = characters(alloc, text)?;
    Ok(find_from(&part, &text, 0).is_some())
}

/// The first place, from a place on, at which a part stands.
pub(crate) fn find_from(part: &[char], text: &[char], from: usize) -> Option<usize>
    requires { from ≤ length text.now }
    ensures value { IsFoundFrom part.now text.now from result }
    ensures fits { IfSome result (λ place. place + length part.now ≤ length text.now) }
{
    for place in from..text.len() + 1 {
        if stands_at(part, text, place) {
            return Some(place);
        }
    }
    None
}

// Whether a part stands at a place.
fn stands_at(part: &[char], text: &[char], place: usize) -> bool
    requires { place ≤ length text.now }
    ensures value { IsTrue result ↔ StandsAt part.now text.now place }
    ensures fits { IsTrue result → place + length part.now ≤ length text.now }
{
    text[place..].starts_with(part)
}
