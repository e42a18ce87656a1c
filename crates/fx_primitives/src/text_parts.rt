//! Parts of texts by their length and position.
ghost use Rattle.std.specs.Prelude.{◌≡◌, IfOk, length as length_of};
ghost use Rattle.fx_primitives.specs.Texts.{left_of, right_of, mid_of, replace_of};
ghost use Rattle.fx_primitives.specs.Texts.{spliced as spliced_of, offset_of as place_at};

use crate::characters::{characters, text_of};
use fx_base::Memory;
use fx_types::{Kind, Words};
use std::alloc::Global;

/// How many scalar values a text has.
pub fn length(text: &Words) -> usize
    ensures { result ≡ length_of text.now }
{
    text.as_str().chars().count()
}

/// The first `count` scalar values, or all where there are fewer. `InvalidArgument` exactly for a
/// negative count, and `QuotaExceeded` exactly where the answer is too long.
pub fn left(alloc: Global, text: &Words, count: i64) -> Result<Result<Words, Kind>, Memory>
    ensures { IfOk result (λ r. r ≡ left_of text.now count) }
{
    first(alloc, &characters(alloc, text)?, count)
}

/// The last `count` scalar values, or all where there are fewer. `InvalidArgument` exactly for a
/// negative count, and `QuotaExceeded` exactly where the answer is too long.
pub fn right(alloc: Global, text: &Words, count: i64) -> Result<Result<Words, Kind>, Memory>
    ensures { IfOk result (λ r. r ≡ right_of text.now count) }
{
    let Ok(count) = usize::try_from(count) else {
        return Ok(Err(Kind::InvalidArgument));
    };
    let characters = characters(alloc, text)?;
    text_of(alloc, &characters[characters.len().saturating_sub(count)..])
}

/// The scalar values from a position on, `count` of them or all, as far as there are some.
/// `InvalidArgument` exactly for a position under 1 or a negative count, and `QuotaExceeded`
/// exactly where the answer is too long.
pub fn mid(
    alloc: Global,
    text: &Words,
    position: i64,
    count: Option<i64>,
) -> Result<Result<Words, Kind>, Memory>
    ensures { IfOk result (λ r. r ≡ mid_of text.now position count) }
{
    let Some(place) = place_of(position) else {
        return Ok(Err(Kind::InvalidArgument));
    };
    let characters = characters(alloc, text)?;
    let rest = &characters[place.min(characters.len())..];
    match count {
        Some(count) => first(alloc, rest, count),
        None => text_of(alloc, rest),
    }
}

/// The text with `count` scalar values from a position on replaced by a new text, or as many as
/// there are; past the end it is appended. `InvalidArgument` exactly for a position under 1 or a
/// negative count, and `QuotaExceeded` exactly where the answer is too long.
pub fn replace(
    alloc: Global,
    text: &Words,
    position: i64,
    count: i64,
    new: &Words,
) -> Result<Result<Words, Kind>, Memory>
    ensures { IfOk result (λ r. r ≡ replace_of text.now position count new.now) }
{
    let Some(place) = place_of(position) else {
        return Ok(Err(Kind::InvalidArgument));
    };
    let Ok(count) = usize::try_from(count) else {
        return Ok(Err(Kind::InvalidArgument));
    };
    let text = characters(alloc, text)?;
    let new = characters(alloc, new)?;
    text_of(alloc, &splice(alloc, &text, place, count, &new)?)
}

/// The characters with so many of them from a place on replaced, as far as there are some.
pub(crate) fn splice(
    alloc: Global,
    text: &[char],
    place: usize,
    count: usize,
    new: &[char],
) -> Result<Vec<char>, Memory>
    ensures { IfOk result (λ v. v.items ≡ spliced_of text.now place count new.now) }
{
    let start = place.min(text.len());
    // Saturates, since a count may be any number.
    let end = place.saturating_add(count).min(text.len());
    let mut made = Vec::from_slice(alloc, &text[..start])?;
    made.extend_from_slice(new)?;
    made.extend_from_slice(&text[end..])?;
    Ok(made)
}

// The first `count` characters, or all where there are fewer.
fn first(alloc: Global, characters: &[char], count: i64) -> Result<Result<Words, Kind>, Memory>
    ensures { IfOk result (λ r. r ≡ left_of characters.now count) }
{
    match usize::try_from(count) {
        Ok(count) => text_of(alloc, &characters[..count.min(characters.len())]),
        Err(_) => Ok(Err(Kind::InvalidArgument)),
    }
}

// The place of a position, which is none under 1.
pub(crate) fn place_of(position: i64) -> Option<usize>
    ensures { result ≡ place_at position }
{
    match usize::try_from(position) {
        Ok(position) if position > 0 => Some(position - 1),
        _ => None,
    }
}
