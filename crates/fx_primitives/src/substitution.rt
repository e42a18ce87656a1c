//! Texts with an old text in them replaced by a new one.
ghost use Rattle.std.specs.Prelude.{◌≡◌, ◌+◌, ◌<◌, ◌≤◌, IfOk, MatchOption, None, Some, length};
ghost use Rattle.fx_primitives.specs.Substitution.{AreAllOccurrences, AreOccurrences, AreSeparate};
ghost use Rattle.fx_primitives.specs.Substitution.{IsSubstituted, replaced_at, substitute_of};
ghost use Rattle.fx_primitives.specs.Texts.{longest, text_or_quota};

use crate::characters::{LONGEST, characters, text_of};
use crate::search::find_from;
use crate::text_parts::{place_of, splice};
use fx_base::Memory;
use fx_types::{Kind, Words};
use std::alloc::Global;

/// The text with all separate occurrences of an old text, from the left, replaced by a new one, or
/// the one of a number counted from 1 alone, if there is one. An empty old text has none.
/// `InvalidArgument` exactly for a number under 1, and `QuotaExceeded` exactly where the answer is
/// too long.
pub fn substitute(
    alloc: Global,
    text: &Words,
    old: &Words,
    new: &Words,
    number: Option<i64>,
) -> Result<Result<Words, Kind>, Memory>
    ensures { IfOk result (IsSubstituted text.now old.now new.now number) }
{
    let text = characters(alloc, text)?;
    let old = characters(alloc, old)?;
    let new = characters(alloc, new)?;
    let places = all_occurrences(alloc, &old, &text)?;
    match number {
        None => replace_all(alloc, &text, old.len(), &new, &places),
        Some(number) => replace_one(alloc, &text, old.len(), &new, &places, number),
    }
}

// The places of the separate occurrences of an old text, from the left.
fn all_occurrences(alloc: Global, old: &[char], text: &[char]) -> Result<Vec<usize>, Memory>
    ensures value { IfOk result (λ v. AreAllOccurrences old.now text.now v.items) }
    ensures separate { IfOk result (λ v. AreSeparate (length old.now) (length text.now) 0 v.items) }
{
    if old.is_empty() {
        Ok(Vec::new(alloc))
    } else {
        occurrences(alloc, old, text)
    }
}

// The same of an old text that is not empty. Apart, since the loop ends only where each turn goes
// past a text that isn't empty.
fn occurrences(alloc: Global, old: &[char], text: &[char]) -> Result<Vec<usize>, Memory>
    requires { 0 < length old.now }
    ensures value { IfOk result (λ v. AreOccurrences old.now text.now 0 v.items) }
    ensures separate { IfOk result (λ v. AreSeparate (length old.now) (length text.now) 0 v.items) }
{
    let mut places = Vec::new(alloc);
    let mut from = 0;
    'search: while let Some(place) = find_from(old, text, from) {
        places.push(place)?;
        from = place + old.len();
    }
    Ok(places)
}

// The text with so many characters at each of these places replaced.
fn replace_all(
    alloc: Global,
    text: &[char],
    count: usize,
    new: &[char],
    places: &[usize],
) -> Result<Result<Words, Kind>, Memory>
    requires { AreSeparate count (length text.now) 0 places.now }
    ensures { IfOk result (λ r. r ≡ substitute_of count new.now text.now places.now None) }
{
    match splice_at(alloc, text, count, new, places)? {
        Some(made) => text_of(alloc, &made),
        None => Ok(Err(Kind::QuotaExceeded)),
    }
}

// The same characters, or none as soon as there are too many for a text.
fn splice_at(
    alloc: Global,
    text: &[char],
    count: usize,
    new: &[char],
    places: &[usize],
) -> Result<Option<Vec<char>>, Memory>
    requires { AreSeparate count (length text.now) 0 places.now }
    ensures { IfOk result (λ o. let all = replaced_at count new.now text.now places.now in
        MatchOption o (longest < length all) (λ v. v.items ≡ all)) }
{
    let mut made = Vec::new(alloc);
    let mut from = 0;
    for place in places {
        made.extend_from_slice(&text[from..*place])?;
        made.extend_from_slice(new)?;
        // As many characters have at least as many bytes.
        if made.len() > LONGEST {
            return Ok(None);
        }
        from = *place + count;
    }
    made.extend_from_slice(&text[from..])?;
    Ok(Some(made))
}

// The text with so many characters at the place of this number, counted from 1, replaced.
fn replace_one(
    alloc: Global,
    text: &[char],
    count: usize,
    new: &[char],
    places: &[usize],
    number: i64,
) -> Result<Result<Words, Kind>, Memory>
    ensures { IfOk result (λ r. r ≡ substitute_of count new.now text.now places.now (Some number)) }
{
    let Some(index) = place_of(number) else {
        return Ok(Err(Kind::InvalidArgument));
    };
    match places.get(index) {
        Some(place) => text_of(alloc, &splice(alloc, text, *place, count, new)?),
        None => text_of(alloc, text),
    }
}
