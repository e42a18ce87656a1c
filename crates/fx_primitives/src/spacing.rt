//! Texts without needless spaces.
ghost use Rattle.std.specs.Prelude.{◌≡◌, IfOk, drop};
ghost use Rattle.std.specs.List.{prefix_len};
ghost use Rattle.fx_primitives.specs.Texts.{begins_word as begins_word_of, text_or_quota};
ghost use Rattle.fx_primitives.specs.Texts.{single_spaced as single_spaced_of, trimmed};
ghost use Rattle.fx_number.specs.Reading.{is_space as is_space_at};

use crate::characters::{characters, text_of};
use fx_base::Memory;
use fx_types::{Kind, Words};
use std::alloc::Global;

/// The text without spaces at its ends, and with one for each run of spaces between. Only U+0020 is
/// a space. `QuotaExceeded` exactly where the answer is too long.
pub fn trim(alloc: Global, text: &Words) -> Result<Result<Words, Kind>, Memory>
    ensures { IfOk result (λ r. r ≡ text_or_quota (trimmed text.now)) }
{
    let text = characters(alloc, text)?;
    text_of(alloc, &collapse_spaces(alloc, skip_spaces(&text))?)
}

// What follows the spaces at the front.
fn skip_spaces(characters: &[char]) -> &[char]
    ensures { result.now ≡ drop (prefix_len is_space_at characters.now) characters.now }
{
    for (i, character) in characters.iter().enumerate() {
        if !is_space(*character) {
            return &characters[i..];
        }
    }
    &characters[characters.len()..]
}

// The characters without the spaces that another space or the end follows.
fn collapse_spaces(alloc: Global, characters: &[char]) -> Result<Vec<char>, Memory>
    ensures { IfOk result (λ v. v.items ≡ single_spaced_of characters.now) }
{
    let mut kept = Vec::new(alloc);
    for (i, character) in characters.iter().enumerate() {
        if !is_space(*character) || begins_word(&characters[i + 1..]) {
            kept.push(*character)?;
        }
    }
    Ok(kept)
}

fn begins_word(characters: &[char]) -> bool
    ensures { result ≡ begins_word_of characters.now }
{
    match characters {
        [first, ..] => !is_space(*first),
        [] => false,
    }
}

fn is_space(character: char) -> bool
    ensures { result ≡ is_space_at character }
{
    character == ' '
}
