//! A text's scalar values, and the text of scalar values.
ghost use Rattle.std.specs.Prelude.{◌≡◌, IfOk};
ghost use Rattle.fx_types.specs.Words.{scalars_of};
ghost use Rattle.fx_primitives.specs.Texts.{text_or_quota};

use fx_base::Memory;
use fx_types::{Kind, Words};
use std::alloc::{AllocError, Global};

/// The most bytes of UTF-8 of a text that a formula makes.
pub(crate) const LONGEST: usize = 65_536;

/// The scalar values of a text.
// Positions count characters, and a text in UTF-8 has these at no fixed bytes.
pub(crate) fn characters(alloc: Global, text: &Words) -> Result<Vec<char>, Memory>
    ensures { IfOk result (λ v. v.items ≡ text.now) }
{
    Ok(chars_of(alloc, text.as_str())?)
}

fn chars_of(alloc: Global, text: &str) -> Result<Vec<char>, AllocError>
    ensures { IfOk result (λ v. v.items ≡ scalars_of text.now) }
{
    text.chars().collect(alloc)
}

/// The text of these scalar values. `QuotaExceeded` exactly where it has more than 65,536 bytes.
pub(crate) fn text_of(alloc: Global, characters: &[char]) -> Result<Result<Words, Kind>, Memory>
    ensures { IfOk result (λ r. r ≡ text_or_quota characters.now) }
{
    let mut text = String::new(alloc);
    for character in characters {
        text.push(*character)?;
    }
    words_of(alloc, text.as_str())
}

/// The text of these bytes. `QuotaExceeded` exactly where there are more than 65,536.
pub(crate) fn words_of(alloc: Global, text: &str) -> Result<Result<Words, Kind>, Memory>
    ensures { IfOk result (λ r. r ≡ text_or_quota (scalars_of text.now)) }
{
    if text.len() > LONGEST {
        return Ok(Err(Kind::QuotaExceeded));
    }
    Ok(Ok(Words::of(alloc, text)?))
}
