//! Texts joined, and in lower and upper case.
ghost use Rattle.std.specs.Prelude.{◌≡◌, IfOk, map};
ghost use Rattle.std.specs.Char.{to_ascii_lowercase, to_ascii_uppercase};
ghost use Rattle.fx_primitives.specs.Texts.{text_or_quota, joined, lower_of, upper_of};

use crate::characters::{characters, text_of, words_of};
use fx_base::Memory;
use fx_types::{Kind, Words};
use std::alloc::{AllocError, Global};

/// The texts joined in order. `QuotaExceeded` exactly where the answer is too long.
pub fn concatenate(alloc: Global, texts: &[Words]) -> Result<Result<Words, Kind>, Memory>
    ensures { IfOk result (λ r. r ≡ text_or_quota (joined texts.now)) }
{
    let mut made = String::new(alloc);
    for text in texts {
        made.push_str(text.as_str())?;
    }
    words_of(alloc, made.as_str())
}

/// The text with A to Z as a to z. `QuotaExceeded` exactly where it is too long.
pub fn lower(alloc: Global, text: &Words) -> Result<Result<Words, Kind>, Memory>
    ensures { IfOk result (λ r. r ≡ lower_of text.now) }
{
    let text = characters(alloc, text)?;
    text_of(alloc, &lower_all(alloc, &text)?)
}

/// The text with a to z as A to Z. `QuotaExceeded` exactly where it is too long.
pub fn upper(alloc: Global, text: &Words) -> Result<Result<Words, Kind>, Memory>
    ensures { IfOk result (λ r. r ≡ upper_of text.now) }
{
    let text = characters(alloc, text)?;
    text_of(alloc, &raise_all(alloc, &text)?)
}

fn lower_all(alloc: Global, characters: &[char]) -> Result<Vec<char>, AllocError>
    ensures { IfOk result (λ v. v.items ≡ map to_ascii_lowercase characters.now) }
{
    characters
        .iter()
        .map(|character| character.to_ascii_lowercase())
        .collect(alloc)
}

fn raise_all(alloc: Global, characters: &[char]) -> Result<Vec<char>, AllocError>
    ensures { IfOk result (λ v. v.items ≡ map to_ascii_uppercase characters.now) }
{
    characters
        .iter()
        .map(|character| character.to_ascii_uppercase())
        .collect(alloc)
}
