//! Beginnings, ends and parts of texts without case, by Unicode's full default folding.
ghost use Rattle.std.specs.Prelude.{◌≡◌, ◌↔◌, IfOk, IsTrue};
ghost use Rattle.caseless.specs.Caseless.{default_case_fold};
ghost use Rattle.fx_types.specs.Words.{scalars_of};
ghost use Rattle.fx_primitives.specs.Folding.{BeginsWithoutCase, EndsWithoutCase};
ghost use Rattle.fx_primitives.specs.Folding.{HasPartWithoutCase};

use crate::search::find_from;
use caseless::Caseless;
use fx_base::Memory;
use fx_types::Words;
use std::alloc::{AllocError, Global};

/// Whether a text begins with a part, without case.
pub fn starts_with(alloc: Global, text: &Words, part: &Words) -> Result<bool, Memory>
    ensures { IfOk result (λ b. IsTrue b ↔ BeginsWithoutCase text.now part.now) }
{
    let part = fold_case(alloc, part)?;
    let text = fold_case(alloc, text)?;
    Ok(text.starts_with(&part))
}

/// Whether a text ends with a part, without case.
pub fn ends_with(alloc: Global, text: &Words, part: &Words) -> Result<bool, Memory>
    ensures { IfOk result (λ b. IsTrue b ↔ EndsWithoutCase text.now part.now) }
{
    let part = fold_case(alloc, part)?;
    let text = fold_case(alloc, text)?;
    Ok(text.ends_with(&part))
}

/// Whether a part stands somewhere in a text, without case.
pub fn contains(alloc: Global, text: &Words, part: &Words) -> Result<bool, Memory>
    ensures { IfOk result (λ b. IsTrue b ↔ HasPartWithoutCase text.now part.now) }
{
    let part = fold_case(alloc, part)?;
    let text = fold_case(alloc, text)?;
    Ok(find_from(&part, &text, 0).is_some())
}

// The scalar values of a text with its case folded.
fn fold_case(alloc: Global, text: &Words) -> Result<Vec<char>, Memory>
    ensures { IfOk result (λ v. v.items ≡ default_case_fold text.now) }
{
    Ok(fold(alloc, text.as_str())?)
}

fn fold(alloc: Global, text: &str) -> Result<Vec<char>, AllocError>
    ensures { IfOk result (λ v. v.items ≡ default_case_fold (scalars_of text.now)) }
{
    text.chars().default_case_fold().collect(alloc)
}
