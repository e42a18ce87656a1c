//! Texts without the marks around them, each doubled mark made one.
ghost use Rattle.std.specs.Prelude.{◌≡◌, ◌<◌, IfOk, IfSome, option_map, length};
ghost use Rattle.fx_grammar.specs.Undoubling.{test_of, step_at, undoubled, step_seen};

use fx_base::Memory;
use std::alloc::Global;

/// What is doubled in a text.
#[derive(Clone, Copy)]
pub enum Marks {
    /// `"`
    Quote,
    /// `'`
    Apostrophe,
    /// `"`, `{` and `}`, in a weave.
    Weave,
}

fn is_doubled(marks: Marks, c: char) -> bool
    ensures { result ≡ test_of marks c }
{
    match marks {
        Marks::Quote => c == '"',
        Marks::Apostrophe => c == '\'',
        Marks::Weave => c == '"' || (c == '{' || c == '}'),
    }
}

/// The first character of the text without doubled marks, and what follows it; None where a mark
/// stands alone.
fn step(marks: Marks, chars: &[char]) -> Option<Option<(char, &[char])>>
    ensures value { step_seen result ≡ step_at (test_of marks) chars.now }
    ensures shorter { IfSome result (λ o. IfSome o (λ x. length x.1.now < length chars.now)) }
{
    match chars {
        [] => Some(None),
        [c, others @ ..] => {
            if is_doubled(marks, *c) {
                match others {
                    [] => None,
                    [d, rest @ ..] => {
                        if *d == *c {
                            Some(Some((*c, rest)))
                        } else {
                            None
                        }
                    }
                }
            } else {
                Some(Some((*c, others)))
            }
        }
    }
}

/// The text whose marks were doubled, or None where a mark stands alone.
pub fn undouble(alloc: Global, marks: Marks, chars: &[char]) -> Result<Option<Vec<char>>, Memory>
    ensures { IfOk result (λ o. option_map (λ v. v.items) o ≡ undoubled (test_of marks) chars.now) }
{
    let mut out = Vec::new(alloc);
    let mut rest = chars;
    while let Some(next) = step(marks, rest) {
        match next {
            None => return Ok(Some(out)),
            Some((c, others)) => {
                out.push(c)?;
                rest = others;
            }
        }
    }
    Ok(None)
}
