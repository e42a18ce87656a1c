//! Names, between quotes where they are not plain.
ghost use Rattle.std.specs.Prelude.{◌≡◌, ◌++◌, IfOk, OnOk};
ghost use Rattle.std.specs.Str.{chars};
ghost use Rattle.fx_lexer.specs.Spelling.{class_at, in_name, is_mark, doubled};
ghost use Rattle.fx_lexer.specs.Scan.{word_at};
ghost use Rattle.fx_grammar.specs.Means.{between_quotes};
ghost use Rattle.fx_parser.specs.Printing.{begins_name, all_in_name, is_some_word, name_text};
ghost use Rattle.fx_parser.specs.Printing.{is_plain_name as plain};

use crate::writer::{Doubling, Writer, push_doubled};
use fx_base::Memory;
use fx_types::words::Words;
use std::alloc::{AllocError, Global};

fn chars_of(alloc: Global, text: &str) -> Result<Vec<char>, AllocError>
    ensures { IfOk result (λ v. v.items ≡ chars text.now) }
{
    text.chars().collect(alloc)
}

/// Whether a plain name can begin with this character.
#[tactic(auto, unfolding(fx_lexer::specs::Spelling::class_at))]
fn is_letter(c: char) -> bool
    ensures { result ≡ begins_name (class_at c) }
{
    if c.is_whitespace() {
        false
    } else if c.is_ascii_digit() {
        false
    } else {
        c >= '\u{80}' || c.is_ascii_alphabetic() || c == '_'
    }
}

/// Whether a plain name can go on with this character.
#[tactic(auto, unfolding(fx_lexer::specs::Spelling::class_at))]
fn is_in_name(c: char) -> bool
    ensures { result ≡ in_name c }
{
    if c.is_whitespace() {
        false
    } else if c.is_ascii_digit() {
        true
    } else {
        c >= '\u{80}' || c.is_ascii_alphabetic() || c == '_'
    }
}

#[tactic(auto, using(crate::proofs::Writing::names_more, crate::proofs::Writing::names_end))]
fn are_in_name(cs: &[char]) -> bool
    ensures { result ≡ all_in_name cs.now }
{
    for c in cs {
        if !is_in_name(*c) {
            return false;
        }
    }
    true
}

fn is_word(name: &[char]) -> bool
    ensures { result ≡ is_some_word (word_at name.now) }
{
    match name {
        ['O', 'r'] => true,
        ['i', 'n'] => true,
        ['A', 's'] => true,
        ['A', 'n', 'd'] => true,
        ['N', 'o', 't'] => true,
        ['t', 'r', 'u', 'e'] => true,
        ['f', 'a', 'l', 's', 'e'] => true,
        ['e', 'x', 'a', 'c', 't', 'i', 'n'] => true,
        _ => false,
    }
}

fn is_plain(name: &[char]) -> bool
    ensures { result ≡ plain name.now }
{
    match name {
        [] => false,
        [first, others @ ..] => is_letter(*first) && are_in_name(others) && !is_word(name),
    }
}

/// Adds a name, between quotes where it is not plain.
pub fn write_name(alloc: Global, name: &Words, out: &mut Writer) -> Result<(), Memory>
    ensures { OnOk result (out.new ≡ out.old ++ name_text name.now) }
{
    let cs = chars_of(alloc, name.as_str())?;
    if is_plain(cs.as_slice()) {
        return out.push_text(name.as_str());
    }
    out.push_plain("'")?;
    push_doubled(out, Doubling::NameQuote, cs.as_slice())?;
    out.push_plain("'")
}

/// Adds a text between quotes.
pub fn write_quoted(alloc: Global, text: &Words, out: &mut Writer) -> Result<(), Memory>
    ensures { OnOk result (out.new ≡ out.old ++ between_quotes 34 text.now) }
{
    let cs = chars_of(alloc, text.as_str())?;
    out.push_plain("\"")?;
    push_doubled(out, Doubling::Quote, cs.as_slice())?;
    out.push_plain("\"")
}

/// Adds a piece of a weave's text.
pub fn write_piece(alloc: Global, text: &Words, out: &mut Writer) -> Result<(), Memory>
    ensures { OnOk result (out.new ≡ out.old ++ doubled is_mark text.now) }
{
    let cs = chars_of(alloc, text.as_str())?;
    push_doubled(out, Doubling::Marks, cs.as_slice())
}
