//! Classes of characters, and what a text is made of.
ghost use Rattle.std.specs.Prelude.{◌≡◌};
ghost use Rattle.fx_lexer.specs.Spelling.{class_at, in_name, in_number, in_line, is_mark};
ghost use Rattle.fx_lexer.specs.Scan.{passes};

use crate::token::TokenKind;

/// What a character can be a part of.
// Proofs then go by four cases, and not by all the characters that are white space.
#[derive(Clone, Copy)]
pub enum Class {
    White,
    Digit,
    Letter,
    Other,
}

/// White space and comments are skipped.
#[derive(Clone, Copy)]
pub enum Element {
    Skip,
    Token(TokenKind),
}

/// What an opening mark encloses, up to its closing mark.
#[derive(Clone, Copy)]
pub enum Enclosing {
    Weave,
    Brace,
}

/// Whether a place is in a formula or in the text of a weave.
#[derive(Clone, Copy)]
pub enum Mode {
    Formula,
    Weave,
}

/// What a run of characters is made of.
// An enum, so that one loop serves all runs; a closure would need a promise of its own that it may
// be called.
#[derive(Clone, Copy)]
pub enum Run {
    Name,
    Digits,
    Line,
}

#[tactic(auto, unfolding(crate::specs::Spelling::class_at))]
pub fn class_of(c: char) -> Class
    ensures { result ≡ class_at c }
{
    if c.is_whitespace() {
        Class::White
    } else if c.is_ascii_digit() {
        Class::Digit
    } else if c >= '\u{80}' || c.is_ascii_alphabetic() || c == '_' {
        Class::Letter
    } else {
        Class::Other
    }
}

pub fn is_in(run: Run, c: char) -> bool
    ensures { result ≡ passes run c }
{
    match run {
        Run::Name => is_in_name(c),
        Run::Digits => is_digit(c),
        Run::Line => c != '\n',
    }
}

fn is_in_name(c: char) -> bool
    ensures { result ≡ in_name c }
{
    match class_of(c) {
        Class::Digit => true,
        Class::Letter => true,
        Class::White => false,
        Class::Other => false,
    }
}

fn is_digit(c: char) -> bool
    ensures { result ≡ in_number c }
{
    match class_of(c) {
        Class::Digit => true,
        Class::Letter => false,
        Class::White => false,
        Class::Other => false,
    }
}

/// Whether a character is doubled in a weave's text.
pub fn is_weave_mark(c: char) -> bool
    ensures { result ≡ is_mark c }
{
    c == '"' || c == '{' || c == '}'
}
