//! The tokens of a text, with what they mean.
ghost use Rattle.std.specs.Prelude.{◌≡◌, IfOk, true, encode_utf8_all, string_bytes};
ghost use Rattle.std.specs.Str.{chars, all_scalars};
ghost use Rattle.fx_lexer.specs.Lexed.{Lexed};
ghost use Rattle.fx_lexer.specs.Slices.{IsSpeltAs, lexeme_in, lexemes};
ghost use Rattle.fx_lexer.specs.Spelling.{begins_with, doubled};
ghost use Rattle.fx_grammar.specs.Formulas.{HasItems};
ghost use Rattle.fx_grammar.specs.Means.{between_quotes, TokenMeans, AllMean};
ghost use Rattle.fx_grammar.specs.Undoubling.{test_of};
ghost use Rattle.fx_grammar.specs.Meant.{IsValued, in_quotes, IsQuoted, IsSomeDoubled, IsNumberOf};
ghost use Rattle.fx_grammar.specs.Meant.{IsNameOf, IsMeaning, IsSoundToken};

use crate::marks::{Marks, undouble};
use crate::{Item, Meaning};
use fx_base::Memory;
use fx_lexer::{Token, TokenKind};
use fx_number::{Num, read};
use fx_types::words::Words;
use std::alloc::{AllocError, Global};

fn chars_of(alloc: Global, text: &str) -> Result<Vec<char>, AllocError>
    ensures { IfOk result (λ v. v.items ≡ chars text.now) }
{
    text.chars().collect(alloc)
}

fn text_of(alloc: Global, chars: &[char]) -> Result<String, AllocError>
    ensures { IfOk result (λ s. string_bytes s ≡ encode_utf8_all chars.now) }
{
    chars.iter().copied().collect(alloc)
}

fn words_of(alloc: Global, chars: &[char]) -> Result<Words, Memory>
    requires { all_scalars chars.now ≡ true }
    ensures { IfOk result (λ w. w ≡ chars.now) }
{
    let text = text_of(alloc, chars)?;
    Words::of(alloc, text.as_str())
}

/// The text whose marks were doubled.
fn single(alloc: Global, marks: Marks, chars: &[char]) -> Result<Words, Memory>
    requires marks { IsSomeDoubled marks chars.now }
    requires scalars { all_scalars chars.now ≡ true }
    ensures { IfOk result (λ w. chars.now ≡ doubled (test_of marks) w) }
{
    // There is one: each mark in these characters stands doubled.
    let found = undouble(alloc, marks, chars)?.unwrap();
    words_of(alloc, found.as_slice())
}

/// The text between the quotes, each quote in it doubled.
fn unquote(alloc: Global, marks: Marks, chars: &[char]) -> Result<Words, Memory>
    requires quotes { IsQuoted marks chars.now }
    requires scalars { all_scalars chars.now ≡ true }
    ensures { IfOk result (λ w. chars.now ≡ in_quotes marks w) }
{
    single(alloc, marks, &chars[1..chars.len() - 1])
}

/// The number that the digits spell, which is in range.
fn number(text: &str) -> Num
    requires spelt { IsSpeltAs TokenKind.Number (chars text.now) }
    requires value { IsValued TokenKind.Number (chars text.now) }
    ensures { IsNumberOf (chars text.now) result }
{
    // There is one: a token's number is in range.
    read(text).unwrap()
}

/// Whether an apostrophe begins the text.
fn is_quoted(chars: &[char]) -> bool
    ensures { result ≡ begins_with 39 chars.now }
{
    match chars {
        ['\'', ..] => true,
        _ => false,
    }
}

fn name(alloc: Global, text: &str) -> Result<Words, Memory>
    requires { IsSpeltAs TokenKind.Name (chars text.now) }
    ensures { IfOk result (IsNameOf (chars text.now)) }
{
    let chars = chars_of(alloc, text)?;
    if is_quoted(chars.as_slice()) {
        unquote(alloc, Marks::Apostrophe, chars.as_slice())
    } else {
        Words::of(alloc, text)
    }
}

fn text_words(alloc: Global, text: &str) -> Result<Words, Memory>
    requires { IsSpeltAs TokenKind.Text (chars text.now) }
    ensures { IfOk result (λ w. chars text.now ≡ between_quotes 34 w) }
{
    let chars = chars_of(alloc, text)?;
    unquote(alloc, Marks::Quote, chars.as_slice())
}

fn piece(alloc: Global, text: &str) -> Result<Words, Memory>
    requires { IsSpeltAs TokenKind.Piece (chars text.now) }
    ensures { IfOk result (λ w. chars text.now ≡ doubled (test_of Marks.Weave) w) }
{
    let chars = chars_of(alloc, text)?;
    single(alloc, Marks::Weave, chars.as_slice())
}

/// What a text of this kind means.
fn meaning_of(alloc: Global, kind: TokenKind, text: &str) -> Result<Meaning, Memory>
    requires spelt { IsSpeltAs kind (chars text.now) }
    requires value { IsValued kind (chars text.now) }
    ensures { IfOk result (IsMeaning kind (chars text.now)) }
{
    Ok(match kind {
        TokenKind::Number => Meaning::Number(number(text)),
        TokenKind::Text => Meaning::Text(text_words(alloc, text)?),
        TokenKind::Name => Meaning::Name(name(alloc, text)?),
        TokenKind::Word(word) => Meaning::Word(word),
        TokenKind::Symbol(symbol) => Meaning::Symbol(symbol),
        TokenKind::Opening => Meaning::Opening,
        TokenKind::Closing => Meaning::Closing,
        TokenKind::Piece => Meaning::Piece(piece(alloc, text)?),
    })
}

fn item(alloc: Global, source: &str, token: Token) -> Result<Item, Memory>
    requires { IsSoundToken source.now token }
    ensures { IfOk result (λ x. TokenMeans (lexeme_in source.now token) x) }
{
    let text = &source[token.at as usize..token.upto as usize];
    let meaning = meaning_of(alloc, token.kind, text)?;
    Ok(Item {
        at: token.at,
        upto: token.upto,
        meaning,
    })
}

/// The tokens of a text of less than 2^32 bytes, each with what it means: its number, or its text
/// without the marks around it and with each doubled mark made one.
pub fn items(alloc: Global, source: &str, tokens: &[Token]) -> Result<Vec<Item>, Memory>
    requires { Lexed (chars source.now) tokens.now }
    ensures means { IfOk result (λ v. AllMean (lexemes source.now tokens.now) v.items) }
    ensures items { IfOk result (λ v. HasItems (chars source.now) v.items) }
{
    let mut found = Vec::new(alloc);
    for token in tokens {
        found.push(item(alloc, source, *token)?)?;
    }
    Ok(found)
}
