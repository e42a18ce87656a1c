//! Reading the tokens of a text, once from left to right.
ghost use Rattle.std.specs.Prelude.{◌≡◌, ◌<◌, ◌≤◌, ◌^◌, ◌↔◌, IsTrue, Option, List, ℕ, length};
ghost use Rattle.std.specs.Prelude.{reverse, IfOk, IfErr};
ghost use Rattle.std.specs.Str.{chars};
ghost use Rattle.fx_lexer.specs.Spelling.{SpellsNumber};
ghost use Rattle.fx_lexer.specs.Lexed.{width, mode_in, enclosing_after, wrong_with, Lexed};
ghost use Rattle.fx_lexer.specs.Lexed.{HasLexemes, IsBadToken, HasNoTokens};
ghost use Rattle.fx_lexer.specs.Slices.{lexemes, AreSlices};
ghost use Rattle.fx_lexer.specs.Next.{IsNext, IsTokenPut};

use crate::element::{Element, Enclosing, Mode};
use crate::scan::longest;
use crate::token::{LexEnd, LexErr, LexWhat, Symbol, Token, TokenKind};
use std::alloc::{AllocError, Global};

/// An element at the front of a text, and how many characters and bytes it has.
#[derive(Clone, Copy)]
struct Front {
    element: Element,
    characters: usize,
    bytes: u32,
}

/// How many bytes the characters take.
#[tactic(auto, using(crate::proofs::Steps::width_more, crate::proofs::Steps::width_end))]
fn width_of(cs: &[char]) -> u32
    requires { width cs.now < 2 ^ 32 }
    ensures { result ≡ width cs.now }
{
    let mut n: u32 = 0;
    for c in cs {
        n += c.len_utf8() as u32;
    }
    n
}

/// Whether an element of this text is in range, as each is that is no number.
fn fits(element: Element, text: &str) -> bool
    ensures { IsTrue result ↔ SpellsNumber element text.now }
{
    match element {
        Element::Token(TokenKind::Number) => fx_number::read(text).is_some(),
        _ => true,
    }
}

/// The element at the front of the text, whose characters are `cs`.
fn next(mode: Mode, cs: &[char], text: &str) -> Option<Front>
    requires same { cs.now ≡ chars text.now }
    requires room { length text.now < 2 ^ 32 }
    ensures { IsNext mode cs.now result }
{
    let (element, characters) = longest(mode, cs)?;
    let (front, _) = cs.split_at(characters);
    let bytes = width_of(front);
    let (front, _) = text.split_at(bytes as usize);
    if fits(element, front) {
        Some(Front {
            element,
            characters,
            bytes,
        })
    } else {
        None
    }
}

/// How the place is read that these marks enclose, the innermost last.
fn mode_of(around: &[Enclosing]) -> Mode
    ensures { result ≡ mode_in (reverse around.now) }
{
    match around {
        [.., Enclosing::Weave] => Mode::Weave,
        _ => Mode::Formula,
    }
}

/// Goes past a token: it may open a weave or a brace, or close the innermost.
fn pass(around: &mut Vec<Enclosing>, kind: TokenKind) -> Result<(), LexEnd>
    ensures marks { IfOk result (λ _. reverse around.new.items
        ≡ enclosing_after kind (reverse around.old.items)) }
    ensures memory { IfErr result (λ e. e ≡ LexEnd.Memory) }
{
    match kind {
        TokenKind::Opening => around.push(Enclosing::Weave)?,
        TokenKind::Symbol(Symbol::OpenBrace) => around.push(Enclosing::Brace)?,
        TokenKind::Closing | TokenKind::Symbol(Symbol::CloseBrace) => {
            around.pop();
        }
        _ => {}
    }
    Ok(())
}

/// What is wrong where no element begins.
fn wrong(mode: Mode, cs: &[char]) -> LexWhat
    ensures { result ≡ wrong_with mode cs.now }
{
    match (mode, cs) {
        (Mode::Formula, ['0'..='9', ..]) => LexWhat::Number,
        (Mode::Formula, ['"', ..]) => LexWhat::TextNotEnded,
        (Mode::Formula, ['\'', ..]) => LexWhat::NameNotEnded,
        (Mode::Formula, ['/', ..]) => LexWhat::CommentNotEnded,
        _ => LexWhat::Character,
    }
}

/// Puts a token down, and goes past it; what is skipped leaves all as it was.
fn put(
    out: &mut Vec<Token>,
    around: &mut Vec<Enclosing>,
    element: Element,
    at: u32,
    upto: u32,
) -> Result<(), LexEnd>
    ensures put { IfOk result (λ _. IsTokenPut element at upto out.old.items out.new.items
        (reverse around.old.items) (reverse around.new.items)) }
    ensures memory { IfErr result (λ e. e ≡ LexEnd.Memory) }
{
    match element {
        Element::Skip => Ok(()),
        Element::Token(kind) => {
            out.push(Token { kind, at, upto })?;
            pass(around, kind)
        }
    }
}

fn read_tokens(alloc: Global, cs: &[char], source: &str) -> Result<Vec<Token>, LexEnd>
    requires same { cs.now ≡ chars source.now }
    requires room { length source.now < 2 ^ 32 }
    ensures tokens { IfOk result (λ v. Lexed cs.now v.items) }
    ensures bad { IfErr result (IsBadToken cs.now) }
{
    let mut out = Vec::new(alloc);
    let mut around = Vec::new(alloc);
    let mut rest = cs;
    // It goes along with `rest`, since only a `&str` is read as a number.
    let mut text = source;
    let mut at: u32 = 0;
    while !rest.is_empty() {
        let mode = mode_of(around.as_slice());
        let Some(front) = next(mode, rest, text) else {
            let what = wrong(mode, rest);
            return Err(LexEnd::Bad(LexErr { at, what }));
        };
        let upto = at + front.bytes;
        put(&mut out, &mut around, front.element, at, upto)?;
        // By `split_at`, which tells the rest plainly: `&rest[n..]` is told as the first so many of
        // what follows.
        let (_, others) = rest.split_at(front.characters);
        let (_, after) = text.split_at(front.bytes as usize);
        rest = others;
        text = after;
        at = upto;
    }
    Ok(out)
}

/// The tokens of a text of less than 2^32 bytes, in order, by the lexical rules of the Power Fx
/// formula reference. Each is a slice of the text, of the greatest length; between them stand white
/// space and comments. `Bad` comes exactly where the text has no list of tokens, and names the byte
/// where the first bad token begins.
// The rules speak of characters, so these are listed once; their bytes are counted on the way.
pub fn tokens(alloc: Global, source: &str) -> Result<Vec<Token>, LexEnd>
    requires { length source.now < 2 ^ 32 }
    ensures tokens { IfOk result (λ v. Lexed (chars source.now) v.items) }
    ensures texts { IfOk result (λ v. HasLexemes (chars source.now) (lexemes source.now v.items)) }
    ensures slices { IfOk result (λ v. AreSlices source.now v.items) }
    ensures bad { IfErr result (IsBadToken (chars source.now)) }
    ensures none { IfErr result (HasNoTokens (chars source.now)) }
{
    let cs = chars_of(alloc, source)?;
    read_tokens(alloc, cs.as_slice(), source)
}

fn chars_of(alloc: Global, source: &str) -> Result<Vec<char>, AllocError>
    ensures { IfOk result (λ v. v.items ≡ chars source.now) }
{
    source.chars().collect(alloc)
}
