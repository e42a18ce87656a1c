//! What is said of a text that is no formula.
ghost use Rattle.std.specs.Prelude.{◌≡◌, ◌<◌, ◌^◌, List, length, IfOk, IfSome};
ghost use Rattle.std.specs.Str.{chars};
ghost use Rattle.fx_lexer.specs.declared.token.Token.{Token as Tok};
ghost use Rattle.fx_lexer.specs.Lexed.{Lexed};
ghost use Rattle.fx_lexer.specs.Slices.{IsSlice};
ghost use Rattle.fx_parser.specs.Details.{bad_token_words, unexpected_by, unexpected_words};
ghost use Rattle.fx_parser.specs.Details as detail;

use fx_base::Memory;
use fx_lexer::{LexEnd, LexWhat, Token, tokens};
use fx_types::words::Words;
use std::alloc::Global;

/// What is wrong with a bad token, in words.
pub fn bad_token(what: LexWhat) -> &'static str
    ensures { result.now ≡ bad_token_words what }
{
    match what {
        LexWhat::Number => "number",
        LexWhat::TextNotEnded => "text not ended",
        LexWhat::NameNotEnded => "name not ended",
        LexWhat::CommentNotEnded => "comment not ended",
        LexWhat::Character => "character",
    }
}

/// The token that begins at this byte.
#[tactic(auto, using(crate::proofs::Tokens::token_more, crate::proofs::Tokens::token_end))]
fn token_at(tokens: &[Token], at: u32) -> Option<Token>
    ensures { result ≡ detail.token_at at tokens.now }
{
    for token in tokens {
        if token.at == at {
            return Some(*token);
        }
    }
    None
}

/// What is said of the place where a text of less than 2^32 bytes stops being a formula:
/// `unexpected ` and the text of the token that begins at this byte, or `unexpected end` where none
/// does.
pub fn syntax_detail(alloc: Global, source: &str, at: u32) -> Result<Words, Memory>
    requires { length source.now < 2 ^ 32 }
    ensures { IfOk result (λ w. (ts : List Tok) → Lexed (chars source.now) ts
        → w ≡ unexpected_words source.now at ts) }
{
    // The tokens are read again, since an error carries its place alone.
    match tokens(alloc, source) {
        Ok(found) => token_detail(alloc, source, token_at(found.as_slice(), at)),
        Err(LexEnd::Bad(_)) => token_detail(alloc, source, None),
        Err(LexEnd::Memory) => Err(Memory),
    }
}

fn token_detail(alloc: Global, source: &str, token: Option<Token>) -> Result<Words, Memory>
    requires { IfSome token (λ t. IsSlice source.now t) }
    ensures { IfOk result (λ w. w ≡ unexpected_by source.now token) }
{
    match token {
        None => Words::of(alloc, "unexpected end"),
        Some(token) => {
            let mut words = String::from_str(alloc, "unexpected ")?;
            words.push_str(&source[token.at as usize..token.upto as usize])?;
            Words::of(alloc, words.as_str())
        }
    }
}
