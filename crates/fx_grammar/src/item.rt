//! Tokens with what they mean.

use fx_lexer::{Symbol, Word};
use fx_number::Num;
use fx_types::words::Words;

/// A token: the byte where it begins, the byte behind it, and what it means.
#[derive(Drop)]
pub struct Item {
    pub at: u32,
    pub upto: u32,
    pub meaning: Meaning,
}

/// What a token means: its kind, and what its text stands for.
#[derive(Drop)]
pub enum Meaning {
    /// A number, as its digits say.
    Number(Num),
    /// A text without its quotes, each doubled quote made one.
    Text(Words),
    /// A name, without quotes.
    Name(Words),
    Word(Word),
    Symbol(Symbol),
    /// `$"`
    Opening,
    /// `"` behind a weave.
    Closing,
    /// A part of a weave's text, each doubled mark made one.
    Piece(Words),
}
