//! Tokens, and why a text has none.
ghost use Rattle.std.specs.Prelude.{◌≡◌};

use fx_number::Memory;
use std::alloc::{AllocError, AllocFailed};

/// A name that is kept for an operator or a value.
#[derive(Clone, Copy, Debug)]
pub enum Word {
    And,
    Or,
    Not,
    In,
    ExactIn,
    As,
    True,
    False,
}

/// A mark of one or two characters.
#[derive(Clone, Copy, Debug)]
pub enum Symbol {
    OpenParen,
    CloseParen,
    OpenBrace,
    CloseBrace,
    OpenBracket,
    CloseBracket,
    /// `[@`
    OpenBracketAt,
    Comma,
    Semicolon,
    Colon,
    Dot,
    Plus,
    Minus,
    Star,
    Slash,
    Caret,
    Percent,
    Ampersand,
    DoubleAmpersand,
    DoubleBar,
    Bang,
    Equal,
    NotEqual,
    Less,
    LessEqual,
    Greater,
    GreaterEqual,
}

/// What a token is.
#[derive(Clone, Copy, Debug)]
pub enum TokenKind {
    /// Digits, and maybe a point and digits.
    Number,
    /// A text between double quotes.
    Text,
    /// A name, plain or between single quotes.
    Name,
    Word(Word),
    Symbol(Symbol),
    /// `$"`, which opens a weave: a text with islands.
    Opening,
    /// `"`, which closes a weave.
    Closing,
    /// A part of a weave's text.
    Piece,
}

/// The text of the source from the byte `at` up to but without the byte `upto`.
#[derive(Clone, Copy)]
pub struct Token {
    pub kind: TokenKind,
    pub at: u32,
    pub upto: u32,
}

/// What is wrong with a bad token.
#[derive(Clone, Copy)]
pub enum LexWhat {
    /// A number that is out of range.
    Number,
    TextNotEnded,
    /// A quoted name that does not end, or that is empty.
    NameNotEnded,
    CommentNotEnded,
    /// A character that begins no token.
    Character,
}

/// The first bad token: the byte where it begins, and what is wrong with it.
#[derive(Clone, Copy)]
pub struct LexErr {
    pub at: u32,
    pub what: LexWhat,
}

/// Why no tokens are answered.
#[derive(Clone, Copy)]
pub enum LexEnd {
    Bad(LexErr),
    Memory,
}

impl From<Memory> for LexEnd {
    ghost use Rattle.fx_lexer.specs.declared.token.LexEnd.TheVariants.{Memory};

    ghost from_gives = { λ _ e. e ≡ Memory };

    fn from(_: Memory) -> LexEnd {
        LexEnd::Memory
    }
}

impl From<AllocError> for LexEnd {
    ghost use Rattle.fx_lexer.specs.declared.token.LexEnd.TheVariants.{Memory};

    ghost from_gives = { λ _ e. e ≡ Memory };

    fn from(_: AllocError) -> LexEnd {
        LexEnd::Memory
    }
}

impl<T: Drop> From<AllocFailed<T>> for LexEnd {
    ghost use Rattle.fx_lexer.specs.declared.token.LexEnd.TheVariants.{Memory};

    ghost from_gives = { λ _ e. e ≡ Memory };

    fn from(_: AllocFailed<T>) -> LexEnd {
        LexEnd::Memory
    }
}
