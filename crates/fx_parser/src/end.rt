//! Why a text has no tree.
ghost use Rattle.std.specs.Prelude.{◌≡◌};

use fx_base::Memory;
use fx_lexer::LexErr;
use std::alloc::{AllocError, AllocFailed};

/// Why a text is no formula, or no named formulas. Places are bytes, counted from 0.
#[derive(Clone, Copy)]
pub enum ParseEnd {
    /// The first token that is none.
    Lex(LexErr),
    /// There is no tree: here the first token begins at which none can go on, or the text ends.
    Syntax(u32),
    /// There is a tree, and it is deeper than 64: here the first node or pair of brackets begins,
    /// in the order in which they end, that is 65 deep.
    TooDeep(u32),
    Memory,
}

impl From<Memory> for ParseEnd {
    ghost use Rattle.fx_parser.specs.declared.end.ParseEnd.TheVariants.{Memory};

    ghost from_gives = { λ _ e. e ≡ Memory };

    fn from(_: Memory) -> ParseEnd {
        ParseEnd::Memory
    }
}

impl From<AllocError> for ParseEnd {
    ghost use Rattle.fx_parser.specs.declared.end.ParseEnd.TheVariants.{Memory};

    ghost from_gives = { λ _ e. e ≡ Memory };

    fn from(_: AllocError) -> ParseEnd {
        ParseEnd::Memory
    }
}

impl<T: Drop> From<AllocFailed<T>> for ParseEnd {
    ghost use Rattle.fx_parser.specs.declared.end.ParseEnd.TheVariants.{Memory};

    ghost from_gives = { λ _ e. e ≡ Memory };

    fn from(_: AllocFailed<T>) -> ParseEnd {
        ParseEnd::Memory
    }
}
