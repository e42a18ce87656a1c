//! The tokens of a formula.
#![tactic(auto)]

mod element;
mod laws;
mod lexer;
mod scan;
mod token;

pub use laws::{one_bad_token, one_list_of_tokens};
pub use lexer::tokens;
pub use token::{LexEnd, LexErr, LexWhat, Symbol, Token, TokenKind, Word};
