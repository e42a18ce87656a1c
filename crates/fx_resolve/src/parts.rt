//! The parts of a node as they were judged.

use crate::meanings::Meaning;
use fx_types::words::Words;
use fx_typing::{Piece, Typed};

/// A part of a node as it was judged.
#[derive(Drop)]
pub enum Part<'a> {
    /// A value, or the name of a column.
    Piece(Piece),
    /// What a name left of a dot means, where that is no value.
    Meant(Meaning<'a>),
    /// The name of what changes, behind the name of its rows if it has one.
    Target(Option<Words>, Words),
    /// The names of variables of a screen, and the values that they are given.
    Assigned(Vec<Words>, Vec<Typed>),
}
