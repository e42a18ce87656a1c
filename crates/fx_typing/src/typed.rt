//! Typed trees with their types, and parts of a node.

use fx_core::Core;
use fx_types::types::Ty;
use fx_types::words::Words;

/// A typed tree and its type.
#[derive(Drop)]
pub struct Typed {
    pub core: Core,
    pub ty: Ty,
}

/// A part of a node as it was judged.
#[derive(Drop)]
pub enum Piece {
    /// A value, with the name of its rows if it has one.
    Value(Option<Words>, Typed),
    /// The name of a column.
    Label(Words),
}
