//! Steps down to a part of a file.

use fx_types::words::Words;

/// A step down.
#[derive(Drop)]
pub enum Step {
    /// To the member of this key.
    Member(Words),
    /// To the element at this place, from 0.
    Element(usize),
}
