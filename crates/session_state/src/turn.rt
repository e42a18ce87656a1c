//! What the number of a request means.

/// What the number of a request means.
#[derive(Clone, Copy, PartialEq, Eq)]
pub enum Turn {
    /// It is the next number.
    New,
    /// It is the last request once more.
    Again,
    /// It is the last number with another body.
    Reused,
    /// It is another number. The last one is told.
    OutOfStep(u32),
}
