//! How far a search has come with a number.

/// How far a search has come with a number.
#[derive(Clone, Copy)]
pub(crate) enum State {
    /// It hasn't been seen.
    New,
    /// It stands on the path, at this place, and so many of what it reads are still to be looked
    /// at.
    // `left` counts down, since the sum over all numbers is what falls with each step.
    Open { place: usize, left: usize },
    /// It and all that it leads to is in the order.
    Done,
}
