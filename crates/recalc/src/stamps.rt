//! When a kept value was checked, and since when it is what it is.

/// The numbers of a kept value. A greater one was given later.
#[derive(Clone, Copy, Debug, PartialEq, Eq)]
pub struct Stamp {
    /// When it was last known to be right.
    pub checked: u64,
    /// When it last became another one.
    pub moved: u64,
}
