//! What an event acts on.

/// What an event acts on. Numbers are places in the lists of the app's names, from 0.
#[derive(Clone, Copy, Debug, PartialEq, Eq)]
pub struct Target {
    /// The number of the control.
    pub control: u32,
    /// The item, of a gallery or of a control in one.
    pub item: Option<Item>,
}

/// An item of a gallery.
#[derive(Clone, Copy, Debug, PartialEq, Eq)]
pub struct Item {
    /// The number of the gallery.
    pub gallery: u32,
    /// The item's position, from 1.
    pub at: u32,
    /// The `ID` of its row, where that is a whole number from 1 to 4,294,967,295.
    pub id: Option<u32>,
}
