//! What formulas read.

/// What a formula's tree names beside its own scopes. Numbers are places in the lists of the app's
/// names, from 0.
#[derive(Clone, Copy, Debug, PartialEq, Eq, PartialOrd, Ord)]
pub enum Source {
    /// The value of a cell, as of a named formula.
    Cell(u32),
    /// A variable without a screen.
    Global(u32),
    /// A variable of a screen.
    Context(u32),
    /// A collection.
    Gathered(u32),
    /// What a control's user gave.
    Input(u32),
    /// The chosen row of a gallery.
    Chosen(u32),
    /// A table of the schema.
    Table(u16),
    /// The day.
    Today,
}
