//! Changes of a session.

use fx_types::values::Value;
use fx_types::words::Words;

/// A change of a session. Numbers are places in the lists of the app's names, from 0.
#[derive(Drop)]
pub enum Change {
    /// A variable without a screen gets a value.
    Global(u32, Value),
    /// A variable of a screen gets a value.
    Context(u32, Value),
    /// A collection becomes this table.
    Gather(u32, Value),
    /// A collection becomes empty.
    Empty(u32),
    /// A control gets the user's input, which isn't blank, or loses it.
    Input(u32, Option<Value>),
    /// A gallery gets a chosen item: its position from 1, and its id where it has one.
    Choose(u32, u32, Option<u32>),
    /// A screen becomes the current one.
    Screen(u32),
    /// A notice more.
    Notice(Words),
}
