//! What an app has beside its formulas.

use fx_core::{ControlList, Schema, ScreenList};

/// What an app has beside its formulas.
#[derive(Drop)]
pub struct Frame {
    pub schema: Schema,
    /// The most rows of a query that isn't delegated: 1 to 2,000.
    pub limit: u32,
    /// The names of its screens.
    pub screens: ScreenList,
    /// The controls of all screens, in the order of the app. The types of items are Blank.
    pub controls: ControlList,
}
