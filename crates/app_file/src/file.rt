//! What an app file holds.

use fx_base::InOrder;
use fx_core::Schema;
use fx_types::controls::Control;
use fx_types::words::Words;

/// A property that is written.
#[derive(Drop)]
pub struct PropertyText {
    pub name: Words,
    /// The text of its formula. An empty one is no formula.
    pub text: Words,
}

/// A control.
#[derive(Drop)]
pub struct ControlShape {
    pub name: Words,
    pub kind: Control,
    /// The place of the gallery that it stands in among the controls of its screen, from 0: of the
    /// first gallery of the name that is written.
    pub gallery: Option<usize>,
    /// The properties that are written: Visible, the others that are pure, and those that act.
    pub properties: InOrder<PropertyText>,
}

/// A screen.
#[derive(Drop)]
pub struct ScreenShape {
    pub name: Words,
    /// The text of the formula that runs when the screen is shown. An empty one is no formula.
    pub on_visible: Words,
    pub controls: InOrder<ControlShape>,
}

/// An app as its file writes it.
#[derive(Drop)]
pub struct AppFile {
    pub schema: Schema,
    /// The most rows of a query that isn't delegated: 1 to 2,000.
    pub row_limit: u32,
    /// The text of the named formulas.
    pub formulas: Words,
    /// The text of the formula that runs when a session is opened. An empty one is no formula.
    pub on_start: Words,
    pub screens: InOrder<ScreenShape>,
}
