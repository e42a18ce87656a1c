//! What acting parts of a formula do, and to what.
ghost use Rattle.std.specs.Prelude.{◌≡◌, IfOk};

use crate::sources::Source;
use fx_base::{InOrder, Memory};
use std::alloc::Global;

/// Rows that change: those of a table of the schema, or of a collection.
#[derive(Clone, Copy)]
pub enum Target {
    Table(u16),
    Gathered(u32),
}

/// Sources in order.
pub type Sources = InOrder<Source>;

/// What an acting part does. Numbers are places in the lists of the app's names, from 0.
#[derive(Drop)]
pub enum Deed {
    /// Sets this global variable.
    Set(u32),
    /// Sets these variables of a screen, one for each part.
    UpdateContext(Sources),
    /// Adds rows to this collection.
    Collect(u32),
    /// Empties this collection.
    Clear(u32),
    /// Empties this collection and adds rows to it.
    ClearCollect(u32),
    /// Makes or changes a row.
    Patch(Target),
    /// Takes rows away.
    Remove(Target),
    /// Takes the rows of a filter away.
    RemoveIf(Target),
    /// Changes the rows of a filter.
    UpdateIf(Target),
    /// Shows this screen.
    Navigate(u32),
    /// Tells the user a text.
    Notify,
    /// Takes the user's input of this control away.
    Reset(u32),
}

impl Deed {
    /// The same deed.
    pub fn copy(&self, alloc: Global) -> Result<Deed, Memory>
        ensures { IfOk result (λ d. d ≡ self.now) }
    {
        Ok(match self {
            Deed::Set(variable) => Deed::Set(*variable),
            Deed::UpdateContext(variables) => Deed::UpdateContext(variables.copy(alloc)?),
            Deed::Collect(collection) => Deed::Collect(*collection),
            Deed::Clear(collection) => Deed::Clear(*collection),
            Deed::ClearCollect(collection) => Deed::ClearCollect(*collection),
            Deed::Patch(target) => Deed::Patch(*target),
            Deed::Remove(target) => Deed::Remove(*target),
            Deed::RemoveIf(target) => Deed::RemoveIf(*target),
            Deed::UpdateIf(target) => Deed::UpdateIf(*target),
            Deed::Navigate(screen) => Deed::Navigate(*screen),
            Deed::Notify => Deed::Notify,
            Deed::Reset(control) => Deed::Reset(*control),
        })
    }
}
