//! An accepted app.

use crate::cell::Cell;
use fx_base::InOrder;
use fx_core::{Core, Names, Site, Sources};
use fx_types::types::Ty;

/// Where a formula takes rows of tables.
pub type SiteList = InOrder<Site>;

/// A formula of an accepted app.
#[derive(Drop)]
pub struct CellInfo {
    /// The formula as it is written.
    pub cell: Cell,
    /// Its typed tree.
    pub core: Core,
    /// The type of the tree.
    pub ty: Ty,
    /// What the tree names, each once, in the order of sources.
    pub reads: Sources,
    /// The sources, cells aside, that it or a formula to which a path of leaning leads from it
    /// names, each once, in the order of sources.
    pub support: Sources,
    /// The tree in which each query expression that isn't taken whole gives its first rows, as many
    /// as the app's row limit. It is the one that is evaluated.
    pub taken: Core,
    /// Where the formula takes rows of tables, in the order in which its query expressions begin.
    pub sites: SiteList,
}

/// An accepted app.
pub struct App {
    /// What its formulas may name, with the types that these have, and its tables, screens and
    /// controls.
    pub names: Names,
    /// Its formulas: named formulas by the order of their text, what runs at the start, and for
    /// each screen what runs when it is shown, and the properties of its controls.
    pub cells: InOrder<CellInfo>,
    /// The numbers of all its formulas, each behind those that it leans on.
    pub order: InOrder<u32>,
    /// The most rows of a query that isn't delegated: 1 to 2,000.
    pub limit: u32,
}

// By hand, so that it is called: what is derived is opened wherever a value may end, which costs
// proofs seconds each time.
impl Drop for App {
    fn drop(self) {
        let App {
            names: _,
            cells: _,
            order: _,
            limit: _,
        } = self;
    }
}
