//! Why a node isn't admitted.

use fx_base::OrMemory;
use fx_core::Rule;
use fx_types::words::Words;

/// A node that is broken while all its parts are admitted.
#[derive(Drop)]
pub struct Flaw {
    /// The byte of the formula, from 0, at which the node begins.
    pub at: u32,
    /// The rule that it breaks.
    pub rule: Rule,
    /// What is said besides.
    pub detail: Words,
}

/// Why a node isn't admitted: it, or a node in it, is broken, or memory ran out.
pub type Halt = OrMemory<Flaw>;
