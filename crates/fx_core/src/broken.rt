//! What is broken, and where.

use crate::rule::Rule;
use fx_types::words::Words;

/// A broken rule.
#[derive(Drop)]
pub struct Broken {
    /// The address of the formula that breaks it, as `S.OnVisible`, or `App` for the whole app.
    pub cell: Words,
    pub rule: Rule,
    /// The byte of the formula at which it is broken, from 0.
    pub at: u32,
    /// What is said besides.
    pub detail: Words,
}
