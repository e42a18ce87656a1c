//! Calls over a table parted by marks: those of their parts that are marked stay in the call, and
//! the others stand by themselves.
#![tactic(auto)]

ghost use Rattle.std.specs.Prelude.{◌≡◌, IfOk};
ghost use Rattle.fx_core.specs.Term.{all};
ghost use Rattle.filter_parts.specs.Splits.{marked, split_with, unmarked};

use fx_base::Memory;
use fx_core::{Core, CoreArgs, CoreNode, make_core};
use std::alloc::Global;

/// A filter whose conditions are parted.
#[derive(Drop)]
pub struct Split {
    /// The filter with the conditions that are marked.
    pub inner: Core,
    /// The other conditions, in their order.
    pub rest: CoreArgs,
}

/// Parts a filter by marks, one for each of its conditions: those that are marked stay in it.
/// Of a tree that is no call over a table all stays.
pub fn part(alloc: Global, tree: &Core, marks: &[bool]) -> Result<Split, Memory>
    ensures { IfOk result (λ s. (s.inner, all s.rest) ≡ split_with marks.now tree.now) }
{
    match &tree.node {
        CoreNode::Over(fun, table, parts) => {
            let (chosen, rest) = part_items(alloc, parts.as_slice(), marks)?;
            let inner = make_core::call_over(alloc, *fun, table.copy(alloc)?, chosen)?;
            Ok(Split { inner, rest })
        }
        _ => Ok(Split {
            inner: tree.copy(alloc)?,
            rest: CoreArgs::new(alloc),
        }),
    }
}

// The trees that are marked, and the others.
fn part_items(alloc: Global, parts: &[Core], marks: &[bool]) -> Result<(CoreArgs, CoreArgs), Memory>
    ensures chosen { IfOk result (λ p. all p.0 ≡ marked marks.now (all parts.now)) }
    ensures others { IfOk result (λ p. all p.1 ≡ unmarked marks.now (all parts.now)) }
{
    let mut chosen = CoreArgs::new(alloc);
    let mut others = CoreArgs::new(alloc);
    for (part, marked) in parts.iter().zip(marks) {
        let copy = part.copy(alloc)?;
        if *marked {
            chosen.push(copy)?;
        } else {
            others.push(copy)?;
        }
    }
    Ok((chosen, others))
}
