//! The order in which things can be evaluated that read one another, or a closed path among them.
#![tactic(auto)]

ghost use Rattle.std.specs.Prelude.{IfOk, IfErr, OnOk};
ghost use Rattle.depend_graph.specs.Order.{AreBelow, IsAcyclic, IsOrder};
ghost use Rattle.depend_graph.specs.Ends.{HasOrderCause};

mod closed_path;
mod end;
mod lists;
mod search;
mod state;

pub use end::OrderEnd;
use search::Search;
use std::alloc::Global;

/// The numbers below `count` in an order in which each stands behind all that it reads, where an
/// edge (a, b) says that a reads b; or a closed path of edges, which begins and ends with its least
/// number.
///
/// The path is the first that a search finds which goes down from the least number, and to lesser
/// numbers first. The time is that of one look at each number and three at each edge.
pub fn order(alloc: Global, count: u32, edges: &[(u32, u32)]) -> Result<Vec<u32>, OrderEnd>
    requires { AreBelow count edges.now }
    ensures order { IfOk result (λ order. IsOrder count edges.now order.items) }
    ensures acyclic { OnOk result (IsAcyclic edges.now) }
    ensures end { IfErr result (HasOrderCause edges.now) }
{
    let readers = lists::readers(alloc, count, edges)?;
    // Turned twice: what each number reads then rises, whatever the order of the edges, and nothing
    // is sorted.
    let reads = lists::transpose(alloc, count, readers.as_slice())?;
    let mut search = Search::new(alloc, count)?;
    for number in 0..count {
        search.visit(alloc, reads.as_slice(), number)?;
    }
    Ok(search.into_order())
}
