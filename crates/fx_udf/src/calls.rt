//! Which functions call which, and the order of functions.
ghost use Rattle.std.specs.Prelude.{◌≡◌, ◌<◌, ◌≤◌, ◌++◌, ◌^◌, [], length, IfOk, IfErr, OnOk};
ghost use Rattle.depend_graph.specs.Order.{AreBelow, IsAcyclic, IsOrder};
ghost use Rattle.fx_core.specs.Term.{all, field_terms};
ghost use Rattle.fx_udf.specs.Calling.{AllCallWithin, called_among, called_in, calls_from};
ghost use Rattle.fx_udf.specs.Calling.{calls_in, calls_of as calls_by};
ghost use Rattle.fx_udf.specs.Ends.{HasNoOrder};

use crate::end::ExpandEnd;
use depend_graph::{OrderEnd, order};
use fx_base::Memory;
use fx_core::{Core, CoreArgs, CoreFields, CoreNode};
use std::alloc::Global;

/// An order of functions, by their numbers, in which each stands behind all that it calls; or a
/// closed path of calls, which begins and ends with its least number.
pub fn check(alloc: Global, bodies: &[Core]) -> Result<Vec<u32>, ExpandEnd>
    requires { AllCallWithin bodies.now }
    ensures order { IfOk result (λ v. IsOrder (length bodies.now) (calls_in bodies.now) v.items) }
    ensures acyclic { OnOk result (IsAcyclic (calls_in bodies.now)) }
    ensures end { IfErr result (HasNoOrder bodies.now) }
{
    let Ok(count) = u32::try_from(bodies.len()) else {
        return Err(ExpandEnd::Memory);
    };
    let calls = match calls_of(alloc, bodies) {
        Ok(calls) => calls,
        Err(_) => return Err(ExpandEnd::Memory),
    };
    match order(alloc, count, calls.as_slice()) {
        Ok(functions) => Ok(functions),
        Err(OrderEnd::Cycle(path)) => Err(ExpandEnd::Recursion(path)),
        Err(OrderEnd::Memory) => Err(ExpandEnd::Memory),
    }
}

// The calls in bodies, each as the numbers of who calls and who is called.
fn calls_of(alloc: Global, bodies: &[Core]) -> Result<Vec<(u32, u32)>, Memory>
    requires { length bodies.now < 2 ^ 32 }
    ensures { IfOk result (λ v. v.items ≡ calls_in bodies.now) }
{
    let mut calls = Vec::new(alloc);
    for (number, body) in bodies.iter().enumerate() {
        let mut called = Vec::new(alloc);
        gather(body, &mut called)?;
        note(number as u32, called.as_slice(), &mut calls)?;
    }
    Ok(calls)
}

// Notes that a function calls others.
fn note(caller: u32, called: &[u32], calls: &mut Vec<(u32, u32)>) -> Result<(), Memory>
    ensures { OnOk result (calls.new.items ≡ calls.old.items ++ calls_by caller called.now) }
{
    for function in called {
        calls.push((caller, *function))?;
    }
    Ok(())
}

// Gathers the functions that a tree calls.
#[cycle(gather)]
fn gather(core: &Core, called: &mut Vec<u32>) -> Result<(), Memory>
    ensures { OnOk result (called.new.items ≡ called.old.items ++ called_in core.now) }
{
    match &core.node {
        CoreNode::User(function, parts) => {
            called.push(*function)?;
            gather_all(parts, called)
        }
        CoreNode::Const(_) | CoreNode::Read(_) | CoreNode::Row(_) => Ok(()),
        CoreNode::Item | CoreNode::Caught => Ok(()),
        CoreNode::Dot(part, _) | CoreNode::Coerce(part, _) => gather(part, called),
        CoreNode::Over(_, table, parts) => {
            gather(table, called)?;
            gather_all(parts, called)
        }
        CoreNode::With(record, formula) => {
            gather(record, called)?;
            gather(formula, called)
        }
        CoreNode::Rec(fields) => gather_fields(fields, called),
        CoreNode::Call(_, parts)
        | CoreNode::List(_, parts)
        | CoreNode::All(parts)
        | CoreNode::Any(parts)
        | CoreNode::If(parts)
        | CoreNode::Switch(parts)
        | CoreNode::IfError(parts)
        | CoreNode::Chain(parts)
        | CoreNode::Act(_, parts) => gather_all(parts, called),
    }
}

#[cycle(gather)]
fn gather_all(parts: &CoreArgs, called: &mut Vec<u32>) -> Result<(), Memory>
    ensures { OnOk result (called.new.items ≡ called.old.items ++ called_among (all parts.now)) }
{
    let items = parts.as_slice();
    for part in items {
        gather(part, called)?;
    }
    Ok(())
}

#[cycle(gather)]
fn gather_fields(fields: &CoreFields, called: &mut Vec<u32>) -> Result<(), Memory>
    ensures { OnOk result (called.new.items
        ≡ called.old.items ++ called_among (field_terms fields.now)) }
{
    let items = fields.as_slice();
    for (_, part) in items {
        gather(part, called)?;
    }
    Ok(())
}
