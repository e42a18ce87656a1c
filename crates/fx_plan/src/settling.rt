//! Puts the values of constants in their places.
ghost use Rattle.std.specs.Prelude.{◌≡◌, suc, map, IfOk};
ghost use Rattle.fx_types.specs.ValueView.{view};
ghost use Rattle.fx_plan.specs.Outlines.{constant_at};
ghost use Rattle.fx_plan.specs.Settled.{as_value, call_settled, condition_settled};
ghost use Rattle.fx_plan.specs.Settled.{conditions_settled, query_settled as query_settled_in};
ghost use Rattle.fx_plan.specs.Settled.{search_settled, with_first};
ghost use Rattle.fx_core.specs.Term.{all};

use crate::conditions::is_constant;
use fx_base::Memory;
use fx_core::{Core, CoreArgs, CoreNode};
use fx_types::Value;
use std::alloc::Global;

/// A query expression under so many scopes, with these values in the places of its constants.
pub fn settled_query(
    alloc: Global,
    query: &Core,
    depth: u32,
    values: &[Value],
) -> Result<Core, Memory>
    ensures { IfOk result (λ q. q ≡ (query_settled_in depth (map view values.now) query.now).0) }
{
    let mut place = 0;
    query_from(alloc, query, depth, values, &mut place)
}

/// A call over a query expression, with the values in the places of the constants of that; the
/// other parts stay.
pub fn settled_call(
    alloc: Global,
    call: &Core,
    depth: u32,
    values: &[Value],
) -> Result<Core, Memory>
    ensures { IfOk result (λ c. c ≡ call_settled depth (map view values.now) call.now) }
{
    match &call.node {
        CoreNode::Over(fun, table, parts) => {
            let table = settled_query(alloc, table, depth, values)?;
            let parts = parts.copy(alloc)?;
            Ok(Core {
                node: CoreNode::Over(*fun, Box::new(alloc, table)?, parts),
            })
        }
        _ => call.copy(alloc),
    }
}

/// The same for a search, whose first other part is one more condition.
pub fn settled_search(
    alloc: Global,
    search: &Core,
    depth: u32,
    values: &[Value],
) -> Result<Core, Memory>
    ensures { IfOk result (λ c. c ≡ search_settled depth (map view values.now) search.now) }
{
    match &search.node {
        CoreNode::Over(fun, table, parts) => {
            let mut place = 0;
            let table = query_from(alloc, table, depth, values, &mut place)?;
            let parts = first_settled(alloc, parts.as_slice(), depth, values, &mut place)?;
            Ok(Core {
                node: CoreNode::Over(*fun, Box::new(alloc, table)?, parts),
            })
        }
        _ => search.copy(alloc),
    }
}

// A query expression, whose constants are the first.
#[cycle(query)]
fn query_from(
    alloc: Global,
    query: &Core,
    depth: u32,
    values: &[Value],
    place: &mut u32,
) -> Result<Core, Memory>
    requires { place.old ≡ 0 }
    ensures { IfOk result (λ q. (q, place.new)
        ≡ query_settled_in depth (map view values.now) query.now) }
{
    match &query.node {
        CoreNode::Over(fun, table, parts) => {
            let table = query_from(alloc, table, depth, values, place)?;
            let parts = conditions(alloc, parts.as_slice(), depth, values, place)?;
            Ok(Core {
                node: CoreNode::Over(*fun, Box::new(alloc, table)?, parts),
            })
        }
        _ => query.copy(alloc),
    }
}

// Parts of which the first is a condition.
fn first_settled(
    alloc: Global,
    parts: &[Core],
    depth: u32,
    values: &[Value],
    place: &mut u32,
) -> Result<CoreArgs, Memory>
    ensures { IfOk result (λ cs. cs ≡ with_first depth (map view values.now) parts.now place.old) }
{
    let mut settled = CoreArgs::new(alloc);
    let Some((first, others)) = parts.split_first() else {
        return Ok(settled);
    };
    settled.push(condition(alloc, first, depth, values, place)?)?;
    for part in others {
        settled.push(part.copy(alloc)?)?;
    }
    Ok(settled)
}

// A condition, whose first constant is the one at this place; then the place is that of the next.
#[cycle(condition)]
fn condition(
    alloc: Global,
    part: &Core,
    depth: u32,
    values: &[Value],
    place: &mut u32,
) -> Result<Core, Memory>
    ensures { IfOk result (λ c. (c, place.new)
        ≡ condition_settled depth (map view values.now) part.now place.old) }
{
    if is_constant(part, depth) {
        return next_value(alloc, values, place);
    }
    match &part.node {
        CoreNode::All(parts) => {
            let parts = conditions(alloc, parts.as_slice(), depth, values, place)?;
            Ok(Core {
                node: CoreNode::All(parts),
            })
        }
        CoreNode::Any(parts) => {
            let parts = conditions(alloc, parts.as_slice(), depth, values, place)?;
            Ok(Core {
                node: CoreNode::Any(parts),
            })
        }
        CoreNode::Call(fun, parts) => {
            let parts = conditions(alloc, parts.as_slice(), depth, values, place)?;
            Ok(Core {
                node: CoreNode::Call(*fun, parts),
            })
        }
        _ => part.copy(alloc),
    }
}

#[cycle(condition)]
fn conditions(
    alloc: Global,
    parts: &[Core],
    depth: u32,
    values: &[Value],
    place: &mut u32,
) -> Result<CoreArgs, Memory>
    ensures { IfOk result (λ cs. (all cs, place.new)
        ≡ conditions_settled depth (map view values.now) (all parts.now) place.old) }
{
    let mut settled = CoreArgs::new(alloc);
    for part in parts {
        settled.push(condition(alloc, part, depth, values, place)?)?;
    }
    Ok(settled)
}

// The value at this place as a tree; then the place is the next.
fn next_value(alloc: Global, values: &[Value], place: &mut u32) -> Result<Core, Memory>
    ensures { IfOk result (λ c. (c ≡ as_value (constant_at (map view values.now) place.old))
        × (place.new ≡ suc place.old)) }
{
    let value = match values.get(*place as usize) {
        Some(value) => value.copy(alloc)?,
        None => Value::Blank,
    };
    let Some(next) = place.checked_add(1) else {
        return Err(Memory);
    };
    *place = next;
    Ok(Core {
        node: CoreNode::Const(value),
    })
}
