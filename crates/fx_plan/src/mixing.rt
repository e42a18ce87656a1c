//! Mixed filters: those of a query expression of which some conditions are delegable and some
//! aren't.
ghost use Rattle.std.specs.Prelude.{◌≡◌, ◌≤◌, length, not, option_map, IfOk};
ghost use Rattle.std.specs.List.{list_any};
ghost use Rattle.fx_core.specs.Lawful.{IsLawfulSchema};
ghost use Rattle.fx_core.specs.Term.{all};
ghost use Rattle.fx_plan.specs.Mixed.{are_both as are_both_in, delegable_ones as delegable_in};
ghost use Rattle.fx_plan.specs.Mixed.{is_delegable as is_delegable_in, mix_by as mix_by_in};
ghost use Rattle.fx_plan.specs.Mixed.{mix_of, mix_over as mix_over_in, split_of};
ghost use Rattle.fx_plan.specs.Mixes.{mix_view};

use crate::conditions::pattern_of;
use crate::sketches::sketch_under;
use filter_parts::{Split, part};
use fx_base::Memory;
use fx_core::{Core, CoreArgs, CoreNode, Fun, Schema, TableShape};
use std::alloc::Global;

/// What is told of a mixed filter.
#[derive(Drop)]
pub struct Mix {
    /// The table of its query expression.
    pub table: u16,
    /// For each condition whether it is delegable.
    pub marks: Vec<bool>,
}

/// A mixed filter that stands under so many scopes, as two: its query expression, which is the
/// filter with the delegable conditions, and the other conditions. None where the tree is no mixed
/// filter.
pub fn split(
    alloc: Global,
    schema: &Schema,
    core: &Core,
    depth: u8,
) -> Result<Option<Split>, Memory>
    requires { IsLawfulSchema schema.now }
    ensures { IfOk result (λ s. option_map (λ x. (x.inner, all x.rest)) s
        ≡ split_of schema.now.tables depth core.now) }
{
    match mix_under(alloc, schema, core, u32::from(depth))? {
        Some(mix) => Ok(Some(part(alloc, core, mix.marks.as_slice())?)),
        None => Ok(None),
    }
}

/// The mix of a tree under so many scopes; none where it is no mixed filter.
pub fn mix_under(
    alloc: Global,
    schema: &Schema,
    core: &Core,
    depth: u32,
) -> Result<Option<Mix>, Memory>
    requires { IsLawfulSchema schema.now }
    ensures { IfOk result (λ m. option_map mix_view m ≡ mix_of schema.now.tables depth core.now) }
{
    match &core.node {
        CoreNode::Over(Fun::Filter, rows, conditions) => {
            match sketch_under(alloc, schema, rows, depth)? {
                Some(rows) => mix_over(alloc, schema, rows.table, conditions.as_slice(), depth),
                None => Ok(None),
            }
        }
        _ => Ok(None),
    }
}

// The mix of conditions on rows of a table.
fn mix_over(
    alloc: Global,
    schema: &Schema,
    table: u16,
    conditions: &[Core],
    depth: u32,
) -> Result<Option<Mix>, Memory>
    requires { IsLawfulSchema schema.now }
    ensures { IfOk result (λ m. option_map mix_view m
        ≡ mix_over_in schema.now.tables depth table (all conditions.now)) }
{
    match schema.tables.get(table as usize) {
        Some(shape) => {
            let marks = delegable_ones(alloc, shape, conditions, depth)?;
            Ok(mix_by(table, marks))
        }
        None => Ok(None),
    }
}

// The mix of these marks, if some are set and some aren't.
fn mix_by(table: u16, marks: Vec<bool>) -> Option<Mix>
    ensures { option_map mix_view result ≡ mix_by_in table marks.items }
{
    if are_both(marks.as_slice()) {
        Some(Mix { table, marks })
    } else {
        None
    }
}

fn are_both(marks: &[bool]) -> bool
    ensures { result ≡ are_both_in marks.now }
{
    is_any(marks) && is_any_unset(marks)
}

// Whether some mark is set.
fn is_any(marks: &[bool]) -> bool
    ensures { result ≡ list_any (λ b. b) marks.now }
{
    for mark in marks {
        if *mark {
            return true;
        }
    }
    false
}

// Whether some mark isn't.
fn is_any_unset(marks: &[bool]) -> bool
    ensures { result ≡ list_any not marks.now }
{
    for mark in marks {
        if !*mark {
            return true;
        }
    }
    false
}

// Which of several conditions on rows of a table, which are the rows of this scope, are delegable.
fn delegable_ones(
    alloc: Global,
    table: &TableShape,
    conditions: &[Core],
    scope: u32,
) -> Result<Vec<bool>, Memory>
    requires { length table.now.columns ≤ 63 }
    ensures { IfOk result (λ m. m.items ≡ delegable_in table.now scope (all conditions.now)) }
{
    let mut marks = Vec::new(alloc);
    for condition in conditions {
        marks.push(is_delegable(alloc, table, condition, scope)?)?;
    }
    Ok(marks)
}

// Whether a condition is delegable.
#[tactic(auto, using(crate::proofs::MixedFilters::along_some))]
fn is_delegable(
    alloc: Global,
    table: &TableShape,
    condition: &Core,
    scope: u32,
) -> Result<bool, Memory>
    requires { length table.now.columns ≤ 63 }
    ensures { IfOk result (λ b. b ≡ is_delegable_in table.now scope condition.now) }
{
    let mut constants = CoreArgs::new(alloc);
    let pattern = pattern_of(alloc, table, condition, scope, &mut constants)?;
    Ok(pattern.is_some())
}
