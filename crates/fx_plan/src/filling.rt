//! Patterns with their constants.
ghost use Rattle.std.specs.Prelude.{◌≡◌, ◌<◌, length, map, IfOk};
ghost use Rattle.fx_types.specs.ValueView.{view};
ghost use Rattle.fx_plan.specs.Outlines.{AreWithin, IsWithin, all_filled as all_filled_of};
ghost use Rattle.fx_plan.specs.Outlines.{filled as filled_of, outline_list, constant_at};
ghost use Rattle.row_queries.specs.Conditions.{condition_list};

use crate::patterns::{Pattern, PatternNode};
use fx_base::Memory;
use fx_types::Value;
use row_queries::{Test, TestNode, Tests};
use std::alloc::Global;

/// The test of a pattern with these constants in their places.
#[cycle(fill)]
pub fn fill(alloc: Global, pattern: &Pattern, constants: &[Value]) -> Result<Test, Memory>
    requires { IsWithin (length constants.now) pattern.now }
    ensures { IfOk result (λ t. t ≡ filled_of (map view constants.now) pattern.now) }
{
    let node = match &pattern.node {
        PatternNode::All => TestNode::All,
        PatternNode::Flag(column) => TestNode::Flag(*column),
        PatternNode::Const(at) => TestNode::Const(constant(alloc, constants, *at)?),
        PatternNode::Compare(op, column, at) => {
            TestNode::Compare(*op, *column, constant(alloc, constants, *at)?)
        }
        PatternNode::IsBlank(column) => TestNode::IsBlank(*column),
        PatternNode::Starts(column, at) => {
            TestNode::Starts(*column, constant(alloc, constants, *at)?)
        }
        PatternNode::Contains(column, at) => {
            TestNode::Contains(*column, constant(alloc, constants, *at)?)
        }
        PatternNode::And(parts) => TestNode::And(fill_all(alloc, parts.as_slice(), constants)?),
        PatternNode::Or(parts) => TestNode::Or(fill_all(alloc, parts.as_slice(), constants)?),
        PatternNode::Not(part) => { TestNode::Not(Box::new(alloc, fill(alloc, part, constants)?)?) }
    };
    Ok(Test { node })
}

// The tests of several patterns.
#[cycle(fill)]
fn fill_all(alloc: Global, patterns: &[Pattern], constants: &[Value]) -> Result<Tests, Memory>
    requires { AreWithin (length constants.now) (outline_list patterns.now) }
    ensures { IfOk result (λ ts. condition_list ts
        ≡ all_filled_of (map view constants.now) (outline_list patterns.now)) }
{
    let mut tests = Tests::new(alloc);
    for pattern in patterns {
        tests.push(fill(alloc, pattern, constants)?)?;
    }
    Ok(tests)
}

// The constant at a place.
fn constant(alloc: Global, constants: &[Value], at: u32) -> Result<Value, Memory>
    requires { at < length constants.now }
    ensures { IfOk result (λ v. view v ≡ constant_at (map view constants.now) at) }
{
    constants[at as usize].copy(alloc)
}
