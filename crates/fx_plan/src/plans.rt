//! Queries of sketches.
ghost use Rattle.std.specs.Prelude.{◌≡◌, ◌≤◌, ◌⊎◌, false, length, map, IfOk};
ghost use Rattle.std.specs.List.{list_any};
ghost use Rattle.fx_types.specs.ValueView.{view};
ghost use Rattle.fx_plan.specs.Plans.{CanPlan, IsPlan, IsReachBy, is_fault as is_error};
ghost use Rattle.fx_plan.specs.Ranges.{TakesComparisons};
ghost use Rattle.row_queries.specs.Queries.{IsIndexed, IsQuery};
ghost use Rattle.row_queries.specs.Ranges.{AreRangesRising, HoldEveryKey};

use crate::filling::fill;
use crate::patterns::Pattern;
use crate::ranges::{Reach, everything, ranges_of};
use fx_base::Memory;
use fx_core::{CoreArgs, Schema, TableShape};
use fx_types::Value;
use row_queries::{Query, Test};
use std::alloc::Global;

/// A query of a table without its constants, which are formulas beside it.
#[derive(Drop)]
pub struct Sketch {
    pub table: u16,
    pub test: Pattern,
    /// The column that the rows are ordered by, and whether it falls; else `ID`.
    pub order: Option<(u16, bool)>,
    pub constants: CoreArgs,
}

/// The query of a sketch with these values of its constants, which takes at most so many rows.
/// Where a constant is an error, its ranges are everything.
pub fn plan(
    alloc: Global,
    schema: &Schema,
    sketch: &Sketch,
    constants: &[Value],
    take: Option<u32>,
) -> Result<Query, Memory>
    requires { CanPlan schema.now.tables sketch.now (map view constants.now) }
    ensures plan { IfOk result (λ q. IsPlan schema.now.tables sketch.now (map view constants.now)
        take q) }
    ensures query { IfOk result (λ q. IsQuery schema.now.tables q) }
{
    let test = fill(alloc, &sketch.test, constants)?;
    match schema.tables.get(sketch.table as usize) {
        Some(table) => {
            let reach = reach_of(alloc, table, &test, constants)?;
            Ok(Query {
                table: sketch.table,
                column: reach.column,
                ranges: reach.ranges,
                test,
                order: sketch.order,
                take,
            })
        }
        None => unreachable!(),
    }
}

// The ranges of a test with these constants.
fn reach_of(
    alloc: Global,
    table: &TableShape,
    test: &Test,
    constants: &[Value],
) -> Result<Reach, Memory>
    requires taken { list_any is_error (map view constants.now) ≡ false
        → TakesComparisons table.now test.now }
    requires few { length table.now.columns ≤ 63 }
    ensures ranges { IfOk result (λ r. IsReachBy (list_any is_error (map view constants.now))
        table.now test.now r) }
    ensures within { IfOk result (λ r. r.column ≤ length table.now.columns) }
    ensures rises { IfOk result (λ r. AreRangesRising r.ranges) }
    ensures reaches { IfOk result (λ r. IsIndexed table.now r.column ⊎ HoldEveryKey r.ranges) }
{
    if has_error(constants) {
        everything(alloc)
    } else {
        ranges_of(alloc, table, test)
    }
}

/// Whether a constant is an error.
pub fn has_error(constants: &[Value]) -> bool
    ensures { result ≡ list_any is_error (map view constants.now) }
{
    for constant in constants {
        if is_fault(constant) {
            return true;
        }
    }
    false
}

fn is_fault(value: &Value) -> bool
    ensures { result ≡ is_error (view value.now) }
{
    matches!(value, Value::Fault(_))
}
