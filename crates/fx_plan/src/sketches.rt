//! Sketches of query expressions.
ghost use Rattle.std.specs.Prelude.{◌≡◌, IfOk};
ghost use Rattle.fx_plan.specs.QueryExpressions.{filter_sketch as filtered_in};
ghost use Rattle.fx_plan.specs.QueryExpressions.{is_falling as is_falling_in, sketch_of};
ghost use Rattle.fx_plan.specs.QueryExpressions.{sorted as sorted_in, sorted_by as sorted_by_in};
ghost use Rattle.fx_plan.specs.QueryExpressions.{table_sketch as whole_table_in};
ghost use Rattle.fx_core.specs.Lawful.{IsLawfulSchema};
ghost use Rattle.fx_core.specs.Term.{all};

use crate::conditions::{patterns_of, plain_column};
use crate::patterns::{Pattern, PatternNode, Patterns};
use crate::plans::Sketch;
use fx_base::Memory;
use fx_core::{Core, CoreArgs, CoreNode, Fun, Schema, SortOrder, Source};
use std::alloc::Global;

/// The sketch of a tree that stands under so many scopes; none where it is no query expression.
pub fn sketch(
    alloc: Global,
    schema: &Schema,
    core: &Core,
    depth: u8,
) -> Result<Option<Sketch>, Memory>
    requires { IsLawfulSchema schema.now }
    ensures { IfOk result (λ s. s ≡ sketch_of schema.now.tables depth core.now) }
{
    sketch_under(alloc, schema, core, u32::from(depth))
}

/// The same under any number of scopes.
#[cycle(sketch)]
pub fn sketch_under(
    alloc: Global,
    schema: &Schema,
    core: &Core,
    depth: u32,
) -> Result<Option<Sketch>, Memory>
    requires { IsLawfulSchema schema.now }
    ensures { IfOk result (λ s. s ≡ sketch_of schema.now.tables depth core.now) }
{
    match &core.node {
        CoreNode::Read(Source::Table(table)) => Ok(whole_table(alloc, schema, *table)),
        CoreNode::Over(Fun::Filter, rows, conditions) => {
            match sketch_under(alloc, schema, rows, depth)? {
                Some(rows) => filter_sketch(alloc, schema, rows, conditions.as_slice(), depth),
                None => Ok(None),
            }
        }
        CoreNode::Over(Fun::Sort(order), rows, keys) => {
            match sketch_under(alloc, schema, rows, depth)? {
                Some(rows) => Ok(sort_sketch(schema, rows, *order, keys.as_slice(), depth)),
                None => Ok(None),
            }
        }
        _ => Ok(None),
    }
}

// All rows of a table.
fn whole_table(alloc: Global, schema: &Schema, table: u16) -> Option<Sketch>
    ensures { result ≡ whole_table_in schema.now.tables table }
{
    match schema.tables.get(table as usize) {
        Some(_) => Some(Sketch {
            table,
            test: Pattern {
                node: PatternNode::All,
            },
            order: None,
            constants: CoreArgs::new(alloc),
        }),
        None => None,
    }
}

/// The rows that meet all conditions besides; none where one isn't delegable.
pub fn filter_sketch(
    alloc: Global,
    schema: &Schema,
    rows: Sketch,
    conditions: &[Core],
    depth: u32,
) -> Result<Option<Sketch>, Memory>
    requires { IsLawfulSchema schema.now }
    ensures { IfOk result (λ s. s ≡ filtered_in schema.now.tables depth (all conditions.now) rows) }
{
    let Some(shape) = schema.tables.get(rows.table as usize) else {
        return Ok(None);
    };
    let Sketch {
        table,
        test,
        order,
        mut constants,
    } = rows;
    let mut front = Patterns::new(alloc);
    front.push(test)?;
    match patterns_of(alloc, shape, conditions, depth, front, &mut constants)? {
        Some(tests) => Ok(Some(Sketch {
            table,
            test: Pattern {
                node: PatternNode::And(tests),
            },
            order,
            constants,
        })),
        None => Ok(None),
    }
}

// Rows that have no order yet in the order of the one key, which is a plain column.
fn sort_sketch(
    schema: &Schema,
    rows: Sketch,
    order: SortOrder,
    keys: &[Core],
    depth: u32,
) -> Option<Sketch>
    requires { IsLawfulSchema schema.now }
    ensures { result ≡ sorted_in schema.now.tables depth order (all keys.now) rows }
{
    match keys {
        [] => None,
        [key] => {
            if rows.order.is_some() {
                None
            } else {
                sorted_by(schema, rows, order, key, depth)
            }
        }
        [_, _, ..] => None,
    }
}

fn sorted_by(
    schema: &Schema,
    rows: Sketch,
    order: SortOrder,
    key: &Core,
    depth: u32,
) -> Option<Sketch>
    requires { IsLawfulSchema schema.now }
    ensures { result ≡ sorted_by_in schema.now.tables depth order key.now rows }
{
    let shape = schema.tables.get(rows.table as usize)?;
    let column = plain_column(shape, key, depth)?;
    Some(Sketch {
        order: Some((column, is_falling(order))),
        ..rows
    })
}

fn is_falling(order: SortOrder) -> bool
    ensures { result ≡ is_falling_in order }
{
    match order {
        SortOrder::Ascending => false,
        SortOrder::Descending => true,
    }
}
