//! What formulas ask of the rows of tables.
ghost use Rattle.fx_core.specs.Lawful.{IsLawfulSchema};

use crate::answer::{Answer, Stop};
use crate::tree::{DEPTH, write_tree};
use fx_core::schema::Schema;
use fx_core::{Core, Site};
use fx_plan::{Pattern, PatternNode, Patterns, Sketch, sites, sketch};

/// Writes the query of a tree that is a query expression, with the trees of its constants; or `no
/// query`. Behind it stand the tree's sites: of each its number, its table, what takes it, and how
/// much of it.
pub fn write_queries(answer: &mut Answer, schema: &Schema, core: &Core)
    requires { IsLawfulSchema schema.now }
{
    match sketch(answer.alloc, schema, core, 0) {
        Ok(Some(query)) => write_sketch(answer, &query),
        Ok(None) => answer.add("no query"),
        Err(_) => answer.stop(Stop::Memory),
    }
    match sites(answer.alloc, schema, core) {
        Ok(sites) => write_sites(answer, schema, &sites),
        Err(_) => answer.stop(Stop::Memory),
    }
}

/// Writes a sketch: its test, the column of its order with `>` where it falls, and its constants.
fn write_sketch(answer: &mut Answer, query: &Sketch) {
    write_pattern(answer, &query.test, DEPTH);
    if let Some((column, falls)) = query.order {
        let order = if falls { ">" } else { "<" };
        answer.add_made(format!(in answer.alloc; " by {order}{column}"));
    }
    for (place, constant) in query.constants.as_slice().iter().enumerate() {
        answer.add_made(format!(in answer.alloc; " #{place} "));
        write_tree(answer, constant, DEPTH);
    }
}

/// Writes a pattern, with `#` before the place of a constant. Columns go by number.
#[cycle(pattern)]
fn write_pattern(answer: &mut Answer, pattern: &Pattern, depth: u32) {
    if depth == 0 {
        return answer.stop(Stop::NoRow);
    }
    let alloc = answer.alloc;
    match &pattern.node {
        PatternNode::All => answer.add("all"),
        PatternNode::Flag(column) => answer.add_made(format!(in alloc; "{column}")),
        PatternNode::Const(at) => answer.add_made(format!(in alloc; "#{at}")),
        PatternNode::Compare(op, column, at) => {
            answer.add_made(format!(in alloc; "{column} {op:?} #{at}"));
        }
        PatternNode::IsBlank(column) => answer.add_made(format!(in alloc; "{column} blank")),
        PatternNode::Starts(column, at) => {
            answer.add_made(format!(in alloc; "{column} starts #{at}"));
        }
        PatternNode::Contains(column, at) => {
            answer.add_made(format!(in alloc; "{column} has #{at}"));
        }
        PatternNode::And(parts) => write_patterns(answer, "and(", parts, depth - 1),
        PatternNode::Or(parts) => write_patterns(answer, "or(", parts, depth - 1),
        PatternNode::Not(part) => {
            answer.add("not ");
            write_pattern(answer, part, depth - 1);
        }
    }
}

/// Writes patterns behind what joins them.
#[cycle(pattern)]
fn write_patterns(answer: &mut Answer, head: &str, parts: &Patterns, depth: u32) {
    answer.add(head);
    for (place, part) in parts.as_slice().iter().enumerate() {
        answer.add_comma(place);
        write_pattern(answer, part, depth);
    }
    answer.add(")");
}

/// Writes the sites of a tree.
fn write_sites(answer: &mut Answer, schema: &Schema, sites: &[Site]) {
    for site in sites {
        let table = match schema.tables.get(site.table as usize) {
            Some(table) => table.name.as_str(),
            None => "?",
        };
        let number = site.number;
        let by = site.by.as_str();
        let taken = if site.delegated { "whole" } else { "first" };
        answer.add_made(format!(in answer.alloc; "; {number} {table} {by} {taken}"));
    }
}
