//! Formulas with what they come to as they are judged, or with the rules that they break.
ghost use Rattle.std.specs.Prelude.{◌≤◌};
ghost use Rattle.fx_infer.specs.Below.{tree_depth};
ghost use Rattle.fx_core.specs.Lawful.{IsLawfulSchema};

use crate::answer::{Answer, Stop};
use crate::place::place_formula;
use crate::queries::write_queries;
use crate::rounds::write_rounds;
use crate::tree::{DEPTH, write_tree};
use crate::types::write_type;
use app_names::is_lawful;
use fx_core::names::Names;
use fx_core::schema::Schema;
use fx_core::{Core, line as broken_line};
use fx_infer::{InferEnd, Written, elaborate};
use fx_plan::limit_queries;
use fx_types::types::Ty;

/// The row limit.
const LIMIT: u32 = 500;

/// What is written of a formula.
#[derive(Clone, Copy)]
enum Shown {
    /// Its type and its typed tree.
    Tree,
    /// What it asks of the rows of tables.
    Queries,
    /// The tree in which query expressions that aren't taken whole give their first rows.
    Limits,
}

/// Writes a line with its answer.
pub fn write_row(answer: &mut Answer, names: &Names, line: &str) {
    answer.add(line);
    if line.is_empty() || line.starts_with("#") {
        return;
    }
    answer.add(" -> ");
    let (place, text) = line.split_once(" ").unwrap_or((line, ""));
    match place {
        "rounds" => write_rounds(answer, text),
        "queries" => write_formula(answer, names, Shown::Queries, "acts", text),
        "limits" => write_formula(answer, names, Shown::Limits, "acts", text),
        _ => write_formula(answer, names, Shown::Tree, place, text),
    }
}

/// Writes what a formula comes to in the place of this word.
fn write_formula(answer: &mut Answer, names: &Names, shown: Shown, place: &str, text: &str) {
    match place_formula(answer.alloc, place, text) {
        Ok(cell) => judge(answer, names, shown, &cell),
        Err(why) => answer.stop(why),
    }
}

/// Writes what a formula comes to where it is written, or the rule that it breaks.
fn judge(answer: &mut Answer, names: &Names, shown: Shown, cell: &Written)
    requires { tree_depth cell.now.expr ≤ 64 }
{
    if !is_lawful(names) {
        return answer.stop(Stop::NoRow);
    }
    match elaborate(answer.alloc, names, cell) {
        Ok(typed) => write_typed(answer, &names.schema, shown, &typed.ty, &typed.core),
        Err(InferEnd::Broken(broken)) => answer.add_made(broken_line(answer.alloc, &broken)),
        Err(InferEnd::Memory) => answer.stop(Stop::Memory),
    }
}

/// Writes what is to be shown of a formula.
fn write_typed(answer: &mut Answer, schema: &Schema, shown: Shown, ty: &Ty, core: &Core)
    requires { IsLawfulSchema schema.now }
{
    match shown {
        Shown::Tree => {
            write_type(answer, ty, DEPTH);
            answer.add(" by ");
            write_tree(answer, core, DEPTH);
        }
        Shown::Queries => write_queries(answer, schema, core),
        Shown::Limits => write_limited(answer, schema, core),
    }
}

/// Writes the tree in which no more rows are taken than may be.
fn write_limited(answer: &mut Answer, schema: &Schema, core: &Core)
    requires { IsLawfulSchema schema.now }
{
    match limit_queries(answer.alloc, schema, LIMIT, core) {
        Ok(core) => write_tree(answer, &core, DEPTH),
        Err(_) => answer.stop(Stop::Memory),
    }
}
