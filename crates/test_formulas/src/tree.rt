//! Typed trees as texts.

use crate::answer::{Answer, Stop};
use crate::types::write_type;
use fx_core::deeds::Deed;
use fx_core::{Core, CoreNode, Fun};
use fx_types::words::Words;
use view_text::plain;

/// The deepest tree and type that is written.
pub const DEPTH: u32 = 100;

/// Writes a typed tree: a function with its parts, `as` before the type that a part is coerced to.
#[cycle(tree)]
pub fn write_tree(answer: &mut Answer, core: &Core, depth: u32) {
    if depth == 0 {
        return answer.stop(Stop::NoRow);
    }
    let depth = depth - 1;
    match &core.node {
        CoreNode::Const(value) => answer.add_made(plain(answer.alloc, value)),
        CoreNode::Read(source) => answer.add_made(format!(in answer.alloc; "{source:?}")),
        CoreNode::Row(place) => answer.add_made(format!(in answer.alloc; "Row({place})")),
        CoreNode::Item => answer.add("Item"),
        CoreNode::Caught => answer.add("Caught"),
        CoreNode::Dot(part, name) => {
            write_tree(answer, part, depth);
            answer.add(".");
            answer.add(name.as_str());
        }
        CoreNode::Call(fun, parts) => {
            write_name(answer, fun);
            write_parts(answer, "(", parts.as_slice(), depth);
        }
        CoreNode::User(function, parts) => {
            answer.add_made(format!(in answer.alloc; "User {function}"));
            write_parts(answer, "(", parts.as_slice(), depth);
        }
        CoreNode::Over(fun, table, parts) => {
            write_name(answer, fun);
            answer.add("(");
            write_tree(answer, table, depth);
            let comma = if parts.is_empty() { "" } else { ", " };
            write_parts(answer, comma, parts.as_slice(), depth);
        }
        CoreNode::With(record, formula) => {
            answer.add("With(");
            write_tree(answer, record, depth);
            answer.add(", ");
            write_tree(answer, formula, depth);
            answer.add(")");
        }
        CoreNode::Rec(fields) => write_fields(answer, fields.as_slice(), depth),
        CoreNode::List(_, parts) => write_parts(answer, "List(", parts.as_slice(), depth),
        CoreNode::All(parts) => write_parts(answer, "All(", parts.as_slice(), depth),
        CoreNode::Any(parts) => write_parts(answer, "Any(", parts.as_slice(), depth),
        CoreNode::If(parts) => write_parts(answer, "If(", parts.as_slice(), depth),
        CoreNode::Switch(parts) => write_parts(answer, "Switch(", parts.as_slice(), depth),
        CoreNode::IfError(parts) => write_parts(answer, "IfError(", parts.as_slice(), depth),
        CoreNode::Coerce(part, ty) => {
            answer.add("(");
            write_tree(answer, part, depth);
            answer.add(" as ");
            write_type(answer, ty, DEPTH);
            answer.add(")");
        }
        CoreNode::Chain(parts) => write_parts(answer, "Chain(", parts.as_slice(), depth),
        CoreNode::Act(deed, parts) => {
            answer.add(deed_name(deed));
            write_parts(answer, "(", parts.as_slice(), depth);
        }
    }
}

/// Writes parts behind what begins them, and the bracket that ends them.
#[cycle(tree)]
fn write_parts(answer: &mut Answer, head: &str, parts: &[Core], depth: u32) {
    answer.add(head);
    for (place, part) in parts.iter().enumerate() {
        answer.add_comma(place);
        write_tree(answer, part, depth);
    }
    answer.add(")");
}

/// Writes the fields of a record.
#[cycle(tree)]
fn write_fields(answer: &mut Answer, fields: &[(Words, Core)], depth: u32) {
    answer.add("{");
    for (place, (name, part)) in fields.iter().enumerate() {
        answer.add_comma(place);
        answer.add(name.as_str());
        answer.add(": ");
        write_tree(answer, part, depth);
    }
    answer.add("}");
}

/// Writes the name of a function.
fn write_name(answer: &mut Answer, fun: &Fun) {
    answer.add_made(format!(in answer.alloc; "{fun:?}"));
}

/// The name of a deed.
fn deed_name(deed: &Deed) -> &'static str {
    match deed {
        Deed::Set(_) => "Set",
        Deed::UpdateContext(_) => "UpdateContext",
        Deed::Collect(_) => "Collect",
        Deed::Clear(_) => "Clear",
        Deed::ClearCollect(_) => "ClearCollect",
        Deed::Patch(_) => "Patch",
        Deed::Remove(_) => "Remove",
        Deed::RemoveIf(_) => "RemoveIf",
        Deed::UpdateIf(_) => "UpdateIf",
        Deed::Navigate(_) => "Navigate",
        Deed::Notify => "Notify",
        Deed::Reset(_) => "Reset",
    }
}
