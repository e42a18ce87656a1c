//! What is seen of typed trees by looking at them: the columns of the types that they name rise, at
//! every depth.
ghost use Rattle.fx_semantics.specs.NamedTypes.{HasLawfulTypes, HaveLawfulTypes};
ghost use Rattle.fx_core.specs.Term.{all, field_terms};

use crate::types::look_at_type;
use fx_core::{Core, CoreArgs, CoreFields, CoreNode};

/// Looks at the types that a tree names.
#[cycle(look)]
pub fn look_at_tree(core: &Core)
    ensures { HasLawfulTypes core.now }
{
    match &core.node {
        CoreNode::Const(_)
        | CoreNode::Read(_)
        | CoreNode::Row(_)
        | CoreNode::Item
        | CoreNode::Caught => {}
        CoreNode::Dot(part, _) => look_at_tree(part),
        CoreNode::Coerce(part, ty) => {
            look_at_type(ty);
            look_at_tree(part);
        }
        CoreNode::Over(_, table, parts) => {
            look_at_tree(table);
            look_at_trees(parts);
        }
        CoreNode::With(record, formula) => {
            look_at_tree(record);
            look_at_tree(formula);
        }
        CoreNode::Rec(fields) => look_at_fields(fields),
        CoreNode::List(ty, parts) => {
            look_at_type(ty);
            look_at_trees(parts);
        }
        CoreNode::Call(_, parts)
        | CoreNode::User(_, parts)
        | CoreNode::All(parts)
        | CoreNode::Any(parts)
        | CoreNode::If(parts)
        | CoreNode::Switch(parts)
        | CoreNode::IfError(parts)
        | CoreNode::Chain(parts)
        | CoreNode::Act(_, parts) => look_at_trees(parts),
    }
}

#[cycle(look)]
fn look_at_trees(parts: &CoreArgs)
    ensures { HaveLawfulTypes (all parts.now) }
{
    for part in parts.as_slice() {
        look_at_tree(part);
    }
}

#[cycle(look)]
fn look_at_fields(fields: &CoreFields)
    ensures { HaveLawfulTypes (field_terms fields.now) }
{
    for (_, part) in fields.as_slice() {
        look_at_tree(part);
    }
}
