//! Which typed trees act.
ghost use Rattle.std.specs.Prelude.{◌≡◌};
ghost use Rattle.fx_core.specs.Term.{all, field_terms};
ghost use Rattle.fx_typing.specs.Acts as acting;

use fx_core::{Core, CoreArgs, CoreFields, CoreNode};

/// Whether a tree acts: whether a change of state or a chain stands in it.
#[cycle(acts)]
pub fn acts(core: &Core) -> bool
    ensures { result ≡ acting.acts core.now }
{
    match &core.node {
        CoreNode::Act(_, _) | CoreNode::Chain(_) => true,
        CoreNode::Const(_)
        | CoreNode::Read(_)
        | CoreNode::Row(_)
        | CoreNode::Item
        | CoreNode::Caught => false,
        CoreNode::Dot(part, _) | CoreNode::Coerce(part, _) => acts(part),
        CoreNode::Over(_, table, parts) => acts(table) || any_acts(parts),
        CoreNode::With(record, formula) => acts(record) || acts(formula),
        CoreNode::Rec(fields) => any_field_acts(fields),
        CoreNode::Call(_, parts)
        | CoreNode::User(_, parts)
        | CoreNode::List(_, parts)
        | CoreNode::All(parts)
        | CoreNode::Any(parts)
        | CoreNode::If(parts)
        | CoreNode::Switch(parts)
        | CoreNode::IfError(parts) => any_acts(parts),
    }
}

#[cycle(acts)]
fn any_acts(parts: &CoreArgs) -> bool
    ensures { result ≡ acting.any_acts (all parts.now) }
{
    for part in parts.as_slice() {
        if acts(part) {
            return true;
        }
    }
    false
}

#[cycle(acts)]
fn any_field_acts(fields: &CoreFields) -> bool
    ensures { result ≡ acting.any_acts (field_terms fields.now) }
{
    for (_, part) in fields.as_slice() {
        if acts(part) {
            return true;
        }
    }
    false
}
