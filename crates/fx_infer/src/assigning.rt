//! Which formulas may give types to names: most don't, and needn't be walked.
ghost use Rattle.std.specs.Prelude.{◌≡◌};
ghost use Rattle.fx_resolve.specs.PlanView.{grant, tree_head};
ghost use Rattle.fx_infer.specs.Assigning.{has_giving_call, is_giving, is_giving_call};
ghost use Rattle.fx_infer.specs.Assigning as assigning;

use crate::giving::call_shape;
use crate::node_parts::{part_at, part_count};
use fx_core::expr::{Expr, Node};
use fx_core::functions::Acting;
use fx_core::names::Names;
use fx_core::signatures::SigShape;
use fx_resolve::{Grant, Stand};

// Whether calls of this shape give types to names.
fn is_giving(shape: Option<SigShape>) -> bool
    ensures { result ≡ is_giving shape }
{
    match shape {
        Some(SigShape::Act(acting)) => matches!(
            acting,
            Acting::Set | Acting::UpdateContext | Acting::Collect | Acting::ClearCollect
        ),
        _ => false,
    }
}

// Whether a node is such a call.
fn is_giving_call(names: &Names, whole: &Expr) -> bool
    ensures { result ≡ is_giving_call names.now (tree_head whole.now) }
{
    match &whole.node {
        Node::Call(name, _) => is_giving(call_shape(names, name)),
        _ => false,
    }
}

// Whether one of the nodes of a formula is such a call.
fn has_giving_call(names: &Names, whole: &Expr) -> bool
    ensures { result ≡ has_giving_call names.now whole.now }
{
    if is_giving_call(names, whole) {
        return true;
    }
    for place in 0..part_count(whole) {
        let Some(part) = part_at(whole, place) else {
            return false;
        };
        if has_giving_call(names, part) {
            return true;
        }
    }
    false
}

/// Whether a formula that stands so may give types to names: one that has no call which does, and
/// is no record of a screen's variables, gives none.
pub fn may_give(names: &Names, stand: Stand, whole: &Expr) -> bool
    ensures { result ≡ assigning.may_give names.now (grant stand.grant) whole.now }
{
    matches!(stand.grant, Grant::OnScreen(_)) || has_giving_call(names, whole)
}
