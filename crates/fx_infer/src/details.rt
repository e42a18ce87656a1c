//! What is said of a broken node besides the rule that it breaks.
ghost use Rattle.std.specs.Prelude.{◌≡◌, IfOk, map, option_map};
ghost use Rattle.fx_types.specs.TypeView.{shape as type_of};
ghost use Rattle.fx_typing.specs.Calls.{called_by};
ghost use Rattle.fx_typing.specs.Details as told;
ghost use Rattle.fx_core.specs.Lawful.{IsLawful};
ghost use Rattle.fx_core.specs.Rules.{rule_number};
ghost use Rattle.fx_resolve.specs.MeaningView.{place_view};
ghost use Rattle.fx_resolve.specs.PartView.{judged_part};
ghost use Rattle.fx_resolve.specs.PlanView.{tree_head};
ghost use Rattle.fx_resolve.specs.SettingView.{setting};

use crate::too_deep::is_too_deep;
use fx_base::Memory;
use fx_call_typing::{call_by_shape, first_large_type};
use fx_core::Rule;
use fx_core::expr::{Expr, Node};
use fx_core::names::Names;
use fx_core::signatures::SigShape;
use fx_diagnostics::borrowed::values_or_none;
use fx_diagnostics::limits::{list_limit, nesting, record_limit, type_limit};
use fx_diagnostics::mismatches::mismatch;
use fx_diagnostics::mistyped::{call_shape, part_names, wrong_types};
use fx_diagnostics::stuck::{repeated_name, unknown_column};
use fx_diagnostics::texts::{commas, head_name, name_with_count, nothing};
use fx_resolve::{Part, Place, Scopes, Stand};
use fx_types::types::Ty;
use fx_types::words::Words;
use fx_typing::Wrong;
use std::alloc::Global;

// The name that a call can't act on, and else the call's.
fn no_variable(alloc: Global, whole: &Expr, all: &[Part]) -> Result<Words, Memory>
    ensures { IfOk result (λ w. w ≡ told.no_variable (told.head_name (tree_head whole.now))
        (map judged_part all.now)) }
{
    match all.first() {
        Some(Part::Target(_, name)) => name.copy(alloc),
        _ => head_name(alloc, whole),
    }
}

// The type that passes the limits, of what a call gives a value to.
fn large_in<'n>(at: &Place<'n>, shape: SigShape, all: &[Part]) -> Option<&'n Ty>
    requires { IsLawful at.now.names.now }
    ensures { option_map (λ t. type_of t.now) result
        ≡ told.large_in (place_view at.now) shape (map judged_part all.now) }
{
    match shape {
        SigShape::Act(acting) => first_large_type(at.names, at.screen, acting, all),
        _ => None,
    }
}

// The limit that the type of a call passes, or what it gives a value to.
fn call_limit(
    alloc: Global,
    at: &Place,
    scopes: &Scopes,
    stand: Stand,
    shape: Option<SigShape>,
    all: Vec<Part>,
) -> Result<Words, Memory>
    requires { IsLawful at.now.names.now }
    ensures { IfOk result (λ w. w ≡ told.call_limit (place_view at.now) (setting scopes.now stand)
        shape
        (map judged_part all.entry.items)) }
{
    let Some(shape) = shape else {
        return nothing(alloc);
    };
    match large_in(at, shape, &all) {
        Some(ty) => type_limit(alloc, ty),
        None => own_limit(alloc, at, scopes, stand, shape, all),
    }
}

// The limit that the type of a call passes.
fn own_limit(
    alloc: Global,
    at: &Place,
    scopes: &Scopes,
    stand: Stand,
    shape: SigShape,
    all: Vec<Part>,
) -> Result<Words, Memory>
    requires { IsLawful at.now.names.now }
    ensures { IfOk result (λ w. w ≡ told.limit_of
        (called_by (place_view at.now) (setting scopes.now stand) shape
        (map judged_part all.entry.items))) }
{
    match call_by_shape(alloc, at, stand, shape, all) {
        Ok(tree) => type_limit(alloc, &tree.ty),
        Err(Wrong::Refused(_)) => nothing(alloc),
        Err(Wrong::Memory) => Err(Memory),
    }
}

// The limit that a node passes.
fn passed_limit(
    alloc: Global,
    at: &Place,
    scopes: &Scopes,
    stand: Stand,
    whole: &Expr,
    all: Vec<Part>,
) -> Result<Words, Memory>
    requires { IsLawful at.now.names.now }
    ensures { IfOk result (λ w. w ≡ told.limit_detail (place_view at.now) (setting scopes.now stand)
        (tree_head whole.now) (map judged_part all.entry.items)) }
{
    match &whole.node {
        Node::Call(_, _) if is_too_deep(at, scopes, stand, whole, &all) => nesting(alloc, scopes),
        Node::Call(name, _) => {
            call_limit(alloc, at, scopes, stand, call_shape(at.names, name), all)
        }
        Node::Rec(fields) => record_limit(alloc, fields.as_slice(), &values_or_none(alloc, &all)?),
        _ => list_limit(alloc, &values_or_none(alloc, &all)?),
    }
}

/// What is said of a node of these parts that breaks a rule.
pub fn detail_of(
    alloc: Global,
    at: &Place,
    scopes: &Scopes,
    stand: Stand,
    whole: &Expr,
    all: Vec<Part>,
    rule: Rule,
) -> Result<Words, Memory>
    requires { IsLawful at.now.names.now }
    ensures { IfOk result (λ w. w ≡ told.detail_of (place_view at.now) (setting scopes.now stand)
        (tree_head whole.now) (map judged_part all.entry.items) (rule_number rule)) }
{
    match rule {
        Rule::NameTwice => repeated_name(alloc, at.names, whole, &all),
        Rule::WrongType => commas(alloc, &wrong_types(alloc, at.names, whole, &all)?),
        Rule::WrongCount => name_with_count(alloc, &head_name(alloc, whole)?, all.len()),
        Rule::VariableTypes => mismatch(alloc, at, whole, &all),
        Rule::UnknownColumn => unknown_column(alloc, at.names, whole, &all),
        Rule::LimitPassed => passed_limit(alloc, at, scopes, stand, whole, all),
        Rule::NotAVariable => no_variable(alloc, whole, &all),
        _ => head_name(alloc, whole),
    }
}

/// What is said of a formula of a type that isn't what is wanted.
pub fn wanted_detail(alloc: Global, names: &Names, one: &Part) -> Result<Words, Memory>
    requires { IsLawful names.now }
    ensures { IfOk result (λ w. w ≡ told.wanted_detail names.now (judged_part one.now)) }
{
    commas(alloc, &part_names(alloc, names, one)?)
}
