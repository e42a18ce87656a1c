//! The local rule: which head of judged parts is admitted, as what.
ghost use Rattle.std.specs.Prelude.{◌≡◌, ◌<◌, ◌∷◌, ℕ, [], IfOk, List, None, Ok, Option, Result};
ghost use Rattle.std.specs.Prelude.{length, map, option_map};
ghost use Rattle.fx_types.specs.TypeView.{shape};
ghost use Rattle.fx_types.specs.Types.{Shape};
ghost use Rattle.fx_types.specs.ValueView.{view};
ghost use Rattle.fx_typing.specs.Builds as builds;
ghost use Rattle.fx_typing.specs.Calls.{called};
ghost use Rattle.fx_typing.specs.Parts as parts;
ghost use Rattle.fx_typing.specs.Typing as typing;
ghost use Rattle.fx_core.specs.Lawful.{IsLawful};
ghost use Rattle.fx_core.specs.Rules.{rule_number};
ghost use Rattle.fx_core.specs.Tree as tree;
ghost use Rattle.fx_core.specs.Term.{Term};
ghost use Rattle.fx_core.specs.ColumnLists.{and_then};
ghost use Rattle.fx_typing.specs.Local as local;
ghost use Rattle.fx_typing.specs.Meaning as meaning;
ghost use Rattle.fx_typing.specs.Answers.{IsAnswerOf};
ghost use Rattle.fx_typing.specs.TypedView.{typed};
ghost use Rattle.fx_resolve.specs.MeaningView.{meaning_view, place_view};
ghost use Rattle.fx_resolve.specs.PartView.{judged_part};
ghost use Rattle.fx_resolve.specs.PlanView.{grant, tree_head};
ghost use Rattle.fx_resolve.specs.SettingView.{setting};
ghost use Rattle.fx_infer.specs.Operands.{leaf_of, operator_of, type_of};

use crate::is_too_deep;
use fx_base::Memory;
use fx_call_typing::values::{pieces, values};
use fx_call_typing::{call, unless};
use fx_core::expr::{Expr, FieldName, Node, Op};
use fx_core::functions::{Form, Fun};
use fx_core::names::Names;
use fx_core::{Rule, make_core};
use fx_node_typing::arity::one;
use fx_node_typing::limits::is_bounded;
use fx_node_typing::lists::{cores_of, list_of};
use fx_node_typing::node_rule::{make, make_form};
use fx_node_typing::operators::function_of;
use fx_node_typing::records::{are_distinct, record_of, record_type};
use fx_resolve::dots::dot;
use fx_resolve::{Grant, Meaning, Part, Place, Scopes, Stand, as_value, in_globals, meaning_of};
use fx_types::types::Ty;
use fx_types::values::Value;
use fx_types::words::Words;
use fx_typing::{Piece, Typed, Wrong};
use std::alloc::Global;

// A value without a name of its rows.
fn plainly<'a>(value: Typed) -> Part<'a>
    ensures { judged_part result ≡ parts.plainly (typed value) }
{
    Part::Piece(Piece::Value(None, value))
}

// What is made, as a part.
fn as_part<'a>(made: Result<Typed, Wrong>) -> Result<Part<'a>, Wrong>
    ensures { (r : Result (Term × Shape) ℕ) → IsAnswerOf typed r made
        → IsAnswerOf judged_part (parts.as_part r) result }
{
    match made {
        Ok(value) => Ok(Part::Piece(Piece::Value(None, value))),
        Err(wrong) => Err(wrong),
    }
}

// A constant.
fn constant<'a>(value: Value, ty: Ty) -> Part<'a>
    ensures { typing.constant (view value) (shape ty) ≡ Ok (judged_part result) }
{
    plainly(Typed {
        core: make_core::constant(value),
        ty,
    })
}

// What stands left of a dot: a name that is no value too.
fn before_dot<'a>(meaning: Option<Meaning<'a>>) -> Result<Part<'a>, Wrong>
    ensures { IsAnswerOf judged_part (typing.left_of_dot (option_map meaning_view meaning.entry))
        result }
{
    match meaning {
        Some(Meaning::Valued(value)) => Ok(plainly(value)),
        Some(Meaning::Controlled(number, control)) => {
            Ok(Part::Meant(Meaning::Controlled(number, control)))
        }
        Some(Meaning::Screened) => Ok(Part::Meant(Meaning::Screened)),
        Some(Meaning::Enumerated(enumeration)) => Ok(Part::Meant(Meaning::Enumerated(enumeration))),
        None => Err(Wrong::Refused(Rule::UnknownName)),
    }
}

// A name, as its place takes it.
fn name_by<'a>(
    alloc: Global,
    allowed: Grant,
    name: &Words,
    meaning: Option<Meaning<'a>>,
) -> Result<Part<'a>, Wrong>
    ensures { IsAnswerOf judged_part
        (typing.name_by (grant allowed) name.now (option_map meaning_view meaning.entry)) result }
{
    match allowed {
        Grant::AColumn => Ok(Part::Piece(Piece::Label(name.copy(alloc)?))),
        Grant::ATarget | Grant::AliasedTarget => Ok(Part::Target(None, name.copy(alloc)?)),
        Grant::AMeaning(_) => before_dot(meaning),
        Grant::Nothing | Grant::Acting | Grant::AnAlias | Grant::OnScreen(_) => {
            as_part(as_value(meaning))
        }
    }
}

// `[@Name]`, which names no column.
fn global_by<'a>(
    alloc: Global,
    allowed: Grant,
    name: &Words,
    meaning: Option<Meaning<'a>>,
) -> Result<Part<'a>, Wrong>
    ensures { IsAnswerOf judged_part
        (typing.global_by (grant allowed) name.now (option_map meaning_view meaning.entry)) result }
{
    match allowed {
        Grant::ATarget | Grant::AliasedTarget => Ok(Part::Target(None, name.copy(alloc)?)),
        Grant::AMeaning(_) => before_dot(meaning),
        Grant::Nothing | Grant::Acting | Grant::AnAlias | Grant::AColumn | Grant::OnScreen(_) => {
            as_part(as_value(meaning))
        }
    }
}

// What stands behind a dot.
fn dot_by(alloc: Global, names: &Names, name: &Words, all: Vec<Part>) -> Result<Typed, Wrong>
    requires { IsLawful names.now }
    ensures { (p : meaning.Place) → p.names ≡ names.now
        → IsAnswerOf typed (typing.dot_by p name.now (map judged_part all.entry.items)) result }
{
    match one(all) {
        Some(Part::Piece(Piece::Value(_, value))) => {
            dot(alloc, names, name, Meaning::Valued(value))
        }
        Some(Part::Meant(meaning)) => dot(alloc, names, name, meaning),
        Some(Part::Piece(Piece::Label(_)) | Part::Target(_, _) | Part::Assigned(_, _)) | None => {
            Err(Wrong::Refused(Rule::WrongType))
        }
    }
}

// A table, or what changes, under a name for its rows.
fn alias_by<'a>(
    alloc: Global,
    allowed: Grant,
    name: &Words,
    all: Vec<Part<'a>>,
) -> Result<Part<'a>, Wrong>
    ensures { IsAnswerOf judged_part (typing.alias_by (grant allowed) name.now
        (map judged_part all.entry.items)) result }
{
    match one(all) {
        Some(Part::Piece(Piece::Value(_, value))) => alias_value(alloc, allowed, name, value),
        Some(Part::Target(None, changed)) => alias_target(alloc, allowed, name, changed),
        Some(
            Part::Piece(Piece::Label(_))
            | Part::Meant(_)
            | Part::Target(Some(_), _)
            | Part::Assigned(_, _),
        )
        | None => Err(Wrong::Refused(Rule::WrongType)),
    }
}

// A value under a name for its rows.
fn alias_value<'a>(
    alloc: Global,
    allowed: Grant,
    name: &Words,
    value: Typed,
) -> Result<Part<'a>, Wrong>
    ensures { (a : Option (List ℕ)) → IsAnswerOf judged_part
        (typing.alias_by (grant allowed) name.now
        (parts.piece (local.value a value.core (shape value.ty)) ∷ [])) result }
{
    match allowed {
        Grant::AnAlias | Grant::AliasedTarget => {
            Ok(Part::Piece(Piece::Value(Some(name.copy(alloc)?), value)))
        }
        Grant::Nothing
        | Grant::Acting
        | Grant::AColumn
        | Grant::ATarget
        | Grant::AMeaning(_)
        | Grant::OnScreen(_) => Err(Wrong::Refused(Rule::WrongType)),
    }
}

// What changes under a name for its rows.
fn alias_target<'a>(
    alloc: Global,
    allowed: Grant,
    name: &Words,
    changed: Words,
) -> Result<Part<'a>, Wrong>
    ensures { IsAnswerOf judged_part (typing.alias_by (grant allowed) name.now
        (parts.target None changed ∷ [])) result }
{
    match allowed {
        Grant::AliasedTarget => Ok(Part::Target(Some(name.copy(alloc)?), changed)),
        Grant::Nothing
        | Grant::Acting
        | Grant::AnAlias
        | Grant::AColumn
        | Grant::ATarget
        | Grant::AMeaning(_)
        | Grant::OnScreen(_) => Err(Wrong::Refused(Rule::WrongType)),
    }
}

// The names of fields.
fn names_in(alloc: Global, fields: &[(FieldName, Expr)]) -> Result<Vec<Words>, Memory>
    ensures { IfOk result (λ ns. ns.items ≡ tree.tree_field_names fields.now) }
{
    let mut names = Vec::new(alloc);
    for (name, _) in fields {
        names.push(name.text.copy(alloc)?)?;
    }
    Ok(names)
}

// Variables of a screen with their values, which are a record too: none stands twice, and its type
// keeps to the limits.
fn assign<'a>(alloc: Global, names: Vec<Words>, values: Vec<Typed>) -> Result<Part<'a>, Wrong>
    ensures { IsAnswerOf judged_part (typing.assigned_of names.items (map typed values.items))
        result }
{
    if !are_distinct(names.as_slice()) {
        return Err(Wrong::Refused(Rule::NameTwice));
    }
    let record = record_type(alloc, names.as_slice(), values.as_slice())?;
    if !is_bounded(&record) {
        return Err(Wrong::Refused(Rule::LimitPassed));
    }
    Ok(Part::Assigned(names, values))
}

// A record; or variables of a screen with their values.
fn record_as<'a>(
    alloc: Global,
    allowed: Grant,
    names: Vec<Words>,
    values: Vec<Typed>,
) -> Result<Part<'a>, Wrong>
    ensures { IsAnswerOf judged_part (typing.record_as (grant allowed) names.items
        (map typed values.items)) result }
{
    match allowed {
        Grant::OnScreen(_) => assign(alloc, names, values),
        Grant::Nothing
        | Grant::Acting
        | Grant::AnAlias
        | Grant::AColumn
        | Grant::ATarget
        | Grant::AliasedTarget
        | Grant::AMeaning(_) => as_part(record_of(alloc, names, values)),
    }
}

// The fields of a record with these parts.
fn record_by<'a>(
    alloc: Global,
    allowed: Grant,
    fields: &[(FieldName, Expr)],
    all: Vec<Part<'a>>,
) -> Result<Part<'a>, Wrong>
    ensures { IsAnswerOf judged_part (and_then (parts.values (map judged_part all.entry.items))
        (typing.record_as (grant allowed) (tree.tree_field_names fields.now))) result }
{
    let values = values(alloc, all)?;
    record_as(alloc, allowed, names_in(alloc, fields)?, values)
}

// The type of a part that is a value.
fn value_type<'p>(one: &'p Part) -> Option<&'p Ty>
    ensures { option_map (λ t. shape t.now) result ≡ type_of (judged_part one.now) }
{
    match one {
        Part::Piece(Piece::Value(_, value)) => Some(&value.ty),
        Part::Piece(Piece::Label(_)) | Part::Meant(_) | Part::Target(_, _) | Part::Assigned(_, _) =>
            { None }
    }
}

// The function that the types of two operands choose.
fn operator_of(op: Op, all: &[Part]) -> Option<Fun>
    ensures { result ≡ operator_of op (map judged_part all.now) }
{
    let [left, right] = all else {
        return None;
    };
    match (value_type(left), value_type(right)) {
        (Some(left), Some(right)) => function_of(op, left, right),
        _ => None,
    }
}

// Two operands: their types choose the function.
fn pair(alloc: Global, op: Op, all: Vec<Part>) -> Result<Typed, Wrong>
    ensures { IsAnswerOf typed (and_then (parts.values (map judged_part all.entry.items))
        (λ xs. typing.paired_by op xs (parts.pieces (map judged_part all.entry.items)))) result }
{
    match operator_of(op, &all) {
        Some(fun) => make(alloc, fun, pieces(alloc, all)?),
        None => Err(Wrong::Refused(Rule::WrongType)),
    }
}

// A function of all parts.
fn make_of(alloc: Global, fun: Fun, all: Vec<Part>) -> Result<Typed, Wrong>
    ensures { IsAnswerOf typed (local.node_made fun
        (parts.pieces (map judged_part all.entry.items))) result }
{
    make(alloc, fun, pieces(alloc, all)?)
}

// A form of all parts.
fn make_form_of(alloc: Global, form: Form, all: Vec<Part>) -> Result<Typed, Wrong>
    ensures { IsAnswerOf typed (local.formed form (parts.pieces (map judged_part all.entry.items)))
        result }
{
    make_form(alloc, form, pieces(alloc, all)?)
}

// A weave without pieces.
fn no_pieces(alloc: Global) -> Result<Typed, Memory>
    ensures { IfOk result (λ t. typing.woven_by [] ≡ Ok (typed t)) }
{
    Ok(Typed {
        core: make_core::constant(Value::Text(Words::of(alloc, "")?)),
        ty: Ty::Text,
    })
}

// The pieces of a weave, of which there may be none.
fn weave(alloc: Global, all: Vec<Part>) -> Result<Typed, Wrong>
    ensures { IsAnswerOf typed (typing.woven_by (map judged_part all.entry.items)) result }
{
    if all.is_empty() {
        return Ok(no_pieces(alloc)?);
    }
    make_of(alloc, Fun::Concatenation, all)
}

// Formulas in turn, which have the type of the last.
fn chain_by(alloc: Global, values: Vec<Typed>) -> Result<Typed, Wrong>
    ensures { IsAnswerOf typed (typing.chain_by (map typed values.items)) result }
{
    let Some(last) = values.last() else {
        return Err(Wrong::Refused(Rule::WrongType));
    };
    let ty = last.ty.copy(alloc)?;
    Ok(Typed {
        core: make_core::chain(cores_of(alloc, values)?),
        ty,
    })
}

// Formulas in turn, wherever they stand.
fn chain(alloc: Global, all: Vec<Part>) -> Result<Typed, Wrong>
    ensures { IsAnswerOf typed (and_then (parts.values (map judged_part all.entry.items))
        typing.chain_by) result }
{
    chain_by(alloc, values(alloc, all)?)
}

// A list of all parts.
fn list(alloc: Global, all: Vec<Part>) -> Result<Typed, Wrong>
    ensures { IsAnswerOf typed (and_then (parts.values (map judged_part all.entry.items))
        builds.typed_list) result }
{
    list_of(alloc, values(alloc, all)?)
}

// A call, where its scopes aren't too deep.
fn call_by(
    alloc: Global,
    at: &Place,
    scopes: &Scopes,
    stand: Stand,
    whole: &Expr,
    name: &Words,
    all: Vec<Part>,
) -> Result<Typed, Wrong>
    requires { IsLawful at.now.names.now }
    ensures { IsAnswerOf typed (parts.unless_rule
        (typing.is_too_deep (place_view at.now) (setting scopes.now stand) (tree_head whole.now)
        (map judged_part all.entry.items)) 13
        (called (place_view at.now) (setting scopes.now stand) name.now
        (map judged_part all.entry.items))) result }
{
    let too_deep = is_too_deep(at, scopes, stand, whole, &all);
    unless(
        too_deep,
        Rule::LimitPassed,
        call(alloc, at, stand, name, all),
    )
}

// A head that has no parts.
fn leaf<'a>(all: Vec<Part>, made: Result<Part<'a>, Wrong>) -> Result<Part<'a>, Wrong>
    ensures { (r : Result parts.JudgedPart ℕ) → IsAnswerOf judged_part r made.entry
        → IsAnswerOf judged_part (leaf_of (map judged_part all.entry.items) r) result }
{
    if all.is_empty() {
        made
    } else {
        Err(Wrong::Refused(Rule::WrongType))
    }
}

/// A node of these parts, where it stands, or a rule that it breaks.
pub fn admit<'a>(
    alloc: Global,
    at: &Place<'a>,
    scopes: &Scopes,
    stand: Stand,
    whole: &Expr,
    all: Vec<Part<'a>>,
) -> Result<Part<'a>, Wrong>
    requires lawful { IsLawful at.now.names.now }
    requires shallow { length scopes.now < 256 }
    ensures { IsAnswerOf judged_part (typing.admit (place_view at.now) (setting scopes.now stand)
        (tree_head whole.now)
        (map judged_part all.entry.items)) result }
{
    match &whole.node {
        Node::Num(number) => leaf(all, Ok(constant(Value::Number(*number), Ty::Number))),
        Node::Text(text) => {
            let text = text.copy(alloc)?;
            leaf(all, Ok(constant(Value::Text(text), Ty::Text)))
        }
        Node::Truth(truth) => leaf(all, Ok(constant(Value::Boolean(*truth), Ty::Boolean))),
        Node::Name(name) => {
            let meaning = meaning_of(alloc, at, scopes, stand.catches, name)?;
            leaf(all, name_by(alloc, stand.grant, name, meaning))
        }
        Node::Global(name) => {
            let meaning = in_globals(alloc, at.names, name)?;
            leaf(all, global_by(alloc, stand.grant, name, meaning))
        }
        Node::Dot(_, name) => as_part(dot_by(alloc, at.names, name, all)),
        Node::Call(name, _) => as_part(call_by(alloc, at, scopes, stand, whole, name, all)),
        Node::Neg(_) => as_part(make_of(alloc, Fun::Negate, all)),
        Node::Not(_) => as_part(make_of(alloc, Fun::Not, all)),
        Node::Percent(_) => as_part(make_of(alloc, Fun::Percent, all)),
        Node::Pair(op, _, _) => as_part(pair(alloc, *op, all)),
        Node::Joined(_) => as_part(make_of(alloc, Fun::Concatenation, all)),
        Node::And(_) => as_part(make_form_of(alloc, Form::All, all)),
        Node::Or(_) => as_part(make_form_of(alloc, Form::Any, all)),
        Node::Chain(_) => {
            let pure = !stand.grant.may_act();
            as_part(unless(pure, Rule::BehaviourInPure, chain(alloc, all)))
        }
        Node::Alias(_, name) => alias_by(alloc, stand.grant, name, all),
        Node::Rec(fields) => record_by(alloc, stand.grant, fields.as_slice(), all),
        Node::List(_) => as_part(list(alloc, all)),
        Node::Woven(_) => as_part(weave(alloc, all)),
    }
}
