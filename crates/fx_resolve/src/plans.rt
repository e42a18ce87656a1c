//! How each part of a node is judged, from the parts before it.
ghost use Rattle.std.specs.Prelude.{◌≡◌, ◌∷◌, [], List, if◌then◌else◌, length, map};
ghost use Rattle.fx_core.specs.declared.functions.Fun.{Fun};
ghost use Rattle.fx_typing.specs.Parts as parts;
ghost use Rattle.fx_typing.specs.Parts.{may_act};
ghost use Rattle.fx_typing.specs.Plans as plans;
ghost use Rattle.fx_typing.specs.WellTyped.{standing_of};
ghost use Rattle.fx_typing.specs.TypedView.{piece_view};
ghost use Rattle.fx_resolve.specs.PartView.{judged_part};
ghost use Rattle.fx_resolve.specs.PlanView.{grant, tree_head, plan, part_scope};

use crate::parts::Part;
use fx_core::expr::{Expr, Node};
use fx_core::functions::{Acting, Fun};
use fx_core::names::Names;
use fx_core::rows::{Row, Takes, form_row, row_of};
use fx_core::signatures::{SigShape, signature_in};
use fx_types::types::Ty;
use fx_types::words::Words;
use fx_typing::Piece;

/// What the place of a node allows.
#[derive(Clone, Copy)]
pub enum Grant {
    /// A value alone.
    Nothing,
    /// A value that may act.
    Acting,
    /// A value that may have a name for its rows by `As`.
    AnAlias,
    /// The name of a column.
    AColumn,
    /// The name of what changes.
    ATarget,
    /// The name of what changes, which may have a name for its rows by `As`.
    AliasedTarget,
    /// Left of a dot: also a name that is no value, and a value that acts where the whole may.
    AMeaning(bool),
    /// The variables of a screen with their values, which act where the whole may.
    OnScreen(bool),
}

/// What a part stands in.
#[derive(Clone, Copy)]
pub enum Standing {
    /// In what the whole stands in.
    Plain,
    /// In the scope of a row of the first part.
    Inside,
    /// In the scope of the first part, which is a record.
    Bound,
    /// Where an error is caught.
    Catching,
}

/// How a part is judged.
#[derive(Clone, Copy)]
pub struct Plan {
    pub standing: Standing,
    pub grant: Grant,
}

impl Grant {
    /// Whether a node may act.
    pub fn may_act(self) -> bool
        ensures { result ≡ may_act (grant self) }
    {
        match self {
            Grant::Acting => true,
            Grant::AMeaning(acts) => acts,
            _ => false,
        }
    }
}

impl Standing {
    /// Whether it is the scope of a row.
    pub fn is_inside(self) -> bool
        ensures { result ≡ plans.is_inside (part_scope self) }
    {
        matches!(self, Standing::Inside)
    }

    /// Whether an error is caught.
    pub fn is_catching(self) -> bool
        ensures { result ≡ plans.is_catching (part_scope self) }
    {
        matches!(self, Standing::Catching)
    }
}

fn make_plan(place: Standing, allowed: Grant) -> Plan
    ensures { plan result ≡ plans.argument_rule (part_scope place) (grant allowed) }
{
    Plan {
        standing: place,
        grant: allowed,
    }
}

// A part that acts where the whole may.
fn if_acting(acts: bool) -> Grant
    ensures { grant result ≡ plans.if_acting acts }
{
    if acts { Grant::Acting } else { Grant::Nothing }
}

fn standing_of(takes: Takes) -> Standing
    ensures { part_scope result ≡ standing_of takes }
{
    match takes {
        Takes::Formula(_) | Takes::ScalarFormula | Takes::AnyFormula | Takes::RowFormula => {
            Standing::Inside
        }
        Takes::Fallback => Standing::Catching,
        _ => Standing::Plain,
    }
}

// What a place of a call allows.
fn grant_of(acts: bool, takes: Takes) -> Grant
    ensures { grant result ≡ plans.grant_of acts takes }
{
    match takes {
        Takes::Table => Grant::AnAlias,
        Takes::RowFormula | Takes::Branch | Takes::Fallback => if_acting(acts),
        Takes::Column | Takes::NewColumn => Grant::AColumn,
        _ => Grant::Nothing,
    }
}

fn plan_by_row(acts: bool, row: Row, count: usize, place: usize) -> Plan
    ensures { plan result ≡ plans.plan_by_row acts row count place }
{
    let takes = row.takes(count, place);
    make_plan(standing_of(takes), grant_of(acts, takes))
}

// Whether a part is a table, or a value with a name for its rows.
fn is_over_rows(first: &Part) -> bool
    ensures { (f : Fun) → (g : Fun) → (qs : List parts.JudgedPart)
        → plans.pick f g (judged_part first.now ∷ qs) ≡ (if result then g else f) }
{
    match first {
        Part::Piece(first) => has_rows(first),
        _ => false,
    }
}

fn has_rows(first: &Piece) -> bool
    ensures { (f : Fun) → (g : Fun) → (qs : List parts.JudgedPart)
        → plans.pick f g (parts.piece (piece_view first.now) ∷ qs) ≡ (if result then g else f) }
{
    match first {
        Piece::Value(alias, value) => alias.is_some() || matches!(value.ty, Ty::Tab(_)),
        Piece::Label(_) => false,
    }
}

/// Under one name: the function of the rows of a table, where the first part is one or has a name
/// for its rows, and else that of scalars.
pub fn pick(scalars: Fun, rows: Fun, parts: &[Part]) -> Fun
    ensures { result ≡ plans.pick scalars rows (map judged_part parts.now) }
{
    match parts.first() {
        Some(first) if is_over_rows(first) => rows,
        _ => scalars,
    }
}

// The first part may be a table with a name for its rows.
fn plan_either(acts: bool, scalars: Fun, rows: Fun, count: usize, done: &[Part]) -> Plan
    ensures { plan result ≡ plans.plan_either acts scalars rows count (map judged_part done.now) }
{
    if done.is_empty() {
        return make_plan(Standing::Plain, Grant::AnAlias);
    }
    plan_by_row(acts, row_of(pick(scalars, rows, done)), count, done.len())
}

// A literal stands behind all other arguments.
fn plan_literal(acts: bool, fun: Fun, count: usize, place: usize) -> Plan
    ensures { plan result ≡ plans.plan_literal acts fun count place }
{
    let row = row_of(fun);
    if place < row.most as usize {
        plan_by_row(acts, row, count, place)
    } else {
        make_plan(Standing::Plain, Grant::Nothing)
    }
}

// `With`: the second part stands in the record's scope.
fn plan_with(acts: bool, place: usize) -> Plan
    ensures { plan result ≡ plans.plan_with acts place }
{
    if place == 0 {
        make_plan(Standing::Plain, Grant::Nothing)
    } else {
        make_plan(Standing::Bound, if_acting(acts))
    }
}

// An acting call: the first place, and the ones behind it.
fn first_then(first: Grant, others: Standing, behind: Grant, place: usize) -> Plan
    ensures { plan result ≡ plans.first_then (grant first) (part_scope others) (grant behind) place }
{
    if place == 0 {
        make_plan(Standing::Plain, first)
    } else {
        make_plan(others, behind)
    }
}

fn plan_act(acts: bool, acting: Acting, place: usize) -> Plan
    ensures { plan result ≡ plans.plan_act acts acting place }
{
    match acting {
        Acting::Set | Acting::Collect => {
            first_then(Grant::ATarget, Standing::Plain, if_acting(acts), place)
        }
        Acting::UpdateContext => first_then(
            Grant::OnScreen(acts),
            Standing::Plain,
            Grant::Nothing,
            place,
        ),
        Acting::RemoveIf | Acting::UpdateIf => first_then(
            Grant::AliasedTarget,
            Standing::Inside,
            Grant::Nothing,
            place,
        ),
        Acting::Notify => make_plan(Standing::Plain, Grant::Nothing),
        Acting::Clear
        | Acting::ClearCollect
        | Acting::Patch
        | Acting::Remove
        | Acting::Navigate
        | Acting::Reset => first_then(Grant::ATarget, Standing::Plain, Grant::Nothing, place),
    }
}

fn plan_call(acts: bool, shape: Option<SigShape>, count: usize, done: &[Part]) -> Plan
    ensures { plan result ≡ plans.plan_call acts shape count (map judged_part done.now) }
{
    let place = done.len();
    match shape {
        Some(SigShape::One(fun)) => plan_by_row(acts, row_of(fun), count, place),
        Some(SigShape::Either(scalars, rows)) => plan_either(acts, scalars, rows, count, done),
        Some(SigShape::Literal(fun)) => plan_literal(acts, fun, count, place),
        Some(SigShape::Form(form)) => plan_by_row(acts, form_row(form), count, place),
        Some(SigShape::With) => plan_with(acts, place),
        Some(SigShape::Defaults) => {
            first_then(Grant::ATarget, Standing::Plain, Grant::Nothing, place)
        }
        Some(SigShape::Act(acting)) => plan_act(acts, acting, place),
        Some(SigShape::Table | SigShape::Today) | None => {
            make_plan(Standing::Plain, Grant::Nothing)
        }
    }
}

// How a name is called.
fn call_shape(names: &Names, name: &Words) -> Option<SigShape>
    ensures { result ≡ plans.called_as names.now name.now }
{
    signature_in(names.signatures, name.as_str()).map(|signature| signature.shape)
}

/// How the part behind the done ones is judged, of a node with so many parts.
pub fn plan_at(names: &Names, whole: Grant, head: &Expr, count: usize, done: &[Part]) -> Plan
    ensures { plan result
        ≡ plans.plan_at names.now (grant whole) (tree_head head.now) count
        (map judged_part done.now) }
{
    let acts = whole.may_act();
    match &head.node {
        Node::Dot(_, _) => make_plan(Standing::Plain, Grant::AMeaning(acts)),
        Node::Call(name, _) => plan_call(acts, call_shape(names, name), count, done),
        Node::Chain(_) => make_plan(Standing::Plain, if_acting(acts)),
        Node::Alias(_, _) => make_plan(Standing::Plain, alias_grant(whole)),
        Node::Rec(_) => make_plan(Standing::Plain, field_grant(whole)),
        _ => make_plan(Standing::Plain, Grant::Nothing),
    }
}

// The part of an alias stands for what it names.
fn alias_grant(whole: Grant) -> Grant
    ensures { grant result ≡ plans.alias_grant (grant whole) }
{
    match whole {
        Grant::AliasedTarget => Grant::AliasedTarget,
        _ => Grant::Nothing,
    }
}

// The fields of the variables of a screen may act.
fn field_grant(whole: Grant) -> Grant
    ensures { grant result ≡ plans.field_grant (grant whole) }
{
    match whole {
        Grant::OnScreen(acts) => if_acting(acts),
        _ => Grant::Nothing,
    }
}

/// Whether one of the parts of a node, which are so many, stands in the scope of a row of the
/// first.
pub fn opens_rows(names: &Names, whole: Grant, head: &Expr, parts: &[Part]) -> bool
    ensures { result ≡ plans.opens_rows names.now (grant whole) (tree_head head.now)
        (length parts.now) [] (map judged_part parts.now) }
{
    for place in 0..parts.len() {
        let plan = plan_at(names, whole, head, parts.len(), &parts[..place]);
        if plan.standing.is_inside() {
            return true;
        }
    }
    false
}
