//! Typed trees of formulas.
ghost use Rattle.std.specs.Prelude.{◌≡◌, ◌≤◌, [], Bool, Err, IfOk, None, Ok, Option, option_map};
ghost use Rattle.fx_types.specs.TypeView.{shape};
ghost use Rattle.fx_types.specs.Types.{Shape};
ghost use Rattle.fx_typing.specs.Details.{IsToldBrokenWhole};
ghost use Rattle.fx_typing.specs.Typing as typing;
ghost use Rattle.fx_typing.specs.Typing.{context_of, judge_whole};
ghost use Rattle.fx_core.specs.Lawful.{IsLawful};
ghost use Rattle.fx_core.specs.Rules.{rule_number};
ghost use Rattle.fx_core.specs.declared.broken.Broken.{Broken};
ghost use Rattle.fx_core.specs.Tree.{Tree};
ghost use Rattle.fx_core.specs.Term.{Term};
ghost use Rattle.fx_typing.specs.Meaning as meaning;
ghost use Rattle.fx_typing.specs.WellTyped.{IsTyped};
ghost use Rattle.fx_typing.specs.Elaborates.{FormulaElaborates, FormulaIsNothing};
ghost use Rattle.fx_typing.specs.Answers.{IsAnswerOf};
ghost use Rattle.fx_typing.specs.TypedView.{typed};
ghost use Rattle.fx_resolve.specs.PartView.{judged_part};
ghost use Rattle.fx_resolve.specs.SettingView.{setting};
ghost use Rattle.fx_infer.specs.declared.ends.InferEnd.TheVariants as end;
ghost use Rattle.fx_infer.specs.Below.{tree_depth};
ghost use Rattle.fx_infer.specs.Ends.{InfersTo};
ghost use Rattle.fx_infer.specs.Written.{is_any_table, is_tables, formula_may_act, formula_place};

use crate::ends::InferEnd;
use crate::judging::judge;
use crate::node_parts::begins;
use crate::{Flaw, Halt, wanted_detail};
use fx_core::expr::Expr;
use fx_core::names::Names;
use fx_core::{Broken, Rule};
use fx_resolve::{Grant, Part, Place as Standpoint, Scopes, Stand};
use fx_types::types::Ty;
use fx_types::words::Words;
use fx_typing::ways::{by_way, way_to};
use fx_typing::{
    Piece, Typed, Wrong, admitted_elaborates, admitted_is_typed, broken_elaborates_nothing,
};
use std::alloc::Global;

/// What the place of a formula allows.
#[derive(Clone, Copy)]
pub enum Place {
    /// A value alone.
    Pure,
    /// A formula that may act.
    Acting,
}

/// A formula where it is written.
#[derive(Drop)]
pub struct Written {
    /// Its address, as `S.OnVisible`.
    pub cell: Words,
    /// The number of its screen.
    pub screen: Option<u32>,
    /// The number of the gallery whose item it sees.
    pub item: Option<u32>,
    /// The type that is wanted of it. A table type without columns stands for every table type.
    pub wanted: Option<Ty>,
    /// What its place allows.
    pub place: Place,
    pub expr: Expr,
}

// What is wanted of a formula: a table type without columns lets every table be.
fn to_wanted_type(alloc: Global, wanted: &Option<Ty>, value: Typed) -> Result<Typed, Wrong>
    ensures { IsAnswerOf typed (typing.to_wanted (option_map shape wanted.now) (typed value)) result }
{
    let Some(ty) = wanted else {
        return Ok(value);
    };
    if is_any_table(ty) && is_table(&value.ty) {
        return Ok(value);
    }
    let way = way_to(alloc, &value.ty, ty)?;
    by_way(alloc, way, value.core, ty)
}

// Whether a type is a table type without columns.
fn is_any_table(ty: &Ty) -> bool
    ensures { result ≡ is_any_table (shape ty.now) }
{
    match ty {
        Ty::Tab(columns) => columns.len() == 0,
        _ => false,
    }
}

fn is_table(ty: &Ty) -> bool
    ensures { result ≡ is_tables (shape ty.now) }
{
    matches!(ty, Ty::Tab(_))
}

// A whole formula, coerced to what is wanted of it.
fn whole_of(alloc: Global, wanted: &Option<Ty>, whole: Part) -> Result<Typed, Wrong>
    ensures { IsAnswerOf typed (typing.whole_argument (option_map shape wanted.now)
        (judged_part whole.entry)) result }
{
    match whole {
        Part::Piece(Piece::Value(_, value)) => to_wanted_type(alloc, wanted, value),
        Part::Piece(Piece::Label(_)) | Part::Meant(_) | Part::Target(_, _) | Part::Assigned(_, _) =>
            { Err(Wrong::Refused(Rule::WrongType)) }
    }
}

/// Where a whole formula stands: in no scope.
pub(crate) fn outermost(place: Place) -> Stand
    ensures { setting [] result ≡ typing.outermost_setting (formula_may_act place) }
{
    Stand {
        catches: false,
        grant: match place {
            Place::Pure => Grant::Nothing,
            Place::Acting => Grant::Acting,
        },
    }
}

// What is answered of a formula that is broken there.
fn refuse(alloc: Global, cell: &Words, flaw: Flaw) -> InferEnd
    ensures { (p : meaning.Place) → (b : Bool) → (w : Option Shape) → (e : Tree)
        → IsToldBrokenWhole p b w e flaw.at (rule_number flaw.rule) flaw.detail
        → InfersTo p b w e cell.now (Err result) }
{
    match cell.copy(alloc) {
        Ok(cell) => InferEnd::Broken(Broken {
            cell,
            rule: flaw.rule,
            at: flaw.at,
            detail: flaw.detail,
        }),
        Err(_) => InferEnd::Memory,
    }
}

// What is answered of a formula that is admitted as this part, before this type is wanted of it.
fn settle(
    alloc: Global,
    names: &Names,
    cell: &Written,
    wanted: &Option<Ty>,
    whole: Part,
) -> Result<Typed, InferEnd>
    requires { IsLawful names.now }
    ensures { (b : Bool)
        → typing.judge (formula_place names.now cell.now) (typing.outermost_setting b) cell.now.expr
        ≡ Ok (judged_part whole.entry)
        → InfersTo (formula_place names.now cell.now) b (option_map shape wanted.now) cell.now.expr
        cell.now.cell result }
{
    let detail = wanted_detail(alloc, names, &whole)?;
    match whole_of(alloc, wanted, whole) {
        Ok(value) => Ok(value),
        Err(Wrong::Memory) => Err(InferEnd::Memory),
        Err(Wrong::Refused(rule)) => {
            let at = begins(&cell.expr);
            Err(refuse(alloc, &cell.cell, Flaw { at, rule, detail }))
        }
    }
}

// What is answered of a formula of which this type is wanted.
fn judge_cell(
    alloc: Global,
    names: &Names,
    cell: &Written,
    wanted: &Option<Ty>,
) -> Result<Typed, InferEnd>
    requires lawful { IsLawful names.now }
    requires shallow { tree_depth cell.now.expr ≤ 256 }
    ensures { InfersTo (formula_place names.now cell.now) (formula_may_act cell.now.place)
        (option_map shape wanted.now) cell.now.expr cell.now.cell result }
{
    let at = Standpoint {
        names,
        screen: cell.screen,
        gallery: cell.item,
        settled: true,
    };
    let mut scopes = Scopes::new(alloc);
    match judge(alloc, &at, &mut scopes, outermost(cell.place), &cell.expr) {
        Ok(whole) => settle(alloc, names, cell, wanted, whole),
        Err(Halt::Refused(flaw)) => Err(refuse(alloc, &cell.cell, flaw)),
        Err(Halt::Memory) => Err(InferEnd::Memory),
    }
}

/// The typed tree of a formula and its type, coerced to what is wanted of it; or the first of its
/// nodes from the left that is broken while all its parts are admitted, with the rule that it
/// breaks and what is said besides. At its top a formula is broken too where its type has no
/// coercion to what is wanted. It has at most 256 nodes above one another.
pub fn elaborate(alloc: Global, names: &Names, cell: &Written) -> Result<Typed, InferEnd>
    requires lawful { IsLawful names.now }
    requires shallow { tree_depth cell.now.expr ≤ 256 }
    ensures admitted { IfOk result (λ t. judge_whole (formula_place names.now cell.now)
        (formula_may_act cell.now.place)
        (option_map shape cell.now.wanted) cell.now.expr ≡ Ok (typed t)) }
    ensures well_typed { IfOk result (λ t. IsTyped (context_of (formula_place names.now cell.now)
        (typing.outermost_setting (formula_may_act cell.now.place))) t.core (shape t.ty)) }
    ensures broken { (b : Broken) → result ≡ Err (end.Broken b)
        → judge_whole (formula_place names.now cell.now) (formula_may_act cell.now.place)
        (option_map shape cell.now.wanted) cell.now.expr ≡ Err (b.at, rule_number b.rule) }
    ensures told { (b : Broken) → result ≡ Err (end.Broken b)
        → IsToldBrokenWhole (formula_place names.now cell.now) (formula_may_act cell.now.place)
        (option_map shape cell.now.wanted) cell.now.expr b.at (rule_number b.rule) b.detail }
    ensures cell { (b : Broken) → result ≡ Err (end.Broken b) → b.cell ≡ cell.now.cell }
    // The relation of types relates to the formula what is answered; to a broken one it relates
    // nothing, and nothing to the node that is told, of which it relates all parts.
    ensures related { IfOk result (λ t. FormulaElaborates (formula_place names.now cell.now)
        (formula_may_act cell.now.place)
        (option_map shape cell.now.wanted) cell.now.expr (typed t)) }
    ensures unrelated { (b : Broken) → result ≡ Err (end.Broken b)
        → FormulaIsNothing (formula_place names.now cell.now) (formula_may_act cell.now.place)
        (option_map shape cell.now.wanted) cell.now.expr b.at
        × ((x : Term × Shape) → FormulaElaborates (formula_place names.now cell.now)
        (formula_may_act cell.now.place)
        (option_map shape cell.now.wanted) cell.now.expr x → ⊥) }
{
    // The laws are called for what they say of what is admitted or broken.
    admitted_is_typed();
    admitted_elaborates();
    broken_elaborates_nothing();
    judge_cell(alloc, names, cell, &cell.wanted)
}

/// The same of the formula itself, whatever is wanted of it.
pub fn elaborate_alone(alloc: Global, names: &Names, cell: &Written) -> Result<Typed, InferEnd>
    requires lawful { IsLawful names.now }
    requires shallow { tree_depth cell.now.expr ≤ 256 }
    ensures admitted { IfOk result (λ t. judge_whole (formula_place names.now cell.now)
        (formula_may_act cell.now.place)
        None cell.now.expr ≡ Ok (typed t)) }
    ensures broken { (b : Broken) → result ≡ Err (end.Broken b)
        → judge_whole (formula_place names.now cell.now) (formula_may_act cell.now.place)
        None cell.now.expr ≡ Err (b.at, rule_number b.rule) }
{
    judge_cell(alloc, names, cell, &None)
}
