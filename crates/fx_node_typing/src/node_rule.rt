//! The one rule of all functions, operators and forms, over their parts as they were judged.
ghost use Rattle.std.specs.Prelude.{◌≡◌, ◌<◌, IfOk, length, map, option_map, true};
ghost use Rattle.fx_types.specs.TypeView.{shape};
ghost use Rattle.fx_core.specs.Rows.{takes_count};
ghost use Rattle.fx_core.specs.Term as term;
ghost use Rattle.fx_typing.specs.Local as local;
ghost use Rattle.fx_typing.specs.WellTyped.{head_by};
ghost use Rattle.fx_typing.specs.Answers.{IsAnswerOf};
ghost use Rattle.fx_typing.specs.TypedView.{typed, piece_view, built};

use crate::answering::answer_type;
use crate::argument_scopes::stand_all;
use crate::common::{branches, common_of};
use fx_base::Memory;
use fx_core::functions::{Form, Fun};
use fx_core::rows::{Row, Takes, form_row, row_of};
use fx_core::{Core, CoreArgs, Rule, make_core};
use fx_types::types::Ty;
use fx_typing::typed::{Piece, Typed};
use fx_typing::wrong::Wrong;
use std::alloc::Global;

/// A function or an operator of these parts, or the rule that is broken.
pub fn make(alloc: Global, fun: Fun, parts: Vec<Piece>) -> Result<Typed, Wrong>
    ensures { IsAnswerOf typed (local.node_made fun (map piece_view parts.items)) result }
{
    let row = row_of(fun);
    let (parts, ty) = resolve_parts(alloc, row, parts)?;
    let core = apply_function(alloc, fun, row.first, parts)?;
    Ok(Typed { core, ty })
}

/// A form of these parts, or the rule that is broken.
pub fn make_form(alloc: Global, form: Form, parts: Vec<Piece>) -> Result<Typed, Wrong>
    ensures { IsAnswerOf typed (local.formed form (map piece_view parts.items)) result }
{
    let (parts, ty) = resolve_parts(alloc, form_row(form), parts)?;
    let core = make_core::form(form, cores_of(alloc, parts)?);
    Ok(Typed { core, ty })
}

// The parts as they stand, and the type of the whole, whatever its head is.
fn resolve_parts(alloc: Global, row: Row, parts: Vec<Piece>) -> Result<(Vec<Typed>, Ty), Wrong>
    ensures made { (h : term.Top) → IsAnswerOf (λ x. built h x.0.items x.1)
        (local.made_by row h (map piece_view parts.items)) result }
    ensures count { IfOk result (λ x. takes_count row (length x.0.items) ≡ true) }
{
    if !row.takes_count(parts.len()) {
        return Err(Wrong::Refused(Rule::WrongCount));
    }
    let Some(common) = common_type(alloc, row, parts.as_slice())? else {
        return Err(Wrong::Refused(Rule::WrongType));
    };
    let parts = stand_all(alloc, row, &common, parts)?;
    let ty = answer_type(alloc, row.answer, &common, parts.as_slice())?;
    Ok((parts, ty))
}

// The common type of the branches among the parts.
fn common_type(alloc: Global, row: Row, parts: &[Piece]) -> Result<Option<Ty>, Memory>
    ensures { IfOk result (λ t. option_map shape t
        ≡ local.common_of (local.branches row (length parts.now) 0 (map piece_view parts.now))) }
{
    let found = branches(alloc, row, parts)?;
    common_of(alloc, found.as_slice())
}

// A function of parts: over the first one, where that is a table.
fn apply_function(alloc: Global, fun: Fun, first: Takes, parts: Vec<Typed>) -> Result<Core, Memory>
    requires { first ≡ Takes.Table → 0 < length parts.items }
    ensures { IfOk result (λ c. c ≡ term.of (head_by first fun)
        (term.all (local.firsts (map typed parts.items)))) }
{
    match first {
        Takes::Table => over(alloc, fun, parts),
        _ => Ok(make_core::call(fun, cores_of(alloc, parts)?)),
    }
}

// A function over a table.
fn over(alloc: Global, fun: Fun, parts: Vec<Typed>) -> Result<Core, Memory>
    requires { 0 < length parts.items }
    ensures { IfOk result (λ c. c ≡ term.of (term.over fun)
        (term.all (local.firsts (map typed parts.items)))) }
{
    let mut parts = parts;
    let Typed { core, ty: _ } = parts.remove(0);
    make_core::call_over(alloc, fun, core, cores_of(alloc, parts)?)
}

// The trees of parts.
fn cores_of(alloc: Global, parts: Vec<Typed>) -> Result<CoreArgs, Memory>
    ensures { IfOk result (λ cs. cs ≡ local.firsts (map typed parts.items)) }
{
    let mut cores = CoreArgs::new(alloc);
    for part in parts {
        let Typed { core, ty: _ } = part;
        cores.push(core)?;
    }
    Ok(cores)
}
