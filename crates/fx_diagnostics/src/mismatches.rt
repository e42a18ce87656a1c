//! Values that don't join to the variables that they are given to.
ghost use Rattle.std.specs.Prelude.{◌≡◌, ◌∷◌, [], IfOk, List, Option, Some, ℕ, map, option_map};
ghost use Rattle.fx_types.specs.TypeView.{shape};
ghost use Rattle.fx_core.specs.declared.signatures.SigShape.TheVariants as sig;
ghost use Rattle.fx_typing.specs.Deeds as deeds;
ghost use Rattle.fx_typing.specs.Details as told;
ghost use Rattle.fx_typing.specs.Parts as parts;
ghost use Rattle.fx_core.specs.Lawful.{IsLawful};
ghost use Rattle.fx_typing.specs.TypedView.{typed};
ghost use Rattle.fx_resolve.specs.MeaningView.{place_view};
ghost use Rattle.fx_resolve.specs.PartView.{judged_part};
ghost use Rattle.fx_resolve.specs.PlanView.{tree_head};

use crate::borrowed::values_or_none;
use crate::mistyped::call_shape;
use crate::texts::{commas, nothing, type_name};
use fx_base::Memory;
use fx_core::expr::{Expr, Node};
use fx_core::functions::Acting;
use fx_core::names::{Collection, Names, Variable};
use fx_core::signatures::SigShape;
use fx_node_typing::given::joins_to;
use fx_resolve::targets::{find_collection, global_variable, screen_variable};
use fx_resolve::{Part, Place};
use fx_types::types::Ty;
use fx_types::words::Words;
use fx_typing::Typed;
use fx_typing::columns::row_columns;
use std::alloc::Global;

// A name, its type and the type that is given to it.
fn given_names(alloc: Global, name: &Words, ty: &Ty, other: &Ty) -> Result<Words, Memory>
    ensures { IfOk result (λ w. w ≡ told.variable_detail name.now (shape ty.now) (shape other.now)) }
{
    let mut names = Vec::new(alloc);
    names.push(name.copy(alloc)?)?;
    names.push(type_name(alloc, ty)?)?;
    names.push(type_name(alloc, other)?)?;
    commas(alloc, &names)
}

// The first of the values that doesn't join to a type.
fn first_mismatch(alloc: Global, name: &Words, ty: &Ty, values: &[&Typed]) -> Result<Words, Memory>
    ensures { IfOk result (λ w. w
        ≡ told.misgiven name.now (shape ty.now) (map (λ v. typed v.now) values.now)) }
{
    for value in values {
        if !joins_to(alloc, ty, &value.ty)? {
            return given_names(alloc, name, ty, &value.ty);
        }
    }
    nothing(alloc)
}

// The type of a value as rows.
fn rows_type(alloc: Global, value: &Typed) -> Result<Ty, Memory>
    ensures { IfOk result (λ t. shape t ≡ (deeds.rows_collected (typed value.now)).1) }
{
    match &value.ty {
        Ty::Tab(columns) => Ok(Ty::Tab(columns.copy(alloc)?)),
        ty => Ok(Ty::Tab(row_columns(alloc, ty.copy(alloc)?)?)),
    }
}

// The first of the values that as rows doesn't join to a type.
fn rows_mismatch(alloc: Global, name: &Words, ty: &Ty, values: &[&Typed]) -> Result<Words, Memory>
    ensures { IfOk result (λ w. w
        ≡ told.misgiven_rows name.now (shape ty.now) (map (λ v. typed v.now) values.now)) }
{
    for value in values {
        let rows = rows_type(alloc, value)?;
        if !joins_to(alloc, ty, &rows)? {
            return given_names(alloc, name, ty, &rows);
        }
    }
    nothing(alloc)
}

// What doesn't join to a variable.
fn variable_mismatch(
    alloc: Global,
    name: &Words,
    variable: Option<(u32, &Variable)>,
    values: &[&Typed],
) -> Result<Words, Memory>
    ensures { IfOk result (λ w. w ≡ told.misgiven_to name.now
        (option_map (λ e. (e.0, e.1.now)) variable.entry) (map (λ v. typed v.now) values.now)) }
{
    match variable {
        Some((_, variable)) => first_mismatch(alloc, name, &variable.ty, values),
        None => nothing(alloc),
    }
}

// What doesn't join to a collection.
fn collection_mismatch(
    alloc: Global,
    name: &Words,
    collection: Option<(u32, &Collection)>,
    values: &[&Typed],
) -> Result<Words, Memory>
    ensures { IfOk result (λ w. w ≡ told.misgiven_to_rows name.now
        (option_map (λ e. (e.0, e.1.now)) collection.entry) (map (λ v. typed v.now) values.now)) }
{
    match collection {
        Some((_, collection)) => rows_mismatch(alloc, name, &collection.ty, values),
        None => nothing(alloc),
    }
}

// Whether a value joins to a variable, if there is one.
fn fits_variable(
    alloc: Global,
    variable: Option<(u32, &Variable)>,
    value: &Typed,
) -> Result<bool, Memory>
    ensures { IfOk result (λ b. b ≡ told.fits_variable
        (option_map (λ e. (e.0, e.1.now)) variable.entry) (shape value.now.ty)) }
{
    match variable {
        Some((_, variable)) => joins_to(alloc, &variable.ty, &value.ty),
        None => Ok(true),
    }
}

// The first of the variables of a screen to which its value doesn't join.
fn context_mismatch(
    alloc: Global,
    names: &Names,
    screen: Option<u32>,
    variables: &[Words],
    values: &[Typed],
) -> Result<Words, Memory>
    requires { IsLawful names.now }
    ensures { IfOk result (λ w. w
        ≡ told.misassigned names.now screen variables.now (map typed values.now)) }
{
    for (place, name) in variables.iter().enumerate() {
        let Some(value) = values.get(place) else {
            return nothing(alloc);
        };
        let variable = screen_variable(names, screen, name);
        if !fits_variable(alloc, variable, value)? {
            return variable_mismatch(alloc, name, variable, &[value]);
        }
    }
    nothing(alloc)
}

// What an acting call gives a name to which it doesn't join.
fn target_mismatch(
    alloc: Global,
    at: &Place,
    acting: Acting,
    name: &Words,
    others: &[Part],
) -> Result<Words, Memory>
    requires { IsLawful at.now.names.now }
    ensures { (a : Option (List ℕ)) → IfOk result (λ w. w ≡ told.unjoined (place_view at.now)
        (Some (sig.Act acting)) (parts.target a name.now ∷ map judged_part others.now)) }
{
    let values = values_or_none(alloc, others)?;
    match acting {
        Acting::Set => variable_mismatch(alloc, name, global_variable(at.names, name), &values),
        _ => collection_mismatch(alloc, name, find_collection(at.names, name), &values),
    }
}

// What an acting call gives variables of a screen to which it doesn't join.
fn assignment_mismatch(
    alloc: Global,
    at: &Place,
    acting: Acting,
    variables: &[Words],
    values: &[Typed],
) -> Result<Words, Memory>
    requires { IsLawful at.now.names.now }
    ensures { (qs : List parts.JudgedPart) → IfOk result (λ w. w ≡ told.unjoined (place_view at.now)
        (Some (sig.Act acting)) (parts.assigned variables.now (map typed values.now) ∷ qs)) }
{
    match acting {
        Acting::UpdateContext => context_mismatch(alloc, at.names, at.screen, variables, values),
        _ => nothing(alloc),
    }
}

// What an acting call gives a variable or a collection to which it doesn't join.
fn acting_mismatch(alloc: Global, at: &Place, acting: Acting, all: &[Part]) -> Result<Words, Memory>
    requires { IsLawful at.now.names.now }
    ensures { IfOk result (λ w. w
        ≡ told.unjoined (place_view at.now) (Some (sig.Act acting)) (map judged_part all.now)) }
{
    let Some((first, others)) = all.split_first() else {
        return nothing(alloc);
    };
    match first {
        Part::Target(_, name) => target_mismatch(alloc, at, acting, name, others),
        Part::Assigned(variables, values) => assignment_mismatch(
            alloc, at, acting, variables, values,
        ),
        Part::Piece(_) | Part::Meant(_) => nothing(alloc),
    }
}

// What a call gives a variable or a collection to which it doesn't join.
fn call_mismatch(
    alloc: Global,
    at: &Place,
    shape: Option<SigShape>,
    all: &[Part],
) -> Result<Words, Memory>
    requires { IsLawful at.now.names.now }
    ensures { IfOk result (λ w. w ≡ told.unjoined (place_view at.now) shape
        (map judged_part all.now)) }
{
    match shape {
        Some(SigShape::Act(acting)) => acting_mismatch(alloc, at, acting, all),
        _ => nothing(alloc),
    }
}

/// What a node gives a variable or a collection to which it doesn't join.
pub fn mismatch(alloc: Global, at: &Place, whole: &Expr, all: &[Part]) -> Result<Words, Memory>
    requires { IsLawful at.now.names.now }
    ensures { IfOk result (λ w. w
        ≡ told.misjoined (place_view at.now) (tree_head whole.now) (map judged_part all.now)) }
{
    match &whole.node {
        Node::Call(name, _) => call_mismatch(alloc, at, call_shape(at.names, name), all),
        _ => nothing(alloc),
    }
}
