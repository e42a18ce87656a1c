//! The joins of what is given to variables and to collections.
ghost use Rattle.std.specs.Prelude.{◌≡◌, ◌∷◌, IfOk, List, None, bytes_eq, map};
ghost use Rattle.fx_types.specs.TypeView.{shape};
ghost use Rattle.fx_types.specs.Types.{blanks};
ghost use Rattle.fx_typing.specs.Rounds as rounds;
ghost use Rattle.fx_infer.specs.GivenView.{given_type_view};

use crate::giving::Given;
use fx_base::Memory;
use fx_core::names::{Collection, Variable};
use fx_types::types::Ty;
use fx_value::joining::join;
use std::alloc::Global;

// The join with another type, if that is given to the same name; a type that doesn't join is passed
// over.
fn join_if(alloc: Global, is_given: bool, ty: Ty, other: &Ty) -> Result<Ty, Memory>
    ensures { IfOk result (λ t. shape t ≡ rounds.join_if is_given (shape ty) (shape other.now)) }
{
    if !is_given {
        return Ok(ty);
    }
    match join(alloc, &ty, other)? {
        Some(joined) => Ok(joined),
        None => Ok(ty),
    }
}

// Whether both are the same screen, or none.
fn is_same_screen(a: Option<u32>, b: Option<u32>) -> bool
    ensures { result ≡ rounds.is_same_screen a b }
{
    match (a, b) {
        (Some(a), Some(b)) => a == b,
        (None, None) => true,
        (Some(_), None) | (None, Some(_)) => false,
    }
}

// The join of a variable's type with what is given next.
fn variable_next(alloc: Global, variable: &Variable, ty: Ty, next: &Given) -> Result<Ty, Memory>
    ensures { (gs : List rounds.GivenType) → IfOk result
        (λ t. rounds.variable_join variable.now (shape t) gs
        ≡ rounds.variable_join variable.now (shape ty) (given_type_view next.now ∷ gs)) }
{
    match next {
        Given::Global(name, other) => {
            let is_given = is_same_screen(None, variable.screen) && variable.name.is(name);
            join_if(alloc, is_given, ty, other)
        }
        Given::Screen(Some(screen), name, other) => {
            let is_given = is_same_screen(Some(*screen), variable.screen) && variable.name.is(name);
            join_if(alloc, is_given, ty, other)
        }
        Given::Screen(None, _, _) | Given::Collection(_, _) => Ok(ty),
    }
}

/// The join of all that is given to a variable, from the left.
pub fn variable_join(alloc: Global, variable: &Variable, given: &[Given]) -> Result<Ty, Memory>
    ensures { IfOk result (λ t. shape t ≡ rounds.variable_join variable.now blanks
        (map given_type_view given.now)) }
{
    let mut ty = Ty::Blank;
    for next in given {
        ty = variable_next(alloc, variable, ty, next)?;
    }
    Ok(ty)
}

// The join of a collection's type with what is given next.
fn collection_next(
    alloc: Global,
    collection: &Collection,
    ty: Ty,
    next: &Given,
) -> Result<Ty, Memory>
    ensures { (gs : List rounds.GivenType) → IfOk result
        (λ t. rounds.collection_join collection.now (shape t) gs
        ≡ rounds.collection_join collection.now (shape ty) (given_type_view next.now ∷ gs)) }
{
    match next {
        Given::Collection(name, other) => join_if(alloc, collection.name.is(name), ty, other),
        Given::Global(_, _) | Given::Screen(_, _, _) => Ok(ty),
    }
}

/// The join of all that is given to a collection, from the left.
pub fn collection_join(
    alloc: Global,
    collection: &Collection,
    given: &[Given],
) -> Result<Ty, Memory>
    ensures { IfOk result (λ t. shape t
        ≡ rounds.collection_join collection.now blanks (map given_type_view given.now)) }
{
    let mut ty = Ty::Blank;
    for next in given {
        ty = collection_next(alloc, collection, ty, next)?;
    }
    Ok(ty)
}
