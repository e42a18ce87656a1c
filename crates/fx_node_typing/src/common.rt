//! The common type of branches.
ghost use Rattle.std.specs.Prelude.{◌≡◌, IfOk, length, map, option_map};
ghost use Rattle.fx_types.specs.TypeView.{shape};
ghost use Rattle.fx_typing.specs.Local as local;
ghost use Rattle.fx_typing.specs.TypedView.{typed, piece_view};

use crate::acting::acts;
use fx_base::Memory;
use fx_core::rows::{Row, Takes};
use fx_types::types::Ty;
use fx_typing::typed::{Piece, Typed};
use fx_typing::ways::{is_scalar, same_shape};
use fx_value::joining::join;
use std::alloc::Global;

// Whether a branch stands at a place.
fn is_branch(takes: Takes) -> bool
    ensures { result ≡ local.is_branch takes }
{
    matches!(takes, Takes::Choice | Takes::Branch | Takes::Fallback)
}

/// The branches among the parts.
pub fn branches<'a>(alloc: Global, row: Row, parts: &'a [Piece]) -> Result<Vec<&'a Typed>, Memory>
    ensures { IfOk result (λ bs. map (λ b. typed b.now) bs.items
        ≡ local.branches row (length parts.now) 0 (map piece_view parts.now)) }
{
    let mut found = Vec::new(alloc);
    for (place, part) in parts.iter().enumerate() {
        if is_branch(row.takes(parts.len(), place))
            && let Piece::Value(_, value) = part
        {
            found.push(value)?;
        }
    }
    Ok(found)
}

/// The join of a type and those of these trees, from the left, if there is one.
pub fn join_all(alloc: Global, start: Option<Ty>, parts: &[&Typed]) -> Result<Option<Ty>, Memory>
    ensures { IfOk result (λ t. option_map shape t
        ≡ local.join_all (option_map shape start) (map (λ b. typed b.now) parts.now)) }
{
    let mut joined = start;
    for part in parts {
        joined = join_next(alloc, joined, &part.ty)?;
    }
    Ok(joined)
}

// The join with one more type.
fn join_next(alloc: Global, joined: Option<Ty>, next: &Ty) -> Result<Option<Ty>, Memory>
    ensures { IfOk result (λ t. option_map shape t
        ≡ local.then_join (shape next.now) (option_map shape joined)) }
{
    match joined {
        Some(ty) => join(alloc, &ty, next),
        None => Ok(None),
    }
}

// Whether all types are without parts.
fn all_scalar(parts: &[&Typed]) -> bool
    ensures { result ≡ local.all_scalar (map (λ b. typed b.now) parts.now) }
{
    for part in parts {
        if !is_scalar(&part.ty) {
            return false;
        }
    }
    true
}

// Whether one of the types is Text.
fn some_text(parts: &[&Typed]) -> bool
    ensures { result ≡ local.some_text (map (λ b. typed b.now) parts.now) }
{
    for part in parts {
        if same_shape(&part.ty, &Ty::Text) {
            return true;
        }
    }
    false
}

// Whether one of the trees acts.
fn some_acts(parts: &[&Typed]) -> bool
    ensures { result ≡ local.some_acts (map (λ b. typed b.now) parts.now) }
{
    for part in parts {
        if acts(&part.core) {
            return true;
        }
    }
    false
}

/// The common type of branches: their join; or Text where all are scalars and one is Text; or Blank
/// where one acts.
pub fn common_of(alloc: Global, parts: &[&Typed]) -> Result<Option<Ty>, Memory>
    ensures { IfOk result (λ t. option_map shape t
        ≡ local.common_of (map (λ b. typed b.now) parts.now)) }
{
    let joined = join_all(alloc, Some(Ty::Blank), parts)?;
    match joined {
        Some(ty) => Ok(Some(ty)),
        None if all_scalar(parts) && some_text(parts) => Ok(Some(Ty::Text)),
        None if some_acts(parts) => Ok(Some(Ty::Blank)),
        None => Ok(None),
    }
}
