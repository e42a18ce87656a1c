//! The limits of types.
ghost use Rattle.std.specs.Prelude.{◌≡◌, nat_le};
ghost use Rattle.fx_types.specs.TypeView.{shape};
ghost use Rattle.fx_types.specs.Types.{column_list};
ghost use Rattle.fx_typing.specs.Builds as limits;
ghost use Rattle.fx_typing.specs.Answers.{IsAnswerOf};
ghost use Rattle.fx_typing.specs.TypedView.{typed};

use fx_core::Rule;
use fx_types::types::{Columns, Ty};
use fx_typing::typed::Typed;
use fx_typing::wrong::Wrong;

/// Whether records and tables nest at most so deep in a type.
#[cycle(is_shallow)]
pub fn is_shallow(ty: &Ty, most: u8) -> bool
    ensures { result ≡ nat_le (limits.type_depth (shape ty.now)) most }
{
    match ty {
        Ty::Rec(columns) | Ty::Tab(columns) => most > 0 && are_shallow(columns, most - 1),
        _ => true,
    }
}

#[cycle(is_shallow)]
fn are_shallow(columns: &Columns, most: u8) -> bool
    ensures { result ≡ nat_le (limits.columns_depth (column_list columns.now)) most }
{
    for (_, ty) in columns.as_slice() {
        if !is_shallow(ty, most) {
            return false;
        }
    }
    true
}

#[tactic(auto, using(crate::proofs::Counts::count_length))]
/// Whether no record or table in a type has more than 64 columns.
#[cycle(is_narrow)]
pub fn is_narrow(ty: &Ty) -> bool
    ensures { result ≡ limits.is_narrow (shape ty.now) }
{
    match ty {
        Ty::Rec(columns) | Ty::Tab(columns) => columns.len() <= 64 && are_narrow(columns),
        _ => true,
    }
}

#[cycle(is_narrow)]
fn are_narrow(columns: &Columns) -> bool
    ensures { result ≡ limits.are_narrow (column_list columns.now) }
{
    for (_, ty) in columns.as_slice() {
        if !is_narrow(ty) {
            return false;
        }
    }
    true
}

/// Whether a type keeps to the limits: eight layers of records and tables, of 64 columns each.
pub fn is_bounded(ty: &Ty) -> bool
    ensures { result ≡ limits.is_bounded (shape ty.now) }
{
    is_shallow(ty, 8) && is_narrow(ty)
}

/// A typed tree whose type keeps to the limits, or the rule `LimitPassed`.
pub fn check_limits(tree: Typed) -> Result<Typed, Wrong>
    ensures { IsAnswerOf typed (limits.bounded_by (typed tree)) result }
{
    if !is_bounded(&tree.ty) {
        return Err(Wrong::Refused(Rule::LimitPassed));
    }
    Ok(tree)
}
