//! How a type comes to another.
ghost use Rattle.std.specs.Prelude.{◌≡◌, IfOk};
ghost use Rattle.fx_types.specs.TypeView.{shape};
ghost use Rattle.fx_types.specs.Types.{column_list};
ghost use Rattle.fx_typing.specs.Local as local;
ghost use Rattle.fx_typing.specs.Ways as ways;
ghost use Rattle.fx_typing.specs.Answers.{IsAnswerOf};
ghost use Rattle.fx_typing.specs.TypedView.{typed};
ghost use Rattle.fx_typing.specs.WayView.{way_view};

use crate::typed::Typed;
use crate::wrong::Wrong;
use fx_base::Memory;
use fx_core::{Core, Rule, make_core};
use fx_types::types::{Columns, Ty};
use fx_value::joining::join;
use std::alloc::Global;

/// How a value comes to a type.
#[derive(Clone, Copy)]
pub enum Way {
    /// It stands as it is.
    Same,
    /// It is coerced.
    Changed,
    /// There is no way.
    Refused,
}

/// Whether two types are one.
#[cycle(same_shape)]
pub fn same_shape(a: &Ty, b: &Ty) -> bool
    ensures { result ≡ ways.same_shape (shape a.now) (shape b.now) }
{
    match (a, b) {
        (Ty::Blank, Ty::Blank)
        | (Ty::Number, Ty::Number)
        | (Ty::Text, Ty::Text)
        | (Ty::Boolean, Ty::Boolean)
        | (Ty::Date, Ty::Date) => true,
        (Ty::Rec(a), Ty::Rec(b)) => same_columns(a, b),
        (Ty::Tab(a), Ty::Tab(b)) => same_columns(a, b),
        _ => false,
    }
}

#[cycle(same_shape)]
fn same_columns(a: &Columns, b: &Columns) -> bool
    ensures { result ≡ ways.same_columns (column_list a.now) (column_list b.now) }
{
    let xs = a.as_slice();
    let ys = b.as_slice();
    if xs.len() != ys.len() {
        return false;
    }
    for (i, (name, ty)) in xs.iter().enumerate() {
        // By index: behind a `zip` the whole lists have no names in an invariant.
        let (other_name, other) = &ys[i];
        if !name.is(other_name) || !same_shape(ty, other) {
            return false;
        }
    }
    true
}

/// Whether a type has no parts.
pub fn is_scalar(ty: &Ty) -> bool
    ensures { result ≡ ways.is_scalar (shape ty.now) }
{
    !matches!(ty, Ty::Rec(_) | Ty::Tab(_))
}

/// Whether `=` compares two types: one scalar type, or one of them Blank.
pub fn is_comparable(a: &Ty, b: &Ty) -> bool
    ensures { result ≡ ways.is_comparable (shape a.now) (shape b.now) }
{
    match (a, b) {
        (Ty::Blank, other) | (other, Ty::Blank) => is_scalar(other),
        _ => is_scalar(a) && same_shape(a, b),
    }
}

/// How a value of one type comes to another.
pub fn way_to(alloc: Global, from: &Ty, to: &Ty) -> Result<Way, Memory>
    ensures { IfOk result (λ w. way_view w ≡ ways.way (shape from.now) (shape to.now)) }
{
    match (from, to) {
        (Ty::Blank, Ty::Blank)
        | (Ty::Number, Ty::Number)
        | (Ty::Text, Ty::Text)
        | (Ty::Boolean, Ty::Boolean)
        | (Ty::Date, Ty::Date) => Ok(Way::Same),
        (Ty::Blank, _)
        | (Ty::Number, Ty::Text | Ty::Boolean)
        | (Ty::Boolean, Ty::Text | Ty::Number)
        | (Ty::Date, Ty::Text)
        | (Ty::Text, Ty::Number) => Ok(Way::Changed),
        (Ty::Rec(_), Ty::Rec(_)) | (Ty::Tab(_), Ty::Tab(_)) => widening(alloc, from, to),
        _ => Ok(Way::Refused),
    }
}

// A record or a table comes to the join with a wider type, where that is the type.
fn widening(alloc: Global, from: &Ty, to: &Ty) -> Result<Way, Memory>
    ensures { IfOk result (λ w. way_view w ≡ ways.widening (shape from.now) (shape to.now)) }
{
    if same_shape(from, to) {
        return Ok(Way::Same);
    }
    match join(alloc, from, to)? {
        Some(joined) if same_shape(&joined, to) => Ok(Way::Changed),
        _ => Ok(Way::Refused),
    }
}

/// How a value comes to just this type: from itself and from Blank.
pub fn exact_way(from: &Ty, to: &Ty) -> Way
    ensures { way_view result ≡ local.exact_way (shape from.now) (shape to.now) }
{
    match (from, to) {
        (Ty::Blank, Ty::Blank) => Way::Same,
        (Ty::Blank, _) => Way::Changed,
        _ if same_shape(from, to) => Way::Same,
        _ => Way::Refused,
    }
}

/// How a branch comes to the common type of branches: all come to Blank, where there is no other.
pub fn branch_way(alloc: Global, from: &Ty, to: &Ty) -> Result<Way, Memory>
    ensures { IfOk result (λ w. way_view w ≡ local.branch_way (shape from.now) (shape to.now)) }
{
    match (from, to) {
        (Ty::Blank, Ty::Blank) => Ok(Way::Same),
        (_, Ty::Blank) => Ok(Way::Changed),
        _ => way_to(alloc, from, to),
    }
}

/// A value as one of a type.
pub fn coerce(alloc: Global, core: Core, to: &Ty) -> Result<Core, Memory>
    ensures { IfOk result (λ c. c ≡ local.coerced core (shape to.now)) }
{
    make_core::coerce(alloc, core, to.copy(alloc)?)
}

/// A value that comes to a type, or the rule `WrongType`.
pub fn by_way(alloc: Global, way: Way, core: Core, to: &Ty) -> Result<Typed, Wrong>
    ensures { IsAnswerOf typed (local.by_way (way_view way) core (shape to.now)) result }
{
    let core = match way {
        Way::Same => core,
        Way::Changed => coerce(alloc, core, to)?,
        Way::Refused => return Err(Wrong::Refused(Rule::WrongType)),
    };
    Ok(Typed {
        core,
        ty: to.copy(alloc)?,
    })
}
