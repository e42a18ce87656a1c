//! Parts as they stand at their places.
ghost use Rattle.std.specs.Prelude.{◌≡◌, None, IfOk, length, map, codes};
ghost use Rattle.fx_types.specs.TypeView.{shape};
ghost use Rattle.fx_types.specs.Types.{column_list, blanks};
ghost use Rattle.fx_core.specs.Rows.{takes_at};
ghost use Rattle.fx_core.specs.declared.rows.Takes.TheVariants as takes;
ghost use Rattle.fx_core.specs.Rules.{rule_number};
ghost use Rattle.fx_core.specs.ColumnLists.{field_in};
ghost use Rattle.fx_typing.specs.Local as local;
ghost use Rattle.fx_typing.specs.Ways.{way};
ghost use Rattle.fx_typing.specs.WellTyped.{first_type};
ghost use Rattle.fx_typing.specs.Answers.{IsAnswerOf};
ghost use Rattle.fx_typing.specs.TypedView.{typed, piece_view};

use fx_base::Memory;
use fx_core::rows::{Row, Takes};
use fx_core::{Rule, make_core};
use fx_types::types::{Columns, Ty};
use fx_types::values::Value;
use fx_types::words::Words;
use fx_typing::columns::{field_in, tells_error};
use fx_typing::typed::{Piece, Typed};
use fx_typing::ways::{branch_way, by_way, coerce, exact_way, is_comparable, is_scalar, way_to};
use fx_typing::wrong::Wrong;
use std::alloc::Global;

/// A part as it stands at its place, where the first part and the branches have these types.
pub fn stand(
    alloc: Global,
    takes: Takes,
    first: &Ty,
    common: &Ty,
    part: Piece,
) -> Result<Typed, Wrong>
    ensures { IsAnswerOf typed (local.stand takes (shape first.now) (shape common.now)
        (piece_view part)) result }
{
    match part {
        Piece::Value(_, value) => stand_value(alloc, takes, first, common, value),
        Piece::Label(name) => match takes {
            Takes::Column | Takes::NewColumn => Ok(Typed {
                core: make_core::constant(Value::Text(name)),
                ty: Ty::Text,
            }),
            _ => Err(Wrong::Refused(Rule::WrongType)),
        },
    }
}

// A value as it stands at its place.
fn stand_value(
    alloc: Global,
    takes: Takes,
    first: &Ty,
    common: &Ty,
    value: Typed,
) -> Result<Typed, Wrong>
    ensures { IsAnswerOf typed (local.stand takes (shape first.now) (shape common.now)
        (local.value None value.core (shape value.ty))) result }
{
    match takes {
        Takes::Scalar(scalar) | Takes::Formula(scalar) => as_type(alloc, value, &scalar.ty()),
        Takes::Exact(scalar) => as_exactly(alloc, value, &scalar.ty()),
        Takes::Choice | Takes::Branch | Takes::Fallback => as_branch(alloc, value, common),
        Takes::Any | Takes::AnyFormula => Ok(value),
        Takes::ErrorRecord => as_error(alloc, value),
        Takes::Table => as_table(alloc, value),
        Takes::RowFormula => as_row(value),
        Takes::ScalarFormula | Takes::Compared => {
            let fits = is_scalar(&value.ty);
            if_fits(fits, value)
        }
        Takes::Match => {
            let fits = is_comparable(first, &value.ty);
            if_fits(fits, value)
        }
        Takes::Column | Takes::NewColumn => Err(Wrong::Refused(Rule::WrongType)),
    }
}

// A value that is coerced to a type.
fn as_type(alloc: Global, value: Typed, to: &Ty) -> Result<Typed, Wrong>
    ensures { IsAnswerOf typed (local.by_way (way (shape value.ty) (shape to.now)) value.core
        (shape to.now)) result }
{
    let way = way_to(alloc, &value.ty, to)?;
    by_way(alloc, way, value.core, to)
}

// A value of just this type, or of type Blank.
fn as_exactly(alloc: Global, value: Typed, to: &Ty) -> Result<Typed, Wrong>
    ensures { IsAnswerOf typed (local.by_way (local.exact_way (shape value.ty) (shape to.now))
        value.core (shape to.now)) result }
{
    let way = exact_way(&value.ty, to);
    by_way(alloc, way, value.core, to)
}

// A branch that is coerced to the common type.
fn as_branch(alloc: Global, value: Typed, common: &Ty) -> Result<Typed, Wrong>
    ensures { IsAnswerOf typed (local.by_way (local.branch_way (shape value.ty) (shape common.now))
        value.core (shape common.now)) result }
{
    let way = branch_way(alloc, &value.ty, common)?;
    by_way(alloc, way, value.core, common)
}

// A record that tells an error.
fn as_error(alloc: Global, value: Typed) -> Result<Typed, Wrong>
    ensures { IsAnswerOf typed (local.stand takes.ErrorRecord blanks blanks
        (local.value None value.core (shape value.ty))) result }
{
    // Taken apart first, since no field can be moved out while another is matched on.
    let Typed { core, ty } = value;
    match ty {
        Ty::Rec(columns) => {
            if !tells_error(alloc, &columns)? {
                return Err(Wrong::Refused(without_kind(alloc, &columns)?));
            }
            Ok(Typed {
                core,
                ty: Ty::Rec(columns),
            })
        }
        _ => Err(Wrong::Refused(Rule::WrongType)),
    }
}

// The rule that a record breaks which tells no error.
fn without_kind(alloc: Global, columns: &Columns) -> Result<Rule, Memory>
    ensures { IfOk result (λ r. rule_number r
        ≡ local.without_kind (field_in (codes "Kind") (column_list columns.now))) }
{
    let kind = Words::of(alloc, "Kind")?;
    match field_in(&kind, columns) {
        Some(_) => Ok(Rule::WrongType),
        None => Ok(Rule::UnknownColumn),
    }
}

// A table, or a blank one without columns.
fn as_table(alloc: Global, value: Typed) -> Result<Typed, Wrong>
    ensures { IsAnswerOf typed (local.stand takes.Table blanks blanks
        (local.value None value.core (shape value.ty))) result }
{
    let Typed { core, ty } = value;
    match ty {
        Ty::Tab(columns) => Ok(Typed {
            core,
            ty: Ty::Tab(columns),
        }),
        Ty::Blank => {
            let ty = Ty::Tab(Columns::new(alloc));
            let core = coerce(alloc, core, &ty)?;
            Ok(Typed { core, ty })
        }
        _ => Err(Wrong::Refused(Rule::WrongType)),
    }
}

// A record or a value without parts.
fn as_row(value: Typed) -> Result<Typed, Wrong>
    ensures { IsAnswerOf typed (local.stand takes.RowFormula blanks blanks
        (local.value None value.core (shape value.ty))) result }
{
    match value.ty {
        Ty::Tab(_) => Err(Wrong::Refused(Rule::WrongType)),
        _ => Ok(value),
    }
}

// A value as it is, or the rule `WrongType`.
fn if_fits(fits: bool, value: Typed) -> Result<Typed, Wrong>
    ensures { IsAnswerOf typed (local.part_or_rule fits 6 value.core (shape value.ty)) result }
{
    if fits {
        Ok(value)
    } else {
        Err(Wrong::Refused(Rule::WrongType))
    }
}

/// All parts as they stand, or the first rule that breaks. The type of the first one, as it stands,
/// is known to the others.
pub fn stand_all(
    alloc: Global,
    row: Row,
    common: &Ty,
    parts: Vec<Piece>,
) -> Result<Vec<Typed>, Wrong>
    ensures { IsAnswerOf (λ xs. map typed xs.items)
        (local.stand_all row (shape common.now) (map piece_view parts.items)) result }
{
    let count = parts.len();
    let mut done = Vec::new(alloc);
    for part in parts {
        let next = stand_next(alloc, row, count, done.as_slice(), common, part)?;
        done.push(next)?;
    }
    Ok(done)
}

// The next of so many parts as it stands, behind those that stand.
fn stand_next(
    alloc: Global,
    row: Row,
    count: usize,
    done: &[Typed],
    common: &Ty,
    part: Piece,
) -> Result<Typed, Wrong>
    ensures { IsAnswerOf typed (local.stand (takes_at row count (length done.now))
        (first_type (map (λ x. shape x.ty) done.now)) (shape common.now) (piece_view part)) result }
{
    let takes = row.takes(count, done.len());
    match done.first() {
        Some(first) => stand(alloc, takes, &first.ty, common, part),
        None => stand(alloc, takes, &Ty::Blank, common, part),
    }
}
