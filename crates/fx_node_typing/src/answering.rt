//! The types that calls answer.
ghost use Rattle.std.specs.Prelude.{◌≡◌, ◌∷◌, Ok, map};
ghost use Rattle.fx_types.specs.TypeView.{shape};
ghost use Rattle.fx_types.specs.Types.{column_list};
ghost use Rattle.fx_typing.specs.WellTyped as typing;
ghost use Rattle.fx_typing.specs.Answers.{IsAnswerOf};
ghost use Rattle.fx_node_typing.specs.Tables.{table_columns};
ghost use Rattle.fx_typing.specs.TypedView.{typed};

use fx_core::Rule;
use fx_core::rows::Answer;
use fx_types::types::{Columns, Ty};
use fx_typing::columns::{
    add_columns, drop_columns, group_columns, rename_columns, row_columns, show_columns,
    ungroup_columns, value_column,
};
use fx_typing::typed::Typed;
use fx_typing::wrong::Wrong;
use std::alloc::Global;

/// The type that a call answers, from its parts as they stand and the common type of its branches,
/// or the rule that is broken.
pub fn answer_type(alloc: Global, answer: Answer, common: &Ty, parts: &[Typed]) -> Result<Ty, Wrong>
    ensures { IsAnswerOf shape (typing.answered_type answer (shape common.now)
        (map typed parts.now)) result }
{
    match parts.split_first() {
        Some((first, rest)) => answer_type_behind(alloc, answer, common, first, rest),
        None => match answer {
            Answer::Scalar(scalar) => Ok(scalar.ty()),
            Answer::Common => same(alloc, common),
            _ => Err(Wrong::Refused(Rule::WrongType)),
        },
    }
}

// The type that a call with a first part answers.
fn answer_type_behind(
    alloc: Global,
    answer: Answer,
    common: &Ty,
    first: &Typed,
    rest: &[Typed],
) -> Result<Ty, Wrong>
    ensures { IsAnswerOf shape (typing.answered_type answer (shape common.now)
        (typed first.now ∷ map typed rest.now)) result }
{
    match answer {
        Answer::Scalar(scalar) => Ok(scalar.ty()),
        Answer::Common => same(alloc, common),
        Answer::Same => same(alloc, &first.ty),
        Answer::Row => row_type(alloc, &first.ty),
        Answer::Found => match rest {
            [_, formula, ..] => same(alloc, &formula.ty),
            _ => row_type(alloc, &first.ty),
        },
        Answer::Added => {
            let columns = add_columns(alloc, rest, columns_of(alloc, &first.ty)?)?;
            Ok(Ty::Tab(columns))
        }
        Answer::Dropped => {
            let columns = drop_columns(alloc, rest, columns_of(alloc, &first.ty)?)?;
            Ok(Ty::Tab(columns))
        }
        Answer::Shown => {
            let columns = show_columns(alloc, rest, columns_of(alloc, &first.ty)?)?;
            Ok(Ty::Tab(columns))
        }
        Answer::Renamed => {
            let columns = rename_columns(alloc, rest, columns_of(alloc, &first.ty)?)?;
            Ok(Ty::Tab(columns))
        }
        Answer::Grouped => {
            let columns = group_columns(alloc, rest, columns_of(alloc, &first.ty)?)?;
            Ok(Ty::Tab(columns))
        }
        Answer::Ungrouped => {
            let columns = ungroup_columns(alloc, rest, columns_of(alloc, &first.ty)?)?;
            Ok(Ty::Tab(columns))
        }
        Answer::Values => match rest.first() {
            Some(formula) => Ok(Ty::Tab(value_column(alloc, formula.ty.copy(alloc)?)?)),
            None => Err(Wrong::Refused(Rule::WrongType)),
        },
        Answer::Each => match rest.first() {
            Some(formula) => Ok(Ty::Tab(row_columns(alloc, formula.ty.copy(alloc)?)?)),
            None => Err(Wrong::Refused(Rule::WrongType)),
        },
    }
}

// The same type once more.
fn same(alloc: Global, ty: &Ty) -> Result<Ty, Wrong>
    ensures { IsAnswerOf shape (Ok (shape ty.now)) result }
{
    Ok(ty.copy(alloc)?)
}

// A row of a table.
fn row_type(alloc: Global, table: &Ty) -> Result<Ty, Wrong>
    ensures { IsAnswerOf shape (Ok (typing.row_type (shape table.now))) result }
{
    match table {
        Ty::Tab(columns) => Ok(Ty::Rec(columns.copy(alloc)?)),
        _ => Ok(Ty::Rec(Columns::new(alloc))),
    }
}

// The columns of a table.
fn columns_of(alloc: Global, table: &Ty) -> Result<Columns, Wrong>
    ensures { IsAnswerOf column_list (table_columns (shape table.now)) result }
{
    match table {
        Ty::Tab(columns) => Ok(columns.copy(alloc)?),
        _ => Err(Wrong::Refused(Rule::WrongType)),
    }
}
