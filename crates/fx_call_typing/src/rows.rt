//! Rows that change, by their name.
ghost use Rattle.std.specs.Prelude.{◌≡◌, ℕ, IfOk, Result, map};
ghost use Rattle.fx_types.specs.TypeView.{shape};
ghost use Rattle.fx_types.specs.Types.{Shape, no_columns, records};
ghost use Rattle.fx_core.specs.Term.{Term};
ghost use Rattle.fx_typing.specs.Deeds as deeds;
ghost use Rattle.fx_core.specs.Lawful.{IsLawful};
ghost use Rattle.fx_typing.specs.Answers.{IsAnswerOf};
ghost use Rattle.fx_typing.specs.TypedView.{typed};
ghost use Rattle.fx_resolve.specs.PartView.{judged_part};
ghost use Rattle.fx_call_typing.specs.Changes.{found_view, rows_to_change, settled};

use crate::changing::Changing;
use crate::patching::{patch_to, remove_to};
use crate::values::values;
use fx_base::Memory;
use fx_core::names::Names;
use fx_core::{CoreArgs, Rule, make_core};
use fx_node_typing::given::do_nothing;
use fx_resolve::targets::find_target;
use fx_resolve::{Part, RowsNamed};
use fx_types::types::{Columns, Ty};
use fx_types::values::{Fields, Value};
use fx_types::words::Words;
use fx_typing::typed::Typed;
use fx_typing::wrong::Wrong;
use std::alloc::Global;

/// The rows of this name, and whether they are those of a collection of type Blank, which is a
/// table without columns; or the rule `NotAVariable` where there are none, or `WrongType` where a
/// collection has no type of a table.
pub fn find_rows(alloc: Global, names: &Names, name: &Words) -> Result<(Changing, bool), Wrong>
    requires { IsLawful names.now }
    ensures { IsAnswerOf found_view (rows_to_change names.now name.now) result }
{
    let Some(RowsNamed { target, ty }) = find_target(alloc, names, name)? else {
        return Err(Wrong::Refused(Rule::NotAVariable));
    };
    match ty {
        Ty::Tab(columns) => Ok((Changing { target, columns }, false)),
        Ty::Blank => {
            let columns = Columns::new(alloc);
            Ok((Changing { target, columns }, true))
        }
        _ => Err(Wrong::Refused(Rule::WrongType)),
    }
}

// A record without fields, behind a deed that changes nothing.
fn row_of_none(alloc: Global) -> Result<Typed, Memory>
    ensures { IfOk result (λ t. typed t ≡ deeds.nothing_as (records no_columns)) }
{
    let mut parts = CoreArgs::new(alloc);
    parts.push(do_nothing(alloc).core)?;
    parts.push(make_core::constant(Value::Rec(Fields::new(alloc))))?;
    Ok(Typed {
        core: make_core::chain(parts),
        ty: Ty::Rec(Columns::new(alloc)),
    })
}

// What a call answers whose rows are none: for a row one without columns.
fn nothing_as(alloc: Global, ty: &Ty) -> Result<Typed, Memory>
    ensures { IfOk result (λ t. typed t ≡ deeds.nothing_as (shape ty.now)) }
{
    match ty {
        Ty::Rec(_) => row_of_none(alloc),
        _ => Ok(do_nothing(alloc)),
    }
}

/// What is made of rows: of those of a collection of type Blank nothing is done.
pub fn settle(alloc: Global, is_blank: bool, made: Result<Typed, Wrong>) -> Result<Typed, Wrong>
    ensures { (r : Result (Term × Shape) ℕ) → IsAnswerOf typed r made
        → IsAnswerOf typed (settled is_blank r) result }
{
    match made {
        Ok(value) => {
            if is_blank {
                Ok(nothing_as(alloc, &value.ty)?)
            } else {
                Ok(value)
            }
        }
        Err(Wrong::Refused(rule)) => Err(Wrong::Refused(rule)),
        Err(Wrong::Memory) => Err(Wrong::Memory),
    }
}

/// `Patch`: rows, one of them, and what changes in it. It answers the whole row.
pub fn patch_of(
    alloc: Global,
    names: &Names,
    name: &Words,
    parts: Vec<Part>,
) -> Result<Typed, Wrong>
    requires { IsLawful names.now }
    ensures { IsAnswerOf typed (deeds.patch_of names.now name.now
        (map judged_part parts.entry.items)) result }
{
    let values = values(alloc, parts)?;
    let (rows, is_blank) = find_rows(alloc, names, name)?;
    settle(alloc, is_blank, patch_to(alloc, rows, values))
}

/// `Remove`: rows, and some of them.
pub fn remove_of(
    alloc: Global,
    names: &Names,
    name: &Words,
    parts: Vec<Part>,
) -> Result<Typed, Wrong>
    requires { IsLawful names.now }
    ensures { IsAnswerOf typed (deeds.remove_of names.now name.now
        (map judged_part parts.entry.items)) result }
{
    let values = values(alloc, parts)?;
    let (rows, is_blank) = find_rows(alloc, names, name)?;
    settle(alloc, is_blank, remove_to(alloc, &rows, values))
}
