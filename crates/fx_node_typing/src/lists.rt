//! Tables made of their rows, and formulas in the scope of a record.
ghost use Rattle.std.specs.Prelude.{◌≡◌, ◌<◌, [], IfOk, Some, length, map, option_map};
ghost use Rattle.fx_types.specs.TypeView.{shape};
ghost use Rattle.fx_typing.specs.Builds as builds;
ghost use Rattle.fx_typing.specs.Local as local;
ghost use Rattle.fx_typing.specs.Ways.{way};
ghost use Rattle.fx_typing.specs.Answers.{IsAnswerOf};
ghost use Rattle.fx_typing.specs.TypedView.{typed};

use crate::arity::two;
use crate::given::alone;
use crate::limits::check_limits;
use fx_base::Memory;
use fx_core::{Core, CoreArgs, Fun, Rule, make_core};
use fx_types::types::{Columns, Ty};
use fx_typing::columns::row_columns;
use fx_typing::typed::Typed;
use fx_typing::ways::{by_way, coerce, way_to};
use fx_typing::wrong::Wrong;
use fx_value::joining::join;
use std::alloc::Global;

/// The trees of parts.
pub fn cores_of(alloc: Global, parts: Vec<Typed>) -> Result<CoreArgs, Memory>
    ensures { IfOk result (λ cs. cs ≡ local.firsts (map typed parts.items)) }
{
    let mut cores = CoreArgs::new(alloc);
    for part in parts {
        let Typed { core, ty: _ } = part;
        cores.push(core)?;
    }
    Ok(cores)
}

// The join with one more type, if there is one.
fn join_next(alloc: Global, joined: Option<Ty>, next: &Ty) -> Result<Option<Ty>, Memory>
    ensures { IfOk result (λ t. option_map shape t
        ≡ local.then_join (shape next.now) (option_map shape joined)) }
{
    match joined {
        Some(ty) => join(alloc, &ty, next),
        None => Ok(None),
    }
}

// The join of a type and those of parts, from the left, if there is one.
fn join_types(alloc: Global, start: Option<Ty>, parts: &[Typed]) -> Result<Option<Ty>, Memory>
    ensures { IfOk result (λ t. option_map shape t
        ≡ local.join_all (option_map shape start) (map typed parts.now)) }
{
    let mut joined = start;
    for part in parts {
        joined = join_next(alloc, joined, &part.ty)?;
    }
    Ok(joined)
}

/// A value as one of a type, if it comes to it, or the rule `WrongType`.
pub fn come_to(alloc: Global, part: Typed, ty: &Ty) -> Result<Typed, Wrong>
    ensures { IsAnswerOf typed (local.by_way (way (shape part.ty) (shape ty.now)) part.core
        (shape ty.now)) result }
{
    let way = way_to(alloc, &part.ty, ty)?;
    by_way(alloc, way, part.core, ty)
}

// All rows as ones of a type.
fn rows_to(alloc: Global, ty: &Ty, parts: Vec<Typed>) -> Result<Vec<Typed>, Wrong>
    ensures { IsAnswerOf (λ rs. map typed rs.items)
        (builds.rows_to (shape ty.now) (map typed parts.items)) result }
{
    let mut rows = Vec::new(alloc);
    for part in parts {
        rows.push(come_to(alloc, part, ty)?)?;
    }
    Ok(rows)
}

// A table of rows of this type.
fn list_by(alloc: Global, row: Ty, parts: Vec<Typed>) -> Result<Typed, Memory>
    ensures { IfOk result (λ t. typed t ≡ builds.list_by (shape row) (map typed parts.items)) }
{
    let columns = row_columns(alloc, row.copy(alloc)?)?;
    let parts = cores_of(alloc, parts)?;
    Ok(Typed {
        core: make_core::list(row, parts),
        ty: Ty::Tab(columns),
    })
}

// A table of rows of the join of their types, if there is one.
fn list_as(alloc: Global, row: Option<Ty>, parts: Vec<Typed>) -> Result<Typed, Wrong>
    ensures { IsAnswerOf typed (builds.list_as (option_map shape row) (map typed parts.items))
        result }
{
    match row {
        None | Some(Ty::Tab(_)) => Err(Wrong::Refused(Rule::WrongType)),
        Some(row) => {
            let parts = rows_to(alloc, &row, parts)?;
            Ok(list_by(alloc, row, parts)?)
        }
    }
}

// `[]`, which has no columns.
fn empty_list(alloc: Global) -> Result<Typed, Wrong>
    ensures { IsAnswerOf typed (builds.typed_list []) result }
{
    let table = list_as(alloc, Some(Ty::Rec(Columns::new(alloc))), Vec::new(alloc))?;
    check_limits(table)
}

// `[..]` of one row or more.
fn full_list(alloc: Global, parts: Vec<Typed>) -> Result<Typed, Wrong>
    requires { 0 < length parts.items }
    ensures { IsAnswerOf typed (builds.typed_list (map typed parts.items)) result }
{
    let row = join_types(alloc, Some(Ty::Blank), parts.as_slice())?;
    let table = list_as(alloc, row, parts)?;
    check_limits(table)
}

/// `[..]`: a table of values or of records. Of type Blank alone it has values, and without rows it
/// has no columns. The rule is `WrongType` or `LimitPassed`.
pub fn list_of(alloc: Global, parts: Vec<Typed>) -> Result<Typed, Wrong>
    ensures { IsAnswerOf typed (builds.typed_list (map typed parts.items)) result }
{
    if parts.is_empty() {
        return empty_list(alloc);
    }
    full_list(alloc, parts)
}

// A list of rows in a call of `Table`.
fn as_table_call(alloc: Global, table: Typed) -> Result<Typed, Memory>
    ensures { IfOk result (λ t. typed t ≡ builds.as_table_call (typed table)) }
{
    let Typed { core, ty } = table;
    let core = make_core::call(Fun::Table, alone(alloc, core)?);
    Ok(Typed { core, ty })
}

/// `Table`: a table of records, of which one of type Blank is one without columns, in a call of its
/// own. The rule is `WrongType`.
pub fn table_of(alloc: Global, parts: Vec<Typed>) -> Result<Typed, Wrong>
    ensures { IsAnswerOf typed (builds.typed_table (map typed parts.items)) result }
{
    let start = Some(Ty::Rec(Columns::new(alloc)));
    let row = join_types(alloc, start, parts.as_slice())?;
    let table = list_as(alloc, row, parts)?;
    Ok(as_table_call(alloc, table)?)
}

// A record, where one of type Blank is one without fields.
fn as_record(alloc: Global, part: Typed) -> Result<Core, Wrong>
    ensures { IsAnswerOf (λ c. c) (builds.as_record (typed part)) result }
{
    let Typed { core, ty } = part;
    match ty {
        Ty::Rec(_) => Ok(core),
        Ty::Blank => Ok(coerce(alloc, core, &Ty::Rec(Columns::new(alloc)))?),
        _ => Err(Wrong::Refused(Rule::WrongType)),
    }
}

/// `With`: a record, and a formula in its scope. The rule is `WrongType`, or `WrongCount` where
/// there are not two parts.
pub fn with_of(alloc: Global, parts: Vec<Typed>) -> Result<Typed, Wrong>
    ensures { IsAnswerOf typed (builds.with_of (map typed parts.items)) result }
{
    let Some((record, formula)) = two(parts) else {
        return Err(Wrong::Refused(Rule::WrongCount));
    };
    let scope = as_record(alloc, record)?;
    Ok(Typed {
        core: make_core::within(alloc, scope, formula.core)?,
        ty: formula.ty,
    })
}
