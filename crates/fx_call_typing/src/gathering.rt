//! Rows that are put in collections.
ghost use Rattle.std.specs.Prelude.{◌≡◌, IfOk, map, if◌then◌else◌};
ghost use Rattle.fx_types.specs.TypeView.{shape};
ghost use Rattle.fx_core.specs.declared.deeds.Deed.TheVariants as deed;
ghost use Rattle.fx_typing.specs.Deeds as deeds;
ghost use Rattle.fx_typing.specs.Answers.{IsAnswerOf};
ghost use Rattle.fx_typing.specs.TypedView.{typed};

use fx_base::Memory;
use fx_core::deeds::Deed;
use fx_core::make_core;
use fx_node_typing::given::{alone, give};
use fx_types::types::Ty;
use fx_typing::columns::row_columns;
use fx_typing::typed::Typed;
use fx_typing::wrong::Wrong;
use std::alloc::Global;

// A collected value as rows: a table's own, and else one row.
fn rows_of(alloc: Global, value: Typed) -> Result<Typed, Memory>
    ensures { IfOk result (λ t. typed t ≡ deeds.rows_collected (typed value)) }
{
    let Typed { core, ty } = value;
    match ty {
        Ty::Tab(columns) => Ok(Typed {
            core,
            ty: Ty::Tab(columns),
        }),
        row => {
            let columns = row_columns(alloc, row.copy(alloc)?)?;
            Ok(Typed {
                core: make_core::list(row, alone(alloc, core)?),
                ty: Ty::Tab(columns),
            })
        }
    }
}

// A collected value as rows that are given to a collection of this type.
fn give_rows(alloc: Global, ty: &Ty, value: Typed) -> Result<Typed, Wrong>
    ensures { IsAnswerOf typed (deeds.given_variable (shape ty.now)
        (deeds.rows_collected (typed value))) result }
{
    let rows = rows_of(alloc, value)?;
    give(alloc, ty, rows)
}

/// Collected values as rows that are given to a collection of this type, or the rule that the first
/// wrong one breaks.
pub fn rows_for(alloc: Global, ty: &Ty, collected: Vec<Typed>) -> Result<Vec<Typed>, Wrong>
    ensures { IsAnswerOf (λ rs. map typed rs.items)
        (deeds.rows_given (shape ty.now) (map typed collected.items)) result }
{
    let mut rows = Vec::new(alloc);
    for value in collected {
        let next = give_rows(alloc, ty, value)?;
        rows.push(next)?;
    }
    Ok(rows)
}

/// The deed of `Collect`, or that of `ClearCollect`, which clears.
pub fn collect_deed(clears: bool, collection: u32) -> Deed
    ensures { result ≡ (if clears then deed.ClearCollect else deed.Collect) collection }
{
    if clears {
        Deed::ClearCollect(collection)
    } else {
        Deed::Collect(collection)
    }
}
