//! Rows that are patched or removed.
ghost use Rattle.std.specs.Prelude.{◌≡◌, ◌∷◌, IfOk, map};
ghost use Rattle.fx_typing.specs.Deeds as deeds;
ghost use Rattle.fx_typing.specs.Local as local;
ghost use Rattle.fx_typing.specs.Answers.{IsAnswerOf};
ghost use Rattle.fx_typing.specs.TypedView.{typed};
ghost use Rattle.fx_call_typing.specs.Changes.{changing_view, patched, removed};

use crate::changing::{Changing, changes_of, identify_row, identify_rows};
use fx_base::Memory;
use fx_core::deeds::Deed;
use fx_core::{Core, CoreArgs, Rule, make_core};
use fx_node_typing::arity::first;
use fx_node_typing::first_break::both;
use fx_node_typing::given::perform;
use fx_node_typing::lists::cores_of;
use fx_types::types::Ty;
use fx_typing::typed::Typed;
use fx_typing::wrong::Wrong;
use std::alloc::Global;

// The trees of parts, behind a first one.
fn cores_behind(alloc: Global, first: Core, parts: Vec<Typed>) -> Result<CoreArgs, Memory>
    ensures { IfOk result (λ cs. cs ≡ first ∷ local.firsts (map typed parts.items)) }
{
    let mut cores = CoreArgs::new(alloc);
    cores.push(first)?;
    for part in parts {
        let Typed { core, ty: _ } = part;
        cores.push(core)?;
    }
    Ok(cores)
}

// The tree of a row that is patched, and those of what changes in it.
fn patch(
    alloc: Global,
    rows: &Changing,
    base: Typed,
    changes: Vec<Typed>,
) -> Result<CoreArgs, Wrong>
    ensures { IsAnswerOf (λ cs. cs) (patched (changing_view rows.now) (typed base)
        (map typed changes.items)) result }
{
    let base = identify_row(alloc, rows, base);
    let changes = changes_of(alloc, rows, changes);
    let (base, changes) = both(base, changes)?;
    Ok(cores_behind(alloc, base.core, changes)?)
}

// `Patch` of a row of these rows, and what changes in it.
fn patch_by(alloc: Global, rows: Changing, base: Typed, changes: Vec<Typed>) -> Result<Typed, Wrong>
    ensures { IsAnswerOf typed (deeds.patch_to (changing_view rows)
        (typed base ∷ map typed changes.items)) result }
{
    let cores = patch(alloc, &rows, base, changes)?;
    Ok(Typed {
        core: make_core::act(Deed::Patch(rows.target), cores),
        ty: Ty::Rec(rows.columns),
    })
}

/// `Patch` of these rows: the row, then what changes, or the lowest rule that one of them breaks.
/// The rule is `WrongCount` where there is no row.
pub fn patch_to(alloc: Global, rows: Changing, parts: Vec<Typed>) -> Result<Typed, Wrong>
    ensures { IsAnswerOf typed (deeds.patch_to (changing_view rows) (map typed parts.items)) result }
{
    match first(parts) {
        Some((base, changes)) => patch_by(alloc, rows, base, changes),
        None => Err(Wrong::Refused(Rule::WrongCount)),
    }
}

/// `Remove` of some of these rows, or the lowest rule that one of them breaks.
pub fn remove_to(alloc: Global, rows: &Changing, named: Vec<Typed>) -> Result<Typed, Wrong>
    ensures { IsAnswerOf typed (removed (changing_view rows.now) (map typed named.items)) result }
{
    let found = identify_rows(alloc, rows, named)?;
    Ok(perform(Deed::Remove(rows.target), cores_of(alloc, found)?))
}
