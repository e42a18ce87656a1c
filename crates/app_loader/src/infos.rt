//! Formulas with their typed trees.
ghost use Rattle.std.specs.Prelude.{◌≡◌, ◌↔◌, IfOk, Ok, false, length};
ghost use Rattle.app_loader.specs.Admitted.{AreTyped};
ghost use Rattle.app_loader.specs.Infos.{AreElaborated, IsElaborated};
ghost use Rattle.app_loader.specs.Cells.{judged_cell};
ghost use Rattle.app_loader.specs.Types.{HaveLawfulTrees};
ghost use Rattle.fx_plan.specs.Limited.{limited};
ghost use Rattle.fx_plan.specs.Sites.{sites_of};
ghost use Rattle.fx_core.specs.Lawful.{IsLawfulSchema};
ghost use Rattle.fx_core.specs.Reads.{AreSourcesRising, IsAmong, sources_in};
ghost use Rattle.fx_core.specs.declared.sources.Source.{Source};
ghost use Rattle.fx_typing.specs.TypedView.{typed};

use crate::trees::look_at_tree;
use app_cells::{Cell, CellInfo};
use fx_base::{InOrder, Memory};
use fx_core::{Core, Names, Schema, Source};
use fx_infer::Typed;
use fx_plan::{Site, limit_queries, sites};
use std::alloc::Global;

/// These things in order.
pub fn in_order<T: Drop>(alloc: Global, things: Vec<T>) -> Result<InOrder<T>, Memory>
    ensures { IfOk result (λ l. l ≡ things.items) }
{
    let mut all = InOrder::new(alloc);
    for thing in things {
        all.push(thing)?;
    }
    Ok(all)
}

// All that a tree names, each once.
fn reads_of(alloc: Global, core: &Core) -> Result<InOrder<Source>, Memory>
    ensures once { IfOk result AreSourcesRising }
    ensures exact { IfOk result (λ r. (s : Source) → IsAmong s r ↔ IsAmong s (sources_in core.now)) }
{
    let named = core.reads(alloc)?;
    in_order(alloc, named)
}

// Of a tree, the one that is evaluated in an app of this row limit, and where it takes rows of
// tables.
fn taken_of(
    alloc: Global,
    schema: &Schema,
    limit: u32,
    core: &Core,
) -> Result<(Core, InOrder<Site>), Memory>
    requires { IsLawfulSchema schema.now }
    ensures taken { IfOk result (λ p. p.0 ≡ limited schema.now.tables limit 0 false core.now) }
    ensures sites { IfOk result (λ p. p.1 ≡ sites_of schema.now.tables core.now) }
{
    let taken = limit_queries(alloc, schema, limit, core)?;
    let listed = sites(alloc, schema, core)?;
    Ok((taken, in_order(alloc, listed)?))
}

// A formula with its typed tree under names. Of what it stands on nothing is said yet.
fn info_of(
    alloc: Global,
    names: &Names,
    limit: u32,
    cell: Cell,
    tree: Typed,
) -> Result<CellInfo, Memory>
    requires lawful { IsLawfulSchema names.now.schema }
    requires tree { judged_cell names.now cell ≡ Ok (typed tree) }
    ensures { IfOk result (IsElaborated names.now limit cell) }
{
    let reads = reads_of(alloc, &tree.core)?;
    let (taken, sites) = taken_of(alloc, &names.schema, limit, &tree.core)?;
    Ok(CellInfo {
        cell,
        core: tree.core,
        ty: tree.ty,
        reads,
        support: InOrder::new(alloc),
        taken,
        sites,
    })
}

/// Formulas with their typed trees under names, in an app of this row limit.
pub fn infos_of(
    alloc: Global,
    names: &Names,
    limit: u32,
    cells: Vec<Cell>,
    trees: Vec<Typed>,
) -> Result<InOrder<CellInfo>, Memory>
    requires lawful { IsLawfulSchema names.now.schema }
    requires typed { AreTyped names.now cells.items trees.items }
    requires each { length trees.items ≡ length cells.items }
    ensures { IfOk result (AreElaborated names.now limit cells.items) }
{
    let mut all = InOrder::new(alloc);
    for (cell, tree) in cells.into_iter().zip(trees) {
        all.push(info_of(alloc, names, limit, cell, tree)?)?;
    }
    Ok(all)
}

/// Looks at the types that the trees of formulas name.
pub fn look_at_infos(infos: &[CellInfo])
    ensures { HaveLawfulTrees infos.now }
{
    for info in infos {
        look_at_tree(&info.core);
    }
}
