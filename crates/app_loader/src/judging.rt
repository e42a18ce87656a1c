//! The app of formulas under names.
ghost use Rattle.std.specs.Prelude.{◌≡◌, ◌∷◌, [], Err, IfErr, IfOk, Ok, length, map};
ghost use Rattle.app_loader.specs.Admitted.{AreTyped};
ghost use Rattle.app_loader.specs.Cells.{round_cell};
ghost use Rattle.fx_core.specs.declared.names.Names.{Names as Named};
ghost use Rattle.app_loader.specs.Types.{AreLawfullyTyped, HaveLawfulTrees};
ghost use Rattle.fx_core.specs.Lawful.{IsLawful};
ghost use Rattle.app_loader.specs.Supports.{HaveRisingReads};
ghost use Rattle.app_loader.specs.JudgedFormulas.{AreJudgeable, IsCyclic, IsOrdered, JudgedCells};
ghost use Rattle.app_loader.specs.JudgedFormulas.{ReportsBreaks, unsettled};
ghost use Rattle.app_cells.specs.Leaning.{edges_of};
ghost use Rattle.depend_graph.specs.Order.{AreBelow};
ghost use Rattle.fx_typing.specs.Rounds.{AreFinalTypes, StillChanges};

use crate::admitting::typed_trees;
use crate::cycles::cycle_break;
use crate::edges::edges;
use crate::infos::{in_order, infos_of, look_at_infos};
use crate::supports::support_all;
use crate::types::look_at_types;
use crate::writing::written_cells;
use app_cells::{App, Cell, CellInfo};
use depend_graph::{OrderEnd, order};
use fx_base::InOrder;
use fx_core::{AppEnd, Broken, Names};
use fx_infer::{InferEnd, Typed, type_rounds};
use fx_typing::admitted_is_typed;
use std::alloc::Global;

/// One break alone.
pub fn only(alloc: Global, broken: Broken) -> AppEnd
    ensures { ReportsBreaks (λ bs. bs ≡ broken ∷ []) result }
{
    let mut all = Vec::new(alloc);
    match all.push(broken) {
        Ok(()) => AppEnd::Refused(all),
        Err(_) => AppEnd::Memory,
    }
}

// The names with their final types.
fn final_names(alloc: Global, first: Names, cells: &[Cell]) -> Result<Names, AppEnd>
    requires { AreJudgeable first cells.now }
    ensures types { IfOk result (λ m. AreFinalTypes (map round_cell cells.now) first m) }
    ensures fit { IfOk result (λ m. AreJudgeable m cells.now) }
    ensures unsettled { IfErr result (ReportsBreaks
        (λ bs. (bs ≡ unsettled ∷ []) × StillChanges (map round_cell cells.now) first)) }
{
    let written = written_cells(alloc, cells)?;
    match type_rounds(alloc, first, &written) {
        Ok(names) => Ok(names),
        Err(InferEnd::Broken(broken)) => Err(only(alloc, broken)),
        Err(InferEnd::Memory) => Err(AppEnd::Memory),
    }
}

// The app of formulas with their typed trees, by their order, each with what it stands on.
fn ordered_app(
    alloc: Global,
    names: Names,
    limit: u32,
    infos: InOrder<CellInfo>,
) -> Result<App, AppEnd>
    requires below { AreBelow (length infos) (edges_of names infos) }
    requires reads { HaveRisingReads infos }
    ensures app { IfOk result (IsOrdered names limit infos) }
    ensures refused { IfErr result (ReportsBreaks (IsCyclic names infos)) }
{
    // No app has so many formulas as numbers go.
    let Ok(count) = u32::try_from(infos.len()) else {
        return Err(AppEnd::Memory);
    };
    let edges = edges(alloc, &names, infos.as_slice())?;
    match order(alloc, count, &edges) {
        Ok(numbers) => {
            let cells = support_all(alloc, &names, infos, &numbers)?;
            Ok(App {
                names,
                cells,
                order: in_order(alloc, numbers)?,
                limit,
            })
        }
        Err(OrderEnd::Cycle(path)) => {
            let broken = cycle_break(alloc, infos.as_slice(), &path)?;
            Err(only(alloc, broken))
        }
        Err(OrderEnd::Memory) => Err(AppEnd::Memory),
    }
}

// The app of formulas that are all admitted, with their typed trees.
fn built_app(
    alloc: Global,
    names: Names,
    limit: u32,
    cells: Vec<Cell>,
    trees: Vec<Typed>,
) -> Result<App, AppEnd>
    requires fit { AreJudgeable names cells.items }
    requires typed { AreTyped names cells.items trees.items }
    ensures app { (first : Named) → AreFinalTypes (map round_cell cells.items) first names
        → IfOk result (λ a. JudgedCells first limit cells.items (Ok a)) }
    ensures refused { (first : Named) → AreFinalTypes (map round_cell cells.items) first names
        → IfErr result (ReportsBreaks (λ bs. JudgedCells first limit cells.items (Err bs))) }
    ensures names { IfOk result (λ a. a.names ≡ names) }
    ensures trees { IfOk result (λ a. HaveLawfulTrees a.cells) }
{
    // The law is called for what it says of the trees: each source that they read has a type.
    admitted_is_typed();
    let infos = infos_of(alloc, &names, limit, cells, trees)?;
    look_at_infos(infos.as_slice());
    ordered_app(alloc, names, limit, infos)
}

// The app of formulas under names with their final types.
fn typed_app(alloc: Global, names: Names, limit: u32, cells: Vec<Cell>) -> Result<App, AppEnd>
    requires { AreJudgeable names cells.items }
    ensures app { (first : Named) → AreFinalTypes (map round_cell cells.items) first names
        → IfOk result (λ a. JudgedCells first limit cells.items (Ok a)) }
    ensures refused { (first : Named) → AreFinalTypes (map round_cell cells.items) first names
        → IfErr result (ReportsBreaks (λ bs. JudgedCells first limit cells.items (Err bs))) }
    ensures names { IfOk result (λ a. a.names ≡ names) }
    ensures trees { IfOk result (λ a. HaveLawfulTrees a.cells) }
{
    match typed_trees(alloc, &names, &cells) {
        Ok(trees) => built_app(alloc, names, limit, cells, trees),
        Err(end) => Err(end),
    }
}

/// The app of formulas under names in which they have their numbers. It is refused with the breaks
/// of the first stage that has any: the rounds of its types, its formulas, and circles in which
/// formulas lean on one another.
pub fn app_of(alloc: Global, first: Names, limit: u32, cells: Vec<Cell>) -> Result<App, AppEnd>
    requires { AreJudgeable first cells.items }
    ensures app { IfOk result (λ a. JudgedCells first limit cells.items (Ok a)) }
    ensures refused { IfErr result (ReportsBreaks
        (λ bs. JudgedCells first limit cells.items (Err bs))) }
    ensures typed { IfOk result (λ a. AreLawfullyTyped a.names) }
    ensures trees { IfOk result (λ a. HaveLawfulTrees a.cells) }
    ensures lawful { IfOk result (λ a. IsLawful a.names) }
{
    match final_names(alloc, first, &cells) {
        Ok(names) => {
            look_at_types(&names);
            typed_app(alloc, names, limit, cells)
        }
        Err(end) => Err(end),
    }
}
