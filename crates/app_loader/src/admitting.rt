//! Which formulas are admitted under names, and what is broken of the others.
ghost use Rattle.std.specs.Prelude.{◌≡◌, ◌≤◌, ◌++◌, ◌∷◌, [], IfErr, IfOk, MatchResult, Ok, OnOk};
ghost use Rattle.app_loader.specs.Admitted.{AreRefused, AreTyped, Breaks};
ghost use Rattle.app_loader.specs.Cells.{AreShallow, judged_cell};
ghost use Rattle.app_loader.specs.JudgedFormulas.{AreSomeBreaks, ReportsBreaks};
ghost use Rattle.fx_infer.specs.Below.{tree_depth};
ghost use Rattle.fx_core.specs.Lawful.{IsLawful};
ghost use Rattle.fx_typing.specs.TypedView.{typed};

use crate::writing::written_cell;
use app_cells::Cell;
use fx_base::Memory;
use fx_core::{AppEnd, Broken, Names};
use fx_infer::{InferEnd, Typed, elaborate};
use std::alloc::Global;

// A formula under names: its tree and its type, or what is broken of it.
fn judge(alloc: Global, names: &Names, cell: &Cell) -> Result<Result<Typed, Broken>, Memory>
    requires lawful { IsLawful names.now }
    requires shallow { tree_depth cell.now.expr ≤ 256 }
    ensures { IfOk result (λ r. MatchResult r (λ t. judged_cell names.now cell.now ≡ Ok (typed t))
        (Breaks names.now cell.now)) }
{
    let written = written_cell(alloc, cell)?;
    match elaborate(alloc, names, &written) {
        Ok(value) => Ok(Ok(value)),
        Err(InferEnd::Broken(broken)) => Ok(Err(Broken {
            cell: broken.cell,
            rule: broken.rule,
            at: broken.at.saturating_sub(cell.at),
            detail: broken.detail,
        })),
        Err(InferEnd::Memory) => Err(Memory),
    }
}

// Adds a typed tree to the others, or what is broken to the breaks.
fn put(
    one: Result<Typed, Broken>,
    trees: &mut Vec<Typed>,
    breaks: &mut Vec<Broken>,
) -> Result<(), Memory>
    ensures { OnOk result (MatchResult one
        (λ t. (trees.new.items ≡ trees.old.items ++ t ∷ []) × (breaks.new.items ≡ breaks.old.items))
        (λ b. (trees.new.items ≡ trees.old.items)
        × (breaks.new.items ≡ breaks.old.items ++ b ∷ []))) }
{
    match one {
        Ok(tree) => trees.push(tree)?,
        Err(broken) => breaks.push(broken)?,
    }
    Ok(())
}

/// The typed trees of formulas that are all admitted under names; or what is broken of the others,
/// one break at most of each, in their order.
pub fn typed_trees(alloc: Global, names: &Names, cells: &[Cell]) -> Result<Vec<Typed>, AppEnd>
    requires lawful { IsLawful names.now }
    requires shallow { AreShallow cells.now }
    ensures typed { IfOk result (λ ts. AreTyped names.now cells.now ts.items) }
    ensures refused { IfErr result (ReportsBreaks (AreSomeBreaks (AreRefused names.now cells.now))) }
{
    let mut trees = Vec::new(alloc);
    let mut breaks = Vec::new(alloc);
    for cell in cells {
        let one = judge(alloc, names, cell)?;
        put(one, &mut trees, &mut breaks)?;
    }
    if breaks.is_empty() {
        Ok(trees)
    } else {
        Err(AppEnd::Refused(breaks))
    }
}
