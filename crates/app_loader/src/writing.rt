//! Formulas of an app as inference takes them.
ghost use Rattle.std.specs.Prelude.{◌≡◌, ◌≤◌, All, IfOk, map};
ghost use Rattle.app_loader.specs.Cells.{AreShallow, round_cell};
ghost use Rattle.app_loader.specs.Written.{IsWritten};
ghost use Rattle.fx_infer.specs.Below.{tree_depth};
ghost use Rattle.fx_infer.specs.CellView.{cell};

use app_cells::Cell;
use fx_base::Memory;
use fx_infer::{Place, Written};
use fx_types::types::Ty;
use std::alloc::Global;

// The type that is wanted of a formula.
fn copy_of(alloc: Global, wanted: &Option<Ty>) -> Result<Option<Ty>, Memory>
    ensures { IfOk result (λ o. o ≡ wanted.now) }
{
    match wanted {
        Some(ty) => Ok(Some(ty.copy(alloc)?)),
        None => Ok(None),
    }
}

/// A formula as inference takes it.
pub fn written_cell(alloc: Global, cell: &Cell) -> Result<Written, Memory>
    ensures { IfOk result (IsWritten cell.now) }
{
    Ok(Written {
        cell: cell.name.copy(alloc)?,
        screen: cell.screen,
        item: cell.item,
        wanted: copy_of(alloc, &cell.wanted)?,
        place: if cell.acts {
            Place::Acting
        } else {
            Place::Pure
        },
        expr: cell.expr.copy(alloc)?,
    })
}

/// Formulas as inference takes them.
pub fn written_cells(alloc: Global, cells: &[Cell]) -> Result<Vec<Written>, Memory>
    requires { AreShallow cells.now }
    ensures cells { IfOk result (λ v. map cell v.items ≡ map round_cell cells.now) }
    ensures shallow { IfOk result (λ v. All (λ w. tree_depth w.expr ≤ 256) v.items) }
{
    let mut all = Vec::with_capacity(alloc, cells.len())?;
    for cell in cells {
        all.push(written_cell(alloc, cell)?)?;
    }
    Ok(all)
}
