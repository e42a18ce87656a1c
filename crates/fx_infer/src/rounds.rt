//! The types of variables, collections, named formulas and the items of galleries.
ghost use Rattle.std.specs.Prelude.{◌≡◌, ◌≤◌, All, Err, IfOk, codes, map};
ghost use Rattle.fx_infer.specs.Below.{tree_depth};
ghost use Rattle.fx_infer.specs.declared.elaboration.Written.{Written};
ghost use Rattle.fx_infer.specs.declared.ends.InferEnd.TheVariants as end;
ghost use Rattle.fx_typing.specs.Rounds.{AreFinalTypes, StillChanges};
ghost use Rattle.fx_core.specs.Lawful.{IsLawful};
ghost use Rattle.fx_core.specs.declared.broken.Broken.{Broken};
ghost use Rattle.fx_infer.specs.CellView.{cell};
ghost use Rattle.fx_infer.specs.Limit.{IsRoundsLimit, Settles};

use crate::next_round::next_types;
use crate::round_types::{are_types_of, first_types};
use crate::typed_names::with_types;
use crate::{InferEnd, Written};
use fx_base::Memory;
use fx_core::names::Names;
use fx_core::{Broken, Rule};
use fx_types::words::Words;
use std::alloc::Global;

// The cell of a limit that no one formula passes by itself.
fn app_name(alloc: Global) -> Result<Words, Memory>
    ensures { IfOk result (λ w. w ≡ codes "App") }
{
    Words::of(alloc, "App")
}

// The limit of rounds.
fn rounds_name(alloc: Global) -> Result<Words, Memory>
    ensures { IfOk result (λ w. w ≡ codes "rounds 256") }
{
    Words::of(alloc, "rounds 256")
}

// The limit that is passed where types still change.
fn rounds_limit(alloc: Global) -> Result<Broken, Memory>
    ensures { IfOk result IsRoundsLimit }
{
    Ok(Broken {
        cell: app_name(alloc)?,
        rule: Rule::LimitPassed,
        at: 0,
        detail: rounds_name(alloc)?,
    })
}

/// The names with their final types. At first all types are Blank. Each round, under the types of
/// the one before, gives a named formula and the items of a gallery the type of its formula, and a
/// variable or collection the join of the types that are given to it. The types are final where a
/// round keeps them all. Where none of 256 rounds does, the rule `LimitPassed` is broken.
pub fn type_rounds(alloc: Global, names: Names, cells: &[Written]) -> Result<Names, InferEnd>
    requires lawful { IsLawful names }
    requires shallow { All (λ (c : Written). tree_depth c.expr ≤ 256) cells.now }
    ensures types { IfOk result (λ m. AreFinalTypes (map cell cells.now) names m) }
    ensures lawful { IfOk result IsLawful }
    ensures settles { IfOk result (λ m. Settles (map cell cells.now) names) }
    ensures broken { (b : Broken) → result ≡ Err (end.Broken b)
        → StillChanges (map cell cells.now) names }
    ensures told { (b : Broken) → result ≡ Err (end.Broken b) → IsRoundsLimit b }
{
    let blank = first_types(alloc, &names)?;
    let mut typed = with_types(alloc, names, blank)?;
    for round in 0..256usize {
        let next = next_types(alloc, &typed, cells)?;
        if are_types_of(&next, &typed) {
            return Ok(typed);
        }
        typed = with_types(alloc, typed, next)?;
    }
    Err(InferEnd::Broken(rounds_limit(alloc)?))
}
