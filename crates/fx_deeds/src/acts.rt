//! Deeds, by the values of their parts.
ghost use Rattle.std.specs.Prelude.{◌≡◌, ◌∷◌, [], true, IfOk, IsErrOf, OnErr, length, map};
ghost use Rattle.fx_base.specs.Faults.{Rose};
ghost use Rattle.fx_types.specs.Types.{Shape};
ghost use Rattle.fx_types.specs.ValueView.{view};
ghost use Rattle.fx_value.specs.Fits.{fits_in};
ghost use Rattle.fx_deeds.specs.CutOff.{CutDeed};
ghost use Rattle.fx_deeds.specs.Doable.{AnswersAs, CanDo};
ghost use Rattle.fx_deeds.specs.Done.{IsDeed};
ghost use Rattle.fx_deeds.specs.StagesOver.{Attempt, StateBecomes};
ghost use Rattle.fx_deeds.specs.State.{eval_frame};
ghost use Rattle.fx_deeds.specs.Writable.{DeedMayWrite};

use crate::deeds::{patch, remove, remove_if};
use crate::session::{clear, clear_collect, collect, navigate, notify, reset, set, set_all};
use crate::world::World;
use fx_core::Deed;
use fx_env::{Steps, Stop};
use fx_types::Value;
use std::alloc::Global;
use std::sync::ledger::Ledger;

/// Does a deed with the values of its parts. `UpdateIf`, whose parts have a value for each row, has
/// a call of its own. At each exit no source was written but those that the deed names.
pub fn do_deed<W: World, L: Ledger>(
    alloc: Global,
    world: &mut W,
    deed: &Deed,
    values: Vec<Value>,
    steps: &mut Steps<L>,
) -> Result<Value, Stop>
    requires { CanDo (W.fixed world.old).types deed.now (map view values.items) }
    ensures attempt { Attempt W.Env W.World.own world.old world.new (DeedMayWrite deed.now) }
    ensures keeper { IsErrOf result Stop.Keeper
        → Rose (W.marks world.old).faults (W.marks world.new).faults }
    ensures done { IfOk result (λ x. StateBecomes W.Env W.World.own world.old world.new
        (λ s t. IsDeed (eval_frame (W.fixed world.old)) deed.now (map view values.items) s (view x)
        t)) }
    ensures cut { OnErr result (StateBecomes W.Env W.World.own world.old world.new
        (CutDeed (eval_frame (W.fixed world.old)) deed.now (map view values.items))) }
    ensures fits { (u : Shape) → AnswersAs (W.fixed world.old).types deed.now u
        → IfOk result (λ x. fits_in (view x) u ≡ true) }
{
    match deed {
        Deed::Set(variable) => set(alloc, world, *variable, only(values)),
        Deed::UpdateContext(variables) => {
            set_all(alloc, world, variables.as_slice(), values.as_slice())
        }
        Deed::Collect(collection) => {
            collect(alloc, world, *collection, values.as_slice(), steps)
        }
        Deed::Clear(collection) => clear(alloc, world, *collection),
        Deed::ClearCollect(collection) => {
            clear_collect(alloc, world, *collection, values.as_slice())
        }
        Deed::Patch(target) => patch(alloc, world, *target, values.as_slice(), steps),
        Deed::Remove(target) => remove(alloc, world, *target, values.as_slice(), steps),
        Deed::RemoveIf(target) => remove_if(alloc, world, *target, only(values), steps),
        Deed::UpdateIf(_) => unreachable!(),
        Deed::Navigate(screen) => navigate(alloc, world, *screen),
        Deed::Notify => notify(alloc, world, only(values)),
        Deed::Reset(control) => reset(alloc, world, *control),
    }
}

// The one value.
fn only(values: Vec<Value>) -> Value
    requires { length values.items ≡ 1 }
    ensures { values.items ≡ result ∷ [] }
{
    let mut values = values;
    match values.pop() {
        Some(value) => value,
        None => unreachable!(),
    }
}
