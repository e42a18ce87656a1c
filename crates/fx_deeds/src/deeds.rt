//! Deeds on rows, by the values of their parts.
ghost use Rattle.std.specs.Prelude.{◌≡◌, [], ◌∷◌, true, IfOk, IsErrOf, OnErr, map};
ghost use Rattle.fx_base.specs.Faults.{Rose};
ghost use Rattle.fx_types.specs.Types.{Shape, booleans};
ghost use Rattle.fx_types.specs.ValueView.{view};
ghost use Rattle.fx_core.specs.declared.deeds.Deed.TheVariants as deed;
ghost use Rattle.fx_core.specs.declared.deeds.Target.TheVariants as target;
ghost use Rattle.fx_value.specs.Fits.{fits_in};
ghost use Rattle.fx_deeds.specs.CutOff.{CutDeed, CutUpdate};
ghost use Rattle.fx_deeds.specs.Doable.{AnswersAs, CanDo, CanUpdate};
ghost use Rattle.fx_deeds.specs.Done.{IsDeed, IsUpdate};
ghost use Rattle.fx_deeds.specs.StagesOver.{Attempt, StateBecomes};
ghost use Rattle.fx_deeds.specs.State.{eval_frame};
ghost use Rattle.fx_deeds.specs.Writable.{DeedMayWrite};

use crate::answers::first_error;
use crate::collections::{patch_equal, remove_equal};
use crate::filtering::{remove_filtered, take_filtered};
use crate::removing::remove_rows;
use crate::table_rows::{patch_table, update_table};
use crate::updates::{first_of_changes, update_equal};
use crate::world::World;
use fx_core::Target;
use fx_env::{Steps, Stop};
use fx_types::{Fields, Value};
use std::alloc::Global;
use std::sync::ledger::Ledger;

/// `Remove`: takes rows out of a table by their numbers, or out of a collection the first equal
/// ones, up to the first that is missing. An error among the values is the answer.
pub fn remove<W: World, L: Ledger>(
    alloc: Global,
    world: &mut W,
    target: Target,
    values: &[Value],
    steps: &mut Steps<L>,
) -> Result<Value, Stop>
    requires { CanDo (W.fixed world.old).types (deed.Remove target) (map view values.now) }
    ensures attempt { Attempt W.Env W.World.own world.old world.new
        (DeedMayWrite (deed.Remove target)) }
    ensures keeper { IsErrOf result Stop.Keeper
        → Rose (W.marks world.old).faults (W.marks world.new).faults }
    ensures done { IfOk result (λ x. StateBecomes W.Env W.World.own world.old world.new
        (λ s t. IsDeed (eval_frame (W.fixed world.old)) (deed.Remove target) (map view values.now) s
        (view x) t)) }
    ensures cut { OnErr result (StateBecomes W.Env W.World.own world.old world.new
        (CutDeed (eval_frame (W.fixed world.old)) (deed.Remove target) (map view values.now))) }
    ensures fits { IfOk result (λ x. fits_in (view x) booleans ≡ true) }
{
    if let Some(error) = first_error(alloc, values)? {
        return Ok(error);
    }
    match target {
        Target::Table(table) => remove_rows(alloc, world, table, values),
        Target::Gathered(collection) => remove_equal(alloc, world, collection, values, steps),
    }
}

/// `RemoveIf`, by the table that its filter gave: takes these rows out. An error in its place is
/// the answer.
pub fn remove_if<W: World, L: Ledger>(
    alloc: Global,
    world: &mut W,
    target: Target,
    filtered: Value,
    steps: &mut Steps<L>,
) -> Result<Value, Stop>
    requires { CanDo (W.fixed world.old).types (deed.RemoveIf target) (view filtered ∷ []) }
    ensures attempt { Attempt W.Env W.World.own world.old world.new
        (DeedMayWrite (deed.RemoveIf target)) }
    ensures keeper { IsErrOf result Stop.Keeper
        → Rose (W.marks world.old).faults (W.marks world.new).faults }
    ensures done { IfOk result (λ x. StateBecomes W.Env W.World.own world.old world.new
        (λ s t. IsDeed (eval_frame (W.fixed world.old)) (deed.RemoveIf target) (view filtered ∷ [])
        s (view x) t)) }
    ensures cut { OnErr result (StateBecomes W.Env W.World.own world.old world.new
        (CutDeed (eval_frame (W.fixed world.old)) (deed.RemoveIf target) (view filtered ∷ []))) }
    ensures fits { IfOk result (λ x. fits_in (view x) booleans ≡ true) }
{
    match target {
        Target::Table(table) => remove_filtered(alloc, world, table, filtered),
        Target::Gathered(collection) => take_filtered(alloc, world, collection, filtered, steps),
    }
}

/// `Patch`, by the base and the changes. On a table it makes a row where the base's number is
/// blank, and changes the row of that number otherwise. On a collection a base whose fields are all
/// blank appends a row, and another one changes the first row equal to it. An error among the
/// values or in a changed field is the answer.
pub fn patch<W: World, L: Ledger>(
    alloc: Global,
    world: &mut W,
    target: Target,
    values: &[Value],
    steps: &mut Steps<L>,
) -> Result<Value, Stop>
    requires { CanDo (W.fixed world.old).types (deed.Patch target) (map view values.now) }
    ensures attempt { Attempt W.Env W.World.own world.old world.new
        (DeedMayWrite (deed.Patch target)) }
    ensures keeper { IsErrOf result Stop.Keeper
        → Rose (W.marks world.old).faults (W.marks world.new).faults }
    ensures done { IfOk result (λ x. StateBecomes W.Env W.World.own world.old world.new
        (λ s t. IsDeed (eval_frame (W.fixed world.old)) (deed.Patch target) (map view values.now) s
        (view x) t)) }
    ensures cut { OnErr result (StateBecomes W.Env W.World.own world.old world.new
        (CutDeed (eval_frame (W.fixed world.old)) (deed.Patch target) (map view values.now))) }
    ensures fits { (u : Shape) → AnswersAs (W.fixed world.old).types (deed.Patch target) u
        → IfOk result (λ x. fits_in (view x) u ≡ true) }
{
    if let Some(error) = first_error(alloc, values)? {
        return Ok(error);
    }
    let Some((base, changes)) = values.split_first() else {
        unreachable!()
    };
    match target {
        Target::Table(table) => patch_table(alloc, world, table, base, changes),
        Target::Gathered(collection) => {
            patch_equal(alloc, world, collection, base, changes, steps)
        }
    }
}

/// `UpdateIf`, by the rows of its filter and the change of each. On a table the rows are changed
/// one by one, up to the first that a rule refuses; a collection is changed as a whole. An error
/// among the changes or in their fields is the answer.
pub fn update<W: World, L: Ledger>(
    alloc: Global,
    world: &mut W,
    target: Target,
    rows: &[Fields],
    changes: &[Value],
    steps: &mut Steps<L>,
) -> Result<Value, Stop>
    requires { CanUpdate (W.fixed world.old).types target rows.now (map view changes.now) }
    ensures attempt { Attempt W.Env W.World.own world.old world.new
        (DeedMayWrite (deed.UpdateIf target)) }
    ensures keeper { IsErrOf result Stop.Keeper
        → Rose (W.marks world.old).faults (W.marks world.new).faults }
    ensures done { IfOk result (λ x. StateBecomes W.Env W.World.own world.old world.new
        (λ s t. IsUpdate (eval_frame (W.fixed world.old)) target rows.now (map view changes.now) s
        (view x) t)) }
    ensures cut { OnErr result (StateBecomes W.Env W.World.own world.old world.new
        (CutUpdate (eval_frame (W.fixed world.old)) target rows.now (map view changes.now))) }
    ensures fits { IfOk result (λ x. fits_in (view x) booleans ≡ true) }
{
    if let Some(error) = first_of_changes(alloc, changes)? {
        return Ok(error);
    }
    match target {
        Target::Table(table) => update_table(alloc, world, table, rows, changes),
        Target::Gathered(collection) => {
            update_equal(alloc, world, collection, rows, changes, steps)
        }
    }
}
