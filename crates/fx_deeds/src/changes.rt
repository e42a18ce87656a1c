//! Changes of a world, one call each.
ghost use Rattle.std.specs.Prelude.{◌≡◌, ◌∷◌, [], IfOk, IsErrOf, IsSome, IsSomeAnd, OnErr};
ghost use Rattle.std.specs.Prelude.{slice_get, true};
ghost use Rattle.fx_base.specs.Faults.{Rose};
ghost use Rattle.fx_base.specs.Telling.{Stays};
ghost use Rattle.fx_types.specs.Types.{Shape};
ghost use Rattle.fx_types.specs.ValueView.{view};
ghost use Rattle.fx_value.specs.Fits.{fits_in};
ghost use Rattle.fx_core.specs.declared.sources.Source.TheVariants as source;
ghost use Rattle.row_keeper.specs.Changes.{IsInserted, IsReplaced};
ghost use Rattle.row_keeper.specs.Tables.{columns_at};
ghost use Rattle.row_queries.specs.TableRows.{AreCellsOf};
ghost use Rattle.session_state.specs.Changes.{FitsChange};
ghost use Rattle.fx_deeds.specs.Changed.{IsChanged, IsRowChanged, IsRowMade, IsRowRemoved, written};
ghost use Rattle.fx_deeds.specs.CutOff.{UpTo};
ghost use Rattle.fx_deeds.specs.Deeds.{Makes};
ghost use Rattle.fx_deeds.specs.StagesOver.{Attempt, StateBecomes};
ghost use Rattle.fx_deeds.specs.Writable.{IsOneOf};

use crate::answers::taken_or;
use crate::world::World;
use fx_env::Stop;
use fx_types::Value;
use row_keeper::Put;
use row_queries::Cells;
use session_state::Change;
use std::alloc::Global;

/// Makes a change of the session, or refuses it.
pub(crate) fn change<W: World>(world: &mut W, change: Change) -> Result<bool, Stop>
    requires { FitsChange (W.names world.old) change }
    ensures attempt { Attempt W.Env W.World.own world.old world.new (IsOneOf (written change)) }
    ensures named { W.names world.new ≡ W.names world.old }
    ensures keeper { IsErrOf result Stop.Keeper
        → Rose (W.marks world.old).faults (W.marks world.new).faults }
    ensures done { IfOk result (λ done. StateBecomes W.Env W.World.own world.old world.new
        (IsChanged change done)) }
    ensures stops { OnErr result (StateBecomes W.Env W.World.own world.old world.new Stays) }
{
    world.change(change)
}

/// Makes a change of the session, with this answer where it is made.
pub(crate) fn make<W: World>(
    alloc: Global,
    world: &mut W,
    wanted: Change,
    taken: Value,
) -> Result<Value, Stop>
    requires { FitsChange (W.names world.old) wanted }
    ensures attempt { Attempt W.Env W.World.own world.old world.new (IsOneOf (written wanted)) }
    ensures keeper { IsErrOf result Stop.Keeper
        → Rose (W.marks world.old).faults (W.marks world.new).faults }
    ensures done { IfOk result (λ x. StateBecomes W.Env W.World.own world.old world.new
        (λ s t. Makes wanted (view taken) s (view x) t)) }
    ensures cut { OnErr result (StateBecomes W.Env W.World.own world.old world.new
        (UpTo (λ s n x t. Makes wanted (view taken) s x t))) }
    ensures fits { (u : Shape) → fits_in (view taken) u ≡ true
        → IfOk result (λ x. fits_in (view x) u ≡ true) }
{
    let done = change(world, wanted)?;
    Ok(taken_or(alloc, done, taken)?)
}

/// Puts a new row into a table, or says which rule it breaks first.
pub(crate) fn insert<W: World>(world: &mut W, table: u16, cells: &Cells) -> Result<Put, Stop>
    requires { IsSomeAnd (slice_get (W.fixed world.old).schema.tables table)
        (λ t. AreCellsOf t.columns cells.now) }
    ensures attempt { Attempt W.Env W.World.own world.old world.new
        (IsOneOf (source.Table table ∷ [])) }
    ensures keeper { IsErrOf result Stop.Keeper
        → Rose (W.marks world.old).faults (W.marks world.new).faults }
    ensures put { IfOk result (λ put. StateBecomes W.Env W.World.own world.old world.new
        (IsRowMade (columns_at (W.fixed world.old).schema.tables table) table cells.now put)) }
    ensures stops { OnErr result (StateBecomes W.Env W.World.own world.old world.new Stays) }
    ensures sound { IfOk result (λ put. IsInserted
        (columns_at (W.fixed world.old).schema.tables table) put) }
{
    world.insert(table, cells)
}

/// Puts other cells into a row of a table, or says that there is none, or which rule it would break
/// first.
pub(crate) fn replace<W: World>(
    world: &mut W,
    table: u16,
    id: u32,
    cells: &Cells,
) -> Result<Put, Stop>
    requires { IsSomeAnd (slice_get (W.fixed world.old).schema.tables table)
        (λ t. AreCellsOf t.columns cells.now) }
    ensures attempt { Attempt W.Env W.World.own world.old world.new
        (IsOneOf (source.Table table ∷ [])) }
    ensures keeper { IsErrOf result Stop.Keeper
        → Rose (W.marks world.old).faults (W.marks world.new).faults }
    ensures put { IfOk result (λ put. StateBecomes W.Env W.World.own world.old world.new
        (IsRowChanged (columns_at (W.fixed world.old).schema.tables table) table id cells.now put)) }
    ensures stops { OnErr result (StateBecomes W.Env W.World.own world.old world.new Stays) }
    ensures sound { IfOk result (λ put. IsReplaced
        (columns_at (W.fixed world.old).schema.tables table) id put) }
{
    world.replace(table, id, cells)
}

/// Takes a row out of a table, and says whether it was there.
pub(crate) fn remove<W: World>(world: &mut W, table: u16, id: u32) -> Result<bool, Stop>
    requires { IsSome (slice_get (W.fixed world.old).schema.tables table) }
    ensures attempt { Attempt W.Env W.World.own world.old world.new
        (IsOneOf (source.Table table ∷ [])) }
    ensures keeper { IsErrOf result Stop.Keeper
        → Rose (W.marks world.old).faults (W.marks world.new).faults }
    ensures was { IfOk result (λ was. StateBecomes W.Env W.World.own world.old world.new
        (IsRowRemoved table id was)) }
    ensures stops { OnErr result (StateBecomes W.Env W.World.own world.old world.new Stays) }
{
    world.remove(table, id)
}
