// Formulas that don't act.
ghost use Rattle.std.specs.Prelude.{◌≡◌, IfOk, IsErrOf, false, length, true};
ghost use Rattle.fx_base.specs.Faults.{Rose};
ghost use Rattle.fx_types.specs.Types.{Shape};
ghost use Rattle.fx_types.specs.ValueView.{view};
ghost use Rattle.fx_env.specs.Scopes.{CanEvaluate, IsTypedHere};
ghost use Rattle.fx_plan.specs.Limited.{limited};
ghost use Rattle.fx_value.specs.Fits.{fits_in};
ghost use Rattle.fx_deeds.specs.StagesOver.{Look, StateBecomes};
ghost use Rattle.fx_deeds.specs.State.{ground};
ghost use Rattle.fx_behave.specs.Perform.{Performs};

use fx_base::Memory;
use fx_core::Core;
use fx_deeds::World;
use fx_env::{Steps, Stop};
use fx_eval::{Scope, eval};
use fx_plan::laws::limited_types;
use fx_plan::limit_queries_under;
use fx_types::Value;
use std::alloc::Global;
use std::sync::ledger::Ledger;

/// The value of a formula that doesn't act, with no more rows of a query expression than it may
/// take.
pub(crate) fn evaluate<W: World, L: Ledger>(
    alloc: Global,
    world: &mut W,
    scope: &mut Scope,
    core: &Core,
    steps: &mut Steps<L>,
) -> Result<Value, Stop>
    requires { CanEvaluate (W.fixed world.old).types scope.old core.now }
    ensures look { Look W.Env W.World.own world.old world.new }
    ensures scope { scope.new ≡ scope.old }
    ensures keeper { IsErrOf result Stop.Keeper
        → Rose (W.marks world.old).faults (W.marks world.new).faults }
    ensures done { IfOk result (λ v. StateBecomes W.Env W.World.own world.old world.new
        (λ s t. Performs (ground W.gives (W.fixed world.old)) core.now scope.old (view v) s t)) }
    ensures fits { (u : Shape) → IsTypedHere (W.fixed world.old).types scope.old core.now u
        → IfOk result (λ v. fits_in (view v) u ≡ true) }
{
    // A law, which is called for what it says.
    limited_types();
    let taking = limit_queries(alloc, world, scope, core)?;
    world.ready(&taking, steps)?;
    eval(alloc, world, scope, &taking, steps)
}

// The formula where it stands, in which query expressions that aren't taken whole give their first
// rows.
fn limit_queries<W: World>(
    alloc: Global,
    world: &W,
    scope: &Scope,
    core: &Core,
) -> Result<Core, Memory>
    ensures { IfOk result (λ c. c ≡ limited (W.fixed world.now).schema.tables
        (W.fixed world.now).limit (length scope.now.rows) false core.now) }
{
    limit_queries_under(alloc, world.schema(), world.limit(), core, depth(scope)?)
}

// How many scopes there are.
fn depth(scope: &Scope) -> Result<u32, Memory>
    ensures { IfOk result (λ n. n ≡ length scope.now.rows) }
{
    match u32::try_from(scope.rows.len()) {
        Ok(depth) => Ok(depth),
        Err(_) => Err(Memory),
    }
}
