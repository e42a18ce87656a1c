//! Formulas in which something acts.
ghost use Rattle.std.specs.Prelude.{◌≡◌, ◌∷◌, [], List, IfOk, IsErrOf, OnErr, map, true};
ghost use Rattle.fx_base.specs.Faults.{Rose};
ghost use Rattle.fx_types.specs.Types.{Shape, booleans};
ghost use Rattle.fx_types.specs.ValueView.{view};
ghost use Rattle.fx_eval.specs.Parts.{caught_in, inner};
ghost use Rattle.fx_scalar.specs.LazyForms.{decision_of, none_left as none_left_of};
ghost use Rattle.fx_semantics.specs.Fresh.{field_of as field_of_value};
ghost use Rattle.fx_semantics.specs.Sound.{AreFit};
ghost use Rattle.fx_core.specs.declared.deeds.Deed.TheVariants as deed;
ghost use Rattle.fx_core.specs.declared.functions.Form.TheVariants as form;
ghost use Rattle.fx_core.specs.declared.functions.Fun.TheVariants as fun;
ghost use Rattle.fx_core.specs.Term.{act as deed_head, all, cons, nil, of, over, within as scoped};
ghost use Rattle.fx_typing.specs.Acts as acting;
ghost use Rattle.fx_value.specs.Fits.{fits_in};
ghost use Rattle.fx_deeds.specs.Fitting.{AreOf};
ghost use Rattle.fx_deeds.specs.StagesOver.{Attempt, StateBecomes};
ghost use Rattle.fx_deeds.specs.State.{ground};
ghost use Rattle.fx_behave.specs.Actable.{AreActable, AreActingBranches, AreActingRecoveries};
ghost use Rattle.fx_behave.specs.Actable.{AreTwo, CanAct, LastHasType, IsActable, IsActableInside};
ghost use Rattle.fx_behave.specs.Actable.{IsMatchedBy, IsActingSwitch};
ghost use Rattle.fx_behave.specs.CutOff.{AreCut, AreEachCut, IsActCut, IsBranchCut, IsCutOff};
ghost use Rattle.fx_behave.specs.CutOff.{IsForAllCut, IsRecoveryCut, IsSwitchCut, IsUpdateIfCut};
ghost use Rattle.fx_behave.specs.CutOff.{IsWithinCut, cut_part as part_of, parts as parts_of};
ghost use Rattle.fx_behave.specs.Perform.{PerformsEach, ArePerformed, IsAct, IsBranched, IsChain};
ghost use Rattle.fx_behave.specs.Perform.{IsForAll, PerformsIfError, PerformsSwitch, IsUpdateIf};
ghost use Rattle.fx_behave.specs.Perform.{PerformsWith, Performs, switch_decision, performing};
ghost use Rattle.fx_behave.specs.Perform.{performings};
ghost use Rattle.fx_behave.specs.Writable.{AnyMayWrite, MayWrite};

use crate::perform::evaluate;
use fx_base::Memory;
use fx_core::{Core, CoreNode, Deed, Target};
use fx_deeds::{World, do_deed, update};
use fx_env::{Steps, Stop, rows_of};
use fx_eval::{Scope, list};
use fx_node_typing::acts;
use fx_scalar::{Decision, decide, decide_match, without_error};
use fx_tables::formulas::for_all as kept_values;
use fx_types::{Fault, Fields, Value, Words};
use fx_value::coerce;
use std::alloc::Global;
use std::sync::ledger::Ledger;

/// Performs a behaviour formula, which is well typed under the world's names and acts in its places
/// alone, in a scope that fits it: what acts in it changes the world, from left to right. At each
/// exit what has changed was written, and no source was but those that its deeds name. After a
/// `Stop` the world holds the changes up to where the performing was cut off. `Keeper` only where a
/// fault was counted.
pub fn act<W: World, L: Ledger>(
    alloc: Global,
    world: &mut W,
    scope: &mut Scope,
    core: &Core,
    steps: &mut Steps<L>,
) -> Result<Value, Stop>
    requires { CanAct (W.fixed world.old).types scope.old core.now }
    ensures attempt { Attempt W.Env W.World.own world.old world.new (MayWrite core.now) }
    ensures scope { scope.new ≡ scope.old }
    ensures keeper { IsErrOf result Stop.Keeper
        → Rose (W.marks world.old).faults (W.marks world.new).faults }
    ensures done { IfOk result (λ v. StateBecomes W.Env W.World.own world.old world.new
        (λ s t. Performs (ground W.gives (W.fixed world.old)) core.now scope.old (view v) s t)) }
    ensures cut { OnErr result (StateBecomes W.Env W.World.own world.old world.new
        (IsCutOff (ground W.gives (W.fixed world.old)) core.now scope.old)) }
    ensures fits { (u : Shape) → IsActable (W.fixed world.old).types scope.old core.now u
        → IfOk result (λ v. fits_in (view v) u ≡ true) }
{
    perform(alloc, world, scope, core, steps)
}

// A formula, in which anything may act.
#[cycle(perform)]
fn perform<W: World, L: Ledger>(
    alloc: Global,
    world: &mut W,
    scope: &mut Scope,
    core: &Core,
    steps: &mut Steps<L>,
) -> Result<Value, Stop>
    requires { CanAct (W.fixed world.old).types scope.old core.now }
    ensures attempt { Attempt W.Env W.World.own world.old world.new (MayWrite core.now) }
    ensures scope { scope.new ≡ scope.old }
    ensures keeper { IsErrOf result Stop.Keeper
        → Rose (W.marks world.old).faults (W.marks world.new).faults }
    ensures done { IfOk result (λ v. StateBecomes W.Env W.World.own world.old world.new
        (λ s t. Performs (ground W.gives (W.fixed world.old)) core.now scope.old (view v) s t)) }
    ensures cut { OnErr result (StateBecomes W.Env W.World.own world.old world.new
        (IsCutOff (ground W.gives (W.fixed world.old)) core.now scope.old)) }
    ensures fits { (u : Shape) → IsActable (W.fixed world.old).types scope.old core.now u
        → IfOk result (λ v. fits_in (view v) u ≡ true) }
{
    if acts(core) {
        node(alloc, world, scope, core, steps)
    } else {
        evaluate(alloc, world, scope, core, steps)
    }
}

// A tree in which something acts, by its head.
#[cycle(perform)]
fn node<W: World, L: Ledger>(
    alloc: Global,
    world: &mut W,
    scope: &mut Scope,
    core: &Core,
    steps: &mut Steps<L>,
) -> Result<Value, Stop>
    requires can { CanAct (W.fixed world.old).types scope.old core.now }
    requires acts { acting.acts core.now ≡ true }
    ensures attempt { Attempt W.Env W.World.own world.old world.new (MayWrite core.now) }
    ensures scope { scope.new ≡ scope.old }
    ensures keeper { IsErrOf result Stop.Keeper
        → Rose (W.marks world.old).faults (W.marks world.new).faults }
    ensures done { IfOk result (λ v. StateBecomes W.Env W.World.own world.old world.new
        (λ s t. Performs (ground W.gives (W.fixed world.old)) core.now scope.old (view v) s t)) }
    ensures cut { OnErr result (StateBecomes W.Env W.World.own world.old world.new
        (IsCutOff (ground W.gives (W.fixed world.old)) core.now scope.old)) }
    ensures fits { (u : Shape) → IsActable (W.fixed world.old).types scope.old core.now u
        → IfOk result (λ v. fits_in (view v) u ≡ true) }
{
    match &core.node {
        CoreNode::Chain(parts) => chain(alloc, world, scope, parts.as_slice(), steps),
        CoreNode::Act(deed, parts) => {
            act_deed(alloc, world, scope, deed, parts.as_slice(), steps)
        }
        CoreNode::If(parts) => branches(alloc, world, scope, parts.as_slice(), steps),
        CoreNode::Switch(parts) => switch(alloc, world, scope, parts.as_slice(), steps),
        CoreNode::IfError(parts) => recover(alloc, world, scope, parts.as_slice(), steps),
        CoreNode::With(part, formula) => within(alloc, world, scope, part, formula, steps),
        CoreNode::Over(_, table, parts) => {
            for_all(alloc, world, scope, table, parts.as_slice(), steps)
        }
        CoreNode::Dot(part, name) => {
            let value = perform(alloc, world, scope, part, steps)?;
            Ok(field_of(alloc, value, name)?)
        }
        CoreNode::Coerce(part, ty) => {
            let value = perform(alloc, world, scope, part, steps)?;
            Ok(coerce(alloc, value, ty)?)
        }
        CoreNode::List(row, parts) => {
            let values = part_values(alloc, world, scope, parts.as_slice(), steps)?;
            Ok(list(alloc, row, values)?)
        }
        _ => unreachable!(),
    }
}

// A field of a record, which is blank where there is none of the name, and an error as it is.
fn field_of(alloc: Global, value: Value, name: &Words) -> Result<Value, Memory>
    ensures { IfOk result (λ v. view v ≡ field_of_value name.now (view value)) }
{
    match value {
        Value::Rec(fields) => match fields.value(name) {
            Some(value) => value.copy(alloc),
            None => Ok(Value::Blank),
        },
        Value::Fault(fault) => Ok(Value::Fault(fault)),
        _ => Ok(Value::Blank),
    }
}

// A change of state, behind the values of all its parts.
#[cycle(perform)]
fn act_deed<W: World, L: Ledger>(
    alloc: Global,
    world: &mut W,
    scope: &mut Scope,
    deed: &Deed,
    parts: &[Core],
    steps: &mut Steps<L>,
) -> Result<Value, Stop>
    requires { CanAct (W.fixed world.old).types scope.old (of (deed_head deed.now) (all parts.now)) }
    ensures attempt { Attempt W.Env W.World.own world.old world.new
        (MayWrite (of (deed_head deed.now) (all parts.now))) }
    ensures scope { scope.new ≡ scope.old }
    ensures keeper { IsErrOf result Stop.Keeper
        → Rose (W.marks world.old).faults (W.marks world.new).faults }
    ensures done { IfOk result (λ v. StateBecomes W.Env W.World.own world.old world.new
        (λ s t. IsAct (ground W.gives (W.fixed world.old)) deed.now
        (performings (ground W.gives (W.fixed world.old)) (all parts.now)) scope.old s (view v) t)) }
    ensures cut { OnErr result (StateBecomes W.Env W.World.own world.old world.new
        (IsActCut (ground W.gives (W.fixed world.old)) deed.now
        (parts_of (ground W.gives (W.fixed world.old)) (all parts.now)) scope.old)) }
    ensures fits { (u : Shape) → IsActable (W.fixed world.old).types scope.old
        (of (deed_head deed.now) (all parts.now)) u → IfOk result (λ v. fits_in (view v) u ≡ true) }
{
    match deed {
        Deed::UpdateIf(target) => update_if(alloc, world, scope, *target, parts, steps),
        _ => {
            let values = part_values(alloc, world, scope, parts, steps)?;
            do_deed(alloc, world, deed, values, steps)
        }
    }
}

// `UpdateIf`: its filter, then the change of each row, and then it acts.
#[cycle(perform)]
fn update_if<W: World, L: Ledger>(
    alloc: Global,
    world: &mut W,
    scope: &mut Scope,
    target: Target,
    parts: &[Core],
    steps: &mut Steps<L>,
) -> Result<Value, Stop>
    requires { CanAct (W.fixed world.old).types scope.old
        (of (deed_head (deed.UpdateIf target)) (all parts.now)) }
    ensures attempt { Attempt W.Env W.World.own world.old world.new
        (MayWrite (of (deed_head (deed.UpdateIf target)) (all parts.now))) }
    ensures scope { scope.new ≡ scope.old }
    ensures keeper { IsErrOf result Stop.Keeper
        → Rose (W.marks world.old).faults (W.marks world.new).faults }
    ensures done { IfOk result (λ v. StateBecomes W.Env W.World.own world.old world.new
        (λ s t. IsUpdateIf (ground W.gives (W.fixed world.old)) target
        (performings (ground W.gives (W.fixed world.old)) (all parts.now)) scope.old s (view v) t)) }
    ensures cut { OnErr result (StateBecomes W.Env W.World.own world.old world.new
        (IsUpdateIfCut (ground W.gives (W.fixed world.old)) target
        (parts_of (ground W.gives (W.fixed world.old)) (all parts.now)) scope.old)) }
    ensures fits { IfOk result (λ v. fits_in (view v) booleans ≡ true) }
{
    let (filter, change) = filter_and_change(parts);
    let value = perform(alloc, world, scope, filter, steps)?;
    match rows_of(alloc, value) {
        Ok(rows) => {
            let kept = rows.as_slice();
            let changes = each(alloc, world, scope, kept, change, steps)?;
            update(alloc, world, target, kept, changes.as_slice(), steps)
        }
        Err(fault) => Ok(Value::Fault(fault)),
    }
}

// The two parts of `UpdateIf`.
fn filter_and_change(parts: &[Core]) -> (&Core, &Core)
    requires { AreTwo parts.now }
    ensures { parts.now ≡ result.0.now ∷ result.1.now ∷ [] }
{
    match parts.split_first() {
        Some((filter, others)) => match others.split_first() {
            Some((change, _)) => (filter, change),
            None => unreachable!(),
        },
        None => unreachable!(),
    }
}

// Parts in turn, of which the last one is the value.
#[cycle(perform)]
fn chain<W: World, L: Ledger>(
    alloc: Global,
    world: &mut W,
    scope: &mut Scope,
    parts: &[Core],
    steps: &mut Steps<L>,
) -> Result<Value, Stop>
    requires { (u : Shape) × LastHasType (W.fixed world.old).types scope.old u parts.now }
    ensures attempt { Attempt W.Env W.World.own world.old world.new (AnyMayWrite (all parts.now)) }
    ensures scope { scope.new ≡ scope.old }
    ensures keeper { IsErrOf result Stop.Keeper
        → Rose (W.marks world.old).faults (W.marks world.new).faults }
    ensures done { IfOk result (λ v. StateBecomes W.Env W.World.own world.old world.new
        (λ s t. IsChain (performings (ground W.gives (W.fixed world.old)) (all parts.now)) scope.old
        s (view v) t)) }
    ensures cut { OnErr result (StateBecomes W.Env W.World.own world.old world.new
        (AreCut (parts_of (ground W.gives (W.fixed world.old)) (all parts.now)) scope.old)) }
    ensures fits { (u : Shape) → LastHasType (W.fixed world.old).types scope.old u parts.now
        → IfOk result (λ v. fits_in (view v) u ≡ true) }
{
    let mut rest = parts;
    while let Some((part, others)) = rest.split_first() {
        if others.is_empty() {
            return perform(alloc, world, scope, part, steps);
        }
        drop(perform(alloc, world, scope, part, steps)?);
        rest = others;
    }
    unreachable!()
}

// The branch of the first condition that is met, else the last part, else blank.
#[cycle(perform)]
fn branches<W: World, L: Ledger>(
    alloc: Global,
    world: &mut W,
    scope: &mut Scope,
    parts: &[Core],
    steps: &mut Steps<L>,
) -> Result<Value, Stop>
    requires { (u : Shape) × AreActingBranches (W.fixed world.old).types scope.old u parts.now }
    ensures attempt { Attempt W.Env W.World.own world.old world.new (AnyMayWrite (all parts.now)) }
    ensures scope { scope.new ≡ scope.old }
    ensures keeper { IsErrOf result Stop.Keeper
        → Rose (W.marks world.old).faults (W.marks world.new).faults }
    ensures done { IfOk result (λ v. StateBecomes W.Env W.World.own world.old world.new
        (λ s t. IsBranched decision_of (performings (ground W.gives (W.fixed world.old))
        (all parts.now)) scope.old s (view v) t)) }
    ensures cut { OnErr result (StateBecomes W.Env W.World.own world.old world.new
        (IsBranchCut decision_of (parts_of (ground W.gives (W.fixed world.old)) (all parts.now))
        scope.old)) }
    ensures fits { (u : Shape) → AreActingBranches (W.fixed world.old).types scope.old u parts.now
        → IfOk result (λ v. fits_in (view v) u ≡ true) }
{
    let mut rest = parts;
    while let Some((part, others)) = rest.split_first() {
        let Some((branch, beyond)) = others.split_first() else {
            return perform(alloc, world, scope, part, steps);
        };
        let value = perform(alloc, world, scope, part, steps)?;
        match decide(value) {
            Decision::Met => return perform(alloc, world, scope, branch, steps),
            Decision::Unmet => rest = beyond,
            Decision::Error(fault) => return Ok(Value::Fault(fault)),
        }
    }
    Ok(Value::Blank)
}

// The value that is compared, and then its match.
#[cycle(perform)]
fn switch<W: World, L: Ledger>(
    alloc: Global,
    world: &mut W,
    scope: &mut Scope,
    parts: &[Core],
    steps: &mut Steps<L>,
) -> Result<Value, Stop>
    requires { (u : Shape) × IsActingSwitch (W.fixed world.old).types scope.old u parts.now }
    ensures attempt { Attempt W.Env W.World.own world.old world.new (AnyMayWrite (all parts.now)) }
    ensures scope { scope.new ≡ scope.old }
    ensures keeper { IsErrOf result Stop.Keeper
        → Rose (W.marks world.old).faults (W.marks world.new).faults }
    ensures done { IfOk result (λ v. StateBecomes W.Env W.World.own world.old world.new
        (λ s t. PerformsSwitch (performings (ground W.gives (W.fixed world.old)) (all parts.now))
        scope.old s (view v) t)) }
    ensures cut { OnErr result (StateBecomes W.Env W.World.own world.old world.new
        (IsSwitchCut (parts_of (ground W.gives (W.fixed world.old)) (all parts.now)) scope.old)) }
    ensures fits { (u : Shape) → IsActingSwitch (W.fixed world.old).types scope.old u parts.now
        → IfOk result (λ v. fits_in (view v) u ≡ true) }
{
    let Some((part, others)) = parts.split_first() else {
        unreachable!()
    };
    let value = perform(alloc, world, scope, part, steps)?;
    match without_error(value) {
        Ok(wanted) => matches(alloc, world, scope, wanted, others, steps),
        Err(fault) => Ok(Value::Fault(fault)),
    }
}

// The branch of the first match that equals the value, else the last part, else blank.
#[cycle(perform)]
fn matches<W: World, L: Ledger>(
    alloc: Global,
    world: &mut W,
    scope: &mut Scope,
    wanted: Value,
    parts: &[Core],
    steps: &mut Steps<L>,
) -> Result<Value, Stop>
    requires { (u : Shape) × IsMatchedBy (W.fixed world.old).types scope.old (view wanted) u
        parts.now }
    ensures attempt { Attempt W.Env W.World.own world.old world.new (AnyMayWrite (all parts.now)) }
    ensures scope { scope.new ≡ scope.old }
    ensures keeper { IsErrOf result Stop.Keeper
        → Rose (W.marks world.old).faults (W.marks world.new).faults }
    ensures done { IfOk result (λ v. StateBecomes W.Env W.World.own world.old world.new
        (λ s t. IsBranched (switch_decision (view wanted))
        (performings (ground W.gives (W.fixed world.old)) (all parts.now)) scope.old s (view v) t)) }
    ensures cut { OnErr result (StateBecomes W.Env W.World.own world.old world.new
        (IsBranchCut (switch_decision (view wanted))
        (parts_of (ground W.gives (W.fixed world.old)) (all parts.now)) scope.old)) }
    ensures fits { (u : Shape) → IsMatchedBy (W.fixed world.old).types scope.old (view wanted) u
        parts.now → IfOk result (λ v. fits_in (view v) u ≡ true) }
{
    let mut rest = parts;
    while let Some((part, others)) = rest.split_first() {
        let Some((branch, beyond)) = others.split_first() else {
            return perform(alloc, world, scope, part, steps);
        };
        let value = perform(alloc, world, scope, part, steps)?;
        match decide_match(&wanted, value) {
            Decision::Met => return perform(alloc, world, scope, branch, steps),
            Decision::Unmet => rest = beyond,
            Decision::Error(fault) => return Ok(Value::Fault(fault)),
        }
    }
    Ok(Value::Blank)
}

// The fallback of the first error among values, each before its fallback; else the last value.
#[cycle(perform)]
fn recover<W: World, L: Ledger>(
    alloc: Global,
    world: &mut W,
    scope: &mut Scope,
    parts: &[Core],
    steps: &mut Steps<L>,
) -> Result<Value, Stop>
    requires { (u : Shape) × AreActingRecoveries (W.fixed world.old).types scope.old u parts.now }
    ensures attempt { Attempt W.Env W.World.own world.old world.new (AnyMayWrite (all parts.now)) }
    ensures scope { scope.new ≡ scope.old }
    ensures keeper { IsErrOf result Stop.Keeper
        → Rose (W.marks world.old).faults (W.marks world.new).faults }
    ensures done { IfOk result (λ v. StateBecomes W.Env W.World.own world.old world.new
        (λ s t. PerformsIfError (none_left_of form.IfError)
        (performings (ground W.gives (W.fixed world.old)) (all parts.now)) scope.old s (view v) t)) }
    ensures cut { OnErr result (StateBecomes W.Env W.World.own world.old world.new
        (IsRecoveryCut (parts_of (ground W.gives (W.fixed world.old)) (all parts.now)) scope.old)) }
    ensures fits { (u : Shape) → AreActingRecoveries (W.fixed world.old).types scope.old u parts.now
        → IfOk result (λ v. fits_in (view v) u ≡ true) }
{
    let mut last = Value::Blank;
    let mut rest = parts;
    while let Some((part, others)) = rest.split_first() {
        let Some((fallback, beyond)) = others.split_first() else {
            return perform(alloc, world, scope, part, steps);
        };
        let value = perform(alloc, world, scope, part, steps)?;
        match without_error(value) {
            Ok(value) => keep(&mut last, value),
            Err(fault) => return catch_error(alloc, world, scope, fault, fallback, steps),
        }
        rest = beyond;
    }
    Ok(last)
}

// Puts a value in the place of the one before.
fn keep(last: &mut Value, value: Value)
    ensures { last.new ≡ value }
{
    *last = value;
}

// A formula where an error was caught.
#[cycle(perform)]
fn catch_error<W: World, L: Ledger>(
    alloc: Global,
    world: &mut W,
    scope: &mut Scope,
    fault: Fault,
    formula: &Core,
    steps: &mut Steps<L>,
) -> Result<Value, Stop>
    requires { CanAct (W.fixed world.old).types (caught_in scope.old fault.kind fault.message)
        formula.now }
    ensures attempt { Attempt W.Env W.World.own world.old world.new (MayWrite formula.now) }
    ensures scope { scope.new ≡ scope.old }
    ensures keeper { IsErrOf result Stop.Keeper
        → Rose (W.marks world.old).faults (W.marks world.new).faults }
    ensures done { IfOk result (λ v. StateBecomes W.Env W.World.own world.old world.new
        (λ s t. Performs (ground W.gives (W.fixed world.old)) formula.now
        (caught_in scope.old fault.kind fault.message) (view v) s t)) }
    ensures cut { OnErr result (StateBecomes W.Env W.World.own world.old world.new
        (IsCutOff (ground W.gives (W.fixed world.old)) formula.now
        (caught_in scope.old fault.kind fault.message))) }
    ensures fits { (u : Shape) → IsActable (W.fixed world.old).types
        (caught_in scope.old fault.kind fault.message) formula.now u
        → IfOk result (λ v. fits_in (view v) u ≡ true) }
{
    let outer = scope.caught.replace(fault);
    // Without `?`, so that the error is let go also where there is no value.
    let value = perform(alloc, world, scope, formula, steps);
    scope.caught = outer;
    value
}

// A formula in the scope of a record, or the error that stands in its place.
#[cycle(perform)]
fn within<W: World, L: Ledger>(
    alloc: Global,
    world: &mut W,
    scope: &mut Scope,
    part: &Core,
    formula: &Core,
    steps: &mut Steps<L>,
) -> Result<Value, Stop>
    requires { CanAct (W.fixed world.old).types scope.old
        (of scoped (cons part.now (cons formula.now nil))) }
    ensures attempt { Attempt W.Env W.World.own world.old world.new
        (AnyMayWrite (cons part.now (cons formula.now nil))) }
    ensures scope { scope.new ≡ scope.old }
    ensures keeper { IsErrOf result Stop.Keeper
        → Rose (W.marks world.old).faults (W.marks world.new).faults }
    ensures done { IfOk result (λ v. StateBecomes W.Env W.World.own world.old world.new
        (λ s t. PerformsWith (performings (ground W.gives (W.fixed world.old))
        (cons part.now (cons formula.now nil))) scope.old s (view v) t)) }
    ensures cut { OnErr result (StateBecomes W.Env W.World.own world.old world.new
        (IsWithinCut (parts_of (ground W.gives (W.fixed world.old))
        (cons part.now (cons formula.now nil))) scope.old)) }
    ensures fits { (u : Shape) → IsActable (W.fixed world.old).types scope.old
        (of scoped (cons part.now (cons formula.now nil))) u
        → IfOk result (λ v. fits_in (view v) u ≡ true) }
{
    let value = perform(alloc, world, scope, part, steps)?;
    match without_error(value) {
        Ok(row) => in_scope(alloc, world, scope, row, formula, steps),
        Err(fault) => Ok(Value::Fault(fault)),
    }
}

// A formula in one more scope.
#[cycle(perform)]
fn in_scope<W: World, L: Ledger>(
    alloc: Global,
    world: &mut W,
    scope: &mut Scope,
    row: Value,
    formula: &Core,
    steps: &mut Steps<L>,
) -> Result<Value, Stop>
    requires { CanAct (W.fixed world.old).types (inner scope.old (view row)) formula.now }
    ensures attempt { Attempt W.Env W.World.own world.old world.new (MayWrite formula.now) }
    ensures scope { scope.new ≡ scope.old }
    ensures keeper { IsErrOf result Stop.Keeper
        → Rose (W.marks world.old).faults (W.marks world.new).faults }
    ensures done { IfOk result (λ v. StateBecomes W.Env W.World.own world.old world.new
        (λ s t. Performs (ground W.gives (W.fixed world.old)) formula.now
        (inner scope.old (view row)) (view v) s t)) }
    ensures cut { OnErr result (StateBecomes W.Env W.World.own world.old world.new
        (IsCutOff (ground W.gives (W.fixed world.old)) formula.now (inner scope.old (view row)))) }
    ensures fits { (u : Shape) → IsActable (W.fixed world.old).types (inner scope.old (view row))
        formula.now u → IfOk result (λ v. fits_in (view v) u ≡ true) }
{
    scope.rows.push(row)?;
    // Without `?`, so that the scope is left also where there is no value.
    let value = perform(alloc, world, scope, formula, steps);
    let _ = scope.rows.pop();
    value
}

// `ForAll`: its table, and then its formula for each row of it.
#[cycle(perform)]
fn for_all<W: World, L: Ledger>(
    alloc: Global,
    world: &mut W,
    scope: &mut Scope,
    table: &Core,
    parts: &[Core],
    steps: &mut Steps<L>,
) -> Result<Value, Stop>
    requires { CanAct (W.fixed world.old).types scope.old
        (of (over fun.ForAll) (cons table.now (all parts.now))) }
    ensures attempt { Attempt W.Env W.World.own world.old world.new
        (AnyMayWrite (cons table.now (all parts.now))) }
    ensures scope { scope.new ≡ scope.old }
    ensures keeper { IsErrOf result Stop.Keeper
        → Rose (W.marks world.old).faults (W.marks world.new).faults }
    ensures done { IfOk result (λ v. StateBecomes W.Env W.World.own world.old world.new
        (λ s t. IsForAll (performings (ground W.gives (W.fixed world.old))
        (cons table.now (all parts.now))) scope.old s (view v) t)) }
    ensures cut { OnErr result (StateBecomes W.Env W.World.own world.old world.new
        (IsForAllCut (parts_of (ground W.gives (W.fixed world.old))
        (cons table.now (all parts.now))) scope.old)) }
    ensures fits { (u : Shape) → IsActable (W.fixed world.old).types scope.old
        (of (over fun.ForAll) (cons table.now (all parts.now))) u
        → IfOk result (λ v. fits_in (view v) u ≡ true) }
{
    let Some((formula, _)) = parts.split_first() else {
        unreachable!()
    };
    let value = perform(alloc, world, scope, table, steps)?;
    match rows_of(alloc, value) {
        Ok(rows) => {
            let values = each(alloc, world, scope, rows.as_slice(), formula, steps)?;
            Ok(kept_values(alloc, values)?)
        }
        Err(fault) => Ok(Value::Fault(fault)),
    }
}

// The values of a formula for these rows, each in the scope of its row and over what the row before
// left.
#[cycle(perform)]
fn each<W: World, L: Ledger>(
    alloc: Global,
    world: &mut W,
    scope: &mut Scope,
    rows: &[Fields],
    formula: &Core,
    steps: &mut Steps<L>,
) -> Result<Vec<Value>, Stop>
    requires { (u : Shape) × IsActableInside (W.fixed world.old).types scope.old u formula.now
        rows.now }
    ensures attempt { Attempt W.Env W.World.own world.old world.new (MayWrite formula.now) }
    ensures scope { scope.new ≡ scope.old }
    ensures keeper { IsErrOf result Stop.Keeper
        → Rose (W.marks world.old).faults (W.marks world.new).faults }
    ensures done { IfOk result (λ vs. StateBecomes W.Env W.World.own world.old world.new
        (λ s t. PerformsEach (performing (ground W.gives (W.fixed world.old)) formula.now) scope.old
        rows.now s (map view vs.items) t)) }
    ensures cut { OnErr result (StateBecomes W.Env W.World.own world.old world.new
        (AreEachCut (part_of (ground W.gives (W.fixed world.old)) formula.now) scope.old rows.now)) }
    ensures fits { (u : Shape) → IsActableInside (W.fixed world.old).types scope.old u formula.now
        rows.now → IfOk result (λ vs. AreOf u (map view vs.items)) }
{
    let mut values = Vec::new(alloc);
    let mut rest = rows;
    while let Some((row, others)) = rest.split_first() {
        let record = Value::Rec(row.copy(alloc)?);
        let value = in_scope(alloc, world, scope, record, formula, steps)?;
        values.push(value)?;
        rest = others;
    }
    Ok(values)
}

// The values of parts, each over what the part before left.
#[cycle(perform)]
fn part_values<W: World, L: Ledger>(
    alloc: Global,
    world: &mut W,
    scope: &mut Scope,
    parts: &[Core],
    steps: &mut Steps<L>,
) -> Result<Vec<Value>, Stop>
    requires { (us : List Shape) × AreActable (W.fixed world.old).types scope.old us parts.now }
    ensures attempt { Attempt W.Env W.World.own world.old world.new (AnyMayWrite (all parts.now)) }
    ensures scope { scope.new ≡ scope.old }
    ensures keeper { IsErrOf result Stop.Keeper
        → Rose (W.marks world.old).faults (W.marks world.new).faults }
    ensures done { IfOk result (λ vs. StateBecomes W.Env W.World.own world.old world.new
        (λ s t. ArePerformed (performings (ground W.gives (W.fixed world.old)) (all parts.now))
        scope.old s (map view vs.items) t)) }
    ensures cut { OnErr result (StateBecomes W.Env W.World.own world.old world.new
        (AreCut (parts_of (ground W.gives (W.fixed world.old)) (all parts.now)) scope.old)) }
    ensures fits { (us : List Shape) → AreActable (W.fixed world.old).types scope.old us parts.now
        → IfOk result (λ vs. AreFit (map view vs.items) us) }
{
    let mut values = Vec::new(alloc);
    let mut rest = parts;
    while let Some((part, others)) = rest.split_first() {
        let value = perform(alloc, world, scope, part, steps)?;
        values.push(value)?;
        rest = others;
    }
    Ok(values)
}
