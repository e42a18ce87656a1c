//! Rows that a filter kept, and that are taken out.
ghost use Rattle.std.specs.Prelude.{◌≡◌, ◌∷◌, [], true, false, IfOk, IsErrOf, IsSome, map};
ghost use Rattle.std.specs.Prelude.{slice_get, OnErr, take};
ghost use Rattle.fx_base.specs.Faults.{Rose};
ghost use Rattle.fx_types.specs.Types.{ColumnList, booleans};
ghost use Rattle.fx_types.specs.ValueView.{view};
ghost use Rattle.fx_semantics.specs.Around.{record_of};
ghost use Rattle.fx_semantics.specs.Rows.{rows_in};
ghost use Rattle.fx_value.specs.Fits.{fits_in};
ghost use Rattle.fx_core.specs.declared.sources.Source.TheVariants as source;
ghost use Rattle.fx_deeds.specs.Collections.{RemainAfterFilter, AreTakenIf};
ghost use Rattle.fx_deeds.specs.CutOff.{UpTo};
ghost use Rattle.fx_deeds.specs.Deeds.{AreRemoved, OrError};
ghost use Rattle.fx_deeds.specs.Fitting.{IsOfColumns};
ghost use Rattle.fx_deeds.specs.RemainingRows.{AreRecords, IsFirstValue, values_behind};
ghost use Rattle.fx_deeds.specs.RemainingRows.{record_rows};
ghost use Rattle.fx_deeds.specs.StagesOver.{Attempt, StateBecomes};
ghost use Rattle.fx_deeds.specs.Writable.{IsOneOf};

use crate::changes::make;
use crate::removing::remove_rows;
use crate::session::rows_held;
use crate::world::World;
use fx_base::Memory;
use fx_env::{Steps, Stop, rows_of};
use fx_types::{Fields, Rows, Value};
use fx_value::same;
use session_state::Change;
use std::alloc::Global;
use std::sync::ledger::Ledger;

/// Rows as records.
pub(crate) fn records(alloc: Global, rows: &[Fields]) -> Result<Vec<Value>, Memory>
    ensures { IfOk result (λ vs. map view vs.items ≡ map record_of rows.now) }
{
    let mut records = Vec::new(alloc);
    let mut rest = rows;
    while let Some((row, others)) = rest.split_first() {
        records.push(Value::Rec(row.copy(alloc)?))?;
        rest = others;
    }
    Ok(records)
}

/// Whether a record is the first of these.
pub(crate) fn is_first(records: &[Value], sought: &Value) -> bool
    ensures yes { result ≡ true → IsFirstValue records.now sought.now }
    ensures no { result ≡ false → IsFirstValue records.now sought.now → ⊥ }
{
    match records.split_first() {
        Some((first, _)) => same(first, sought),
        None => false,
    }
}

/// The values behind the first one.
pub(crate) fn behind_first(records: &[Value]) -> &[Value]
    ensures { result.now ≡ values_behind records.now }
{
    match records.split_first() {
        Some((_, others)) => others,
        None => records,
    }
}

// Rows without those that a filter kept, which stand among them in order.
fn rows_left(alloc: Global, rows: &[Fields], kept: &[Value]) -> Result<Rows, Memory>
    requires { AreRecords kept.now }
    ensures { IfOk result (λ left. RemainAfterFilter rows.now (record_rows kept.now) left) }
{
    let mut left = Rows::new(alloc);
    let mut rest = rows;
    let mut wanted = kept;
    while let Some((row, others)) = rest.split_first() {
        rest = others;
        if is_first(wanted, &Value::Rec(row.copy(alloc)?)) {
            wanted = behind_first(wanted);
        } else {
            left.push(row.copy(alloc)?)?;
        }
    }
    Ok(left)
}

/// Takes the rows of a filter out of a table.
pub(crate) fn remove_filtered<W: World>(
    alloc: Global,
    world: &mut W,
    table: u16,
    filtered: Value,
) -> Result<Value, Stop>
    requires { IsSome (slice_get (W.fixed world.old).schema.tables table) }
    ensures attempt { Attempt W.Env W.World.own world.old world.new
        (IsOneOf (source.Table table ∷ [])) }
    ensures keeper { IsErrOf result Stop.Keeper
        → Rose (W.marks world.old).faults (W.marks world.new).faults }
    ensures done { IfOk result (λ x. StateBecomes W.Env W.World.own world.old world.new
        (λ s t. OrError (view filtered) (AreRemoved table (map record_of (rows_in (view filtered)))
        s (view x) t) s (view x) t)) }
    ensures cut { OnErr result (StateBecomes W.Env W.World.own world.old world.new
        (UpTo (λ s n x t. OrError (view filtered)
        (AreRemoved table (map record_of (take n (rows_in (view filtered)))) s x t) s x t))) }
    ensures fits { IfOk result (λ x. fits_in (view x) booleans ≡ true) }
{
    match rows_of(alloc, filtered) {
        Ok(rows) => {
            let records = records(alloc, rows.as_slice())?;
            remove_rows(alloc, world, table, records.as_slice())
        }
        Err(fault) => Ok(Value::Fault(fault)),
    }
}

/// Takes the rows of a filter out of a collection.
pub(crate) fn take_filtered<W: World, L: Ledger>(
    alloc: Global,
    world: &mut W,
    collection: u32,
    filtered: Value,
    steps: &mut Steps<L>,
) -> Result<Value, Stop>
    requires { (cs : ColumnList) × IsOfColumns (W.fixed world.old).types collection cs }
    ensures attempt { Attempt W.Env W.World.own world.old world.new
        (IsOneOf (source.Gathered collection ∷ [])) }
    ensures keeper { IsErrOf result Stop.Keeper
        → Rose (W.marks world.old).faults (W.marks world.new).faults }
    ensures done { IfOk result (λ x. StateBecomes W.Env W.World.own world.old world.new
        (λ s t. OrError (view filtered) (AreTakenIf collection (rows_in (view filtered)) s (view x)
        t) s (view x) t)) }
    ensures cut { OnErr result (StateBecomes W.Env W.World.own world.old world.new
        (UpTo (λ s n x t. OrError (view filtered)
        (AreTakenIf collection (rows_in (view filtered)) s x t) s x t))) }
    ensures fits { IfOk result (λ x. fits_in (view x) booleans ≡ true) }
{
    match rows_of(alloc, filtered) {
        Ok(kept) => {
            let kept = records(alloc, kept.as_slice())?;
            let rows = rows_held(alloc, world, collection, steps)?;
            let left = rows_left(alloc, rows.as_slice(), kept.as_slice())?;
            make(
                alloc,
                world,
                Change::Gather(collection, Value::Tab(left)),
                Value::Boolean(true),
            )
        }
        Err(fault) => Ok(Value::Fault(fault)),
    }
}
