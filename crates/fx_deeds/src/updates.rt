//! `UpdateIf` on a collection.
ghost use Rattle.std.specs.Prelude.{◌≡◌, ◌∷◌, [], true, IfOk, IfSome, IsErrOf, map, option_map};
ghost use Rattle.std.specs.Prelude.{OnErr};
ghost use Rattle.std.specs.List.{find};
ghost use Rattle.fx_base.specs.Faults.{Rose};
ghost use Rattle.fx_types.specs.Types.{ColumnList, booleans, column_list, records as records_type};
ghost use Rattle.fx_types.specs.Types.{tables};
ghost use Rattle.fx_types.specs.ValueView.{view};
ghost use Rattle.fx_semantics.specs.Around.{record_of};
ghost use Rattle.fx_semantics.specs.Rows.{table_of};
ghost use Rattle.fx_tables.specs.Unions.{is_fault};
ghost use Rattle.fx_core.specs.declared.sources.Source.TheVariants as source;
ghost use Rattle.fx_value.specs.Fits.{fits_in};
ghost use Rattle.fx_deeds.specs.CutOff.{UpTo};
ghost use Rattle.fx_deeds.specs.Collections.{AreUpdatedIn, AreWith};
ghost use Rattle.fx_deeds.specs.Done.{errors_in, errors_of};
ghost use Rattle.fx_deeds.specs.Fitting.{CanChangeAll, IsOfColumns};
ghost use Rattle.fx_deeds.specs.RemainingRows.{AreRecords, IsChangedFirst, record_rows};
ghost use Rattle.fx_deeds.specs.RowValues.{columns_of_rows};
ghost use Rattle.fx_deeds.specs.StagesOver.{Attempt, StateBecomes};
ghost use Rattle.fx_deeds.specs.Writable.{IsOneOf};

use crate::changes::make;
use crate::collections::collection_columns;
use crate::filtering::{behind_first, is_first, records};
use crate::row_changes::{changed_row, error_among};
use crate::session::rows_held;
use crate::tables::with_table;
use crate::world::World;
use fx_base::Memory;
use fx_env::{Steps, Stop};
use fx_types::{Columns, Fields, Rows, Value};
use session_state::Change;
use std::alloc::Global;
use std::sync::ledger::Ledger;

// The first error in a change: it itself, or one in its fields.
fn error_of(alloc: Global, change: &Value) -> Result<Option<Value>, Memory>
    ensures { IfOk result (λ e. option_map view e ≡ find is_fault (errors_of (view change.now))) }
{
    match change {
        Value::Fault(fault) => Ok(Some(Value::Fault(fault.copy(alloc)?))),
        _ => {
            let rows = with_table(alloc, Rows::new(alloc), change)?;
            error_among(alloc, rows.as_slice())
        }
    }
}

/// The first error among changes and in their fields.
pub(crate) fn first_of_changes(alloc: Global, changes: &[Value]) -> Result<Option<Value>, Memory>
    ensures { IfOk result (λ e. option_map view e
        ≡ find is_fault (errors_in (map view changes.now))) }
{
    let mut rest = changes;
    while let Some((change, others)) = rest.split_first() {
        if let Some(error) = error_of(alloc, change)? {
            return Ok(Some(error));
        }
        rest = others;
    }
    Ok(None)
}

// A row as the first of these changes leaves it, where it is the first of the rows that were kept.
fn changed_if_first(
    alloc: Global,
    columns: &Columns,
    row: &Fields,
    kept: &[Value],
    changes: &[Value],
) -> Result<Option<Fields>, Memory>
    requires records { AreRecords kept.now }
    requires can { CanChangeAll (column_list columns.now) (record_rows kept.now)
        (map view changes.now) }
    ensures first { IfOk result (λ o. IsChangedFirst (column_list columns.now) row.now
        (record_rows kept.now) (map view changes.now) o) }
    ensures fits { IfOk result (λ o. IfSome o
        (λ r. fits_in (record_of r) (records_type (column_list columns.now)) ≡ true)) }
{
    let Some((change, _)) = changes.split_first() else {
        return Ok(None);
    };
    if !is_first(kept, &Value::Rec(row.copy(alloc)?)) {
        return Ok(None);
    }
    let changes = with_table(alloc, Rows::new(alloc), change)?;
    Ok(Some(changed_row(alloc, columns, changes.as_slice(), row)?))
}

// Rows in which those that were kept, which stand among them in order, are changed, each by its
// change.
fn rows_with(
    alloc: Global,
    columns: &Columns,
    rows: &[Fields],
    kept: &[Value],
    changes: &[Value],
) -> Result<Rows, Memory>
    requires records { AreRecords kept.now }
    requires can { CanChangeAll (column_list columns.now) (record_rows kept.now)
        (map view changes.now) }
    ensures with { IfOk result (λ made. AreWith (column_list columns.now) rows.now
        (record_rows kept.now) (map view changes.now) made) }
    ensures fits { fits_in (table_of rows.now) (tables (column_list columns.now)) ≡ true
        → IfOk result (λ made. fits_in (table_of made) (tables (column_list columns.now)) ≡ true) }
{
    let mut made = Rows::new(alloc);
    let mut rest = rows;
    let mut wanted = kept;
    let mut left = changes;
    while let Some((row, others)) = rest.split_first() {
        rest = others;
        match changed_if_first(alloc, columns, row, wanted, left)? {
            Some(changed) => {
                made.push(changed)?;
                wanted = behind_first(wanted);
                left = behind_first(left);
            }
            None => made.push(row.copy(alloc)?)?,
        }
    }
    Ok(made)
}

/// `UpdateIf` on a collection, where no change is an error or has one: the rows of its filter are
/// changed, each by its change.
pub(crate) fn update_equal<W: World, L: Ledger>(
    alloc: Global,
    world: &mut W,
    collection: u32,
    kept: &[Fields],
    changes: &[Value],
    steps: &mut Steps<L>,
) -> Result<Value, Stop>
    requires { (cs : ColumnList) × IsOfColumns (W.fixed world.old).types collection cs
        × CanChangeAll cs kept.now (map view changes.now) }
    ensures attempt { Attempt W.Env W.World.own world.old world.new
        (IsOneOf (source.Gathered collection ∷ [])) }
    ensures keeper { IsErrOf result Stop.Keeper
        → Rose (W.marks world.old).faults (W.marks world.new).faults }
    ensures done { IfOk result (λ x. StateBecomes W.Env W.World.own world.old world.new
        (λ s t. AreUpdatedIn (columns_of_rows
        ((W.fixed world.old).types (source.Gathered collection))) collection kept.now
        (map view changes.now) s (view x) t)) }
    ensures cut { OnErr result (StateBecomes W.Env W.World.own world.old world.new
        (UpTo (λ s n x t. AreUpdatedIn (columns_of_rows
        ((W.fixed world.old).types (source.Gathered collection))) collection kept.now
        (map view changes.now) s x t))) }
    ensures fits { IfOk result (λ x. fits_in (view x) booleans ≡ true) }
{
    let columns = collection_columns(alloc, world, collection)?;
    let kept = records(alloc, kept)?;
    let rows = rows_held(alloc, world, collection, steps)?;
    let made = rows_with(alloc, &columns, rows.as_slice(), kept.as_slice(), changes)?;
    make(
        alloc,
        world,
        Change::Gather(collection, Value::Tab(made)),
        Value::Boolean(true),
    )
}
