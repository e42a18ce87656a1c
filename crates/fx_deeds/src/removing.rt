//! Rows of tables that are taken out.
ghost use Rattle.std.specs.Prelude.{◌≡◌, ◌∷◌, [], IfOk, IfSome, IsErrOf, IsSome, OnErr, map, pos};
ghost use Rattle.std.specs.Prelude.{slice_get, take, true};
ghost use Rattle.fx_base.specs.Faults.{Rose};
ghost use Rattle.fx_base.specs.Telling.{Stays};
ghost use Rattle.fx_types.specs.Types.{booleans};
ghost use Rattle.fx_types.specs.ValueView.{view};
ghost use Rattle.fx_core.specs.Lawful.{id_name as name_of_id};
ghost use Rattle.fx_value.specs.Fits.{fits_in};
ghost use Rattle.fx_core.specs.declared.sources.Source.TheVariants as source;
ghost use Rattle.fx_deeds.specs.CutOff.{UpTo};
ghost use Rattle.fx_deeds.specs.Deeds.{AreRemoved, row_id_value};
ghost use Rattle.fx_deeds.specs.Found.{NamesRow, IsTakenOut};
ghost use Rattle.fx_deeds.specs.RowValues.{id_in};
ghost use Rattle.fx_deeds.specs.StagesOver.{Attempt, StateBecomes};
ghost use Rattle.fx_deeds.specs.Writable.{IsOneOf};

use crate::answers::error;
use crate::changes::remove;
use crate::world::World;
use fx_base::Memory;
use fx_env::Stop;
use fx_number::Num;
use fx_types::{Kind, Value, Words};
use std::alloc::Global;

/// The ten-thousandths of 1.
const ONE: u64 = 10_000;

/// The name of the column of rows' numbers.
pub(crate) fn id_name(alloc: Global) -> Result<Words, Memory>
    ensures { IfOk result (λ w. w ≡ name_of_id) }
{
    Ok(Words::of(alloc, "ID")?)
}

/// The value of a record's number, and blank where it has none.
pub(crate) fn id_value(alloc: Global, row: &Value) -> Result<Value, Memory>
    ensures { IfOk result (λ v. view v ≡ row_id_value (view row.now)) }
{
    match row {
        Value::Rec(fields) => match fields.value(&id_name(alloc)?) {
            Some(value) => value.copy(alloc),
            None => Ok(Value::Blank),
        },
        Value::Fault(fault) => Ok(Value::Fault(fault.copy(alloc)?)),
        _ => Ok(Value::Blank),
    }
}

// The number of a row by its count of ten-thousandths.
fn whole_id(units: u64) -> Option<u32>
    ensures { result ≡ id_in (pos units) }
{
    if units % ONE != 0 || units < ONE {
        return None;
    }
    u32::try_from(units / ONE).ok()
}

// The number of a row.
fn number_id(number: Num) -> Option<u32>
    ensures { result ≡ id_in number }
{
    match u64::try_from(number.units()) {
        Ok(units) => whole_id(units),
        Err(_) => None,
    }
}

/// The number of the row that a record names, or the error that is answered for it.
pub(crate) fn named_id(alloc: Global, row: &Value) -> Result<Result<u32, Value>, Memory>
    ensures { IfOk result (λ r. NamesRow (view row.now) r) }
{
    match id_value(alloc, row)? {
        Value::Fault(fault) => Ok(Err(Value::Fault(fault))),
        Value::Number(number) => match number_id(number) {
            Some(id) => Ok(Ok(id)),
            None => Ok(Err(error(alloc, Kind::NotFound)?)),
        },
        _ => Ok(Err(error(alloc, Kind::NotFound)?)),
    }
}

// Takes the row that a record names out of a table. None where it was there, and else what is
// answered.
fn remove_row<W: World>(
    alloc: Global,
    world: &mut W,
    table: u16,
    row: &Value,
) -> Result<Option<Value>, Stop>
    requires { IsSome (slice_get (W.fixed world.old).schema.tables table) }
    ensures attempt { Attempt W.Env W.World.own world.old world.new
        (IsOneOf (source.Table table ∷ [])) }
    ensures keeper { IsErrOf result Stop.Keeper
        → Rose (W.marks world.old).faults (W.marks world.new).faults }
    ensures done { IfOk result (λ o. StateBecomes W.Env W.World.own world.old world.new
        (IsTakenOut table (view row.now) o)) }
    ensures stops { OnErr result (StateBecomes W.Env W.World.own world.old world.new Stays) }
    ensures fits { IfOk result (λ o. IfSome o (λ x. fits_in (view x) booleans ≡ true)) }
{
    match named_id(alloc, row)? {
        Ok(id) => {
            if remove(world, table, id)? {
                Ok(None)
            } else {
                Ok(Some(error(alloc, Kind::NotFound)?))
            }
        }
        Err(error) => Ok(Some(error)),
    }
}

/// Takes the rows that records name out of a table, up to the first that is missing.
pub(crate) fn remove_rows<W: World>(
    alloc: Global,
    world: &mut W,
    table: u16,
    rows: &[Value],
) -> Result<Value, Stop>
    requires { IsSome (slice_get (W.fixed world.old).schema.tables table) }
    ensures attempt { Attempt W.Env W.World.own world.old world.new
        (IsOneOf (source.Table table ∷ [])) }
    ensures keeper { IsErrOf result Stop.Keeper
        → Rose (W.marks world.old).faults (W.marks world.new).faults }
    ensures done { IfOk result (λ x. StateBecomes W.Env W.World.own world.old world.new
        (λ s t. AreRemoved table (map view rows.now) s (view x) t)) }
    ensures cut { OnErr result (StateBecomes W.Env W.World.own world.old world.new
        (UpTo (λ s n x t. AreRemoved table (take n (map view rows.now)) s x t))) }
    ensures fits { IfOk result (λ x. fits_in (view x) booleans ≡ true) }
{
    let mut rest = rows;
    while let Some((row, others)) = rest.split_first() {
        if let Some(answer) = remove_row(alloc, world, table, row)? {
            return Ok(answer);
        }
        rest = others;
    }
    Ok(Value::Boolean(true))
}
