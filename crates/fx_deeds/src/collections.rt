//! Rows of a collection that are taken out, changed, or put behind the others.
ghost use Rattle.std.specs.Prelude.{◌≡◌, ◌↔◌, ◌++◌, ◌∷◌, List, [], false, true, IfOk, IfSome};
ghost use Rattle.std.specs.Prelude.{IsErrOf, IsTrue, MatchOption, map, OnErr, take};
ghost use Rattle.fx_base.specs.Faults.{Rose};
ghost use Rattle.fx_base.specs.Telling.{Stays};
ghost use Rattle.fx_types.specs.Types.{ColumnList, booleans, column_list, records};
ghost use Rattle.fx_types.specs.ValueView.{view};
ghost use Rattle.fx_semantics.specs.Around.{record_of};
ghost use Rattle.fx_value.specs.Columns.{Row};
ghost use Rattle.fx_core.specs.declared.sources.Source.TheVariants as source;
ghost use Rattle.fx_value.specs.Fits.{fits_in};
ghost use Rattle.fx_deeds.specs.CutOff.{UpTo};
ghost use Rattle.fx_deeds.specs.Collections.{Appends, AreBlank, AreTaken, IsFirstRow, IsPatchedIn};
ghost use Rattle.fx_deeds.specs.Collections.{Lacks, PatchesGathered, PutsFor};
ghost use Rattle.fx_deeds.specs.Fitting.{CanChange, IsOfColumns};
ghost use Rattle.fx_deeds.specs.Found.{IsTakenFrom};
ghost use Rattle.fx_deeds.specs.RowValues.{blank_row as blank_row_of, columns_of_rows, record_row};
ghost use Rattle.fx_deeds.specs.RowValues.{rows_among};
ghost use Rattle.fx_deeds.specs.StagesOver.{Attempt, StateBecomes};
ghost use Rattle.fx_deeds.specs.Writable.{IsOneOf};

use crate::answers::error;
use crate::changes::{change, make};
use crate::row_changes::{changed_row, error_among};
use crate::session::rows_held;
use crate::tables::{with_copies, with_tables};
use crate::world::World;
use fx_base::Memory;
use fx_env::{Steps, Stop};
use fx_types::{Columns, Fields, Kind, Rows, Ty, Value};
use fx_value::same;
use session_state::Change;
use std::alloc::Global;
use std::sync::ledger::Ledger;

/// The columns of a collection.
pub(crate) fn collection_columns<W: World>(
    alloc: Global,
    world: &W,
    collection: u32,
) -> Result<Columns, Memory>
    requires { (cs : ColumnList) × IsOfColumns (W.fixed world.now).types collection cs }
    ensures { IfOk result (λ cs. IsOfColumns (W.fixed world.now).types collection (column_list cs)) }
{
    let Some(found) = world.names().collections.get(collection as usize) else {
        unreachable!()
    };
    match &found.ty {
        Ty::Tab(columns) => columns.copy(alloc),
        _ => unreachable!(),
    }
}

// A row of blanks.
fn blank_row(alloc: Global, columns: &Columns) -> Result<Fields, Memory>
    ensures { IfOk result (λ r. r ≡ blank_row_of (column_list columns.now)) }
{
    let mut items = Vec::new(alloc);
    let mut rest = columns.as_slice();
    while let Some((column, others)) = rest.split_first() {
        items.push((column.0.copy(alloc)?, Value::Blank))?;
        rest = others;
    }
    Ok(Fields::from_rising(items))
}

// A record as a row; a blank one is a row of blanks.
fn named_row(alloc: Global, columns: &Columns, sought: &Value) -> Result<Fields, Memory>
    ensures { IfOk result (λ r. r ≡ record_row (column_list columns.now) (view sought.now)) }
{
    match sought {
        Value::Rec(fields) => fields.copy(alloc),
        _ => blank_row(alloc, columns),
    }
}

// Whether a row is this record.
fn is_row(alloc: Global, row: &Fields, sought: &Value) -> Result<bool, Memory>
    ensures { IfOk result (λ b. IsTrue b ↔ (record_of row.now ≡ view sought.now)) }
{
    Ok(same(&Value::Rec(row.copy(alloc)?), sought))
}

// The rows before the first that is this one, and those behind it.
#[derive(Drop)]
struct Parted {
    before: Rows,
    after: Rows,
}

// Rows as they stand around the first that is this record, if there is one.
fn part(alloc: Global, rows: &[Fields], sought: &Value) -> Result<Option<Parted>, Memory>
    ensures { (r : Row) → view sought.now ≡ record_of r
        → IfOk result (λ o. MatchOption o (Lacks r rows.now)
        (λ p. IsFirstRow r rows.now p.before p.after)) }
{
    let mut before = Rows::new(alloc);
    let mut rest = rows;
    while let Some((row, others)) = rest.split_first() {
        if is_row(alloc, row, sought)? {
            let after = with_copies(alloc, Rows::new(alloc), others)?;
            return Ok(Some(Parted { before, after }));
        }
        before.push(row.copy(alloc)?)?;
        rest = others;
    }
    Ok(None)
}

// Rows as they stand around the first that is this one, if it is among them.
fn part_at(alloc: Global, rows: &[Fields], row: Fields) -> Result<Option<Parted>, Memory>
    ensures { IfOk result (λ o. MatchOption o (Lacks row rows.now)
        (λ p. IsFirstRow row rows.now p.before p.after)) }
{
    part(alloc, rows, &Value::Rec(row))
}

// Rows without the first that is this one, if it is among them.
fn without_first(alloc: Global, rows: &[Fields], row: Fields) -> Result<Option<Rows>, Memory>
    ensures { IfOk result (λ o. MatchOption o (Lacks row rows.now)
        (λ left. (before : List Row) × (after : List Row) × IsFirstRow row rows.now before after
        × (left ≡ before ++ after))) }
{
    let Some(parted) = part_at(alloc, rows, row)? else {
        return Ok(None);
    };
    let left = with_copies(alloc, parted.before, parted.after.as_slice())?;
    Ok(Some(left))
}

// Rows with another in the place of the first that is this one, if it is among them.
fn with_another(
    alloc: Global,
    rows: &[Fields],
    row: Fields,
    another: &Fields,
) -> Result<Option<Rows>, Memory>
    ensures { IfOk result (λ o. MatchOption o (Lacks row rows.now)
        (λ put. (before : List Row) × (after : List Row) × IsFirstRow row rows.now before after
        × (put ≡ before ++ another.now ∷ after))) }
{
    let Some(parted) = part_at(alloc, rows, row)? else {
        return Ok(None);
    };
    let Parted { mut before, after } = parted;
    before.push(another.copy(alloc)?)?;
    let put = with_copies(alloc, before, after.as_slice())?;
    Ok(Some(put))
}

// Takes the first row that is this one out of a collection. None where it was there, and else what
// is answered.
fn take_row<W: World, L: Ledger>(
    alloc: Global,
    world: &mut W,
    collection: u32,
    row: Fields,
    steps: &mut Steps<L>,
) -> Result<Option<Value>, Stop>
    requires { (cs : ColumnList) × IsOfColumns (W.fixed world.old).types collection cs }
    ensures attempt { Attempt W.Env W.World.own world.old world.new
        (IsOneOf (source.Gathered collection ∷ [])) }
    ensures keeper { IsErrOf result Stop.Keeper
        → Rose (W.marks world.old).faults (W.marks world.new).faults }
    ensures done { IfOk result (λ o. StateBecomes W.Env W.World.own world.old world.new
        (IsTakenFrom collection row o)) }
    ensures stops { OnErr result (StateBecomes W.Env W.World.own world.old world.new Stays) }
    ensures fits { IfOk result (λ o. IfSome o (λ x. fits_in (view x) booleans ≡ true)) }
{
    let rows = rows_held(alloc, world, collection, steps)?;
    let Some(left) = without_first(alloc, rows.as_slice(), row)? else {
        return Ok(Some(error(alloc, Kind::NotFound)?));
    };
    if change(world, Change::Gather(collection, Value::Tab(left)))? {
        Ok(None)
    } else {
        Ok(Some(error(alloc, Kind::QuotaExceeded)?))
    }
}

// Takes rows out of a collection, for each record the first equal one, up to the first that is
// missing.
fn take_rows<W: World, L: Ledger>(
    alloc: Global,
    world: &mut W,
    collection: u32,
    columns: &Columns,
    rows: &[Value],
    steps: &mut Steps<L>,
) -> Result<Value, Stop>
    requires { IsOfColumns (W.fixed world.old).types collection (column_list columns.now) }
    ensures attempt { Attempt W.Env W.World.own world.old world.new
        (IsOneOf (source.Gathered collection ∷ [])) }
    ensures keeper { IsErrOf result Stop.Keeper
        → Rose (W.marks world.old).faults (W.marks world.new).faults }
    ensures done { IfOk result (λ x. StateBecomes W.Env W.World.own world.old world.new
        (λ s t. AreTaken (column_list columns.now) collection (map view rows.now) s (view x) t)) }
    ensures cut { OnErr result (StateBecomes W.Env W.World.own world.old world.new
        (UpTo (λ s n x t. AreTaken (column_list columns.now) collection (take n (map view rows.now))
        s x t))) }
    ensures fits { IfOk result (λ x. fits_in (view x) booleans ≡ true) }
{
    let mut rest = rows;
    while let Some((sought, others)) = rest.split_first() {
        let row = named_row(alloc, columns, sought)?;
        if let Some(answer) = take_row(alloc, world, collection, row, steps)? {
            return Ok(answer);
        }
        rest = others;
    }
    Ok(Value::Boolean(true))
}

/// `Remove` on a collection, where no record is an error.
pub(crate) fn remove_equal<W: World, L: Ledger>(
    alloc: Global,
    world: &mut W,
    collection: u32,
    rows: &[Value],
    steps: &mut Steps<L>,
) -> Result<Value, Stop>
    requires { (cs : ColumnList) × IsOfColumns (W.fixed world.old).types collection cs }
    ensures attempt { Attempt W.Env W.World.own world.old world.new
        (IsOneOf (source.Gathered collection ∷ [])) }
    ensures keeper { IsErrOf result Stop.Keeper
        → Rose (W.marks world.old).faults (W.marks world.new).faults }
    ensures done { IfOk result (λ x. StateBecomes W.Env W.World.own world.old world.new
        (λ s t. AreTaken (columns_of_rows ((W.fixed world.old).types (source.Gathered collection)))
        collection (map view rows.now) s (view x) t)) }
    ensures cut { OnErr result (StateBecomes W.Env W.World.own world.old world.new
        (UpTo (λ s n x t. AreTaken (columns_of_rows
        ((W.fixed world.old).types (source.Gathered collection))) collection
        (take n (map view rows.now)) s x t))) }
    ensures fits { IfOk result (λ x. fits_in (view x) booleans ≡ true) }
{
    let columns = collection_columns(alloc, world, collection)?;
    take_rows(alloc, world, collection, &columns, rows, steps)
}

// Puts a row behind the others of a collection.
fn append<W: World, L: Ledger>(
    alloc: Global,
    world: &mut W,
    collection: u32,
    row: Fields,
    steps: &mut Steps<L>,
) -> Result<Value, Stop>
    requires { (cs : ColumnList) × IsOfColumns (W.fixed world.old).types collection cs
        × (fits_in (record_of row) (records cs) ≡ true) }
    ensures attempt { Attempt W.Env W.World.own world.old world.new
        (IsOneOf (source.Gathered collection ∷ [])) }
    ensures keeper { IsErrOf result Stop.Keeper
        → Rose (W.marks world.old).faults (W.marks world.new).faults }
    ensures done { IfOk result (λ x. StateBecomes W.Env W.World.own world.old world.new
        (λ s t. Appends collection row s (view x) t)) }
    ensures cut { OnErr result (StateBecomes W.Env W.World.own world.old world.new
        (UpTo (λ s n x t. Appends collection row s x t))) }
    ensures fits { (cs : ColumnList) → fits_in (record_of row) (records cs) ≡ true
        → IfOk result (λ x. fits_in (view x) (records cs) ≡ true) }
{
    let answer = Value::Rec(row.copy(alloc)?);
    let mut rows = rows_held(alloc, world, collection, steps)?;
    rows.push(row)?;
    make(
        alloc,
        world,
        Change::Gather(collection, Value::Tab(rows)),
        answer,
    )
}

// Puts a row in the place of the first one that is the other.
fn put_for<W: World, L: Ledger>(
    alloc: Global,
    world: &mut W,
    collection: u32,
    row: Fields,
    changed: Fields,
    steps: &mut Steps<L>,
) -> Result<Value, Stop>
    requires { (cs : ColumnList) × IsOfColumns (W.fixed world.old).types collection cs
        × (fits_in (record_of changed) (records cs) ≡ true) }
    ensures attempt { Attempt W.Env W.World.own world.old world.new
        (IsOneOf (source.Gathered collection ∷ [])) }
    ensures keeper { IsErrOf result Stop.Keeper
        → Rose (W.marks world.old).faults (W.marks world.new).faults }
    ensures done { IfOk result (λ x. StateBecomes W.Env W.World.own world.old world.new
        (λ s t. PutsFor collection row changed s (view x) t)) }
    ensures cut { OnErr result (StateBecomes W.Env W.World.own world.old world.new
        (UpTo (λ s n x t. PutsFor collection row changed s x t))) }
    ensures fits { (cs : ColumnList) → fits_in (record_of changed) (records cs) ≡ true
        → IfOk result (λ x. fits_in (view x) (records cs) ≡ true) }
{
    let rows = rows_held(alloc, world, collection, steps)?;
    let Some(put) = with_another(alloc, rows.as_slice(), row, &changed)? else {
        return Ok(error(alloc, Kind::NotFound)?);
    };
    make(
        alloc,
        world,
        Change::Gather(collection, Value::Tab(put)),
        Value::Rec(changed),
    )
}

// Whether all fields of a row are blank.
fn are_blank(row: &Fields) -> bool
    ensures yes { result ≡ true → AreBlank row.now }
    ensures no { result ≡ false → AreBlank row.now → ⊥ }
{
    let mut rest = row.as_slice();
    while let Some((field, others)) = rest.split_first() {
        match field.1 {
            Value::Blank => rest = others,
            _ => return false,
        }
    }
    true
}

// Puts a row as changes leave it behind the others of a collection, where all its fields are blank,
// and else in its place.
fn patch_row<W: World, L: Ledger>(
    alloc: Global,
    world: &mut W,
    collection: u32,
    row: Fields,
    changed: Fields,
    steps: &mut Steps<L>,
) -> Result<Value, Stop>
    requires { (cs : ColumnList) × IsOfColumns (W.fixed world.old).types collection cs
        × (fits_in (record_of changed) (records cs) ≡ true) }
    ensures attempt { Attempt W.Env W.World.own world.old world.new
        (IsOneOf (source.Gathered collection ∷ [])) }
    ensures keeper { IsErrOf result Stop.Keeper
        → Rose (W.marks world.old).faults (W.marks world.new).faults }
    ensures done { IfOk result (λ x. StateBecomes W.Env W.World.own world.old world.new
        (λ s t. PatchesGathered collection row changed s (view x) t)) }
    ensures cut { OnErr result (StateBecomes W.Env W.World.own world.old world.new
        (UpTo (λ s n x t. PatchesGathered collection row changed s x t))) }
    ensures fits { (cs : ColumnList) → fits_in (record_of changed) (records cs) ≡ true
        → IfOk result (λ x. fits_in (view x) (records cs) ≡ true) }
{
    if are_blank(&row) {
        append(alloc, world, collection, changed, steps)
    } else {
        put_for(alloc, world, collection, row, changed, steps)
    }
}

/// `Patch` on a collection, unless there is an error in a change.
pub(crate) fn patch_equal<W: World, L: Ledger>(
    alloc: Global,
    world: &mut W,
    collection: u32,
    base: &Value,
    changes: &[Value],
    steps: &mut Steps<L>,
) -> Result<Value, Stop>
    requires { (cs : ColumnList) × IsOfColumns (W.fixed world.old).types collection cs
        × CanChange cs (rows_among (map view changes.now)) (record_row cs (view base.now)) }
    ensures attempt { Attempt W.Env W.World.own world.old world.new
        (IsOneOf (source.Gathered collection ∷ [])) }
    ensures keeper { IsErrOf result Stop.Keeper
        → Rose (W.marks world.old).faults (W.marks world.new).faults }
    ensures done { IfOk result (λ x. StateBecomes W.Env W.World.own world.old world.new
        (λ s t. IsPatchedIn (columns_of_rows ((W.fixed world.old).types
        (source.Gathered collection))) collection (view base.now) (map view changes.now) s (view x)
        t)) }
    ensures cut { OnErr result (StateBecomes W.Env W.World.own world.old world.new
        (UpTo (λ s n x t. IsPatchedIn (columns_of_rows
        ((W.fixed world.old).types (source.Gathered collection))) collection (view base.now)
        (map view changes.now) s x t))) }
    ensures fits { (cs : ColumnList) → IsOfColumns (W.fixed world.old).types collection cs
        → IfOk result (λ x. fits_in (view x) (records cs) ≡ true) }
{
    let changes = with_tables(alloc, Rows::new(alloc), changes)?;
    if let Some(error) = error_among(alloc, changes.as_slice())? {
        return Ok(error);
    }
    let columns = collection_columns(alloc, world, collection)?;
    let row = named_row(alloc, &columns, base)?;
    let changed = changed_row(alloc, &columns, changes.as_slice(), &row)?;
    patch_row(alloc, world, collection, row, changed, steps)
}
