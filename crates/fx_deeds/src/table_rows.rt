//! Rows of tables that are made or changed.
ghost use Rattle.std.specs.Prelude.{◌≡◌, ◌≤◌, ◌∷◌, [], false, true, IfOk, IfSome, IsErrOf, IsSome};
ghost use Rattle.std.specs.Prelude.{OnErr, map, option_map, slice_get, take};
ghost use Rattle.std.specs.List.{find};
ghost use Rattle.fx_base.specs.Faults.{Rose};
ghost use Rattle.fx_base.specs.Silence.{MayFallSilent, IsLater, SilenceCause};
ghost use Rattle.fx_base.specs.Telling.{Stays};
ghost use Rattle.fx_types.specs.Types.{booleans, records};
ghost use Rattle.fx_types.specs.ValueView.{view};
ghost use Rattle.fx_types.specs.Values.{blank as blank_data};
ghost use Rattle.fx_env.specs.Telling.{tables_told};
ghost use Rattle.fx_semantics.specs.Around.{record_of as data_of};
ghost use Rattle.fx_tables.specs.Unions.{is_fault};
ghost use Rattle.fx_semantics.specs.Rows.{rows_in};
ghost use Rattle.fx_core.specs.SourceTypes.{columns_of};
ghost use Rattle.fx_value.specs.Fits.{fits_in};
ghost use Rattle.fx_value.specs.Keys.{key_bytes};
ghost use Rattle.fx_value.specs.Order.{IsScalar};
ghost use Rattle.fx_core.specs.declared.sources.Source.TheVariants as source;
ghost use Rattle.row_queries.specs.Answers.{IsScanValue};
ghost use Rattle.row_queries.specs.Queries.{IsQuery};
ghost use Rattle.row_queries.specs.TableRows.{AreCellsOf};
ghost use Rattle.row_keeper.specs.Numbered.{one_row as one_row_query};
ghost use Rattle.row_keeper.specs.Rules.{only_key};
ghost use Rattle.fx_deeds.specs.CutOff.{UpTo};
ghost use Rattle.fx_deeds.specs.Deeds.{AreUpdated, IsPatched, MakesRow, OfTable, PatchesBase};
ghost use Rattle.fx_deeds.specs.Deeds.{PatchesById, PatchesRow, row_id_value};
ghost use Rattle.fx_deeds.specs.Finding.{CanChangeEach, CanChangeRows, CanPatchRows, FindsCells};
ghost use Rattle.fx_deeds.specs.Finding.{IsPutEnd, IsPutOf, IsRowAt, IsRowPatched, IsShape};
ghost use Rattle.fx_deeds.specs.Finding.{IsUpdatedRow, first_cells as first_cells_of};
ghost use Rattle.fx_deeds.specs.Found.{NamesRow};
ghost use Rattle.fx_deeds.specs.RowValues.{blank_cells as blank_cells_of};
ghost use Rattle.fx_deeds.specs.RowValues.{changed_cells as changed_cells_of, rows_among};
ghost use Rattle.fx_deeds.specs.RowValues.{values_among};
ghost use Rattle.fx_deeds.specs.StagesOver.{Attempt, Look, StateBecomes};
ghost use Rattle.fx_deeds.specs.Writable.{IsOneOf};

use crate::answers::error;
use crate::changes::{insert, replace};
use crate::put_answers::{put_answer, rule_error};
use crate::removing::{id_value, named_id};
use crate::row_changes::{blank_cells, changed_cells, error_among, record_cells};
use crate::tables::{with_table, with_tables};
use crate::world::World;
use fx_base::{InOrder, Memory};
use fx_core::{Column, TableShape};
use fx_env::Stop;
use fx_types::{Cmp, Fields, Kind, Rows, Value};
use row_keeper::Put;
use row_keeper::scans::number_of;
use row_keeper::schemas::copy_columns;
use row_queries::{Cells, Key, KeyRange, Query, Test, TestNode, asked_once};
use std::alloc::Global;

// The shape of a table.
fn shape_of<W: World>(alloc: Global, world: &W, table: u16) -> Result<TableShape, Memory>
    requires { IsSome (slice_get (W.fixed world.now).schema.tables table) }
    ensures { IfOk result (λ p. IsShape (W.fixed world.now).schema table p) }
{
    let Some(shape) = world.schema().tables.get(table as usize) else {
        unreachable!()
    };
    let name = shape.name.copy(alloc)?;
    let columns = copy_columns(alloc, &shape.columns)?;
    Ok(TableShape { name, columns })
}

// ---- the row of a number

// The range of a value's key alone: up to the first bytes after it.
fn only(alloc: Global, value: &Value) -> Result<KeyRange, Memory>
    requires { IsScalar (view value.now) }
    ensures { IfOk result (λ r. r ≡ only_key (key_bytes (view value.now))) }
{
    let from = Key::of(alloc, value)?;
    let mut bytes = Vec::from_slice(alloc, from.as_bytes())?;
    bytes.push(0)?;
    let upto = Some(Key::from_bytes(bytes));
    Ok(KeyRange { from, upto })
}

// A range as the only one.
fn alone(alloc: Global, range: KeyRange) -> Result<InOrder<KeyRange>, Memory>
    ensures { IfOk result (λ rs. rs ≡ range ∷ []) }
{
    let mut ranges = InOrder::new(alloc);
    ranges.push(range)?;
    Ok(ranges)
}

// Asks for the row of a number.
fn one_row(alloc: Global, table: u16, id: u32) -> Result<Query, Memory>
    ensures { IfOk result (λ q. q ≡ one_row_query table id) }
{
    let value = number_of(id);
    let ranges = alone(alloc, only(alloc, &value)?)?;
    Ok(Query {
        table,
        column: 0,
        ranges,
        // Beside the range, by which a keeper finds the row: the test decides by the number itself.
        test: Test {
            node: TestNode::Compare(Cmp::Eq, 0, value),
        },
        order: None,
        take: None,
    })
}

// Scans a table for the row of a number.
fn scan_row<W: World>(alloc: Global, world: &mut W, table: u16, id: u32) -> Result<Value, Stop>
    requires { IsQuery (W.fixed world.old).schema.tables (one_row_query table id) }
    ensures fixed { W.fixed world.new ≡ W.fixed world.old }
    ensures told { MayFallSilent (SilenceCause (W.marks world.old) (W.marks world.new)) Stays
        (W.told world.old) (W.told world.new) }
    ensures value { IfOk result (λ v. IsScanValue (W.fixed world.old).schema.tables
        (tables_told (W.told world.new)) (one_row_query table id) (view v)) }
    ensures marks { IsLater (W.marks world.old) (W.marks world.new) }
    ensures keeper { IsErrOf result Stop.Keeper
        → Rose (W.marks world.old).faults (W.marks world.new).faults }
    ensures visited { W.visited world.old ≤ W.visited world.new }
{
    let query = one_row(alloc, table, id)?;
    world.scan(&query)
}

// The cells of the first record of a table, if there is one.
fn first_cells(alloc: Global, columns: &[Column], table: &Value) -> Result<Option<Cells>, Memory>
    ensures { IfOk result (λ o. o ≡ first_cells_of columns.now (rows_in (view table.now))) }
{
    match table {
        Value::Tab(rows) => match rows.as_slice().split_first() {
            Some((row, _)) => Ok(Some(record_cells(alloc, columns, row)?)),
            None => Ok(None),
        },
        _ => Ok(None),
    }
}

// The cells of the row of a number, if there is one.
fn find_cells<W: World>(
    alloc: Global,
    world: &mut W,
    table: u16,
    shape: &TableShape,
    id: u32,
) -> Result<Option<Cells>, Stop>
    requires { IsShape (W.fixed world.old).schema table shape.now }
    ensures look { Look W.Env W.World.own world.old world.new }
    ensures keeper { IsErrOf result Stop.Keeper
        → Rose (W.marks world.old).faults (W.marks world.new).faults }
    ensures found { IfOk result (λ o. StateBecomes W.Env W.World.own world.old world.new
        (FindsCells table id o)) }
    ensures fit { IfOk result (λ o. IfSome o (IsRowAt shape.now id)) }
{
    // Called for what it says: rows that stand by rising numbers are asked in that order.
    asked_once();
    let found = scan_row(alloc, world, table, id)?;
    Ok(first_cells(alloc, shape.columns.as_slice(), &found)?)
}

// ---- rows

// Makes a row of these cells.
fn make_row<W: World>(
    alloc: Global,
    world: &mut W,
    table: u16,
    shape: &TableShape,
    cells: Cells,
) -> Result<Value, Stop>
    requires shape { IsShape (W.fixed world.old).schema table shape.now }
    requires cells { AreCellsOf shape.now.columns cells }
    ensures attempt { Attempt W.Env W.World.own world.old world.new
        (IsOneOf (source.Table table ∷ [])) }
    ensures keeper { IsErrOf result Stop.Keeper
        → Rose (W.marks world.old).faults (W.marks world.new).faults }
    ensures done { IfOk result (λ x. StateBecomes W.Env W.World.own world.old world.new
        (λ s t. MakesRow shape.now table cells s (view x) t)) }
    ensures cut { OnErr result (StateBecomes W.Env W.World.own world.old world.new
        (UpTo (λ s n x t. MakesRow shape.now table cells s x t))) }
    ensures fits { IfOk result (λ x. fits_in (view x) (records (columns_of shape.now)) ≡ true) }
{
    let put = insert(world, table, &cells)?;
    Ok(put_answer(alloc, shape, cells, put)?)
}

// What came of a row that was to be changed, and the cells that it was to get.
#[derive(Drop)]
struct Patched {
    cells: Cells,
    put: Put,
}

// Puts the cells that changes leave into the row of a number, if it is there.
fn put_changed<W: World>(
    alloc: Global,
    world: &mut W,
    table: u16,
    shape: &TableShape,
    id: u32,
    changes: &[Fields],
) -> Result<Patched, Stop>
    requires shape { IsShape (W.fixed world.old).schema table shape.now }
    requires can { CanChangeRows shape.now changes.now }
    ensures attempt { Attempt W.Env W.World.own world.old world.new
        (IsOneOf (source.Table table ∷ [])) }
    ensures keeper { IsErrOf result Stop.Keeper
        → Rose (W.marks world.old).faults (W.marks world.new).faults }
    ensures done { IfOk result (λ r. StateBecomes W.Env W.World.own world.old world.new
        (IsRowPatched shape.now table changes.now id r.cells r.put)) }
    ensures stops { OnErr result (StateBecomes W.Env W.World.own world.old world.new Stays) }
    ensures fit { IfOk result (λ r. IsPutOf shape.now r.cells r.put) }
{
    let Some(found) = find_cells(alloc, world, table, shape, id)? else {
        return Ok(Patched {
            cells: Cells::new(alloc),
            put: Put::NoRow,
        });
    };
    let cells = changed_cells(alloc, shape.columns.as_slice(), changes, found.as_slice())?;
    let put = replace(world, table, id, &cells)?;
    Ok(Patched { cells, put })
}

// A row as changes leave it, if there is one of this number.
fn patch_row<W: World>(
    alloc: Global,
    world: &mut W,
    table: u16,
    shape: &TableShape,
    id: u32,
    changes: &[Fields],
) -> Result<Value, Stop>
    requires shape { IsShape (W.fixed world.old).schema table shape.now }
    requires can { CanChangeRows shape.now changes.now }
    ensures attempt { Attempt W.Env W.World.own world.old world.new
        (IsOneOf (source.Table table ∷ [])) }
    ensures keeper { IsErrOf result Stop.Keeper
        → Rose (W.marks world.old).faults (W.marks world.new).faults }
    ensures done { IfOk result (λ x. StateBecomes W.Env W.World.own world.old world.new
        (λ s t. PatchesRow shape.now table changes.now id s (view x) t)) }
    ensures cut { OnErr result (StateBecomes W.Env W.World.own world.old world.new
        (UpTo (λ s n x t. PatchesRow shape.now table changes.now id s x t))) }
    ensures fits { IfOk result (λ x. fits_in (view x) (records (columns_of shape.now)) ≡ true) }
{
    let patched = put_changed(alloc, world, table, shape, id, changes)?;
    let Patched { cells, put } = patched;
    Ok(put_answer(alloc, shape, cells, put)?)
}

// A new row as changes make it.
fn patch_new<W: World>(
    alloc: Global,
    world: &mut W,
    table: u16,
    shape: &TableShape,
    changes: &[Fields],
) -> Result<Value, Stop>
    requires shape { IsShape (W.fixed world.old).schema table shape.now }
    requires can { CanChangeRows shape.now changes.now }
    ensures attempt { Attempt W.Env W.World.own world.old world.new
        (IsOneOf (source.Table table ∷ [])) }
    ensures keeper { IsErrOf result Stop.Keeper
        → Rose (W.marks world.old).faults (W.marks world.new).faults }
    ensures done { IfOk result (λ x. StateBecomes W.Env W.World.own world.old world.new
        (λ s t. MakesRow shape.now table (changed_cells_of shape.now.columns changes.now
        (blank_cells_of shape.now.columns)) s (view x) t)) }
    ensures cut { OnErr result (StateBecomes W.Env W.World.own world.old world.new
        (UpTo (λ s n x t. MakesRow shape.now table
        (changed_cells_of shape.now.columns changes.now (blank_cells_of shape.now.columns)) s x t))) }
    ensures fits { IfOk result (λ x. fits_in (view x) (records (columns_of shape.now)) ≡ true) }
{
    let columns = shape.columns.as_slice();
    let blanks = blank_cells(alloc, columns)?;
    let cells = changed_cells(alloc, columns, changes, blanks.as_slice())?;
    make_row(alloc, world, table, shape, cells)
}

// Whether the number of a record is blank.
fn has_blank_number(alloc: Global, base: &Value) -> Result<bool, Memory>
    ensures blank { IfOk result (λ b. b ≡ true → row_id_value (view base.now) ≡ blank_data) }
    ensures other { IfOk result (λ b. b ≡ false → row_id_value (view base.now) ≡ blank_data → ⊥) }
{
    let number = id_value(alloc, base)?;
    if let Value::Blank = number {
        return Ok(true);
    }
    Ok(false)
}

// The row that a record numbers as changes leave it, or a new one where the number is blank.
fn patch_numbered<W: World>(
    alloc: Global,
    world: &mut W,
    table: u16,
    shape: &TableShape,
    base: &Value,
    changes: &[Fields],
) -> Result<Value, Stop>
    requires shape { IsShape (W.fixed world.old).schema table shape.now }
    requires can { CanChangeRows shape.now changes.now }
    ensures attempt { Attempt W.Env W.World.own world.old world.new
        (IsOneOf (source.Table table ∷ [])) }
    ensures keeper { IsErrOf result Stop.Keeper
        → Rose (W.marks world.old).faults (W.marks world.new).faults }
    ensures done { IfOk result (λ x. StateBecomes W.Env W.World.own world.old world.new
        (λ s t. PatchesById shape.now table changes.now (row_id_value (view base.now)) s (view x)
        t)) }
    ensures cut { OnErr result (StateBecomes W.Env W.World.own world.old world.new
        (UpTo (λ s n x t. PatchesById shape.now table changes.now (row_id_value (view base.now)) s x
        t))) }
    ensures fits { IfOk result (λ x. fits_in (view x) (records (columns_of shape.now)) ≡ true) }
{
    if has_blank_number(alloc, base)? {
        return patch_new(alloc, world, table, shape, changes);
    }
    let named = named_id(alloc, base)?;
    match named {
        Ok(id) => patch_row(alloc, world, table, shape, id, changes),
        Err(error) => Ok(error),
    }
}

// The row of a base as changes leave it: a blank one is not found.
fn patch_base<W: World>(
    alloc: Global,
    world: &mut W,
    table: u16,
    shape: &TableShape,
    base: &Value,
    changes: &[Fields],
) -> Result<Value, Stop>
    requires shape { IsShape (W.fixed world.old).schema table shape.now }
    requires can { CanChangeRows shape.now changes.now }
    ensures attempt { Attempt W.Env W.World.own world.old world.new
        (IsOneOf (source.Table table ∷ [])) }
    ensures keeper { IsErrOf result Stop.Keeper
        → Rose (W.marks world.old).faults (W.marks world.new).faults }
    ensures done { IfOk result (λ x. StateBecomes W.Env W.World.own world.old world.new
        (λ s t. PatchesBase shape.now table changes.now (view base.now) s (view x) t)) }
    ensures cut { OnErr result (StateBecomes W.Env W.World.own world.old world.new
        (UpTo (λ s n x t. PatchesBase shape.now table changes.now (view base.now) s x t))) }
    ensures fits { IfOk result (λ x. fits_in (view x) (records (columns_of shape.now)) ≡ true) }
{
    match base {
        Value::Rec(_) => patch_numbered(alloc, world, table, shape, base, changes),
        _ => Ok(error(alloc, Kind::NotFound)?),
    }
}

// The first error among the number of a base and the fields of its changes.
fn error_of(alloc: Global, base: &Value, changes: &[Fields]) -> Result<Option<Value>, Memory>
    ensures { IfOk result (λ e. option_map view e
        ≡ find is_fault (row_id_value (view base.now) ∷ values_among changes.now)) }
{
    let number = id_value(alloc, base)?;
    if let Value::Fault(fault) = number {
        return Ok(Some(Value::Fault(fault)));
    }
    error_among(alloc, changes)
}

/// `Patch` on a table, where base and changes are no errors: an error of the base's number or of a
/// changed field is the answer.
pub(crate) fn patch_table<W: World>(
    alloc: Global,
    world: &mut W,
    table: u16,
    base: &Value,
    changes: &[Value],
) -> Result<Value, Stop>
    requires { OfTable (W.fixed world.old).schema table
        (λ p. CanPatchRows p (rows_among (map view changes.now))) }
    ensures attempt { Attempt W.Env W.World.own world.old world.new
        (IsOneOf (source.Table table ∷ [])) }
    ensures keeper { IsErrOf result Stop.Keeper
        → Rose (W.marks world.old).faults (W.marks world.new).faults }
    ensures done { IfOk result (λ x. StateBecomes W.Env W.World.own world.old world.new
        (λ s t. IsPatched (W.fixed world.old).schema table (view base.now) (map view changes.now) s
        (view x) t)) }
    ensures cut { OnErr result (StateBecomes W.Env W.World.own world.old world.new
        (UpTo (λ s n x t. IsPatched (W.fixed world.old).schema table (view base.now)
        (map view changes.now) s x t))) }
    ensures fits { OfTable (W.fixed world.old).schema table
        (λ p. IfOk result (λ x. fits_in (view x) (records (columns_of p)) ≡ true)) }
{
    let shape = shape_of(alloc, world, table)?;
    let changes = with_tables(alloc, Rows::new(alloc), changes)?;
    if let Some(error) = error_of(alloc, base, changes.as_slice())? {
        return Ok(error);
    }
    patch_base(alloc, world, table, &shape, base, changes.as_slice())
}

// One row of `UpdateIf` with its change. None where it was changed, and else what is answered.
fn update_row<W: World>(
    alloc: Global,
    world: &mut W,
    table: u16,
    shape: &TableShape,
    row: &Fields,
    change: &Value,
) -> Result<Option<Value>, Stop>
    requires shape { IsShape (W.fixed world.old).schema table shape.now }
    requires can { CanChangeRows shape.now (rows_in (view change.now)) }
    ensures attempt { Attempt W.Env W.World.own world.old world.new
        (IsOneOf (source.Table table ∷ [])) }
    ensures keeper { IsErrOf result Stop.Keeper
        → Rose (W.marks world.old).faults (W.marks world.new).faults }
    ensures done { IfOk result (λ o. StateBecomes W.Env W.World.own world.old world.new
        (IsUpdatedRow shape.now table row.now (view change.now) o)) }
    ensures cut { OnErr result (StateBecomes W.Env W.World.own world.old world.new
        (UpTo (λ s n x t. AreUpdated shape.now table (row.now ∷ []) (view change.now ∷ []) s x t))) }
    ensures fits { IfOk result (λ o. IfSome o (λ x. fits_in (view x) booleans ≡ true)) }
{
    let named = row_id(alloc, row)?;
    let changes = with_table(alloc, Rows::new(alloc), change)?;
    match named {
        Err(error) => Ok(Some(error)),
        Ok(id) => {
            let patched = put_changed(alloc, world, table, shape, id, changes.as_slice())?;
            let end = put_end(alloc, shape, patched.put)?;
            Ok(end)
        }
    }
}

// The number of a row that a filter kept, or the error that is answered for it.
fn row_id(alloc: Global, row: &Fields) -> Result<Result<u32, Value>, Memory>
    ensures { IfOk result (λ r. NamesRow (data_of row.now) r) }
{
    let record = Value::Rec(row.copy(alloc)?);
    named_id(alloc, &record)
}

// None where a row was changed, and else why it wasn't.
fn put_end(alloc: Global, shape: &TableShape, put: Put) -> Result<Option<Value>, Memory>
    ensures end { IfOk result (λ o. IsPutEnd shape.now put o) }
    ensures fits { IfOk result (λ o. IfSome o (λ x. fits_in (view x) booleans ≡ true)) }
{
    match put {
        Put::Id(_) => Ok(None),
        Put::NoRow => Ok(Some(error(alloc, Kind::NotFound)?)),
        Put::Refused(refusal) => {
            let columns = shape.columns.as_slice();
            Ok(Some(rule_error(alloc, columns, refusal)?))
        }
    }
}

/// `UpdateIf` on a table, where no change is an error or has one: the rows that records number are
/// changed, each by its change, up to the first that a rule refuses.
pub(crate) fn update_table<W: World>(
    alloc: Global,
    world: &mut W,
    table: u16,
    rows: &[Fields],
    changes: &[Value],
) -> Result<Value, Stop>
    requires { OfTable (W.fixed world.old).schema table
        (λ p. CanChangeEach p (map view changes.now)) }
    ensures attempt { Attempt W.Env W.World.own world.old world.new
        (IsOneOf (source.Table table ∷ [])) }
    ensures keeper { IsErrOf result Stop.Keeper
        → Rose (W.marks world.old).faults (W.marks world.new).faults }
    ensures done { IfOk result (λ x. StateBecomes W.Env W.World.own world.old world.new
        (λ s t. OfTable (W.fixed world.old).schema table
        (λ p. AreUpdated p table rows.now (map view changes.now) s (view x) t))) }
    ensures cut { OnErr result (StateBecomes W.Env W.World.own world.old world.new
        (UpTo (λ s n x t. OfTable (W.fixed world.old).schema table
        (λ p. AreUpdated p table (take n rows.now) (map view changes.now) s x t)))) }
    ensures fits { IfOk result (λ x. fits_in (view x) booleans ≡ true) }
{
    let shape = shape_of(alloc, world, table)?;
    update_rows(alloc, world, table, &shape, rows, changes)
}

// The same for a table of this shape.
fn update_rows<W: World>(
    alloc: Global,
    world: &mut W,
    table: u16,
    shape: &TableShape,
    rows: &[Fields],
    changes: &[Value],
) -> Result<Value, Stop>
    requires shape { IsShape (W.fixed world.old).schema table shape.now }
    requires can { CanChangeEach shape.now (map view changes.now) }
    ensures attempt { Attempt W.Env W.World.own world.old world.new
        (IsOneOf (source.Table table ∷ [])) }
    ensures keeper { IsErrOf result Stop.Keeper
        → Rose (W.marks world.old).faults (W.marks world.new).faults }
    ensures done { IfOk result (λ x. StateBecomes W.Env W.World.own world.old world.new
        (λ s t. AreUpdated shape.now table rows.now (map view changes.now) s (view x) t)) }
    ensures cut { OnErr result (StateBecomes W.Env W.World.own world.old world.new
        (UpTo (λ s n x t. AreUpdated shape.now table (take n rows.now) (map view changes.now) s x
        t))) }
    ensures fits { IfOk result (λ x. fits_in (view x) booleans ≡ true) }
{
    let mut rest = rows;
    let mut left = changes;
    while let Some((row, others)) = rest.split_first() {
        let Some((change, more)) = left.split_first() else {
            return Ok(Value::Boolean(true));
        };
        if let Some(answer) = update_row(alloc, world, table, shape, row, change)? {
            return Ok(answer);
        }
        rest = others;
        left = more;
    }
    Ok(Value::Boolean(true))
}
