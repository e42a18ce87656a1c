//! What is answered for rows that are made or changed.
ghost use Rattle.std.specs.Prelude.{◌≡◌, ◌∷◌, [], suc, true, IfOk, Some};
ghost use Rattle.fx_types.specs.Types.{records};
ghost use Rattle.fx_types.specs.ValueView.{view};
ghost use Rattle.fx_semantics.specs.Around.{record_of as data_of};
ghost use Rattle.fx_semantics.specs.Rows.{table_of as data_table_of};
ghost use Rattle.fx_core.specs.Lawful.{IsLawfulTable};
ghost use Rattle.fx_core.specs.SourceTypes.{columns_of};
ghost use Rattle.fx_value.specs.Columns.{Row as FieldRow};
ghost use Rattle.fx_value.specs.Fits.{fits_in};
ghost use Rattle.row_queries.specs.TableRows.{IsRowOf};
ghost use Rattle.fx_deeds.specs.Finding.{IsPutOf};
ghost use Rattle.fx_deeds.specs.RowValues.{column_name as column_name_of};
ghost use Rattle.fx_deeds.specs.RowValues.{put_answer as put_answer_of};
ghost use Rattle.fx_deeds.specs.RowValues.{rule_error as rule_error_of, rule_kind as rule_kind_of};
ghost use Rattle.fx_deeds.specs.RowValues.{whole_row as whole_row_of};

use crate::answers::error;
use crate::removing::id_name;
use fx_base::Memory;
use fx_core::{Column, TableShape};
use fx_types::{Fault, Kind, Value, Words};
use row_keeper::row_tables::table;
use row_keeper::{Put, RowRefusal, RowRule};
use row_queries::{Cells, Row, rows_fit};
use std::alloc::Global;

// The kind of error of a rule.
fn rule_kind(rule: RowRule) -> Kind
    ensures { result ≡ rule_kind_of rule }
{
    match rule {
        RowRule::Required => Kind::MissingRequired,
        RowRule::Unique => Kind::ConstraintViolated,
        RowRule::Size | RowRule::Full => Kind::QuotaExceeded,
    }
}

// The name of a column, which counts from 1 behind `ID`; none where a rule has none.
fn column_name(alloc: Global, columns: &[Column], column: Option<u16>) -> Result<Words, Memory>
    ensures { IfOk result (λ w. w ≡ column_name_of columns.now column) }
{
    match column {
        None => Ok(Words::of(alloc, "")?),
        Some(place) => place_name(alloc, columns, place),
    }
}

// The name of the column of a number, where `ID` is 0; none where there is none.
fn place_name(alloc: Global, columns: &[Column], place: u16) -> Result<Words, Memory>
    ensures { IfOk result (λ w. w ≡ column_name_of columns.now (Some place)) }
{
    if place == 0 {
        return id_name(alloc);
    }
    name_at(alloc, columns, place as usize - 1)
}

// The name of the column at a place, counted from 0; none where there is none.
fn name_at(alloc: Global, columns: &[Column], place: usize) -> Result<Words, Memory>
    ensures { IfOk result (λ w. w ≡ column_name_of columns.now (Some (suc place))) }
{
    match columns.get(place) {
        Some(column) => column.name.copy(alloc),
        None => Ok(Words::of(alloc, "")?),
    }
}

/// The error of a rule that a row breaks.
pub(crate) fn rule_error(
    alloc: Global,
    columns: &[Column],
    refusal: RowRefusal,
) -> Result<Value, Memory>
    ensures { IfOk result (λ v. view v ≡ rule_error_of columns.now refusal) }
{
    let message = column_name(alloc, columns, refusal.column)?;
    let kind = rule_kind(refusal.rule);
    Ok(Value::Fault(Fault { kind, message }))
}

// The one record of a table.
fn only_record(alloc: Global, table: &Value) -> Result<Value, Memory>
    ensures { (r : FieldRow) → view table.now ≡ data_table_of (r ∷ [])
        → IfOk result (λ v. view v ≡ data_of r) }
{
    match table {
        Value::Tab(rows) => match rows.as_slice().split_first() {
            Some((row, _)) => Ok(Value::Rec(row.copy(alloc)?)),
            None => Ok(Value::Blank),
        },
        _ => Ok(Value::Blank),
    }
}

// A row as a record with its number.
fn whole_row(alloc: Global, shape: &TableShape, row: Row) -> Result<Value, Memory>
    requires lawful { IsLawfulTable shape.now }
    requires fit { IsRowOf shape.now row }
    ensures row { IfOk result (λ v. view v ≡ whole_row_of shape.now row.id row.cells) }
    ensures fits { IfOk result (λ v. fits_in (view v) (records (columns_of shape.now)) ≡ true) }
{
    // Called for what it says: rows that fit a table are of its type.
    rows_fit();
    let mut rows = Vec::new(alloc);
    rows.push(row)?;
    let whole = table(alloc, shape, rows.as_slice())?;
    only_record(alloc, &whole)
}

/// What is answered for a row that was to be kept: the whole row, or why it isn't.
pub(crate) fn put_answer(
    alloc: Global,
    shape: &TableShape,
    cells: Cells,
    put: Put,
) -> Result<Value, Memory>
    requires lawful { IsLawfulTable shape.now }
    requires fit { IsPutOf shape.now cells put }
    ensures answer { IfOk result (λ v. view v ≡ put_answer_of shape.now cells put) }
    ensures fits { IfOk result (λ v. fits_in (view v) (records (columns_of shape.now)) ≡ true) }
{
    match put {
        Put::Id(id) => whole_row(alloc, shape, Row { id, cells }),
        Put::NoRow => error(alloc, Kind::NotFound),
        Put::Refused(refusal) => rule_error(alloc, shape.columns.as_slice(), refusal),
    }
}
