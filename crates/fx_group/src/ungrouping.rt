// The rows of a table out of their groups.
ghost use Rattle.std.specs.Prelude.{◌≡◌, ◌++◌, IfOk, MatchOption, None, OnOk, Some, flat_map, map};
ghost use Rattle.std.specs.List.{All, find};
ghost use Rattle.fx_types.specs.ValueView.{view};
ghost use Rattle.fx_types.specs.Values.{fault};
ghost use Rattle.fx_types.specs.Words.{scalars_of};
ghost use Rattle.fx_tables.specs.Groups as groups;
ghost use Rattle.fx_tables.specs.TableRows.{rows_in};
ghost use Rattle.fx_tables.specs.Unions.{is_fault};
ghost use Rattle.fx_value.specs.Columns.{fields_without};

use crate::faults::fault_in;
use fx_base::Memory;
use fx_tables::columns::{take_field, with_field};
use fx_types::faults::Fault;
use fx_types::values::{Fields, Rows, Value};
use fx_types::words::Words;
use std::alloc::Global;

/// The rows of the groups in the column `group`, row by row, each beside its row's other fields. A
/// blank group has none. Where an error stands in the place of a group, the first one is the
/// answer.
pub fn ungroup(alloc: Global, rows: Rows, group: &str) -> Result<Value, Memory>
    requires { groups.CanUngroup (scalars_of group.now) rows }
    ensures { IfOk result (λ v. view v ≡ groups.ungrouped_or (scalars_of group.now) rows) }
{
    let group = Words::of(alloc, group)?;
    match first_error(rows.as_slice(), &group) {
        Some(fault) => Ok(Value::Fault(fault.copy(alloc)?)),
        None => Ok(Value::Tab(ungroup_rows(alloc, rows, &group)?)),
    }
}

// The first error in the place of a group.
fn first_error<'r>(rows: &'r [Fields], group: &Words) -> Option<&'r Fault>
    ensures { MatchOption result (find is_fault (map (groups.value_of group.now) rows.now) ≡ None)
        (λ f. find is_fault (map (groups.value_of group.now) rows.now)
        ≡ Some (fault f.now.kind f.now.message)) }
{
    for row in rows {
        if let Some(fault) = fault_in(row, group) {
            return Some(fault);
        }
    }
    None
}

// The rows of all groups.
fn ungroup_rows(alloc: Global, rows: Rows, group: &Words) -> Result<Rows, Memory>
    requires { groups.CanUngroup group.now rows }
    ensures { IfOk result (λ r. r ≡ flat_map (groups.rows_under group.now) rows) }
{
    let mut all = Vec::new(alloc);
    for row in rows.into_items() {
        put_group(alloc, &mut all, row, group)?;
    }
    Ok(Rows::from_items(all))
}

// Puts the rows of a row's group behind others.
fn put_group(alloc: Global, all: &mut Vec<Fields>, row: Fields, group: &Words) -> Result<(), Memory>
    requires { All (groups.IsApart (fields_without group.now row))
        (rows_in (groups.value_of group.now row)) }
    ensures { OnOk result (all.new.items ≡ all.old.items ++ groups.rows_under group.now row) }
{
    let (value, others) = take_field(row, group);
    match value {
        Value::Tab(rows) => put_beside(alloc, all, rows, &others),
        _ => Ok(()),
    }
}

// Puts rows behind others, each beside the same fields.
fn put_beside(
    alloc: Global,
    all: &mut Vec<Fields>,
    rows: Rows,
    others: &Fields,
) -> Result<(), Memory>
    requires { All (groups.IsApart others.now) rows }
    ensures { OnOk result (all.new.items
        ≡ all.old.items ++ map (λ s. groups.with_fields s others.now) rows) }
{
    for row in rows.into_items() {
        all.push(joined(others.copy(alloc)?, row)?)?;
    }
    Ok(())
}

// A record with the fields of another, whose names it has none of.
fn joined(row: Fields, more: Fields) -> Result<Fields, Memory>
    requires { groups.IsApart row more }
    ensures { IfOk result (λ f. f ≡ groups.with_fields more row) }
{
    let mut joined = row;
    for (name, value) in more.into_items() {
        joined = with_field(joined, name, value)?;
    }
    Ok(joined)
}
