// The rows of a table in groups.
ghost use Rattle.std.specs.Prelude.{◌≡◌, IfOk, MatchOption, None, Some, flat_map, map};
ghost use Rattle.std.specs.List.{find};
ghost use Rattle.fx_types.specs.ValueView.{view};
ghost use Rattle.fx_types.specs.Values.{fault};
ghost use Rattle.fx_types.specs.Words.{scalars_of};
ghost use Rattle.fx_tables.specs.ColumnCalls.{without_columns};
ghost use Rattle.fx_tables.specs.Groups as groups;
ghost use Rattle.fx_tables.specs.TableRows.{table_of};
ghost use Rattle.fx_tables.specs.Unions.{is_fault};
ghost use Rattle.fx_group.specs.Buckets.{items_of};

use crate::buckets::{Buckets, put_row};
use crate::faults::fault_in;
use fx_base::Memory;
use fx_tables::column_calls::drop_columns;
use fx_tables::{add_column, show_columns};
use fx_types::faults::Fault;
use fx_types::values::{Fields, Rows, Value};
use fx_types::words::Words;
use fx_value::keys_order;
use std::alloc::Global;

/// A row for each different key, in the order in which they first appear: the fields of these
/// names, and in the new column `group` the rows of the key in their order, without the columns of
/// the keys. Where a key has an error, the first one from the first row on is the answer.
pub fn group(alloc: Global, rows: Rows, keys: &[Words], group: &str) -> Result<Value, Memory>
    requires { groups.CanGroup keys.now (scalars_of group.now) rows }
    ensures { IfOk result (λ v. view v ≡ groups.grouped_or keys.now (scalars_of group.now) rows) }
{
    match first_error(rows.as_slice(), keys) {
        Some(fault) => Ok(Value::Fault(fault.copy(alloc)?)),
        None => Ok(Value::Tab(group_rows(alloc, rows, keys, group)?)),
    }
}

// The first error in a key, from the first row on.
fn first_error<'r>(rows: &'r [Fields], keys: &[Words]) -> Option<&'r Fault>
    ensures { MatchOption result (find is_fault (flat_map (groups.key_of keys.now) rows.now) ≡ None)
        (λ f. find is_fault (flat_map (groups.key_of keys.now) rows.now)
        ≡ Some (fault f.now.kind f.now.message)) }
{
    for row in rows {
        if let Some(fault) = error_in(row, keys) {
            return Some(fault);
        }
    }
    None
}

// The first error in the key of a row.
fn error_in<'r>(row: &'r Fields, keys: &[Words]) -> Option<&'r Fault>
    ensures { MatchOption result (find is_fault (groups.key_of keys.now row.now) ≡ None)
        (λ f. find is_fault (groups.key_of keys.now row.now)
        ≡ Some (fault f.now.kind f.now.message)) }
{
    for key in keys {
        if let Some(fault) = fault_in(row, key) {
            return Some(fault);
        }
    }
    None
}

// A row for each key, of rows without an error in one.
fn group_rows(alloc: Global, rows: Rows, keys: &[Words], group: &str) -> Result<Rows, Memory>
    requires can { groups.CanGroup keys.now (scalars_of group.now) rows }
    requires faultless { find is_fault (flat_map (groups.key_of keys.now) rows) ≡ None }
    ensures { IfOk result (λ r. r ≡ map (groups.grouped_row keys.now (scalars_of group.now) rows)
        (groups.firsts_of keys.now rows)) }
{
    // Called for what it says: equal values, and no others, have equal bytes.
    keys_order();
    let mut buckets = Buckets::new(alloc);
    for row in rows.into_items() {
        put_row(alloc, &mut buckets, keys, row)?;
    }
    let shown = show_columns(alloc, Rows::from_items(buckets.firsts), keys)?;
    let tables = tables_of(alloc, buckets.groups, keys)?;
    add_column(alloc, shown, group, tables)
}

// Each group as a table without the columns of the keys.
fn tables_of(alloc: Global, groups: Vec<Vec<Fields>>, keys: &[Words]) -> Result<Vec<Value>, Memory>
    ensures { IfOk result (λ vs. map view vs.items
        ≡ map (λ g. table_of (without_columns keys.now g)) (items_of groups.items)) }
{
    let mut tables = Vec::with_capacity(alloc, groups.len())?;
    for rows in groups {
        tables.push(drop_columns(alloc, Rows::from_items(rows), keys)?)?;
    }
    Ok(tables)
}
