// The calls that change the columns of a table.
ghost use Rattle.std.specs.Prelude.{◌≡◌, ◌≤◌, IfOk, MatchOption, map, length, unwrap_or, None};
ghost use Rattle.std.specs.Prelude.{Some, option_map, slice_get};
ghost use Rattle.std.specs.List.{list_any, position_or_len};
ghost use Rattle.std.specs.Prelude.{bytes_eq};
ghost use Rattle.std.specs.Cmp.Lexicographic.{slice_cmp};
ghost use Rattle.std.specs.Ordering.{nat_cmp, is_lt};
ghost use Rattle.fx_types.specs.Lookup.{item_named};
ghost use Rattle.fx_types.specs.Rising.{AreNamesRising};
ghost use Rattle.fx_types.specs.Values.{blank};
ghost use Rattle.fx_types.specs.ValueView.{view, fields_view};
ghost use Rattle.fx_types.specs.Words.{scalars_of};
ghost use Rattle.fx_value.specs.Columns.{LacksColumn, fields_only as only_of};
ghost use Rattle.fx_value.specs.Columns.{field_renamed as renamed_of, rows_with_column};
ghost use Rattle.fx_value.specs.Columns.{with_field as with_field_of, fields_without as without_of};

use fx_base::Memory;
use fx_types::values::{Fields, Rows, Value};
use fx_types::words::Words;
use std::alloc::Global;

/// The rows with one more column, of the values that stand at their places.
pub fn add_column(alloc: Global, rows: Rows, name: &str, values: Vec<Value>) -> Result<Rows, Memory>
    requires new { LacksColumn (scalars_of name.now) rows }
    requires long { length values.items ≡ length rows }
    ensures { IfOk result (λ r. r ≡ rows_with_column (scalars_of name.now) rows
        (map view values.items)) }
{
    let name = Words::of(alloc, name)?;
    rows_with(alloc, rows, &name, values)
}

/// The rows without the column of this name.
pub fn drop_column(alloc: Global, rows: Rows, name: &str) -> Result<Rows, Memory>
    ensures { IfOk result (λ r. r ≡ map (without_of (scalars_of name.now)) rows) }
{
    let name = Words::of(alloc, name)?;
    rows_without(alloc, rows, &name)
}

/// The rows in which the column `from` has the name `to`, which is no column's.
pub fn rename_column(alloc: Global, rows: Rows, from: &str, to: &str) -> Result<Rows, Memory>
    requires { LacksColumn (scalars_of to.now) rows }
    ensures { IfOk result (λ r. r
        ≡ map (renamed_of (scalars_of from.now) (scalars_of to.now)) rows) }
{
    let from = Words::of(alloc, from)?;
    let to = Words::of(alloc, to)?;
    rename_rows(alloc, rows, &from, &to)
}

/// The rows with the columns of these names alone.
pub fn show_columns(alloc: Global, rows: Rows, names: &[Words]) -> Result<Rows, Memory>
    ensures { IfOk result (λ r. r ≡ map (only_of names.now) rows) }
{
    let items = rows.into_items();
    let mut shown = Vec::with_capacity(alloc, items.len())?;
    for row in items {
        shown.push(only(row, names))?;
    }
    Ok(Rows::from_items(shown))
}

fn rows_with(alloc: Global, rows: Rows, name: &Words, values: Vec<Value>) -> Result<Rows, Memory>
    requires new { LacksColumn name.now rows }
    requires long { length values.items ≡ length rows }
    ensures { IfOk result (λ r. r ≡ rows_with_column name.now rows (map view values.items)) }
{
    let items = rows.into_items();
    let mut wider = Vec::with_capacity(alloc, items.len())?;
    let mut left = values.into_iter();
    for row in items {
        let name = name.copy(alloc)?;
        let Some(value) = left.next() else {
            unreachable!()
        };
        wider.push(with_field(row, name, value)?)?;
    }
    Ok(Rows::from_items(wider))
}

fn rows_without(alloc: Global, rows: Rows, name: &Words) -> Result<Rows, Memory>
    ensures { IfOk result (λ r. r ≡ map (without_of name.now) rows) }
{
    let items = rows.into_items();
    let mut kept = Vec::with_capacity(alloc, items.len())?;
    for row in items {
        let (_, others) = take_field(row, name);
        kept.push(others)?;
    }
    Ok(Rows::from_items(kept))
}

fn rename_rows(alloc: Global, rows: Rows, from: &Words, to: &Words) -> Result<Rows, Memory>
    requires { LacksColumn to.now rows }
    ensures { IfOk result (λ r. r ≡ map (renamed_of from.now to.now) rows) }
{
    let items = rows.into_items();
    let mut changed = Vec::with_capacity(alloc, items.len())?;
    for row in items {
        changed.push(rename_field(row, from, to.copy(alloc)?)?)?;
    }
    Ok(Rows::from_items(changed))
}

/// A record with one more field.
pub fn with_field(row: Fields, name: Words, value: Value) -> Result<Fields, Memory>
    requires { item_named name row ≡ None }
    ensures { IfOk result (λ f. f ≡ with_field_of name (view value) row) }
{
    let mut items = row.into_items();
    let place = place_of(items.as_slice(), &name);
    items.insert(place, (name, value))?;
    Ok(Fields::from_rising(items))
}

// Where a name stands among fields: before the first whose name is above it.
fn place_of(items: &[(Words, Value)], name: &Words) -> usize
    ensures value { result
        ≡ position_or_len (λ f. is_lt (slice_cmp nat_cmp name.now f.0)) items.now }
    ensures bound { result ≤ length items.now }
{
    for (place, (other, _)) in items.iter().enumerate() {
        if name.compare(other).is_lt() {
            return place;
        }
    }
    items.len()
}

/// The value of a record's field, blank where it is missing, and the record without the field.
pub fn take_field(row: Fields, name: &Words) -> (Value, Fields)
    ensures value { view result.0 ≡ unwrap_or (item_named name.now row) blank }
    ensures others { result.1 ≡ without_of name.now row }
{
    let mut items = row.into_items();
    let value = take_value(&mut items, name);
    (value, Fields::from_rising(items))
}

// A record with the fields of these names alone.
fn only(row: Fields, names: &[Words]) -> Fields
    ensures { result ≡ only_of names.now row }
{
    let mut items = row.into_items();
    items.retain(|(other, _)| is_among(other, names));
    Fields::from_rising(items)
}

fn is_among(name: &Words, names: &[Words]) -> bool
    ensures { result ≡ list_any (bytes_eq name.now) names.now }
{
    names.iter().any(|other| name.is(other))
}

// A record in which a field has another name.
fn rename_field(row: Fields, from: &Words, to: Words) -> Result<Fields, Memory>
    requires { item_named to row ≡ None }
    ensures { IfOk result (λ f. f ≡ renamed_of from.now to row) }
{
    let (value, others) = take_field(row, from);
    with_field(others, to, value)
}

// The value under a name, which is taken out, or blank where it is missing.
fn take_value(items: &mut Vec<(Words, Value)>, name: &Words) -> Value
    requires { AreNamesRising (fields_view items.old.items) }
    ensures value { view result ≡ unwrap_or (item_named name.now (fields_view items.old.items))
        blank }
    ensures others { fields_view items.new.items
        ≡ without_of name.now (fields_view items.old.items) }
{
    match place_under(items.as_slice(), name) {
        Some(place) => {
            let (_, value) = items.remove(place);
            value
        }
        None => Value::Blank,
    }
}

// Where the field of a name stands.
fn place_under(items: &[(Words, Value)], name: &Words) -> Option<usize>
    ensures { MatchOption result (item_named name.now (fields_view items.now) ≡ None)
        (λ place. option_map (λ f. f.0) (slice_get items.now place) ≡ Some name.now) }
{
    for (place, (other, _)) in items.iter().enumerate() {
        if other.is(name) {
            return Some(place);
        }
    }
    None
}
