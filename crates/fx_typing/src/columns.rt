//! Columns, and what functions of tables make of them.
ghost use Rattle.std.specs.Prelude.{◌≡◌, Ok, IfOk, map, filter, not, bytes_eq, option_map};
ghost use Rattle.std.specs.Prelude.{unwrap_or};
ghost use Rattle.fx_types.specs.TypeView.{shape, columns_view};
ghost use Rattle.fx_types.specs.Types.{column_list, texts};
ghost use Rattle.fx_types.specs.Words.{scalars_of};
ghost use Rattle.fx_core.specs.SourceTypes as sources;
ghost use Rattle.fx_typing.specs.Columns as typing;
ghost use Rattle.fx_core.specs.ColumnLists as lists;
ghost use Rattle.fx_typing.specs.Ways.{way, is_open};
ghost use Rattle.fx_typing.specs.Answers.{IsAnswerOf};
ghost use Rattle.fx_typing.specs.ColumnPlaces.{column_rank};
ghost use Rattle.fx_typing.specs.TypedView.{typed};

use crate::typed::Typed;
use crate::ways::{Way, is_scalar, way_to};
use crate::wrong::Wrong;
use fx_base::Memory;
use fx_core::{Core, CoreNode, Rule};
use fx_types::types::{Columns, Ty};
use fx_types::values::Value;
use fx_types::words::Words;
use std::alloc::Global;
use std::cmp::Ordering;

/// The type of the column of this name.
pub fn field_in<'a>(name: &Words, columns: &'a Columns) -> Option<&'a Ty>
    ensures { option_map (λ t. shape t.now) result
        ≡ lists.field_in name.now (column_list columns.now) }
{
    columns.ty(name)
}

// How many columns are below a name.
fn place_of(name: &Words, columns: &[(Words, Ty)]) -> usize
    ensures { result ≡ column_rank name.now (columns_view columns.now) }
{
    for (place, (other, _)) in columns.iter().enumerate() {
        match name.compare(other) {
            Ordering::Greater => {}
            Ordering::Less | Ordering::Equal => return place,
        }
    }
    columns.len()
}

/// The columns without the one of this name.
pub fn without(name: &Words, columns: Columns) -> Columns
    ensures { column_list result ≡ lists.columns_without name.now (column_list columns) }
{
    Columns::from_rising(others(name, columns.into_items()))
}

// The columns of other names.
fn others(name: &Words, columns: Vec<(Words, Ty)>) -> Vec<(Words, Ty)>
    ensures { result.items ≡ filter (λ c. not (bytes_eq c.0 name.now)) columns.items }
{
    let mut columns = columns;
    columns.retain(|(other, _)| !other.is(name));
    columns
}

/// The columns with one more at its place, in place of one of that name.
pub fn put_column(name: Words, ty: Ty, columns: Columns) -> Result<Columns, Memory>
    ensures { IfOk result (λ cs. column_list cs
        ≡ sources.put_column name (shape ty) (column_list columns)) }
{
    let mut items = others(&name, columns.into_items());
    let place = place_of(&name, items.as_slice());
    items.insert(place, (name, ty))?;
    Ok(Columns::from_rising(items))
}

/// A column more, whose name is new.
pub fn with_new(name: Words, ty: Ty, columns: Columns) -> Result<Columns, Wrong>
    ensures { IsAnswerOf column_list (lists.with_new name (shape ty) (column_list columns)) result }
{
    if field_in(&name, &columns).is_some() {
        return Err(Wrong::Refused(Rule::NameTwice));
    }
    Ok(put_column(name, ty, columns)?)
}

/// A column that is there under a name that is new.
pub fn rename_column(
    alloc: Global,
    from: &Words,
    to: Words,
    columns: Columns,
) -> Result<Columns, Wrong>
    ensures { IsAnswerOf column_list (lists.with_renamed from.now to (column_list columns)) result }
{
    let Some(ty) = field_in(from, &columns) else {
        return Err(Wrong::Refused(Rule::UnknownColumn));
    };
    if field_in(&to, &columns).is_some() {
        return Err(Wrong::Refused(Rule::NameTwice));
    }
    let ty = ty.copy(alloc)?;
    Ok(put_column(to, ty, without(from, columns))?)
}

/// The name of a column, which stands in a typed tree as a text.
pub fn label_of(core: &Core) -> Option<&Words>
    ensures { option_map (λ w. w.now) result ≡ typing.label_of core.now }
{
    match &core.node {
        CoreNode::Const(Value::Text(text)) => Some(text),
        _ => None,
    }
}

// The name of a column, or the rule `WrongType`.
fn name_of(alloc: Global, core: &Core) -> Result<Words, Wrong>
    ensures { IsAnswerOf (λ w. w) (typing.by_label (typing.label_of core.now) (λ n. Ok n)) result }
{
    match label_of(core) {
        Some(name) => Ok(name.copy(alloc)?),
        None => Err(Wrong::Refused(Rule::WrongType)),
    }
}

/// New columns in turn, each of the name that stands before its formula.
pub fn add_columns(alloc: Global, parts: &[Typed], columns: Columns) -> Result<Columns, Wrong>
    ensures { IsAnswerOf column_list (typing.added (map typed parts.now) (column_list columns))
        result }
{
    let mut columns = columns;
    let mut more = parts;
    while let [label, formula, rest @ ..] = more {
        let name = name_of(alloc, &label.core)?;
        columns = with_new(name, formula.ty.copy(alloc)?, columns)?;
        more = rest;
    }
    Ok(columns)
}

/// Columns under new names in turn, each of which stands behind the old one.
pub fn rename_columns(alloc: Global, parts: &[Typed], columns: Columns) -> Result<Columns, Wrong>
    ensures { IsAnswerOf column_list (typing.columns_renamed (map typed parts.now)
        (column_list columns)) result }
{
    let mut columns = columns;
    let mut more = parts;
    while let [from, to, rest @ ..] = more {
        let from = name_of(alloc, &from.core)?;
        let to = name_of(alloc, &to.core)?;
        columns = rename_column(alloc, &from, to, columns)?;
        more = rest;
    }
    Ok(columns)
}

/// Whether a name is one of these.
pub fn is_one_of(name: &Words, names: &[Words]) -> bool
    ensures { result ≡ lists.is_one_of name.now names.now }
{
    names.contains(name)
}

// The names of columns that are all there.
fn names_there(alloc: Global, parts: &[Typed], columns: &Columns) -> Result<Vec<Words>, Wrong>
    ensures { IsAnswerOf (λ ns. ns.items) (typing.names_there (map typed parts.now)
        (column_list columns.now)) result }
{
    let mut names = Vec::new(alloc);
    for part in parts {
        let name = name_of(alloc, &part.core)?;
        if field_in(&name, columns).is_none() {
            return Err(Wrong::Refused(Rule::UnknownColumn));
        }
        names.push(name)?;
    }
    Ok(names)
}

// The columns without those of these names.
fn without_all(names: &[Words], columns: Columns) -> Columns
    ensures { column_list result ≡ lists.without_all names.now (column_list columns) }
{
    let mut left = columns;
    for name in names {
        left = without(name, left);
    }
    left
}

/// The columns without those of these names, which are all there. A name that stands twice counts
/// once.
pub fn drop_columns(alloc: Global, parts: &[Typed], columns: Columns) -> Result<Columns, Wrong>
    ensures { IsAnswerOf column_list (typing.dropped (map typed parts.now) (column_list columns))
        result }
{
    let names = names_there(alloc, parts, &columns)?;
    Ok(without_all(names.as_slice(), columns))
}

// The columns of these names alone.
fn only(names: &[Words], columns: Columns) -> Columns
    ensures { column_list result ≡ lists.columns_only names.now (column_list columns) }
{
    Columns::from_rising(select_columns(names, columns.into_items()))
}

// The columns of these names.
fn select_columns(names: &[Words], columns: Vec<(Words, Ty)>) -> Vec<(Words, Ty)>
    ensures { result.items ≡ filter (λ c. lists.is_one_of c.0 names.now) columns.items }
{
    let mut columns = columns;
    columns.retain(|(name, _)| is_one_of(name, names));
    columns
}

/// The columns of these names alone, which are all there.
pub fn show_columns(alloc: Global, parts: &[Typed], columns: Columns) -> Result<Columns, Wrong>
    ensures { IsAnswerOf column_list (typing.columns_shown (map typed parts.now)
        (column_list columns)) result }
{
    let names = names_there(alloc, parts, &columns)?;
    Ok(only(names.as_slice(), columns))
}

// Whether each of these names of columns, if it is there, is that of values without parts.
fn are_keys(parts: &[Typed], columns: &Columns) -> bool
    ensures { result ≡ typing.are_keys (map typed parts.now) (column_list columns.now) }
{
    for part in parts {
        if !is_key(&part.core, columns) {
            return false;
        }
    }
    true
}

// Whether a name of a column, if it is there, is that of values without parts.
fn is_key(core: &Core, columns: &Columns) -> bool
    ensures { result ≡ typing.is_key (typing.label_of core.now) (column_list columns.now) }
{
    let Some(name) = label_of(core) else {
        return true;
    };
    match field_in(name, columns) {
        Some(ty) => is_scalar(ty),
        None => true,
    }
}

/// The columns of groups: those of these names, which are all there, and at the last name, which is
/// new, a table of the columns that aren't named.
pub fn group_columns(alloc: Global, parts: &[Typed], columns: Columns) -> Result<Columns, Wrong>
    ensures { IsAnswerOf column_list (typing.grouped (map typed parts.now) (column_list columns))
        result }
{
    let [keys @ .., last] = parts else {
        return Err(Wrong::Refused(Rule::WrongType));
    };
    let group = name_of(alloc, &last.core)?;
    if field_in(&group, &columns).is_some() {
        return Err(Wrong::Refused(Rule::NameTwice));
    }
    group_under(alloc, group, keys, columns)
}

// The columns of groups under a name that is new.
fn group_under(
    alloc: Global,
    group: Words,
    keys: &[Typed],
    columns: Columns,
) -> Result<Columns, Wrong>
    ensures { IsAnswerOf column_list (typing.grouped_by group (map typed keys.now)
        (column_list columns)) result }
{
    if !are_keys(keys, &columns) {
        return Err(Wrong::Refused(Rule::WrongType));
    }
    let names = names_there(alloc, keys, &columns)?;
    let others = without_all(names.as_slice(), columns.copy(alloc)?);
    let shown = only(names.as_slice(), columns);
    Ok(put_column(group, Ty::Tab(others), shown)?)
}

// The first column of some that others have too.
fn first_shared<'a>(inner: &'a Columns, columns: &Columns) -> Option<&'a Words>
    ensures { option_map (λ w. w.now) result ≡ typing.first_shared (column_list inner.now)
        (column_list columns.now) }
{
    for (name, _) in inner.as_slice() {
        if field_in(name, columns).is_some() {
            return Some(name);
        }
    }
    None
}

// Columns beside others.
fn join_columns(alloc: Global, inner: &Columns, columns: Columns) -> Result<Columns, Memory>
    ensures { IfOk result (λ cs. column_list cs
        ≡ lists.joined_columns (column_list inner.now) (column_list columns)) }
{
    let mut joined = columns;
    for (name, ty) in inner.as_slice() {
        joined = put_column(name.copy(alloc)?, ty.copy(alloc)?, joined)?;
    }
    Ok(joined)
}

/// The first column of the tables in a column that another column has the name of.
pub fn shared_column<'a>(
    alloc: Global,
    group: &Words,
    columns: &'a Columns,
) -> Result<Option<&'a Words>, Memory>
    ensures { IfOk result (λ o. option_map (λ w. w.now) o
        ≡ typing.shared_by group.now (lists.field_in group.now (column_list columns.now))
        (column_list columns.now)) }
{
    match field_in(group, columns) {
        Some(Ty::Tab(inner)) => {
            let others = without(group, columns.copy(alloc)?);
            Ok(first_shared(inner, &others))
        }
        _ => Ok(None),
    }
}

/// The columns without one of groups, beside those of its tables.
pub fn ungroup_columns(alloc: Global, parts: &[Typed], columns: Columns) -> Result<Columns, Wrong>
    ensures { IsAnswerOf column_list (typing.ungrouped (map typed parts.now) (column_list columns))
        result }
{
    let [part] = parts else {
        return Err(Wrong::Refused(Rule::WrongCount));
    };
    let group = name_of(alloc, &part.core)?;
    match field_in(&group, &columns) {
        None => Err(Wrong::Refused(Rule::UnknownColumn)),
        Some(ty) => {
            let ty = ty.copy(alloc)?;
            let others = without(&group, columns);
            out_of(alloc, &ty, others)
        }
    }
}

// The columns of the tables of a column of groups beside the others.
fn out_of(alloc: Global, ty: &Ty, others: Columns) -> Result<Columns, Wrong>
    ensures { IsAnswerOf column_list (typing.out_of (shape ty.now) (column_list others)) result }
{
    let Ty::Tab(inner) = ty else {
        return Err(Wrong::Refused(Rule::WrongType));
    };
    if first_shared(inner, &others).is_some() {
        return Err(Wrong::Refused(Rule::NameTwice));
    }
    Ok(join_columns(alloc, inner, others)?)
}

/// The one column, `Value`, of a table of values.
pub fn value_column(alloc: Global, ty: Ty) -> Result<Columns, Memory>
    ensures { IfOk result (λ cs. column_list cs ≡ lists.value_column (shape ty)) }
{
    let mut columns = Columns::new(alloc);
    columns.push((Words::of(alloc, "Value")?, ty))?;
    Ok(columns)
}

/// The columns of rows that are values of a type: a record's own, and else the column `Value`.
pub fn row_columns(alloc: Global, ty: Ty) -> Result<Columns, Memory>
    ensures { IfOk result (λ cs. column_list cs ≡ lists.row_columns (shape ty)) }
{
    match ty {
        Ty::Rec(columns) => Ok(columns),
        other => value_column(alloc, other),
    }
}

/// The type of an error as a record.
pub fn fault_type(alloc: Global) -> Result<Ty, Memory>
    ensures { IfOk result (λ t. shape t ≡ typing.fault_type) }
{
    let mut columns = Columns::new(alloc);
    columns.push((Words::of(alloc, "Kind")?, Ty::Text))?;
    columns.push((Words::of(alloc, "Message")?, Ty::Text))?;
    Ok(Ty::Rec(columns))
}

// Whether a field has a coercion to Text, or what is said where it is missing.
fn is_told(alloc: Global, name: &str, if_missing: bool, columns: &Columns) -> Result<bool, Memory>
    ensures { IfOk result (λ b. b ≡ unwrap_or
        (option_map (λ t. is_open (way t texts))
        (lists.field_in (scalars_of name.now) (column_list columns.now)))
        if_missing) }
{
    let name = Words::of(alloc, name)?;
    match field_in(&name, columns) {
        Some(ty) => is_text_like(alloc, ty),
        None => Ok(if_missing),
    }
}

// Whether a type has a coercion to Text.
fn is_text_like(alloc: Global, ty: &Ty) -> Result<bool, Memory>
    ensures { IfOk result (λ b. b ≡ is_open (way (shape ty.now) texts)) }
{
    match way_to(alloc, ty, &Ty::Text)? {
        Way::Same | Way::Changed => Ok(true),
        Way::Refused => Ok(false),
    }
}

/// Whether a record tells an error: by its fields `Kind` and `Message`, of which `Message` may be
/// missing.
pub fn tells_error(alloc: Global, columns: &Columns) -> Result<bool, Memory>
    ensures { IfOk result (λ b. b ≡ typing.tells_error (column_list columns.now)) }
{
    Ok(is_told(alloc, "Kind", false, columns)? && is_told(alloc, "Message", true, columns)?)
}
