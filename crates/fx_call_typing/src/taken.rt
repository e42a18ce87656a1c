//! New names of columns that are taken.
ghost use Rattle.std.specs.Prelude.{◌≡◌, IfOk, None, bytes_eq, if◌then◌else◌, map, option_map};
ghost use Rattle.std.specs.Prelude.{unwrap_or};
ghost use Rattle.fx_types.specs.Types.{column_list, no_columns};
ghost use Rattle.fx_typing.specs.Breaks as breaks;
ghost use Rattle.fx_core.specs.ColumnLists as lists;
ghost use Rattle.fx_resolve.specs.PartView.{judged_part};

use fx_base::Memory;
use fx_core::functions::Fun;
use fx_core::rows::{Answer, row_of};
use fx_resolve::Part;
use fx_types::types::{Columns, Ty};
use fx_types::words::Words;
use fx_typing::Piece;
use fx_typing::columns::{field_in, shared_column};
use std::alloc::Global;

// The name of a column.
fn name_of<'p>(one: &'p Part) -> Option<&'p Words>
    ensures { option_map (λ w. w.now) result ≡ breaks.part_name (judged_part one.now) }
{
    match one {
        Part::Piece(Piece::Label(name)) => Some(name),
        _ => None,
    }
}

// The names of columns.
fn column_names<'p>(alloc: Global, columns: &'p Columns) -> Result<Vec<&'p Words>, Memory>
    ensures { IfOk result (λ ns. map (λ w. w.now) ns.items
        ≡ breaks.names_of_columns (column_list columns.now)) }
{
    let mut names = Vec::new(alloc);
    for (name, _) in columns.as_slice() {
        names.push(name)?;
    }
    Ok(names)
}

// The names of the columns of a part, of which one that is no table has none.
fn names_in<'p>(alloc: Global, one: &'p Part) -> Result<Vec<&'p Words>, Memory>
    ensures { IfOk result (λ ns. map (λ w. w.now) ns.items ≡ breaks.names_in (judged_part one.now)) }
{
    match one {
        Part::Piece(Piece::Value(_, value)) => match &value.ty {
            Ty::Tab(columns) => column_names(alloc, columns),
            _ => Ok(Vec::new(alloc)),
        },
        _ => Ok(Vec::new(alloc)),
    }
}

// Whether a name is one of these.
fn is_one_of(name: &Words, names: &[&Words]) -> bool
    ensures { result ≡ lists.is_one_of name.now (map (λ w. w.now) names.now) }
{
    for other in names {
        if other.is(name) {
            return true;
        }
    }
    false
}

// The names with one in the place of another, if that is there.
fn rename<'p>(
    alloc: Global,
    from: &Words,
    to: &'p Words,
    names: Vec<&'p Words>,
) -> Result<Vec<&'p Words>, Memory>
    ensures { IfOk result (λ ns. map (λ w. w.now) ns.items
        ≡ map (λ n. if bytes_eq n from.now then to.now else n) (map (λ w. w.now) names.entry.items)) }
{
    let mut found = Vec::new(alloc);
    for name in names {
        let name = if name.is(from) { to } else { name };
        found.push(name)?;
    }
    Ok(found)
}

// The names behind a pair of an old name and a new one.
fn rename_next<'p>(
    alloc: Global,
    from: Option<&Words>,
    to: Option<&'p Words>,
    names: Vec<&'p Words>,
) -> Result<Vec<&'p Words>, Memory>
    ensures { IfOk result (λ ns. map (λ w. w.now) ns.items
        ≡ breaks.names_renamed (option_map (λ w. w.now) from.entry)
        (option_map (λ w. w.now) to.entry) (map (λ w. w.now) names.entry.items)) }
{
    match (from, to) {
        (Some(from), Some(to)) => rename(alloc, from, to, names),
        _ => Ok(names),
    }
}

// The names with one more, if there is one.
fn with_name<'p>(name: Option<&'p Words>, names: Vec<&'p Words>) -> Result<Vec<&'p Words>, Memory>
    ensures { IfOk result (λ ns. map (λ w. w.now) ns.items
        ≡ breaks.with_name (option_map (λ w. w.now) name.entry)
        (map (λ w. w.now) names.entry.items)) }
{
    let mut names = names;
    if let Some(name) = name {
        names.push(name)?;
    }
    Ok(names)
}

// A name that is one of these.
fn find_name<'p>(name: Option<&'p Words>, names: &[&Words]) -> Option<&'p Words>
    ensures { option_map (λ w. w.now) result
        ≡ breaks.name_taken_or (option_map (λ w. w.now) name.entry) (map (λ w. w.now) names.now)
        None }
{
    match name {
        Some(name) if is_one_of(name, names) => Some(name),
        _ => None,
    }
}

// The first name of a new column, in turn, that is taken.
fn taken_added_name<'p>(all: &'p [Part], names: Vec<&'p Words>) -> Result<Option<&'p Words>, Memory>
    ensures { IfOk result (λ o. option_map (λ w. w.now) o
        ≡ breaks.taken_added (map judged_part all.now) (map (λ w. w.now) names.entry.items)) }
{
    let mut names = names;
    let mut more = all;
    while let [new, _, rest @ ..] = more {
        let new = name_of(new);
        if let Some(taken) = find_name(new, names.as_slice()) {
            return Ok(Some(taken));
        }
        names = with_name(new, names)?;
        more = rest;
    }
    Ok(None)
}

// The first new name of a column, in turn, that is taken.
fn taken_renamed_name<'p>(
    alloc: Global,
    all: &'p [Part],
    names: Vec<&'p Words>,
) -> Result<Option<&'p Words>, Memory>
    ensures { IfOk result (λ o. option_map (λ w. w.now) o
        ≡ breaks.taken_renamed (map judged_part all.now) (map (λ w. w.now) names.entry.items)) }
{
    let mut names = names;
    let mut more = all;
    while let [old, new, rest @ ..] = more {
        let new = name_of(new);
        if let Some(taken) = find_name(new, names.as_slice()) {
            return Ok(Some(taken));
        }
        names = rename_next(alloc, name_of(old), new, names)?;
        more = rest;
    }
    Ok(None)
}

// The columns of a part, if it is a table.
fn columns_in<'p>(one: &'p Part) -> Option<&'p Columns>
    ensures { unwrap_or (option_map (λ cs. column_list cs.now) result) no_columns
        ≡ breaks.columns_in (judged_part one.now) }
{
    match one {
        Part::Piece(Piece::Value(_, value)) => match &value.ty {
            Ty::Tab(columns) => Some(columns),
            _ => None,
        },
        _ => None,
    }
}

// The name of a part, where a column has it.
fn name_there<'p>(one: &'p Part, columns: &Columns) -> Option<&'p Words>
    ensures { option_map (λ w. w.now) result ≡ breaks.taken_name
        (breaks.part_name (judged_part one.now)) (column_list columns.now) }
{
    let name = name_of(one)?;
    match field_in(name, columns) {
        Some(_) => Some(name),
        None => None,
    }
}

// The name of the column of groups, which stands behind the keys, where a column has it.
fn taken_last<'p>(all: &'p [Part], columns: &Columns) -> Option<&'p Words>
    ensures { option_map (λ w. w.now) result ≡ breaks.taken_grouped (map judged_part all.now)
        (column_list columns.now) }
{
    match all {
        [] => None,
        [.., group] => name_there(group, columns),
    }
}

// The name of the column of groups, where a column of the table has it.
fn taken_group_name<'p>(table: &Part, others: &'p [Part]) -> Option<&'p Words>
    ensures { option_map (λ w. w.now) result ≡ breaks.taken_grouped (map judged_part others.now)
        (breaks.columns_in (judged_part table.now)) }
{
    match columns_in(table) {
        Some(columns) => taken_last(others, columns),
        None => None,
    }
}

// The first column of groups under a name that another column of their rows has the name of.
fn shared_under<'p>(
    alloc: Global,
    one: &Part,
    columns: &'p Columns,
) -> Result<Option<&'p Words>, Memory>
    ensures { IfOk result (λ o. option_map (λ w. w.now) o
        ≡ breaks.shared_as (breaks.part_name (judged_part one.now)) (column_list columns.now)) }
{
    match name_of(one) {
        Some(group) => shared_column(alloc, group, columns),
        None => Ok(None),
    }
}

// The first column of the groups of a table that another column of their rows has the name of.
fn taken_shared_name<'p>(
    alloc: Global,
    table: &'p Part,
    others: &[Part],
) -> Result<Option<&'p Words>, Memory>
    ensures { IfOk result (λ o. option_map (λ w. w.now) o
        ≡ breaks.taken_ungrouped (map judged_part others.now)
        (breaks.columns_in (judged_part table.now))) }
{
    let [group] = others else {
        return Ok(None);
    };
    match columns_in(table) {
        Some(columns) => shared_under(alloc, group, columns),
        None => Ok(None),
    }
}

// The first new name of a column that is taken, in a call with this answer.
fn taken_name_by_answer<'p>(
    alloc: Global,
    answer: Answer,
    all: &'p [Part],
) -> Result<Option<&'p Words>, Memory>
    ensures { IfOk result (λ o. option_map (λ w. w.now) o
        ≡ breaks.taken_by answer (map judged_part all.now)) }
{
    let Some((first, others)) = all.split_first() else {
        return Ok(None);
    };
    match answer {
        Answer::Added => taken_added_name(others, names_in(alloc, first)?),
        Answer::Renamed => taken_renamed_name(alloc, others, names_in(alloc, first)?),
        Answer::Grouped => Ok(taken_group_name(first, others)),
        Answer::Ungrouped => taken_shared_name(alloc, first, others),
        _ => Ok(None),
    }
}

/// The first new name of a column that is taken, in a call of a function that has as many parts as
/// it takes.
pub fn taken_name<'p>(alloc: Global, fun: Fun, all: &'p [Part]) -> Result<Option<&'p Words>, Memory>
    ensures { IfOk result (λ o. option_map (λ w. w.now) o
        ≡ breaks.taken_at fun (map judged_part all.now)) }
{
    let row = row_of(fun);
    if row.takes_count(all.len()) {
        taken_name_by_answer(alloc, row.answer, all)
    } else {
        Ok(None)
    }
}
