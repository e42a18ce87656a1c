//! The columns at which an acting call is stuck.
ghost use Rattle.std.specs.Prelude.{◌≡◌, ◌∷◌, IfOk, None, Some, codes, if◌then◌else◌, is_some, map};
ghost use Rattle.fx_types.specs.TypeView.{shape};
ghost use Rattle.fx_types.specs.Types.{column_list};
ghost use Rattle.fx_core.specs.declared.functions.Acting.TheVariants as acts;
ghost use Rattle.fx_core.specs.declared.signatures.SigShape.TheVariants as sig;
ghost use Rattle.fx_typing.specs.Details as told;
ghost use Rattle.fx_typing.specs.Targets as targets;
ghost use Rattle.fx_core.specs.Lawful.{IsLawful};
ghost use Rattle.fx_core.specs.ColumnLists as lists;
ghost use Rattle.fx_typing.specs.TypedView.{typed};
ghost use Rattle.fx_resolve.specs.PartView.{judged_part};

use crate::borrowed::values_or_none;
use crate::texts::{nothing, word};
use fx_base::Memory;
use fx_call_typing::changing::{Changing, settable};
use fx_core::deeds::Target;
use fx_core::functions::Acting;
use fx_core::names::Names;
use fx_resolve::Part;
use fx_resolve::tables::item_columns;
use fx_resolve::targets::find_target;
use fx_types::types::{Columns, Ty};
use fx_types::words::Words;
use fx_typing::Typed;
use fx_typing::columns::field_in;
use std::alloc::Global;

// The first field of a record that is none of some columns.
fn first_more(alloc: Global, columns: &Columns, fields: &Columns) -> Result<Option<Words>, Memory>
    ensures { IfOk result (λ w. w ≡ told.first_more (column_list columns.now)
        (column_list fields.now)) }
{
    for (name, _) in fields.as_slice() {
        if field_in(name, columns).is_none() {
            return Ok(Some(name.copy(alloc)?));
        }
    }
    Ok(None)
}

// `ID`, where no field has this name.
fn missing_id(alloc: Global, fields: &Columns) -> Result<Option<Words>, Memory>
    ensures { IfOk result (λ w. w
        ≡ (if is_some (lists.field_in (codes "ID") (column_list fields.now)) then None else Some
        (codes "ID"))) }
{
    let id = word(alloc, "ID")?;
    if field_in(&id, fields).is_some() {
        return Ok(None);
    }
    Ok(Some(id))
}

// The column by which a row isn't named.
fn unnamed_column(alloc: Global, rows: &Changing, ty: &Ty) -> Result<Option<Words>, Memory>
    ensures { IfOk result (λ w. w
        ≡ told.unnamed_at rows.now.target (column_list rows.now.columns) (shape ty.now)) }
{
    let Ty::Rec(fields) = ty else {
        return Ok(None);
    };
    match rows.target {
        Target::Table(_) => missing_id(alloc, fields),
        Target::Gathered(_) => first_more(alloc, &rows.columns, fields),
    }
}

// The column that a change can't set.
fn unset_column(alloc: Global, rows: &Changing, ty: &Ty) -> Result<Option<Words>, Memory>
    ensures { IfOk result (λ w. w
        ≡ told.unsettable_column rows.now.target (column_list rows.now.columns) (shape ty.now)) }
{
    let Ty::Rec(fields) = ty else {
        return Ok(None);
    };
    let columns = settable(alloc, rows)?;
    first_more(alloc, &columns, fields)
}

// Of several rows the first column by which one isn't named.
fn first_unnamed_column(
    alloc: Global,
    rows: &Changing,
    values: &[&Typed],
) -> Result<Option<Words>, Memory>
    ensures { IfOk result (λ w. w ≡ told.first_detail
        (told.unnamed_at rows.now.target (column_list rows.now.columns))
        (map (λ v. typed v.now) values.now)) }
{
    for value in values {
        if let Some(said) = unnamed_column(alloc, rows, &value.ty)? {
            return Ok(Some(said));
        }
    }
    Ok(None)
}

// Of several changes the first column that one can't set.
fn first_unset_column(
    alloc: Global,
    rows: &Changing,
    values: &[&Typed],
) -> Result<Option<Words>, Memory>
    ensures { IfOk result (λ w. w ≡ told.first_detail
        (told.unsettable_column rows.now.target (column_list rows.now.columns))
        (map (λ v. typed v.now) values.now)) }
{
    for value in values {
        if let Some(said) = unset_column(alloc, rows, &value.ty)? {
            return Ok(Some(said));
        }
    }
    Ok(None)
}

// The column of a row and of changes in it.
fn patched_column(
    alloc: Global,
    rows: &Changing,
    values: &[&Typed],
) -> Result<Option<Words>, Memory>
    ensures { IfOk result (λ w. w ≡ told.acted_at acts.Patch rows.now.target
        (column_list rows.now.columns) (map (λ v. typed v.now) values.now)) }
{
    let Some((base, changes)) = values.split_first() else {
        return Ok(None);
    };
    match unnamed_column(alloc, rows, &base.ty)? {
        Some(said) => Ok(Some(said)),
        None => first_unset_column(alloc, rows, changes),
    }
}

// The column of an acting call on these rows, of its arguments from the left.
fn changed_column(
    alloc: Global,
    acting: Acting,
    rows: &Changing,
    values: &[&Typed],
) -> Result<Option<Words>, Memory>
    ensures { IfOk result (λ w. w ≡ told.acted_at acting rows.now.target
        (column_list rows.now.columns) (map (λ v. typed v.now) values.now)) }
{
    match acting {
        Acting::Patch => patched_column(alloc, rows, values),
        Acting::Remove => first_unnamed_column(alloc, rows, values),
        _ => first_unset_column(alloc, rows, values),
    }
}

// The column of an acting call on the rows of this name.
fn column_by_name(
    alloc: Global,
    names: &Names,
    name: &Words,
    acting: Acting,
    values: &[&Typed],
) -> Result<Option<Words>, Memory>
    requires { IsLawful names.now }
    ensures { IfOk result (λ w. w ≡ told.acting_detail (targets.rows_named names.now name.now)
        acting
        (map (λ v. typed v.now) values.now)) }
{
    let Some(rows) = find_target(alloc, names, name)? else {
        return Ok(None);
    };
    let columns = item_columns(alloc, &rows.ty)?;
    let rows = Changing {
        target: rows.target,
        columns,
    };
    changed_column(alloc, acting, &rows, values)
}

// The column of an acting call on what its first part names.
fn column_behind(
    alloc: Global,
    names: &Names,
    acting: Acting,
    first: &Part,
    others: &[Part],
) -> Result<Words, Memory>
    requires { IsLawful names.now }
    ensures { IfOk result (λ w. w
        ≡ told.column_in names.now (Some (sig.Act acting))
        (judged_part first.now ∷ map judged_part others.now)) }
{
    let Part::Target(_, name) = first else {
        return nothing(alloc);
    };
    let values = values_or_none(alloc, others)?;
    match column_by_name(alloc, names, name, acting, &values)? {
        Some(said) => Ok(said),
        None => nothing(alloc),
    }
}

/// The column at which an acting call is stuck.
pub fn acted_column(
    alloc: Global,
    names: &Names,
    acting: Acting,
    all: &[Part],
) -> Result<Words, Memory>
    requires { IsLawful names.now }
    ensures { IfOk result (λ w. w
        ≡ told.column_in names.now (Some (sig.Act acting)) (map judged_part all.now)) }
{
    match all.split_first() {
        Some((first, others)) => column_behind(alloc, names, acting, first, others),
        None => nothing(alloc),
    }
}
