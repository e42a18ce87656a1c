//! Limits that are passed.
ghost use Rattle.std.specs.Prelude.{◌≡◌, IfOk, Some, codes, map, suc};
ghost use Rattle.fx_types.specs.TypeView.{shape};
ghost use Rattle.fx_types.specs.Types.{blanks, column_list};
ghost use Rattle.fx_typing.specs.Builds as builds;
ghost use Rattle.fx_typing.specs.Details as told;
ghost use Rattle.fx_typing.specs.Plans.{depth_of};
ghost use Rattle.fx_core.specs.Tree as tree;
ghost use Rattle.fx_typing.specs.Local.{join_all};
ghost use Rattle.fx_typing.specs.TypedView.{typed};

use crate::texts::{nothing, word_with_count};
use fx_base::Memory;
use fx_core::expr::{Expr, FieldName};
use fx_node_typing::join_all;
use fx_resolve::Scopes;
use fx_types::types::{Columns, Ty};
use fx_types::words::Words;
use fx_typing::Typed;
use fx_typing::columns::{put_column, row_columns};
use std::alloc::Global;

// The number behind this one, if there is one. Past the greatest it counts as want of memory, since
// no clause says how deep a type in memory can be.
fn one_more(number: usize) -> Result<usize, Memory>
    ensures { IfOk result (λ n. n ≡ suc number) }
{
    number.checked_add(1).ok_or(Memory)
}

// How deep records and tables nest in a type. No type is deeper than numbers go.
#[cycle(type_depth)]
fn type_depth(ty: &Ty) -> Result<usize, Memory>
    ensures { IfOk result (λ n. n ≡ builds.type_depth (shape ty.now)) }
{
    match ty {
        Ty::Rec(columns) | Ty::Tab(columns) => one_more(columns_depth(columns)?),
        _ => Ok(0),
    }
}

#[cycle(type_depth)]
fn columns_depth(columns: &Columns) -> Result<usize, Memory>
    ensures { IfOk result (λ n. n ≡ builds.columns_depth (column_list columns.now)) }
{
    let mut depth = 0;
    for (_, ty) in columns.as_slice() {
        depth = type_depth(ty)?.max(depth);
    }
    Ok(depth)
}

#[tactic(auto, using(fx_node_typing::proofs::Counts::count_length))]
// The most fields that a record or a table in a type has.
#[cycle(most_fields)]
fn most_fields(ty: &Ty) -> usize
    ensures { result ≡ told.most_fields (shape ty.now) }
{
    match ty {
        Ty::Rec(columns) | Ty::Tab(columns) => columns.len().max(most_in(columns)),
        _ => 0,
    }
}

#[cycle(most_fields)]
fn most_in(columns: &Columns) -> usize
    ensures { result ≡ told.most_in (column_list columns.now) }
{
    let mut most = 0;
    for (_, ty) in columns.as_slice() {
        most = most_fields(ty).max(most);
    }
    most
}

/// How deep a type is, and the most fields in it where it isn't too deep.
pub fn type_limit(alloc: Global, ty: &Ty) -> Result<Words, Memory>
    ensures { IfOk result (λ w. w ≡ told.type_limit (shape ty.now)) }
{
    let depth = type_depth(ty)?;
    if depth <= 8 {
        word_with_count(alloc, "fields", most_fields(ty))
    } else {
        word_with_count(alloc, "type", depth)
    }
}

// The type of a record of these fields.
fn record_type(alloc: Global, fields: &[(FieldName, Expr)], values: &[&Typed]) -> Result<Ty, Memory>
    ensures { IfOk result (λ t. shape t ≡ (builds.record_by (builds.put_fields
        (tree.tree_field_names fields.now) (map (λ v. typed v.now) values.now))).1) }
{
    let mut columns = Columns::new(alloc);
    let mut place = fields.len().min(values.len());
    while place > 0 {
        place -= 1;
        let name = fields[place].0.text.copy(alloc)?;
        columns = put_column(name, values[place].ty.copy(alloc)?, columns)?;
    }
    Ok(Ty::Rec(columns))
}

/// The limit that a record of these fields passes.
pub fn record_limit(
    alloc: Global,
    fields: &[(FieldName, Expr)],
    values: &[&Typed],
) -> Result<Words, Memory>
    ensures { IfOk result (λ w. w ≡ told.type_limit (builds.record_by (builds.put_fields
        (tree.tree_field_names fields.now) (map (λ v. typed v.now) values.now))).1) }
{
    let ty = record_type(alloc, fields, values)?;
    type_limit(alloc, &ty)
}

/// The limit that a list of these values passes.
pub fn list_limit(alloc: Global, values: &[&Typed]) -> Result<Words, Memory>
    ensures { IfOk result (λ w. w
        ≡ told.list_limit (join_all (Some blanks) (map (λ v. typed v.now) values.now))) }
{
    match join_all(alloc, Some(Ty::Blank), values)? {
        Some(ty) => type_limit(alloc, &Ty::Tab(row_columns(alloc, ty)?)),
        None => nothing(alloc),
    }
}

/// How many scopes of calls over tables would stand in one another.
pub fn nesting(alloc: Global, scopes: &Scopes) -> Result<Words, Memory>
    ensures { IfOk result (λ w. w ≡ told.word_with_number (codes "nested")
        (suc (depth_of scopes.now))) }
{
    word_with_count(alloc, "nested", one_more(scopes.depth())?)
}
