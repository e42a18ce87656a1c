//! Names that are sought in the scopes around a formula.
ghost use Rattle.std.specs.Prelude.{◌≡◌, ◌<◌, IfOk, length, option_map};
ghost use Rattle.fx_types.specs.TypeView.{shape};
ghost use Rattle.fx_core.specs.Term.{nil, of};
ghost use Rattle.fx_core.specs.Term as top;
ghost use Rattle.fx_typing.specs.Columns.{field_shape};
ghost use Rattle.fx_typing.specs.Meaning as sought;
ghost use Rattle.fx_typing.specs.TypedView.{typed};
ghost use Rattle.fx_resolve.specs.MeaningView.{as_valued};

use crate::scopes::{Scope, Scopes};
use fx_base::Memory;
use fx_core::make_core;
use fx_types::types::Ty;
use fx_types::words::Words;
use fx_typing::Typed;
use fx_typing::columns::field_in;
use std::alloc::Global;

// The type of a field of a record; other types have none.
fn field_type<'a>(name: &Words, ty: &'a Ty) -> Option<&'a Ty>
    ensures { option_map (λ t. shape t.now) result ≡ field_shape name.now (shape ty.now) }
{
    match ty {
        Ty::Rec(columns) => field_in(name, columns),
        _ => None,
    }
}

// The whole row of a scope.
fn row_as(alloc: Global, number: u8, row_type: &Ty) -> Result<Typed, Memory>
    ensures { IfOk result (λ t. typed t ≡ (of (top.row number) nil, shape row_type.now)) }
{
    Ok(Typed {
        core: make_core::row(number),
        ty: row_type.copy(alloc)?,
    })
}

// A field of the row of a scope.
fn field_at(alloc: Global, number: u8, name: &Words, row_type: &Ty) -> Result<Option<Typed>, Memory>
    ensures { IfOk result (λ t. option_map as_valued t
        ≡ sought.field_at number name.now (field_shape name.now (shape row_type.now))) }
{
    match field_type(name, row_type) {
        Some(ty) => Ok(Some(Typed {
            core: make_core::dot(alloc, make_core::row(number), name.copy(alloc)?)?,
            ty: ty.copy(alloc)?,
        })),
        None => Ok(None),
    }
}

// What a name means in a scope: under an alias the alias alone, which is the whole row.
fn in_scope(alloc: Global, number: u8, name: &Words, inner: &Scope) -> Result<Option<Typed>, Memory>
    ensures { IfOk result (λ t. option_map as_valued t
        ≡ sought.in_scope_by inner.now.alias number name.now (shape inner.now.row_type)) }
{
    match &inner.alias {
        Some(alias) if alias.is(name) => Ok(Some(row_as(alloc, number, &inner.row_type)?)),
        Some(_) => Ok(None),
        None => field_at(alloc, number, name, &inner.row_type),
    }
}

/// What a name means in the scopes, from the inside out.
pub fn in_scopes(alloc: Global, name: &Words, scopes: &Scopes) -> Result<Option<Typed>, Memory>
    requires { length scopes.now < 256 }
    ensures { IfOk result (λ t. option_map as_valued t ≡ sought.in_scopes 0 name.now scopes.now) }
{
    let items = scopes.as_slice();
    // By number, from the innermost, since a typed tree names a scope by its number.
    let mut number = items.len();
    while number > 0 {
        number -= 1;
        if let Some(found) = in_scope(alloc, number as u8, name, &items[number])? {
            return Ok(Some(found));
        }
    }
    Ok(None)
}

// The row or record of a scope without an alias.
fn whole_row(alloc: Global, number: u8, inner: &Scope) -> Result<Option<Typed>, Memory>
    ensures { IfOk result (λ t. option_map as_valued t
        ≡ sought.whole_by inner.now.alias number (shape inner.now.row_type)) }
{
    match &inner.alias {
        Some(_) => Ok(None),
        None => Ok(Some(row_as(alloc, number, &inner.row_type)?)),
    }
}

/// `ThisRecord`: the row or record of the innermost scope without an alias.
pub fn this_record(alloc: Global, scopes: &Scopes) -> Result<Option<Typed>, Memory>
    requires { length scopes.now < 256 }
    ensures { IfOk result (λ t. option_map as_valued t ≡ sought.this_record 0 scopes.now) }
{
    let items = scopes.as_slice();
    let mut number = items.len();
    while number > 0 {
        number -= 1;
        if let Some(found) = whole_row(alloc, number as u8, &items[number])? {
            return Ok(Some(found));
        }
    }
    Ok(None)
}
