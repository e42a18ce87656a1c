//! The types of tables, of the items of galleries, and of properties.
ghost use Rattle.std.specs.Prelude.{◌≡◌, IfOk, option_map};
ghost use Rattle.fx_types.specs.TypeView.{shape};
ghost use Rattle.fx_types.specs.Types.{column_list};
ghost use Rattle.fx_core.specs.SourceTypes as types;

use fx_base::Memory;
use fx_core::controls::property_ty;
use fx_core::names::ControlName;
use fx_core::schema::TableShape;
use fx_types::controls::Control;
use fx_types::types::{Columns, Ty};
use fx_types::words::Words;
use fx_typing::columns::put_column;
use std::alloc::Global;

/// The columns of a table, `ID` among them.
pub fn columns_of(alloc: Global, table: &TableShape) -> Result<Columns, Memory>
    ensures { IfOk result (λ c. column_list c ≡ types.columns_of table.now) }
{
    let mut columns = Columns::new(alloc);
    columns.push((Words::of(alloc, "ID")?, Ty::Number))?;
    for column in table.columns.as_slice() {
        columns = put_column(column.name.copy(alloc)?, column.ty.copy(alloc)?, columns)?;
    }
    Ok(columns)
}

/// The columns of a table type, and none of another.
pub fn item_columns(alloc: Global, ty: &Ty) -> Result<Columns, Memory>
    ensures { IfOk result (λ c. column_list c ≡ types.item_columns (shape ty.now)) }
{
    match ty {
        Ty::Tab(columns) => columns.copy(alloc),
        _ => Ok(Columns::new(alloc)),
    }
}

/// The type of an item of a gallery.
pub fn item_type(alloc: Global, control: &ControlName) -> Result<Ty, Memory>
    ensures { IfOk result (λ t. shape t ≡ types.item_type control.now) }
{
    Ok(Ty::Rec(item_columns(alloc, &control.items)?))
}

/// The type of a control's pure property. `Items` are rows of the columns of their formula's type.
pub fn property_type(
    alloc: Global,
    control: &ControlName,
    name: &Words,
) -> Result<Option<Ty>, Memory>
    ensures { IfOk result (λ t. option_map shape t ≡ types.property_of name.now control.now) }
{
    if control.kind == Control::Gallery && name.as_str() == "Items" {
        return Ok(Some(Ty::Tab(item_columns(alloc, &control.items)?)));
    }
    Ok(property_ty(control.kind, name.as_str()))
}
