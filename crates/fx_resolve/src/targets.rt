//! What acting calls change, by its name among the global ones.
ghost use Rattle.std.specs.Prelude.{◌≡◌, ◌<◌, IfOk, IfSome, option_map};
ghost use Rattle.fx_types.specs.TypeView.{shape};
ghost use Rattle.fx_types.specs.Types.{column_list};
ghost use Rattle.fx_typing.specs.Targets as targets;
ghost use Rattle.fx_core.specs.Lawful.{IsLawful};
ghost use Rattle.fx_core.specs.SourceTypes.{item_columns};
ghost use Rattle.fx_resolve.specs.RowsView.{rows_view};

use crate::named::{context_in, global_in, thing_in};
use crate::tables::columns_of;
use fx_base::Memory;
use fx_core::deeds::Target;
use fx_core::names::{Collection, ControlName, Names, Variable};
use fx_core::schema::TableShape;
use fx_types::types::{Columns, Ty};
use fx_types::words::Words;
use std::alloc::Global;

/// Rows that change, with the type of the table that they are in.
#[derive(Drop)]
pub struct RowsNamed {
    pub target: Target,
    /// The type of the table, or of what the collection is given.
    pub ty: Ty,
}

/// The global variable of this name, with its number.
pub fn global_variable<'a>(names: &'a Names, name: &Words) -> Option<(u32, &'a Variable)>
    requires { IsLawful names.now }
    ensures { option_map (λ e. (e.0, e.1.now)) result ≡ targets.global_variable names.now name.now }
{
    global_in(names.variables.as_slice(), name)
}

/// The variable of this name of a screen, with its number.
pub fn screen_variable<'a>(
    names: &'a Names,
    screen: Option<u32>,
    name: &Words,
) -> Option<(u32, &'a Variable)>
    requires { IsLawful names.now }
    ensures { option_map (λ e. (e.0, e.1.now)) result
        ≡ targets.screen_variable names.now screen name.now }
{
    context_in(names.variables.as_slice(), screen, name)
}

/// The collection of this name, with its number.
pub fn find_collection<'a>(names: &'a Names, name: &Words) -> Option<(u32, &'a Collection)>
    requires { IsLawful names.now }
    ensures { option_map (λ e. (e.0, e.1.now)) result
        ≡ targets.collection_named names.now name.now }
{
    thing_in(names.collections.as_slice(), name)
}

/// The table of this name, with its number, which is below 32.
pub fn find_table<'a>(names: &'a Names, name: &Words) -> Option<(u32, &'a TableShape)>
    requires { IsLawful names.now }
    ensures value { option_map (λ e. (e.0, e.1.now)) result
        ≡ targets.table_named names.now name.now }
    ensures below { IfSome result (λ e. e.0 < 32) }
{
    thing_in(names.schema.tables.as_slice(), name)
}

/// The number of the screen of this name.
pub fn find_screen<'a>(names: &'a Names, name: &Words) -> Option<(u32, &'a Words)>
    requires { IsLawful names.now }
    ensures { option_map (λ e. (e.0, e.1.now)) result ≡ targets.screen_named names.now name.now }
{
    thing_in(names.screens.as_slice(), name)
}

/// The control of this name, with its number.
pub fn find_control<'a>(names: &'a Names, name: &Words) -> Option<(u32, &'a ControlName)>
    requires { IsLawful names.now }
    ensures { option_map (λ e. (e.0, e.1.now)) result ≡ targets.control_named names.now name.now }
{
    thing_in(names.controls.as_slice(), name)
}

/// The rows of this name that change: a table's or a collection's.
pub fn find_target(alloc: Global, names: &Names, name: &Words) -> Result<Option<RowsNamed>, Memory>
    requires { IsLawful names.now }
    ensures { IfOk result (λ r. option_map rows_view r ≡ targets.rows_named names.now name.now) }
{
    if let Some((number, table)) = find_table(names, name) {
        return Ok(Some(RowsNamed {
            target: Target::Table(number as u16),
            ty: Ty::Tab(columns_of(alloc, table)?),
        }));
    }
    match find_collection(names, name) {
        Some((number, collection)) => Ok(Some(RowsNamed {
            target: Target::Gathered(number),
            ty: collection.ty.copy(alloc)?,
        })),
        None => Ok(None),
    }
}

/// The columns of the rows of this name that change, and none where there are no such rows.
pub fn target_columns(alloc: Global, names: &Names, name: &Words) -> Result<Columns, Memory>
    requires { IsLawful names.now }
    ensures { IfOk result (λ c. column_list c ≡ targets.target_columns names.now name.now) }
{
    match find_target(alloc, names, name)? {
        Some(rows) => Ok(into_columns(alloc, rows.ty)),
        None => Ok(Columns::new(alloc)),
    }
}

// The columns of a table, and none of another type.
fn into_columns(alloc: Global, ty: Ty) -> Columns
    ensures { column_list result ≡ item_columns (shape ty) }
{
    match ty {
        Ty::Tab(columns) => columns,
        _ => Columns::new(alloc),
    }
}
