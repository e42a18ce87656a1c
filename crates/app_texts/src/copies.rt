//! What stays of an app when one of its formulas changes: copies of what it has beside its
//! formulas, and of the others.
ghost use Rattle.std.specs.Prelude.{◌≡◌, IfOk, map};
ghost use Rattle.app_texts.specs.Frames as frames;

use app_cells::{App, Cell, Frame, Spot};
use fx_base::{InOrder, Memory};
use fx_core::names::{ControlList, ControlName, ScreenList};
use fx_core::schema::{Column, ColumnList, Schema, TableList, TableShape};
use fx_types::types::Ty;
use std::alloc::Global;

fn copy_column(alloc: Global, column: &Column) -> Result<Column, Memory>
    ensures { IfOk result (λ c. c ≡ column.now) }
{
    Ok(Column {
        name: column.name.copy(alloc)?,
        ty: column.ty.copy(alloc)?,
        required: column.required,
        unique: column.unique,
        indexed: column.indexed,
    })
}

fn copy_columns(alloc: Global, columns: &[Column]) -> Result<ColumnList, Memory>
    ensures { IfOk result (λ cs. cs ≡ columns.now) }
{
    let mut copy = InOrder::new(alloc);
    for column in columns {
        copy.push(copy_column(alloc, column)?)?;
    }
    Ok(copy)
}

fn copy_table(alloc: Global, table: &TableShape) -> Result<TableShape, Memory>
    ensures { IfOk result (λ t. t ≡ table.now) }
{
    Ok(TableShape {
        name: table.name.copy(alloc)?,
        columns: copy_columns(alloc, table.columns.as_slice())?,
    })
}

fn copy_tables(alloc: Global, tables: &[TableShape]) -> Result<TableList, Memory>
    ensures { IfOk result (λ ts. ts ≡ tables.now) }
{
    let mut copy = InOrder::new(alloc);
    for table in tables {
        copy.push(copy_table(alloc, table)?)?;
    }
    Ok(copy)
}

fn copy_screens(alloc: Global, screens: &ScreenList) -> Result<ScreenList, Memory>
    ensures { IfOk result (λ names. names ≡ screens.now) }
{
    let mut copy = InOrder::new(alloc);
    let names = screens.as_slice();
    for name in names {
        copy.push(name.copy(alloc)?)?;
    }
    Ok(copy)
}

// A control, of whose items the type isn't known yet.
fn without_items(alloc: Global, control: &ControlName) -> Result<ControlName, Memory>
    ensures { IfOk result (λ c. c ≡ frames.without_items control.now) }
{
    Ok(ControlName {
        name: control.name.copy(alloc)?,
        kind: control.kind,
        screen: control.screen,
        gallery: control.gallery,
        items: Ty::Blank,
    })
}

fn controls_of(alloc: Global, controls: &[ControlName]) -> Result<ControlList, Memory>
    ensures { IfOk result (λ cs. cs ≡ map frames.without_items controls.now) }
{
    let mut copy = InOrder::new(alloc);
    for control in controls {
        copy.push(without_items(alloc, control)?)?;
    }
    Ok(copy)
}

/// What an app has beside its formulas.
pub fn frame_of(alloc: Global, app: &App) -> Result<Frame, Memory>
    ensures { IfOk result (λ f. f ≡ frames.app_frame app.now) }
{
    let tables = copy_tables(alloc, app.names.schema.tables.as_slice())?;
    Ok(Frame {
        schema: Schema { tables },
        limit: app.limit,
        screens: copy_screens(alloc, &app.names.screens)?,
        controls: controls_of(alloc, app.names.controls.as_slice())?,
    })
}

/// The same place.
pub(crate) fn copy_spot(alloc: Global, spot: &Spot) -> Result<Spot, Memory>
    ensures { IfOk result (λ s. s ≡ spot.now) }
{
    match spot {
        Spot::Formula(name) => Ok(Spot::Formula(name.copy(alloc)?)),
        Spot::OnStart => Ok(Spot::OnStart),
        Spot::OnVisible(screen) => Ok(Spot::OnVisible(*screen)),
        Spot::Property(control, name) => Ok(Spot::Property(*control, name.copy(alloc)?)),
    }
}

fn copy_wanted(alloc: Global, wanted: &Option<Ty>) -> Result<Option<Ty>, Memory>
    ensures { IfOk result (λ t. t ≡ wanted.now) }
{
    match wanted {
        Some(ty) => Ok(Some(ty.copy(alloc)?)),
        None => Ok(None),
    }
}

/// The same formula.
pub(crate) fn copy_cell(alloc: Global, cell: &Cell) -> Result<Cell, Memory>
    ensures { IfOk result (λ c. c ≡ cell.now) }
{
    Ok(Cell {
        name: cell.name.copy(alloc)?,
        spot: copy_spot(alloc, &cell.spot)?,
        screen: cell.screen,
        item: cell.item,
        acts: cell.acts,
        wanted: copy_wanted(alloc, &cell.wanted)?,
        at: cell.at,
        text: cell.text.copy(alloc)?,
        expr: cell.expr.copy(alloc)?,
    })
}
