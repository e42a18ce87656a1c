//! The table, the screens and the controls that all formulas may name.

use crate::answer::Stop;
use fx_base::InOrder;
use fx_core::Scalar;
use fx_core::formulas::FormulaList;
use fx_core::names::{ControlName, Names};
use fx_core::schema::{Column, Schema, TableShape};
use fx_sig::all;
use fx_types::controls::Control;
use fx_types::types::Ty;
use fx_types::words::Words;
use std::alloc::Global;

/// The number of the gallery.
pub const LIST: u32 = 4;

/// The columns of the table.
const COLUMNS: [(&str, Scalar); 4] = [
    ("Name", Scalar::Text),
    ("Qty", Scalar::Number),
    ("Done", Scalar::Boolean),
    ("Due", Scalar::Date),
];

/// The controls of the first screen, each with its kind and the gallery that it stands in.
const CONTROLS: [(&str, Control, Option<u32>); 7] = [
    ("Note", Control::TextInput, None),
    ("Rate", Control::Slider, None),
    ("Tick", Control::Checkbox, None),
    ("When", Control::DatePicker, None),
    ("List", Control::Gallery, None),
    ("Line", Control::Label, Some(LIST)),
    ("Head", Control::Label, None),
];

/// The functions, the table, the screens and their controls.
pub fn bare_names(alloc: Global) -> Result<Names, Stop> {
    let mut names = Names {
        signatures: all(),
        schema: Schema {
            tables: InOrder::new(alloc),
        },
        screens: InOrder::new(alloc),
        controls: InOrder::new(alloc),
        properties: InOrder::new(alloc),
        functions: InOrder::new(alloc),
        formulas: FormulaList::new(alloc),
        variables: InOrder::new(alloc),
        collections: InOrder::new(alloc),
    };
    add_names(alloc, &mut names)?;
    Ok(names)
}

/// Adds the table, the screens and their controls.
fn add_names(alloc: Global, names: &mut Names) -> Result<(), Stop> {
    names.schema.tables.push(stock(alloc)?)?;
    names.screens.push(Words::of(alloc, "Home")?)?;
    names.screens.push(Words::of(alloc, "Info")?)?;
    for (name, kind, gallery) in CONTROLS {
        let name = Words::of(alloc, name)?;
        names.controls.push(ControlName {
            name,
            kind,
            screen: 0,
            gallery,
            items: Ty::Blank,
        })?;
    }
    Ok(())
}

/// The table, of which each column may be blank.
fn stock(alloc: Global) -> Result<TableShape, Stop> {
    let mut columns = InOrder::new(alloc);
    for (name, ty) in COLUMNS {
        let name = Words::of(alloc, name)?;
        columns.push(Column {
            name,
            ty: ty.ty(),
            required: false,
            unique: false,
            indexed: false,
        })?;
    }
    let name = Words::of(alloc, "Stock")?;
    Ok(TableShape { name, columns })
}
