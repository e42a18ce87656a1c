//! Small apps, each of one line.
ghost use Rattle.std.specs.Prelude.{◌≤◌, All};
ghost use Rattle.fx_infer.specs.Below.{tree_depth};
ghost use Rattle.fx_infer.specs.declared.elaboration.Written.{Written};

use crate::answer::Stop;
use crate::names::{LIST, bare_names};
use crate::place::{Spot, Wanted, write_formula};
use fx_core::names::{Collection, FormulaName, Names, Property, Variable};
use fx_infer::Written;
use fx_types::types::Ty;
use fx_types::words::Words;
use std::alloc::Global;

/// An app: what its formulas may name, and the formulas, each at its number.
#[derive(Drop)]
pub struct App {
    pub names: Names,
    pub cells: Vec<Written>,
    ghost shallow: { All (λ (c : Written). tree_depth c.expr ≤ 256) cells.items },
}

/// The table, screens and controls of all formulas, and no formula.
pub fn bare_app(alloc: Global) -> Result<App, Stop> {
    Ok(App {
        names: bare_names(alloc)?,
        cells: Vec::new(alloc),
    })
}

/// The app of these parts, which ` | ` stands between.
pub fn app_of(alloc: Global, parts: &str) -> Result<App, Stop> {
    let mut app = bare_app(alloc)?;
    add_parts(alloc, &mut app, parts)?;
    Ok(app)
}

/// Adds what parts say.
fn add_parts(alloc: Global, app: &mut App, parts: &str) -> Result<(), Stop> {
    for part in parts.split(" | ") {
        add_part(alloc, app, part)?;
    }
    Ok(())
}

/// Adds what a part says. Its first word is `global` before global variables, a screen before
/// variables of it, `collection` before collections, `named` before a named formula, or the address
/// of the formula behind it. Each name has the type Blank at first, which the rounds take no notice
/// of.
pub fn add_part(alloc: Global, app: &mut App, part: &str) -> Result<(), Stop> {
    let (head, text) = part.split_once(" ").unwrap_or((part, ""));
    match head {
        "global" => add_variables(alloc, &mut app.names, None, text),
        "Home" => add_variables(alloc, &mut app.names, Some(0), text),
        "Info" => add_variables(alloc, &mut app.names, Some(1), text),
        "collection" => add_collections(alloc, &mut app.names, text),
        "named" => add_named(alloc, app, text),
        _ => add_formula(alloc, app, head, text),
    }
}

/// Adds the variables of these names, of a screen or global ones.
fn add_variables(
    alloc: Global,
    names: &mut Names,
    screen: Option<u32>,
    text: &str,
) -> Result<(), Stop> {
    for name in text.split_whitespace() {
        let name = Words::of(alloc, name)?;
        let ty = Ty::Blank;
        names.variables.push(Variable { name, screen, ty })?;
    }
    Ok(())
}

/// Adds the collections of these names.
fn add_collections(alloc: Global, names: &mut Names, text: &str) -> Result<(), Stop> {
    for name in text.split_whitespace() {
        let name = Words::of(alloc, name)?;
        let ty = Ty::Blank;
        names.collections.push(Collection { name, ty })?;
    }
    Ok(())
}

/// Adds a named formula: its name, ` = ` and the formula.
fn add_named(alloc: Global, app: &mut App, text: &str) -> Result<(), Stop> {
    let Some((address, text)) = text.split_once(" = ") else {
        return Err(Stop::NoRow);
    };
    let cell = next_cell(app)?;
    let name = Words::of(alloc, address)?;
    let ty = Ty::Blank;
    app.names
        .formulas
        .push(alloc, FormulaName { name, cell, ty })?;
    add_cell(alloc, app, address, Spot::named(), text)
}

/// Adds the formula of an address, and the property that it is of.
fn add_formula(alloc: Global, app: &mut App, address: &str, text: &str) -> Result<(), Stop> {
    let Some(spot) = spot_of(address) else {
        return Err(Stop::NoRow);
    };
    if let Some((control, name)) = property_of(address) {
        let cell = next_cell(app)?;
        let name = Words::of(alloc, name)?;
        app.names.properties.push(Property {
            control,
            name,
            cell,
        })?;
    }
    add_cell(alloc, app, address, spot, text)
}

/// Where the formula of an address stands.
fn spot_of(address: &str) -> Option<Spot> {
    let spot = match address {
        "App.OnStart" => Spot::behaviour(None, None),
        "Home.OnVisible" => Spot::behaviour(Some(0), None),
        "Info.OnVisible" => Spot::behaviour(Some(1), None),
        "List.OnSelect" => Spot::behaviour(Some(0), Some(LIST)),
        "List.Items" => Spot::value(None, Wanted::Table),
        "Line.Text" => Spot::value(Some(LIST), Wanted::Text),
        "Head.Text" => Spot::value(None, Wanted::Text),
        "Rate.Max" => Spot::value(None, Wanted::Number),
        _ => return None,
    };
    Some(spot)
}

/// The control and the name of the property that has a value at an address.
fn property_of(address: &str) -> Option<(u32, &str)> {
    match address {
        "Rate.Max" => Some((1, "Max")),
        "List.Items" => Some((LIST, "Items")),
        "Line.Text" => Some((5, "Text")),
        "Head.Text" => Some((6, "Text")),
        _ => None,
    }
}

/// The number of the formula that is added next.
fn next_cell(app: &App) -> Result<u32, Stop> {
    u32::try_from(app.cells.len()).map_err(|_| Stop::NoRow)
}

/// Adds a formula.
fn add_cell(
    alloc: Global,
    app: &mut App,
    address: &str,
    spot: Spot,
    text: &str,
) -> Result<(), Stop> {
    let cell = write_formula(alloc, address, spot, text)?;
    app.cells.push(cell)?;
    Ok(())
}
