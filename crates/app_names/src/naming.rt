//! The names that the formulas of an app may use.
ghost use Rattle.std.specs.Prelude.{◌≡◌, ◌<◌, ◌≤◌, ◌++◌, [], All, IfOk, OnOk, length, map};
ghost use Rattle.app_cells.specs.Spots.{IsFrame, IsPlaced};
ghost use Rattle.fx_core.specs.Lawful.{IsLawful};
ghost use Rattle.fx_core.specs.declared.names.FormulaName.{FormulaName as Formula};
ghost use Rattle.fx_core.specs.declared.names.Property.{Property as PropertyCell};
ghost use Rattle.fx_sig.specs.Entries.{entries, entry};
ghost use Rattle.app_names.specs.AppNames as names;
ghost use Rattle.app_names.specs.AppNames.{AreNamesOf};
ghost use Rattle.app_names.specs.NameRules as rules;

use crate::declarations::{Declared, Thing};
use crate::declared_things::things_of;
use crate::given_names::given_names;
use crate::name_sets::set_of;
use app_cells::{Cell, Frame, Spot};
use fx_base::{InOrder, Memory};
use fx_core::formulas::FormulaList;
use fx_core::names::{
    Collection, CollectionList, FormulaName, Names, Property, PropertyList, Variable, VariableList,
};
use fx_core::signatures::Signature;
use fx_types::types::Ty;
use std::alloc::Global;

// Adds a cell of this number, if it is a named formula.
fn put_formula(
    alloc: Global,
    number: u32,
    spot: &Spot,
    formulas: &mut FormulaList,
) -> Result<(), Memory>
    ensures { OnOk result (formulas.new ≡ formulas.old ++ names.as_formula number spot.now) }
{
    if let Spot::Formula(name) = spot {
        let formula = FormulaName {
            name: name.copy(alloc)?,
            cell: number,
            ty: Ty::Blank,
        };
        formulas.push(alloc, formula)?;
    }
    Ok(())
}

// The named formulas, with the numbers of their cells.
fn formulas_of(alloc: Global, cells: &[Cell]) -> Result<FormulaList, Memory>
    requires { length cells.now ≤ 2000 }
    ensures { IfOk result (λ l. l ≡ names.formulas_from 0 cells.now) }
{
    let mut formulas = FormulaList::new(alloc);
    let mut number = 0;
    for cell in cells {
        put_formula(alloc, number, &cell.spot, &mut formulas)?;
        number += 1;
    }
    Ok(formulas)
}

// Adds a cell of this number, if it is a property.
fn put_property(
    alloc: Global,
    number: u32,
    spot: &Spot,
    properties: &mut PropertyList,
) -> Result<(), Memory>
    ensures { OnOk result (properties.new ≡ properties.old ++ names.as_property number spot.now) }
{
    if let Spot::Property(control, name) = spot {
        properties.push(Property {
            control: *control,
            name: name.copy(alloc)?,
            cell: number,
        })?;
    }
    Ok(())
}

// The written properties, with the numbers of their cells.
fn properties_of(alloc: Global, cells: &[Cell]) -> Result<PropertyList, Memory>
    requires { length cells.now ≤ 2000 }
    ensures { IfOk result (λ l. l ≡ names.properties_from 0 cells.now) }
{
    let mut properties = InOrder::new(alloc);
    let mut number = 0;
    for cell in cells {
        put_property(alloc, number, &cell.spot, &mut properties)?;
        number += 1;
    }
    Ok(properties)
}

fn variables_of(alloc: Global, things: &[Declared]) -> Result<VariableList, Memory>
    ensures { IfOk result (λ l. l ≡ names.variables_among things.now) }
{
    let mut variables = InOrder::new(alloc);
    for one in things {
        if let Thing::Variable(screen) = one.thing {
            variables.push(Variable {
                name: one.name.copy(alloc)?,
                screen,
                ty: Ty::Blank,
            })?;
        }
    }
    Ok(variables)
}

fn collections_of(alloc: Global, things: &[Declared]) -> Result<CollectionList, Memory>
    ensures { IfOk result (λ l. l ≡ names.collections_among things.now) }
{
    let mut collections = InOrder::new(alloc);
    for one in things {
        if matches!(one.thing, Thing::Collection) {
            collections.push(Collection {
                name: one.name.copy(alloc)?,
                ty: Ty::Blank,
            })?;
        }
    }
    Ok(collections)
}

// The names of an app, each of type Blank so far. That they are lawful, where nothing is broken, is
// proved in `names_of` over these clauses alone.
fn first_names(
    alloc: Global,
    functions: &'static [Signature],
    frame: Frame,
    cells: &[Cell],
) -> Result<Names, Memory>
    requires functions { map entry functions.now ≡ entries }
    requires few { length cells.now ≤ 2000 }
    ensures names { IfOk result (AreNamesOf frame cells.now) }
    ensures functions { IfOk result (λ n. n.signatures.now ≡ functions.now) }
{
    let given = set_of(alloc, &given_names(alloc, &frame, cells)?)?;
    let things = things_of(alloc, functions, &given, cells)?;
    let Frame {
        schema,
        limit: _,
        screens,
        controls,
    } = frame;
    Ok(Names {
        signatures: functions,
        schema,
        screens,
        controls,
        properties: properties_of(alloc, cells)?,
        functions: InOrder::new(alloc),
        formulas: formulas_of(alloc, cells)?,
        variables: variables_of(alloc, &things)?,
        collections: collections_of(alloc, &things)?,
    })
}

/// The names of an app, of which nothing is broken: all functions, its tables, screens and
/// controls, its named formulas and written properties, and what its formulas declare, each of type
/// Blank so far.
pub fn names_of(
    alloc: Global,
    functions: &'static [Signature],
    frame: Frame,
    cells: &[Cell],
) -> Result<Names, Memory>
    requires functions { map entry functions.now ≡ entries }
    requires frame { IsFrame frame }
    requires placed { All (IsPlaced frame) cells.now }
    requires unbroken { rules.name_breaks functions.now frame cells.now ≡ [] }
    ensures names { IfOk result (AreNamesOf frame cells.now) }
    ensures functions { IfOk result (λ n. n.signatures.now ≡ functions.now) }
    ensures lawful { IfOk result IsLawful }
    ensures formulas { IfOk result (λ n. All (λ (f : Formula). f.cell < length cells.now)
        n.formulas) }
    ensures properties { IfOk result (λ n. All (λ (p : PropertyCell). p.cell < length cells.now)
        n.properties) }
{
    first_names(alloc, functions, frame, cells)
}
