//! The types that a round gives.
ghost use Rattle.std.specs.Prelude.{◌≡◌, ◌<◌, ◌≤◌, ◌^◌, All, IfOk, Some, codes, length, map};
ghost use Rattle.std.specs.Prelude.{slice_get};
ghost use Rattle.fx_types.specs.TypeView.{shape};
ghost use Rattle.fx_types.specs.Types.{blanks};
ghost use Rattle.fx_infer.specs.Below.{tree_depth};
ghost use Rattle.fx_infer.specs.declared.elaboration.Written.{Written};
ghost use Rattle.fx_typing.specs.Rounds as rounds;
ghost use Rattle.fx_core.specs.Lawful.{IsLawful};
ghost use Rattle.fx_core.specs.declared.names.Collection.{Collection};
ghost use Rattle.fx_core.specs.declared.names.Variable.{Variable};
ghost use Rattle.fx_infer.specs.CellView.{cell};
ghost use Rattle.fx_infer.specs.GivenView.{given_type_view};
ghost use Rattle.fx_infer.specs.TypesView.{types_view};

use crate::assignments::collect_assignments;
use crate::giving::Given;
use crate::joining::{collection_join, variable_join};
use crate::round_types::Types;
use crate::{InferEnd, Written, elaborate_alone};
use fx_base::Memory;
use fx_core::names::{Collection, FormulaName, Names, Variable};
use fx_resolve::named::property_in;
use fx_types::types::Ty;
use fx_types::words::Words;
use std::alloc::Global;

// The type of a formula itself, and Blank where it has none.
fn formula_type(alloc: Global, names: &Names, formula: &Written) -> Result<Ty, Memory>
    requires lawful { IsLawful names.now }
    requires shallow { tree_depth formula.now.expr ≤ 256 }
    ensures { IfOk result (λ t. shape t ≡ rounds.cell_type names.now (Some (cell formula.now))) }
{
    match elaborate_alone(alloc, names, formula) {
        Ok(typed) => Ok(typed.ty),
        Err(InferEnd::Broken(_)) => Ok(Ty::Blank),
        Err(InferEnd::Memory) => Err(Memory),
    }
}

// The type of the formula of a cell.
fn cell_type(alloc: Global, names: &Names, cells: &[Written], number: u32) -> Result<Ty, Memory>
    requires lawful { IsLawful names.now }
    requires shallow { All (λ (c : Written). tree_depth c.expr ≤ 256) cells.now }
    ensures { IfOk result (λ t. shape t
        ≡ rounds.cell_type names.now (slice_get (map cell cells.now) number)) }
{
    match cells.get(number as usize) {
        Some(formula) => formula_type(alloc, names, formula),
        None => Ok(Ty::Blank),
    }
}

// The types of named formulas.
fn formula_types(
    alloc: Global,
    names: &Names,
    cells: &[Written],
    formulas: &[FormulaName],
) -> Result<Vec<Ty>, Memory>
    requires lawful { IsLawful names.now }
    requires shallow { All (λ (c : Written). tree_depth c.expr ≤ 256) cells.now }
    ensures { IfOk result (λ ts. map shape ts.items
        ≡ map (rounds.formula_type names.now (map cell cells.now)) formulas.now) }
{
    let mut types = Vec::new(alloc);
    for formula in formulas {
        types.push(cell_type(alloc, names, cells, formula.cell)?)?;
    }
    Ok(types)
}

// The name of the property that gives the items of a gallery.
fn items_name(alloc: Global) -> Result<Words, Memory>
    ensures { IfOk result (λ w. w ≡ codes "Items") }
{
    Words::of(alloc, "Items")
}

// The type of the items of a control: that of its property of this name.
fn items_type(
    alloc: Global,
    names: &Names,
    cells: &[Written],
    control: u32,
    items: &Words,
) -> Result<Ty, Memory>
    requires lawful { IsLawful names.now }
    requires shallow { All (λ (c : Written). tree_depth c.expr ≤ 256) cells.now }
    requires items { items.now ≡ codes "Items" }
    ensures { IfOk result (λ t. shape t
        ≡ rounds.items_type names.now (map cell cells.now) control) }
{
    match property_in(names.properties.as_slice(), control, items) {
        Some((_, property)) => cell_type(alloc, names, cells, property.cell),
        None => Ok(Ty::Blank),
    }
}

// The types of the items of controls.
fn items_types(alloc: Global, names: &Names, cells: &[Written]) -> Result<Vec<Ty>, Memory>
    requires lawful { IsLawful names.now }
    requires shallow { All (λ (c : Written). tree_depth c.expr ≤ 256) cells.now }
    ensures { IfOk result (λ ts. map shape ts.items
        ≡ rounds.items_types names.now (map cell cells.now) 0 names.now.controls) }
{
    let items = items_name(alloc)?;
    let mut types = Vec::new(alloc);
    for number in 0..names.controls.len() {
        types.push(items_type(alloc, names, cells, number as u32, &items)?)?;
    }
    Ok(types)
}

// The types of variables, by all that is given.
fn variable_types(alloc: Global, variables: &[Variable], given: &[Given]) -> Result<Vec<Ty>, Memory>
    ensures { IfOk result (λ ts. map shape ts.items
        ≡ map (λ (v : Variable). rounds.variable_join v blanks (map given_type_view given.now))
        variables.now) }
{
    let mut types = Vec::new(alloc);
    for variable in variables {
        types.push(variable_join(alloc, variable, given)?)?;
    }
    Ok(types)
}

// The types of collections, by all that is given.
fn collection_types(
    alloc: Global,
    collections: &[Collection],
    given: &[Given],
) -> Result<Vec<Ty>, Memory>
    ensures { IfOk result (λ ts. map shape ts.items
        ≡ map (λ (c : Collection). rounds.collection_join c blanks (map given_type_view given.now))
        collections.now) }
{
    let mut types = Vec::new(alloc);
    for collection in collections {
        types.push(collection_join(alloc, collection, given)?)?;
    }
    Ok(types)
}

/// The types that a round gives, under those that the names have.
pub fn next_types(alloc: Global, names: &Names, cells: &[Written]) -> Result<Types, Memory>
    requires lawful { IsLawful names.now }
    requires shallow { All (λ (c : Written). tree_depth c.expr ≤ 256) cells.now }
    ensures { IfOk result (λ ts. types_view ts ≡ rounds.next_types (map cell cells.now) names.now) }
{
    let given = collect_assignments(alloc, names, cells)?;
    Ok(Types {
        variables: variable_types(alloc, names.variables.as_slice(), &given)?,
        collections: collection_types(alloc, names.collections.as_slice(), &given)?,
        formulas: formula_types(alloc, names, cells, names.formulas.as_slice())?,
        items: items_types(alloc, names, cells)?,
    })
}
