//! Named formulas, found by their names.
ghost use Rattle.std.specs.Prelude.{◌≡◌, ◌≤◌, ◌++◌, ◌∷◌, [], length, slice_get, option_map, IfOk};
ghost use Rattle.std.specs.Prelude.{OnOk, OnErr, MatchOption};
ghost use Rattle.std.specs.BTreeMap.{IsUnchanged};
ghost use Rattle.fx_core.specs.Formulas.{IsIndexNoted, formula_named, retyped};

use crate::names::FormulaName;
use fx_base::Memory;
use fx_types::types::Ty;
use fx_types::words::Words;
use std::alloc::Global;
use std::collections::BTreeMap;
use std::marker::Model;

/// Named formulas in app order, which are found by their names without a search through all of
/// them.
#[derive(Drop)]
pub struct FormulaList {
    items: Vec<FormulaName>,
    // The place of the first formula of each name.
    places: BTreeMap<Words, usize>,
}

impl Model for FormulaList {
    ghost use Rattle.std.specs.Prelude.{List};
    ghost use Rattle.std.specs.Coded.{coded_list};
    ghost use Rattle.fx_core.specs.Formulas.{IsIndexOf};
    ghost use Rattle.fx_core.specs.declared.names.FormulaName.{FormulaName as Known};
    ghost use Rattle.fx_core.specs.contracts.names.FormulaName.{the_row as formula_row};

    ghost Value = { List Known };

    ghost coded = { coded_list formula_row.coded };

    ghost view = { λ a. a.items.items };

    ghost invariant = { λ a. IsIndexOf a.places a.items.items };
}

impl FormulaList {
    /// No formulas.
    pub fn new(alloc: Global) -> FormulaList
        ensures { result ≡ [] }
    {
        FormulaList {
            items: Vec::new(alloc),
            places: BTreeMap::new(alloc),
        }
    }

    /// Adds a formula at the end. One of the same name before it stays the one that is found.
    pub fn push(&mut self, alloc: Global, formula: FormulaName) -> Result<(), Memory>
        ensures ok { OnOk result (self.new ≡ self.old ++ formula ∷ []) }
        ensures err { OnErr result (self.new ≡ self.old) }
    {
        let name = formula.name.copy(alloc)?;
        let place = self.items.len();
        self.items.push(formula)?;
        // Without a note the formula goes again, so that want of memory changes nothing.
        if note(&mut self.places, name, place).is_err() {
            self.items.pop();
            return Err(Memory);
        }
        Ok(())
    }

    /// How many formulas there are.
    pub fn len(&self) -> usize
        ensures { result ≡ length self.now }
    {
        self.items.len()
    }

    /// The first formula of a name.
    pub fn find(&self, name: &Words) -> Option<&FormulaName>
        ensures { option_map (λ f. f.now) result ≡ formula_named name.now self.now }
    {
        let place = self.places.get(name)?;
        formula_at(&self.items, *place)
    }

    /// The formulas in order.
    pub fn as_slice(&self) -> &[FormulaName]
        ensures { result.now ≡ self.now }
    {
        self.items.as_slice()
    }

    /// The same formulas with these types, of which there is one for each.
    pub fn retype(self, alloc: Global, types: Vec<Ty>) -> Result<FormulaList, Memory>
        requires { length types.items ≡ length self }
        ensures { IfOk result (λ l. l ≡ retyped self types.items) }
    {
        let FormulaList { items, places } = self;
        Ok(FormulaList {
            items: with_types(alloc, items, types)?,
            places,
        })
    }
}

// The formula at a place, counted from 0.
fn formula_at(formulas: &[FormulaName], place: usize) -> Option<&FormulaName>
    ensures { option_map (λ f. f.now) result ≡ slice_get formulas.now place }
{
    formulas.get(place)
}

// Notes the place of a name that has none.
fn note(places: &mut BTreeMap<Words, usize>, name: Words, place: usize) -> Result<(), Memory>
    ensures ok { OnOk result (IsIndexNoted places.old places.new name place) }
    ensures err { OnErr result (IsUnchanged places.old places.new) }
{
    if !places.contains_key(&name) {
        places.insert(name, place)?;
    }
    Ok(())
}

// Formulas with these types, of which there is one for each.
fn with_types(
    alloc: Global,
    formulas: Vec<FormulaName>,
    types: Vec<Ty>,
) -> Result<Vec<FormulaName>, Memory>
    requires { length types.items ≡ length formulas.items }
    ensures { IfOk result (λ l. l.items ≡ retyped formulas.items types.items) }
{
    let mut all = Vec::with_capacity(alloc, formulas.len())?;
    for (formula, ty) in formulas.into_iter().zip(types) {
        all.push(FormulaName {
            name: formula.name,
            cell: formula.cell,
            ty,
        })?;
    }
    Ok(all)
}
