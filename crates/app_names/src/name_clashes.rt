//! Names that are taken.
ghost use Rattle.std.specs.Prelude.{◌≡◌, ◌++◌, IfOk, option_map};
ghost use Rattle.std.specs.List.{list_any};
ghost use Rattle.app_names.specs.Declarations.{is_global_thing};
ghost use Rattle.app_names.specs.NameRules as rules;
ghost use Rattle.app_names.specs.Tops.{is_name_in_set};

use crate::broken::in_cell;
use crate::declarations::{Declared, Thing};
use app_cells::{Cell, Spot};
use fx_base::Memory;
use fx_core::literals::enumeration_of;
use fx_core::{Broken, Rule};
use fx_types::words::Words;
use std::alloc::Global;
use std::collections::BTreeSet;

// Whether a text is a word that no app declares.
fn is_word(text: &str) -> bool
    ensures { result ≡ rules.is_reserved_word text.now }
{
    // Grouped as in the definition.
    text == "App" || (text == "ThisRecord" || (text == "ThisItem" || text == "FirstError"))
}

/// Whether no app declares a name.
pub fn is_reserved(name: &Words) -> bool
    ensures { result ≡ rules.is_reserved name.now }
{
    is_word(name.as_str()) || enumeration_of(name.as_str()).is_some()
}

/// Whether a thing is a global one.
pub fn is_global(thing: Thing) -> bool
    ensures { result ≡ is_global_thing thing }
{
    !matches!(thing, Thing::Variable(Some(_)))
}

// Whether a global thing has a name.
fn has_name(name: &Words, one: &Declared) -> bool
    ensures { result ≡ rules.has_name name.now one.now }
{
    is_global(one.thing) && one.name.is(name)
}

// Whether one of these is a global thing of a name.
fn have_name(things: &[Declared], name: &Words) -> bool
    ensures { result ≡ list_any (rules.has_name name.now) things.now }
{
    things.iter().any(|one| has_name(name, one))
}

// Whether a thing's name is reserved, or that of one of these things, or of those behind them.
fn is_taken_thing(before: &[Declared], earlier: &[Declared], one: &Declared) -> bool
    ensures { result ≡ rules.is_taken_thing (before.now ++ earlier.now) one.now }
{
    is_reserved(&one.name)
        || (is_global(one.thing) && (have_name(before, &one.name) || have_name(earlier, &one.name)))
}

// The first new thing whose name is taken.
fn first_taken_thing<'a>(before: &[Declared], new: &'a [Declared]) -> Option<&'a Declared>
    ensures { option_map (λ d. d.now) result ≡ rules.first_taken before.now new.now }
{
    for (place, one) in new.iter().enumerate() {
        let (earlier, _) = new.split_at(place);
        if is_taken_thing(before, earlier, one) {
            return Some(one);
        }
    }
    None
}

// A named formula behind these names has one that is taken.
fn own_taken(alloc: Global, before: &BTreeSet<Words>, cell: &Cell) -> Result<Option<Broken>, Memory>
    ensures { IfOk result (λ o. o ≡ rules.own_taken (is_name_in_set before.now) cell.now
        cell.now.spot) }
{
    match &cell.spot {
        Spot::Formula(name) if is_reserved(name) || before.contains(name) => {
            let detail = name.copy(alloc)?;
            Ok(Some(in_cell(alloc, cell, Rule::NameTwice, cell.at, detail)?))
        }
        _ => Ok(None),
    }
}

// A cell declares a thing anew whose name is taken.
fn thing_taken(
    alloc: Global,
    things: &[Declared],
    new: &[Declared],
    cell: &Cell,
) -> Result<Option<Broken>, Memory>
    ensures { IfOk result (λ o. o ≡ rules.thing_taken things.now new.now cell.now) }
{
    match first_taken_thing(things, new) {
        Some(one) => {
            let detail = one.name.copy(alloc)?;
            Ok(Some(in_cell(alloc, cell, Rule::NameTwice, one.at, detail)?))
        }
        None => Ok(None),
    }
}

/// A cell behind these names, where these things are declared and it declares these new ones: its
/// name is taken, or one that it declares.
pub fn taken_break(
    alloc: Global,
    before: &BTreeSet<Words>,
    things: &[Declared],
    new: &[Declared],
    cell: &Cell,
) -> Result<Option<Broken>, Memory>
    ensures { IfOk result (λ o. o ≡ rules.taken_break (is_name_in_set before.now) things.now new.now
        cell.now) }
{
    match own_taken(alloc, before, cell)? {
        Some(broken) => Ok(Some(broken)),
        None => thing_taken(alloc, things, new, cell),
    }
}
