//! The things that formulas declare, each once.
ghost use Rattle.std.specs.Prelude.{◌≡◌, ◌++◌, [], IfOk, OnOk};
ghost use Rattle.std.specs.List.{list_any};
ghost use Rattle.app_names.specs.Declarations as table;
ghost use Rattle.app_names.specs.Declarations.{new_behind, things_behind};
ghost use Rattle.app_names.specs.Tops.{is_name_in_set};
ghost use Rattle.fx_typing.specs.Rounds.{is_same_screen};

use crate::declarations::{Declared, Thing, declare};
use crate::name_clashes::is_global;
use app_cells::Cell;
use fx_base::Memory;
use fx_core::signatures::Signature;
use fx_types::words::Words;
use std::alloc::Global;
use std::collections::BTreeSet;

// Whether a formula declares this: never a global thing of a name that is given.
fn is_declared(given: &BTreeSet<Words>, one: &Declared) -> bool
    ensures { result ≡ table.is_declared (is_name_in_set given.now) one.now }
{
    !(is_global(one.thing) && given.contains(&one.name))
}

/// What a formula declares: never a global thing of a name that tables, screens, controls or named
/// formulas have.
pub fn declared_things(
    alloc: Global,
    functions: &[Signature],
    given: &BTreeSet<Words>,
    cell: &Cell,
) -> Result<Vec<Declared>, Memory>
    ensures { IfOk result (λ v. v.items ≡ table.declared_of functions.now (is_name_in_set given.now)
        cell.now) }
{
    let mut found = Vec::new(alloc);
    declare(alloc, functions, cell.screen, &cell.expr, &mut found)?;
    let mut declared = Vec::new(alloc);
    for one in found {
        if is_declared(given, &one) {
            declared.push(one)?;
        }
    }
    Ok(declared)
}

// Whether two screens are one, or both are none.
fn is_same_screen(one: Option<u32>, other: Option<u32>) -> bool
    ensures { result ≡ is_same_screen one other }
{
    match (one, other) {
        (Some(one), Some(other)) => one == other,
        (None, None) => true,
        _ => false,
    }
}

fn is_kind(one: Thing, other: Thing) -> bool
    ensures { result ≡ table.is_kind one other }
{
    match (one, other) {
        (Thing::Variable(one), Thing::Variable(other)) => is_same_screen(one, other),
        (Thing::Collection, Thing::Collection) => true,
        _ => false,
    }
}

// Whether two declare one thing.
fn is_thing(one: &Declared, other: &Declared) -> bool
    ensures { result ≡ table.is_thing one.now other.now }
{
    is_kind(one.thing, other.thing) && one.name.is(&other.name)
}

// Whether a thing is among these.
fn is_among(one: &Declared, things: &[Declared]) -> bool
    ensures { result ≡ list_any (table.is_thing one.now) things.now }
{
    things.iter().any(|other| is_thing(one, other))
}

/// The things that are declared here first, behind these.
pub fn new_behind(
    alloc: Global,
    before: &[Declared],
    all: Vec<Declared>,
) -> Result<Vec<Declared>, Memory>
    ensures { IfOk result (λ v. v.items ≡ new_behind before.now all.items) }
{
    let mut new = Vec::new(alloc);
    for one in all {
        if !is_among(&one, before) && !is_among(&one, &new) {
            new.push(one)?;
        }
    }
    Ok(new)
}

/// Adds things behind others.
pub fn put_behind(things: &mut Vec<Declared>, new: Vec<Declared>) -> Result<(), Memory>
    ensures { OnOk result (things.new.items ≡ things.old.items ++ new.items) }
{
    for one in new {
        things.push(one)?;
    }
    Ok(())
}

/// All things that cells declare, in the order of their first declaration.
pub fn things_of(
    alloc: Global,
    functions: &[Signature],
    given: &BTreeSet<Words>,
    cells: &[Cell],
) -> Result<Vec<Declared>, Memory>
    ensures { IfOk result (λ v. v.items ≡ things_behind functions.now (is_name_in_set given.now) []
        cells.now) }
{
    let mut things = Vec::new(alloc);
    for cell in cells {
        let declared = declared_things(alloc, functions, given, cell)?;
        let new = new_behind(alloc, &things, declared)?;
        put_behind(&mut things, new)?;
    }
    Ok(things)
}
