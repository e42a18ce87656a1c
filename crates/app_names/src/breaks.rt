//! All that is broken among the names of an app.
ghost use Rattle.std.specs.Prelude.{◌≡◌, ◌≤◌, ◌++◌, [], IfOk, OnOk, length, option_map};
ghost use Rattle.app_cells.specs.Spots.{IsFrame};
ghost use Rattle.app_names.specs.NameRules as rules;
ghost use Rattle.app_names.specs.Tops.{is_name_in_set};

use crate::broken::{in_app, put_break};
use crate::declarations::Declared;
use crate::declared_things::{declared_things, new_behind, put_behind, things_of};
use crate::duplicates::frame_twice;
use crate::given_names::{given_names, table_names};
use crate::limits::{app_limit, limit_break};
use crate::name_clashes::taken_break;
use crate::name_sets::{put_own_name, set_of};
use app_cells::{Cell, Frame};
use fx_base::Memory;
use fx_core::signatures::Signature;
use fx_core::{Broken, Rule};
use fx_types::words::Words;
use std::alloc::Global;
use std::collections::BTreeSet;

// What is broken of a cell behind these names, where these things are declared and it declares
// these new ones.
fn name_break(
    alloc: Global,
    before: &BTreeSet<Words>,
    things: &[Declared],
    new: &[Declared],
    cell: &Cell,
) -> Result<Option<Broken>, Memory>
    ensures { IfOk result (λ o. o ≡ rules.name_break (is_name_in_set before.now) things.now new.now
        cell.now) }
{
    match taken_break(alloc, before, things, new, cell)? {
        Some(broken) => Ok(Some(broken)),
        None => limit_break(alloc, new, cell),
    }
}

// Adds the breaks of cells behind these names, one at most of each.
fn put_breaks(
    alloc: Global,
    functions: &[Signature],
    given: &BTreeSet<Words>,
    tables: &[Words],
    cells: &[Cell],
    breaks: &mut Vec<Broken>,
) -> Result<(), Memory>
    ensures { OnOk result (breaks.new.items ≡ breaks.old.items
        ++ rules.breaks_behind functions.now (is_name_in_set given.now) tables.now [] cells.now) }
{
    let mut before = set_of(alloc, tables)?;
    let mut things = Vec::new(alloc);
    for cell in cells {
        let declared = declared_things(alloc, functions, given, cell)?;
        let new = new_behind(alloc, &things, declared)?;
        let broken = name_break(alloc, &before, &things, &new, cell)?;
        put_break(breaks, broken)?;
        put_own_name(alloc, &cell.spot, &mut before)?;
        put_behind(&mut things, new)?;
    }
    Ok(())
}

// A rule that the whole app breaks, where something is said of it.
fn app_break_by(alloc: Global, rule: Rule, detail: Option<Words>) -> Result<Option<Broken>, Memory>
    ensures { IfOk result (λ o. o ≡ option_map (rules.in_app rule) detail) }
{
    match detail {
        Some(detail) => Ok(Some(in_app(alloc, rule, detail)?)),
        None => Ok(None),
    }
}

// What is broken of the whole app, whose formulas declare so many things.
fn app_break(
    alloc: Global,
    frame: &Frame,
    cells: &[Cell],
    things: usize,
) -> Result<Option<Broken>, Memory>
    requires { length frame.now.screens ≤ 64 }
    ensures { IfOk result (λ o. o ≡ rules.app_break frame.now cells.now things) }
{
    let twice = frame_twice(alloc, frame, cells)?;
    match app_break_by(alloc, Rule::NameTwice, twice)? {
        Some(broken) => Ok(Some(broken)),
        None => {
            let passed = app_limit(alloc, cells.len(), things)?;
            app_break_by(alloc, Rule::LimitPassed, passed)
        }
    }
}

/// What is broken among the names of an app: of the whole app, and then of each cell, one break at
/// most.
pub fn name_breaks(
    alloc: Global,
    functions: &[Signature],
    frame: &Frame,
    cells: &[Cell],
) -> Result<Vec<Broken>, Memory>
    requires { IsFrame frame.now }
    ensures { IfOk result (λ v. v.items ≡ rules.name_breaks functions.now frame.now cells.now) }
{
    let given = set_of(alloc, &given_names(alloc, frame, cells)?)?;
    let things = things_of(alloc, functions, &given, cells)?;
    let tables = table_names(alloc, frame)?;
    let mut breaks = Vec::new(alloc);
    let count = things.as_slice().len();
    put_break(&mut breaks, app_break(alloc, frame, cells, count)?)?;
    put_breaks(alloc, functions, &given, &tables, cells, &mut breaks)?;
    Ok(breaks)
}
