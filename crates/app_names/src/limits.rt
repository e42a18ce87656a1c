//! Limits of the names of an app's formulas.
ghost use Rattle.std.specs.Prelude.{◌≡◌, IfOk, length, option_map};
ghost use Rattle.std.specs.List.{find};
ghost use Rattle.std.specs.Str.{IsAscii};
ghost use Rattle.app_names.specs.NameRules as rules;

use crate::broken::{in_cell, word_with_count};
use crate::declarations::Declared;
use app_cells::{Cell, Spot};
use fx_base::Memory;
use fx_core::{Broken, Rule};
use fx_types::words::Words;
use std::alloc::Global;

/// The most bytes of a formula.
pub const MOST_FORMULA_BYTES: usize = 8_192;

/// The most characters of a name.
pub const MOST_NAME_LENGTH: usize = 64;

/// The most formulas of an app.
pub const MOST_CELLS: usize = 2_000;

/// The most variables and collections of an app.
pub const MOST_VARIABLES: usize = 1_000;

// A limit that is passed, with the number that was counted.
fn passed_limit(
    alloc: Global,
    most: usize,
    count: usize,
    limit: &str,
) -> Result<Option<Words>, Memory>
    requires { IsAscii limit.now }
    ensures { IfOk result (λ o. o ≡ rules.passed_limit most count limit.now) }
{
    if count > most {
        Ok(Some(word_with_count(alloc, limit, count)?))
    } else {
        Ok(None)
    }
}

fn length_of(name: &Words) -> usize
    ensures { result ≡ length name.now }
{
    name.as_str().chars().count()
}

fn is_long(name: &Words) -> bool
    ensures { result ≡ rules.is_long name.now }
{
    length_of(name) > MOST_NAME_LENGTH
}

fn long_name(alloc: Global, name: &Words) -> Result<Words, Memory>
    ensures { IfOk result (λ w. w ≡ rules.long_name name.now) }
{
    word_with_count(alloc, "name", length_of(name))
}

// The first of these whose name is too long.
fn first_long(new: &[Declared]) -> Option<&Declared>
    ensures { option_map (λ d. d.now) result ≡ find (λ d. rules.is_long d.name) new.now }
{
    new.iter().find(|one| is_long(&one.name))
}

// A formula's text that is too long.
fn long_text(alloc: Global, cell: &Cell) -> Result<Option<Broken>, Memory>
    ensures { IfOk result (λ o. o ≡ rules.long_text cell.now) }
{
    let bytes = cell.text.as_str().len();
    match passed_limit(alloc, MOST_FORMULA_BYTES, bytes, "formula")? {
        Some(detail) => Ok(Some(in_cell(alloc, cell, Rule::LimitPassed, cell.at, detail)?)),
        None => Ok(None),
    }
}

// A formula's name that is too long.
fn long_own_name(alloc: Global, cell: &Cell, name: &Words) -> Result<Option<Broken>, Memory>
    ensures { IfOk result (λ o. o ≡ rules.long_own_name cell.now name.now) }
{
    if is_long(name) {
        let detail = long_name(alloc, name)?;
        Ok(Some(in_cell(alloc, cell, Rule::LimitPassed, cell.at, detail)?))
    } else {
        Ok(None)
    }
}

// The first limit that a named formula passes by itself.
fn own_limit(alloc: Global, cell: &Cell) -> Result<Option<Broken>, Memory>
    ensures { IfOk result (λ o. o ≡ rules.own_limit cell.now cell.now.spot) }
{
    let Spot::Formula(name) = &cell.spot else {
        return Ok(None);
    };
    match long_text(alloc, cell)? {
        Some(broken) => Ok(Some(broken)),
        None => long_own_name(alloc, cell, name),
    }
}

// A name that a cell declares anew and that is too long.
fn long_thing(alloc: Global, new: &[Declared], cell: &Cell) -> Result<Option<Broken>, Memory>
    ensures { IfOk result (λ o. o ≡ rules.long_thing new.now cell.now) }
{
    match first_long(new) {
        Some(one) => {
            let detail = long_name(alloc, &one.name)?;
            Ok(Some(in_cell(alloc, cell, Rule::LimitPassed, one.at, detail)?))
        }
        None => Ok(None),
    }
}

/// The first limit that a cell passes, which declares these things anew.
pub fn limit_break(alloc: Global, new: &[Declared], cell: &Cell) -> Result<Option<Broken>, Memory>
    ensures { IfOk result (λ o. o ≡ rules.limit_break new.now cell.now) }
{
    match own_limit(alloc, cell)? {
        Some(broken) => Ok(Some(broken)),
        None => long_thing(alloc, new, cell),
    }
}

/// The first limit that an app passes of so many cells and things that are declared.
pub fn app_limit(alloc: Global, cells: usize, things: usize) -> Result<Option<Words>, Memory>
    ensures { IfOk result (λ o. o ≡ rules.app_limit cells things) }
{
    match passed_limit(alloc, MOST_CELLS, cells, "cells")? {
        Some(detail) => Ok(Some(detail)),
        None => passed_limit(alloc, MOST_VARIABLES, things, "variables"),
    }
}
