//! What is said of formulas that lean on one another in a circle.
ghost use Rattle.std.specs.Prelude.{◌≡◌, ◌++◌, IfOk, OnOk, encode_utf8_all, map, string_bytes};
ghost use Rattle.app_loader.specs.Cycles as spec;

use app_cells::CellInfo;
use fx_base::Memory;
use fx_core::{Broken, Rule};
use fx_infer::texts::nothing;
use fx_types::words::Words;
use std::alloc::Global;

// The address of a formula by its number.
fn name_at(alloc: Global, infos: &[CellInfo], number: u32) -> Result<Words, Memory>
    ensures { IfOk result (λ w. w ≡ spec.cell_name_at infos.now number) }
{
    match infos.get(number as usize) {
        Some(info) => info.cell.name.copy(alloc),
        None => nothing(alloc),
    }
}

// The addresses of formulas by their numbers.
fn names_at(alloc: Global, infos: &[CellInfo], numbers: &[u32]) -> Result<Vec<Words>, Memory>
    ensures { IfOk result (λ v. v.items ≡ map (spec.cell_name_at infos.now) numbers.now) }
{
    let mut names = Vec::new(alloc);
    for number in numbers {
        names.push(name_at(alloc, infos, *number)?)?;
    }
    Ok(names)
}

// What stands before the address at a place.
fn arrow(place: usize) -> &'static str
    ensures { result.now ≡ spec.arrow_at place }
{
    if place > 0 { " -> " } else { "" }
}

// Adds the address at a place, behind an arrow if it isn't the first.
fn push_name(all: &mut String, place: usize, name: &Words) -> Result<(), Memory>
    ensures { OnOk result (string_bytes all.new
        ≡ string_bytes all.old ++ encode_utf8_all (spec.arrow_at place ++ name.now)) }
{
    all.push_str(arrow(place))?;
    Ok(all.push_str(name.as_str())?)
}

// Addresses with an arrow between each two.
fn join_names(alloc: Global, names: &[Words]) -> Result<Words, Memory>
    ensures { IfOk result (λ w. w ≡ spec.joined_by_arrows names.now) }
{
    let mut all = String::new(alloc);
    for (place, name) in names.iter().enumerate() {
        push_name(&mut all, place, name)?;
    }
    Words::of(alloc, all.as_str())
}

// The first address.
fn first_of(alloc: Global, names: &[Words]) -> Result<Words, Memory>
    ensures { IfOk result (λ w. w ≡ spec.first_address names.now) }
{
    match names {
        [first, ..] => first.copy(alloc),
        [] => nothing(alloc),
    }
}

/// What is said of a closed path.
pub fn cycle_break(alloc: Global, infos: &[CellInfo], path: &[u32]) -> Result<Broken, Memory>
    ensures { IfOk result (λ b. b ≡ spec.cycle_of (map (spec.cell_name_at infos.now) path.now)) }
{
    let names = names_at(alloc, infos, path)?;
    Ok(Broken {
        cell: first_of(alloc, &names)?,
        rule: Rule::Cycle,
        at: 0,
        detail: join_names(alloc, &names)?,
    })
}
