//! What is said of broken rules.
ghost use Rattle.std.specs.Prelude.{◌≡◌, ◌++◌, [], IfOk, OnOk};
ghost use Rattle.std.specs.Str.{IsAscii};
ghost use Rattle.app_names.specs.NameRules as rules;

use app_cells::Cell;
use fx_base::Memory;
use fx_core::{Broken, Rule};
use fx_types::words::Words;
use std::alloc::Global;

/// A rule that the whole app breaks.
pub fn in_app(alloc: Global, rule: Rule, detail: Words) -> Result<Broken, Memory>
    ensures { IfOk result (λ b. b ≡ rules.in_app rule detail) }
{
    Ok(Broken {
        cell: word(alloc, "App")?,
        rule,
        at: 0,
        detail,
    })
}

/// A rule that a formula breaks at a byte of the text, which is counted from where its positions
/// are told.
pub fn in_cell(
    alloc: Global,
    cell: &Cell,
    rule: Rule,
    at: u32,
    detail: Words,
) -> Result<Broken, Memory>
    ensures { IfOk result (λ b. b ≡ rules.in_cell cell.now rule at detail) }
{
    Ok(Broken {
        cell: cell.name.copy(alloc)?,
        rule,
        // Saturating, so that no caller has to promise that the byte lies in the formula.
        at: at.saturating_sub(cell.at),
        detail,
    })
}

/// A word of ASCII characters.
pub fn word(alloc: Global, text: &str) -> Result<Words, Memory>
    requires { IsAscii text.now }
    ensures { IfOk result (λ w. w ≡ text.now) }
{
    Words::of(alloc, text)
}

/// A word of ASCII characters and a number, a space between them.
pub fn word_with_count(alloc: Global, word: &str, number: usize) -> Result<Words, Memory>
    requires { IsAscii word.now }
    ensures { IfOk result (λ w. w ≡ rules.word_with_number word.now number) }
{
    let text = format!(in alloc; "{word} {number}")?;
    Words::of(alloc, text.as_str())
}

/// Adds a break, if there is one.
pub fn put_break(breaks: &mut Vec<Broken>, one: Option<Broken>) -> Result<(), Memory>
    ensures { OnOk result (breaks.new.items ≡ breaks.old.items ++ rules.put_break one []) }
{
    if let Some(one) = one {
        breaks.push(one)?;
    }
    Ok(())
}
