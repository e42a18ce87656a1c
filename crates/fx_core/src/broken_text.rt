//! The lines that tell of broken rules.
ghost use Rattle.std.specs.Prelude.{◌≡◌, ◌++◌, IfOk, OnOk, flat_map, string_bytes, encode_utf8_all};
ghost use Rattle.std.specs.List.{list_any};
ghost use Rattle.fx_core.specs.BrokenText.{address_of, single_quote_doubled, has_mark, broken_line};
ghost use Rattle.fx_core.specs.BrokenText.{ended_line};

use crate::broken::Broken;
use fx_base::Memory;
use fx_types::words::Words;
use std::alloc::Global;

/// The line `<cell>: E<n> <Name> at <at>: <detail>`, without an end.
#[tactic(auto, unfolding(crate::specs::BrokenText::broken_line))]
pub fn line(alloc: Global, broken: &Broken) -> Result<String, Memory>
    ensures { IfOk result (λ s. string_bytes s ≡ broken_line broken.now) }
{
    let cell = broken.cell.as_str();
    let number = broken.rule.number();
    let name = broken.rule.name();
    let at = broken.at;
    let detail = broken.detail.as_str();
    Ok(format!(in alloc; "{cell}: E{number} {name} at {at}: {detail}")?)
}

/// The lines of these, in order, each with its end.
pub fn lines(alloc: Global, all: &[Broken]) -> Result<String, Memory>
    ensures { IfOk result (λ s. string_bytes s ≡ flat_map ended_line all.now) }
{
    let mut text = String::new(alloc);
    for broken in all {
        text.push_str(line(alloc, broken)?.as_str())?;
        text.push_str("\n")?;
    }
    Ok(text)
}

/// A name as addresses show it: one with a point or a quote in it stands between single quotes,
/// with each of its own doubled.
pub fn address(alloc: Global, name: &Words) -> Result<Words, Memory>
    ensures { IfOk result (λ w. w ≡ address_of name.now) }
{
    if !needs_quotes(name) {
        return name.copy(alloc);
    }
    let mut text = String::new(alloc);
    text.push('\'')?;
    for c in name.as_str().chars() {
        push_doubled(&mut text, c)?;
    }
    text.push('\'')?;
    Words::of(alloc, text.as_str())
}

/// Whether a name has a point or a quote.
fn needs_quotes(name: &Words) -> bool
    ensures { result ≡ list_any has_mark name.now }
{
    name.as_str().chars().any(|c| is_mark(c))
}

/// Whether a character is a point or a single quote.
fn is_mark(c: char) -> bool
    ensures { result ≡ has_mark c }
{
    c == '.' || c == '\''
}

/// A character, and a single quote twice.
fn push_doubled(out: &mut String, c: char) -> Result<(), Memory>
    ensures { OnOk result (string_bytes out.new
        ≡ string_bytes out.old ++ encode_utf8_all (single_quote_doubled c)) }
{
    if c == '\'' {
        out.push('\'')?;
    }
    Ok(out.push(c)?)
}
