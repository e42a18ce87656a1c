//! Why a text is no formula.
ghost use Rattle.std.specs.Prelude.{◌≡◌, ◌<◌, ◌^◌, length};
ghost use Rattle.fx_types.specs.Words.{scalars_of};
ghost use Rattle.app_texts.specs.Texts.{IsToldOfText, TellsBreak, in_text};

use fx_base::{Memory, OrMemory};
use fx_core::{Broken, Rule};
use fx_parser::{ParseEnd, bad_token, syntax_detail};
use fx_types::words::Words;
use std::alloc::Global;

// A rule that a text breaks, of which this cell is told.
fn in_words(cell: Words, rule: Rule, at: u32, detail: Words) -> OrMemory<Broken>
    ensures { TellsBreak (λ b. b ≡ in_text cell rule at detail) result }
{
    OrMemory::Refused(Broken {
        cell,
        rule,
        at,
        detail,
    })
}

fn in_text(alloc: Global, cell: Words, rule: Rule, at: u32, detail: &str) -> OrMemory<Broken>
    ensures { TellsBreak (λ b. b ≡ in_text cell rule at (scalars_of detail.now)) result }
{
    match Words::of(alloc, detail) {
        Ok(detail) => in_words(cell, rule, at, detail),
        Err(Memory) => OrMemory::Memory,
    }
}

/// What is told of a text that has no tree, as this cell's.
pub fn break_of_text(alloc: Global, cell: Words, source: &str, end: ParseEnd) -> OrMemory<Broken>
    requires { length source.now < 2 ^ 32 }
    ensures { TellsBreak (IsToldOfText cell source.now end) result }
{
    match end {
        ParseEnd::Lex(bad) => in_text(alloc, cell, Rule::BadToken, bad.at, bad_token(bad.what)),
        ParseEnd::Syntax(at) => match syntax_detail(alloc, source, at) {
            Ok(detail) => in_words(cell, Rule::Syntax, at, detail),
            Err(Memory) => OrMemory::Memory,
        },
        ParseEnd::TooDeep(at) => in_text(alloc, cell, Rule::TooDeep, at, "deeper than 64"),
        ParseEnd::Memory => OrMemory::Memory,
    }
}
