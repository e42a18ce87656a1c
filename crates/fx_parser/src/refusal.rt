//! Where a text stops being a formula.
ghost use Rattle.std.specs.Prelude.{◌≡◌, ◌≤◌, ◌<◌, ◌^◌, length, drop, IfOk, IfErr};
ghost use Rattle.std.specs.Str.{chars};
ghost use Rattle.fx_grammar.specs.Formulas.{HasItems, IsDeeper, AreDeeper};
ghost use Rattle.fx_parser.specs.Trees as trees;
ghost use Rattle.fx_parser.specs.Entries.{AreCuts};
ghost use Rattle.fx_parser.specs.Texts.{place_or, IsItemsEnd, IsLexEnd};

use crate::depth_scan::deepest;
use crate::end::ParseEnd;
use crate::recognize::{Verdict, formula, named_formulas};
use fx_grammar::{Item, items};
use fx_lexer::{LexEnd, tokens};
use std::alloc::Global;

/// The tokens of a text, with what they mean.
pub fn items_of(alloc: Global, source: &str) -> Result<Vec<Item>, ParseEnd>
    requires { length source.now < 2 ^ 32 }
    ensures items { IfOk result (λ v. HasItems (chars source.now) v.items) }
    ensures cuts { IfOk result (λ v. AreCuts source.now v.items) }
    ensures end { IfErr result (IsLexEnd source.now) }
{
    match tokens(alloc, source) {
        Ok(found) => Ok(items(alloc, source, found.as_slice())?),
        Err(LexEnd::Bad(bad)) => Err(ParseEnd::Lex(bad)),
        Err(LexEnd::Memory) => Err(ParseEnd::Memory),
    }
}

/// Where the token at this place begins, or the end behind the last.
fn place(items: &[Item], index: usize, end: u32) -> u32
    requires { index ≤ length items.now }
    ensures { result ≡ place_or end (drop index items.now) }
{
    let (_, rest) = items.split_at(index);
    match rest {
        [] => end,
        [x, ..] => x.at,
    }
}

/// Why these tokens are no formula that is at most 64 deep.
pub fn formula_end(alloc: Global, items: &[Item], end: u32) -> ParseEnd
    requires { IsDeeper 64 items.now }
    ensures { IsItemsEnd trees.HasFormula (IsDeeper 64) items.now end result }
{
    match formula(alloc, items) {
        Ok(Verdict::StopsAt(index)) => ParseEnd::Syntax(place(items, index, end)),
        Ok(Verdict::HasTree) => match deepest(alloc, items, false) {
            Ok(index) => ParseEnd::TooDeep(place(items, index, end)),
            Err(_) => ParseEnd::Memory,
        },
        Err(_) => ParseEnd::Memory,
    }
}

/// Why these tokens are no named formulas that are at most 64 deep.
pub fn named_end(alloc: Global, items: &[Item], end: u32) -> ParseEnd
    requires { AreDeeper 64 items.now }
    ensures { IsItemsEnd trees.HasEntries (AreDeeper 64) items.now end result }
{
    match named_formulas(alloc, items) {
        Ok(Verdict::StopsAt(index)) => ParseEnd::Syntax(place(items, index, end)),
        Ok(Verdict::HasTree) => match deepest(alloc, items, true) {
            Ok(index) => ParseEnd::TooDeep(place(items, index, end)),
            Err(_) => ParseEnd::Memory,
        },
        Err(_) => ParseEnd::Memory,
    }
}
