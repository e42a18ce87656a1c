//! From a text to its trees.
ghost use Rattle.std.specs.Prelude.{◌<◌, ◌^◌, length, IfOk, IfErr};
ghost use Rattle.std.specs.Str.{chars};
ghost use Rattle.fx_grammar.specs.Formulas.{HasTree};
ghost use Rattle.fx_parser.specs.Texts.{IsFormulaEnd, IsNamedText, AreNamedEnd};

use crate::descent_end::End;
use crate::end::ParseEnd;
use crate::entries::{Named, entries};
use crate::formula::parse;
use crate::refusal::{formula_end, items_of, named_end};
use fx_core::expr::Expr;
use std::alloc::Global;

/// The tree of a formula of less than 2^32 bytes, by the grammar of the Power Fx formula
/// reference.
pub fn parse_formula(alloc: Global, source: &str) -> Result<Expr, ParseEnd>
    requires { length source.now < 2 ^ 32 }
    ensures tree { IfOk result (λ e. HasTree 64 (chars source.now) e) }
    ensures end { IfErr result (IsFormulaEnd source.now) }
{
    let items = items_of(alloc, source)?;
    match parse(alloc, items.as_slice()) {
        Ok(tree) => Ok(tree),
        // Only tokens without a tree that is shallow enough are gone through again, to say where
        // and why.
        Err(End::Refused) => Err(formula_end(alloc, items.as_slice(), source.len() as u32)),
        Err(End::Memory) => Err(ParseEnd::Memory),
    }
}

/// The named formulas of a text of less than 2^32 bytes, in its order: `A = 1; B = A + 1;`, where
/// the last `;` may be missing.
pub fn parse_named(alloc: Global, source: &str) -> Result<Vec<Named>, ParseEnd>
    requires { length source.now < 2 ^ 32 }
    ensures named { IfOk result (λ v. IsNamedText 64 source.now v.items) }
    ensures end { IfErr result (AreNamedEnd source.now) }
{
    let items = items_of(alloc, source)?;
    match entries(alloc, source, items.as_slice()) {
        Ok(found) => Ok(found),
        Err(End::Refused) => Err(named_end(alloc, items.as_slice(), source.len() as u32)),
        Err(End::Memory) => Err(ParseEnd::Memory),
    }
}
