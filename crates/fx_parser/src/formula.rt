//! The tree of a formula's tokens.
ghost use Rattle.std.specs.Prelude.{◌≡◌, IfOk, IfErr};
ghost use Rattle.fx_grammar.specs.Formulas.{IsTreeOf};
ghost use Rattle.fx_parser.specs.Answer.{IsTooDeep};
ghost use Rattle.fx_parser.specs.Answer as answer;

use crate::descent::line;
use crate::descent_end::End;
use crate::front::after;
use fx_core::expr::Expr;
use fx_grammar::{Item, Line, Mark};
use std::alloc::Global;

/// The deepest tree.
pub const DEEPEST: u32 = 64;

/// The tokens after a first `=`, where there is one.
fn body(tokens: &[Item]) -> &[Item]
    ensures { result.now ≡ answer.body tokens.now }
{
    match after(Mark::Equal, tokens) {
        None => tokens,
        Some(others) => others,
    }
}

/// The tree of a formula's tokens, where one is no deeper than 64.
pub fn parse(alloc: Global, tokens: &[Item]) -> Result<Expr, End>
    ensures tree { IfOk result (λ e. IsTreeOf 64 tokens.now e) }
    ensures refused { IfErr result (IsTooDeep tokens.now) }
{
    let (tree, _, rest) = line(alloc, Line::Chain, DEEPEST, body(tokens))?;
    if rest.is_empty() {
        Ok(tree)
    } else {
        Err(End::Refused)
    }
}
