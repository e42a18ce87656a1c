ghost use Rattle.std.specs.Prelude.{◌≡◌, ℕ, List, IfOk, IfErr};
ghost use Rattle.fx_grammar.specs.Formulas.{HasTree};
ghost use Rattle.fx_parser.specs.SameTree.{unplaced};
ghost use Rattle.fx_parser.specs.ReadBack.{MayEnd};

use crate::write::print;
use crate::{ParseEnd, parse_formula};
use fx_base::Memory;
use fx_core::expr::Expr;
use std::alloc::Global;

/// Why a formula is not read back.
#[derive(Clone, Copy)]
pub enum ReadBackEnd {
    /// Its text has 2^32 bytes or more.
    TooLong,
    /// Its text is refused.
    Parse(ParseEnd),
}

/// Prints a formula and parses its text. Where a parse gave the formula, this gives it again, up to
/// positions; its text is refused only where it is deeper than 64, too long, or where memory is
/// wanting.
pub fn read_back(alloc: Global, expr: &Expr) -> Result<Expr, ReadBackEnd>
    ensures same_tree { IfOk result (λ e. (n : ℕ) (cs : List ℕ) → HasTree n cs expr.now
        → unplaced e ≡ unplaced expr.now) }
    ensures end { IfErr result (λ end. (n : ℕ) (cs : List ℕ) → HasTree n cs expr.now
        → MayEnd expr.now end) }
{
    let text = match print(alloc, expr) {
        Ok(text) => text,
        Err(Memory) => return Err(ReadBackEnd::Parse(ParseEnd::Memory)),
    };
    let source = text.as_str();
    // Places in a text are numbers of 32 bits.
    if source.len() >= 4_294_967_296 {
        return Err(ReadBackEnd::TooLong);
    }
    match parse_formula(alloc, source) {
        Ok(tree) => Ok(tree),
        Err(end) => Err(ReadBackEnd::Parse(end)),
    }
}
