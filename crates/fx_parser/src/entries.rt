//! Named formulas, one after another.
ghost use Rattle.std.specs.Prelude.{◌≡◌, ◌<◌, IfOk, IfErr, IfSome, length};
ghost use Rattle.fx_grammar.specs.Grammar as grammar;
ghost use Rattle.fx_grammar.specs.Formulas as formulas;
ghost use Rattle.fx_parser.specs.Entries.{AreCuts, entry_head, head_seen, next_of, next_seen};
ghost use Rattle.fx_parser.specs.Entries.{IsFirstFormula, AreThese, AreTooDeep};

use crate::descent::line;
use crate::descent_end::End;
use crate::formula::DEEPEST;
use fx_core::expr::Expr;
use fx_grammar::{Item, Join, Line, Meaning};
use fx_lexer::Symbol;
use fx_types::words::Words;
use std::alloc::Global;

/// A named formula.
#[derive(Drop)]
pub struct Named {
    pub name: Words,
    /// The byte where the formula's first token begins.
    pub at: u32,
    /// The formula's text, from there up to behind its last token.
    pub text: Words,
    pub expr: Expr,
}

/// The name of a named formula, and what follows its `=`.
fn head(tokens: &[Item]) -> Option<(&Words, &[Item])>
    ensures value { head_seen result ≡ entry_head tokens.now }
    ensures shorter { IfSome result (λ x. length x.1.now < length tokens.now) }
{
    match tokens {
        [x, y, others @ ..] => match (&x.meaning, &y.meaning) {
            (Meaning::Name(name), Meaning::Symbol(Symbol::Equal)) => Some((name, others)),
            _ => None,
        },
        _ => None,
    }
}

/// What follows a named formula: the end, or a `;` and others.
fn next(tokens: &[Item]) -> Option<&[Item]>
    ensures value { next_seen result ≡ next_of tokens.now }
{
    match tokens {
        [] => Some(tokens),
        [x, others @ ..] => match &x.meaning {
            Meaning::Symbol(Symbol::Semicolon) => Some(others),
            _ => None,
        },
    }
}

fn begin_of(tokens: &[Item]) -> u32
    ensures { result ≡ grammar.first_byte tokens.now }
{
    match tokens {
        [] => 0,
        [x, ..] => x.at,
    }
}

fn end_of(tokens: &[Item]) -> u32
    ensures { result ≡ formulas.end tokens.now }
{
    match tokens {
        [] => 0,
        [.., x] => x.upto,
    }
}

/// The first named formula, and the tokens of the others.
fn entry<'t>(alloc: Global, source: &str, tokens: &'t [Item]) -> Result<(Named, &'t [Item]), End>
    requires cuts { AreCuts source.now tokens.now }
    requires some { 0 < length tokens.now }
    ensures first { IfOk result (λ x. IsFirstFormula source.now tokens.now x.0 x.1.now) }
    ensures cuts { IfOk result (λ x. AreCuts source.now x.1.now) }
    ensures shorter { IfOk result (λ x. length x.1.now < length tokens.now) }
    ensures refused { IfErr result (AreTooDeep tokens.now) }
{
    let Some((name, body)) = head(tokens) else {
        return Err(End::Refused);
    };
    let (expr, _, rest) = line(alloc, Line::Several(Join::Or), DEEPEST, body)?;
    let Some(others) = next(rest) else {
        return Err(End::Refused);
    };
    let (formula, _) = body.split_at(body.len() - rest.len());
    let at = begin_of(formula);
    let text = &source[at as usize..end_of(formula) as usize];
    let named = Named {
        name: name.copy(alloc)?,
        at,
        text: Words::of(alloc, text)?,
        expr,
    };
    Ok((named, others))
}

/// The named formulas that the tokens are.
pub fn entries(alloc: Global, source: &str, tokens: &[Item]) -> Result<Vec<Named>, End>
    requires { AreCuts source.now tokens.now }
    ensures these { IfOk result (λ v. AreThese source.now tokens.now v.items) }
    ensures refused { IfErr result (AreTooDeep tokens.now) }
{
    let mut found = Vec::new(alloc);
    let mut rest = tokens;
    while !rest.is_empty() {
        let (named, others) = entry(alloc, source, rest)?;
        found.push(named)?;
        rest = others;
    }
    Ok(found)
}
