//! What stands behind a tree that is read, and what is made of it. None of it calls a line of the
//! grammar, so it stands outside of the recursion.
ghost use Rattle.std.specs.Prelude.{◌≡◌, ◌<◌, ◌≤◌, ◌+◌, ◌-◌, ◌^◌, IfOk, length, Some};
ghost use Rattle.fx_core.specs.Tree.{Head, node, forest, more, none};
ghost use Rattle.fx_core.specs.Tree as tree;
ghost use Rattle.fx_grammar.specs.Grammar as grammar;
ghost use Rattle.fx_grammar.specs.Reading as read;
ghost use Rattle.fx_parser.specs.Answer.{ParserAnswers, parsed_view, sign_head};

use crate::descent_end::End;
use crate::front::{Sign, after, name_after, name_at};
use fx_base::Memory;
use fx_core::expr::{Args, Expr};
use fx_core::make_expr;
use fx_grammar::{Item, Join, Mark, Meaning};
use fx_lexer::Word;
use std::alloc::Global;

/// Fields behind a tree.
pub fn dots<'t>(
    alloc: Global,
    limit: u32,
    at: u32,
    part: Expr,
    depth: u32,
    tokens: &'t [Item],
) -> Result<(Expr, u32, &'t [Item]), End>
    requires { depth ≤ limit }
    ensures gives { ParserAnswers parsed_view result
        (read.loop_from (read.tail_turn limit at read.field_in_front) (part, depth, tokens.now)) }
    ensures shallow { IfOk result (λ x. x.1 ≤ limit) }
    ensures shorter { IfOk result (λ x. length x.2.now ≤ length tokens.now) }
{
    let mut tree = part;
    let mut deepest = depth;
    let mut rest = tokens;
    while let Some((name, others)) = name_after(Mark::Dot, rest) {
        if deepest >= limit {
            return Err(End::Refused);
        }
        deepest += 1;
        let name = name.copy(alloc)?;
        tree = make_expr::dot(alloc, at, tree, name)?;
        rest = others;
    }
    Ok((tree, deepest, rest))
}

/// `%` behind a tree.
pub fn percents<'t>(
    alloc: Global,
    limit: u32,
    at: u32,
    part: Expr,
    depth: u32,
    tokens: &'t [Item],
) -> Result<(Expr, u32, &'t [Item]), End>
    requires { depth ≤ limit }
    ensures gives { ParserAnswers parsed_view result
        (read.loop_from (read.tail_turn limit at read.percent_at) (part, depth, tokens.now)) }
    ensures shallow { IfOk result (λ x. x.1 ≤ limit) }
    ensures shorter { IfOk result (λ x. length x.2.now ≤ length tokens.now) }
{
    let mut tree = part;
    let mut deepest = depth;
    let mut rest = tokens;
    while let Some(others) = after(Mark::Percent, rest) {
        if deepest >= limit {
            return Err(End::Refused);
        }
        deepest += 1;
        tree = make_expr::percentage(alloc, at, tree)?;
        rest = others;
    }
    Ok((tree, deepest, rest))
}

/// Maybe `As` and a name behind a tree.
pub fn alias_behind<'t>(
    alloc: Global,
    limit: u32,
    at: u32,
    part: Expr,
    depth: u32,
    tokens: &'t [Item],
) -> Result<(Expr, u32, &'t [Item]), End>
    requires { depth ≤ limit }
    ensures gives { ParserAnswers parsed_view result
        (read.aliased_by limit at (part, depth, tokens.now) (read.alias_at tokens.now)) }
    ensures shallow { IfOk result (λ x. x.1 ≤ limit) }
    ensures shorter { IfOk result (λ x. length x.2.now ≤ length tokens.now) }
{
    match name_after(Mark::As, tokens) {
        None => Ok((part, depth, tokens)),
        Some((name, rest)) => {
            if depth < limit {
                let tree = make_expr::alias(alloc, at, part, name.copy(alloc)?)?;
                Ok((tree, depth + 1, rest))
            } else {
                Err(End::Refused)
            }
        }
    }
}

/// After something inner its closing mark stands.
pub fn shut(mark: Mark, tokens: &[Item]) -> Result<&[Item], End>
    ensures gives { ParserAnswers (λ x. x.now) result (read.after_mark mark tokens.now) }
    ensures shorter { IfOk result (λ x. length x.now < length tokens.now) }
{
    match after(mark, tokens) {
        None => Err(End::Refused),
        Some(rest) => Ok(rest),
    }
}

/// `[@`, a name and `]`, of which the first is read.
pub fn global<'t>(
    alloc: Global,
    at: u32,
    tokens: &'t [Item],
) -> Result<(Expr, u32, &'t [Item]), End>
    ensures gives { ParserAnswers parsed_view result (read.read_global at tokens.now) }
    ensures shallow { IfOk result (λ x. x.1 ≡ 1) }
    ensures shorter { IfOk result (λ x. length x.2.now < length tokens.now) }
{
    match name_at(tokens) {
        None => Err(End::Refused),
        Some((name, others)) => {
            let name = name.copy(alloc)?;
            let rest = shut(Mark::CloseBracket, others)?;
            Ok((make_expr::global_name(at, name), 1, rest))
        }
    }
}

/// A call of what this token names.
pub fn apply(alloc: Global, at: u32, meaning: &Meaning, parts: Args) -> Result<Expr, Memory>
    ensures { (h : Head) → grammar.callee meaning.now ≡ Some h
        → IfOk result (λ e. e ≡ node at h (forest parts)) }
{
    match meaning {
        Meaning::Name(name) => Ok(make_expr::call(at, name.copy(alloc)?, parts)),
        Meaning::Word(Word::And) => Ok(make_expr::all_of(at, parts)),
        _ => Ok(make_expr::any_of(at, parts)),
    }
}

/// The node of two or more parts.
fn joint(join: Join, at: u32, parts: Args) -> Expr
    ensures { result ≡ node at (grammar.join_head join) (forest parts) }
{
    match join {
        Join::Chain => make_expr::chain(at, parts),
        Join::Or => make_expr::any_of(at, parts),
        Join::And => make_expr::all_of(at, parts),
        Join::Cat => make_expr::join(at, parts),
    }
}

/// Two or more parts are one node, one part is itself.
pub fn gather<'t>(
    limit: u32,
    join: Join,
    at: u32,
    parts: Args,
    depth: u32,
    rest: &'t [Item],
) -> Result<(Expr, u32, &'t [Item]), End>
    requires { depth ≤ limit }
    ensures gives { ParserAnswers parsed_view result
        (read.gathered limit (grammar.join_head join) at (parts, depth, rest.now)) }
    ensures shallow { IfOk result (λ x. x.1 ≤ limit) }
    ensures rest { IfOk result (λ x. x.2.now ≡ rest.now) }
{
    if parts.len() < 2 {
        match parts.into_items().pop() {
            None => Err(End::Refused),
            Some(part) => Ok((part, depth, rest)),
        }
    } else if depth < limit {
        Ok((joint(join, at, parts), depth + 1, rest))
    } else {
        Err(End::Refused)
    }
}

/// A sign before a tree.
pub fn sign_before(alloc: Global, sign: Sign, at: u32, part: Expr) -> Result<Expr, Memory>
    ensures { IfOk result (λ e. e ≡ node at (sign_head sign) (more part none)) }
{
    match sign {
        Sign::Minus => make_expr::negate(alloc, at, part),
        Sign::Not => make_expr::invert(alloc, at, part),
    }
}
