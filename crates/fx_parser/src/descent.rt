//! The descent: one function for each line of the grammar, each no deeper than its limit. Each
//! takes the tokens that are left and gives back those behind its tree, so that no proof follows
//! places in a list.
ghost use Rattle.std.specs.Prelude.{◌≡◌, ◌<◌, ◌≤◌, ◌-◌, ◌+◌, ◌^◌, IfOk, Some, IfSome, length};
ghost use Rattle.fx_core.specs.Tree.{Head};
ghost use Rattle.fx_grammar.specs.Grammar as grammar;
ghost use Rattle.fx_grammar.specs.Reading as read;
ghost use Rattle.fx_parser.specs.Answer.{ParserAnswers, parsed_view, strand_seen, fields_from};

use crate::descent_end::End;
use crate::front::{after, between, first, label_at, operator_at, part_of, place, sign_at, under};
use crate::operator_tails::{
    alias_behind, apply, dots, gather, global, percents, shut, sign_before,
};
use fx_core::expr::{Args, Expr, FieldName, Op, Parts};
use fx_core::make_expr;
use fx_grammar::{Item, Join, Left, Line, Mark, Meaning, Separator};
use fx_lexer::{Symbol, Word};
use std::alloc::Global;

/// A tree of this line.
#[cycle(descent)]
pub fn line<'t>(
    alloc: Global,
    line: Line,
    limit: u32,
    tokens: &'t [Item],
) -> Result<(Expr, u32, &'t [Item]), End>
    ensures gives { ParserAnswers parsed_view result (read.line_at limit line tokens.now) }
    ensures shallow { IfOk result (λ x. x.1 ≤ limit) }
    ensures shorter { IfOk result (λ x. length x.2.now < length tokens.now) }
{
    if limit == 0 {
        return Err(End::Refused);
    }
    match line {
        Line::Chain => chain(alloc, limit, tokens),
        Line::Several(join) => several(alloc, join, limit, tokens),
        Line::By(left) => by(alloc, left, limit, tokens),
        Line::Alias => alias(alloc, limit, tokens),
        Line::Prefix => prefix(alloc, limit, tokens),
        Line::Power => power(alloc, limit, tokens),
        Line::Percent => percent(alloc, limit, tokens),
        Line::Access => access(alloc, limit, tokens),
        Line::Atom => atom(alloc, limit, tokens),
    }
}

#[cycle(descent)]
fn chain<'t>(alloc: Global, limit: u32, tokens: &'t [Item]) -> Result<(Expr, u32, &'t [Item]), End>
    requires { 0 < limit }
    ensures gives { ParserAnswers parsed_view result (read.line_at limit Line.Chain tokens.now) }
    ensures shallow { IfOk result (λ x. x.1 ≤ limit) }
    ensures shorter { IfOk result (λ x. length x.2.now < length tokens.now) }
{
    let (tree, depth, rest) = several(alloc, Join::Chain, limit, tokens)?;
    match after(Mark::Semicolon, rest) {
        None => Ok((tree, depth, rest)),
        Some(others) => Ok((tree, depth, others)),
    }
}

/// Parts of which two or more make one node.
#[cycle(descent)]
fn several<'t>(
    alloc: Global,
    join: Join,
    limit: u32,
    tokens: &'t [Item],
) -> Result<(Expr, u32, &'t [Item]), End>
    requires { 0 < limit }
    ensures gives { ParserAnswers parsed_view result
        (read.line_at limit (Line.Several join) tokens.now) }
    ensures shallow { IfOk result (λ x. x.1 ≤ limit) }
    ensures shorter { IfOk result (λ x. length x.2.now < length tokens.now) }
{
    let (found, depth, rest) = parts(alloc, Separator::Between(join), limit, tokens)?;
    gather(limit, join, place(tokens), found, depth, rest)
}

/// One or more parts with separators between them.
#[cycle(descent)]
fn parts<'t>(
    alloc: Global,
    separator: Separator,
    limit: u32,
    tokens: &'t [Item],
) -> Result<(Args, u32, &'t [Item]), End>
    ensures gives { ParserAnswers parsed_view result
        (read.parts_with separator (read.line_at limit (grammar.part_of separator)) tokens.now) }
    ensures shallow { IfOk result (λ x. x.1 ≤ limit) }
    ensures shorter { IfOk result (λ x. length x.2.now < length tokens.now) }
{
    let inner = part_of(separator);
    let (first, depth, others) = line(alloc, inner, limit, tokens)?;
    let mut found = Args::new(alloc);
    found.push(first)?;
    let mut deepest = depth;
    let mut rest = others;
    while let Some(others) = between(separator, rest) {
        let (part, depth, others) = line(alloc, inner, limit, others)?;
        found.push(part)?;
        deepest = deepest.max(depth);
        rest = others;
    }
    Ok((found, deepest, rest))
}

/// A line that groups to the left.
#[cycle(descent)]
fn by<'t>(
    alloc: Global,
    left: Left,
    limit: u32,
    tokens: &'t [Item],
) -> Result<(Expr, u32, &'t [Item]), End>
    requires { 0 < limit }
    ensures gives { ParserAnswers parsed_view result (read.line_at limit (Line.By left) tokens.now) }
    ensures shallow { IfOk result (λ x. x.1 ≤ limit) }
    ensures shorter { IfOk result (λ x. length x.2.now < length tokens.now) }
{
    let at = place(tokens);
    let operand = under(left);
    let (first, depth, others) = line(alloc, operand, limit, tokens)?;
    let mut tree = first;
    let mut deepest = depth;
    let mut rest = others;
    while let Some((op, others)) = operator_at(left, rest) {
        let (right, depth, others) = line(alloc, operand, limit, others)?;
        deepest = deepest.max(depth);
        if deepest >= limit {
            return Err(End::Refused);
        }
        deepest += 1;
        tree = make_expr::pair(alloc, at, op, tree, right)?;
        rest = others;
    }
    Ok((tree, deepest, rest))
}

#[cycle(descent)]
fn alias<'t>(alloc: Global, limit: u32, tokens: &'t [Item]) -> Result<(Expr, u32, &'t [Item]), End>
    requires { 0 < limit }
    ensures gives { ParserAnswers parsed_view result (read.line_at limit Line.Alias tokens.now) }
    ensures shallow { IfOk result (λ x. x.1 ≤ limit) }
    ensures shorter { IfOk result (λ x. length x.2.now < length tokens.now) }
{
    let (tree, depth, rest) = prefix(alloc, limit, tokens)?;
    alias_behind(alloc, limit, place(tokens), tree, depth, rest)
}

#[cycle(descent)]
fn prefix<'t>(alloc: Global, limit: u32, tokens: &'t [Item]) -> Result<(Expr, u32, &'t [Item]), End>
    requires { 0 < limit }
    ensures gives { ParserAnswers parsed_view result (read.line_at limit Line.Prefix tokens.now) }
    ensures shallow { IfOk result (λ x. x.1 ≤ limit) }
    ensures shorter { IfOk result (λ x. length x.2.now < length tokens.now) }
{
    match sign_at(tokens) {
        None => power(alloc, limit, tokens),
        Some((sign, others)) => {
            let (part, depth, rest) = line(alloc, Line::Prefix, limit - 1, others)?;
            Ok((
                sign_before(alloc, sign, place(tokens), part)?,
                depth + 1,
                rest,
            ))
        }
    }
}

#[cycle(descent)]
fn power<'t>(alloc: Global, limit: u32, tokens: &'t [Item]) -> Result<(Expr, u32, &'t [Item]), End>
    requires { 0 < limit }
    ensures gives { ParserAnswers parsed_view result (read.line_at limit Line.Power tokens.now) }
    ensures shallow { IfOk result (λ x. x.1 ≤ limit) }
    ensures shorter { IfOk result (λ x. length x.2.now < length tokens.now) }
{
    let (tree, depth, rest) = percent(alloc, limit, tokens)?;
    match after(Mark::Caret, rest) {
        None => Ok((tree, depth, rest)),
        Some(others) => {
            let (up, height, rest) = line(alloc, Line::Prefix, limit - 1, others)?;
            if depth < limit {
                let tree = make_expr::pair(alloc, place(tokens), Op::Pow, tree, up)?;
                Ok((tree, depth.max(height) + 1, rest))
            } else {
                Err(End::Refused)
            }
        }
    }
}

#[cycle(descent)]
fn percent<'t>(
    alloc: Global,
    limit: u32,
    tokens: &'t [Item],
) -> Result<(Expr, u32, &'t [Item]), End>
    requires { 0 < limit }
    ensures gives { ParserAnswers parsed_view result (read.line_at limit Line.Percent tokens.now) }
    ensures shallow { IfOk result (λ x. x.1 ≤ limit) }
    ensures shorter { IfOk result (λ x. length x.2.now < length tokens.now) }
{
    let (tree, depth, rest) = access(alloc, limit, tokens)?;
    percents(alloc, limit, place(tokens), tree, depth, rest)
}

#[cycle(descent)]
fn access<'t>(alloc: Global, limit: u32, tokens: &'t [Item]) -> Result<(Expr, u32, &'t [Item]), End>
    requires { 0 < limit }
    ensures gives { ParserAnswers parsed_view result (read.line_at limit Line.Access tokens.now) }
    ensures shallow { IfOk result (λ x. x.1 ≤ limit) }
    ensures shorter { IfOk result (λ x. length x.2.now < length tokens.now) }
{
    let (tree, depth, rest) = atom(alloc, limit, tokens)?;
    dots(alloc, limit, place(tokens), tree, depth, rest)
}

#[cycle(descent)]
fn atom<'t>(alloc: Global, limit: u32, tokens: &'t [Item]) -> Result<(Expr, u32, &'t [Item]), End>
    requires { 0 < limit }
    ensures gives { ParserAnswers parsed_view result (read.line_at limit Line.Atom tokens.now) }
    ensures shallow { IfOk result (λ x. x.1 ≤ limit) }
    ensures shorter { IfOk result (λ x. length x.2.now < length tokens.now) }
{
    match first(tokens) {
        None => Err(End::Refused),
        Some((x, others)) => atom_of(alloc, limit, x, others),
    }
}

/// An atom that begins with this token.
#[cycle(descent)]
fn atom_of<'t>(
    alloc: Global,
    limit: u32,
    x: &Item,
    tokens: &'t [Item],
) -> Result<(Expr, u32, &'t [Item]), End>
    requires { 0 < limit }
    ensures gives { ParserAnswers parsed_view result
        (read.atom_by limit (read.line_at (limit - 1)) x.now tokens.now x.now.meaning) }
    ensures shallow { IfOk result (λ y. y.1 ≤ limit) }
    ensures shorter { IfOk result (λ y. length y.2.now ≤ length tokens.now) }
{
    match &x.meaning {
        Meaning::Number(value) => Ok((make_expr::number(x.at, *value), 1, tokens)),
        Meaning::Text(words) => Ok((make_expr::text(x.at, words.copy(alloc)?), 1, tokens)),
        Meaning::Name(name) => match after(Mark::OpenParen, tokens) {
            None => Ok((make_expr::name(x.at, name.copy(alloc)?), 1, tokens)),
            Some(inner) => call(alloc, limit, x, inner),
        },
        Meaning::Word(Word::True) => Ok((make_expr::truth(x.at, true), 1, tokens)),
        Meaning::Word(Word::False) => Ok((make_expr::truth(x.at, false), 1, tokens)),
        Meaning::Word(Word::And | Word::Or) => match after(Mark::OpenParen, tokens) {
            None => Err(End::Refused),
            Some(inner) => call(alloc, limit, x, inner),
        },
        Meaning::Symbol(symbol) => bracket(alloc, limit, x, *symbol, tokens),
        Meaning::Opening => weave(alloc, limit, x, tokens),
        _ => Err(End::Refused),
    }
}

/// A call of what this token names, whose opening bracket is read.
#[cycle(descent)]
fn call<'t>(
    alloc: Global,
    limit: u32,
    x: &Item,
    tokens: &'t [Item],
) -> Result<(Expr, u32, &'t [Item]), End>
    requires { 0 < limit }
    ensures gives { (h : Head) → grammar.callee x.now.meaning ≡ Some h
        → ParserAnswers parsed_view result (read.call_of x.now.at h
        (read.line_at (limit - 1) Line.Chain) tokens.now) }
    ensures shallow { IfOk result (λ y. y.1 ≤ limit) }
    ensures shorter { IfOk result (λ y. length y.2.now < length tokens.now) }
{
    let (found, depth, rest) = args(alloc, Mark::CloseParen, limit - 1, tokens)?;
    Ok((apply(alloc, x.at, &x.meaning, found)?, depth + 1, rest))
}

/// What a bracket opens, which is read.
#[cycle(descent)]
fn bracket<'t>(
    alloc: Global,
    limit: u32,
    x: &Item,
    symbol: Symbol,
    tokens: &'t [Item],
) -> Result<(Expr, u32, &'t [Item]), End>
    requires { 0 < limit }
    ensures gives { ParserAnswers parsed_view result
        (read.atom_by limit (read.line_at (limit - 1)) x.now tokens.now (Meaning.Symbol symbol)) }
    ensures shallow { IfOk result (λ y. y.1 ≤ limit) }
    ensures shorter { IfOk result (λ y. length y.2.now < length tokens.now) }
{
    match symbol {
        Symbol::OpenParen => {
            let (tree, depth, rest) = line(alloc, Line::Chain, limit - 1, tokens)?;
            Ok((tree, depth + 1, shut(Mark::CloseParen, rest)?))
        }
        Symbol::OpenBracket => {
            let (found, depth, rest) = args(alloc, Mark::CloseBracket, limit - 1, tokens)?;
            Ok((make_expr::list(x.at, found), depth + 1, rest))
        }
        Symbol::OpenBracketAt => global(alloc, x.at, tokens),
        Symbol::OpenBrace => {
            let (found, depth, rest) = fields(alloc, limit - 1, tokens)?;
            Ok((make_expr::record_of(x.at, found), depth + 1, rest))
        }
        _ => Err(End::Refused),
    }
}

/// Arguments up to this mark, with it.
#[cycle(descent)]
fn args<'t>(
    alloc: Global,
    mark: Mark,
    limit: u32,
    tokens: &'t [Item],
) -> Result<(Args, u32, &'t [Item]), End>
    ensures gives { ParserAnswers parsed_view result
        (read.args_with mark (read.line_at limit Line.Chain) tokens.now) }
    ensures shallow { IfOk result (λ x. x.1 ≤ limit) }
    ensures shorter { IfOk result (λ x. length x.2.now < length tokens.now) }
{
    match after(mark, tokens) {
        Some(rest) => Ok((Args::new(alloc), 0, rest)),
        None => {
            let (found, depth, rest) = parts(alloc, Separator::Comma, limit, tokens)?;
            Ok((found, depth, shut(mark, rest)?))
        }
    }
}

/// Fields up to the closing brace, with it.
#[cycle(descent)]
fn fields<'t>(
    alloc: Global,
    limit: u32,
    tokens: &'t [Item],
) -> Result<(Parts, u32, &'t [Item]), End>
    ensures gives { ParserAnswers parsed_view result
        (read.fields_with (read.line_at limit (Line.Several Join.Or)) tokens.now) }
    ensures shallow { IfOk result (λ x. x.1 ≤ limit) }
    ensures shorter { IfOk result (λ x. length x.2.now < length tokens.now) }
{
    match after(Mark::CloseBrace, tokens) {
        Some(rest) => Ok((Parts::new(alloc), 0, rest)),
        None => {
            let (found, depth, rest) = some_fields(alloc, limit, tokens)?;
            Ok((found, depth, shut(Mark::CloseBrace, rest)?))
        }
    }
}

/// One or more fields with commas between them.
#[cycle(descent)]
fn some_fields<'t>(
    alloc: Global,
    limit: u32,
    tokens: &'t [Item],
) -> Result<(Parts, u32, &'t [Item]), End>
    ensures gives { ParserAnswers parsed_view result
        (fields_from (read.line_at limit (Line.Several Join.Or)) tokens.now) }
    ensures shallow { IfOk result (λ x. x.1 ≤ limit) }
    ensures shorter { IfOk result (λ x. length x.2.now < length tokens.now) }
{
    let mut found = Parts::new(alloc);
    let (first, depth, others) = field(alloc, limit, tokens)?;
    found.push(first.0, first.1)?;
    let mut deepest = depth;
    let mut rest = others;
    while let Some(others) = after(Mark::Comma, rest) {
        let (next, depth, others) = field(alloc, limit, others)?;
        found.push(next.0, next.1)?;
        deepest = deepest.max(depth);
        rest = others;
    }
    Ok((found, deepest, rest))
}

#[cycle(descent)]
fn field<'t>(
    alloc: Global,
    limit: u32,
    tokens: &'t [Item],
) -> Result<((FieldName, Expr), u32, &'t [Item]), End>
    ensures gives { ParserAnswers parsed_view result
        (read.field_with (read.line_at limit (Line.Several Join.Or)) tokens.now) }
    ensures shallow { IfOk result (λ x. x.1 ≤ limit) }
    ensures shorter { IfOk result (λ x. length x.2.now < length tokens.now) }
{
    match label_at(tokens) {
        None => Err(End::Refused),
        Some((name, others)) => {
            let (tree, depth, rest) = line(alloc, Line::Several(Join::Or), limit, others)?;
            let name = FieldName {
                text: name.copy(alloc)?,
                at: place(tokens),
            };
            Ok(((name, tree), depth, rest))
        }
    }
}

/// The text of a weave up to its end, with it.
#[cycle(descent)]
fn weave<'t>(
    alloc: Global,
    limit: u32,
    x: &Item,
    tokens: &'t [Item],
) -> Result<(Expr, u32, &'t [Item]), End>
    requires { 0 < limit }
    ensures gives { ParserAnswers parsed_view result
        (read.atom_by limit (read.line_at (limit - 1)) x.now tokens.now Meaning.Opening) }
    ensures shallow { IfOk result (λ y. y.1 ≤ limit) }
    ensures shorter { IfOk result (λ y. length y.2.now < length tokens.now) }
{
    let mut found = Args::new(alloc);
    let mut deepest = 0u32;
    let mut rest = tokens;
    while let Some((part, depth, others)) = strand(alloc, limit - 1, rest)? {
        found.push(part)?;
        deepest = deepest.max(depth);
        rest = others;
    }
    let rest = shut(Mark::CloseWeave, rest)?;
    if deepest < limit {
        Ok((make_expr::weave(x.at, found), deepest + 1, rest))
    } else {
        Err(End::Refused)
    }
}

/// A piece of text or an island, where one stands at the front.
#[cycle(descent)]
fn strand<'t>(
    alloc: Global,
    limit: u32,
    tokens: &'t [Item],
) -> Result<Option<(Expr, u32, &'t [Item])>, End>
    ensures gives { ParserAnswers strand_seen result
        (read.strand_at (read.line_at limit Line.Chain) tokens.now) }
    ensures shallow { IfOk result (λ o. IfSome o (λ x. x.1 ≤ limit + 1)) }
    ensures shorter { IfOk result (λ o. IfSome o (λ x. length x.2.now < length tokens.now)) }
{
    match first(tokens) {
        None => Ok(None),
        Some((x, others)) => strand_of(alloc, limit, x, others),
    }
}

/// A piece of text or an island, where this token begins one.
#[cycle(descent)]
fn strand_of<'t>(
    alloc: Global,
    limit: u32,
    x: &Item,
    tokens: &'t [Item],
) -> Result<Option<(Expr, u32, &'t [Item])>, End>
    ensures gives { ParserAnswers strand_seen result
        (read.strand_by (read.line_at limit Line.Chain) x.now tokens.now x.now.meaning) }
    ensures shallow { IfOk result (λ o. IfSome o (λ y. y.1 ≤ limit + 1)) }
    ensures shorter { IfOk result (λ o. IfSome o (λ y. length y.2.now ≤ length tokens.now)) }
{
    match &x.meaning {
        Meaning::Piece(words) => Ok(Some((make_expr::text(x.at, words.copy(alloc)?), 1, tokens))),
        Meaning::Symbol(Symbol::OpenBrace) => {
            let (tree, depth, rest) = line(alloc, Line::Chain, limit, tokens)?;
            Ok(Some((tree, depth, shut(Mark::CloseBrace, rest)?)))
        }
        _ => Ok(None),
    }
}
