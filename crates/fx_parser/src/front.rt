//! What stands at the front of the tokens.
ghost use Rattle.std.specs.Prelude.{◌≡◌, ◌<◌, Option, IfSome, option_map, length};
ghost use Rattle.fx_grammar.specs.Grammar as grammar;
ghost use Rattle.fx_grammar.specs.Reading as read;
ghost use Rattle.fx_parser.specs.Answer.{label_found, rest_of, name_found, sign_found, first_token};
ghost use Rattle.fx_parser.specs.Answer.{first_seen};

use fx_core::expr::Op;
use fx_grammar::{Item, Join, Left, Line, Mark, Meaning, Separator};
use fx_lexer::{Symbol, Word};
use fx_types::words::Words;

/// What turns the value behind it.
#[derive(Clone, Copy)]
pub enum Sign {
    Minus,
    Not,
}

/// Where the tokens begin, or 0 where there are none.
pub fn place(tokens: &[Item]) -> u32
    ensures { result ≡ grammar.first_byte tokens.now }
{
    match tokens {
        [] => 0,
        [x, ..] => x.at,
    }
}

/// The first token, and those after it.
pub fn first(tokens: &[Item]) -> Option<(&Item, &[Item])>
    ensures value { first_seen result ≡ first_token tokens.now }
    ensures shorter { IfSome result (λ x. length x.1.now < length tokens.now) }
{
    match tokens {
        [] => None,
        [x, others @ ..] => Some((x, others)),
    }
}

/// The operator of this line.
fn operator_of(left: Left, meaning: &Meaning) -> Option<Op>
    ensures { result ≡ grammar.operator left meaning.now }
{
    match (left, meaning) {
        (Left::Member, Meaning::Word(Word::In)) => Some(Op::In),
        (Left::Member, Meaning::Word(Word::ExactIn)) => Some(Op::ExactIn),
        (Left::Comp, Meaning::Symbol(Symbol::Equal)) => Some(Op::Eq),
        (Left::Comp, Meaning::Symbol(Symbol::NotEqual)) => Some(Op::Ne),
        (Left::Comp, Meaning::Symbol(Symbol::Less)) => Some(Op::Lt),
        (Left::Comp, Meaning::Symbol(Symbol::LessEqual)) => Some(Op::Le),
        (Left::Comp, Meaning::Symbol(Symbol::Greater)) => Some(Op::Gt),
        (Left::Comp, Meaning::Symbol(Symbol::GreaterEqual)) => Some(Op::Ge),
        (Left::Sum, Meaning::Symbol(Symbol::Plus)) => Some(Op::Add),
        (Left::Sum, Meaning::Symbol(Symbol::Minus)) => Some(Op::Sub),
        (Left::Prod, Meaning::Symbol(Symbol::Star)) => Some(Op::Mul),
        (Left::Prod, Meaning::Symbol(Symbol::Slash)) => Some(Op::Div),
        _ => None,
    }
}

fn is_mark(mark: Mark, meaning: &Meaning) -> bool
    ensures { result ≡ read.is_this_mark mark meaning.now }
{
    match (mark, meaning) {
        (Mark::OpenParen, Meaning::Symbol(Symbol::OpenParen)) => true,
        (Mark::CloseParen, Meaning::Symbol(Symbol::CloseParen)) => true,
        (Mark::CloseBracket, Meaning::Symbol(Symbol::CloseBracket)) => true,
        (Mark::CloseBrace, Meaning::Symbol(Symbol::CloseBrace)) => true,
        (Mark::CloseWeave, Meaning::Closing) => true,
        (Mark::Comma, Meaning::Symbol(Symbol::Comma)) => true,
        (Mark::Colon, Meaning::Symbol(Symbol::Colon)) => true,
        (Mark::Semicolon, Meaning::Symbol(Symbol::Semicolon)) => true,
        (Mark::Dot, Meaning::Symbol(Symbol::Dot)) => true,
        (Mark::Percent, Meaning::Symbol(Symbol::Percent)) => true,
        (Mark::Caret, Meaning::Symbol(Symbol::Caret)) => true,
        (Mark::Equal, Meaning::Symbol(Symbol::Equal)) => true,
        (Mark::As, Meaning::Word(Word::As)) => true,
        _ => false,
    }
}

/// The tokens after this mark, where it is at the front.
pub fn after(mark: Mark, tokens: &[Item]) -> Option<&[Item]>
    ensures value { rest_of result ≡ read.after_mark mark tokens.now }
    ensures shorter { IfSome result (λ x. length x.now < length tokens.now) }
{
    match tokens {
        [] => None,
        [x, others @ ..] => {
            if is_mark(mark, &x.meaning) {
                Some(others)
            } else {
                None
            }
        }
    }
}

/// The name at the front, and the tokens after it.
pub fn name_at(tokens: &[Item]) -> Option<(&Words, &[Item])>
    ensures value { name_found result ≡ read.name_in_front tokens.now }
    ensures shorter { IfSome result (λ x. length x.1.now < length tokens.now) }
{
    match tokens {
        [] => None,
        [x, others @ ..] => match &x.meaning {
            Meaning::Name(name) => Some((name, others)),
            _ => None,
        },
    }
}

/// The name behind this mark, and the tokens after it.
pub fn name_after(mark: Mark, tokens: &[Item]) -> Option<(&Words, &[Item])>
    ensures value { name_found result ≡ read.name_after mark tokens.now }
    ensures shorter { IfSome result (λ x. length x.1.now < length tokens.now) }
{
    match after(mark, tokens) {
        None => None,
        Some(others) => name_at(others),
    }
}

/// The name of a field, and the tokens after its colon.
pub fn label_at(tokens: &[Item]) -> Option<(&Words, &[Item])>
    ensures value { label_found tokens.now result ≡ read.label_at tokens.now }
    ensures shorter { IfSome result (λ x. length x.1.now < length tokens.now) }
{
    match name_at(tokens) {
        None => None,
        Some((name, others)) => match after(Mark::Colon, others) {
            None => None,
            Some(rest) => Some((name, rest)),
        },
    }
}

/// No part of a chain begins here.
fn closes(tokens: &[Item]) -> bool
    ensures { result ≡ read.closes tokens.now }
{
    match tokens {
        [] => true,
        [x, ..] => matches!(
            &x.meaning,
            Meaning::Symbol(
                Symbol::CloseParen | Symbol::CloseBracket | Symbol::CloseBrace | Symbol::Comma
            )
        ),
    }
}

fn separates(separator: Separator, meaning: &Meaning) -> bool
    ensures { result ≡ grammar.separates separator meaning.now }
{
    match (separator, meaning) {
        (Separator::Between(Join::Chain), Meaning::Symbol(Symbol::Semicolon)) => true,
        (Separator::Between(Join::Or), Meaning::Symbol(Symbol::DoubleBar)) => true,
        (Separator::Between(Join::Or), Meaning::Word(Word::Or)) => true,
        (Separator::Between(Join::And), Meaning::Symbol(Symbol::DoubleAmpersand)) => true,
        (Separator::Between(Join::And), Meaning::Word(Word::And)) => true,
        (Separator::Between(Join::Cat), Meaning::Symbol(Symbol::Ampersand)) => true,
        (Separator::Comma, Meaning::Symbol(Symbol::Comma)) => true,
        _ => false,
    }
}

fn skip_separator(separator: Separator, tokens: &[Item]) -> Option<&[Item]>
    ensures value { rest_of result ≡ read.after_separator separator tokens.now }
    ensures shorter { IfSome result (λ x. length x.now < length tokens.now) }
{
    match tokens {
        [] => None,
        [x, others @ ..] => {
            if separates(separator, &x.meaning) {
                Some(others)
            } else {
                None
            }
        }
    }
}

fn skip_semicolon(tokens: &[Item]) -> Option<&[Item]>
    ensures value { rest_of result ≡ read.between (Separator.Between Join.Chain) tokens.now }
    ensures shorter { IfSome result (λ x. length x.now < length tokens.now) }
{
    match skip_separator(Separator::Between(Join::Chain), tokens) {
        None => None,
        Some(others) => { if closes(others) { None } else { Some(others) } }
    }
}

/// The tokens after a separator behind which another part stands.
pub fn between(separator: Separator, tokens: &[Item]) -> Option<&[Item]>
    ensures value { rest_of result ≡ read.between separator tokens.now }
    ensures shorter { IfSome result (λ x. length x.now < length tokens.now) }
{
    match separator {
        Separator::Between(Join::Chain) => skip_semicolon(tokens),
        _ => skip_separator(separator, tokens),
    }
}

/// The operator at the front, and the tokens after it.
pub fn operator_at(left: Left, tokens: &[Item]) -> Option<(Op, &[Item])>
    ensures value { option_map (λ x. (x.0, x.1.now)) result ≡ read.operator_at left tokens.now }
    ensures shorter { IfSome result (λ x. length x.1.now < length tokens.now) }
{
    match tokens {
        [] => None,
        [x, others @ ..] => match operator_of(left, &x.meaning) {
            None => None,
            Some(op) => Some((op, others)),
        },
    }
}

/// The line of the operands.
pub fn under(left: Left) -> Line
    ensures { result ≡ grammar.operand_line left }
{
    match left {
        Left::Member => Line::By(Left::Comp),
        Left::Comp => Line::Several(Join::Cat),
        Left::Sum => Line::By(Left::Prod),
        Left::Prod => Line::Alias,
    }
}

/// The line of the parts.
pub fn part_of(separator: Separator) -> Line
    ensures { result ≡ grammar.part_of separator }
{
    match separator {
        Separator::Between(Join::Chain) => Line::Several(Join::Or),
        Separator::Between(Join::Or) => Line::Several(Join::And),
        Separator::Between(Join::And) => Line::By(Left::Member),
        Separator::Between(Join::Cat) => Line::By(Left::Sum),
        Separator::Comma => Line::Chain,
    }
}

/// The sign at the front, and the tokens after it.
pub fn sign_at(tokens: &[Item]) -> Option<(Sign, &[Item])>
    ensures value { sign_found result ≡ read.sign_at tokens.now }
    ensures shorter { IfSome result (λ x. length x.1.now < length tokens.now) }
{
    match tokens {
        [] => None,
        [x, others @ ..] => match &x.meaning {
            Meaning::Symbol(Symbol::Minus) => Some((Sign::Minus, others)),
            Meaning::Symbol(Symbol::Bang) => Some((Sign::Not, others)),
            Meaning::Word(Word::Not) => Some((Sign::Not, others)),
            _ => None,
        },
    }
}
