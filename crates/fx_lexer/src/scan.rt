//! The longest spelling at the front of a text.
ghost use Rattle.std.specs.Prelude.{◌≡◌, ◌+◌, ◌≤◌, Option, length, IfSome};
ghost use Rattle.fx_lexer.specs.Scan.{run_length, passes, decimals, number_run, open_run};
ghost use Rattle.fx_lexer.specs.Scan.{comment_run, weave_run, word_at, symbol_at, one_or_two};
ghost use Rattle.fx_lexer.specs.Scan.{less_at, bar_at, slash_at, other_at, name_scanned};
ghost use Rattle.fx_lexer.specs.Scan.{formula_at, mark_scanned, weave_at, element_at, text_seen};
ghost use Rattle.fx_lexer.specs.Scan.{quoted_seen};
ghost use Rattle.fx_lexer.specs.Spelling.{begins_with};

use crate::element::{Class, Element, Mode, Run, class_of, is_in, is_weave_mark};
use crate::token::{Symbol, TokenKind, Word};

/// An element and how many characters it has.
type Seen = Option<(Element, usize)>;

fn seen_token(kind: TokenKind, length: usize) -> Seen
    ensures { result ≡ Some (Element.Token kind, length) }
{
    Some((Element::Token(kind), length))
}

/// How many characters at the front are of this run.
#[tactic(auto, using(crate::proofs::Steps::run_more, crate::proofs::Steps::run_end))]
fn run_length(of: Run, cs: &[char]) -> usize
    ensures value { result ≡ run_length (passes of) cs.now }
    ensures within { result ≤ length cs.now }
{
    let mut n = 0;
    for c in cs {
        if !is_in(of, *c) {
            return n;
        }
        n += 1;
    }
    n
}

fn begins_with(cs: &[char], x: char) -> bool
    ensures { result ≡ begins_with x cs.now }
{
    match cs {
        [] => false,
        [c, ..] => *c == x,
    }
}

/// The point and the digits after it, where both are there.
fn decimals_length(cs: &[char]) -> usize
    ensures value { result ≡ decimals cs.now }
    ensures within { result ≤ length cs.now }
{
    match cs {
        ['.', others @ ..] => match run_length(Run::Digits, others) {
            0 => 0,
            n => n + 1,
        },
        _ => 0,
    }
}

/// What follows a number's first digit.
#[tactic(auto, using(crate::proofs::Steps::number_parts))]
fn number_length(cs: &[char]) -> usize
    ensures value { result ≡ number_run cs.now }
    ensures within { result ≤ length cs.now }
{
    let n = run_length(Run::Digits, cs);
    let (_, others) = cs.split_at(n);
    n + decimals_length(others)
}

/// What follows an opening quote, with the closing quote: one that no quote follows.
#[tactic(auto, using(crate::proofs::Steps::open_more, crate::proofs::Steps::open_end, crate::proofs::Steps::closed_more, crate::proofs::Steps::closed_end))]
fn quoted_length(quote: char, cs: &[char]) -> Option<usize>
    ensures value { result ≡ open_run quote cs.now }
    ensures within { IfSome result (λ n. n ≤ length cs.now) }
{
    let mut n = 0;
    let mut closed = false;
    for c in cs {
        if *c == quote {
            closed = !closed;
        } else if closed {
            return Some(n);
        }
        n += 1;
    }
    if closed { Some(n) } else { None }
}

/// What follows `/*`, with the next `*/`.
fn comment_length(cs: &[char]) -> Option<usize>
    ensures value { result ≡ comment_run cs.now }
    ensures within { IfSome result (λ n. n ≤ length cs.now) }
{
    let mut rest = cs;
    let mut n = 0;
    while let [c, others @ ..] = rest {
        if *c == '*' && begins_with(others, '/') {
            return Some(n + 2);
        }
        n += 1;
        rest = others;
    }
    None
}

/// What comes in a weave's text before the next mark that stands for itself.
fn piece_length(cs: &[char]) -> usize
    ensures value { result ≡ weave_run cs.now }
    ensures within { result ≤ length cs.now }
{
    let mut rest = cs;
    let mut n = 0;
    while let [c, others @ ..] = rest {
        if !is_weave_mark(*c) {
            n += 1;
            rest = others;
            continue;
        }
        match others {
            [d, others @ ..] if *d == *c => {
                n += 2;
                rest = others;
            }
            _ => return n,
        }
    }
    n
}

fn word_of(name: &[char]) -> Option<Word>
    ensures { result ≡ word_at name.now }
{
    match name {
        ['O', 'r'] => Some(Word::Or),
        ['i', 'n'] => Some(Word::In),
        ['A', 's'] => Some(Word::As),
        ['A', 'n', 'd'] => Some(Word::And),
        ['N', 'o', 't'] => Some(Word::Not),
        ['t', 'r', 'u', 'e'] => Some(Word::True),
        ['f', 'a', 'l', 's', 'e'] => Some(Word::False),
        ['e', 'x', 'a', 'c', 't', 'i', 'n'] => Some(Word::ExactIn),
        _ => None,
    }
}

/// The long symbol where `x` follows, else the short one.
fn short_or_long(short: Symbol, long: Symbol, x: char, others: &[char]) -> Option<(Symbol, usize)>
    ensures { result ≡ one_or_two short long x others.now }
{
    if begins_with(others, x) {
        Some((long, 2))
    } else {
        Some((short, 1))
    }
}

fn less_of(others: &[char]) -> Option<(Symbol, usize)>
    ensures { result ≡ less_at others.now }
{
    if begins_with(others, '=') {
        Some((Symbol::LessEqual, 2))
    } else {
        short_or_long(Symbol::Less, Symbol::NotEqual, '>', others)
    }
}

fn bar_of(others: &[char]) -> Option<(Symbol, usize)>
    ensures { result ≡ bar_at others.now }
{
    if begins_with(others, '|') {
        Some((Symbol::DoubleBar, 2))
    } else {
        None
    }
}

fn symbol_of(first: char, others: &[char]) -> Option<(Symbol, usize)>
    ensures { result ≡ symbol_at first others.now }
{
    match first {
        '(' => Some((Symbol::OpenParen, 1)),
        ')' => Some((Symbol::CloseParen, 1)),
        '{' => Some((Symbol::OpenBrace, 1)),
        '}' => Some((Symbol::CloseBrace, 1)),
        '[' => short_or_long(Symbol::OpenBracket, Symbol::OpenBracketAt, '@', others),
        ']' => Some((Symbol::CloseBracket, 1)),
        ',' => Some((Symbol::Comma, 1)),
        ';' => Some((Symbol::Semicolon, 1)),
        ':' => Some((Symbol::Colon, 1)),
        '.' => Some((Symbol::Dot, 1)),
        '+' => Some((Symbol::Plus, 1)),
        '-' => Some((Symbol::Minus, 1)),
        '*' => Some((Symbol::Star, 1)),
        '^' => Some((Symbol::Caret, 1)),
        '%' => Some((Symbol::Percent, 1)),
        '&' => short_or_long(Symbol::Ampersand, Symbol::DoubleAmpersand, '&', others),
        '|' => bar_of(others),
        '!' => Some((Symbol::Bang, 1)),
        '=' => Some((Symbol::Equal, 1)),
        '<' => less_of(others),
        '>' => short_or_long(Symbol::Greater, Symbol::GreaterEqual, '=', others),
        _ => None,
    }
}

/// After `/`.
fn slash_of(others: &[char]) -> Seen
    ensures { result ≡ slash_at others.now }
{
    match others {
        ['/', line @ ..] => Some((Element::Skip, 2 + run_length(Run::Line, line))),
        ['*', comment @ ..] => match comment_length(comment) {
            Some(n) => Some((Element::Skip, 2 + n)),
            None => None,
        },
        _ => seen_token(TokenKind::Symbol(Symbol::Slash), 1),
    }
}

/// After `"`.
fn text_of(others: &[char]) -> Seen
    ensures { result ≡ text_seen (open_run 34 others.now) }
{
    match quoted_length('"', others) {
        Some(n) => seen_token(TokenKind::Text, 1 + n),
        None => None,
    }
}

/// After `'`. A quoted name is not empty.
fn quoted_name_of(others: &[char]) -> Seen
    ensures { result ≡ quoted_seen (open_run 39 others.now) }
{
    match quoted_length('\'', others) {
        Some(n) if n > 1 => seen_token(TokenKind::Name, 1 + n),
        _ => None,
    }
}

fn other_of(first: char, others: &[char]) -> Seen
    ensures { result ≡ other_at first others.now }
{
    if first == '"' {
        text_of(others)
    } else if first == '\'' {
        quoted_name_of(others)
    } else if first == '/' {
        slash_of(others)
    } else if first == '$' {
        if begins_with(others, '"') {
            seen_token(TokenKind::Opening, 2)
        } else {
            None
        }
    } else {
        match symbol_of(first, others) {
            Some((symbol, n)) => seen_token(TokenKind::Symbol(symbol), n),
            None => None,
        }
    }
}

/// A name or a word.
fn name_of(cs: &[char], n: usize) -> Seen
    requires { n ≤ length cs.now }
    ensures { result ≡ name_scanned cs.now n }
{
    let (name, _) = cs.split_at(n);
    match word_of(name) {
        Some(word) => seen_token(TokenKind::Word(word), n),
        None => seen_token(TokenKind::Name, n),
    }
}

fn in_formula(cs: &[char]) -> Seen
    ensures { result ≡ formula_at cs.now }
{
    match cs {
        [] => None,
        [c, others @ ..] => match class_of(*c) {
            Class::White => Some((Element::Skip, 1)),
            Class::Digit => seen_token(TokenKind::Number, 1 + number_length(others)),
            Class::Letter => name_of(cs, 1 + run_length(Run::Name, others)),
            Class::Other => other_of(*c, others),
        },
    }
}

/// At a mark that stands for itself.
fn mark_of(cs: &[char]) -> Seen
    ensures { result ≡ mark_scanned cs.now }
{
    match cs {
        ['"', ..] => seen_token(TokenKind::Closing, 1),
        ['{', ..] => seen_token(TokenKind::Symbol(Symbol::OpenBrace), 1),
        _ => None,
    }
}

fn in_weave(cs: &[char]) -> Seen
    ensures { result ≡ weave_at cs.now }
{
    match piece_length(cs) {
        0 => mark_of(cs),
        n => seen_token(TokenKind::Piece, n),
    }
}

pub fn longest(mode: Mode, cs: &[char]) -> Seen
    ensures { result ≡ element_at mode cs.now }
{
    match mode {
        Mode::Formula => in_formula(cs),
        Mode::Weave => in_weave(cs),
    }
}
