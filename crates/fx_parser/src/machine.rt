//! The step that a token makes.
ghost use Rattle.std.specs.Prelude.{◌≡◌, reverse, IfOk, Bool};
ghost use Rattle.fx_parser.specs.Machine.{begin_of, follow_of, or_move, operand, emptied, closed};
ghost use Rattle.fx_parser.specs.Machine.{semicolon, behind_alias, behind_percent, behind_access};
ghost use Rattle.fx_parser.specs.Machine.{behind_name, follow_move, name_then, bracket_then};
ghost use Rattle.fx_parser.specs.Machine.{brace_then, equal_then, colon, strand, turn, top};
ghost use Rattle.fx_parser.specs.Machine.{place_moved, with_stack, ends};

use crate::state::{Begin, Follow, Frame, Move, State, Whole};
use fx_base::Memory;
use fx_grammar::Meaning;
use fx_lexer::{Symbol, Word};

fn begin_kind(meaning: &Meaning) -> Begin
    ensures { result ≡ begin_of meaning.now }
{
    match meaning {
        Meaning::Number(_) | Meaning::Text(_) => Begin::Leaf,
        Meaning::Word(Word::True | Word::False) => Begin::Leaf,
        Meaning::Name(_) => Begin::Name,
        Meaning::Word(Word::And | Word::Or) => Begin::Callee,
        Meaning::Word(Word::Not) | Meaning::Symbol(Symbol::Minus | Symbol::Bang) => Begin::Sign,
        Meaning::Symbol(Symbol::OpenParen) => Begin::Group,
        Meaning::Symbol(Symbol::OpenBracket) => Begin::List,
        Meaning::Symbol(Symbol::OpenBracketAt) => Begin::Global,
        Meaning::Symbol(Symbol::OpenBrace) => Begin::Record,
        Meaning::Opening => Begin::Weave,
        _ => Begin::Nothing,
    }
}

fn symbol_following(symbol: Symbol) -> Follow
    ensures { result ≡ follow_of (Meaning.Symbol symbol) }
{
    match symbol {
        Symbol::OpenParen => Follow::Call,
        Symbol::Dot => Follow::Dot,
        Symbol::Percent => Follow::Percent,
        Symbol::Caret => Follow::Caret,
        Symbol::Semicolon => Follow::Semicolon,
        Symbol::Comma => Follow::Comma,
        Symbol::CloseParen => Follow::CloseParen,
        Symbol::CloseBracket => Follow::CloseBracket,
        Symbol::CloseBrace => Follow::CloseBrace,
        Symbol::Plus | Symbol::Minus | Symbol::Star | Symbol::Slash => Follow::Operator,
        Symbol::Ampersand | Symbol::DoubleAmpersand | Symbol::DoubleBar => Follow::Operator,
        Symbol::Equal | Symbol::NotEqual => Follow::Operator,
        Symbol::Less | Symbol::LessEqual => Follow::Operator,
        Symbol::Greater | Symbol::GreaterEqual => Follow::Operator,
        _ => Follow::Nothing,
    }
}

fn follow_kind(meaning: &Meaning) -> Follow
    ensures { result ≡ follow_of meaning.now }
{
    match meaning {
        Meaning::Symbol(symbol) => symbol_following(*symbol),
        Meaning::Word(Word::As) => Follow::As,
        Meaning::Word(Word::And | Word::Or | Word::In | Word::ExactIn) => Follow::Operator,
        _ => Follow::Nothing,
    }
}

/// The first step, where there is one.
fn either(one: Move, other: Move) -> Move
    ensures { result ≡ or_move one other }
{
    match one {
        Move::Stop => other,
        _ => one,
    }
}

fn begin_operand(begin: Begin) -> Move
    ensures { result ≡ operand begin }
{
    match begin {
        Begin::Leaf => Move::Stay(State::AfterAccess),
        Begin::Name => Move::Stay(State::AfterName),
        Begin::Callee => Move::Stay(State::AfterCallee),
        Begin::Sign => Move::Stay(State::Operand),
        Begin::Group => Move::Push(Frame::Group, State::Operand),
        Begin::List => Move::Push(Frame::List, State::OperandOrClose),
        Begin::Global => Move::Stay(State::GlobalName),
        Begin::Record => Move::Stay(State::FirstLabel),
        Begin::Weave => Move::Stay(State::Strand),
        Begin::Nothing => Move::Stop,
    }
}

/// A closing bracket behind no argument.
fn close_empty(innermost: Option<Frame>, follow: Follow) -> Move
    ensures { result ≡ emptied follow innermost }
{
    match (innermost, follow) {
        (Some(Frame::Call), Follow::CloseParen) => Move::Pop(State::AfterAccess),
        (Some(Frame::List), Follow::CloseBracket) => Move::Pop(State::AfterAccess),
        _ => Move::Stop,
    }
}

/// A closing bracket, or a comma.
fn close_or_separate(innermost: Option<Frame>, follow: Follow) -> Move
    ensures { result ≡ closed follow innermost }
{
    match (innermost, follow) {
        (Some(Frame::Group), Follow::CloseParen) => Move::Pop(State::AfterAccess),
        (Some(Frame::Call), Follow::CloseParen) => Move::Pop(State::AfterAccess),
        (Some(Frame::Call), Follow::Comma) => Move::Stay(State::Operand),
        (Some(Frame::List), Follow::CloseBracket) => Move::Pop(State::AfterAccess),
        (Some(Frame::List), Follow::Comma) => Move::Stay(State::Operand),
        (Some(Frame::Record), Follow::CloseBrace) => Move::Pop(State::AfterAccess),
        (Some(Frame::Record), Follow::Comma) => Move::Pop(State::Label),
        (Some(Frame::Island), Follow::CloseBrace) => Move::Pop(State::Strand),
        _ => Move::Stop,
    }
}

/// A `;`: fields have none, and between named formulas it begins the next.
fn at_semicolon(whole: Whole, innermost: Option<Frame>) -> Move
    ensures { result ≡ semicolon whole innermost }
{
    match (whole, innermost) {
        (_, Some(Frame::Record)) => Move::Stop,
        (Whole::Named, None) => Move::Stay(State::Entry),
        _ => Move::Stay(State::OperandOrEnd),
    }
}

// This function and the next three each take what their state adds, and leave the rest to the one
// before.
fn after_alias(whole: Whole, innermost: Option<Frame>, follow: Follow) -> Move
    ensures { result ≡ behind_alias whole innermost follow }
{
    match follow {
        Follow::Operator => Move::Stay(State::Operand),
        Follow::Semicolon => at_semicolon(whole, innermost),
        _ => close_or_separate(innermost, follow),
    }
}

fn after_percent(whole: Whole, innermost: Option<Frame>, follow: Follow) -> Move
    ensures { result ≡ behind_percent whole innermost follow }
{
    match follow {
        Follow::Percent => Move::Stay(State::AfterPercent),
        Follow::Caret => Move::Stay(State::Operand),
        Follow::As => Move::Stay(State::AliasName),
        _ => after_alias(whole, innermost, follow),
    }
}

fn after_access(whole: Whole, innermost: Option<Frame>, follow: Follow) -> Move
    ensures { result ≡ behind_access whole innermost follow }
{
    match follow {
        Follow::Dot => Move::Stay(State::FieldName),
        _ => after_percent(whole, innermost, follow),
    }
}

fn after_name(whole: Whole, innermost: Option<Frame>, follow: Follow) -> Move
    ensures { result ≡ behind_name whole innermost follow }
{
    match follow {
        Follow::Call => Move::Push(Frame::Call, State::OperandOrClose),
        _ => after_access(whole, innermost, follow),
    }
}

fn open_call(follow: Follow) -> Move
    ensures { result ≡ follow_move follow }
{
    match follow {
        Follow::Call => Move::Push(Frame::Call, State::OperandOrClose),
        _ => Move::Stop,
    }
}

fn name_before(begin: Begin, state: State) -> Move
    ensures { result ≡ name_then begin state }
{
    match begin {
        Begin::Name => Move::Stay(state),
        _ => Move::Stop,
    }
}

fn bracket_before(follow: Follow, state: State) -> Move
    ensures { result ≡ bracket_then follow state }
{
    match follow {
        Follow::CloseBracket => Move::Stay(state),
        _ => Move::Stop,
    }
}

fn brace_before(follow: Follow, state: State) -> Move
    ensures { result ≡ brace_then follow state }
{
    match follow {
        Follow::CloseBrace => Move::Stay(state),
        _ => Move::Stop,
    }
}

fn equal_before(meaning: &Meaning, state: State) -> Move
    ensures { result ≡ equal_then meaning.now state }
{
    match meaning {
        Meaning::Symbol(Symbol::Equal) => Move::Stay(state),
        _ => Move::Stop,
    }
}

fn at_colon(meaning: &Meaning) -> Move
    ensures { result ≡ colon meaning.now }
{
    match meaning {
        Meaning::Symbol(Symbol::Colon) => Move::Push(Frame::Record, State::Operand),
        _ => Move::Stop,
    }
}

fn in_weave(meaning: &Meaning) -> Move
    ensures { result ≡ strand meaning.now }
{
    match meaning {
        Meaning::Piece(_) => Move::Stay(State::Strand),
        Meaning::Symbol(Symbol::OpenBrace) => Move::Push(Frame::Island, State::Operand),
        Meaning::Closing => Move::Stay(State::AfterAccess),
        _ => Move::Stop,
    }
}

/// What a token does, by what may come next and what is innermost.
pub fn turn_at(whole: Whole, state: State, innermost: Option<Frame>, meaning: &Meaning) -> Move
    ensures { result ≡ turn whole state innermost meaning.now }
{
    let begin = begin_kind(meaning);
    let follow = follow_kind(meaning);
    match state {
        State::Start => either(begin_operand(begin), equal_before(meaning, State::Operand)),
        State::Operand => begin_operand(begin),
        State::OperandOrClose => either(begin_operand(begin), close_empty(innermost, follow)),
        State::OperandOrEnd => either(begin_operand(begin), close_or_separate(innermost, follow)),
        State::AfterName => after_name(whole, innermost, follow),
        State::AfterCallee => open_call(follow),
        State::AfterAccess => after_access(whole, innermost, follow),
        State::AfterPercent => after_percent(whole, innermost, follow),
        State::AfterAlias => after_alias(whole, innermost, follow),
        State::FieldName => name_before(begin, State::AfterAccess),
        State::AliasName => name_before(begin, State::AfterAlias),
        State::GlobalName => name_before(begin, State::GlobalClose),
        State::GlobalClose => bracket_before(follow, State::AfterAccess),
        State::FirstLabel => either(
            name_before(begin, State::Colon),
            brace_before(follow, State::AfterAccess),
        ),
        State::Label => name_before(begin, State::Colon),
        State::Colon => at_colon(meaning),
        State::Strand => in_weave(meaning),
        State::Entry => name_before(begin, State::EntryEqual),
        State::EntryEqual => equal_before(meaning, State::Operand),
    }
}

/// What is innermost of what is open, the innermost last.
pub fn innermost_of(opened: &[Frame]) -> Option<Frame>
    ensures { result ≡ top (reverse opened.now) }
{
    match opened {
        [.., frame] => Some(*frame),
        [] => None,
    }
}

/// Does what a token does, and says what may come next.
pub fn perform(opened: &mut Vec<Frame>, turn: Move) -> Result<Option<State>, Memory>
    ensures { IfOk result (λ o. with_stack o (reverse opened.new.items)
        ≡ place_moved (reverse opened.old.items) turn) }
{
    match turn {
        Move::Stay(state) => Ok(Some(state)),
        Move::Push(frame, state) => {
            opened.push(frame)?;
            Ok(Some(state))
        }
        Move::Pop(state) => {
            opened.pop();
            Ok(Some(state))
        }
        Move::Stop => Ok(None),
    }
}

/// Whether the tokens may end here.
pub fn may_end(whole: Whole, state: State, opened: &[Frame]) -> bool
    ensures { result ≡ ends whole state (reverse opened.now) }
{
    if !opened.is_empty() {
        return false;
    }
    match (whole, state) {
        (_, State::AfterName | State::AfterAccess) => true,
        (_, State::AfterPercent | State::AfterAlias) => true,
        (Whole::Formula, State::OperandOrEnd) => true,
        (Whole::Named, State::Entry) => true,
        _ => false,
    }
}
