//! The first node that is too deep, in the order in which nodes end: one pass from left to right,
//! with a stack of the brackets that are open and of the operators that wait for an operand.
ghost use Rattle.std.specs.Prelude.{◌≡◌, ◌<◌, IfOk, IfSome, length, vec_len};

use crate::formula::DEEPEST;
use fx_base::Memory;
use fx_grammar::{Item, Meaning};
use fx_lexer::{Symbol, Word};
use std::alloc::Global;

const CHAIN: u8 = 1;

const OR: u8 = 2;

const AND: u8 = 3;

const CAT: u8 = 6;

const ALIAS: u8 = 9;

const SIGN: u8 = 10;

const POWER: u8 = 11;

/// What waits on the stack.
#[derive(Clone, Copy)]
enum Kind {
    /// An operator of this binding power: the looser it binds the less. `several` holds of one that
    /// has two parts behind it and may have more.
    Operator { power: u8, several: bool },
    /// A bracket whose values are parts of one node.
    Bracket,
    Weave,
    Island,
    /// `[@`
    Global,
}

/// A value: the index of its first token, and its depth.
#[derive(Clone, Copy)]
struct Part {
    first: usize,
    depth: u32,
}

/// What is open, with the deepest of its parts so far.
#[derive(Clone, Copy)]
struct Open {
    kind: Kind,
    part: Part,
}

/// What has been read: the open ones, the innermost last, and the value behind them, if there is
/// one.
#[derive(Drop)]
struct Reader {
    open: Vec<Open>,
    value: Option<Part>,
    /// The first token of the first node that is too deep.
    found: Option<usize>,
}

fn binding(meaning: &Meaning) -> Option<u8> {
    match meaning {
        Meaning::Symbol(Symbol::Semicolon) => Some(CHAIN),
        Meaning::Symbol(Symbol::DoubleBar) | Meaning::Word(Word::Or) => Some(OR),
        Meaning::Symbol(Symbol::DoubleAmpersand) | Meaning::Word(Word::And) => Some(AND),
        Meaning::Word(Word::In | Word::ExactIn) => Some(4),
        Meaning::Symbol(Symbol::Equal | Symbol::NotEqual) => Some(5),
        Meaning::Symbol(Symbol::Less | Symbol::LessEqual) => Some(5),
        Meaning::Symbol(Symbol::Greater | Symbol::GreaterEqual) => Some(5),
        Meaning::Symbol(Symbol::Ampersand) => Some(CAT),
        Meaning::Symbol(Symbol::Plus | Symbol::Minus) => Some(7),
        Meaning::Symbol(Symbol::Star | Symbol::Slash) => Some(8),
        Meaning::Symbol(Symbol::Caret) => Some(POWER),
        _ => None,
    }
}

/// Whether the parts of an operator make one node together.
fn joins(power: u8) -> bool {
    power == CHAIN || power == OR || power == AND || power == CAT
}

fn operator(power: u8, several: bool) -> Kind {
    Kind::Operator { power, several }
}

impl Reader {
    fn new(alloc: Global) -> Reader {
        Reader {
            open: Vec::new(alloc),
            value: None,
            found: None,
        }
    }

    fn depth(&self) -> u32 {
        match self.value {
            Some(part) => part.depth,
            None => 0,
        }
    }

    /// A node that begins with this token and whose deepest part is so deep.
    fn node(&mut self, first: usize, deepest: u32)
        ensures { self.new.open ≡ self.old.open }
    {
        let depth = deepest.saturating_add(1);
        if depth > DEEPEST && self.found.is_none() {
            self.found = Some(first);
        }
        self.value = Some(Part { first, depth });
    }

    fn push(&mut self, kind: Kind, first: usize, depth: u32) -> Result<(), Memory> {
        let part = Part { first, depth };
        self.open.push(Open { kind, part })?;
        self.value = None;
        Ok(())
    }

    /// The operator that waits innermost, if it binds tighter than so, or as tight where `same`.
    fn innermost_operator(&self, power: u8, same: bool) -> Option<(Part, bool)>
        ensures { IfSome result (λ _. 0 < vec_len self.now.open) }
    {
        let open = self.open.last()?;
        match open.kind {
            Kind::Operator {
                power: own,
                several,
            } => {
                if own > power || (same && own == power) {
                    Some((open.part, several))
                } else {
                    None
                }
            }
            _ => None,
        }
    }

    /// Ends the operators that bind tighter than so, or as tight where `same`. A last `;` behind
    /// one part makes no node.
    fn end(&mut self, power: u8, same: bool) {
        while let Some((part, several)) = self.innermost_operator(power, same) {
            self.open.pop();
            if several || self.value.is_some() {
                let deepest = part.depth.max(self.depth());
                self.node(part.first, deepest);
            } else {
                self.value = Some(part);
            }
        }
    }

    /// A further part of an operator that joins its parts.
    fn join(&mut self, power: u8, value: Part) -> Result<(), Memory> {
        match self.innermost_operator(power, true) {
            None => self.push(operator(power, false), value.first, value.depth),
            Some((part, _)) => {
                self.open.pop();
                self.push(
                    operator(power, true),
                    part.first,
                    part.depth.max(value.depth),
                )
            }
        }
    }

    /// An operator behind a value.
    fn operate(&mut self, power: u8, value: Part) -> Result<(), Memory> {
        self.end(power, !joins(power) && power != POWER);
        let value = self.value.unwrap_or(value);
        if joins(power) {
            self.join(power, value)
        } else {
            self.push(operator(power, false), value.first, value.depth)
        }
    }

    /// A value more in what is innermost.
    fn add(&mut self, depth: u32) -> Result<(), Memory> {
        if let Some(mut open) = self.open.pop() {
            open.part.depth = open.part.depth.max(depth);
            self.open.push(open)?;
        }
        self.value = None;
        Ok(())
    }

    /// A closing bracket, or a comma.
    fn close(&mut self, ends: bool) -> Result<(), Memory> {
        self.end(0, false);
        let depth = self.depth();
        self.add(depth)?;
        if ends {
            if let Some(open) = self.open.pop() {
                match open.kind {
                    Kind::Island => self.add(open.part.depth)?,
                    Kind::Global => self.value = Some(Part {
                        first: open.part.first,
                        depth: 1,
                    }),
                    _ => self.node(open.part.first, open.part.depth),
                }
            }
        }
        Ok(())
    }

    /// A `{`: in a weave it begins an island.
    fn brace(&mut self, index: usize) -> Result<(), Memory> {
        let kind = match self.open.last() {
            Some(
                Open {
                    kind: Kind::Weave,
                    ..
                },
            ) => Kind::Island,
            _ => Kind::Bracket,
        };
        self.push(kind, index, 0)
    }

    /// A token where a value begins, or where what is open closes without one.
    fn begin(&mut self, index: usize, meaning: &Meaning) -> Result<(), Memory> {
        match meaning {
            Meaning::Number(_)
            | Meaning::Text(_)
            | Meaning::Name(_)
            | Meaning::Word(Word::True | Word::False | Word::And | Word::Or) => {
                self.value = Some(Part {
                    first: index,
                    depth: 1,
                });
                Ok(())
            }
            Meaning::Word(Word::Not) | Meaning::Symbol(Symbol::Minus | Symbol::Bang) => {
                self.push(operator(SIGN, false), index, 0)
            }
            Meaning::Symbol(Symbol::OpenParen | Symbol::OpenBracket) => self.push(
                Kind::Bracket,
                index,
                0,
            ),
            Meaning::Symbol(Symbol::OpenBracketAt) => self.push(Kind::Global, index, 0),
            Meaning::Symbol(Symbol::OpenBrace) => self.brace(index),
            Meaning::Opening => self.push(Kind::Weave, index, 0),
            Meaning::Piece(_) => self.add(1),
            Meaning::Closing
            | Meaning::Symbol(Symbol::CloseParen | Symbol::CloseBracket | Symbol::CloseBrace) =>
                self.close(true),
            Meaning::Symbol(Symbol::Comma) => self.close(false),
            _ => Ok(()),
        }
    }

    /// A token behind a value.
    fn go_on(&mut self, meaning: &Meaning, value: Part) -> Result<(), Memory> {
        match meaning {
            Meaning::Symbol(Symbol::OpenParen) => self.push(Kind::Bracket, value.first, 0),
            Meaning::Symbol(Symbol::Percent | Symbol::Dot) => {
                self.node(value.first, value.depth);
                Ok(())
            }
            Meaning::Word(Word::As) => {
                self.end(ALIAS, false);
                let value = self.value.unwrap_or(value);
                self.node(value.first, value.depth);
                Ok(())
            }
            Meaning::Symbol(Symbol::Colon) => {
                self.value = None;
                Ok(())
            }
            Meaning::Closing
            | Meaning::Symbol(Symbol::CloseParen | Symbol::CloseBracket | Symbol::CloseBrace) =>
                self.close(true),
            Meaning::Symbol(Symbol::Comma) => self.close(false),
            _ => match binding(meaning) {
                Some(power) => self.operate(power, value),
                None => Ok(()),
            },
        }
    }

    fn step(&mut self, index: usize, meaning: &Meaning) -> Result<(), Memory> {
        match self.value {
            None => self.begin(index, meaning),
            Some(value) => self.go_on(meaning, value),
        }
    }

    /// Whether a `;` ends a named formula, as it does where no bracket is open.
    fn ends_entry(&mut self, meaning: &Meaning) -> bool {
        match meaning {
            Meaning::Symbol(Symbol::Semicolon) => {
                self.end(CHAIN, false);
                let ends = self.open.is_empty();
                if ends {
                    self.value = None;
                }
                ends
            }
            _ => false,
        }
    }
}

fn is_equal(meaning: &Meaning) -> bool {
    matches!(meaning, Meaning::Symbol(Symbol::Equal))
}

fn first_deep(alloc: Global, items: &[Item], named: bool) -> Result<Option<usize>, Memory> {
    let mut reader = Reader::new(alloc);
    let mut naming = named;
    for (index, item) in items.iter().enumerate() {
        if naming {
            naming = !is_equal(&item.meaning);
        } else if named && reader.ends_entry(&item.meaning) {
            naming = true;
        } else {
            reader.step(index, &item.meaning)?;
        }
        if reader.found.is_some() {
            return Ok(reader.found);
        }
    }
    reader.end(0, false);
    Ok(reader.found)
}

/// Of tokens that are a formula, or named formulas, deeper than 64: the index of the token where
/// the first node or pair of brackets begins, in the order in which they end, that is 65 deep.
pub fn deepest(alloc: Global, items: &[Item], named: bool) -> Result<usize, Memory>
    requires { 0 < length items.now }
    ensures { IfOk result (λ i. i < length items.now) }
{
    match first_deep(alloc, items, named)? {
        Some(index) => {
            // The test spares the reader a contract: what it finds is shown by tests alone, and
            // this keeps it among the tokens.
            if index < items.len() {
                Ok(index)
            } else {
                Ok(0)
            }
        }
        None => Ok(0),
    }
}
