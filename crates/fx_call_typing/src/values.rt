//! The parts of a node as its rule takes them.
ghost use Rattle.std.specs.Prelude.{◌≡◌, ◌∷◌, [], IfOk, map};
ghost use Rattle.fx_typing.specs.Parts as parts;
ghost use Rattle.fx_typing.specs.Answers.{IsAnswerOf};
ghost use Rattle.fx_typing.specs.TypedView.{typed, piece_view};
ghost use Rattle.fx_resolve.specs.PartView.{judged_part};
ghost use Rattle.fx_node_typing.specs.Lists.{named_first, value_part};

use fx_base::Memory;
use fx_core::Rule;
use fx_resolve::Part;
use fx_types::words::Words;
use fx_typing::typed::{Piece, Typed};
use fx_typing::wrong::Wrong;
use std::alloc::Global;

// A part as a value, or the rule `WrongType`.
fn value_of(one: Part) -> Result<Typed, Wrong>
    ensures { IsAnswerOf typed (value_part (judged_part one.entry)) result }
{
    match one {
        Part::Piece(Piece::Value(_, value)) => Ok(value),
        _ => Err(Wrong::Refused(Rule::WrongType)),
    }
}

/// The parts as values, or the rule `WrongType` where one is none.
pub fn values(alloc: Global, all: Vec<Part>) -> Result<Vec<Typed>, Wrong>
    ensures { IsAnswerOf (λ xs. map typed xs.items) (parts.values (map judged_part all.entry.items))
        result }
{
    let mut found = Vec::new(alloc);
    for one in all {
        let value = value_of(one)?;
        found.push(value)?;
    }
    Ok(found)
}

// A name that nothing has.
fn no_name(alloc: Global) -> Result<Words, Memory>
    ensures { IfOk result (λ w. w ≡ []) }
{
    Ok(Words::of(alloc, "")?)
}

// A part as the one rule takes it.
fn piece_of(alloc: Global, one: Part) -> Result<Piece, Memory>
    ensures { IfOk result (λ p. piece_view p ≡ parts.piece_of (judged_part one.entry)) }
{
    match one {
        Part::Piece(inner) => Ok(inner),
        Part::Target(_, name) => Ok(Piece::Label(name)),
        Part::Meant(_) => Ok(Piece::Label(no_name(alloc)?)),
        Part::Assigned(_, _) => Ok(Piece::Label(no_name(alloc)?)),
    }
}

/// The parts as the one rule takes them.
pub fn pieces(alloc: Global, all: Vec<Part>) -> Result<Vec<Piece>, Memory>
    ensures { IfOk result (λ ps. map piece_view ps.items
        ≡ parts.pieces (map judged_part all.entry.items)) }
{
    let mut found = Vec::new(alloc);
    for one in all {
        found.push(piece_of(alloc, one)?)?;
    }
    Ok(found)
}

/// A piece, and the parts behind it as the one rule takes them.
pub fn pieces_behind(alloc: Global, first: Piece, all: Vec<Part>) -> Result<Vec<Piece>, Memory>
    ensures { IfOk result (λ ps. map piece_view ps.items
        ≡ piece_view first ∷ parts.pieces (map judged_part all.entry.items)) }
{
    let mut found = pieces(alloc, all)?;
    found.insert(0, first)?;
    Ok(found)
}

/// The name of what changes and the parts behind it, or the rule `WrongType` where its rows have a
/// name, or `NotAVariable` where there is no such name.
pub fn take_name<'a>(all: Vec<Part<'a>>) -> Result<(Words, Vec<Part<'a>>), Wrong>
    ensures { IsAnswerOf (λ p. (p.0, map judged_part p.1.items))
        (named_first (map judged_part all.entry.items)) result }
{
    let mut all = all;
    if all.is_empty() {
        return Err(Wrong::Refused(Rule::NotAVariable));
    }
    match all.remove(0) {
        Part::Target(None, name) => Ok((name, all)),
        Part::Target(Some(_), _) => Err(Wrong::Refused(Rule::WrongType)),
        _ => Err(Wrong::Refused(Rule::NotAVariable)),
    }
}
