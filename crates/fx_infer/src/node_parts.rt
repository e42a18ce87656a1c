//! The parts of a node. They go by number, whatever the node is, so that one loop judges those of
//! all nodes.
ghost use Rattle.std.specs.Prelude.{◌≡◌, MatchOption, suc};
ghost use Rattle.fx_core.specs.Tree as tree;
ghost use Rattle.fx_typing.specs.Parts.{part_count};
ghost use Rattle.fx_typing.specs.Typing.{position};
ghost use Rattle.fx_infer.specs.Below.{forest_from, forest_of};

use fx_core::expr::{Args, Expr, Node, Parts};

/// The byte at which a node begins.
pub fn begins(whole: &Expr) -> u32
    ensures { result ≡ position whole.now }
{
    whole.at
}

/// How many parts a node has.
pub fn part_count(whole: &Expr) -> usize
    ensures { result ≡ part_count (forest_of whole.now) }
{
    match &whole.node {
        Node::Num(_) | Node::Text(_) | Node::Truth(_) | Node::Name(_) | Node::Global(_) => 0,
        Node::Dot(_, _) | Node::Neg(_) | Node::Not(_) | Node::Percent(_) | Node::Alias(_, _) => 1,
        Node::Pair(_, _, _) => 2,
        Node::Call(_, args)
        | Node::Joined(args)
        | Node::And(args)
        | Node::Or(args)
        | Node::Chain(args)
        | Node::List(args)
        | Node::Woven(args) => args_count(args),
        Node::Rec(fields) => fields_count(fields),
    }
}

fn args_count(args: &Args) -> usize
    ensures { result ≡ part_count (tree.forest args.now) }
{
    args.len()
}

fn fields_count(fields: &Parts) -> usize
    ensures { result ≡ part_count (tree.field_trees fields.now) }
{
    fields.len()
}

/// The part of a node at a place, from 0.
pub fn part_at(whole: &Expr, place: usize) -> Option<&Expr>
    ensures { MatchOption result (forest_from place (forest_of whole.now) ≡ tree.none)
        (λ k. forest_from place (forest_of whole.now)
        ≡ tree.more k.now (forest_from (suc place) (forest_of whole.now))) }
{
    match &whole.node {
        Node::Num(_) | Node::Text(_) | Node::Truth(_) | Node::Name(_) | Node::Global(_) => None,
        Node::Dot(part, _)
        | Node::Neg(part)
        | Node::Not(part)
        | Node::Percent(part)
        | Node::Alias(part, _) => of_one(part, place),
        Node::Pair(_, left, right) => of_two(left, right, place),
        Node::Call(_, args)
        | Node::Joined(args)
        | Node::And(args)
        | Node::Or(args)
        | Node::Chain(args)
        | Node::List(args)
        | Node::Woven(args) => of_args(args, place),
        Node::Rec(fields) => of_fields(fields, place),
    }
}

// The part at a place, where there is one.
fn of_one(part: &Expr, place: usize) -> Option<&Expr>
    ensures { MatchOption result (forest_from place (tree.more part.now tree.none) ≡ tree.none)
        (λ k. forest_from place (tree.more part.now tree.none)
        ≡ tree.more k.now (forest_from (suc place) (tree.more part.now tree.none))) }
{
    if place == 0 { Some(part) } else { None }
}

// The part at a place, where there are two.
fn of_two<'e>(left: &'e Expr, right: &'e Expr, place: usize) -> Option<&'e Expr>
    ensures { MatchOption result
        (forest_from place (tree.more left.now (tree.more right.now tree.none)) ≡ tree.none)
        (λ k. forest_from place (tree.more left.now (tree.more right.now tree.none))
        ≡ tree.more k.now (forest_from (suc place)
        (tree.more left.now (tree.more right.now tree.none)))) }
{
    if place == 0 {
        Some(left)
    } else {
        of_one(right, place - 1)
    }
}

fn of_args(args: &Args, place: usize) -> Option<&Expr>
    ensures { MatchOption result (forest_from place (tree.forest args.now) ≡ tree.none)
        (λ k. forest_from place (tree.forest args.now)
        ≡ tree.more k.now (forest_from (suc place) (tree.forest args.now))) }
{
    match args.get(place) {
        Some(part) => Some(part),
        None => None,
    }
}

fn of_fields(fields: &Parts, place: usize) -> Option<&Expr>
    ensures { MatchOption result (forest_from place (tree.field_trees fields.now) ≡ tree.none)
        (λ k. forest_from place (tree.field_trees fields.now)
        ≡ tree.more k.now (forest_from (suc place) (tree.field_trees fields.now))) }
{
    match fields.get(place) {
        Some((_, part)) => Some(part),
        None => None,
    }
}
