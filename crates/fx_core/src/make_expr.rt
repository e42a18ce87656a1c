//! Trees made of their parts. `at` is always the byte at which the tree's first token begins. These
//! calls spare those who make trees the boxes in them.
ghost use Rattle.std.specs.Prelude.{◌≡◌, IfOk};
ghost use Rattle.fx_core.specs.Tree.{node, none, more, forest, tree_field_names, places_of};
ghost use Rattle.fx_core.specs.Tree.{field_trees};
ghost use Rattle.fx_core.specs.Tree as tree;

use crate::expr::{Args, Expr, Node, Op, Parts};
use fx_base::Memory;
use fx_number::Num;
use fx_types::words::Words;
use std::alloc::Global;

/// The leaf of a number.
pub fn number(at: u32, value: Num) -> Expr
    ensures { result ≡ node at (tree.num value) none }
{
    Expr {
        at,
        node: Node::Num(value),
    }
}

/// The leaf of a text.
pub fn text(at: u32, words: Words) -> Expr
    ensures { result ≡ node at (tree.text words) none }
{
    Expr {
        at,
        node: Node::Text(words),
    }
}

/// The leaf `true` or `false`.
pub fn truth(at: u32, value: bool) -> Expr
    ensures { result ≡ node at (tree.truth value) none }
{
    Expr {
        at,
        node: Node::Truth(value),
    }
}

/// The leaf of a name.
pub fn name(at: u32, name: Words) -> Expr
    ensures { result ≡ node at (tree.name name) none }
{
    Expr {
        at,
        node: Node::Name(name),
    }
}

/// The leaf of a name that is sought among the global ones alone.
pub fn global_name(at: u32, name: Words) -> Expr
    ensures { result ≡ node at (tree.global name) none }
{
    Expr {
        at,
        node: Node::Global(name),
    }
}

/// A call of a function.
pub fn call(at: u32, name: Words, parts: Args) -> Expr
    ensures { result ≡ node at (tree.call name) (forest parts) }
{
    Expr {
        at,
        node: Node::Call(name, parts),
    }
}

/// Texts joined.
pub fn join(at: u32, parts: Args) -> Expr
    ensures { result ≡ node at tree.joined (forest parts) }
{
    Expr {
        at,
        node: Node::Joined(parts),
    }
}

/// Conditions of which all must hold.
pub fn all_of(at: u32, parts: Args) -> Expr
    ensures { result ≡ node at tree.all (forest parts) }
{
    Expr {
        at,
        node: Node::And(parts),
    }
}

/// Conditions of which one must hold.
pub fn any_of(at: u32, parts: Args) -> Expr
    ensures { result ≡ node at tree.any (forest parts) }
{
    Expr {
        at,
        node: Node::Or(parts),
    }
}

/// Formulas in turn.
pub fn chain(at: u32, parts: Args) -> Expr
    ensures { result ≡ node at tree.chain (forest parts) }
{
    Expr {
        at,
        node: Node::Chain(parts),
    }
}

/// A table of these.
pub fn list(at: u32, parts: Args) -> Expr
    ensures { result ≡ node at tree.list (forest parts) }
{
    Expr {
        at,
        node: Node::List(parts),
    }
}

/// Pieces and islands in order.
pub fn weave(at: u32, parts: Args) -> Expr
    ensures { result ≡ node at tree.woven (forest parts) }
{
    Expr {
        at,
        node: Node::Woven(parts),
    }
}

/// A record of these fields.
pub fn record_of(at: u32, fields: Parts) -> Expr
    ensures { result ≡ node at (tree.rec (tree_field_names fields) (places_of fields))
        (field_trees fields) }
{
    Expr {
        at,
        node: Node::Rec(fields),
    }
}

/// `-` before a tree.
pub fn negate(alloc: Global, at: u32, part: Expr) -> Result<Expr, Memory>
    ensures { IfOk result (λ e. e ≡ node at tree.neg (more part none)) }
{
    Ok(Expr {
        at,
        node: Node::Neg(Box::new(alloc, part)?),
    })
}

/// `!` or `Not` before a tree.
pub fn invert(alloc: Global, at: u32, part: Expr) -> Result<Expr, Memory>
    ensures { IfOk result (λ e. e ≡ node at tree.opposite (more part none)) }
{
    Ok(Expr {
        at,
        node: Node::Not(Box::new(alloc, part)?),
    })
}

/// `%` behind a tree.
pub fn percentage(alloc: Global, at: u32, part: Expr) -> Result<Expr, Memory>
    ensures { IfOk result (λ e. e ≡ node at tree.percent (more part none)) }
{
    Ok(Expr {
        at,
        node: Node::Percent(Box::new(alloc, part)?),
    })
}

/// A field of a tree.
pub fn dot(alloc: Global, at: u32, part: Expr, name: Words) -> Result<Expr, Memory>
    ensures { IfOk result (λ e. e ≡ node at (tree.dot name) (more part none)) }
{
    Ok(Expr {
        at,
        node: Node::Dot(Box::new(alloc, part)?, name),
    })
}

/// A tree under a name for its rows.
pub fn alias(alloc: Global, at: u32, part: Expr, name: Words) -> Result<Expr, Memory>
    ensures { IfOk result (λ e. e ≡ node at (tree.alias name) (more part none)) }
{
    Ok(Expr {
        at,
        node: Node::Alias(Box::new(alloc, part)?, name),
    })
}

/// Two trees with an operator between them.
pub fn pair(alloc: Global, at: u32, op: Op, left: Expr, right: Expr) -> Result<Expr, Memory>
    ensures { IfOk result (λ e. e ≡ node at (tree.pair op) (more left (more right none))) }
{
    let left = Box::new(alloc, left)?;
    let right = Box::new(alloc, right)?;
    Ok(Expr {
        at,
        node: Node::Pair(op, left, right),
    })
}
