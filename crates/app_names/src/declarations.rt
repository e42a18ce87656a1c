//! The variables and collections that formulas declare.
ghost use Rattle.std.specs.Prelude.{◌≡◌, ◌++◌, OnOk, option_map};
ghost use Rattle.fx_core.specs.Tree.{forest, tree_field_names, field_trees, places_of};
ghost use Rattle.app_names.specs.Declarations as table;
ghost use Rattle.app_names.specs.Declarations.{declared_among, declared_in};
ghost use Rattle.app_names.specs.Tops.{below, declared_here};

use fx_base::Memory;
use fx_core::expr::{Expr, FieldName, Node};
use fx_core::functions::Acting;
use fx_core::signatures::{SigShape, Signature, signature_in};
use fx_types::words::Words;
use std::alloc::Global;

/// What a value is given to.
#[derive(Clone, Copy, PartialEq, Eq)]
pub enum Thing {
    /// A variable: of the screen of this number, or a global one.
    Variable(Option<u32>),
    Collection,
}

/// A name that a call declares.
#[derive(Drop)]
pub struct Declared {
    pub thing: Thing,
    pub name: Words,
    /// The byte of the text at which the name begins.
    pub at: u32,
}

// What a function declares that names its target.
fn declared_thing(shape: Option<SigShape>) -> Option<Thing>
    ensures { result ≡ table.declared_by shape }
{
    match shape {
        Some(SigShape::Act(Acting::Set)) => Some(Thing::Variable(None)),
        Some(SigShape::Act(Acting::Collect)) => Some(Thing::Collection),
        Some(SigShape::Act(Acting::ClearCollect)) => Some(Thing::Collection),
        _ => None,
    }
}

// How a function is called.
fn call_shape(functions: &[Signature], name: &Words) -> Option<SigShape>
    ensures { result ≡ table.shape_called functions.now name.now }
{
    signature_in(functions, name.as_str()).map(|signature| signature.shape)
}

// The name that stands first among the parts of a call, and the byte of the text at which it
// begins.
fn first_name(parts: &[Expr]) -> Option<(&Words, u32)>
    ensures { option_map (λ p. (p.0.now, p.1)) result ≡ table.first_name (forest parts.now) }
{
    match parts {
        [] => None,
        [first, ..] => match &first.node {
            Node::Name(name) => Some((name, first.at)),
            Node::Global(name) => Some((name, first.at)),
            _ => None,
        },
    }
}

// Adds the variables of a screen that fields name.
fn declare_variables(
    alloc: Global,
    screen: u32,
    fields: &[(FieldName, Expr)],
    found: &mut Vec<Declared>,
) -> Result<(), Memory>
    ensures { OnOk result (found.new.items ≡ found.old.items
        ++ table.variables_in screen (tree_field_names fields.now) (places_of fields.now)) }
{
    for (name, _) in fields {
        found.push(Declared {
            thing: Thing::Variable(Some(screen)),
            name: name.text.copy(alloc)?,
            at: name.at,
        })?;
    }
    Ok(())
}

// Adds the variables of a screen that the first part of a call names, which has to be a record.
fn declare_by_record(
    alloc: Global,
    screen: u32,
    parts: &[Expr],
    found: &mut Vec<Declared>,
) -> Result<(), Memory>
    ensures { OnOk result (found.new.items ≡ found.old.items
        ++ table.declared_by_record screen (forest parts.now)) }
{
    match parts {
        [] => Ok(()),
        [first, ..] => match &first.node {
            Node::Rec(fields) => declare_variables(alloc, screen, fields.as_slice(), found),
            _ => Ok(()),
        },
    }
}

// Adds what a call declares by the name of its target.
fn declare_target(
    alloc: Global,
    shape: Option<SigShape>,
    parts: &[Expr],
    found: &mut Vec<Declared>,
) -> Result<(), Memory>
    ensures { OnOk result (found.new.items ≡ found.old.items
        ++ table.declaration (table.declared_by shape) (table.first_name (forest parts.now))) }
{
    match (declared_thing(shape), first_name(parts)) {
        (Some(thing), Some((name, at))) => {
            let name = name.copy(alloc)?;
            found.push(Declared { thing, name, at })?;
            Ok(())
        }
        _ => Ok(()),
    }
}

// Adds what a call declares on a screen, or outside all screens.
fn declare_on(
    alloc: Global,
    screen: Option<u32>,
    shape: Option<SigShape>,
    parts: &[Expr],
    found: &mut Vec<Declared>,
) -> Result<(), Memory>
    ensures { OnOk result (found.new.items ≡ found.old.items
        ++ table.declared_on screen shape (forest parts.now)) }
{
    match (screen, shape) {
        (Some(screen), Some(SigShape::Act(Acting::UpdateContext))) => {
            declare_by_record(alloc, screen, parts, found)
        }
        _ => declare_target(alloc, shape, parts, found),
    }
}

// Adds what a node declares itself.
fn declare_here(
    alloc: Global,
    functions: &[Signature],
    screen: Option<u32>,
    whole: &Expr,
    found: &mut Vec<Declared>,
) -> Result<(), Memory>
    ensures { OnOk result (found.new.items ≡ found.old.items
        ++ declared_here functions.now screen whole.now) }
{
    let Node::Call(function, parts) = &whole.node else {
        return Ok(());
    };
    let shape = call_shape(functions, function);
    declare_on(alloc, screen, shape, parts.as_slice(), found)
}

/// Adds what a tree declares, by the functions of a table and on a screen: a node before its parts.
#[cycle(declare)]
pub fn declare(
    alloc: Global,
    functions: &[Signature],
    screen: Option<u32>,
    whole: &Expr,
    found: &mut Vec<Declared>,
) -> Result<(), Memory>
    ensures { OnOk result (found.new.items ≡ found.old.items
        ++ declared_in functions.now screen whole.now) }
{
    declare_here(alloc, functions, screen, whole, found)?;
    declare_below(alloc, functions, screen, whole, found)
}

// Adds what the parts of a tree declare.
#[cycle(declare)]
fn declare_below(
    alloc: Global,
    functions: &[Signature],
    screen: Option<u32>,
    whole: &Expr,
    found: &mut Vec<Declared>,
) -> Result<(), Memory>
    ensures { OnOk result (found.new.items ≡ found.old.items
        ++ declared_among functions.now screen (below whole.now)) }
{
    match &whole.node {
        Node::Num(_) | Node::Text(_) | Node::Truth(_) | Node::Name(_) | Node::Global(_) => Ok(()),
        Node::Dot(part, _) | Node::Neg(part) | Node::Not(part) => {
            declare(alloc, functions, screen, part, found)
        }
        Node::Percent(part) | Node::Alias(part, _) => declare(
            alloc, functions, screen, part, found,
        ),
        Node::Pair(_, left, right) => {
            declare(alloc, functions, screen, left, found)?;
            declare(alloc, functions, screen, right, found)
        }
        Node::Call(_, parts) | Node::Joined(parts) | Node::And(parts) | Node::Or(parts) => {
            declare_all(alloc, functions, screen, parts.as_slice(), found)
        }
        Node::Chain(parts) | Node::List(parts) | Node::Woven(parts) => {
            declare_all(alloc, functions, screen, parts.as_slice(), found)
        }
        Node::Rec(fields) => declare_fields(alloc, functions, screen, fields.as_slice(), found),
    }
}

// Adds what formulas declare.
#[cycle(declare)]
fn declare_all(
    alloc: Global,
    functions: &[Signature],
    screen: Option<u32>,
    parts: &[Expr],
    found: &mut Vec<Declared>,
) -> Result<(), Memory>
    ensures { OnOk result (found.new.items ≡ found.old.items
        ++ declared_among functions.now screen (forest parts.now)) }
{
    for part in parts {
        declare(alloc, functions, screen, part, found)?;
    }
    Ok(())
}

// Adds what the formulas of fields declare.
#[cycle(declare)]
fn declare_fields(
    alloc: Global,
    functions: &[Signature],
    screen: Option<u32>,
    fields: &[(FieldName, Expr)],
    found: &mut Vec<Declared>,
) -> Result<(), Memory>
    ensures { OnOk result (found.new.items ≡ found.old.items
        ++ declared_among functions.now screen (field_trees fields.now)) }
{
    for (_, part) in fields {
        declare(alloc, functions, screen, part, found)?;
    }
    Ok(())
}
