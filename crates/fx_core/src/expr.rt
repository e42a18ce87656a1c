//! A formula as a tree. Brackets leave no node: the tree itself says what belongs together.
ghost use Rattle.std.specs.Prelude.{◌≡◌, ◌≤◌, ◌++◌, ◌∷◌, [], length, slice_get, Some, OnOk, OnErr};
ghost use Rattle.std.specs.Prelude.{IfOk, IsTrue, ◌↔◌, MatchOption};

use fx_base::Memory;
use fx_number::Num;
use fx_types::words::Words;
use std::alloc::Global;
use std::marker::Model;

/// An operator between two operands. `&`, `&&`, `||` and `;` are none: they join any number of
/// parts.
#[derive(Clone, Copy)]
pub enum Op {
    /// `+`
    Add,
    /// `-`
    Sub,
    /// `*`
    Mul,
    /// `/`
    Div,
    /// `^`
    Pow,
    /// `=`
    Eq,
    /// `<>`
    Ne,
    /// `<`
    Lt,
    /// `<=`
    Le,
    /// `>`
    Gt,
    /// `>=`
    Ge,
    /// `in`
    In,
    /// `exactin`
    ExactIn,
}

/// A formula's tree. `at` is the byte of the source, counted from 0, at which its first token
/// begins.
// A struct round an enum, since contracts can see a struct, and no enum, as plain data.
#[cycle(expr)]
pub struct Expr {
    pub at: u32,
    pub node: Node,
}

// By hand, so that it is called: what is derived is opened wherever a value may end, which costs
// proofs seconds each time.
impl Drop for Expr {
    fn drop(self) {
        let Expr { at: _, node: _ } = self;
    }
}

/// What stands at the top of a tree.
#[cycle(expr)]
#[derive(Drop)]
pub enum Node {
    /// A number.
    Num(Num),
    /// A text.
    Text(Words),
    /// `true` or `false`.
    Truth(bool),
    /// A name, which is sought from the innermost scope outwards.
    Name(Words),
    /// `[@Name]`: a name that is sought among the global ones alone.
    Global(Words),
    /// A field of a record.
    Dot(Box<Expr>, Words),
    /// A function and its arguments.
    Call(Words, Args),
    /// Prefix `-`.
    Neg(Box<Expr>),
    /// `!` or `Not`.
    Not(Box<Expr>),
    /// Postfix `%`.
    Percent(Box<Expr>),
    /// Two operands, the left one first.
    Pair(Op, Box<Expr>, Box<Expr>),
    /// Texts joined by `&`, two or more.
    Joined(Args),
    /// Conditions of which all must hold: two or more by `&&` or `And`, any number by `And(..)`.
    And(Args),
    /// Conditions of which one must hold: two or more by `||` or `Or`, any number by `Or(..)`.
    Or(Args),
    /// Formulas in turn, joined by `;`, two or more.
    Chain(Args),
    /// `As`: a table under a name for its rows.
    Alias(Box<Expr>, Words),
    /// `{..}`: a record.
    Rec(Parts),
    /// `[..]`: a table of one column, or of records.
    List(Args),
    /// `$".."`: the pieces of text and the islands, in order.
    Woven(Args),
}

/// Formulas in order.
// No `InOrder`: it is a part of what it holds, so that its size is told together with the tree's.
#[cycle(expr)]
#[derive(Drop)]
pub struct Args {
    items: Vec<Expr>,
}

/// The name of a field, where it is written.
#[derive(Drop)]
pub struct FieldName {
    pub text: Words,
    /// The byte of the source, counted from 0, at which the name begins.
    pub at: u32,
}

/// Fields in order, each with its name and its formula.
#[cycle(expr)]
#[derive(Drop)]
pub struct Parts {
    items: Vec<(FieldName, Expr)>,
}

impl Model for Expr {
    ghost use Rattle.fx_core.specs.Tree.{Tree, tree_size};
    ghost use Rattle.fx_core.specs.TreeCode.{tree_code};

    ghost Value = { Tree };

    ghost coded = { tree_code };

    ghost use Rattle.fx_core.specs.TreeView.{branch};

    ghost view = { λ a. branch a.at a.node };

    ghost size = { tree_size };

    ghost use Rattle.std.proofs.Common.{arith};
    ghost use Rattle.fx_core.specs.TreeFalls.{node_falls};

    ghost size_decreases = { λ a h. omega (arith, node_falls a.at a.node) };
}

impl Model for Args {
    ghost use Rattle.std.specs.Prelude.{List};
    ghost use Rattle.fx_core.specs.Tree.{Tree, forest_size, forest};
    ghost use Rattle.fx_core.specs.TreeCode.{trees_code};

    ghost Value = { List Tree };

    ghost coded = { trees_code };

    ghost view = { λ a. a.items.items };

    ghost size = { λ ts. forest_size (forest ts) };

    ghost use Rattle.std.proofs.Common.{arith};
    ghost use Rattle.fx_core.specs.TreeFalls.{trees_fall};

    ghost size_decreases = { λ a h. omega (arith, trees_fall a.items.items) };
}

impl Model for Parts {
    ghost use Rattle.std.specs.Prelude.{List};
    ghost use Rattle.fx_core.specs.Tree.{NamedTree, forest_size, field_trees};
    ghost use Rattle.fx_core.specs.TreeCode.{tree_fields_code};

    ghost Value = { List NamedTree };

    ghost coded = { tree_fields_code };

    ghost view = { λ a. a.items.items };

    ghost size = { λ fs. forest_size (field_trees fs) };

    ghost use Rattle.std.proofs.Common.{arith};
    ghost use Rattle.fx_core.specs.TreeFalls.{tree_fields_fall};

    ghost size_decreases = { λ a h. omega (arith, tree_fields_fall a.items.items) };
}

impl FieldName {
    /// The same name once more.
    pub fn copy(&self, alloc: Global) -> Result<FieldName, Memory>
        ensures { IfOk result (λ n. n ≡ self.now) }
    {
        Ok(FieldName {
            text: self.text.copy(alloc)?,
            at: self.at,
        })
    }
}

impl Args {
    /// No formulas.
    pub fn new(alloc: Global) -> Args
        ensures { result ≡ [] }
    {
        Args {
            items: Vec::new(alloc),
        }
    }

    /// Adds a formula at the end.
    pub fn push(&mut self, item: Expr) -> Result<(), Memory>
        ensures ok { OnOk result (self.new ≡ self.old ++ item ∷ []) }
        ensures err { OnErr result (self.new ≡ self.old) }
    {
        self.items.push(item)?;
        Ok(())
    }

    /// How many formulas there are.
    pub fn len(&self) -> usize
        ensures { result ≡ length self.now }
    {
        self.items.len()
    }

    /// Whether there is none.
    pub fn is_empty(&self) -> bool
        ensures { IsTrue result ↔ (self.now ≡ []) }
    {
        self.items.is_empty()
    }

    /// The formula at this place, counted from 0.
    pub fn get(&self, place: usize) -> Option<&Expr>
        ensures { MatchOption result (length self.now ≤ place)
            (λ e. slice_get self.now place ≡ Some e.now) }
    {
        self.items.get(place)
    }

    /// The formulas as a slice.
    pub fn as_slice(&self) -> &[Expr]
        ensures { result.now ≡ self.now }
    {
        self.items.as_slice()
    }

    /// The formulas as a vector.
    pub fn into_items(self) -> Vec<Expr>
        ensures { result.items ≡ self }
    {
        self.items
    }
}

impl Parts {
    /// No fields.
    pub fn new(alloc: Global) -> Parts
        ensures { result ≡ [] }
    {
        Parts {
            items: Vec::new(alloc),
        }
    }

    /// Adds a field at the end.
    pub fn push(&mut self, name: FieldName, item: Expr) -> Result<(), Memory>
        ensures ok { OnOk result (self.new ≡ self.old ++ (name, item) ∷ []) }
        ensures err { OnErr result (self.new ≡ self.old) }
    {
        self.items.push((name, item))?;
        Ok(())
    }

    /// How many fields there are.
    pub fn len(&self) -> usize
        ensures { result ≡ length self.now }
    {
        self.items.len()
    }

    /// Whether there is none.
    pub fn is_empty(&self) -> bool
        ensures { IsTrue result ↔ (self.now ≡ []) }
    {
        self.items.is_empty()
    }

    /// The field at this place, counted from 0.
    pub fn get(&self, place: usize) -> Option<&(FieldName, Expr)>
        ensures { MatchOption result (length self.now ≤ place)
            (λ f. slice_get self.now place ≡ Some f.now) }
    {
        self.items.get(place)
    }

    /// The fields as a slice.
    pub fn as_slice(&self) -> &[(FieldName, Expr)]
        ensures { result.now ≡ self.now }
    {
        self.items.as_slice()
    }

    /// The fields as a vector.
    pub fn into_items(self) -> Vec<(FieldName, Expr)>
        ensures { result.items ≡ self }
    {
        self.items
    }
}

impl Expr {
    /// The same tree once more.
    #[cycle(copy)]
    pub fn copy(&self, alloc: Global) -> Result<Expr, Memory>
        ensures { IfOk result (λ e. e ≡ self.now) }
    {
        let node = match &self.node {
            Node::Num(value) => Node::Num(*value),
            Node::Text(words) => Node::Text(words.copy(alloc)?),
            Node::Truth(value) => Node::Truth(*value),
            Node::Name(name) => Node::Name(name.copy(alloc)?),
            Node::Global(name) => Node::Global(name.copy(alloc)?),
            Node::Dot(part, name) => Node::Dot(copy_box(alloc, part)?, name.copy(alloc)?),
            Node::Call(name, args) => Node::Call(name.copy(alloc)?, args.copy(alloc)?),
            Node::Neg(part) => Node::Neg(copy_box(alloc, part)?),
            Node::Not(part) => Node::Not(copy_box(alloc, part)?),
            Node::Percent(part) => Node::Percent(copy_box(alloc, part)?),
            Node::Pair(op, left, right) => {
                Node::Pair(*op, copy_box(alloc, left)?, copy_box(alloc, right)?)
            }
            Node::Joined(parts) => Node::Joined(parts.copy(alloc)?),
            Node::And(parts) => Node::And(parts.copy(alloc)?),
            Node::Or(parts) => Node::Or(parts.copy(alloc)?),
            Node::Chain(parts) => Node::Chain(parts.copy(alloc)?),
            Node::Alias(part, name) => Node::Alias(copy_box(alloc, part)?, name.copy(alloc)?),
            Node::Rec(fields) => Node::Rec(fields.copy(alloc)?),
            Node::List(parts) => Node::List(parts.copy(alloc)?),
            Node::Woven(parts) => Node::Woven(parts.copy(alloc)?),
        };
        Ok(Expr { at: self.at, node })
    }
}

// A part in a box of its own.
#[cycle(copy)]
fn copy_box(alloc: Global, part: &Expr) -> Result<Box<Expr>, Memory>
    ensures { IfOk result (λ e. e.value ≡ part.now) }
{
    Ok(Box::new(alloc, part.copy(alloc)?)?)
}

impl Args {
    /// The same formulas once more.
    #[cycle(copy)]
    pub fn copy(&self, alloc: Global) -> Result<Args, Memory>
        ensures { IfOk result (λ es. es ≡ self.now) }
    {
        let mut items = Vec::new(alloc);
        for item in &self.items {
            items.push(item.copy(alloc)?)?;
        }
        Ok(Args { items })
    }
}

impl Parts {
    /// The same fields once more.
    #[cycle(copy)]
    pub fn copy(&self, alloc: Global) -> Result<Parts, Memory>
        ensures { IfOk result (λ fs. fs ≡ self.now) }
    {
        let mut items = Vec::new(alloc);
        for (name, item) in &self.items {
            items.push((name.copy(alloc)?, item.copy(alloc)?))?;
        }
        Ok(Parts { items })
    }
}
