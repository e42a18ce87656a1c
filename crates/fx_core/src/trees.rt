//! Typed trees: what a formula evaluates, with every type settled.
ghost use Rattle.std.specs.Prelude.{◌≡◌, ◌≤◌, ◌++◌, ◌∷◌, [], length, slice_get, Some, OnOk, OnErr};
ghost use Rattle.std.specs.Prelude.{IfOk, IsTrue, ◌↔◌, MatchOption};

use crate::deeds::Deed;
use crate::functions::Fun;
use crate::sources::Source;
use fx_base::Memory;
use fx_types::types::Ty;
use fx_types::values::Value;
use fx_types::words::Words;
use std::alloc::Global;
use std::marker::Model;

/// A typed tree.
// A struct round an enum, since contracts can see a struct, and no enum, as plain data.
#[cycle(core)]
pub struct Core {
    pub node: CoreNode,
}

// By hand, so that it is called: what is derived is opened wherever a value may end, which costs
// proofs seconds each time.
impl Drop for Core {
    fn drop(self) {
        let Core { node: _ } = self;
    }
}

/// What stands at the top of a typed tree.
#[cycle(core)]
#[derive(Drop)]
pub enum CoreNode {
    /// A value.
    Const(Value),
    /// What a source holds.
    Read(Source),
    /// The row or record of this scope, counted from the outside, from 0.
    Row(u8),
    /// The gallery's item.
    Item,
    /// The error that the nearest `IfError` caught.
    Caught,
    /// A field of a record; of a blank record blank.
    Dot(Box<Core>, Words),
    /// A function of the values of its parts.
    Call(Fun, CoreArgs),
    /// A function of a table and of the other parts, of which some are formulas in the scope of its
    /// rows.
    Over(Fun, Box<Core>, CoreArgs),
    /// A call of a function of the app's own, by its place among these, of the values of its parts.
    User(u32, CoreArgs),
    /// A formula in the scope of a record.
    With(Box<Core>, Box<Core>),
    /// A record of these fields, by rising names.
    Rec(CoreFields),
    /// A table of these rows. Where the type has no parts, each part is the column `Value` of a
    /// row. Else it is that of a record, each part is a row, and a blank part a row of blanks.
    List(Ty, CoreArgs),
    /// Conditions from left to right, up to the first that is false or an error.
    All(CoreArgs),
    /// Conditions from left to right, up to the first that is true or an error.
    Any(CoreArgs),
    /// Conditions and branches in turn, and maybe a last branch.
    If(CoreArgs),
    /// A value, then matches and branches in turn, and maybe a last branch.
    Switch(CoreArgs),
    /// Values and fallbacks in turn, and maybe a last value.
    IfError(CoreArgs),
    /// A value as one of this type.
    Coerce(Box<Core>, Ty),
    /// Parts in turn, of which the last one is the value.
    Chain(CoreArgs),
    /// A change of state.
    Act(Deed, CoreArgs),
}

/// Typed trees in order.
#[cycle(core)]
#[derive(Drop)]
pub struct CoreArgs {
    pub(crate) items: Vec<Core>,
}

/// Fields in order, each with its name and its tree.
#[cycle(core)]
#[derive(Drop)]
pub struct CoreFields {
    pub(crate) items: Vec<(Words, Core)>,
}

impl Model for Core {
    ghost use Rattle.fx_core.specs.Term.{Term, term_size};
    ghost use Rattle.fx_core.specs.TermCode.{term_code};

    ghost Value = { Term };

    ghost coded = { term_code };

    ghost use Rattle.fx_core.specs.TermView.{core_branch};

    ghost view = { λ a. core_branch a.node };

    ghost size = { term_size };

    ghost use Rattle.std.proofs.Common.{arith};
    ghost use Rattle.fx_core.specs.TermFalls.{core_falls};

    ghost size_decreases = { λ a h. omega (arith, core_falls a.node) };
}

impl Model for CoreArgs {
    ghost use Rattle.std.specs.Prelude.{List};
    ghost use Rattle.fx_core.specs.Term.{Term, terms_size, all};
    ghost use Rattle.fx_core.specs.TermCode.{terms_code};

    ghost Value = { List Term };

    ghost coded = { terms_code };

    ghost view = { λ a. a.items.items };

    ghost size = { λ ts. terms_size (all ts) };

    ghost use Rattle.std.proofs.Common.{arith};
    ghost use Rattle.fx_core.specs.TermFalls.{terms_fall};

    ghost size_decreases = { λ a h. omega (arith, terms_fall a.items.items) };
}

impl Model for CoreFields {
    ghost use Rattle.std.specs.Prelude.{List, ℕ};
    ghost use Rattle.fx_core.specs.Term.{Term, terms_size, field_terms};
    ghost use Rattle.fx_core.specs.TermCode.{term_fields_code};

    ghost Value = { List (List ℕ × Term) };

    ghost coded = { term_fields_code };

    ghost view = { λ a. a.items.items };

    ghost size = { λ fs. terms_size (field_terms fs) };

    ghost use Rattle.std.proofs.Common.{arith};
    ghost use Rattle.fx_core.specs.TermFalls.{term_fields_fall};

    ghost size_decreases = { λ a h. omega (arith, term_fields_fall a.items.items) };
}

impl CoreArgs {
    /// No trees.
    pub fn new(alloc: Global) -> CoreArgs
        ensures { result ≡ [] }
    {
        CoreArgs {
            items: Vec::new(alloc),
        }
    }

    /// Adds a tree at the end.
    pub fn push(&mut self, item: Core) -> Result<(), Memory>
        ensures ok { OnOk result (self.new ≡ self.old ++ item ∷ []) }
        ensures err { OnErr result (self.new ≡ self.old) }
    {
        self.items.push(item)?;
        Ok(())
    }

    /// How many trees there are.
    pub fn len(&self) -> usize
        ensures { result ≡ length self.now }
    {
        self.items.len()
    }

    /// Whether there is none.
    pub fn is_empty(&self) -> bool
        ensures { IsTrue result ↔ (self.now ≡ []) }
    {
        self.items.is_empty()
    }

    /// The tree at this place, counted from 0.
    pub fn get(&self, place: usize) -> Option<&Core>
        ensures { MatchOption result (length self.now ≤ place)
            (λ e. slice_get self.now place ≡ Some e.now) }
    {
        self.items.get(place)
    }

    /// The trees as a slice.
    pub fn as_slice(&self) -> &[Core]
        ensures { result.now ≡ self.now }
    {
        self.items.as_slice()
    }

    /// The trees as a vector.
    pub fn into_items(self) -> Vec<Core>
        ensures { result.items ≡ self }
    {
        self.items
    }
}

impl CoreFields {
    /// No fields.
    pub fn new(alloc: Global) -> CoreFields
        ensures { result ≡ [] }
    {
        CoreFields {
            items: Vec::new(alloc),
        }
    }

    /// Adds a field at the end.
    pub fn push(&mut self, name: Words, item: Core) -> Result<(), Memory>
        ensures ok { OnOk result (self.new ≡ self.old ++ (name, item) ∷ []) }
        ensures err { OnErr result (self.new ≡ self.old) }
    {
        self.items.push((name, item))?;
        Ok(())
    }

    /// How many fields there are.
    pub fn len(&self) -> usize
        ensures { result ≡ length self.now }
    {
        self.items.len()
    }

    /// Whether there is none.
    pub fn is_empty(&self) -> bool
        ensures { IsTrue result ↔ (self.now ≡ []) }
    {
        self.items.is_empty()
    }

    /// The field at this place, counted from 0.
    pub fn get(&self, place: usize) -> Option<&(Words, Core)>
        ensures { MatchOption result (length self.now ≤ place)
            (λ f. slice_get self.now place ≡ Some f.now) }
    {
        self.items.get(place)
    }

    /// The fields as a slice.
    pub fn as_slice(&self) -> &[(Words, Core)]
        ensures { result.now ≡ self.now }
    {
        self.items.as_slice()
    }

    /// The fields as a vector.
    pub fn into_items(self) -> Vec<(Words, Core)>
        ensures { result.items ≡ self }
    {
        self.items
    }
}

impl Core {
    /// The same tree.
    #[cycle(copy)]
    pub fn copy(&self, alloc: Global) -> Result<Core, Memory>
        ensures { IfOk result (λ c. c ≡ self.now) }
    {
        let node = match &self.node {
            CoreNode::Const(value) => CoreNode::Const(value.copy(alloc)?),
            CoreNode::Read(source) => CoreNode::Read(*source),
            CoreNode::Row(scope) => CoreNode::Row(*scope),
            CoreNode::Item => CoreNode::Item,
            CoreNode::Caught => CoreNode::Caught,
            CoreNode::Dot(part, name) => CoreNode::Dot(copy_box(alloc, part)?, name.copy(alloc)?),
            CoreNode::Call(fun, parts) => CoreNode::Call(*fun, parts.copy(alloc)?),
            CoreNode::Over(fun, table, parts) => {
                CoreNode::Over(*fun, copy_box(alloc, table)?, parts.copy(alloc)?)
            }
            CoreNode::User(function, parts) => CoreNode::User(*function, parts.copy(alloc)?),
            CoreNode::With(record, formula) => {
                CoreNode::With(copy_box(alloc, record)?, copy_box(alloc, formula)?)
            }
            CoreNode::Rec(fields) => CoreNode::Rec(fields.copy(alloc)?),
            CoreNode::List(row, parts) => CoreNode::List(row.copy(alloc)?, parts.copy(alloc)?),
            CoreNode::All(parts) => CoreNode::All(parts.copy(alloc)?),
            CoreNode::Any(parts) => CoreNode::Any(parts.copy(alloc)?),
            CoreNode::If(parts) => CoreNode::If(parts.copy(alloc)?),
            CoreNode::Switch(parts) => CoreNode::Switch(parts.copy(alloc)?),
            CoreNode::IfError(parts) => CoreNode::IfError(parts.copy(alloc)?),
            CoreNode::Coerce(part, ty) => CoreNode::Coerce(copy_box(alloc, part)?, ty.copy(alloc)?),
            CoreNode::Chain(parts) => CoreNode::Chain(parts.copy(alloc)?),
            CoreNode::Act(deed, parts) => CoreNode::Act(deed.copy(alloc)?, parts.copy(alloc)?),
        };
        Ok(Core { node })
    }
}

// A part in a box of its own.
#[cycle(copy)]
fn copy_box(alloc: Global, part: &Core) -> Result<Box<Core>, Memory>
    ensures { IfOk result (λ c. c.value ≡ part.now) }
{
    Ok(Box::new(alloc, part.copy(alloc)?)?)
}

impl CoreArgs {
    /// The same trees.
    #[cycle(copy)]
    pub fn copy(&self, alloc: Global) -> Result<CoreArgs, Memory>
        ensures { IfOk result (λ cs. cs ≡ self.now) }
    {
        let mut items = Vec::new(alloc);
        for item in &self.items {
            items.push(item.copy(alloc)?)?;
        }
        Ok(CoreArgs { items })
    }
}

impl CoreFields {
    /// The same fields.
    #[cycle(copy)]
    pub fn copy(&self, alloc: Global) -> Result<CoreFields, Memory>
        ensures { IfOk result (λ fs. fs ≡ self.now) }
    {
        let mut items = Vec::new(alloc);
        for (name, item) in &self.items {
            items.push((name.copy(alloc)?, item.copy(alloc)?))?;
        }
        Ok(CoreFields { items })
    }
}
