//! Lists of things that are told by their places.
ghost use Rattle.std.specs.Prelude.{◌≡◌, ◌≤◌, ◌++◌, ◌∷◌, [], length, slice_get, Some, IfOk, OnOk};
ghost use Rattle.std.specs.Prelude.{OnErr, MatchOption};

use crate::Memory;
use std::alloc::Global;
use std::marker::Model;

/// Things in order. A thing's number is its place, from 0.
// Contracts see the things alone: of a bare `Vec` in a struct, an equation would also speak of its
// capacity.
#[derive(Drop)]
pub struct InOrder<T> {
    items: Vec<T>,
}

impl<T> Model for InOrder<T> {
    ghost use Rattle.std.specs.Prelude.{List};
    ghost use Rattle.std.specs.Coded.{coded_list};

    ghost Value = { List T };

    ghost coded = { coded_list T.code };

    ghost view = { λ a. a.items.items };
}

impl<T: Drop> InOrder<T> {
    /// Nothing.
    pub fn new(alloc: Global) -> InOrder<T>
        ensures { result ≡ [] }
    {
        InOrder {
            items: Vec::new(alloc),
        }
    }

    /// Adds a thing at the end.
    pub fn push(&mut self, item: T) -> Result<(), Memory>
        ensures ok { OnOk result (self.new ≡ self.old ++ item ∷ []) }
        ensures err { OnErr result (self.new ≡ self.old) }
    {
        self.items.push(item)?;
        Ok(())
    }

    /// How many things there are.
    pub fn len(&self) -> usize
        ensures { result ≡ length self.now }
    {
        self.items.len()
    }

    /// The thing at a place, counted from 0.
    pub fn get(&self, place: usize) -> Option<&T>
        ensures { MatchOption result (length self.now ≤ place)
            (λ t. slice_get self.now place ≡ Some t.now) }
    {
        self.items.get(place)
    }

    /// The things in order.
    pub fn as_slice(&self) -> &[T]
        ensures { result.now ≡ self.now }
    {
        self.items.as_slice()
    }

    /// The things in order.
    pub fn into_items(self) -> Vec<T>
        ensures { result.items ≡ self }
    {
        self.items
    }
}

impl<T: Copy> InOrder<T> {
    /// The same things.
    pub fn copy(&self, alloc: Global) -> Result<InOrder<T>, Memory>
        ensures { IfOk result (λ a. a ≡ self.now) }
    {
        Ok(InOrder {
            items: Vec::from_slice(alloc, self.items.as_slice())?,
        })
    }
}
