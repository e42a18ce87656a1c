// The types of values.
ghost use Rattle.std.specs.Prelude.{◌≡◌, ◌≤◌, ◌++◌, ◌∷◌, [], length, slice_get, Some, IfOk};
ghost use Rattle.std.specs.Prelude.{option_map, OnOk, OnErr, MatchOption};
ghost use Rattle.fx_types.specs.Lookup.{item_named};
ghost use Rattle.fx_types.specs.Rising.{AreNamesRising};
ghost use Rattle.fx_types.specs.TypeView.{shape, columns_view};

use crate::words::Words;
use fx_number::Memory;
use std::alloc::Global;
use std::marker::Model;

/// The type of a formula's value.
#[cycle(ty)]
#[derive(Drop)]
pub enum Ty {
    /// The type of what is always blank or an error.
    Blank,
    Number,
    Text,
    Boolean,
    Date,
    /// A record of these columns.
    Rec(Columns),
    /// A table of these columns.
    Tab(Columns),
}

/// The columns of a record or a table, by rising names.
// No `InOrder`: what holds itself needs a size that falls, so that calls down a type end, and these
// have rising names as well.
#[cycle(ty)]
#[derive(Drop)]
pub struct Columns {
    items: Vec<(Words, Ty)>,
}

impl Model for Columns {
    ghost use Rattle.std.specs.Prelude.{ℕ, List};
    ghost use Rattle.fx_types.specs.Types.{Shape, shapes_size};
    ghost use Rattle.fx_types.specs.TypeCode.{columns_code};

    ghost Value = { List (List ℕ × Shape) };

    ghost coded = { columns_code };

    ghost use Rattle.fx_types.specs.TypeView.{columns_view};
    ghost use Rattle.fx_types.specs.Rising.{AreNamesRising};

    ghost view = { λ a. columns_view a.items.items };

    ghost invariant = { λ a. AreNamesRising (columns_view a.items.items) };

    ghost size = { shapes_size };

    ghost use Rattle.std.proofs.Common.{arith};
    ghost use Rattle.fx_types.specs.TypeFalls.{columns_fall};

    ghost size_decreases = { λ a h. omega (arith, columns_fall a.items.items) };
}

impl Ty {
    /// The same type.
    // By hand, since a derived `Clone` promises nothing of a type that holds itself.
    #[cycle(copy)]
    pub fn copy(&self, alloc: Global) -> Result<Ty, Memory>
        ensures { IfOk result (λ t. t ≡ self.now) }
    {
        match self {
            Ty::Blank => Ok(Ty::Blank),
            Ty::Number => Ok(Ty::Number),
            Ty::Text => Ok(Ty::Text),
            Ty::Boolean => Ok(Ty::Boolean),
            Ty::Date => Ok(Ty::Date),
            Ty::Rec(columns) => Ok(Ty::Rec(columns.copy(alloc)?)),
            Ty::Tab(columns) => Ok(Ty::Tab(columns.copy(alloc)?)),
        }
    }
}

impl Columns {
    /// No columns.
    pub fn new(alloc: Global) -> Columns
        ensures { result ≡ [] }
    {
        Columns {
            items: Vec::new(alloc),
        }
    }

    /// Adds a column, whose name is above all others.
    pub fn push(&mut self, item: (Words, Ty)) -> Result<(), Memory>
        requires { AreNamesRising (self.old ++ (item.0, shape item.1) ∷ []) }
        ensures ok { OnOk result (self.new ≡ self.old ++ (item.0, shape item.1) ∷ []) }
        ensures err { OnErr result (self.new ≡ self.old) }
    {
        self.items.push(item)?;
        Ok(())
    }

    /// How many columns there are.
    pub fn len(&self) -> usize
        ensures { result ≡ length self.now }
    {
        self.items.len()
    }

    /// The column at a place, counted from 0.
    pub fn get(&self, place: usize) -> Option<&(Words, Ty)>
        ensures { MatchOption result (length self.now ≤ place)
            (λ c. slice_get self.now place ≡ Some (c.now.0, shape c.now.1)) }
    {
        self.items.get(place)
    }

    /// The type of the column of this name.
    pub fn ty(&self, name: &Words) -> Option<&Ty>
        ensures { option_map (λ t. shape t.now) result ≡ item_named name.now self.now }
    {
        for (other, ty) in &self.items {
            if other.is(name) {
                return Some(ty);
            }
        }
        None
    }

    /// The columns by rising names.
    pub fn as_slice(&self) -> &[(Words, Ty)]
        ensures columns { columns_view result.now ≡ self.now }
        ensures rising { AreNamesRising self.now }
    {
        self.items.as_slice()
    }

    /// The columns by rising names.
    pub fn into_items(self) -> Vec<(Words, Ty)>
        ensures columns { columns_view result.items ≡ self }
        ensures rising { AreNamesRising self }
    {
        self.items
    }

    /// These columns, which have rising names.
    pub fn from_rising(items: Vec<(Words, Ty)>) -> Columns
        requires { AreNamesRising (columns_view items.items) }
        ensures { result ≡ columns_view items.items }
    {
        Columns { items }
    }

    /// The same columns.
    #[cycle(copy)]
    pub fn copy(&self, alloc: Global) -> Result<Columns, Memory>
        ensures { IfOk result (λ c. c ≡ self.now) }
    {
        let mut items = Vec::with_capacity(alloc, self.items.len())?;
        for (name, ty) in &self.items {
            items.push((name.copy(alloc)?, ty.copy(alloc)?))?;
        }
        Ok(Columns { items })
    }
}
