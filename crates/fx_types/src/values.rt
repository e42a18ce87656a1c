// The values of formulas.
ghost use Rattle.std.specs.Prelude.{◌≡◌, ◌≤◌, ◌++◌, ◌∷◌, [], length, slice_get, Some, IfOk};
ghost use Rattle.std.specs.Prelude.{option_map, OnOk, OnErr, MatchOption};
ghost use Rattle.fx_types.specs.Lookup.{item_named};
ghost use Rattle.fx_types.specs.Rising.{AreNamesRising};
ghost use Rattle.fx_types.specs.ValueView.{fields_view, view};

use crate::days::Day;
use crate::faults::Fault;
use crate::words::Words;
use fx_number::{Memory, Num};
use std::alloc::Global;
use std::marker::Model;

/// The value of a formula.
#[cycle(value)]
#[derive(Drop)]
pub enum Value {
    /// No value, which every type has.
    Blank,
    Number(Num),
    Text(Words),
    Boolean(bool),
    Date(Day),
    /// A record.
    Rec(Fields),
    /// A table.
    Tab(Rows),
    /// An error.
    Fault(Fault),
}

/// The fields of a record, by rising names.
// No `InOrder`, as with the columns of a type: it has a size and an invariant of its own.
#[cycle(value)]
#[derive(Drop)]
pub struct Fields {
    items: Vec<(Words, Value)>,
}

impl Model for Fields {
    ghost use Rattle.std.specs.Prelude.{ℕ, List};
    ghost use Rattle.fx_types.specs.Values.{Data};
    ghost use Rattle.fx_types.specs.ValueCode.{fields_code};

    ghost Value = { List (List ℕ × Data) };

    ghost coded = { fields_code };

    ghost use Rattle.fx_types.specs.ValueView.{fields_view};
    ghost use Rattle.fx_types.specs.Rising.{AreNamesRising};
    ghost use Rattle.fx_types.specs.Values.{list_size};

    ghost view = { λ a. fields_view a.items.items };

    ghost invariant = { λ a. AreNamesRising (fields_view a.items.items) };

    ghost size = { list_size };

    ghost use Rattle.std.proofs.Common.{arith};
    ghost use Rattle.fx_types.specs.ValueFalls.{fields_fall};

    ghost size_decreases = { λ a h. omega (arith, fields_fall a.items.items) };
}

/// The rows of a table, each the fields of a record.
#[cycle(value)]
#[derive(Drop)]
pub struct Rows {
    items: Vec<Fields>,
}

impl Model for Rows {
    ghost use Rattle.std.specs.Prelude.{ℕ, List};
    ghost use Rattle.fx_types.specs.Values.{Data, table_size};
    ghost use Rattle.fx_types.specs.ValueCode.{rows_code};

    ghost Value = { List (List (List ℕ × Data)) };

    ghost coded = { rows_code };

    ghost view = { λ a. a.items.items };

    ghost size = { table_size };

    ghost use Rattle.std.proofs.Common.{arith};
    ghost use Rattle.fx_types.specs.ValueFalls.{most_le-rows_size};

    ghost size_decreases = { λ a h. omega (arith, most_le-rows_size a.items.items) };
}

impl Value {
    /// The same value.
    #[cycle(copy)]
    pub fn copy(&self, alloc: Global) -> Result<Value, Memory>
        ensures { IfOk result (λ v. v ≡ self.now) }
    {
        match self {
            Value::Blank => Ok(Value::Blank),
            Value::Number(number) => Ok(Value::Number(*number)),
            Value::Text(text) => Ok(Value::Text(text.copy(alloc)?)),
            Value::Boolean(truth) => Ok(Value::Boolean(*truth)),
            Value::Date(day) => Ok(Value::Date(*day)),
            Value::Rec(fields) => Ok(Value::Rec(fields.copy(alloc)?)),
            Value::Tab(rows) => Ok(Value::Tab(rows.copy(alloc)?)),
            Value::Fault(fault) => Ok(Value::Fault(fault.copy(alloc)?)),
        }
    }
}

impl Fields {
    /// A record without fields.
    pub fn new(alloc: Global) -> Fields
        ensures { result ≡ [] }
    {
        Fields {
            items: Vec::new(alloc),
        }
    }

    /// Adds a field, whose name is above all others.
    pub fn push(&mut self, item: (Words, Value)) -> Result<(), Memory>
        requires { AreNamesRising (self.old ++ (item.0, view item.1) ∷ []) }
        ensures ok { OnOk result (self.new ≡ self.old ++ (item.0, view item.1) ∷ []) }
        ensures err { OnErr result (self.new ≡ self.old) }
    {
        self.items.push(item)?;
        Ok(())
    }

    /// How many fields there are.
    pub fn len(&self) -> usize
        ensures { result ≡ length self.now }
    {
        self.items.len()
    }

    /// The field at a place, counted from 0.
    pub fn get(&self, place: usize) -> Option<&(Words, Value)>
        ensures { MatchOption result (length self.now ≤ place)
            (λ f. slice_get self.now place ≡ Some (f.now.0, view f.now.1)) }
    {
        self.items.get(place)
    }

    /// The value of the field of this name.
    pub fn value(&self, name: &Words) -> Option<&Value>
        ensures { option_map (λ v. view v.now) result ≡ item_named name.now self.now }
    {
        for (other, value) in &self.items {
            if other.is(name) {
                return Some(value);
            }
        }
        None
    }

    /// The fields by rising names.
    pub fn as_slice(&self) -> &[(Words, Value)]
        ensures fields { fields_view result.now ≡ self.now }
        ensures rising { AreNamesRising self.now }
    {
        self.items.as_slice()
    }

    /// The fields by rising names.
    pub fn into_items(self) -> Vec<(Words, Value)>
        ensures fields { fields_view result.items ≡ self }
        ensures rising { AreNamesRising self }
    {
        self.items
    }

    /// The record of these fields, which have rising names.
    pub fn from_rising(items: Vec<(Words, Value)>) -> Fields
        requires { AreNamesRising (fields_view items.items) }
        ensures { result ≡ fields_view items.items }
    {
        Fields { items }
    }

    /// The same fields.
    #[cycle(copy)]
    pub fn copy(&self, alloc: Global) -> Result<Fields, Memory>
        ensures { IfOk result (λ f. f ≡ self.now) }
    {
        let mut items = Vec::with_capacity(alloc, self.items.len())?;
        for (name, value) in &self.items {
            items.push((name.copy(alloc)?, value.copy(alloc)?))?;
        }
        Ok(Fields { items })
    }
}

impl Rows {
    /// A table without rows.
    pub fn new(alloc: Global) -> Rows
        ensures { result ≡ [] }
    {
        Rows {
            items: Vec::new(alloc),
        }
    }

    /// Adds a row at the end.
    pub fn push(&mut self, item: Fields) -> Result<(), Memory>
        ensures ok { OnOk result (self.new ≡ self.old ++ item ∷ []) }
        ensures err { OnErr result (self.new ≡ self.old) }
    {
        self.items.push(item)?;
        Ok(())
    }

    /// How many rows there are.
    pub fn len(&self) -> usize
        ensures { result ≡ length self.now }
    {
        self.items.len()
    }

    /// The row at a place, counted from 0.
    pub fn get(&self, place: usize) -> Option<&Fields>
        ensures { MatchOption result (length self.now ≤ place)
            (λ r. slice_get self.now place ≡ Some r.now) }
    {
        self.items.get(place)
    }

    /// The rows in order.
    pub fn as_slice(&self) -> &[Fields]
        ensures { result.now ≡ self.now }
    {
        self.items.as_slice()
    }

    /// The rows in order.
    pub fn into_items(self) -> Vec<Fields>
        ensures { result.items ≡ self }
    {
        self.items
    }

    /// The table of these rows.
    pub fn from_items(items: Vec<Fields>) -> Rows
        ensures { result ≡ items.items }
    {
        Rows { items }
    }

    /// The same rows.
    #[cycle(copy)]
    pub fn copy(&self, alloc: Global) -> Result<Rows, Memory>
        ensures { IfOk result (λ r. r ≡ self.now) }
    {
        let mut items = Vec::with_capacity(alloc, self.items.len())?;
        for row in &self.items {
            items.push(row.copy(alloc)?)?;
        }
        Ok(Rows { items })
    }
}
