//! The rows of tables.
ghost use Rattle.std.specs.Prelude.{◌≡◌, ◌≤◌, ◌++◌, ◌∷◌, [], length, map, slice_get, Some, IfOk};
ghost use Rattle.std.specs.Prelude.{OnOk, OnErr, MatchOption};
ghost use Rattle.fx_types.specs.ValueView.{view};

use fx_base::{InOrder, Memory};
use fx_types::{Fault, Value};
use std::alloc::Global;
use std::marker::Model;

/// The values of a row, one for each column of its table, `ID` aside.
// No `InOrder`, of which contracts see the values themselves: of this they see plain data.
#[derive(Drop)]
pub struct Cells {
    items: Vec<Value>,
}

impl Model for Cells {
    ghost use Rattle.std.specs.Prelude.{List, map};
    ghost use Rattle.std.specs.Coded.{coded_list};
    ghost use Rattle.fx_types.specs.Values.{Data};
    ghost use Rattle.fx_types.specs.ValueCode.{data_code};
    ghost use Rattle.fx_types.specs.ValueView.{view as value_view};

    ghost Value = { List Data };

    ghost coded = { coded_list data_code };

    ghost view = { λ a. map value_view a.items.items };
}

/// A row of a table.
#[derive(Drop)]
pub struct Row {
    /// The number that the table gave it, from 1.
    pub id: u32,
    pub cells: Cells,
}

/// Rows, or the error of a row test that stands in their place.
#[derive(Drop)]
pub struct RowList {
    pub rows: InOrder<Row>,
    pub fault: Option<Fault>,
}

impl Cells {
    /// No cells.
    pub fn new(alloc: Global) -> Cells
        ensures { result ≡ [] }
    {
        Cells {
            items: Vec::new(alloc),
        }
    }

    /// Adds a cell at the end.
    pub fn push(&mut self, cell: Value) -> Result<(), Memory>
        ensures ok { OnOk result (self.new ≡ self.old ++ view cell ∷ []) }
        ensures err { OnErr result (self.new ≡ self.old) }
    {
        self.items.push(cell)?;
        Ok(())
    }

    /// How many cells there are.
    pub fn len(&self) -> usize
        ensures { result ≡ length self.now }
    {
        self.items.len()
    }

    /// The cell at a place, counted from 0.
    pub fn get(&self, place: usize) -> Option<&Value>
        ensures { MatchOption result (length self.now ≤ place)
            (λ v. slice_get self.now place ≡ Some (view v.now)) }
    {
        self.items.get(place)
    }

    /// The cells in order.
    pub fn as_slice(&self) -> &[Value]
        ensures { map view result.now ≡ self.now }
    {
        self.items.as_slice()
    }

    /// The cells in order.
    pub fn into_items(self) -> Vec<Value>
        ensures { map view result.items ≡ self }
    {
        self.items
    }

    /// The same cells.
    pub fn copy(&self, alloc: Global) -> Result<Cells, Memory>
        ensures { IfOk result (λ c. c ≡ self.now) }
    {
        let mut items = Vec::with_capacity(alloc, self.items.len())?;
        for cell in &self.items {
            items.push(cell.copy(alloc)?)?;
        }
        Ok(Cells { items })
    }
}

impl Row {
    /// The same row.
    pub fn copy(&self, alloc: Global) -> Result<Row, Memory>
        ensures { IfOk result (λ r. r ≡ self.now) }
    {
        Ok(Row {
            id: self.id,
            cells: self.cells.copy(alloc)?,
        })
    }
}
