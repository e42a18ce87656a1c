// What is kept beside the rows of a table.
ghost use Rattle.std.specs.Prelude.{◌≡◌, ◌<◌, ◌^◌, ◌∷◌, ℕ, length, slice_get, IfOk, IfSome, OnOk};
ghost use Rattle.fx_value.specs.Aggregates.{SumsUp};
ghost use Rattle.number_bags.specs.Bags.{now_in};
ghost use Rattle.row_books.specs.Numbers.{AreEmpty, IsChanged, IsReadyBook, IsTotalOf};
ghost use Rattle.row_books.specs.Numbers.{by_columns, fresh, now_of, row_number, then_of};

use crate::bag_lists::{carry_all, empty_bags, prepare_all, restore_all, settle_all};
use crate::numbers::{Numbers, id_number};
use fx_base::Memory;
use fx_types::Totals;
use number_bags::{Number, NumberBag};
use std::alloc::Global;

/// The numbers of a table's rows, and the numbers in each of its columns, `ID` aside.
// A column of another type than Number has no numbers, and its bag takes no memory.
#[derive(Drop)]
pub struct Book {
    pub ids: NumberBag,
    pub columns: Vec<NumberBag>,
}

impl Book {
    /// No rows, of so many columns.
    pub fn new(alloc: Global, columns: usize) -> Result<Book, Memory>
        ensures empty { IfOk result (λ b. AreEmpty (now_of b)) }
        ensures many { IfOk result (λ b. length b.columns.items ≡ columns) }
    {
        Ok(Book {
            ids: NumberBag::new(alloc),
            columns: empty_bags(alloc, columns)?,
        })
    }

    /// How many rows there are.
    pub fn len(&self) -> u32
        ensures number { result ≡ length (now_in self.now.ids) }
        ensures few { result < 2 ^ 32 }
    {
        self.ids.len()
    }

    /// The number of a row that comes, unless it is counted already.
    // A keeper that tells nothing may answer a number twice.
    pub fn fresh(&self, id: u32) -> Option<Number>
        ensures { result ≡ fresh (row_number id) (now_in self.now.ids) }
    {
        let number = id_number(id);
        if self.ids.has(number) {
            None
        } else {
            Some(number)
        }
    }

    /// Makes ready that the numbers of a row go, and that those of another come.
    pub fn prepare(&mut self, out: &Numbers) -> Result<(), Memory>
        ensures now { now_of self.new ≡ now_of self.old }
        ensures then { then_of self.new ≡ then_of self.old }
        ensures ready { OnOk result (IsReadyBook self.new out.now) }
    {
        self.ids.prepare(out.id)?;
        prepare_all(&mut self.columns, &out.cells)
    }

    /// Lets the numbers of a row go, and those of another come. It takes no memory.
    pub fn carry_out(&mut self, out: &Numbers, put: &Numbers)
        requires { IsReadyBook self.old out.now }
        ensures now { IsChanged (by_columns out.now) (by_columns put.now) (now_of self.old)
            (now_of self.new) }
        ensures then { then_of self.new ≡ then_of self.old }
    {
        self.ids.carry_out(out.id, put.id);
        carry_all(&mut self.columns, &out.cells, &put.cells);
    }

    /// Ends a transaction without its changes, and takes no memory.
    pub fn restore(&mut self)
        ensures now { now_of self.new ≡ then_of self.old }
        ensures then { then_of self.new ≡ then_of self.old }
    {
        self.ids.restore();
        restore_all(&mut self.columns);
    }

    /// Ends a transaction with its changes, and takes no memory.
    pub fn settle(&mut self)
        ensures now { now_of self.new ≡ now_of self.old }
        ensures then { then_of self.new ≡ now_of self.old }
    {
        self.ids.settle();
        settle_all(&mut self.columns);
    }

    /// What the numbers of a column come to, where there is one. `ID` is column 0.
    pub fn totals(&self, column: u16) -> Option<Totals>
        ensures { IsTotalOf (slice_get (now_of self.now) column) result }
    {
        match column.checked_sub(1) {
            None => Some(self.ids.totals()),
            Some(place) => match self.columns.get(place as usize) {
                None => None,
                Some(bag) => Some(bag.totals()),
            },
        }
    }
}
