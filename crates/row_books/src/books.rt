// What is kept beside the rows of tables, as a transaction began and now.
ghost use Rattle.std.specs.Prelude.{◌≡◌, ◌<◌, [], None, length, map, option_map, slice_get};
ghost use Rattle.std.specs.Prelude.{IsSomeAnd, OnErr, OnOk};
ghost use Rattle.row_books.specs.Numbers.{ChangesAt, IsCarriedBook, IsChangedAt, IsCountOf};
ghost use Rattle.row_books.specs.Numbers.{IsPreparedBook, IsReadyAt, IsReadyBook, IsTotalOf};
ghost use Rattle.row_books.specs.Numbers.{StandsBook, books_then, by_columns, column_in, fresh_in};
ghost use Rattle.row_books.specs.Numbers.{now_of, tables_now, tables_then, then_of};
ghost use Rattle.row_books.specs.declared.book.Book.{Book as TableBook};

use crate::book::Book;
use crate::numbers::Numbers;
use fx_base::Memory;
use fx_types::Totals;
use number_bags::Number;
use std::alloc::Global;
use std::mem;

/// A book for each table, and those of the tables before the transaction moved them, if it did.
#[derive(Drop)]
pub struct Books {
    pub tables: Vec<Book>,
    pub aside: Option<Vec<Book>>,
}

/// Ends a transaction of books without its changes, and takes no memory.
fn restore_all(books: &mut [Book])
    ensures now { map now_of books.new ≡ map then_of books.old }
    ensures then { map then_of books.new ≡ map then_of books.old }
{
    for book in books.iter_mut() {
        book.restore();
    }
}

/// Ends a transaction of books with its changes, and takes no memory.
fn settle_all(books: &mut [Book])
    ensures now { map now_of books.new ≡ map now_of books.old }
    ensures then { map then_of books.new ≡ map now_of books.old }
{
    for book in books.iter_mut() {
        book.settle();
    }
}

/// Makes ready that the numbers of a row of a table go, and that those of another come.
fn prepare_at(books: &mut [Book], table: usize, out: &Numbers) -> Result<(), Memory>
    requires { table < length books.old }
    ensures ok { OnOk result (ChangesAt table (IsPreparedBook out.now) books.old books.new) }
    ensures err { OnErr result (ChangesAt table StandsBook books.old books.new) }
{
    let book = &mut books[table];
    book.prepare(out)
}

/// Lets the numbers of a row of a table go, and those of another come.
fn carry_at(books: &mut [Book], table: usize, out: &Numbers, put: &Numbers)
    requires { IsSomeAnd (slice_get books.old table) (λ (b : TableBook). IsReadyBook b out.now) }
    ensures { ChangesAt table (IsCarriedBook out.now put.now) books.old books.new }
{
    let book = &mut books[table];
    book.carry_out(out, put);
}

/// The books that were put aside, or these.
fn first_of(aside: Option<Vec<Book>>, books: Vec<Book>) -> Vec<Book>
    ensures { result.items ≡ books_then books.items (option_map (λ a. a.items) aside) }
{
    match aside {
        None => books,
        Some(first) => first,
    }
}

impl Books {
    /// No tables.
    pub fn new(alloc: Global) -> Books
        ensures { (tables_now result ≡ []) × (tables_then result ≡ []) }
    {
        Books {
            tables: Vec::new(alloc),
            aside: None,
        }
    }

    /// Takes over the books of rows in which nothing has changed since the transaction began.
    pub fn fill(&mut self, tables: Vec<Book>)
        requires { map then_of tables.items ≡ map now_of tables.items }
        ensures now { tables_now self.new ≡ map now_of tables.items }
        ensures then { tables_then self.new ≡ map now_of tables.items }
    {
        self.tables = tables;
        self.aside = None;
    }

    /// Goes on with other books, and puts those aside that were there as the transaction began.
    pub fn move_to(&mut self, tables: Vec<Book>)
        ensures now { tables_now self.new ≡ map now_of tables.items }
        ensures then { tables_then self.new ≡ tables_then self.old }
    {
        let before = mem::replace(&mut self.tables, tables);
        self.aside = Some(first_of(self.aside.take(), before));
    }

    /// The number of a row that comes into a table, unless it is counted already.
    pub fn fresh(&self, table: u16, id: u32) -> Option<Number>
        ensures { result ≡ fresh_in (tables_now self.now) table id }
    {
        match self.tables.get(table as usize) {
            None => None,
            Some(book) => book.fresh(id),
        }
    }

    /// Makes ready that the numbers of a row of a table go, and that those of another come.
    pub fn prepare(&mut self, table: u16, out: &Numbers) -> Result<(), Memory>
        ensures now { tables_now self.new ≡ tables_now self.old }
        ensures then { tables_then self.new ≡ tables_then self.old }
        ensures ready { OnOk result (IsReadyAt table self.new out.now) }
    {
        let place = table as usize;
        if place >= self.tables.len() {
            return Ok(());
        }
        prepare_at(&mut self.tables, place, out)
    }

    /// Lets the numbers of a row of a table go, and those of another come. It takes no memory.
    pub fn carry_out(&mut self, table: u16, out: &Numbers, put: &Numbers)
        requires { IsReadyAt table self.old out.now }
        ensures now { IsChangedAt table (by_columns out.now) (by_columns put.now)
            (tables_now self.old) (tables_now self.new) }
        ensures then { tables_then self.new ≡ tables_then self.old }
    {
        let place = table as usize;
        if place < self.tables.len() {
            carry_at(&mut self.tables, place, out, put);
        }
    }

    /// Goes back to the books that were put aside, if any were.
    fn take_back(&mut self)
        ensures tables { self.new.tables.items ≡ books_then self.old.tables.items
            (option_map (λ a. a.items) self.old.aside) }
        ensures aside { self.new.aside ≡ None }
    {
        if let Some(tables) = self.aside.take() {
            self.tables = tables;
        }
    }

    /// Ends a transaction without its changes, and takes no memory.
    pub fn restore(&mut self)
        ensures now { tables_now self.new ≡ tables_then self.old }
        ensures then { tables_then self.new ≡ tables_then self.old }
    {
        self.take_back();
        restore_all(&mut self.tables);
    }

    /// Ends a transaction with its changes, and takes no memory.
    pub fn settle(&mut self)
        ensures now { tables_now self.new ≡ tables_now self.old }
        ensures then { tables_then self.new ≡ tables_now self.old }
    {
        self.aside = None;
        settle_all(&mut self.tables);
    }

    /// How many rows a table has, where there is one.
    pub fn count(&self, table: u16) -> Option<u32>
        ensures { IsCountOf (column_in (tables_now self.now) table 0) result }
    {
        match self.tables.get(table as usize) {
            None => None,
            Some(book) => Some(book.len()),
        }
    }

    /// What the numbers of a column of a table come to, where there is one. `ID` is column 0.
    pub fn totals(&self, table: u16, column: u16) -> Option<Totals>
        ensures { IsTotalOf (column_in (tables_now self.now) table column) result }
    {
        match self.tables.get(table as usize) {
            None => None,
            Some(book) => book.totals(column),
        }
    }
}
