//! A keeper that writes down what it is asked.
ghost use Rattle.std.specs.Prelude.{◌≡◌};

use fx_core::Schema;
use fx_types::Totals;
use row_keeper::{Keeper, KeeperEnd, Put, Reshaped, TableMove};
use row_queries::{Cells, Query, RowList};
use std::alloc::{AllocError, Global};

/// A question about the rows of a table.
#[derive(Clone, Copy)]
pub struct Question {
    word: &'static str,
    table: u16,
}

/// A keeper with the questions about rows that it was asked, in their order.
#[derive(Drop)]
pub struct AskedKeeper<K: Keeper> {
    pub keeper: K,
    asked: Vec<Question>,
}

impl<K: Keeper> AskedKeeper<K> {
    /// Nothing was asked yet.
    pub fn new(alloc: Global, keeper: K) -> AskedKeeper<K>
        ensures { result.keeper ≡ keeper }
    {
        AskedKeeper {
            keeper,
            asked: Vec::new(alloc),
        }
    }

    /// The questions, as `count 0, scan 1`: each with the number of its table.
    pub fn questions(&self, alloc: Global) -> Result<String, AllocError> {
        let mut text = String::new(alloc);
        for question in &self.asked {
            if !text.is_empty() {
                text.push_str(", ")?;
            }
            let (word, table) = (question.word, question.table);
            text.push_str(&format!(in alloc; "{word} {table}")?)?;
        }
        Ok(text)
    }

    // Without memory a question stays unwritten, which shows as a difference.
    fn write_down(&mut self, word: &'static str, table: u16)
        ensures { self.new.keeper ≡ self.old.keeper }
    {
        let _ = self.asked.push(Question { word, table });
    }
}

impl<K: Keeper> Keeper for AskedKeeper<K> {
    ghost told = { λ k. K.told k.keeper };

    ghost began = { λ k. K.began k.keeper };

    ghost leaves = { λ k. K.leaves k.keeper };

    ghost attached = { λ k. K.attached k.keeper };

    ghost shaped = { λ k. K.shaped k.keeper };

    ghost in_transaction = { λ k. K.in_transaction k.keeper };

    ghost marks = { λ k. K.marks k.keeper };

    ghost visited = { λ k. K.visited k.keeper };

    ghost loan = { λ k. K.loan k.keeper };

    ghost attaches = { λ k name l. K.attaches k.keeper name l.keeper };

    ghost ends = { λ k l end. K.ends k.keeper l.keeper end };

    ghost commits = { λ k l end. K.commits k.keeper l.keeper end };

    ghost backs = { λ k l. K.backs k.keeper l.keeper };

    ghost quiet = { λ k. K.quiet k.keeper };

    ghost heard = { λ k. K.heard k.keeper };

    fn attach(&mut self, name: &str) -> Result<(), KeeperEnd> {
        self.keeper.attach(name)
    }

    fn shape(&mut self, schema: &Schema) -> Result<Option<Schema>, KeeperEnd> {
        self.keeper.shape(schema)
    }

    fn begin(&mut self) -> Result<(), KeeperEnd> {
        self.keeper.begin()
    }

    fn insert(&mut self, table: u16, cells: &Cells) -> Result<Put, KeeperEnd> {
        self.keeper.insert(table, cells)
    }

    fn replace(&mut self, table: u16, id: u32, cells: &Cells) -> Result<Put, KeeperEnd> {
        self.keeper.replace(table, id, cells)
    }

    fn remove(&mut self, table: u16, id: u32) -> Result<bool, KeeperEnd> {
        self.keeper.remove(table, id)
    }

    fn reshape(&mut self, schema: &Schema, moves: &[TableMove]) -> Result<Reshaped, KeeperEnd> {
        self.keeper.reshape(schema, moves)
    }

    fn commit(&mut self) -> Result<(), KeeperEnd> {
        self.keeper.commit()
    }

    fn back(&mut self) {
        self.keeper.back()
    }

    fn scan(&mut self, query: &Query) -> Result<RowList, KeeperEnd> {
        self.write_down("scan", query.table);
        self.keeper.scan(query)
    }

    fn count(&mut self, query: &Query) -> Result<u32, KeeperEnd> {
        self.write_down("count", query.table);
        self.keeper.count(query)
    }

    fn total(&mut self, query: &Query, column: u16) -> Result<Totals, KeeperEnd> {
        self.write_down("total", query.table);
        self.keeper.total(query, column)
    }

    fn fits(&self) {
        self.keeper.fits()
    }
}
