// What keepers say of calls.

use fx_base::Memory;
use fx_core::Schema;
use row_keeper::{KeeperEnd, Put, RowRefusal, RowRule};
use row_queries::Row;
use std::alloc::Global;
use view_text::plain;

/// What a keeper says of a call, written piece by piece.
// That a piece can't be written is kept and told at the end, so that nobody ends where a piece is
// written.
#[derive(Drop)]
pub struct Said {
    pub alloc: Global,
    text: String,
    /// Whether a piece is missing, for which there was no memory.
    is_short: bool,
}

impl Said {
    pub fn new(alloc: Global) -> Said {
        Said {
            alloc,
            text: String::new(alloc),
            is_short: false,
        }
    }

    /// Adds a piece.
    pub fn put(&mut self, piece: &str) {
        if self.text.push_str(piece).is_err() {
            self.miss();
        }
    }

    /// Adds a piece that was made, if there was memory for it.
    pub fn put_made<E: Drop>(&mut self, piece: Result<String, E>) {
        match piece {
            Ok(piece) => self.put(piece.as_str()),
            Err(_) => self.miss(),
        }
    }

    /// Keeps that there was no memory for a piece.
    pub fn miss(&mut self) {
        self.is_short = true;
    }

    /// All that was said, if no piece of it is missing.
    pub fn finish(self) -> Result<String, Memory> {
        if self.is_short {
            return Err(Memory);
        }
        Ok(self.text)
    }

    /// Adds how a call ended that answers nothing.
    pub fn put_done(&mut self, done: Result<(), KeeperEnd>) {
        match done {
            Ok(()) => self.put("done"),
            Err(why) => self.put_end(why),
        }
    }

    /// Adds why a call gave no answer.
    pub fn put_end(&mut self, end: KeeperEnd) {
        match end {
            KeeperEnd::Memory => self.put("no memory"),
            KeeperEnd::Failed => self.put("failed"),
        }
    }

    /// Adds what became of a row.
    pub fn put_row(&mut self, put: Result<Put, KeeperEnd>) {
        match put {
            Ok(Put::Id(id)) => self.put_made(format!(in self.alloc; "row {id}")),
            Ok(Put::NoRow) => self.put("no row"),
            Ok(Put::Refused(refusal)) => self.put_refusal(refusal),
            Err(why) => self.put_end(why),
        }
    }

    /// Adds which rule a row breaks.
    fn put_refusal(&mut self, refusal: RowRefusal) {
        self.put(match refusal.rule {
            RowRule::Required => "refused: required",
            RowRule::Unique => "refused: unique",
            RowRule::Size => "refused: size",
            RowRule::Full => "refused: full",
        });
        if let Some(column) = refusal.column {
            self.put_made(format!(in self.alloc; " of column {column}"));
        }
    }

    /// Adds which of the tables that were to move has a row that breaks a rule, and which rule.
    pub fn put_broken(&mut self, table: u16, refusal: RowRefusal) {
        self.put_made(format!(in self.alloc; "table {table} "));
        self.put_refusal(refusal);
    }

    /// Adds whether a row was there to be taken out.
    pub fn put_removed(&mut self, was: Result<bool, KeeperEnd>) {
        match was {
            Ok(true) => self.put("removed"),
            Ok(false) => self.put("no row"),
            Err(why) => self.put_end(why),
        }
    }

    /// Adds that another schema is kept, with its tables and columns.
    pub fn put_other(&mut self, schema: &Schema) {
        self.put("another is kept:");
        for table in schema.tables.as_slice() {
            self.put(" ");
            self.put(table.name.as_str());
            for column in table.columns.as_slice() {
                self.put(".");
                self.put(column.name.as_str());
            }
        }
    }

    /// Adds rows, each with its number and cells.
    pub fn put_rows(&mut self, rows: &[Row]) {
        self.put_made(format!(in self.alloc; "{} rows", rows.len()));
        for row in rows {
            self.put_made(format!(in self.alloc; "; {}", row.id));
            for cell in row.cells.as_slice() {
                self.put(" ");
                self.put_made(plain(self.alloc, cell));
            }
        }
    }

    /// Adds how many rows there are.
    pub fn put_count(&mut self, count: u64) {
        self.put_made(format!(in self.alloc; "{count}"));
    }

    /// Adds how many quantities there are, and their sum in ten-thousandths.
    pub fn put_total(&mut self, count: u64, sum: i128) {
        self.put_made(format!(in self.alloc; "{count} of sum {sum}"));
    }

    /// Adds all that was said elsewhere.
    pub fn put_all(&mut self, said: &Said) {
        self.put(said.text.as_str());
        if said.is_short {
            self.miss();
        }
    }

    /// Adds what another keeper says of a call, where it differs from what this one says.
    pub fn put_differing(&mut self, name: &str, this: &Said, other: &Said) {
        if other.is_short {
            self.miss();
        }
        if this.text.as_str() != other.text.as_str() {
            self.put("\n  ");
            self.put(name);
            self.put(": ");
            self.put(other.text.as_str());
        }
    }
}
