// What a transaction has made of rows, beside what is kept of them.
ghost use Rattle.std.specs.Prelude.{◌+◌, ◌<◌, ◌^◌, length};

use std::collections::BTreeMap;

/// The body of a row's line as the transaction began, and now, where the row is still there.
#[derive(Drop)]
pub struct Change {
    pub was: Vec<u8>,
    pub now: Option<Vec<u8>>,
}

/// What a transaction has made of a row.
#[derive(Clone, Copy)]
pub enum Made<'a> {
    /// It is as it is kept, if it is kept.
    Same,
    /// It is there no more, or never was.
    Gone,
    /// Its line has this body.
    Body(&'a [u8]),
}

/// What a transaction has made of a table.
pub struct TableChanges {
    /// The last number that the table had given as the transaction began.
    pub first: u32,
    /// The rows that were there and have changed, by their numbers.
    pub changed: BTreeMap<u32, Change>,
    /// The bodies of the rows that were put since, by rising numbers behind the first; None where
    /// one is gone again.
    pub added: Vec<Option<Vec<u8>>>,
    ghost bounded: { first + length added.items < 2 ^ 32 },
}

// By hand, so that it is called: what is derived is opened wherever a value may end, which costs
// proofs seconds each time.
impl Drop for TableChanges {
    fn drop(self) {
        let TableChanges {
            first: _,
            changed: _,
            added: _,
        } = self;
    }
}
