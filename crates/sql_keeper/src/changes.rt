// What a transaction has made of rows. It is written to the database at its end alone: a statement
// that fails in a transaction of the database may undo all of it.

use fx_base::Memory;
use std::alloc::Global;
use std::collections::BTreeMap;

/// The bodies of a row's line as the transaction began and now, where there is one.
#[derive(Drop)]
pub struct Change {
    pub was: Option<Vec<u8>>,
    pub now: Option<Vec<u8>>,
}

/// The rows that a transaction has changed, by their tables and numbers.
pub struct Changes {
    pub by_row: BTreeMap<(u16, u32), Change>,
}

// By hand, so that it is called: what is derived is opened wherever a value may end, which costs
// proofs seconds each time.
impl Drop for Changes {
    fn drop(self) {
        let Changes { by_row: _ } = self;
    }
}

impl Changes {
    pub fn new(alloc: Global) -> Changes {
        Changes {
            by_row: BTreeMap::new(alloc),
        }
    }

    /// What was made of a row, if it was changed.
    pub fn of(&self, tab: u16, id: u32) -> Option<&Change> {
        self.by_row.get(&(tab, id))
    }

    /// Gives a row another body, or none. This is the one that it has now.
    pub fn put(
        &mut self,
        tab: u16,
        id: u32,
        was: Option<Vec<u8>>,
        now: Option<Vec<u8>>,
    ) -> Result<(), Memory> {
        if let Some(change) = self.by_row.get_mut(&(tab, id)) {
            change.now = now;
            return Ok(());
        }
        self.by_row.insert((tab, id), Change { was, now })?;
        Ok(())
    }
}
