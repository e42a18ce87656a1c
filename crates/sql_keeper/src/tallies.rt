// How many rows tables have, and the last numbers that they gave.
ghost use Rattle.std.specs.Prelude.{◌≡◌, ◌<◌, ◌-◌, ◌^◌, false};

use fx_base::Memory;
use std::alloc::Global;

#[derive(Clone, Copy)]
pub struct Count {
    /// The last number that was given, 0 at first.
    pub last: u32,
    pub rows: u32,
}

/// The count of a table, now and as the transaction began.
#[derive(Clone, Copy)]
pub struct Tally {
    pub now: Count,
    pub then: Count,
}

impl Tally {
    pub fn new(count: Count) -> Tally {
        Tally {
            now: count,
            then: count,
        }
    }
}

/// The count of no rows.
pub const NO_ROWS: Count = Count { last: 0, rows: 0 };

/// The tallies of so many tables without rows.
pub fn no_rows(alloc: Global, tables: usize) -> Result<Vec<Tally>, Memory> {
    let mut tallies = Vec::new(alloc);
    for _ in 0..tables {
        tallies.push(Tally::new(NO_ROWS))?;
    }
    Ok(tallies)
}

/// How many rows all tables have.
pub fn all_rows(tallies: &[Tally]) -> u64 {
    let mut sum = 0u64;
    for tally in tallies {
        sum = sum.saturating_add(u64::from(tally.now.rows));
    }
    sum
}

/// Whether a table takes no new row, where all tables have so many rows.
pub fn is_full(count: Count, all: u64) -> bool
    ensures { result ≡ false → count.last < 2 ^ 32 - 1 }
{
    count.rows >= 200_000 || all >= 500_000 || count.last == u32::MAX
}

/// Ends a transaction, with its changes or without.
pub fn end(tallies: &mut [Tally], with_changes: bool) {
    for tally in tallies.iter_mut() {
        if with_changes {
            tally.then = tally.now;
        } else {
            tally.now = tally.then;
        }
    }
}
