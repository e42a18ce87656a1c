// The connection of a keeper, which may be lost.
ghost use Rattle.std.specs.Prelude.{◌≡◌, ◌≤◌, false, true, OnErr, OnOk};
ghost use Rattle.fx_base.specs.Faults.{Rose};
ghost use Rattle.sqlite.specs.Held.{state};
ghost use Rattle.store_model.specs.Ends.{call_failed};
ghost use Rattle.store_keeper.specs.Seats.{SeatWrites};

use fx_core::Schema;
use row_changes::TableChanges;
use row_keeper::KeeperEnd;
use sqlite::{Alter, Connection};
use std::alloc::Global;
use store_writing::write_changes;

/// Counts a fault where a call has failed. The keeper doesn't know its tables any more then.
pub fn count_fault<T>(knows: &mut bool, faults: &mut u64, given: &Result<T, KeeperEnd>)
    ensures knows { call_failed given.now ≡ false → knows.new ≡ knows.old }
    ensures silent { call_failed given.now ≡ true → knows.new ≡ false }
    ensures later { faults.old ≤ faults.new }
    ensures rose { call_failed given.now ≡ true → Rose faults.old faults.new }
{
    match given {
        Ok(_) => {}
        Err(KeeperEnd::Memory) => {}
        Err(KeeperEnd::Failed) => {
            // At its greatest it stands still, which counts as a rise.
            *faults = faults.saturating_add(1);
            *knows = false;
        }
    }
}

/// Whether a call gave an answer.
pub fn has_answer<T>(given: &Result<T, KeeperEnd>) -> bool
    ensures ok { OnOk given.now (result ≡ true) }
    ensures err { OnErr given.now (result ≡ false) }
{
    match given {
        Ok(_) => true,
        Err(_) => false,
    }
}

/// Writes what a transaction has made of the tables of a schema.
pub fn write_seat<S: Alter>(
    alloc: Global,
    seat: &mut Option<Connection<S>>,
    schema: &Option<Schema>,
    changes: &[TableChanges],
) -> Result<(), KeeperEnd>
    ensures { SeatWrites (state S.Store) seat.old seat.new schema.now changes.now result }
{
    let Some(conn) = seat else {
        return Err(KeeperEnd::Failed);
    };
    let Some(schema) = schema else {
        return Err(KeeperEnd::Failed);
    };
    write_changes(alloc, conn, schema, changes)
}
