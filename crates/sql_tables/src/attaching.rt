// A database that is taken over: its tables are made, or known to be in order.
ghost use Rattle.std.specs.Prelude.{◌≡◌, ◌≤◌, false, IfErr, IfOk, IsTrue, OnErr, OnOk};
ghost use Rattle.sqlite.specs.Held.{state};
ghost use Rattle.sqlite.specs.State.{HasCleanDisk, Survives};
ghost use Rattle.sqlite_trees.specs.View.{IsQuiet, doubt};
ghost use Rattle.sql_meanings.specs.Schema.{kept_schema, no_schema};
ghost use Rattle.sql_meanings.specs.UnderWay.{AreEmpty, IsNew, IsReady};

use crate::making::make_tables;
use sqlite::{Alter, Connection, Error, ErrorCode};
use std::alloc::Global;

/// Makes the four tables in a database that has none, all of them or none. Inside a transaction it
/// is refused.
pub fn make_all<S: Alter>(conn: &mut Connection<S>) -> Result<(), Error>
    ensures made { HasCleanDisk (state S.Store conn.new)
        → (state S.Store conn.old).now.schema ≡ no_schema
        → OnOk result (IsNew (state S.Store conn.new)) }
    ensures undone { HasCleanDisk (state S.Store conn.new)
        → (state S.Store conn.old).in_transaction ≡ false → IsTrue (state S.Store conn.new).is_open
        → OnErr result (((state S.Store conn.new).now ≡ (state S.Store conn.old).committed)
        × ((state S.Store conn.new).committed ≡ (state S.Store conn.old).committed)) }
    ensures was_open { HasCleanDisk (state S.Store conn.new)
        → IsTrue (state S.Store conn.new).is_open → IsTrue (state S.Store conn.old).is_open }
    ensures mode { (state S.Store conn.old).in_transaction ≡ false
        → (state S.Store conn.new).in_transaction ≡ false }
    ensures survives { Survives (state S.Store conn.old) (state S.Store conn.new)
        (λ db. (state S.Store conn.old).now.schema ≡ no_schema → AreEmpty db) }
{
    if !conn.is_autocommit() {
        return Err(Error::SqliteFailure(ErrorCode::TransactionState));
    }
    let mut tx = conn.transaction();
    make_tables(&mut tx)?;
    tx.commit()
}

/// The same database, opened anew, so that its rows are known to be in order: the open reads them
/// all. A refusal gives the store back.
pub fn seated<S: Alter + Drop>(
    alloc: Global,
    conn: Connection<S>,
) -> Result<Connection<S>, (Error, S)>
    ensures ready { IfOk result (λ c. HasCleanDisk (state S.Store c)
        → (state S.Store c).now.schema ≡ kept_schema → IsReady (state S.Store c)) }
    ensures same { IfOk result (λ c. HasCleanDisk (state S.Store c)
        → (state S.Store c).now.trees ≡ (state S.Store conn).committed.trees) }
    ensures later { IfOk result (λ c. doubt (state S.Store conn).is_clean
        ≤ doubt (state S.Store c).is_clean) }
    ensures unharmed { IfErr result (λ e. IsQuiet S.Store.view S.Store.faults S.Store.recovers
        S.Store.is_shielded conn.store e.1) }
{
    let store = conn.into_store();
    if store.is_broken() {
        return Err((Error::SqliteFailure(ErrorCode::Closed), store));
    }
    match Connection::over(alloc, store) {
        Ok(conn) => Ok(conn),
        Err(error) => Err(error),
    }
}
