// The schema of a database without rows.
ghost use Rattle.std.specs.Prelude.{◌≡◌, [], false, true, IsTrue, OnErr, OnOk};
ghost use Rattle.sqlite.specs.Held.{state};
ghost use Rattle.sqlite.specs.State.{HasCleanDisk, Survives};
ghost use Rattle.sql_meanings.specs.Calls.{RunsInside};
ghost use Rattle.sql_meanings.specs.Lasts.{AreLasts};
ghost use Rattle.sql_meanings.specs.UnderWay.{IsEmptied, IsNew, IsUnderWay};
ghost use Rattle.sql_shaping.specs.NewTables.{AreNewTables, IsAtNew, PutsLasts, RestsAtNew};
ghost use Rattle.sql_shaping.specs.NewTables.{StaysIn};

use sql_tables::{insert_body, insert_last};
use sqlite::{Alter, Connection, Error, ErrorCode, Transaction};

/// Keeps so many tables behind each other, none of which has given a number.
fn insert_lasts<S: Alter>(tx: &mut Transaction<'_, S>, count: u32) -> Result<(), Error>
    ensures same_reference { tx.new.conn.ghost_name ≡ tx.old.conn.ghost_name }
    ensures ok { HasCleanDisk (state S.Store tx.new.conn.now)
        → IsUnderWay (state S.Store tx.old.conn.now)
        → AreLasts (state S.Store tx.old.conn.now).now.trees []
        → OnOk result (PutsLasts (state S.Store tx.old.conn.now) (state S.Store tx.new.conn.now)
        count) }
    ensures on { HasCleanDisk (state S.Store tx.new.conn.now)
        → (state S.Store tx.old.conn.now).in_transaction ≡ true
        → OnOk result (StaysIn (state S.Store tx.old.conn.now) (state S.Store tx.new.conn.now)) }
    ensures runs { RunsInside (state S.Store tx.old.conn.now) (state S.Store tx.new.conn.now) }
{
    for tab in 0..count {
        insert_last(tx, tab, 0)?;
    }
    Ok(())
}

/// Keeps the body of a schema with so many tables, where the four tables have no row.
fn insert_all<S: Alter>(tx: &mut Transaction<'_, S>, body: &[u8], count: u32) -> Result<(), Error>
    ensures same_reference { tx.new.conn.ghost_name ≡ tx.old.conn.ghost_name }
    ensures ok { HasCleanDisk (state S.Store tx.new.conn.now)
        → IsEmptied (state S.Store tx.old.conn.now)
        → OnOk result (IsAtNew (state S.Store tx.new.conn.now) body.now count) }
    ensures on { HasCleanDisk (state S.Store tx.new.conn.now)
        → (state S.Store tx.old.conn.now).in_transaction ≡ true
        → OnOk result (StaysIn (state S.Store tx.old.conn.now) (state S.Store tx.new.conn.now)) }
    ensures runs { RunsInside (state S.Store tx.old.conn.now) (state S.Store tx.new.conn.now) }
{
    insert_body(tx, body)?;
    insert_lasts(tx, count)
}

/// Keeps the body of a schema with so many tables in a database without rows: all of it or nothing,
/// over a crash too. Inside a transaction it is refused.
pub fn insert_schema<S: Alter>(
    conn: &mut Connection<S>,
    body: &[u8],
    count: u32,
) -> Result<(), Error>
    ensures ok { HasCleanDisk (state S.Store conn.new) → IsNew (state S.Store conn.old)
        → OnOk result (RestsAtNew (state S.Store conn.new) body.now count) }
    ensures is_open { HasCleanDisk (state S.Store conn.new)
        → OnOk result (IsTrue (state S.Store conn.new).is_open) }
    ensures undone { HasCleanDisk (state S.Store conn.new)
        → (state S.Store conn.old).in_transaction ≡ false → IsTrue (state S.Store conn.new).is_open
        → OnErr result (((state S.Store conn.new).now ≡ (state S.Store conn.old).committed)
        × ((state S.Store conn.new).committed ≡ (state S.Store conn.old).committed)) }
    ensures was_open { HasCleanDisk (state S.Store conn.new)
        → IsTrue (state S.Store conn.new).is_open → IsTrue (state S.Store conn.old).is_open }
    ensures mode { (state S.Store conn.old).in_transaction ≡ false
        → (state S.Store conn.new).in_transaction ≡ false }
    ensures survives { Survives (state S.Store conn.old) (state S.Store conn.new)
        (λ db. IsNew (state S.Store conn.old) → AreNewTables db body.now count) }
{
    if !conn.is_autocommit() {
        return Err(Error::SqliteFailure(ErrorCode::TransactionState));
    }
    let mut tx = conn.transaction();
    insert_all(&mut tx, body, count)?;
    tx.commit()
}
