// The last number of each table.
ghost use Rattle.std.specs.Prelude.{◌≡◌, ◌≤◌, false, true, IfOk, OnErr, OnOk, map};
ghost use Rattle.sqlite.specs.Held.{state};
ghost use Rattle.sqlite.specs.State.{HasCleanDisk, IsUnchanged};
ghost use Rattle.sqlite_trees.specs.View.{doubt};
ghost use Rattle.sql_meanings.specs.Schema.{kept_schema};
ghost use Rattle.sql_meanings.specs.Forms.{GoesOn, LeavesOrRollsBack};
ghost use Rattle.sql_meanings.specs.Calls.{RunsInside, RunsReading};
ghost use Rattle.sql_meanings.specs.UnderWay.{IsUnderWay};
ghost use Rattle.sql_meanings.specs.Lasts.{AreLasts, InsertsLast, LastsOf, ReplacesLast, last_at};

use sqlite::{Alter, Connection, Error, Row, Transaction, params};

/// Keeps a table behind the others, with the last number that it gave.
pub fn insert_last<S: Alter>(
    tx: &mut Transaction<'_, S>,
    tab: u32,
    last: u32,
) -> Result<usize, Error>
    ensures same_reference { tx.new.conn.ghost_name ≡ tx.old.conn.ghost_name }
    ensures ok { HasCleanDisk (state S.Store tx.new.conn.now)
        → IsUnderWay (state S.Store tx.old.conn.now)
        → IfOk result (InsertsLast (state S.Store tx.old.conn.now) (state S.Store tx.new.conn.now)
        tab last) }
    ensures stops { HasCleanDisk (state S.Store tx.new.conn.now)
        → (state S.Store tx.old.conn.now).in_transaction ≡ true
        → OnErr result (LeavesOrRollsBack (state S.Store tx.old.conn.now)
        (state S.Store tx.new.conn.now)) }
    ensures on { HasCleanDisk (state S.Store tx.new.conn.now)
        → (state S.Store tx.old.conn.now).in_transaction ≡ true
        → OnOk result (GoesOn (state S.Store tx.old.conn.now) (state S.Store tx.new.conn.now)) }
    ensures runs { RunsInside (state S.Store tx.old.conn.now) (state S.Store tx.new.conn.now) }
{
    tx.execute(
        "INSERT INTO tabs(tab, last) VALUES(?, ?)",
        params![tab, last],
    )
}

/// Keeps another last number of a table.
pub fn replace_last<S: Alter>(
    tx: &mut Transaction<'_, S>,
    tab: u32,
    last: u32,
) -> Result<usize, Error>
    ensures same_reference { tx.new.conn.ghost_name ≡ tx.old.conn.ghost_name }
    ensures ok { HasCleanDisk (state S.Store tx.new.conn.now)
        → IsUnderWay (state S.Store tx.old.conn.now)
        → IfOk result (ReplacesLast (state S.Store tx.old.conn.now) (state S.Store tx.new.conn.now)
        tab last) }
    ensures stops { HasCleanDisk (state S.Store tx.new.conn.now)
        → (state S.Store tx.old.conn.now).in_transaction ≡ true
        → OnErr result (LeavesOrRollsBack (state S.Store tx.old.conn.now)
        (state S.Store tx.new.conn.now)) }
    ensures on { HasCleanDisk (state S.Store tx.new.conn.now)
        → (state S.Store tx.old.conn.now).in_transaction ≡ true
        → OnOk result (GoesOn (state S.Store tx.old.conn.now) (state S.Store tx.new.conn.now)) }
    ensures runs { RunsInside (state S.Store tx.old.conn.now) (state S.Store tx.new.conn.now) }
{
    tx.execute("UPDATE tabs SET last = ? WHERE tab = ?", params![last, tab])
}

/// The last numbers of the tables, by rising tables.
pub fn read_lasts<S: Alter>(conn: &mut Connection<S>) -> Result<Vec<Row>, Error>
    ensures answer { HasCleanDisk (state S.Store conn.new)
        → (state S.Store conn.old).now.schema ≡ kept_schema → (ns : LastsOf)
        → AreLasts (state S.Store conn.old).now.trees ns
        → IfOk result (λ rows. rows.items ≡ map last_at ns) }
    ensures later { doubt (state S.Store conn.old).is_clean
        ≤ doubt (state S.Store conn.new).is_clean }
    ensures mode { conn.old.in_transaction ≡ false → conn.new.in_transaction ≡ false }
    ensures same { HasCleanDisk (state S.Store conn.new)
        → (state S.Store conn.old).now.schema ≡ kept_schema
        → OnOk result (IsUnchanged (state S.Store conn.old) (state S.Store conn.new)) }
    ensures runs { (state S.Store conn.old).now.schema ≡ kept_schema
        → RunsReading (state S.Store conn.old) (state S.Store conn.new) }
{
    conn.query_all("SELECT tab, last FROM tabs ORDER BY tab", &[])
}
