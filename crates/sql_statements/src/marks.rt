// The marks of a column.
ghost use Rattle.std.specs.Prelude.{◌≡◌, ◌≤◌, false, true, IfOk, OnErr, OnOk, filter, map};
ghost use Rattle.sqlite.specs.Held.{state};
ghost use Rattle.sqlite.specs.State.{HasCleanDisk, IsUnchanged};
ghost use Rattle.sqlite_trees.specs.View.{doubt};
ghost use Rattle.sql_meanings.specs.Schema.{kept_schema};
ghost use Rattle.sql_meanings.specs.Forms.{GoesOn, LeavesOrRollsBack};
ghost use Rattle.sql_meanings.specs.Calls.{RunsInside, RunsReading};
ghost use Rattle.sql_meanings.specs.UnderWay.{IsUnderWay};
ghost use Rattle.sql_meanings.specs.Marks.{AreMarks, InsertsMark, MarksOf, RemovesMark, lies};
ghost use Rattle.sql_meanings.specs.Marks.{mark_at};

use sqlite::{Alter, Connection, Error, Row, Transaction, params};

/// Puts the mark of a line's key in a column.
pub fn insert_mark<S: Alter>(
    tx: &mut Transaction<'_, S>,
    tab: u32,
    column: u32,
    key: &[u8],
    id: u32,
) -> Result<usize, Error>
    ensures same_reference { tx.new.conn.ghost_name ≡ tx.old.conn.ghost_name }
    ensures ok { HasCleanDisk (state S.Store tx.new.conn.now)
        → IsUnderWay (state S.Store tx.old.conn.now)
        → IfOk result (InsertsMark (state S.Store tx.old.conn.now) (state S.Store tx.new.conn.now)
        tab column key.now id) }
    ensures stops { HasCleanDisk (state S.Store tx.new.conn.now)
        → (state S.Store tx.old.conn.now).in_transaction ≡ true
        → OnErr result (LeavesOrRollsBack (state S.Store tx.old.conn.now)
        (state S.Store tx.new.conn.now)) }
    ensures on { HasCleanDisk (state S.Store tx.new.conn.now)
        → (state S.Store tx.old.conn.now).in_transaction ≡ true
        → OnOk result (GoesOn (state S.Store tx.old.conn.now) (state S.Store tx.new.conn.now)) }
    ensures runs { RunsInside (state S.Store tx.old.conn.now) (state S.Store tx.new.conn.now) }
{
    tx.execute(
        "INSERT INTO marks(tab, col, k, id) VALUES(?, ?, ?, ?)",
        params![tab, column, key, id],
    )
}

/// Takes the mark of a line's key in a column out.
pub fn remove_mark<S: Alter>(
    tx: &mut Transaction<'_, S>,
    tab: u32,
    column: u32,
    key: &[u8],
    id: u32,
) -> Result<usize, Error>
    ensures same_reference { tx.new.conn.ghost_name ≡ tx.old.conn.ghost_name }
    ensures ok { HasCleanDisk (state S.Store tx.new.conn.now)
        → IsUnderWay (state S.Store tx.old.conn.now)
        → IfOk result (RemovesMark (state S.Store tx.old.conn.now) (state S.Store tx.new.conn.now)
        tab column key.now id) }
    ensures stops { HasCleanDisk (state S.Store tx.new.conn.now)
        → (state S.Store tx.old.conn.now).in_transaction ≡ true
        → OnErr result (LeavesOrRollsBack (state S.Store tx.old.conn.now)
        (state S.Store tx.new.conn.now)) }
    ensures on { HasCleanDisk (state S.Store tx.new.conn.now)
        → (state S.Store tx.old.conn.now).in_transaction ≡ true
        → OnOk result (GoesOn (state S.Store tx.old.conn.now) (state S.Store tx.new.conn.now)) }
    ensures runs { RunsInside (state S.Store tx.old.conn.now) (state S.Store tx.new.conn.now) }
{
    tx.execute(
        "DELETE FROM marks WHERE tab = ? AND col = ? AND k = ? AND id = ?",
        params![tab, column, key, id],
    )
}

/// The marks of a column with keys from one up to but without another, by rising keys and numbers.
pub fn read_marks<S: Alter>(
    conn: &mut Connection<S>,
    tab: u32,
    column: u32,
    from: &[u8],
    upto: &[u8],
) -> Result<Vec<Row>, Error>
    ensures answer { HasCleanDisk (state S.Store conn.new)
        → (state S.Store conn.old).now.schema ≡ kept_schema → (ms : MarksOf)
        → AreMarks (state S.Store conn.old).now.trees tab column ms
        → IfOk result (λ rows. rows.items ≡ map mark_at (filter (lies from.now upto.now) ms)) }
    ensures later { doubt (state S.Store conn.old).is_clean
        ≤ doubt (state S.Store conn.new).is_clean }
    ensures mode { conn.old.in_transaction ≡ false → conn.new.in_transaction ≡ false }
    ensures same { HasCleanDisk (state S.Store conn.new)
        → (state S.Store conn.old).now.schema ≡ kept_schema
        → OnOk result (IsUnchanged (state S.Store conn.old) (state S.Store conn.new)) }
    ensures runs { (state S.Store conn.old).now.schema ≡ kept_schema
        → RunsReading (state S.Store conn.old) (state S.Store conn.new) }
{
    conn.query_all(
        "SELECT k, id FROM marks WHERE tab = ? AND col = ? AND k >= ? AND k < ? ORDER BY k, id",
        params![tab, column, from, upto],
    )
}
