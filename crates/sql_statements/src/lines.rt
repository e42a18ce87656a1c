// The lines of a table.
ghost use Rattle.std.specs.Prelude.{◌≡◌, ◌≤◌, false, true, IfOk, OnErr, OnOk, filter, map};
ghost use Rattle.sqlite.specs.Held.{state};
ghost use Rattle.sqlite.specs.State.{HasCleanDisk, IsUnchanged};
ghost use Rattle.sqlite_trees.specs.View.{doubt};
ghost use Rattle.sql_meanings.specs.Schema.{kept_schema};
ghost use Rattle.sql_meanings.specs.Forms.{GoesOn, LeavesOrRollsBack};
ghost use Rattle.sql_meanings.specs.Calls.{RunsInside, RunsReading};
ghost use Rattle.sql_meanings.specs.UnderWay.{IsUnderWay};
ghost use Rattle.sql_meanings.specs.Lines.{AreLines, InsertsLine, LinesOf, RemovesLine};
ghost use Rattle.sql_meanings.specs.Lines.{ReplacesLine, is_within, line_at};

use sqlite::{Alter, Connection, Error, Row, Transaction, params};

/// Puts a line behind the others of its table.
pub fn insert_line<S: Alter>(
    tx: &mut Transaction<'_, S>,
    tab: u32,
    id: u32,
    body: &[u8],
) -> Result<usize, Error>
    ensures same_reference { tx.new.conn.ghost_name ≡ tx.old.conn.ghost_name }
    ensures ok { HasCleanDisk (state S.Store tx.new.conn.now)
        → IsUnderWay (state S.Store tx.old.conn.now)
        → IfOk result (InsertsLine (state S.Store tx.old.conn.now) (state S.Store tx.new.conn.now)
        tab id body.now) }
    ensures stops { HasCleanDisk (state S.Store tx.new.conn.now)
        → (state S.Store tx.old.conn.now).in_transaction ≡ true
        → OnErr result (LeavesOrRollsBack (state S.Store tx.old.conn.now)
        (state S.Store tx.new.conn.now)) }
    ensures on { HasCleanDisk (state S.Store tx.new.conn.now)
        → (state S.Store tx.old.conn.now).in_transaction ≡ true
        → OnOk result (GoesOn (state S.Store tx.old.conn.now) (state S.Store tx.new.conn.now)) }
    ensures runs { RunsInside (state S.Store tx.old.conn.now) (state S.Store tx.new.conn.now) }
{
    tx.execute(
        "INSERT INTO lines(tab, id, body) VALUES(?, ?, ?)",
        params![tab, id, body],
    )
}

/// Puts another body into a line.
pub fn replace_line<S: Alter>(
    tx: &mut Transaction<'_, S>,
    tab: u32,
    id: u32,
    body: &[u8],
) -> Result<usize, Error>
    ensures same_reference { tx.new.conn.ghost_name ≡ tx.old.conn.ghost_name }
    ensures ok { HasCleanDisk (state S.Store tx.new.conn.now)
        → IsUnderWay (state S.Store tx.old.conn.now)
        → IfOk result (ReplacesLine (state S.Store tx.old.conn.now) (state S.Store tx.new.conn.now)
        tab id body.now) }
    ensures stops { HasCleanDisk (state S.Store tx.new.conn.now)
        → (state S.Store tx.old.conn.now).in_transaction ≡ true
        → OnErr result (LeavesOrRollsBack (state S.Store tx.old.conn.now)
        (state S.Store tx.new.conn.now)) }
    ensures on { HasCleanDisk (state S.Store tx.new.conn.now)
        → (state S.Store tx.old.conn.now).in_transaction ≡ true
        → OnOk result (GoesOn (state S.Store tx.old.conn.now) (state S.Store tx.new.conn.now)) }
    ensures runs { RunsInside (state S.Store tx.old.conn.now) (state S.Store tx.new.conn.now) }
{
    tx.execute(
        "UPDATE lines SET body = ? WHERE tab = ? AND id = ?",
        params![body, tab, id],
    )
}

/// Takes a line out.
pub fn remove_line<S: Alter>(tx: &mut Transaction<'_, S>, tab: u32, id: u32) -> Result<usize, Error>
    ensures same_reference { tx.new.conn.ghost_name ≡ tx.old.conn.ghost_name }
    ensures ok { HasCleanDisk (state S.Store tx.new.conn.now)
        → IsUnderWay (state S.Store tx.old.conn.now)
        → IfOk result (RemovesLine (state S.Store tx.old.conn.now) (state S.Store tx.new.conn.now)
        tab id) }
    ensures stops { HasCleanDisk (state S.Store tx.new.conn.now)
        → (state S.Store tx.old.conn.now).in_transaction ≡ true
        → OnErr result (LeavesOrRollsBack (state S.Store tx.old.conn.now)
        (state S.Store tx.new.conn.now)) }
    ensures on { HasCleanDisk (state S.Store tx.new.conn.now)
        → (state S.Store tx.old.conn.now).in_transaction ≡ true
        → OnOk result (GoesOn (state S.Store tx.old.conn.now) (state S.Store tx.new.conn.now)) }
    ensures runs { RunsInside (state S.Store tx.old.conn.now) (state S.Store tx.new.conn.now) }
{
    tx.execute(
        "DELETE FROM lines WHERE tab = ? AND id = ?",
        params![tab, id],
    )
}

/// The lines of a table with numbers from one up to another, by rising numbers.
pub fn read_lines<S: Alter>(
    conn: &mut Connection<S>,
    tab: u32,
    low: u32,
    high: u32,
) -> Result<Vec<Row>, Error>
    ensures answer { HasCleanDisk (state S.Store conn.new)
        → (state S.Store conn.old).now.schema ≡ kept_schema → (xs : LinesOf)
        → AreLines (state S.Store conn.old).now.trees tab xs
        → IfOk result (λ rows. rows.items ≡ map line_at (filter (is_within low high) xs)) }
    ensures later { doubt (state S.Store conn.old).is_clean
        ≤ doubt (state S.Store conn.new).is_clean }
    ensures mode { conn.old.in_transaction ≡ false → conn.new.in_transaction ≡ false }
    ensures same { HasCleanDisk (state S.Store conn.new)
        → (state S.Store conn.old).now.schema ≡ kept_schema
        → OnOk result (IsUnchanged (state S.Store conn.old) (state S.Store conn.new)) }
    ensures runs { (state S.Store conn.old).now.schema ≡ kept_schema
        → RunsReading (state S.Store conn.old) (state S.Store conn.new) }
{
    conn.query_all(
        "SELECT id, body FROM lines WHERE tab = ? AND id >= ? AND id <= ? ORDER BY id",
        params![tab, low, high],
    )
}
