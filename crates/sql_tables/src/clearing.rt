// The tables without their rows.
ghost use Rattle.std.specs.Prelude.{◌≡◌, true, IfOk, OnErr, OnOk};
ghost use Rattle.sqlite.specs.Held.{state};
ghost use Rattle.sqlite.specs.State.{HasCleanDisk};
ghost use Rattle.sql_meanings.specs.Schema.{lines_tree, marks_tree, shape_tree, tabs_tree};
ghost use Rattle.sql_meanings.specs.Forms.{GoesOn, LeavesOrRollsBack};
ghost use Rattle.sql_meanings.specs.Calls.{RunsInside};
ghost use Rattle.sql_meanings.specs.UnderWay.{Clears, IsUnderWay};

use sqlite::{Alter, Error, Transaction};

/// Takes the body of the schema out.
pub fn clear_shape<S: Alter>(tx: &mut Transaction<'_, S>) -> Result<usize, Error>
    ensures same_reference { tx.new.conn.ghost_name ≡ tx.old.conn.ghost_name }
    ensures ok { HasCleanDisk (state S.Store tx.new.conn.now)
        → IsUnderWay (state S.Store tx.old.conn.now)
        → IfOk result (Clears (state S.Store tx.old.conn.now) (state S.Store tx.new.conn.now)
        shape_tree) }
    ensures stops { HasCleanDisk (state S.Store tx.new.conn.now)
        → (state S.Store tx.old.conn.now).in_transaction ≡ true
        → OnErr result (LeavesOrRollsBack (state S.Store tx.old.conn.now)
        (state S.Store tx.new.conn.now)) }
    ensures on { HasCleanDisk (state S.Store tx.new.conn.now)
        → (state S.Store tx.old.conn.now).in_transaction ≡ true
        → OnOk result (GoesOn (state S.Store tx.old.conn.now) (state S.Store tx.new.conn.now)) }
    ensures runs { RunsInside (state S.Store tx.old.conn.now) (state S.Store tx.new.conn.now) }
{
    tx.execute("DELETE FROM shape", &[])
}

/// Takes the last numbers of all tables out.
pub fn clear_tabs<S: Alter>(tx: &mut Transaction<'_, S>) -> Result<usize, Error>
    ensures same_reference { tx.new.conn.ghost_name ≡ tx.old.conn.ghost_name }
    ensures ok { HasCleanDisk (state S.Store tx.new.conn.now)
        → IsUnderWay (state S.Store tx.old.conn.now)
        → IfOk result (Clears (state S.Store tx.old.conn.now) (state S.Store tx.new.conn.now)
        tabs_tree) }
    ensures stops { HasCleanDisk (state S.Store tx.new.conn.now)
        → (state S.Store tx.old.conn.now).in_transaction ≡ true
        → OnErr result (LeavesOrRollsBack (state S.Store tx.old.conn.now)
        (state S.Store tx.new.conn.now)) }
    ensures on { HasCleanDisk (state S.Store tx.new.conn.now)
        → (state S.Store tx.old.conn.now).in_transaction ≡ true
        → OnOk result (GoesOn (state S.Store tx.old.conn.now) (state S.Store tx.new.conn.now)) }
    ensures runs { RunsInside (state S.Store tx.old.conn.now) (state S.Store tx.new.conn.now) }
{
    tx.execute("DELETE FROM tabs", &[])
}

/// Takes all lines of all tables out.
pub fn clear_lines<S: Alter>(tx: &mut Transaction<'_, S>) -> Result<usize, Error>
    ensures same_reference { tx.new.conn.ghost_name ≡ tx.old.conn.ghost_name }
    ensures ok { HasCleanDisk (state S.Store tx.new.conn.now)
        → IsUnderWay (state S.Store tx.old.conn.now)
        → IfOk result (Clears (state S.Store tx.old.conn.now) (state S.Store tx.new.conn.now)
        lines_tree) }
    ensures stops { HasCleanDisk (state S.Store tx.new.conn.now)
        → (state S.Store tx.old.conn.now).in_transaction ≡ true
        → OnErr result (LeavesOrRollsBack (state S.Store tx.old.conn.now)
        (state S.Store tx.new.conn.now)) }
    ensures on { HasCleanDisk (state S.Store tx.new.conn.now)
        → (state S.Store tx.old.conn.now).in_transaction ≡ true
        → OnOk result (GoesOn (state S.Store tx.old.conn.now) (state S.Store tx.new.conn.now)) }
    ensures runs { RunsInside (state S.Store tx.old.conn.now) (state S.Store tx.new.conn.now) }
{
    tx.execute("DELETE FROM lines", &[])
}

/// Takes all marks of all columns out.
pub fn clear_marks<S: Alter>(tx: &mut Transaction<'_, S>) -> Result<usize, Error>
    ensures same_reference { tx.new.conn.ghost_name ≡ tx.old.conn.ghost_name }
    ensures ok { HasCleanDisk (state S.Store tx.new.conn.now)
        → IsUnderWay (state S.Store tx.old.conn.now)
        → IfOk result (Clears (state S.Store tx.old.conn.now) (state S.Store tx.new.conn.now)
        marks_tree) }
    ensures stops { HasCleanDisk (state S.Store tx.new.conn.now)
        → (state S.Store tx.old.conn.now).in_transaction ≡ true
        → OnErr result (LeavesOrRollsBack (state S.Store tx.old.conn.now)
        (state S.Store tx.new.conn.now)) }
    ensures on { HasCleanDisk (state S.Store tx.new.conn.now)
        → (state S.Store tx.old.conn.now).in_transaction ≡ true
        → OnOk result (GoesOn (state S.Store tx.old.conn.now) (state S.Store tx.new.conn.now)) }
    ensures runs { RunsInside (state S.Store tx.old.conn.now) (state S.Store tx.new.conn.now) }
{
    tx.execute("DELETE FROM marks", &[])
}
