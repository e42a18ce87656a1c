// The four tables, each made by its text, and all of them without their rows.
ghost use Rattle.std.specs.Prelude.{◌≡◌, true, OnOk};
ghost use Rattle.sqlite.specs.Held.{state};
ghost use Rattle.sqlite.specs.State.{HasCleanDisk};
ghost use Rattle.sql_meanings.specs.Schema.{kept_schema, lines_tree, marks_tree, no_schema};
ghost use Rattle.sql_meanings.specs.Schema.{one_table, shape_tree, tabs_tree, three_tables};
ghost use Rattle.sql_meanings.specs.Schema.{two_tables};
ghost use Rattle.sql_meanings.specs.Forms.{GoesOn, IsBegun, Makes};
ghost use Rattle.sql_meanings.specs.Calls.{RunsInside};
ghost use Rattle.sql_meanings.specs.UnderWay.{IsEmptied, IsUnderWay};

use crate::clearing::{clear_lines, clear_marks, clear_shape, clear_tabs};
use sqlite::{Alter, Error, Transaction};

fn make_shape<S: Alter>(tx: &mut Transaction<'_, S>) -> Result<usize, Error>
    ensures same_reference { tx.new.conn.ghost_name ≡ tx.old.conn.ghost_name }
    ensures ok { HasCleanDisk (state S.Store tx.new.conn.now)
        → IsBegun (state S.Store tx.old.conn.now) no_schema
        → OnOk result (Makes (state S.Store tx.old.conn.now) (state S.Store tx.new.conn.now)
        no_schema one_table shape_tree) }
    ensures on { HasCleanDisk (state S.Store tx.new.conn.now)
        → (state S.Store tx.old.conn.now).in_transaction ≡ true
        → OnOk result (GoesOn (state S.Store tx.old.conn.now) (state S.Store tx.new.conn.now)) }
    ensures runs { RunsInside (state S.Store tx.old.conn.now) (state S.Store tx.new.conn.now) }
{
    tx.execute(
        "CREATE TABLE shape(one INTEGER PRIMARY KEY, body BLOB NOT NULL)",
        &[],
    )
}

fn make_tabs<S: Alter>(tx: &mut Transaction<'_, S>) -> Result<usize, Error>
    ensures same_reference { tx.new.conn.ghost_name ≡ tx.old.conn.ghost_name }
    ensures ok { HasCleanDisk (state S.Store tx.new.conn.now)
        → IsBegun (state S.Store tx.old.conn.now) one_table
        → OnOk result (Makes (state S.Store tx.old.conn.now) (state S.Store tx.new.conn.now)
        one_table two_tables tabs_tree) }
    ensures on { HasCleanDisk (state S.Store tx.new.conn.now)
        → (state S.Store tx.old.conn.now).in_transaction ≡ true
        → OnOk result (GoesOn (state S.Store tx.old.conn.now) (state S.Store tx.new.conn.now)) }
    ensures runs { RunsInside (state S.Store tx.old.conn.now) (state S.Store tx.new.conn.now) }
{
    tx.execute(
        "CREATE TABLE tabs(tab INTEGER PRIMARY KEY, last INTEGER NOT NULL)",
        &[],
    )
}

fn make_lines<S: Alter>(tx: &mut Transaction<'_, S>) -> Result<usize, Error>
    ensures same_reference { tx.new.conn.ghost_name ≡ tx.old.conn.ghost_name }
    ensures ok { HasCleanDisk (state S.Store tx.new.conn.now)
        → IsBegun (state S.Store tx.old.conn.now) two_tables
        → OnOk result (Makes (state S.Store tx.old.conn.now) (state S.Store tx.new.conn.now)
        two_tables three_tables lines_tree) }
    ensures on { HasCleanDisk (state S.Store tx.new.conn.now)
        → (state S.Store tx.old.conn.now).in_transaction ≡ true
        → OnOk result (GoesOn (state S.Store tx.old.conn.now) (state S.Store tx.new.conn.now)) }
    ensures runs { RunsInside (state S.Store tx.old.conn.now) (state S.Store tx.new.conn.now) }
{
    tx.execute(
        "CREATE TABLE lines(tab INTEGER NOT NULL, id INTEGER NOT NULL, body BLOB NOT NULL, PRIMARY KEY(tab, id))",
        &[],
    )
}

fn make_marks<S: Alter>(tx: &mut Transaction<'_, S>) -> Result<usize, Error>
    ensures same_reference { tx.new.conn.ghost_name ≡ tx.old.conn.ghost_name }
    ensures ok { HasCleanDisk (state S.Store tx.new.conn.now)
        → IsBegun (state S.Store tx.old.conn.now) three_tables
        → OnOk result (Makes (state S.Store tx.old.conn.now) (state S.Store tx.new.conn.now)
        three_tables kept_schema marks_tree) }
    ensures on { HasCleanDisk (state S.Store tx.new.conn.now)
        → (state S.Store tx.old.conn.now).in_transaction ≡ true
        → OnOk result (GoesOn (state S.Store tx.old.conn.now) (state S.Store tx.new.conn.now)) }
    ensures runs { RunsInside (state S.Store tx.old.conn.now) (state S.Store tx.new.conn.now) }
{
    tx.execute(
        "CREATE TABLE marks(tab INTEGER NOT NULL, col INTEGER NOT NULL, k BLOB NOT NULL, id INTEGER NOT NULL, PRIMARY KEY(tab, col, k, id))",
        &[],
    )
}

/// Makes the four tables in a database that has none.
pub fn make_tables<S: Alter>(tx: &mut Transaction<'_, S>) -> Result<(), Error>
    ensures same_reference { tx.new.conn.ghost_name ≡ tx.old.conn.ghost_name }
    ensures ok { HasCleanDisk (state S.Store tx.new.conn.now)
        → IsBegun (state S.Store tx.old.conn.now) no_schema
        → OnOk result (IsEmptied (state S.Store tx.new.conn.now)) }
    ensures on { HasCleanDisk (state S.Store tx.new.conn.now)
        → (state S.Store tx.old.conn.now).in_transaction ≡ true
        → OnOk result (GoesOn (state S.Store tx.old.conn.now) (state S.Store tx.new.conn.now)) }
    ensures runs { RunsInside (state S.Store tx.old.conn.now) (state S.Store tx.new.conn.now) }
{
    make_shape(tx)?;
    make_tabs(tx)?;
    make_lines(tx)?;
    make_marks(tx)?;
    Ok(())
}

/// Takes all rows out of the four tables.
pub fn clear_tables<S: Alter>(tx: &mut Transaction<'_, S>) -> Result<(), Error>
    ensures same_reference { tx.new.conn.ghost_name ≡ tx.old.conn.ghost_name }
    ensures ok { HasCleanDisk (state S.Store tx.new.conn.now)
        → IsUnderWay (state S.Store tx.old.conn.now)
        → OnOk result (IsEmptied (state S.Store tx.new.conn.now)) }
    ensures on { HasCleanDisk (state S.Store tx.new.conn.now)
        → (state S.Store tx.old.conn.now).in_transaction ≡ true
        → OnOk result (GoesOn (state S.Store tx.old.conn.now) (state S.Store tx.new.conn.now)) }
    ensures runs { RunsInside (state S.Store tx.old.conn.now) (state S.Store tx.new.conn.now) }
{
    clear_shape(tx)?;
    clear_tabs(tx)?;
    clear_lines(tx)?;
    clear_marks(tx)?;
    Ok(())
}
