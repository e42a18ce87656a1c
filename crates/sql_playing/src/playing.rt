// Statements that write, one after another in one transaction.
ghost use Rattle.std.specs.Prelude.{◌≡◌, ◌≢◌, false, true, IsTrue, OnErr, OnOk};
ghost use Rattle.sqlite.specs.Held.{state};
ghost use Rattle.sqlite.specs.State.{HasCleanDisk, Survives};
ghost use Rattle.sql_meanings.specs.Forms.{GoesOn};
ghost use Rattle.sql_meanings.specs.Calls.{RunsInside};
ghost use Rattle.sql_meanings.specs.UnderWay.{IsReady};
ghost use Rattle.sql_contents.specs.Contents.{Contents};
ghost use Rattle.row_plan.specs.Shown.{all_shown, shown};
ghost use Rattle.row_plan.specs.Statements.{CanRun, CanRunAll, after, contents_after};
ghost use Rattle.sql_playing.specs.Played.{HoldsAfter, IsAt, RestsAt, StaysInside};
ghost use Rattle.sql_statements.specs.declared.endings.Ending.TheVariants.{Done, Failed};

use row_plan::Step;
use sql_statements::{
    Ending, end_after, insert_line, insert_mark, remove_line, remove_mark, replace_line,
};
use sql_tables::replace_last;
use sqlite::{Alter, Connection, Error, ErrorCode, Transaction};

/// Runs a statement, and answers how many rows it changed.
fn run_step<S: Alter>(tx: &mut Transaction<'_, S>, step: &Step<'_>) -> Result<usize, Error>
    ensures same_reference { tx.new.conn.ghost_name ≡ tx.old.conn.ghost_name }
    ensures ok { HasCleanDisk (state S.Store tx.new.conn.now) → (k : Contents)
        → IsAt (state S.Store tx.old.conn.now) k → CanRun (shown step.now) k
        → OnOk result (IsAt (state S.Store tx.new.conn.now) (contents_after (shown step.now) k)) }
    ensures on { HasCleanDisk (state S.Store tx.new.conn.now)
        → (state S.Store tx.old.conn.now).in_transaction ≡ true
        → OnOk result (GoesOn (state S.Store tx.old.conn.now) (state S.Store tx.new.conn.now)) }
    ensures runs { RunsInside (state S.Store tx.old.conn.now) (state S.Store tx.new.conn.now) }
{
    match *step {
        Step::InsertLine(tab, id, body) => insert_line(tx, tab, id, body),
        Step::ReplaceLine(tab, id, body) => replace_line(tx, tab, id, body),
        Step::RemoveLine(tab, id) => remove_line(tx, tab, id),
        Step::InsertMark(tab, column, key, id) => insert_mark(tx, tab, column, key, id),
        Step::RemoveMark(tab, column, key, id) => remove_mark(tx, tab, column, key, id),
        Step::ReplaceLast(tab, last) => replace_last(tx, tab, last),
    }
}

/// Runs the statements in their order, up to one that is refused.
fn run_steps<S: Alter>(tx: &mut Transaction<'_, S>, steps: &[Step<'_>]) -> Result<(), Error>
    ensures same_reference { tx.new.conn.ghost_name ≡ tx.old.conn.ghost_name }
    ensures ok { HasCleanDisk (state S.Store tx.new.conn.now) → (k : Contents)
        → IsAt (state S.Store tx.old.conn.now) k → CanRunAll (all_shown steps.now) k
        → OnOk result (IsAt (state S.Store tx.new.conn.now) (after (all_shown steps.now) k)) }
    ensures on { HasCleanDisk (state S.Store tx.new.conn.now)
        → (state S.Store tx.old.conn.now).in_transaction ≡ true
        → OnOk result (StaysInside (state S.Store tx.old.conn.now) (state S.Store tx.new.conn.now)) }
    ensures runs { RunsInside (state S.Store tx.old.conn.now) (state S.Store tx.new.conn.now) }
{
    for step in steps {
        run_step(tx, step)?;
    }
    Ok(())
}

/// Runs the statements in one transaction: all of them or none, over a crash too. Inside a
/// transaction they are refused.
pub fn commit_steps<S: Alter>(conn: &mut Connection<S>, steps: &[Step<'_>]) -> Result<(), Error>
    ensures ok { HasCleanDisk (state S.Store conn.new) → (k : Contents)
        → RestsAt (state S.Store conn.old) k → CanRunAll (all_shown steps.now) k
        → OnOk result (RestsAt (state S.Store conn.new) (after (all_shown steps.now) k)) }
    ensures is_open { HasCleanDisk (state S.Store conn.new)
        → OnOk result (IsTrue (state S.Store conn.new).is_open) }
    ensures undone { HasCleanDisk (state S.Store conn.new)
        → (state S.Store conn.old).in_transaction ≡ false → IsTrue (state S.Store conn.new).is_open
        → OnErr result (((state S.Store conn.new).now ≡ (state S.Store conn.old).committed)
        × ((state S.Store conn.new).committed ≡ (state S.Store conn.old).committed)) }
    ensures was_open { HasCleanDisk (state S.Store conn.new)
        → IsTrue (state S.Store conn.new).is_open → IsTrue (state S.Store conn.old).is_open }
    ensures mode { (state S.Store conn.old).in_transaction ≡ false
        → (state S.Store conn.new).in_transaction ≡ false }
    ensures survives { Survives (state S.Store conn.old) (state S.Store conn.new)
        (HoldsAfter (state S.Store conn.old) (all_shown steps.now)) }
{
    if !conn.is_autocommit() {
        return Err(Error::SqliteFailure(ErrorCode::TransactionState));
    }
    let mut tx = conn.transaction();
    run_steps(&mut tx, steps)?;
    tx.commit()
}

/// Runs the statements in one transaction, and says how that ended. Where memory ran out,
/// statements are still taken; else it failed.
pub fn settle<S: Alter>(conn: &mut Connection<S>, steps: &[Step<'_>]) -> Ending
    ensures done { HasCleanDisk (state S.Store conn.new) → (k : Contents)
        → RestsAt (state S.Store conn.old) k → CanRunAll (all_shown steps.now) k → result ≡ Done
        → RestsAt (state S.Store conn.new) (after (all_shown steps.now) k) }
    ensures undone { HasCleanDisk (state S.Store conn.new) → IsTrue (state S.Store conn.new).is_open
        → IsReady (state S.Store conn.old) → result ≢ Done
        → IsReady (state S.Store conn.new) × ((state S.Store conn.new).now
        ≡ (state S.Store conn.old).now) }
    ensures on { HasCleanDisk (state S.Store conn.new) → IsReady (state S.Store conn.old)
        → result ≢ Failed → IsTrue (state S.Store conn.new).is_open }
    ensures was_open { HasCleanDisk (state S.Store conn.new)
        → IsTrue (state S.Store conn.new).is_open → IsTrue (state S.Store conn.old).is_open }
    ensures mode { (state S.Store conn.old).in_transaction ≡ false
        → (state S.Store conn.new).in_transaction ≡ false }
    ensures survives { Survives (state S.Store conn.old) (state S.Store conn.new)
        (HoldsAfter (state S.Store conn.old) (all_shown steps.now)) }
{
    match commit_steps(conn, steps) {
        Ok(()) => Ending::Done,
        Err(error) => end_after(conn, &error),
    }
}
