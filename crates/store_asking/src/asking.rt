// The statements that read, each with how it is told where it is refused.
ghost use Rattle.std.specs.Prelude.{◌≡◌, ◌≤◌, IfOk, filter, map};
ghost use Rattle.std.specs.Option.{option_to_list};
ghost use Rattle.sqlite.specs.Held.{state};
ghost use Rattle.sqlite.specs.State.{HasCleanDisk, IsUnchanged};
ghost use Rattle.sqlite_trees.specs.View.{doubt};
ghost use Rattle.sql_meanings.specs.Body.{body_at};
ghost use Rattle.sql_meanings.specs.Lasts.{last_at};
ghost use Rattle.sql_meanings.specs.Lines.{is_within, line_at};
ghost use Rattle.sql_meanings.specs.Marks.{lies, mark_at};
ghost use Rattle.sql_contents.specs.Contents.{body_in, lasts_in, lines_in, marks_in};
ghost use Rattle.row_keeper.specs.declared.keeper.KeeperEnd.TheVariants.{Memory as OutOfMemory};
ghost use Rattle.store_model.specs.Ends.{call_failed};
ghost use Rattle.store_model.specs.Steady.{IsAtRest};
ghost use Rattle.store_asking.specs.Asked.{StaysAtRest};

use row_keeper::KeeperEnd;
use sql_statements::{Ending, end_after, read_lines, read_marks};
use sql_tables::{read_body, read_lasts};
use sqlite::{Alter, Connection, Error, Row};

/// How a refusal of a statement is told.
pub fn refusal<S: Alter>(conn: &mut Connection<S>, error: &Error) -> KeeperEnd
    ensures later { doubt (state S.Store conn.old).is_clean ≤ doubt (state S.Store conn.new).is_clean }
    ensures same { HasCleanDisk (state S.Store conn.new) → result ≡ OutOfMemory
        → IsUnchanged (state S.Store conn.old) (state S.Store conn.new) }
{
    match end_after(conn, error) {
        Ending::Memory => KeeperEnd::Memory,
        Ending::Done => KeeperEnd::Failed,
        Ending::Failed => KeeperEnd::Failed,
    }
}

/// The lines of a table with numbers from one up to another, by rising numbers.
pub fn ask_lines<S: Alter>(
    conn: &mut Connection<S>,
    tab: u32,
    low: u32,
    high: u32,
) -> Result<Vec<Row>, KeeperEnd>
    ensures stays { StaysAtRest (state S.Store conn.old) (state S.Store conn.new)
        (call_failed result) }
    ensures answer { HasCleanDisk (state S.Store conn.new) → IsAtRest (state S.Store conn.old)
        → IfOk result (λ rows. rows.items ≡ map line_at
        (filter (is_within low high) (lines_in (state S.Store conn.old).now.trees tab))) }
{
    match read_lines(conn, tab, low, high) {
        Ok(rows) => Ok(rows),
        Err(error) => Err(refusal(conn, &error)),
    }
}

/// The marks of a column with keys from one up to but without another, by rising keys and numbers.
pub fn ask_marks<S: Alter>(
    conn: &mut Connection<S>,
    tab: u32,
    column: u32,
    from: &[u8],
    upto: &[u8],
) -> Result<Vec<Row>, KeeperEnd>
    ensures stays { StaysAtRest (state S.Store conn.old) (state S.Store conn.new)
        (call_failed result) }
    ensures answer { HasCleanDisk (state S.Store conn.new) → IsAtRest (state S.Store conn.old)
        → IfOk result (λ rows. rows.items ≡ map mark_at
        (filter (lies from.now upto.now) (marks_in (state S.Store conn.old).now.trees tab column))) }
{
    match read_marks(conn, tab, column, from, upto) {
        Ok(rows) => Ok(rows),
        Err(error) => Err(refusal(conn, &error)),
    }
}

/// The last numbers of the tables, by rising tables.
pub fn ask_lasts<S: Alter>(conn: &mut Connection<S>) -> Result<Vec<Row>, KeeperEnd>
    ensures stays { StaysAtRest (state S.Store conn.old) (state S.Store conn.new)
        (call_failed result) }
    ensures answer { HasCleanDisk (state S.Store conn.new) → IsAtRest (state S.Store conn.old)
        → IfOk result (λ rows. rows.items ≡ map last_at
        (lasts_in (state S.Store conn.old).now.trees)) }
{
    match read_lasts(conn) {
        Ok(rows) => Ok(rows),
        Err(error) => Err(refusal(conn, &error)),
    }
}

/// The body of the schema that is kept, if there is one.
pub fn ask_body<S: Alter>(conn: &mut Connection<S>) -> Result<Vec<Row>, KeeperEnd>
    ensures stays { StaysAtRest (state S.Store conn.old) (state S.Store conn.new)
        (call_failed result) }
    ensures answer { HasCleanDisk (state S.Store conn.new) → IsAtRest (state S.Store conn.old)
        → IfOk result (λ rows. rows.items ≡ map body_at
        (option_to_list (body_in (state S.Store conn.old).now.trees))) }
{
    match read_body(conn) {
        Ok(rows) => Ok(rows),
        Err(error) => Err(refusal(conn, &error)),
    }
}
