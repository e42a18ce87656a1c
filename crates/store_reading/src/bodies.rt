// The line of one row.
ghost use Rattle.std.specs.Prelude.{◌≡◌, ℕ, List, IfOk, Some, map, option_map, slice_get};
ghost use Rattle.sqlite.specs.Held.{state};
ghost use Rattle.sqlite.specs.State.{HasCleanDisk};
ghost use Rattle.sql_meanings.specs.Lines.{LinesOf, line_at};
ghost use Rattle.sql_contents.specs.Contents.{lines_in};
ghost use Rattle.row_changes.specs.Overlay.{AreOf, body_at, bytes_in, overlay};
ghost use Rattle.store_model.specs.Ends.{call_failed};
ghost use Rattle.store_model.specs.Steady.{IsAtRest};
ghost use Rattle.store_asking.specs.Asked.{StaysAtRest};

use row_changes::{Made, TableChanges};
use row_keeper::KeeperEnd;
use sql_statements::bytes_in as body_in;
use sqlite::{Alter, Connection, Row as Answer};
use std::alloc::Global;
use store_asking::ask_lines;

/// A copy of a body.
fn copied(alloc: Global, body: &[u8]) -> Result<Option<Vec<u8>>, KeeperEnd>
    ensures { IfOk result (λ o. bytes_in o ≡ Some body.now) }
{
    Ok(Some(Vec::from_slice(alloc, body)?))
}

/// The body of a line.
fn body_of(alloc: Global, line: &Answer) -> Result<Option<Vec<u8>>, KeeperEnd>
    ensures { IfOk result (λ o. (x : ℕ × List ℕ) → line.now ≡ line_at x → bytes_in o ≡ Some x.1) }
{
    match body_in(line, 1) {
        Some(body) => copied(alloc, body),
        None => Err(KeeperEnd::Failed),
    }
}

/// The body of the first of some lines, if there is one.
fn first_body(alloc: Global, lines: &[Answer]) -> Result<Option<Vec<u8>>, KeeperEnd>
    ensures { IfOk result (λ o. (xs : LinesOf) → lines.now ≡ map line_at xs
        → bytes_in o ≡ option_map (λ x. x.1) (slice_get xs 0)) }
{
    match lines.first() {
        None => Ok(None),
        Some(line) => body_of(alloc, line),
    }
}

/// The body of a row's line that is kept, if there is one.
fn kept_body<S: Alter>(
    alloc: Global,
    conn: &mut Connection<S>,
    tab: u16,
    id: u32,
) -> Result<Option<Vec<u8>>, KeeperEnd>
    ensures stays { StaysAtRest (state S.Store conn.old) (state S.Store conn.new)
        (call_failed result) }
    ensures body { HasCleanDisk (state S.Store conn.new) → IsAtRest (state S.Store conn.old)
        → IfOk result (λ o. bytes_in o
        ≡ body_at id (lines_in (state S.Store conn.old).now.trees tab)) }
{
    match ask_lines(conn, u32::from(tab), id, id) {
        Ok(lines) => first_body(alloc, &lines),
        Err(end) => Err(end),
    }
}

/// The body of a row's line as the transaction has made it, if there is one.
pub fn body_now<S: Alter>(
    alloc: Global,
    conn: &mut Connection<S>,
    changes: &TableChanges,
    tab: u16,
    id: u32,
) -> Result<Option<Vec<u8>>, KeeperEnd>
    ensures stays { StaysAtRest (state S.Store conn.old) (state S.Store conn.new)
        (call_failed result) }
    ensures body { HasCleanDisk (state S.Store conn.new) → IsAtRest (state S.Store conn.old)
        → AreOf (lines_in (state S.Store conn.old).now.trees tab) changes.now
        → IfOk result (λ o. bytes_in o ≡ body_at id
        (overlay changes.now (lines_in (state S.Store conn.old).now.trees tab))) }
{
    match changes.made(id) {
        Made::Body(body) => copied(alloc, body),
        Made::Gone => Ok(None),
        Made::Same => kept_body(alloc, conn, tab, id),
    }
}
