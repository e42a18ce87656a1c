// A database that is taken over.
ghost use Rattle.std.specs.Prelude.{◌≡◌, ◌≤◌, OnOk};
ghost use Rattle.sqlite.specs.Held.{state};
ghost use Rattle.sqlite.specs.State.{HasCleanDisk};
ghost use Rattle.sqlite_trees.specs.View.{doubt};
ghost use Rattle.sql_layout.specs.declared.Layout.TheVariants.{Empty};
ghost use Rattle.sql_meanings.specs.Schema.{no_schema};
ghost use Rattle.sql_meanings.specs.UnderWay.{IsNew};
ghost use Rattle.store_model.specs.Model.{doubt_of};
ghost use Rattle.store_attaching.specs.Taken.{HasNoTables, SeatTakes};

use row_keeper::KeeperEnd;
use sql_layout::{Layout, layout_of};
use sql_tables::{make_all, seated};
use sqlite::{Alter, Connection};
use std::alloc::Global;
use store_asking::refusal;

/// Makes the tables that rows are kept in, in a database that has none.
fn make<S: Alter>(conn: &mut Connection<S>) -> Result<(), KeeperEnd>
    ensures later { doubt (state S.Store conn.old).is_clean
        ≤ doubt (state S.Store conn.new).is_clean }
    ensures made { HasCleanDisk (state S.Store conn.new)
        → (state S.Store conn.old).now.schema ≡ no_schema
        → OnOk result (IsNew (state S.Store conn.new)) }
{
    match make_all(conn) {
        Ok(()) => Ok(()),
        Err(error) => Err(refusal(conn, &error)),
    }
}

/// The same of the connection of a keeper, which is a new one then.
fn make_at<S: Alter>(seat: &mut Option<Connection<S>>) -> Result<bool, KeeperEnd>
    ensures { HasNoTables (state S.Store) seat.old
        → SeatTakes (state S.Store) seat.old seat.new result }
{
    let Some(conn) = seat else {
        return Err(KeeperEnd::Failed);
    };
    match make(conn) {
        Ok(()) => Ok(true),
        Err(end) => Err(end),
    }
}

/// Opens the same database anew, so that its rows are known to be in order. Where that is refused,
/// or the database has other tables, the connection is lost.
fn seat_anew<S: Alter + Drop>(
    alloc: Global,
    seat: &mut Option<Connection<S>>,
) -> Result<bool, KeeperEnd>
    ensures { SeatTakes (state S.Store) seat.old seat.new result }
{
    let Some(conn) = seat.take() else {
        return Err(KeeperEnd::Failed);
    };
    let Ok(conn) = seated(alloc, conn) else {
        return Err(KeeperEnd::Failed);
    };
    let layout = layout_of(conn.schema());
    *seat = Some(conn);
    match layout {
        Layout::Kept => Ok(false),
        _ => Err(KeeperEnd::Failed),
    }
}

/// What the tables of a connection are to the rows that are kept. A lost one has others.
fn layout_at<S: Alter>(seat: &Option<Connection<S>>) -> Layout
    ensures { result ≡ Empty → HasNoTables (state S.Store) seat.now }
{
    match seat {
        Some(conn) => layout_of(conn.schema()),
        None => Layout::Foreign,
    }
}

/// Takes a database over, and says whether it is a new one: the tables that rows are kept in are
/// made where it has none. A database with other tables is refused.
pub fn take_seat<S: Alter + Drop>(
    alloc: Global,
    seat: &mut Option<Connection<S>>,
) -> Result<bool, KeeperEnd>
    ensures { SeatTakes (state S.Store) seat.old seat.new result }
{
    match layout_at(seat) {
        Layout::Empty => make_at(seat),
        Layout::Kept => seat_anew(alloc, seat),
        Layout::Foreign => Err(KeeperEnd::Failed),
    }
}
