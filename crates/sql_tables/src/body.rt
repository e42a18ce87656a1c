// The body of the schema.
ghost use Rattle.std.specs.Prelude.{◌≡◌, ◌≤◌, false, true, ℕ, IfOk, List, OnErr, OnOk, Option, map};
ghost use Rattle.sqlite.specs.Held.{state};
ghost use Rattle.sqlite.specs.State.{HasCleanDisk, IsUnchanged};
ghost use Rattle.std.specs.Option.{option_to_list};
ghost use Rattle.sqlite_trees.specs.View.{doubt};
ghost use Rattle.sql_meanings.specs.Schema.{kept_schema};
ghost use Rattle.sql_meanings.specs.Forms.{GoesOn, LeavesOrRollsBack};
ghost use Rattle.sql_meanings.specs.Calls.{RunsInside, RunsReading};
ghost use Rattle.sql_meanings.specs.UnderWay.{IsUnderWay};
ghost use Rattle.sql_meanings.specs.Body.{HasBody, InsertsBody, body_at};

use sqlite::{Alter, Connection, Error, Row, Transaction, params};

/// Keeps the body of a schema, where none is kept.
pub fn insert_body<S: Alter>(tx: &mut Transaction<'_, S>, body: &[u8]) -> Result<usize, Error>
    ensures same_reference { tx.new.conn.ghost_name ≡ tx.old.conn.ghost_name }
    ensures ok { HasCleanDisk (state S.Store tx.new.conn.now)
        → IsUnderWay (state S.Store tx.old.conn.now)
        → IfOk result (InsertsBody (state S.Store tx.old.conn.now) (state S.Store tx.new.conn.now)
        body.now) }
    ensures stops { HasCleanDisk (state S.Store tx.new.conn.now)
        → (state S.Store tx.old.conn.now).in_transaction ≡ true
        → OnErr result (LeavesOrRollsBack (state S.Store tx.old.conn.now)
        (state S.Store tx.new.conn.now)) }
    ensures on { HasCleanDisk (state S.Store tx.new.conn.now)
        → (state S.Store tx.old.conn.now).in_transaction ≡ true
        → OnOk result (GoesOn (state S.Store tx.old.conn.now) (state S.Store tx.new.conn.now)) }
    ensures runs { RunsInside (state S.Store tx.old.conn.now) (state S.Store tx.new.conn.now) }
{
    tx.execute("INSERT INTO shape(one, body) VALUES(1, ?)", params![body])
}

/// The body of the schema that is kept, if there is one.
pub fn read_body<S: Alter>(conn: &mut Connection<S>) -> Result<Vec<Row>, Error>
    ensures answer { HasCleanDisk (state S.Store conn.new)
        → (state S.Store conn.old).now.schema ≡ kept_schema → (body : Option (List ℕ))
        → HasBody (state S.Store conn.old).now.trees body
        → IfOk result (λ rows. rows.items ≡ map body_at (option_to_list body)) }
    ensures later { doubt (state S.Store conn.old).is_clean
        ≤ doubt (state S.Store conn.new).is_clean }
    ensures mode { conn.old.in_transaction ≡ false → conn.new.in_transaction ≡ false }
    ensures same { HasCleanDisk (state S.Store conn.new)
        → (state S.Store conn.old).now.schema ≡ kept_schema
        → OnOk result (IsUnchanged (state S.Store conn.old) (state S.Store conn.new)) }
    ensures runs { (state S.Store conn.old).now.schema ≡ kept_schema
        → RunsReading (state S.Store conn.old) (state S.Store conn.new) }
{
    conn.query_all("SELECT body FROM shape WHERE one = 1", &[])
}
