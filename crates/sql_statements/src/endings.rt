// What a refusal is told as.
ghost use Rattle.std.specs.Prelude.{◌≡◌, ◌≢◌, ◌↔◌, false, IsTrue};
ghost use Rattle.sqlite.specs.Held.{state};
ghost use Rattle.sqlite.specs.State.{HasCleanDisk, IsUnchanged};
ghost use Rattle.sql_meanings.specs.Schema.{kept_schema};
ghost use Rattle.sql_meanings.specs.Calls.{RunsReading};
ghost use Rattle.sql_statements.specs.Refusals.{IsRefusedAgain};
ghost use Rattle.sql_statements.specs.declared.endings.Ending.TheVariants.{Done, Failed, Memory};

use sqlite::{Alter, Connection, Error, ErrorCode};

/// How a call on the database ended.
#[derive(Clone, Copy, Debug, PartialEq, Eq)]
pub enum Ending {
    Done,
    /// Memory ran out, and the connection takes statements as before.
    Memory,
    Failed,
}

fn is_memory(error: &Error) -> bool
    ensures { IsTrue result ↔ (error.now ≡ Error.SqliteFailure ErrorCode.OutOfMemory) }
{
    matches!(error, Error::SqliteFailure(ErrorCode::OutOfMemory))
}

/// Whether statements are still taken. Where they aren't, the disk has failed, or memory has run
/// out again.
pub fn is_usable<S: Alter>(conn: &mut Connection<S>) -> bool
    ensures usable { HasCleanDisk (state S.Store conn.new) → IsTrue result
        → IsUnchanged (state S.Store conn.old) (state S.Store conn.new) }
    ensures unusable { HasCleanDisk (state S.Store conn.new)
        → (state S.Store conn.old).now.schema ≡ kept_schema → result ≡ false
        → IsRefusedAgain (state S.Store conn.old) (state S.Store conn.new) }
    ensures mode { conn.old.in_transaction ≡ false → conn.new.in_transaction ≡ false }
    ensures runs { RunsReading (state S.Store conn.old) (state S.Store conn.new) }
{
    match conn.prepare("SELECT body FROM shape WHERE one = 1") {
        Ok(_) => true,
        Err(_) => false,
    }
}

/// How a refusal is told: as want of memory only where statements are still taken, and else as a
/// failure.
pub fn end_after<S: Alter>(conn: &mut Connection<S>, error: &Error) -> Ending
    ensures refused { result ≢ Done }
    ensures memory { result ≡ Memory → error.now ≡ Error.SqliteFailure ErrorCode.OutOfMemory }
    ensures same { HasCleanDisk (state S.Store conn.new) → result ≡ Memory
        → IsUnchanged (state S.Store conn.old) (state S.Store conn.new) }
    ensures failed { HasCleanDisk (state S.Store conn.new)
        → (state S.Store conn.old).now.schema ≡ kept_schema → result ≡ Failed
        → error.now ≡ Error.SqliteFailure ErrorCode.OutOfMemory
        → IsRefusedAgain (state S.Store conn.old) (state S.Store conn.new) }
    ensures mode { conn.old.in_transaction ≡ false → conn.new.in_transaction ≡ false }
    ensures runs { RunsReading (state S.Store conn.old) (state S.Store conn.new) }
{
    let usable = is_usable(conn);
    if usable && is_memory(error) {
        Ending::Memory
    } else {
        Ending::Failed
    }
}
