// The statements, each with its text. A reading one is answered whole.

use crate::database::Database;
use row_keeper::KeeperEnd;
use sqlite::types::ValueRef;
use sqlite::{Alter, Error, ErrorCode, Row as Answer, Transaction, params};

/// Why a statement was refused: for want of memory, or for another cause.
fn end_of(error: Error) -> KeeperEnd {
    match error {
        Error::SqliteFailure(ErrorCode::OutOfMemory) => KeeperEnd::Memory,
        _ => KeeperEnd::Failed,
    }
}

fn ask(
    database: &mut Database,
    text: &str,
    params: &[ValueRef<'_>],
) -> Result<Vec<Answer>, KeeperEnd> {
    match database.query_all(text, params) {
        Ok(answers) => Ok(answers),
        Err(error) => Err(end_of(error)),
    }
}

fn write<S: Alter>(
    tx: &mut Transaction<'_, S>,
    text: &str,
    params: &[ValueRef<'_>],
) -> Result<(), KeeperEnd> {
    match tx.execute(text, params) {
        Ok(_) => Ok(()),
        Err(error) => Err(end_of(error)),
    }
}

/// Ends a transaction with its changes.
pub fn commit<S: Alter>(tx: Transaction<'_, S>) -> Result<(), KeeperEnd> {
    match tx.commit() {
        Ok(()) => Ok(()),
        Err(error) => Err(end_of(error)),
    }
}

/// A whole number of an answer, if there is one.
pub fn number_in(answer: &Answer, place: usize) -> Option<i64> {
    match answer.get_ref(place) {
        Ok(ValueRef::Int(number)) => Some(number),
        _ => None,
    }
}

/// Bytes of an answer, if there are some.
pub fn bytes_in(answer: &Answer, place: usize) -> Option<&[u8]> {
    match answer.get_ref(place) {
        Ok(ValueRef::Blob(bytes)) => Some(bytes),
        _ => None,
    }
}

/// The body of the schema that is kept, if there is one; none where there are no tables yet.
pub fn kept_body(database: &mut Database) -> Result<Option<Vec<Answer>>, KeeperEnd> {
    match database.query_all("SELECT body FROM shape WHERE one = 1", &[]) {
        Ok(answers) => Ok(Some(answers)),
        Err(Error::SqlInputError(_)) => Ok(None),
        Err(error) => Err(end_of(error)),
    }
}

/// The last numbers of the tables, by rising tables.
pub fn lasts(database: &mut Database) -> Result<Vec<Answer>, KeeperEnd> {
    ask(database, "SELECT tab, last FROM tabs ORDER BY tab", &[])
}

/// The lines of a table with numbers from one up to another, by rising numbers.
pub fn lines(
    database: &mut Database,
    tab: u16,
    low: u32,
    high: u32,
) -> Result<Vec<Answer>, KeeperEnd> {
    ask(
        database,
        "SELECT id, body FROM lines WHERE tab = ? AND id >= ? AND id <= ? ORDER BY id",
        params![u32::from(tab), low, high],
    )
}

/// The marks of a column with keys from one up to but without another, by rising keys.
pub fn marks(
    database: &mut Database,
    tab: u16,
    column: u16,
    from: &[u8],
    upto: &[u8],
) -> Result<Vec<Answer>, KeeperEnd> {
    ask(
        database,
        "SELECT k, id FROM marks WHERE tab = ? AND col = ? AND k >= ? AND k < ? ORDER BY k, id",
        params![u32::from(tab), u32::from(column), from, upto],
    )
}

/// Makes the tables of the database.
pub fn make_tables<S: Alter>(tx: &mut Transaction<'_, S>) -> Result<(), KeeperEnd> {
    write(
        tx,
        "CREATE TABLE shape(one INTEGER PRIMARY KEY, body BLOB NOT NULL)",
        &[],
    )?;
    write(
        tx,
        "CREATE TABLE tabs(tab INTEGER PRIMARY KEY, last INTEGER NOT NULL)",
        &[],
    )?;
    write(
        tx,
        "CREATE TABLE lines(tab INTEGER NOT NULL, id INTEGER NOT NULL, body BLOB NOT NULL, PRIMARY KEY(tab, id))",
        &[],
    )?;
    write(
        tx,
        "CREATE TABLE marks(tab INTEGER NOT NULL, col INTEGER NOT NULL, k BLOB NOT NULL, id INTEGER NOT NULL, PRIMARY KEY(tab, col, k, id))",
        &[],
    )
}

/// Keeps the body of a schema.
pub fn put_shape<S: Alter>(tx: &mut Transaction<'_, S>, body: &[u8]) -> Result<(), KeeperEnd> {
    write(
        tx,
        "INSERT INTO shape(one, body) VALUES(1, ?)",
        params![body],
    )
}

/// Keeps a table, which has given no number.
pub fn put_tab<S: Alter>(tx: &mut Transaction<'_, S>, tab: u16) -> Result<(), KeeperEnd> {
    write(
        tx,
        "INSERT INTO tabs(tab, last) VALUES(?, ?)",
        params![u32::from(tab), 0u32],
    )
}

/// Keeps the last number of a table.
pub fn set_last<S: Alter>(
    tx: &mut Transaction<'_, S>,
    tab: u16,
    last: u32,
) -> Result<(), KeeperEnd> {
    write(
        tx,
        "UPDATE tabs SET last = ? WHERE tab = ?",
        params![last, u32::from(tab)],
    )
}

/// Puts a new line.
pub fn put_line<S: Alter>(
    tx: &mut Transaction<'_, S>,
    tab: u16,
    id: u32,
    body: &[u8],
) -> Result<(), KeeperEnd> {
    write(
        tx,
        "INSERT INTO lines(tab, id, body) VALUES(?, ?, ?)",
        params![u32::from(tab), id, body],
    )
}

/// Puts another body into a line.
pub fn set_line<S: Alter>(
    tx: &mut Transaction<'_, S>,
    tab: u16,
    id: u32,
    body: &[u8],
) -> Result<(), KeeperEnd> {
    write(
        tx,
        "UPDATE lines SET body = ? WHERE tab = ? AND id = ?",
        params![body, u32::from(tab), id],
    )
}

/// Takes a line out.
pub fn take_line<S: Alter>(
    tx: &mut Transaction<'_, S>,
    tab: u16,
    id: u32,
) -> Result<(), KeeperEnd> {
    write(
        tx,
        "DELETE FROM lines WHERE tab = ? AND id = ?",
        params![u32::from(tab), id],
    )
}

/// Puts the mark of a row's key in a column.
pub fn put_mark<S: Alter>(
    tx: &mut Transaction<'_, S>,
    tab: u16,
    column: u16,
    key: &[u8],
    id: u32,
) -> Result<(), KeeperEnd> {
    write(
        tx,
        "INSERT INTO marks(tab, col, k, id) VALUES(?, ?, ?, ?)",
        params![u32::from(tab), u32::from(column), key, id],
    )
}

/// Takes the mark of a row's key in a column out.
pub fn take_mark<S: Alter>(
    tx: &mut Transaction<'_, S>,
    tab: u16,
    column: u16,
    key: &[u8],
    id: u32,
) -> Result<(), KeeperEnd> {
    write(
        tx,
        "DELETE FROM marks WHERE tab = ? AND col = ? AND k = ? AND id = ?",
        params![u32::from(tab), u32::from(column), key, id],
    )
}

/// Takes out all that the database keeps: the schema, the tables, and the lines and marks of their
/// rows.
pub fn take_all<S: Alter>(tx: &mut Transaction<'_, S>) -> Result<(), KeeperEnd> {
    write(tx, "DELETE FROM shape", &[])?;
    write(tx, "DELETE FROM tabs", &[])?;
    write(tx, "DELETE FROM lines", &[])?;
    write(tx, "DELETE FROM marks", &[])
}
