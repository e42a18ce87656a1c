// A database, in memory or in a file.

use crate::writing::{Writing, write};
use row_keeper::KeeperEnd;
use sqlite::types::ValueRef;
use sqlite::{Connection, Error, ErrorCode, File, FileStore, MemStore, Row as Answer};
use std::rt::HostRuntime;

pub enum Database {
    InMemory(Connection<MemStore>),
    InFile(Connection<FileStore<File>>),
}

// By hand, so that it is called: what is derived is opened wherever a value may end, which costs
// proofs seconds each time.
impl Drop for Database {
    fn drop(self) {
        match self {
            Database::InMemory(_) => {}
            Database::InFile(_) => {}
        }
    }
}

impl Database {
    /// Opens the database of a name: a new one in memory where the name is empty or `:memory:`,
    /// else that of a file, which is made where there is none.
    pub fn open(rt: &HostRuntime, name: &str) -> Result<Database, KeeperEnd> {
        if name.is_empty() || name == ":memory:" {
            return match Connection::open_in_memory(rt.alloc()) {
                Ok(conn) => Ok(Database::InMemory(conn)),
                Err(_) => Err(KeeperEnd::Memory),
            };
        }
        match Connection::open(rt, name) {
            Ok(conn) => Ok(Database::InFile(conn)),
            Err(Error::SqliteFailure(ErrorCode::OutOfMemory)) => Err(KeeperEnd::Memory),
            Err(_) => Err(KeeperEnd::Failed),
        }
    }

    /// All that a reading statement answers.
    // This and `write` alone choose between the kinds of connection, since each function that does
    // costs proofs half a minute.
    pub fn query_all(&mut self, text: &str, params: &[ValueRef<'_>]) -> Result<Vec<Answer>, Error> {
        match self {
            Database::InMemory(conn) => conn.query_all(text, params),
            Database::InFile(conn) => conn.query_all(text, params),
        }
    }

    /// Writes this in a transaction, all of it or nothing.
    pub fn write(&mut self, writing: &Writing<'_>) -> Result<(), KeeperEnd> {
        match self {
            Database::InMemory(conn) => write(conn, writing),
            Database::InFile(conn) => write(conn, writing),
        }
    }
}
