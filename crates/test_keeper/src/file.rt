// The file of a database, as others than a keeper see it.

use keeper_cases::Said;
use sqlite::types::ValueRef;
use sqlite::{Alter, Connection, Error, Row};
use std::rt::HostRuntime;

/// Takes the file of a database away, if it is there, and the log beside it.
pub fn forget(rt: &HostRuntime, name: &str) {
    let _file = std::fs::remove_file(rt, name);
    if let Ok(log) = format!(in rt.alloc(); "{name}-wal") {
        let _log = std::fs::remove_file(rt, log.as_str());
    }
}

/// Runs a statement over the database of a file, and adds which rows it gives, or else that it is
/// done or refused.
pub fn run(rt: &HostRuntime, name: &str, text: &str, said: &mut Said) {
    match Connection::open(rt, name) {
        Ok(mut conn) => run_over(&mut conn, text, said),
        Err(error) => put_error(said, error),
    }
}

fn run_over<S: Alter>(conn: &mut Connection<S>, text: &str, said: &mut Said) {
    if !text.starts_with("SELECT") {
        return match conn.execute(text, &[]) {
            Ok(_) => said.put("done"),
            Err(error) => put_error(said, error),
        };
    }
    match conn.query_all(text, &[]) {
        Ok(rows) => put_rows(said, &rows),
        Err(error) => put_error(said, error),
    }
}

fn put_error(said: &mut Said, error: Error) {
    said.put_made(format!(in said.alloc; "{error}"));
}

/// Adds rows in a line.
fn put_rows(said: &mut Said, rows: &[Row]) {
    said.put_made(format!(in said.alloc; "{} rows", rows.len()));
    for row in rows {
        said.put(";");
        put_row(said, row);
    }
}

/// Adds the values of a row.
fn put_row(said: &mut Said, row: &Row) {
    for at in 0..row.column_count() {
        match row.get_ref(at) {
            Ok(ValueRef::Int(number)) => said.put_made(format!(in said.alloc; " {number}")),
            Ok(ValueRef::Blob(bytes)) => put_bytes(said, bytes),
            _ => said.put(" ?"),
        }
    }
}

/// Adds bytes, as SQL writes them.
fn put_bytes(said: &mut Said, bytes: &[u8]) {
    said.put(" x'");
    for byte in bytes {
        said.put_made(format!(in said.alloc; "{byte:02x}"));
    }
    said.put("'");
}
