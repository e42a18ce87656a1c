// The schema that a database keeps.
ghost use Rattle.std.specs.Prelude.{◌≢◌, IfOk, IfSome};
ghost use Rattle.row_lines.specs.Bodies.{schema_bytes};

use crate::database::Database;
use crate::statements::{self, bytes_in, number_in};
use crate::tallies::{Count, Tally, no_rows};
use crate::writing::Writing;
use fx_base::Memory;
use fx_core::{Schema, TableShape};
use row_keeper::KeeperEnd;
use row_lines::lines::row_of;
use row_lines::schemas::schema_of;
use sqlite::Row as Answer;
use std::alloc::Global;

/// The body of the schema that is kept, if one is.
pub fn kept_body(alloc: Global, database: &mut Database) -> Result<Option<Vec<u8>>, KeeperEnd> {
    let Some(answers) = statements::kept_body(database)? else {
        return Ok(None);
    };
    let Some(answer) = answers.first() else {
        return Ok(None);
    };
    match bytes_in(answer, 0) {
        Some(body) => Ok(Some(Vec::from_slice(alloc, body)?)),
        None => Err(KeeperEnd::Failed),
    }
}

/// The schema of a kept body, where that isn't this one.
pub fn other_schema(alloc: Global, kept: &[u8], body: &[u8]) -> Result<Option<Schema>, KeeperEnd>
    ensures { IfOk result (λ other. IfSome other (λ s. schema_bytes s ≢ body.now)) }
{
    if kept == body {
        return Ok(None);
    }
    match schema_of(alloc, kept)? {
        Some(other) => Ok(Some(other)),
        None => Err(KeeperEnd::Failed),
    }
}

/// Keeps a schema where none is kept.
pub fn new_tallies(
    alloc: Global,
    database: &mut Database,
    body: &[u8],
    tables: usize,
) -> Result<Vec<Tally>, KeeperEnd> {
    let Ok(count) = u16::try_from(tables) else {
        return Err(KeeperEnd::Memory);
    };
    let tallies = no_rows(alloc, tables)?;
    let has_tables = statements::kept_body(database)?.is_some();
    database.write(&Writing::Schema {
        has_tables,
        body,
        tables: count,
    })?;
    Ok(tallies)
}

/// The tallies of tables that are kept.
pub fn kept_tallies(
    alloc: Global,
    database: &mut Database,
    tables: &[TableShape],
) -> Result<Vec<Tally>, KeeperEnd> {
    let lasts = statements::lasts(database)?;
    // Each table of the schema has a last number, and nothing else has one.
    if lasts.len() != tables.len() {
        return Err(KeeperEnd::Failed);
    }
    let mut tallies = Vec::new(alloc);
    let mut tab = 0u16;
    for (place, table) in tables.iter().enumerate() {
        let count = kept_count(alloc, database, table, tab, &lasts[place])?;
        tallies.push(Tally::new(count))?;
        let Some(next) = tab.checked_add(1) else {
            return Err(KeeperEnd::Failed);
        };
        tab = next;
    }
    Ok(tallies)
}

/// The count of a table that is kept. This tells its last number.
fn kept_count(
    alloc: Global,
    database: &mut Database,
    table: &TableShape,
    tab: u16,
    answer: &Answer,
) -> Result<Count, KeeperEnd> {
    let (Some(number), Some(last)) = (number_in(answer, 0), number_in(answer, 1)) else {
        return Err(KeeperEnd::Failed);
    };
    let Ok(last) = u32::try_from(last) else {
        return Err(KeeperEnd::Failed);
    };
    if number != i64::from(tab) {
        return Err(KeeperEnd::Failed);
    }
    let lines = statements::lines(database, tab, 1, u32::MAX)?;
    if !are_rows(alloc, table, last, &lines)? {
        return Err(KeeperEnd::Failed);
    }
    match u32::try_from(lines.len()) {
        Ok(rows) => Ok(Count { last, rows }),
        Err(_) => Err(KeeperEnd::Failed),
    }
}

/// Whether lines are those of rows of a table that has given this number last.
fn are_rows(
    alloc: Global,
    table: &TableShape,
    last: u32,
    lines: &[Answer],
) -> Result<bool, Memory> {
    for line in lines {
        if !is_row(alloc, table, last, line)? {
            return Ok(false);
        }
    }
    Ok(true)
}

/// Whether a line is that of a row of a table that has given this number last.
fn is_row(alloc: Global, table: &TableShape, last: u32, line: &Answer) -> Result<bool, Memory> {
    let (Some(number), Some(body)) = (number_in(line, 0), bytes_in(line, 1)) else {
        return Ok(false);
    };
    match u32::try_from(number) {
        Ok(id) if id <= last => Ok(row_of(alloc, table, id, body)?.is_some()),
        _ => Ok(false),
    }
}
