// What is written to a database, each time in one transaction.

use crate::changes::{Change, Changes};
use crate::statements::{
    commit, make_tables, put_line, put_mark, put_shape, put_tab, set_last, set_line, take_all,
    take_line, take_mark,
};
use crate::tallies::Tally;
use fx_core::{Column, Schema};
use row_keeper::KeeperEnd;
use row_lines::pieces::piece_at;
use sqlite::{Alter, Connection, Transaction};

/// What is written in one transaction.
#[derive(Clone, Copy)]
pub enum Writing<'a> {
    /// The body of a schema where none is kept, with so many tables without rows.
    Schema {
        has_tables: bool,
        body: &'a [u8],
        tables: u16,
    },
    /// What a transaction has made of the rows.
    Rows {
        schema: &'a Schema,
        changes: &'a Changes,
        tallies: &'a [Tally],
    },
    /// The body of another schema with its tables in the place of all that is kept. All their rows
    /// are what the transaction has made, and the numbers that they have given.
    Moved {
        body: &'a [u8],
        tables: u16,
        schema: &'a Schema,
        changes: &'a Changes,
        tallies: &'a [Tally],
    },
}

/// Writes this in a transaction, all of it or nothing.
pub fn write<S: Alter>(conn: &mut Connection<S>, writing: &Writing<'_>) -> Result<(), KeeperEnd> {
    if !conn.is_autocommit() {
        return Err(KeeperEnd::Failed);
    }
    let mut tx = conn.transaction();
    play(&mut tx, writing)?;
    commit(tx)
}

/// Writes this.
fn play<S: Alter>(tx: &mut Transaction<'_, S>, writing: &Writing<'_>) -> Result<(), KeeperEnd> {
    match writing {
        Writing::Schema {
            has_tables,
            body,
            tables,
        } => play_schema(tx, *has_tables, body, *tables),
        Writing::Rows {
            schema,
            changes,
            tallies,
        } => {
            play_changes(tx, schema, changes)?;
            play_lasts(tx, tallies)
        }
        Writing::Moved {
            body,
            tables,
            schema,
            changes,
            tallies,
        } => {
            take_all(tx)?;
            play_schema(tx, true, body, *tables)?;
            play_changes(tx, schema, changes)?;
            play_lasts(tx, tallies)
        }
    }
}

/// Writes a schema where none is kept, with so many tables without rows.
fn play_schema<S: Alter>(
    tx: &mut Transaction<'_, S>,
    has_tables: bool,
    body: &[u8],
    tables: u16,
) -> Result<(), KeeperEnd> {
    if !has_tables {
        make_tables(tx)?;
    }
    put_shape(tx, body)?;
    put_tabs(tx, tables)
}

/// Keeps so many tables.
fn put_tabs<S: Alter>(tx: &mut Transaction<'_, S>, tables: u16) -> Result<(), KeeperEnd> {
    for tab in 0..tables {
        put_tab(tx, tab)?;
    }
    Ok(())
}

/// Writes the changed rows.
fn play_changes<S: Alter>(
    tx: &mut Transaction<'_, S>,
    schema: &Schema,
    changes: &Changes,
) -> Result<(), KeeperEnd> {
    for (row, change) in &changes.by_row {
        let Some(table) = schema.tables.get(row.0 as usize) else {
            return Err(KeeperEnd::Failed);
        };
        play_line(tx, row.0, row.1, change)?;
        play_marks(tx, table.columns.as_slice(), row.0, row.1, change)?;
    }
    Ok(())
}

/// Writes the line of a row.
fn play_line<S: Alter>(
    tx: &mut Transaction<'_, S>,
    tab: u16,
    id: u32,
    change: &Change,
) -> Result<(), KeeperEnd> {
    match (&change.was, &change.now) {
        (None, None) => Ok(()),
        (None, Some(body)) => put_line(tx, tab, id, body),
        (Some(_), Some(body)) => set_line(tx, tab, id, body),
        (Some(_), None) => take_line(tx, tab, id),
    }
}

/// Writes the marks of a row: one for each column that is indexed or unique.
fn play_marks<S: Alter>(
    tx: &mut Transaction<'_, S>,
    columns: &[Column],
    tab: u16,
    id: u32,
    change: &Change,
) -> Result<(), KeeperEnd> {
    let mut place = 0u16;
    for column in columns {
        let Some(number) = place.checked_add(1) else {
            return Err(KeeperEnd::Failed);
        };
        if column.indexed || column.unique {
            let was = key_in(&change.was, place)?;
            let now = key_in(&change.now, place)?;
            play_mark(tx, tab, number, id, was, now)?;
        }
        place = number;
    }
    Ok(())
}

/// The key of a row in the column at a place, if there is a row.
fn key_in(body: &Option<Vec<u8>>, place: u16) -> Result<Option<&[u8]>, KeeperEnd> {
    let Some(body) = body else {
        return Ok(None);
    };
    match piece_at(body, place) {
        Some(key) => Ok(Some(key)),
        None => Err(KeeperEnd::Failed),
    }
}

/// Writes the mark of a row in a column, where its key has changed.
fn play_mark<S: Alter>(
    tx: &mut Transaction<'_, S>,
    tab: u16,
    column: u16,
    id: u32,
    was: Option<&[u8]>,
    now: Option<&[u8]>,
) -> Result<(), KeeperEnd> {
    if let (Some(was), Some(now)) = (was, now)
        && was == now
    {
        return Ok(());
    }
    if let Some(key) = was {
        take_mark(tx, tab, column, key, id)?;
    }
    if let Some(key) = now {
        put_mark(tx, tab, column, key, id)?;
    }
    Ok(())
}

/// Writes the last numbers that have changed.
fn play_lasts<S: Alter>(tx: &mut Transaction<'_, S>, tallies: &[Tally]) -> Result<(), KeeperEnd> {
    let mut tab = 0u16;
    for tally in tallies {
        if tally.now.last != tally.then.last {
            set_last(tx, tab, tally.now.last)?;
        }
        let Some(next) = tab.checked_add(1) else {
            return Err(KeeperEnd::Failed);
        };
        tab = next;
    }
    Ok(())
}
