// The rows that queries ask, of a database and of what a transaction has made of it.
ghost use Rattle.std.specs.Prelude.{List, IfOk};
ghost use Rattle.std.specs.List.{AllByRecursion};
ghost use Rattle.row_queries.specs.Queries.{AreAsked};
ghost use Rattle.row_queries.specs.TableRows.{AreHeldRows, IsHeldRow, IsRowOf};
ghost use Rattle.row_queries.specs.declared.rows.Row.{Row as RowValue};

use crate::arranging::arrange;
use crate::changes::Changes;
use crate::database::Database;
use crate::ranges::{lies_in, numbers_in};
use crate::statements::{self, bytes_in, number_in};
use fx_base::Memory;
use fx_core::{Column, TableShape};
use row_keeper::KeeperEnd;
use row_keeper::scans::sort_rows;
use row_lines::lines::row_of;
use row_queries::{KeyRange, Query, Row, TestNode};
use sqlite::Row as Answer;
use std::alloc::Global;

/// Adds the row of a line. A line that is no row of the table is a fault.
fn push_row(
    alloc: Global,
    rows: &mut Vec<Row>,
    table: &TableShape,
    id: u32,
    body: &[u8],
) -> Result<(), KeeperEnd>
    requires { AllByRecursion (IsHeldRow table.now) rows.old.items }
    ensures { AllByRecursion (IsHeldRow table.now) rows.new.items }
{
    match row_of(alloc, table, id, body)? {
        Some(row) => {
            rows.push(row)?;
            Ok(())
        }
        None => Err(KeeperEnd::Failed),
    }
}

/// Adds the row of a line that is kept, unless the transaction has changed it.
fn push_stored(
    alloc: Global,
    rows: &mut Vec<Row>,
    changes: Option<&Changes>,
    table: &TableShape,
    tab: u16,
    line: &Answer,
) -> Result<(), KeeperEnd>
    requires { AllByRecursion (IsHeldRow table.now) rows.old.items }
    ensures { AllByRecursion (IsHeldRow table.now) rows.new.items }
{
    let (Some(number), Some(body)) = (number_in(line, 0), bytes_in(line, 1)) else {
        return Err(KeeperEnd::Failed);
    };
    let Ok(id) = u32::try_from(number) else {
        return Err(KeeperEnd::Failed);
    };
    if is_changed(changes, tab, id) {
        return Ok(());
    }
    push_row(alloc, rows, table, id, body)
}

/// Whether the transaction, if one is begun, has changed a row.
fn is_changed(changes: Option<&Changes>, tab: u16, id: u32) -> bool {
    match changes {
        Some(changes) => changes.of(tab, id).is_some(),
        None => false,
    }
}

/// Adds the rows of lines that are kept, but for those that the transaction has changed.
fn push_all(
    alloc: Global,
    rows: &mut Vec<Row>,
    changes: Option<&Changes>,
    table: &TableShape,
    tab: u16,
    lines: &[Answer],
) -> Result<(), KeeperEnd>
    requires { AllByRecursion (IsHeldRow table.now) rows.old.items }
    ensures { AllByRecursion (IsHeldRow table.now) rows.new.items }
{
    for line in lines {
        push_stored(alloc, rows, changes, table, tab, line)?;
    }
    Ok(())
}

/// Adds the rows with numbers from one up to another.
fn push_between(
    alloc: Global,
    rows: &mut Vec<Row>,
    database: &mut Database,
    changes: Option<&Changes>,
    table: &TableShape,
    tab: u16,
    low: u32,
    high: u32,
) -> Result<(), KeeperEnd>
    requires { AllByRecursion (IsHeldRow table.now) rows.old.items }
    ensures { AllByRecursion (IsHeldRow table.now) rows.new.items }
{
    let lines = statements::lines(database, tab, low, high)?;
    push_all(alloc, rows, changes, table, tab, &lines)?;
    match changes {
        Some(changes) => push_changed_between(alloc, rows, changes, table, tab, low, high),
        None => Ok(()),
    }
}

/// Adds the rows with numbers from one up to another that the transaction has changed.
fn push_changed_between(
    alloc: Global,
    rows: &mut Vec<Row>,
    changes: &Changes,
    table: &TableShape,
    tab: u16,
    low: u32,
    high: u32,
) -> Result<(), KeeperEnd>
    requires { AllByRecursion (IsHeldRow table.now) rows.old.items }
    ensures { AllByRecursion (IsHeldRow table.now) rows.new.items }
{
    for (row, change) in &changes.by_row {
        if row.0 == tab
            && low <= row.1
            && row.1 <= high
            && let Some(body) = &change.now
        {
            push_row(alloc, rows, table, row.1, body)?;
        }
    }
    Ok(())
}

/// Adds the first rows with numbers from one up to another: so many that there are at least `most`,
/// or all. Rows far behind those aren't read.
fn push_first(
    alloc: Global,
    rows: &mut Vec<Row>,
    database: &mut Database,
    changes: Option<&Changes>,
    table: &TableShape,
    tab: u16,
    first: u32,
    last: u32,
    most: u32,
) -> Result<(), KeeperEnd>
    requires { AllByRecursion (IsHeldRow table.now) rows.old.items }
    ensures { AllByRecursion (IsHeldRow table.now) rows.new.items }
{
    let mut low = first;
    let mut width = most;
    // Eight times as many numbers each time: most of them may be those of rows that are gone.
    'widening: for _ in 0..8 {
        if rows.len() >= most as usize {
            return Ok(());
        }
        let high = low.saturating_add(width).min(last);
        push_between(alloc, rows, database, changes, table, tab, low, high)?;
        if high == last {
            return Ok(());
        }
        low = high + 1;
        width = width.saturating_mul(8);
    }
    push_between(alloc, rows, database, changes, table, tab, low, last)
}

/// How many rows a query takes, where it takes the first ones by their numbers, whatever they hold.
fn page_size(query: &Query) -> Option<u32> {
    match (&query.test.node, query.order) {
        (TestNode::All, None) => query.take,
        _ => None,
    }
}

/// Adds the rows in a query's ranges of their numbers, as far as it takes them.
fn push_numbered(
    alloc: Global,
    rows: &mut Vec<Row>,
    database: &mut Database,
    changes: Option<&Changes>,
    table: &TableShape,
    query: &Query,
) -> Result<(), KeeperEnd>
    requires { AllByRecursion (IsHeldRow table.now) rows.old.items }
    ensures { AllByRecursion (IsHeldRow table.now) rows.new.items }
{
    let tab = query.table;
    let most = page_size(query).unwrap_or(u32::MAX);
    let ranges = query.ranges.as_slice();
    for range in ranges {
        if let Some((first, last)) = numbers_in(range) {
            push_first(
                alloc, rows, database, changes, table, tab, first, last, most,
            )?;
        }
    }
    Ok(())
}

/// The marks of a column in a range. Without an upper end it ends behind every key.
fn marks_in(
    database: &mut Database,
    tab: u16,
    column: u16,
    range: &KeyRange,
) -> Result<Vec<Answer>, KeeperEnd> {
    let from = range.from.as_bytes();
    match &range.upto {
        Some(upto) => statements::marks(database, tab, column, from, upto.as_bytes()),
        None => statements::marks(database, tab, column, from, &[2]),
    }
}

/// Adds the row of a mark.
fn push_marked(
    alloc: Global,
    rows: &mut Vec<Row>,
    database: &mut Database,
    changes: Option<&Changes>,
    table: &TableShape,
    tab: u16,
    mark: &Answer,
) -> Result<(), KeeperEnd>
    requires { AllByRecursion (IsHeldRow table.now) rows.old.items }
    ensures { AllByRecursion (IsHeldRow table.now) rows.new.items }
{
    let Some(number) = number_in(mark, 1) else {
        return Err(KeeperEnd::Failed);
    };
    let Ok(id) = u32::try_from(number) else {
        return Err(KeeperEnd::Failed);
    };
    let lines = statements::lines(database, tab, id, id)?;
    // A mark is that of a row.
    if lines.is_empty() {
        return Err(KeeperEnd::Failed);
    }
    push_all(alloc, rows, changes, table, tab, &lines)
}

/// Adds the rows whose keys in a column lie in a range, by its marks.
fn push_indexed(
    alloc: Global,
    rows: &mut Vec<Row>,
    database: &mut Database,
    changes: Option<&Changes>,
    table: &TableShape,
    query: &Query,
    range: &KeyRange,
) -> Result<(), KeeperEnd>
    requires { AllByRecursion (IsHeldRow table.now) rows.old.items }
    ensures { AllByRecursion (IsHeldRow table.now) rows.new.items }
{
    let marks = marks_in(database, query.table, query.column, range)?;
    for mark in &marks {
        push_marked(alloc, rows, database, changes, table, query.table, mark)?;
    }
    Ok(())
}

/// Whether the column of a number has marks, `ID` aside.
fn has_marks(columns: &[Column], number: u16) -> bool {
    match number.checked_sub(1) {
        None => false,
        Some(place) => match columns.get(place as usize) {
            Some(column) => column.indexed || column.unique,
            None => false,
        },
    }
}

/// Adds the rows that are kept in a query's ranges of keys, but for those that the transaction has
/// changed.
fn push_kept(
    alloc: Global,
    rows: &mut Vec<Row>,
    database: &mut Database,
    changes: Option<&Changes>,
    table: &TableShape,
    query: &Query,
) -> Result<(), KeeperEnd>
    requires { AllByRecursion (IsHeldRow table.now) rows.old.items }
    ensures { AllByRecursion (IsHeldRow table.now) rows.new.items }
{
    if !has_marks(table.columns.as_slice(), query.column) {
        // The ranges of a column without marks hold every key.
        let lines = statements::lines(database, query.table, 1, u32::MAX)?;
        return push_all(alloc, rows, changes, table, query.table, &lines);
    }
    let ranges = query.ranges.as_slice();
    for range in ranges {
        push_indexed(alloc, rows, database, changes, table, query, range)?;
    }
    Ok(())
}

/// Adds the rows in a query's ranges of keys that the transaction has changed.
fn push_changed(
    alloc: Global,
    rows: &mut Vec<Row>,
    changes: &Changes,
    table: &TableShape,
    query: &Query,
) -> Result<(), KeeperEnd>
    requires { AllByRecursion (IsHeldRow table.now) rows.old.items }
    ensures { AllByRecursion (IsHeldRow table.now) rows.new.items }
{
    for (row, change) in &changes.by_row {
        if row.0 == query.table
            && let Some(body) = &change.now
            && lies_in(query.ranges.as_slice(), query.column, body)
        {
            push_row(alloc, rows, table, row.1, body)?;
        }
    }
    Ok(())
}

/// Adds the rows in a query's ranges of keys.
fn push_keyed(
    alloc: Global,
    rows: &mut Vec<Row>,
    database: &mut Database,
    changes: Option<&Changes>,
    table: &TableShape,
    query: &Query,
) -> Result<(), KeeperEnd>
    requires { AllByRecursion (IsHeldRow table.now) rows.old.items }
    ensures { AllByRecursion (IsHeldRow table.now) rows.new.items }
{
    push_kept(alloc, rows, database, changes, table, query)?;
    match changes {
        Some(changes) => push_changed(alloc, rows, changes, table, query),
        None => Ok(()),
    }
}

/// The rows that a query asks, in its order. Where it takes the first ones by their numbers, those
/// behind them may be left out.
pub fn ask(
    alloc: Global,
    database: &mut Database,
    changes: Option<&Changes>,
    table: &TableShape,
    query: &Query,
) -> Result<Vec<Row>, KeeperEnd>
    ensures asked { IfOk result (λ rows. (held : List RowValue) × AreHeldRows table.now held
        × AreAsked query.now held rows.items) }
    ensures fit { IfOk result (λ rows. AllByRecursion (IsRowOf table.now) rows.items) }
{
    let mut rows = Vec::new(alloc);
    if query.column == 0 {
        push_numbered(alloc, &mut rows, database, changes, table, query)?;
    } else {
        push_keyed(alloc, &mut rows, database, changes, table, query)?;
    }
    arrange(alloc, rows, table, query)
}

/// All rows of a table, by rising numbers.
pub fn all_rows(
    alloc: Global,
    database: &mut Database,
    changes: Option<&Changes>,
    table: &TableShape,
    tab: u16,
) -> Result<Vec<Row>, KeeperEnd>
    ensures { IfOk result (λ rows. AllByRecursion (IsRowOf table.now) rows.items) }
{
    let mut rows = Vec::new(alloc);
    push_between(alloc, &mut rows, database, changes, table, tab, 1, u32::MAX)?;
    sort_rows(&mut rows, None)?;
    Ok(rows)
}

/// The body of a row's line, if there is one now.
pub fn body_now(
    alloc: Global,
    database: &mut Database,
    changes: &Changes,
    table: &TableShape,
    tab: u16,
    id: u32,
) -> Result<Option<Vec<u8>>, KeeperEnd> {
    if let Some(change) = changes.of(tab, id) {
        return Ok(copy_of(alloc, &change.now)?);
    }
    let lines = statements::lines(database, tab, id, id)?;
    match lines.first() {
        Some(line) => Ok(Some(stored_body(alloc, table, id, line)?)),
        None => Ok(None),
    }
}

/// The body of a line that is kept. A line that is no row of the table is a fault.
fn stored_body(
    alloc: Global,
    table: &TableShape,
    id: u32,
    line: &Answer,
) -> Result<Vec<u8>, KeeperEnd> {
    let Some(body) = bytes_in(line, 1) else {
        return Err(KeeperEnd::Failed);
    };
    match row_of(alloc, table, id, body)? {
        Some(_) => Ok(Vec::from_slice(alloc, body)?),
        None => Err(KeeperEnd::Failed),
    }
}

fn copy_of(alloc: Global, body: &Option<Vec<u8>>) -> Result<Option<Vec<u8>>, Memory> {
    match body {
        Some(body) => Ok(Some(Vec::from_slice(alloc, body)?)),
        None => Ok(None),
    }
}
