// Rows out of lines.
ghost use Rattle.std.specs.Prelude.{◌≡◌, ◌++◌, ◌∷◌, ◌≤◌, ℕ, [], IfSome, List, OnOk, map, pos};
ghost use Rattle.std.specs.List.{AllByRecursion};
ghost use Rattle.sqlite.specs.declared.types.Value.TheVariants.{Int};
ghost use Rattle.sqlite.specs.Order.{column};
ghost use Rattle.sql_meanings.specs.Lines.{LinesOf, line_at};
ghost use Rattle.row_queries.specs.TableRows.{IsHeldRow};
ghost use Rattle.row_changes.specs.Overlay.{shown_lines, unchanged};
ghost use Rattle.store_model.specs.Decoded.{row_in};

use fx_core::TableShape;
use row_changes::{Made, TableChanges};
use row_keeper::KeeperEnd;
use row_lines::lines::row_of;
use row_queries::Row;
use sql_statements::{bytes_in, number_in};
use sqlite::Row as Answer;
use std::alloc::Global;

/// Adds the row of a line. A line that is no row of the table is a fault.
fn push_row(
    alloc: Global,
    rows: &mut Vec<Row>,
    table: &TableShape,
    id: u32,
    body: &[u8],
) -> Result<(), KeeperEnd>
    requires { AllByRecursion (IsHeldRow table.now) rows.old.items }
    ensures held { AllByRecursion (IsHeldRow table.now) rows.new.items }
    ensures row { OnOk result (rows.new.items
        ≡ rows.old.items ++ row_in table.now.columns (id, body.now) ∷ []) }
{
    match row_of(alloc, table, id, body)? {
        Some(row) => {
            rows.push(row)?;
            Ok(())
        }
        None => Err(KeeperEnd::Failed),
    }
}

/// A number as that of a row, where it can be one.
fn id_in(number: i64) -> Option<u32>
    ensures { IfSome result (λ id. number ≡ pos id) }
{
    match u32::try_from(number) {
        Ok(id) => Some(id),
        Err(_) => None,
    }
}

/// The number of a line that is kept, where it can be one of a row.
fn id_of(line: &Answer) -> Option<u32>
    ensures { IfSome result (λ id. column line.now 0 ≡ Int (pos id)) }
{
    match number_in(line, 0) {
        Some(number) => id_in(number),
        None => None,
    }
}

/// Adds the row of a line that is kept, unless the transaction has changed it.
fn push_kept(
    alloc: Global,
    rows: &mut Vec<Row>,
    changes: &TableChanges,
    table: &TableShape,
    line: &Answer,
) -> Result<(), KeeperEnd>
    requires { AllByRecursion (IsHeldRow table.now) rows.old.items }
    ensures held { AllByRecursion (IsHeldRow table.now) rows.new.items }
    ensures row { OnOk result ((x : ℕ × List ℕ) → line.now ≡ line_at x → x.0 ≤ changes.now.first
        → rows.new.items ≡ rows.old.items
        ++ map (row_in table.now.columns) (unchanged changes.now (x ∷ []))) }
{
    let Some(id) = id_of(line) else {
        return Err(KeeperEnd::Failed);
    };
    let Some(body) = bytes_in(line, 1) else {
        return Err(KeeperEnd::Failed);
    };
    match changes.made(id) {
        Made::Same => push_row(alloc, rows, table, id, body),
        Made::Gone => Ok(()),
        Made::Body(_) => Ok(()),
    }
}

/// Adds the rows of lines that are kept, but for those that the transaction has changed.
pub fn push_all_kept(
    alloc: Global,
    rows: &mut Vec<Row>,
    changes: &TableChanges,
    table: &TableShape,
    lines: &[Answer],
) -> Result<(), KeeperEnd>
    requires { AllByRecursion (IsHeldRow table.now) rows.old.items }
    ensures held { AllByRecursion (IsHeldRow table.now) rows.new.items }
    ensures rows { OnOk result ((xs : LinesOf) → lines.now ≡ map line_at xs
        → AllByRecursion (λ (x : ℕ × List ℕ). x.0 ≤ changes.now.first) xs
        → rows.new.items ≡ rows.old.items
        ++ map (row_in table.now.columns) (unchanged changes.now xs)) }
{
    for line in lines {
        push_kept(alloc, rows, changes, table, line)?;
    }
    Ok(())
}

/// Adds the rows of lines that the transaction has made.
pub fn push_all_made(
    alloc: Global,
    rows: &mut Vec<Row>,
    table: &TableShape,
    lines: &[(u32, &[u8])],
) -> Result<(), KeeperEnd>
    requires { AllByRecursion (IsHeldRow table.now) rows.old.items }
    ensures held { AllByRecursion (IsHeldRow table.now) rows.new.items }
    ensures rows { OnOk result (rows.new.items
        ≡ rows.old.items ++ map (row_in table.now.columns) (shown_lines lines.now)) }
{
    for line in lines {
        push_row(alloc, rows, table, line.0, line.1)?;
    }
    Ok(())
}
