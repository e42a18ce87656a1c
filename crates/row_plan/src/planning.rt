// What a transaction has made of a table, as statements.
ghost use Rattle.std.specs.Prelude.{◌≡◌, ◌++◌, IfOk, OnOk, flat_map, suc};
ghost use Rattle.row_changes.specs.Overlay.{bytes_in};
ghost use Rattle.row_plan.specs.Plan.{added_statements, change_statements, line_statements};
ghost use Rattle.row_plan.specs.Plan.{row_statements, table_statements};
ghost use Rattle.row_plan.specs.Shown.{all_shown, seen};
ghost use Rattle.row_plan.specs.Written.{all_statements};

use crate::marks::push_marks;
use crate::steps::{PlanEnd, Step};
use fx_core::{Column, TableShape};
use row_changes::TableChanges;
use std::alloc::Global;

/// Adds what writes the line of a row that had one body, or none, and has another now, or none.
fn push_line<'a>(
    steps: &mut Vec<Step<'a>>,
    tab: u32,
    id: u32,
    was: Option<&'a [u8]>,
    now: Option<&'a [u8]>,
) -> Result<(), PlanEnd>
    ensures { OnOk result (all_shown steps.new.items
        ≡ all_shown steps.old.items ++ line_statements tab id (seen was.entry) (seen now.entry)) }
{
    let step = match (was, now) {
        (None, None) => return Ok(()),
        (None, Some(body)) => Step::InsertLine(tab, id, body),
        (Some(_), Some(body)) => Step::ReplaceLine(tab, id, body),
        (Some(_), None) => Step::RemoveLine(tab, id),
    };
    steps.push(step)?;
    Ok(())
}

/// Adds what writes a row.
fn push_row<'a>(
    steps: &mut Vec<Step<'a>>,
    tab: u32,
    columns: &[Column],
    id: u32,
    was: Option<&'a [u8]>,
    now: Option<&'a [u8]>,
) -> Result<(), PlanEnd>
    ensures { OnOk result (all_shown steps.new.items
        ≡ all_shown steps.old.items ++ row_statements tab columns.now id (seen was.entry)
        (seen now.entry)) }
{
    push_line(steps, tab, id, was, now)?;
    push_marks(steps, tab, columns, id, was, now)
}

/// The bytes of a body, if there is one.
fn bytes_of(body: &Option<Vec<u8>>) -> Option<&[u8]>
    ensures { seen result ≡ bytes_in body.now }
{
    match body {
        Some(body) => Some(body),
        None => None,
    }
}

/// Adds what writes the rows that were there and have changed.
fn push_changed<'a>(
    steps: &mut Vec<Step<'a>>,
    tab: u32,
    columns: &[Column],
    changes: &'a TableChanges,
) -> Result<(), PlanEnd>
    ensures { OnOk result (all_shown steps.new.items
        ≡ all_shown steps.old.items ++ flat_map (change_statements tab columns.now)
        changes.now.changed.entries) }
{
    for (id, change) in &changes.changed {
        push_row(
            steps,
            tab,
            columns,
            *id,
            Some(&change.was),
            bytes_of(&change.now),
        )?;
    }
    Ok(())
}

/// Adds what writes the rows that were put.
fn push_added<'a>(
    steps: &mut Vec<Step<'a>>,
    tab: u32,
    columns: &[Column],
    changes: &'a TableChanges,
) -> Result<(), PlanEnd>
    ensures { OnOk result (all_shown steps.new.items
        ≡ all_shown steps.old.items ++ added_statements tab columns.now (suc changes.now.first)
        changes.now.added.items) }
{
    let mut last = changes.first;
    for body in &changes.added {
        let id = last + 1;
        push_row(steps, tab, columns, id, None, bytes_of(body))?;
        last = id;
    }
    Ok(())
}

/// Adds what writes all that a transaction has made of a table: its lines, their marks and its last
/// number.
fn push_table<'a>(
    steps: &mut Vec<Step<'a>>,
    tab: u32,
    columns: &[Column],
    changes: &'a TableChanges,
) -> Result<(), PlanEnd>
    ensures { OnOk result (all_shown steps.new.items
        ≡ all_shown steps.old.items ++ table_statements tab columns.now changes.now) }
{
    push_changed(steps, tab, columns, changes)?;
    push_added(steps, tab, columns, changes)?;
    if !changes.added.is_empty() {
        steps.push(Step::ReplaceLast(tab, changes.last()))?;
    }
    Ok(())
}

/// The statements that write what a transaction has made of the tables of a schema, one table
/// behind the other. It ends with `NoKey` where a table has no changes told, or a changed line has
/// no key for a column.
pub fn plan<'a>(
    alloc: Global,
    tables: &[TableShape],
    changes: &'a [TableChanges],
) -> Result<Vec<Step<'a>>, PlanEnd>
    ensures { IfOk result (λ steps. all_shown steps.items ≡ all_statements 0 tables.now changes.now) }
{
    let mut steps = Vec::new(alloc);
    let mut tab = 0u32;
    for table in tables {
        let Some(change) = changes.get(tab as usize) else {
            return Err(PlanEnd::NoKey);
        };
        push_table(&mut steps, tab, table.columns.as_slice(), change)?;
        let Some(next) = tab.checked_add(1) else {
            return Err(PlanEnd::NoKey);
        };
        tab = next;
    }
    Ok(steps)
}
