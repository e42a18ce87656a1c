// The marks of a row.
ghost use Rattle.std.specs.Prelude.{◌≡◌, ◌≤◌, ◌++◌, [], IfOk, OnOk, if◌then◌else◌, option_map};
ghost use Rattle.row_plan.specs.Marked.{is_marked, key_in};
ghost use Rattle.row_plan.specs.Plan.{mark_statements, marks_statements};
ghost use Rattle.row_plan.specs.Shown.{all_shown, seen};

use crate::steps::{PlanEnd, Step};
use fx_core::Column;
use row_lines::pieces::piece_at;

/// The key in the column of a number, of a row's line with this body, if there is a line.
fn key_at(body: Option<&[u8]>, column: u16) -> Result<Option<&[u8]>, PlanEnd>
    requires { 1 ≤ column }
    ensures { IfOk result (λ key. seen key ≡ option_map (key_in column) (seen body.entry)) }
{
    let Some(body) = body else {
        return Ok(None);
    };
    match piece_at(body, column - 1) {
        Some(key) => Ok(Some(key)),
        None => Err(PlanEnd::NoKey),
    }
}

/// Adds what writes the mark of a row in a column, by the keys that it had and has.
fn push_mark<'a>(
    steps: &mut Vec<Step<'a>>,
    tab: u32,
    column: u32,
    id: u32,
    was: Option<&'a [u8]>,
    now: Option<&'a [u8]>,
) -> Result<(), PlanEnd>
    ensures { OnOk result (all_shown steps.new.items
        ≡ all_shown steps.old.items ++ mark_statements tab column id (seen was.entry)
        (seen now.entry)) }
{
    if let (Some(was), Some(now)) = (was, now)
        && was == now
    {
        return Ok(());
    }
    if let Some(key) = was {
        steps.push(Step::RemoveMark(tab, column, key, id))?;
    }
    if let Some(key) = now {
        steps.push(Step::InsertMark(tab, column, key, id))?;
    }
    Ok(())
}

/// Adds what writes the mark of a row in the column of a number, if it is a marked one.
fn push_column<'a>(
    steps: &mut Vec<Step<'a>>,
    tab: u32,
    number: u16,
    column: &Column,
    id: u32,
    was: Option<&'a [u8]>,
    now: Option<&'a [u8]>,
) -> Result<(), PlanEnd>
    requires { 1 ≤ number }
    ensures { OnOk result (all_shown steps.new.items
        ≡ all_shown steps.old.items ++ (if is_marked column.now then mark_statements tab number id
        (option_map (key_in number) (seen was.entry))
        (option_map (key_in number) (seen now.entry)) else [])) }
{
    if !(column.indexed || column.unique) {
        return Ok(());
    }
    let old_key = key_at(was, number)?;
    let new_key = key_at(now, number)?;
    push_mark(steps, tab, u32::from(number), id, old_key, new_key)
}

/// Adds what writes the marks of a row, whose line had one body, or none, and has another now, or
/// none.
pub fn push_marks<'a>(
    steps: &mut Vec<Step<'a>>,
    tab: u32,
    columns: &[Column],
    id: u32,
    was: Option<&'a [u8]>,
    now: Option<&'a [u8]>,
) -> Result<(), PlanEnd>
    ensures { OnOk result (all_shown steps.new.items
        ≡ all_shown steps.old.items ++ marks_statements tab 1 columns.now id (seen was.entry)
        (seen now.entry)) }
{
    let mut last = 0u16;
    for column in columns {
        let Some(number) = last.checked_add(1) else {
            return Err(PlanEnd::NoKey);
        };
        push_column(steps, tab, number, column, id, was, now)?;
        last = number;
    }
    Ok(())
}
