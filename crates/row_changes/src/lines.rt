// The lines that a transaction has made.
ghost use Rattle.std.specs.Prelude.{◌≡◌, ◌++◌, IfOk, OnOk, filter, suc};
ghost use Rattle.sql_meanings.specs.Lines.{is_within};
ghost use Rattle.row_changes.specs.Overlay.{bytes_in, line_under, lines_from, lines_of_changes};
ghost use Rattle.row_changes.specs.Overlay.{made_lines, shown_lines};

use crate::table::TableChanges;
use fx_base::Memory;
use std::alloc::Global;

impl TableChanges {
    /// The lines that the transaction has made with numbers from one up to another: those of rows
    /// that it has changed, and then those of rows that it has put.
    pub fn lines(&self, alloc: Global, low: u32, high: u32) -> Result<Vec<(u32, &[u8])>, Memory>
        ensures { IfOk result (λ lines. shown_lines lines.items
            ≡ filter (is_within low high) (made_lines self.now)) }
    {
        let mut lines = Vec::new(alloc);
        self.push_changed(&mut lines, low, high)?;
        self.push_added(&mut lines, low, high)?;
        Ok(lines)
    }

    fn push_changed<'a>(
        &'a self,
        lines: &mut Vec<(u32, &'a [u8])>,
        low: u32,
        high: u32,
    ) -> Result<(), Memory>
        ensures { OnOk result (shown_lines lines.new.items
            ≡ shown_lines lines.old.items ++ filter (is_within low high)
            (lines_of_changes self.now.changed.entries)) }
    {
        for (id, change) in &self.changed {
            push_line(lines, *id, &change.now, low, high)?;
        }
        Ok(())
    }

    fn push_added<'a>(
        &'a self,
        lines: &mut Vec<(u32, &'a [u8])>,
        low: u32,
        high: u32,
    ) -> Result<(), Memory>
        ensures { OnOk result (shown_lines lines.new.items
            ≡ shown_lines lines.old.items ++ filter (is_within low high)
            (lines_from (suc self.now.first) self.now.added.items)) }
    {
        let mut last = self.first;
        for body in &self.added {
            let id = last + 1;
            push_line(lines, id, body, low, high)?;
            last = id;
        }
        Ok(())
    }
}

/// Adds the line of a number with this body, if it has one, where the number lies between these
/// two.
fn push_line<'a>(
    lines: &mut Vec<(u32, &'a [u8])>,
    id: u32,
    body: &'a Option<Vec<u8>>,
    low: u32,
    high: u32,
) -> Result<(), Memory>
    ensures { OnOk result (shown_lines lines.new.items
        ≡ shown_lines lines.old.items ++ filter (is_within low high)
        (line_under id (bytes_in body.now))) }
{
    if low <= id
        && id <= high
        && let Some(body) = body
    {
        lines.push((id, body))?;
    }
    Ok(())
}
