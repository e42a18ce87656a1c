// Sites as lines.
ghost use Rattle.std.specs.Prelude.{◌≡◌, ◌++◌, IfOk, OnOk, string_bytes};
ghost use Rattle.app_reports.specs.Plans.{accepted_line as accepted_bytes, cell_lines};
ghost use Rattle.app_reports.specs.Plans.{checked_text, site_line as line_bytes};
ghost use Rattle.app_reports.specs.Plans.{taker_text as taken_bytes};

use crate::tables::table_name;
use app_cells::{App, CellInfo};
use fx_base::Memory;
use fx_core::Schema;
use fx_plan::Site;
use fx_types::Words;
use std::alloc::Global;

/// `app accepted: <n> cells, <m> tables`, and a line for each place where a formula takes rows of a
/// table, in the order of the app.
#[tactic(auto, unfolding(crate::specs::Plans::checked_text))]
pub fn checked_lines(alloc: Global, app: &App) -> Result<String, Memory>
    ensures { IfOk result (λ s. string_bytes s ≡ checked_text app.now) }
{
    let mut text = accepted_line(alloc, app)?;
    let cells = app.cells.as_slice();
    for info in cells {
        push_lines(alloc, &app.names.schema, app.limit, info, &mut text)?;
    }
    Ok(text)
}

fn accepted_line(alloc: Global, app: &App) -> Result<String, Memory>
    ensures { IfOk result (λ s. string_bytes s ≡ accepted_bytes app.now) }
{
    let cells = app.cells.len();
    let tables = app.names.schema.tables.len();
    Ok(format!(in alloc; "app accepted: {cells} cells, {tables} tables\n")?)
}

// The lines of one formula behind others.
fn push_lines(
    alloc: Global,
    schema: &Schema,
    limit: u32,
    info: &CellInfo,
    text: &mut String,
) -> Result<(), Memory>
    ensures { OnOk result (string_bytes text.new
        ≡ string_bytes text.old ++ cell_lines schema.now.tables limit info.now) }
{
    let sites = info.sites.as_slice();
    for site in sites {
        let line = site_line(alloc, schema, limit, &info.cell.name, site)?;
        text.push_str(&line)?;
    }
    Ok(())
}

fn site_line(
    alloc: Global,
    schema: &Schema,
    limit: u32,
    cell: &Words,
    site: &Site,
) -> Result<String, Memory>
    ensures { IfOk result (λ s. string_bytes s
        ≡ line_bytes schema.now.tables limit cell.now site.now) }
{
    let cell = cell.as_str();
    let number = site.number;
    let table = table_name(schema, site.table);
    let taken = taken_by(alloc, limit, site)?;
    Ok(format!(in alloc; "{cell} {number} {table}: {taken}\n")?)
}

// What is taken, and by whom.
fn taken_by(alloc: Global, limit: u32, site: &Site) -> Result<String, Memory>
    ensures { IfOk result (λ s. string_bytes s ≡ taken_bytes limit site.now) }
{
    let by = site.by.as_str();
    if site.delegated {
        Ok(format!(in alloc; "delegated to {by}")?)
    } else {
        Ok(format!(in alloc; "first {limit} rows for {by}")?)
    }
}
