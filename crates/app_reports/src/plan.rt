// Sites as JSON.
ghost use Rattle.std.specs.Prelude.{◌≡◌, ◌++◌, IfOk, OnOk, flat_map, map, string_bytes};
ghost use Rattle.serde_json.specs.View.{view as json_view};
ghost use Rattle.app_reports.specs.Plans.{sites_data, plan_data, plan_text, site_data};

use crate::tables::table_name;
use app_cells::{App, CellInfo};
use fx_base::Memory;
use fx_core::Schema;
use fx_plan::Site;
use fx_types::Words;
use serde_json::{Value as Json, json};
use std::alloc::Global;

/// `{"sites":[..]}`: each place where a formula takes rows of a table, in the order of the app,
/// with its number in the formula, the table, who takes its rows, and whether that takes all of
/// them.
#[tactic(auto, unfolding(crate::specs::Plans::plan_text))]
pub fn plan_json(alloc: Global, app: &App) -> Result<String, Memory>
    ensures { IfOk result (λ s. string_bytes s ≡ plan_text app.now) }
{
    let whole = plan_object(alloc, app)?;
    Ok(whole.to_string(alloc)?)
}

fn plan_object(alloc: Global, app: &App) -> Result<Json, Memory>
    ensures { IfOk result (λ v. json_view v ≡ plan_data app.now) }
{
    let sites = Json::from(site_objects(alloc, app)?);
    Ok(json!(in alloc; {"sites": sites})?)
}

// The sites of all formulas, formula after formula.
fn site_objects(alloc: Global, app: &App) -> Result<Vec<Json>, Memory>
    ensures { IfOk result (λ v. map json_view v.items
        ≡ flat_map (sites_data app.now.names.schema.tables) app.now.cells) }
{
    let mut all = Vec::new(alloc);
    let cells = app.cells.as_slice();
    for info in cells {
        push_sites(alloc, &app.names.schema, info, &mut all)?;
    }
    Ok(all)
}

// Those of one formula behind others.
fn push_sites(
    alloc: Global,
    schema: &Schema,
    info: &CellInfo,
    all: &mut Vec<Json>,
) -> Result<(), Memory>
    ensures { OnOk result (map json_view all.new.items
        ≡ map json_view all.old.items ++ sites_data schema.now.tables info.now) }
{
    let sites = info.sites.as_slice();
    for site in sites {
        let object = site_object(alloc, schema, &info.cell.name, site)?;
        serde_json::push(all, object)?;
    }
    Ok(())
}

fn site_object(alloc: Global, schema: &Schema, cell: &Words, site: &Site) -> Result<Json, Memory>
    ensures { IfOk result (λ v. json_view v ≡ site_data schema.now.tables cell.now site.now) }
{
    let by = site.by.as_str();
    let cell = cell.as_str();
    let delegated = site.delegated;
    let number = site.number;
    let table = table_name(schema, site.table);
    Ok(
        json!(in alloc; {"by": by, "cell": cell, "delegated": delegated, "number": number, "table": table})?,
    )
}
