// Formulas with what they read, as JSON.
ghost use Rattle.std.specs.Prelude.{◌≡◌, IfOk, map, string_bytes};
ghost use Rattle.serde_json.specs.View.{view as json_view};
ghost use Rattle.app_reports.specs.Graph.{reads_data, graph_data, graph_text, read_data};

use crate::names::source_name;
use app_cells::{App, CellInfo};
use fx_base::Memory;
use fx_core::Source;
use serde_json::{Value as Json, json};
use std::alloc::Global;

/// `{"cells":[..]}`: each formula of the app, in its order, with what its tree names, in the order
/// of sources.
#[tactic(auto, unfolding(crate::specs::Graph::graph_text))]
pub fn graph_json(alloc: Global, app: &App) -> Result<String, Memory>
    ensures { IfOk result (λ s. string_bytes s ≡ graph_text app.now) }
{
    let whole = graph_object(alloc, app)?;
    Ok(whole.to_string(alloc)?)
}

fn graph_object(alloc: Global, app: &App) -> Result<Json, Memory>
    ensures { IfOk result (λ v. json_view v ≡ graph_data app.now) }
{
    let cells = Json::from(cell_objects(alloc, app)?);
    Ok(json!(in alloc; {"cells": cells})?)
}

fn cell_objects(alloc: Global, app: &App) -> Result<Vec<Json>, Memory>
    ensures { IfOk result (λ v. map json_view v.items ≡ map (reads_data app.now) app.now.cells) }
{
    let mut all = Vec::new(alloc);
    let cells = app.cells.as_slice();
    for info in cells {
        let object = cell_object(alloc, app, info)?;
        serde_json::push(&mut all, object)?;
    }
    Ok(all)
}

fn cell_object(alloc: Global, app: &App, info: &CellInfo) -> Result<Json, Memory>
    ensures { IfOk result (λ v. json_view v ≡ reads_data app.now info.now) }
{
    let cell = info.cell.name.as_str();
    let reads = Json::from(source_names(alloc, app, info.reads.as_slice())?);
    Ok(json!(in alloc; {"cell": cell, "reads": reads})?)
}

// What each of these sources is called.
fn source_names(alloc: Global, app: &App, sources: &[Source]) -> Result<Vec<Json>, Memory>
    ensures { IfOk result (λ v. map json_view v.items ≡ map (read_data app.now) sources.now) }
{
    let mut all = Vec::new(alloc);
    for source in sources {
        let name = source_name(alloc, app, *source)?;
        serde_json::push(&mut all, Json::String(name))?;
    }
    Ok(all)
}
