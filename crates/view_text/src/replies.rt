// The JSON of small replies.
ghost use Rattle.std.specs.Prelude.{◌≡◌, IfOk, map, string_bytes};
ghost use Rattle.serde_json.specs.View.{view as json_view};
ghost use Rattle.view_text.specs.ReplyText.{all_named_data, named_data, named_text, ok_text};

use crate::json::{tag, value_json};
use fx_base::Memory;
use fx_types::{Value, Words};
use serde_json::{Value as Json, json};
use std::alloc::Global;

/// A named formula's name and its value.
#[derive(Drop)]
pub struct Named {
    pub name: Words,
    pub value: Value,
}

/// The reply `{"ok":true}`.
pub fn ok_json() -> &'static str
    ensures { result.now ≡ ok_text }
{
    "{\"ok\":true}"
}

/// The reply `{"named":[{"name":"A","value":1}]}`, with the formulas in order.
pub fn named_json(alloc: Global, rows: &[Named]) -> Result<String, Memory>
    ensures { IfOk result (λ s. string_bytes s ≡ named_text rows.now) }
{
    let whole = name_all(alloc, rows)?;
    Ok(whole.to_string(alloc)?)
}

fn name_all(alloc: Global, rows: &[Named]) -> Result<Json, Memory>
    ensures { IfOk result (λ v. json_view v ≡ all_named_data rows.now) }
{
    let objects = named_objects(alloc, rows)?;
    tag(alloc, "named", Json::from(objects))
}

fn named_objects(alloc: Global, rows: &[Named]) -> Result<Vec<Json>, Memory>
    ensures { IfOk result (λ v. map json_view v.items ≡ map named_data rows.now) }
{
    let mut objects = Vec::new(alloc);
    for named in rows {
        let object = named_object(alloc, named)?;
        serde_json::push(&mut objects, object)?;
    }
    Ok(objects)
}

fn named_object(alloc: Global, named: &Named) -> Result<Json, Memory>
    ensures { IfOk result (λ v. json_view v ≡ named_data named.now) }
{
    Ok(json!(in alloc; {
        "name": named.name.as_str(),
        "value": value_json(alloc, &named.value)?,
    })?)
}
