//! Values as JSON.

ghost use Rattle.std.specs.Prelude.{◌≡◌, IfOk};
ghost use Rattle.serde_json.specs.View.{items_view, members_view, view as json_view};
ghost use Rattle.fx_types.specs.Values.{field_list, row_list};
ghost use Rattle.fx_types.specs.ValueView.{view};
ghost use Rattle.view_text.specs.JsonText.{error_data, fields_data, number_data, rows_data, tagged};
ghost use Rattle.view_text.specs.JsonText.{value_data};

use fx_base::Memory;
use fx_number::Num;
use fx_types::{Fault, Fields, Rows, Value, date_text};
use serde_json::{Map, Value as Json, json};
use std::alloc::Global;

/// The ten-thousandths of 1.
const ONE: i64 = 10000;

/// The JSON of a value.
#[cycle(json)]
pub fn value_json(alloc: Global, value: &Value) -> Result<Json, Memory>
    ensures { IfOk result (λ v. json_view v ≡ value_data (view value.now)) }
{
    match value {
        Value::Blank => Ok(Json::Null),
        Value::Number(number) => number_json(alloc, *number),
        Value::Text(text) => Ok(Json::try_from_str(alloc, text.as_str())?),
        Value::Boolean(truth) => Ok(Json::Bool(*truth)),
        Value::Date(day) => tag(alloc, "d", Json::String(date_text(alloc, *day)?)),
        Value::Rec(fields) => tag(alloc, "r", Json::Object(fields_json(alloc, fields)?)),
        Value::Tab(rows) => Ok(Json::Array(rows_json(alloc, rows)?)),
        Value::Fault(fault) => error_json(alloc, fault),
    }
}

#[cycle(json)]
pub(crate) fn fields_json(alloc: Global, fields: &Fields) -> Result<Map<String, Json>, Memory>
    ensures { IfOk result (λ m. members_view m.entries ≡ fields_data (field_list fields.now)) }
{
    let items = fields.as_slice();
    let mut members = Map::new(alloc);
    for (name, value) in items {
        let member = value_json(alloc, value)?;
        serde_json::put(&mut members, alloc, name.as_str(), member)?;
    }
    Ok(members)
}

#[cycle(json)]
fn rows_json(alloc: Global, rows: &Rows) -> Result<Vec<Json>, Memory>
    ensures { IfOk result (λ v. items_view v.items ≡ rows_data (row_list rows.now)) }
{
    let items = rows.as_slice();
    let mut objects = Vec::new(alloc);
    for row in items {
        let members = fields_json(alloc, row)?;
        serde_json::push(&mut objects, Json::from(members))?;
    }
    Ok(objects)
}

// An object of one member.
pub(crate) fn tag(alloc: Global, key: &str, value: Json) -> Result<Json, Memory>
    ensures { IfOk result (λ v. json_view v ≡ tagged key.now (json_view value)) }
{
    Ok(json!(in alloc; {key: value})?)
}

// A whole number is a JSON number, and another is given by its text.
fn number_json(alloc: Global, number: Num) -> Result<Json, Memory>
    ensures { IfOk result (λ v. json_view v ≡ number_data number) }
{
    let units = number.units();
    if units % ONE == 0 {
        Ok(Json::from(units / ONE))
    } else {
        tag(alloc, "n", Json::String(fx_number::text(alloc, number)?))
    }
}

pub(crate) fn error_json(alloc: Global, fault: &Fault) -> Result<Json, Memory>
    ensures { IfOk result (λ v. json_view v ≡ error_data fault.now.kind fault.now.message) }
{
    let kind = fault.kind.name();
    let message = fault.message.as_str();
    let error = json!(in alloc; {"kind": kind, "message": message})?;
    tag(alloc, "e", error)
}
