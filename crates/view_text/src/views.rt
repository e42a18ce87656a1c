//! What a session shows, and the replies to its requests as JSON.
ghost use Rattle.std.specs.Prelude.{◌≡◌, IfOk, map, string_bytes};
ghost use Rattle.serde_json.specs.View.{view as json_view};
ghost use Rattle.fx_types.specs.ValueView.{view as value_view};
ghost use Rattle.view_text.specs.RefusalText.{id_data};
ghost use Rattle.view_text.specs.ViewText.{control_data, event_data, event_text, gallery_data};
ghost use Rattle.view_text.specs.ViewText.{item_control_data, item_data, items_data, items_text};
ghost use Rattle.view_text.specs.ViewText.{kind_text, listed_data, shown_data, told_data, total_of};
ghost use Rattle.view_text.specs.ViewText.{view_data, view_text};

use crate::json::{error_json, fields_json, value_json};
use crate::refused::lines_json;
use fx_base::{InOrder, Memory};
use fx_types::{Control, Fault, Fields, Value, Words};
use serde_json::{Value as Json, json};
use std::alloc::Global;

/// What a session shows: its screen, and the visible controls on it.
#[derive(Drop)]
pub struct View {
    pub screen: Words,
    pub shown: ShownList,
}

/// A visible control of the screen.
#[derive(Drop)]
pub struct Shown {
    pub name: Words,
    pub kind: Control,
    /// The properties that are shown, by rising names. A gallery shows its items instead.
    pub values: Fields,
    /// What a gallery shows, and None for other controls.
    pub items: Option<Items>,
}

/// Items of a gallery.
#[derive(Drop)]
pub struct Items {
    /// How many items the gallery has.
    pub total: u64,
    /// The error that stands in the place of the items.
    pub fault: Option<Fault>,
    pub list: ItemList,
}

/// An item of a gallery.
#[derive(Drop)]
pub struct ItemView {
    /// Its position, from 1.
    pub at: u64,
    /// The `ID` of its row, where that is a whole number from 1 to 4,294,967,295.
    pub id: Option<u32>,
    pub shown: ItemControlList,
}

/// A visible control of a gallery's template, as it is for one item.
// A type of its own, since no gallery stands in a gallery: so these types don't lead back to
// themselves.
#[derive(Drop)]
pub struct ItemControl {
    pub name: Words,
    pub kind: Control,
    /// The properties that are shown, by rising names.
    pub values: Fields,
}

/// Visible controls in app order.
pub type ShownList = InOrder<Shown>;

/// Items by rising positions.
pub type ItemList = InOrder<ItemView>;

/// Visible controls of a template in app order.
pub type ItemControlList = InOrder<ItemControl>;

/// The reply `{"controls":[..],"screen":".."}`.
pub fn view_json(alloc: Global, view: &View) -> Result<String, Memory>
    ensures { IfOk result (λ s. string_bytes s ≡ view_text view.now) }
{
    let whole = view_object(alloc, view)?;
    Ok(whole.to_string(alloc)?)
}

/// The reply `{"items":[..],"total":2}`. An error stands in the place of the items, with the total
/// 0.
pub fn items_json(alloc: Global, items: &Items) -> Result<String, Memory>
    ensures { IfOk result (λ s. string_bytes s ≡ items_text items.now) }
{
    let whole = items_object(alloc, items)?;
    Ok(whole.to_string(alloc)?)
}

/// The reply `{"notices":[..],"seq":1,"value":null}`, with the value where it is a scalar or an
/// error.
pub fn event_json(
    alloc: Global,
    notices: &[Words],
    seq: u32,
    value: &Value,
) -> Result<String, Memory>
    ensures { IfOk result (λ s. string_bytes s ≡ event_text notices.now seq (value_view value.now)) }
{
    let whole = event_object(alloc, notices, seq, value)?;
    Ok(whole.to_string(alloc)?)
}

fn view_object(alloc: Global, view: &View) -> Result<Json, Memory>
    ensures { IfOk result (λ v. json_view v ≡ view_data view.now) }
{
    Ok(json!(in alloc; {
        "controls": all_shown_json(alloc, view.shown.as_slice())?,
        "screen": view.screen.as_str(),
    })?)
}

fn all_shown_json(alloc: Global, all: &[Shown]) -> Result<Vec<Json>, Memory>
    ensures { IfOk result (λ v. map json_view v.items ≡ map shown_data all.now) }
{
    let mut objects = Vec::new(alloc);
    for shown in all {
        let object = shown_json(alloc, shown)?;
        serde_json::push(&mut objects, object)?;
    }
    Ok(objects)
}

fn shown_json(alloc: Global, shown: &Shown) -> Result<Json, Memory>
    ensures { IfOk result (λ v. json_view v ≡ shown_data shown.now) }
{
    match &shown.items {
        Some(items) => gallery_json(alloc, shown, items),
        None => control_json(alloc, shown.kind, &shown.name, &shown.values),
    }
}

fn gallery_json(alloc: Global, shown: &Shown, items: &Items) -> Result<Json, Memory>
    ensures { IfOk result (λ v. json_view v ≡ gallery_data shown.now.kind shown.now.name items.now) }
{
    Ok(json!(in alloc; {
        "items": listed_json(alloc, items)?,
        "kind": kind_name(shown.kind),
        "name": shown.name.as_str(),
        "total": shown_total(items),
    })?)
}

fn control_json(alloc: Global, kind: Control, name: &Words, values: &Fields) -> Result<Json, Memory>
    ensures { IfOk result (λ v. json_view v ≡ control_data kind name.now values.now) }
{
    Ok(json!(in alloc; {
        "kind": kind_name(kind),
        "name": name.as_str(),
        "values": fields_json(alloc, values)?,
    })?)
}

fn items_object(alloc: Global, items: &Items) -> Result<Json, Memory>
    ensures { IfOk result (λ v. json_view v ≡ items_data items.now) }
{
    Ok(json!(in alloc; {
        "items": listed_json(alloc, items)?,
        "total": shown_total(items),
    })?)
}

// The number of items, which is 0 where an error stands in their place.
fn shown_total(items: &Items) -> u64
    ensures { result ≡ total_of items.now }
{
    match items.fault {
        Some(_) => 0,
        None => items.total,
    }
}

fn listed_json(alloc: Global, items: &Items) -> Result<Json, Memory>
    ensures { IfOk result (λ v. json_view v ≡ listed_data items.now.fault items.now.list) }
{
    match &items.fault {
        Some(fault) => error_json(alloc, fault),
        None => Ok(Json::from(all_items_json(alloc, items.list.as_slice())?)),
    }
}

fn all_items_json(alloc: Global, all: &[ItemView]) -> Result<Vec<Json>, Memory>
    ensures { IfOk result (λ v. map json_view v.items ≡ map item_data all.now) }
{
    let mut objects = Vec::new(alloc);
    for item in all {
        let object = item_json(alloc, item)?;
        serde_json::push(&mut objects, object)?;
    }
    Ok(objects)
}

fn item_json(alloc: Global, item: &ItemView) -> Result<Json, Memory>
    ensures { IfOk result (λ v. json_view v ≡ item_data item.now) }
{
    Ok(json!(in alloc; {
        "at": item.at,
        "controls": item_controls_json(alloc, item.shown.as_slice())?,
        "id": id_json(item.id),
    })?)
}

fn item_controls_json(alloc: Global, all: &[ItemControl]) -> Result<Vec<Json>, Memory>
    ensures { IfOk result (λ v. map json_view v.items ≡ map item_control_data all.now) }
{
    let mut objects = Vec::new(alloc);
    for control in all {
        let object = control_json(alloc, control.kind, &control.name, &control.values)?;
        serde_json::push(&mut objects, object)?;
    }
    Ok(objects)
}

// A number, or null.
fn id_json(id: Option<u32>) -> Json
    ensures { json_view result ≡ id_data id }
{
    match id {
        Some(id) => Json::from(id),
        None => Json::Null,
    }
}

fn event_object(alloc: Global, notices: &[Words], seq: u32, value: &Value) -> Result<Json, Memory>
    ensures { IfOk result (λ v. json_view v ≡ event_data notices.now seq (value_view value.now)) }
{
    Ok(json!(in alloc; {
        "notices": lines_json(alloc, notices)?,
        "seq": seq,
        "value": told_json(alloc, value)?,
    })?)
}

// A scalar or an error, and null in the place of a record or a table.
fn told_json(alloc: Global, value: &Value) -> Result<Json, Memory>
    ensures { IfOk result (λ v. json_view v ≡ told_data (value_view value.now)) }
{
    match value {
        Value::Rec(_) | Value::Tab(_) => Ok(Json::Null),
        scalar => value_json(alloc, scalar),
    }
}

// The name of a kind of control, as app files have it.
fn kind_name(kind: Control) -> &'static str
    ensures { result.now ≡ kind_text kind }
{
    match kind {
        Control::Label => "Label",
        Control::Button => "Button",
        Control::TextInput => "TextInput",
        Control::Slider => "Slider",
        Control::Checkbox => "Checkbox",
        Control::DatePicker => "DatePicker",
        Control::Gallery => "Gallery",
    }
}
