//! The keys of the objects of an app file.
ghost use Rattle.std.specs.Prelude.{◌≡◌, IfErr, OnOk, find, map, not, option_map, string_bytes};
ghost use Rattle.std.specs.BTreeMap.{keys as keys_in};
ghost use Rattle.serde_json.specs.Find.{as_object};
ghost use Rattle.serde_json.specs.View.{view};
ghost use Rattle.app_file.specs.Keys.{is_known_key, keys_of};
ghost use Rattle.app_file.specs.Readings.{HasOnlyKeys, IsBadObject, TellsPath};

use crate::paths::{Unread, in_member, unreadable};
use fx_types::controls::Control;
use serde_json::{Map, Value as Json};
use std::alloc::Global;

/// An object of an app file.
#[derive(Clone, Copy)]
pub enum Object {
    App,
    Table,
    Column,
    Screen,
    Control,
    /// The properties of a control of this kind.
    Properties(Control),
}

static APP: [&str; 6] = [
    "format", "rowLimit", "tables", "formulas", "onStart", "screens",
];

static TABLE: [&str; 2] = ["name", "columns"];

static COLUMN: [&str; 5] = ["name", "type", "required", "unique", "indexed"];

static SCREEN: [&str; 3] = ["name", "onVisible", "controls"];

static CONTROL: [&str; 4] = ["name", "kind", "in", "properties"];

static LABEL: [&str; 3] = ["Visible", "Text", "OnSelect"];

static TEXT_INPUT: [&str; 3] = ["Visible", "Default", "OnChange"];

static SLIDER: [&str; 5] = ["Visible", "Min", "Max", "Default", "OnChange"];

static CHECKBOX: [&str; 5] = ["Visible", "Text", "Default", "OnCheck", "OnUncheck"];

static DATE_PICKER: [&str; 3] = ["Visible", "DefaultDate", "OnChange"];

static GALLERY: [&str; 3] = ["Visible", "Items", "OnSelect"];

/// The keys that an object may have. Those of properties stand in the order of apps.
pub fn keys_of(object: Object) -> &'static [&'static str]
    ensures { map (λ k. k.now) result.now ≡ keys_of object }
{
    match object {
        Object::App => &APP,
        Object::Table => &TABLE,
        Object::Column => &COLUMN,
        Object::Screen => &SCREEN,
        Object::Control => &CONTROL,
        Object::Properties(Control::Label | Control::Button) => &LABEL,
        Object::Properties(Control::TextInput) => &TEXT_INPUT,
        Object::Properties(Control::Slider) => &SLIDER,
        Object::Properties(Control::Checkbox) => &CHECKBOX,
        Object::Properties(Control::DatePicker) => &DATE_PICKER,
        Object::Properties(Control::Gallery) => &GALLERY,
    }
}

// Whether a key is one of these.
fn is_one_of(key: &str, keys: &[&str]) -> bool
    ensures { result ≡ is_known_key (map (λ k. k.now) keys.now) key.now }
{
    for other in keys {
        if key == *other {
            return true;
        }
    }
    false
}

// The first key that is none of these.
fn other_key<'a>(members: &'a Map<String, Json>, keys: &[&str]) -> Option<&'a str>
    ensures { option_map (λ k. k.now) result
        ≡ find (λ k. not (is_known_key (map (λ x. x.now) keys.now) k))
        (map string_bytes (keys_in members.now)) }
{
    for key in members.keys() {
        if !is_one_of(key.as_str(), keys) {
            return Some(key.as_str());
        }
    }
    None
}

/// That a part is an object with no other keys than such a one's.
pub fn check_keys(alloc: Global, part: &Json, object: Object) -> Result<(), Unread>
    ensures ok { OnOk result (HasOnlyKeys (keys_of object) (as_object (view part.now))) }
    ensures bad { IfErr result (TellsPath (IsBadObject (keys_of object) (view part.now))) }
{
    match part.as_object() {
        Some(members) => match other_key(members, keys_of(object)) {
            Some(key) => Err(in_member(alloc, key, unreadable(alloc))),
            None => Ok(()),
        },
        None => Err(unreadable(alloc)),
    }
}
