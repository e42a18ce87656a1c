//! The body of an event.
ghost use Rattle.std.specs.Prelude.{◌≡◌, ◌≤◌, IfOk, IfSome, codes, option_and_then};
ghost use Rattle.serde_json.specs.Find.{get};
ghost use Rattle.serde_json.specs.View.{view as json_view};
ghost use Rattle.session_requests.specs.Bodies.{IsSoundEvent, event_in, event_with as event_of};
ghost use Rattle.session_requests.specs.Bodies.{id_at as id_at_key, is_null};
ghost use Rattle.session_requests.specs.Bodies.{place_member as place_of};

use fx_base::Memory;
use fx_types::Words;
use numbered_requests::Body;
use numbered_requests::values::{member_count, number_at, text_at};
use serde_json::Value as Json;
use std::alloc::Global;

/// An event of a control under its number.
#[derive(Drop)]
pub struct Event {
    pub seq: u32,
    pub control: Words,
    pub event: Words,
    /// The item of a gallery, where one is given.
    pub item: Option<Place>,
}

/// An item of a gallery.
#[derive(Clone, Copy, Debug, PartialEq, Eq)]
pub struct Place {
    /// Its position, from 1.
    pub at: u32,
    /// The id that its row is to have, if any, where this is to be tested.
    pub id: Option<Option<u32>>,
}

impl Body for Event {
    ghost asked = { event_in };

    ghost number = { λ e. e.seq };

    ghost sound = { IsSoundEvent };

    fn read(alloc: Global, json: &Json) -> Result<Option<Event>, Memory> {
        match member_count(json) {
            3 => event_with(alloc, None, json),
            4 => match place_at(json) {
                Some(place) => event_with(alloc, Some(place), json),
                None => Ok(None),
            },
            _ => Ok(None),
        }
    }

    fn seq(&self) -> u32 {
        self.seq
    }

    ghost counted = { λ e h. h.number };
}

// What an event has beside its item.
fn event_with(alloc: Global, item: Option<Place>, json: &Json) -> Result<Option<Event>, Memory>
    requires { IfSome item (λ p. 1 ≤ p.at) }
    ensures event { IfOk result (λ e. e ≡ event_of item (json_view json.now)) }
    ensures sound { IfOk result (λ e. IfSome e IsSoundEvent) }
{
    let Some(seq) = number_at(json, "seq") else {
        return Ok(None);
    };
    let (Some(control), Some(event)) = (
        text_at(alloc, json, "control")?,
        text_at(alloc, json, "event")?,
    ) else {
        return Ok(None);
    };
    Ok(Some(Event {
        seq,
        control,
        event,
        item,
    }))
}

// The item that a member is.
fn place_at(json: &Json) -> Option<Place>
    ensures place { result ≡ option_and_then place_of (get (codes "item") (json_view json.now)) }
    ensures counted { IfSome result (λ p. 1 ≤ p.at) }
{
    match json.get("item") {
        Some(item) => place_in(item),
        None => None,
    }
}

// The item that JSON is, if it is one.
fn place_in(json: &Json) -> Option<Place>
    ensures place { result ≡ place_of (json_view json.now) }
    ensures counted { IfSome result (λ p. 1 ≤ p.at) }
{
    match member_count(json) {
        1 => {
            let at = number_at(json, "at")?;
            Some(Place { at, id: None })
        }
        2 => {
            let at = number_at(json, "at")?;
            let id = id_at(json, "id")?;
            Some(Place { at, id: Some(id) })
        }
        _ => None,
    }
}

// A member that is a number, or null.
fn id_at(json: &Json, key: &str) -> Option<Option<u32>>
    ensures { result ≡ id_at_key key.now (json_view json.now) }
{
    if is_null_at(json, key) {
        Some(None)
    } else {
        Some(Some(number_at(json, key)?))
    }
}

fn is_null_at(json: &Json, key: &str) -> bool
    ensures { result ≡ is_null (get key.now (json_view json.now)) }
{
    matches!(json.get(key), Some(Json::Null))
}
