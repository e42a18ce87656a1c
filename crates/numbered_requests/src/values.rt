//! Values as they come in, and the members of objects.
ghost use Rattle.std.specs.Prelude.{◌≡◌, IfOk, option_map};
ghost use Rattle.serde_json.specs.Data.{member, no_members};
ghost use Rattle.serde_json.specs.Find.{as_array};
ghost use Rattle.serde_json.specs.View.{items_view, members_view, view as json_view};
ghost use Rattle.serde_json.specs.declared.number.Number.{Number as JsonNumber};
ghost use Rattle.serde_json.specs.View.{number_view};
ghost use Rattle.fx_types.specs.ValueView.{view};
ghost use Rattle.numbered_requests.specs.GivenValues.{items_at as items_at_key};
ghost use Rattle.numbered_requests.specs.GivenValues.{member_count as member_count_of};
ghost use Rattle.numbered_requests.specs.GivenValues.{member_value as member_value_of};
ghost use Rattle.numbered_requests.specs.GivenValues.{members_at as members_at_key};
ghost use Rattle.numbered_requests.specs.GivenValues.{member_number as number_at_key};
ghost use Rattle.numbered_requests.specs.GivenValues.{tagged_value as tagged_value_of};
ghost use Rattle.numbered_requests.specs.GivenValues.{member_text as text_at_key};
ghost use Rattle.numbered_requests.specs.GivenValues.{value_in as value_in_json};
ghost use Rattle.numbered_requests.specs.GivenValues.{whole_number as whole_number_of};

use field_texts::{spelled_day, spelled_number};
use fx_base::Memory;
use fx_number::Num;
use fx_types::{Value, Words};
use serde_json::{Map, Number, Value as Json};
use std::alloc::Global;

/// The ten-thousandths of 1.
const ONE: i64 = 10_000;

/// The value that JSON is, where it is one.
pub fn value_in(alloc: Global, json: &Json) -> Result<Option<Value>, Memory>
    ensures { IfOk result (λ v. option_map view v ≡ value_in_json (json_view json.now)) }
{
    match json {
        Json::Null => Ok(Some(Value::Blank)),
        Json::Bool(truth) => Ok(Some(Value::Boolean(*truth))),
        Json::Number(number) => Ok(whole_number(number).map(Value::Number)),
        Json::String(text) => Ok(Some(Value::Text(Words::of(alloc, text.as_str())?))),
        Json::Array(_) => Ok(None),
        Json::Object(members) => Ok(member_value(members)),
    }
}

/// A whole JSON number in range.
fn whole_number(number: &Number) -> Option<Num>
    ensures { result ≡ whole_number_of (number_view number.now) }
{
    Num::from_units(number.as_i64()?.checked_mul(ONE)?)
}

/// What an object of one member is, where its value is a text.
fn member_value(members: &Map<String, Json>) -> Option<Value>
    ensures { option_map view result ≡ member_value_of (members_view members.now.entries) }
{
    if members.len() != 1 {
        return None;
    }
    match members.first_key_value() {
        Some((key, json)) => text_value(key.as_str(), json),
        None => None,
    }
}

/// What a member is that is alone in its object, where its value is a text.
fn text_value(key: &str, json: &Json) -> Option<Value>
    ensures { option_map view result ≡ member_value_of
        (member key.now (json_view json.now) no_members) }
{
    match json.as_str() {
        Some(text) => tagged_value(key, text),
        None => None,
    }
}

/// The number that a text under `n` spells, or the date that one under `d` does.
fn tagged_value(key: &str, text: &str) -> Option<Value>
    ensures { option_map view result ≡ tagged_value_of key.now text.now }
{
    match key {
        "n" => spelled_number(text).map(Value::Number),
        "d" => spelled_day(text).map(Value::Date),
        _ => None,
    }
}

/// How many members an object has.
pub fn member_count(json: &Json) -> usize
    ensures { result ≡ member_count_of (json_view json.now) }
{
    match json.as_object() {
        Some(members) => members.len(),
        None => 0,
    }
}

/// A member that is a text.
pub fn text_at(alloc: Global, json: &Json, key: &str) -> Result<Option<Words>, Memory>
    ensures { IfOk result (λ w. w ≡ text_at_key key.now (json_view json.now)) }
{
    match json.get(key).and_then(Json::as_str) {
        Some(text) => Ok(Some(Words::of(alloc, text)?)),
        None => Ok(None),
    }
}

/// A member that is a whole number from 1 to 4,294,967,295.
pub fn number_at(json: &Json, key: &str) -> Option<u32>
    ensures { result ≡ number_at_key key.now (json_view json.now) }
{
    let number = json.get(key).and_then(Json::as_u64)?;
    if 1 <= number && number <= u64::from(u32::MAX) {
        Some(number as u32)
    } else {
        None
    }
}

/// A member that is a list.
pub fn items_at<'a>(json: &'a Json, key: &str) -> Option<&'a [Json]>
    ensures { option_map (λ items. items_view items.now) result
        ≡ items_at_key key.now (json_view json.now) }
{
    match json.get(key) {
        Some(member) => elements_of(member),
        None => None,
    }
}

fn elements_of(json: &Json) -> Option<&[Json]>
    ensures { option_map (λ items. items_view items.now) result ≡ as_array (json_view json.now) }
{
    match json.as_array() {
        Some(items) => Some(items.as_slice()),
        None => None,
    }
}

/// A member that is an object.
pub fn members_at<'a>(json: &'a Json, key: &str) -> Option<&'a Map<String, Json>>
    ensures { option_map (λ ms. members_view ms.now.entries) result
        ≡ members_at_key key.now (json_view json.now) }
{
    json.get(key).and_then(Json::as_object)
}
