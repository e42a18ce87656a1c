//! The screens of an app file, with their controls.
ghost use Rattle.std.specs.Prelude.{◌≡◌, ◌++◌, ◌∷◌, [], IfErr, IfOk, MatchOption, OnOk, codes};
ghost use Rattle.std.specs.Prelude.{false, map, option_and_then};
ghost use Rattle.serde_json.specs.Find.{get};
ghost use Rattle.serde_json.specs.View.{view};
ghost use Rattle.app_file.specs.Contents as held;
ghost use Rattle.app_file.specs.Contents.{member_at};
ghost use Rattle.app_file.specs.FormOfApp as form_of_app;
ghost use Rattle.app_file.specs.FormOfApp.{leaf, properties_form};
ghost use Rattle.app_file.specs.Forms.{BreaksForm, IsFine, elements};
ghost use Rattle.app_file.specs.Readings.{IsBadMember, IsFineMember, TellsPath};

use crate::file::{ControlShape, PropertyText, ScreenShape};
use crate::keys::{Object, check_keys, keys_of};
use crate::leaves::Name;
use crate::parts::{Element, Part, read_member, read_member_or};
use crate::paths::{Unread, in_member, unread_member, unreadable};
use fx_base::{InOrder, Memory};
use fx_types::controls::Control;
use fx_types::words::Words;
use serde_json::Value as Json;
use std::alloc::Global;

fn may_stand_in_gallery(kind: Control) -> bool
    ensures { result ≡ form_of_app.may_stand_in_gallery kind }
{
    matches!(kind, Control::Label | Control::Button)
}

// Whether the text of a member is this.
fn is_text_at(key: &str, text: &str, part: &Json) -> bool
    ensures { result ≡ form_of_app.is_text_at key.now text.now (view part.now) }
{
    match part.get(key).and_then(Json::as_str) {
        Some(other) => other == text,
        None => false,
    }
}

fn is_gallery(name: &str, control: &Json) -> bool
    ensures { result ≡ form_of_app.is_gallery_shape name.now (view control.now) }
{
    is_text_at("name", name, control) && is_text_at("kind", "Gallery", control)
}

// The place of the first gallery of a name.
fn gallery_place(before: &[Json], name: &str) -> Option<usize>
    ensures { result ≡ form_of_app.gallery_place (map view before.now) name.now }
{
    for (place, control) in before.iter().enumerate() {
        if is_gallery(name, control) {
            return Some(place);
        }
    }
    None
}

// The place of the gallery that is named, before a control of this kind, which may stand in it.
fn gallery_of(before: &[Json], kind: Control, part: &Json) -> Option<usize>
    ensures { result ≡ form_of_app.gallery_before (map view before.now) kind (view part.now) }
{
    if !may_stand_in_gallery(kind) {
        return None;
    }
    match part.as_str() {
        Some(name) => gallery_place(before, name),
        None => None,
    }
}

// The gallery that a control of this kind stands in, if it is in one.
fn read_gallery(
    alloc: Global,
    before: &[Json],
    kind: Control,
    part: &Json,
) -> Result<Option<usize>, Unread>
    ensures ok { IfOk result (λ g. IsFineMember false
        (leaf (form_of_app.gallery_before (map view before.now) kind))
        (get (codes "in") (view part.now))
        × (g ≡ option_and_then (form_of_app.gallery_before (map view before.now) kind)
        (get (codes "in") (view part.now)))) }
    ensures bad { IfErr result (TellsPath (IsBadMember false (codes "in")
        (leaf (form_of_app.gallery_before (map view before.now) kind)) (view part.now))) }
{
    match part.get("in") {
        Some(member) => match gallery_of(before, kind, member) {
            Some(place) => Ok(Some(place)),
            None => Err(unread_member(alloc, "in")),
        },
        None => Ok(None),
    }
}

// A property, if it is written.
fn read_property(alloc: Global, part: &Json, key: &str) -> Result<Option<PropertyText>, Unread>
    ensures ok { IfOk result (λ p. IsFineMember false form_of_app.text (get key.now (view part.now))
        × (p ≡ held.property (view part.now) key.now)) }
    ensures bad { IfErr result (TellsPath (IsBadMember false key.now form_of_app.text
        (view part.now))) }
{
    match part.get(key) {
        Some(member) => match <Words as Part>::read(alloc, member) {
            Ok(text) => Ok(Some(PropertyText {
                name: Words::of(alloc, key)?,
                text,
            })),
            Err(end) => Err(in_member(alloc, key, end)),
        },
        None => Ok(None),
    }
}

// Adds a property, if it is written.
fn put_property(
    property: Option<PropertyText>,
    properties: &mut InOrder<PropertyText>,
) -> Result<(), Memory>
    ensures { OnOk result (MatchOption property (properties.new ≡ properties.old)
        (λ p. properties.new ≡ properties.old ++ p ∷ [])) }
{
    if let Some(property) = property {
        properties.push(property)?;
    }
    Ok(())
}

// The properties of a control of this kind.
fn read_properties(
    alloc: Global,
    kind: Control,
    part: &Json,
) -> Result<InOrder<PropertyText>, Unread>
    ensures ok { IfOk result (λ ps. IsFine (properties_form kind) (view part.now)
        × (ps ≡ held.properties kind (view part.now))) }
    ensures bad { IfErr result (TellsPath (BreaksForm (properties_form kind) (view part.now))) }
{
    check_keys(alloc, part, Object::Properties(kind))?;
    let mut properties = InOrder::new(alloc);
    for key in keys_of(Object::Properties(kind)) {
        let property = read_property(alloc, part, key)?;
        put_property(property, &mut properties)?;
    }
    Ok(properties)
}

// The properties of a control of this kind, if some are written.
fn properties_at(alloc: Global, kind: Control, part: &Json) -> Result<InOrder<PropertyText>, Unread>
    ensures ok { IfOk result (λ ps. IsFineMember false (properties_form kind)
        (get (codes "properties") (view part.now))
        × (ps ≡ member_at (held.properties kind) (codes "properties") [] (view part.now))) }
    ensures bad { IfErr result (TellsPath (IsBadMember false (codes "properties")
        (properties_form kind) (view part.now))) }
{
    match part.get("properties") {
        Some(member) => match read_properties(alloc, kind, member) {
            Ok(properties) => Ok(properties),
            Err(end) => Err(in_member(alloc, "properties", end)),
        },
        None => Ok(InOrder::new(alloc)),
    }
}

impl Element for ControlShape {
    ghost use Rattle.app_file.specs.Contents.{control_shape};
    ghost use Rattle.app_file.specs.FormOfApp.{control_form};

    ghost element_form = { control_form };

    ghost element_held = { control_shape };

    fn read_behind(alloc: Global, before: &[Json], part: &Json) -> Result<ControlShape, Unread> {
        check_keys(alloc, part, Object::Control)?;
        let name: Name = read_member(alloc, part, "name")?;
        let kind: Control = read_member(alloc, part, "kind")?;
        let gallery = read_gallery(alloc, before, kind, part)?;
        let properties = properties_at(alloc, kind, part)?;
        Ok(ControlShape {
            name: name.0,
            kind,
            gallery,
            properties,
        })
    }
}

impl Element for ScreenShape {
    ghost use Rattle.app_file.specs.Contents.{screen};
    ghost use Rattle.app_file.specs.FormOfApp.{screen_fields};
    ghost use Rattle.app_file.specs.Forms.{members};

    ghost element_form = { λ before. members screen_fields };

    ghost element_held = { screen };

    fn read_behind(alloc: Global, _before: &[Json], part: &Json) -> Result<ScreenShape, Unread> {
        check_keys(alloc, part, Object::Screen)?;
        let name: Name = read_member(alloc, part, "name")?;
        let empty = Words::of(alloc, "")?;
        let on_visible = read_member_or(alloc, part, "onVisible", empty)?;
        let controls = read_member(alloc, part, "controls")?;
        Ok(ScreenShape {
            name: name.0,
            on_visible,
            controls,
        })
    }
}

/// Screens, at least one.
#[derive(Drop)]
pub struct Screens(pub InOrder<ScreenShape>);

// Whether it is a list without elements.
fn is_empty_list(part: &Json) -> bool
    ensures { result ≡ form_of_app.is_empty_list (elements (view part.now)) }
{
    match part.as_array() {
        Some(items) => items.is_empty(),
        None => false,
    }
}

impl Part for Screens {
    ghost use Rattle.app_file.specs.Contents.{all_elements, screen};
    ghost use Rattle.app_file.specs.FormOfApp.{screens_form};

    ghost form = { screens_form };

    ghost held = { λ d. record { 0 = all_elements screen d } };

    fn read(alloc: Global, part: &Json) -> Result<Screens, Unread> {
        if is_empty_list(part) {
            return Err(unreadable(alloc));
        }
        let screens = <InOrder<ScreenShape> as Part>::read(alloc, part)?;
        Ok(Screens(screens))
    }
}
