//! Parts of an app file, and how each kind is read.
ghost use Rattle.std.specs.Prelude.{◌≡◌, List, [], Some, IfErr, IfOk, false, is_some, map};
ghost use Rattle.std.specs.Prelude.{option_map, true};
ghost use Rattle.serde_json.specs.Data.{Data};
ghost use Rattle.serde_json.specs.Find.{as_object, get};
ghost use Rattle.serde_json.specs.View.{view};
ghost use Rattle.app_file.specs.Contents.{all_behind, member_at};
ghost use Rattle.app_file.specs.Forms.{Form, BreaksForm, IsFine};
ghost use Rattle.app_file.specs.Readings.{AreWellFormed, IsBadAmong, IsBadMember, IsFineMember};
ghost use Rattle.app_file.specs.Readings.{TellsPath};

use crate::paths::{Unread, in_element, in_member, unread_member, unreadable};
use fx_base::InOrder;
use serde_json::Value as Json;
use std::alloc::Global;

/// What is read of JSON of one form.
pub trait Part: Sized {
    ghost form: { Form };

    ghost held: { Data → Self };

    /// The part that the JSON is.
    fn read(alloc: Global, part: &Json) -> Result<Self, Unread>
        ensures ok { IfOk result (λ a. IsFine form (view part.now) × (a ≡ held (view part.now))) }
        ensures bad { IfErr result (TellsPath (BreaksForm form (view part.now))) };
}

/// What is read of an element of a list, whose form may ask for those before it.
pub trait Element: Sized {
    ghost element_form: { List Data → Form };

    ghost element_held: { List Data → Data → Self };

    /// The element that the JSON is, behind these.
    fn read_behind(alloc: Global, before: &[Json], part: &Json) -> Result<Self, Unread>
        ensures ok { IfOk result (λ a. IsFine (element_form (map view before.now)) (view part.now)
            × (a ≡ element_held (map view before.now) (view part.now))) }
        ensures bad { IfErr result (TellsPath
            (BreaksForm (element_form (map view before.now)) (view part.now))) };
}

/// A member that must stand.
pub fn read_member<T: Part>(alloc: Global, part: &Json, key: &str) -> Result<T, Unread>
    requires { is_some (as_object (view part.now)) ≡ true }
    ensures ok { IfOk result (λ a. IsFineMember true T.form (get key.now (view part.now))
        × (Some a ≡ option_map T.held (get key.now (view part.now)))) }
    ensures bad { IfErr result (TellsPath (IsBadMember true key.now T.form (view part.now))) }
{
    match part.get(key) {
        Some(member) => match T::read(alloc, member) {
            Ok(value) => Ok(value),
            Err(end) => Err(in_member(alloc, key, end)),
        },
        None => Err(unread_member(alloc, key)),
    }
}

/// A member that may stand, or this where it doesn't.
pub fn read_member_or<T: Part + Drop>(
    alloc: Global,
    part: &Json,
    key: &str,
    default: T,
) -> Result<T, Unread>
    ensures ok { IfOk result (λ a. IsFineMember false T.form (get key.now (view part.now))
        × (a ≡ member_at T.held key.now default (view part.now))) }
    ensures bad { IfErr result (TellsPath (IsBadMember false key.now T.form (view part.now))) }
{
    match part.get(key) {
        Some(member) => match T::read(alloc, member) {
            Ok(value) => Ok(value),
            Err(end) => Err(in_member(alloc, key, end)),
        },
        None => Ok(default),
    }
}

// The elements of a list.
fn read_all<T: Element + Drop>(alloc: Global, items: &[Json]) -> Result<InOrder<T>, Unread>
    ensures ok { IfOk result (λ a. AreWellFormed T.element_form (map view items.now)
        × (a ≡ all_behind T.element_held [] (map view items.now))) }
    ensures bad { IfErr result (TellsPath (IsBadAmong T.element_form (map view items.now))) }
{
    let mut all = InOrder::new(alloc);
    for (place, item) in items.iter().enumerate() {
        match T::read_behind(alloc, &items[..place], item) {
            Ok(one) => all.push(one)?,
            Err(end) => return Err(in_element(place, end)),
        }
    }
    Ok(all)
}

impl<T: Element + Drop> Part for InOrder<T> {
    ghost use Rattle.app_file.specs.Contents.{all_elements};
    ghost use Rattle.app_file.specs.Forms.{in_turn};

    ghost form = { in_turn T.element_form };

    ghost held = { all_elements T.element_held };

    fn read(alloc: Global, part: &Json) -> Result<InOrder<T>, Unread> {
        match part.as_array() {
            Some(items) => read_all(alloc, items.as_slice()),
            None => Err(unreadable(alloc)),
        }
    }
}
