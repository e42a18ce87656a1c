//! What a session keeps as an app is edited.
ghost use Rattle.std.specs.Prelude.{◌≡◌, ◌+◌, ◌<◌, ◌≤◌, ◌++◌, ◌∷◌, [], MatchOption, map, length};
ghost use Rattle.std.specs.Prelude.{slice_get, slice_set, vec_capacity, vec_len};
ghost use Rattle.fx_types.specs.ValueView.{view};
ghost use Rattle.fx_types.specs.Values.{blank, tab, no_rows};
ghost use Rattle.session_state.specs.Carrying as carrying;
ghost use Rattle.session_state.specs.Carrying.{value_or, carried_values};

use fx_core::Names;
use fx_core::names::{Collection, Variable};
use fx_types::values::{Rows, Value};
use fx_typing::ways::same_shape;
use std::alloc::Global;
use std::mem;

// Whether two screens are there, the one among these names and the other among others, and have one
// name.
fn are_one(names: &Names, others: &Names, one: usize, other: usize) -> bool
    ensures { result ≡ carrying.is_same_name (slice_get names.now.screens one)
        (slice_get others.now.screens other) }
{
    match (names.screens.get(one), others.screens.get(other)) {
        (Some(one), Some(other)) => one.is(other),
        _ => false,
    }
}

// Whether a screen of these names and one of others have one name, or both are none.
fn is_same_screen(names: &Names, others: &Names, one: Option<u32>, other: Option<u32>) -> bool
    ensures { result ≡ carrying.is_screen_of_same_name names.now others.now one other }
{
    match (one, other) {
        (Some(one), Some(other)) => are_one(names, others, one as usize, other as usize),
        (None, None) => true,
        _ => false,
    }
}

// Whether a variable of these names is one of others.
fn is_same_variable(names: &Names, others: &Names, one: &Variable, other: &Variable) -> bool
    ensures { result ≡ carrying.is_same_variable names.now others.now one.now other.now }
{
    one.name.is(&other.name) && is_same_screen(names, others, one.screen, other.screen)
}

// Where a variable of other names stands among these.
fn place_of_variable(names: &Names, others: &Names, variable: &Variable) -> Option<usize>
    ensures { result ≡ carrying.place_of_variable names.now others.now variable.now }
{
    names
        .variables
        .as_slice()
        .iter()
        .position(|one| is_same_variable(names, others, one, variable))
}

// Where a collection stands among these names.
fn place_of_collection(names: &Names, collection: &Collection) -> Option<usize>
    ensures { result ≡ carrying.place_of_collection names.now collection.now }
{
    names
        .collections
        .as_slice()
        .iter()
        .position(|one| one.name.is(&collection.name))
}

pub(crate) fn is_place(place: usize, found: Option<usize>) -> bool
    ensures { result ≡ carrying.is_place place found }
{
    match found {
        Some(found) => place == found,
        None => false,
    }
}

/// Where the variable at a place was among the old ones.
pub fn variable_was(old: &Names, new: &Names, place: usize) -> Option<usize>
    ensures { result ≡ carrying.variable_was old.now new.now place }
{
    let variable = new.variables.get(place)?;
    let was = place_of_variable(old, new, variable)?;
    let one = old.variables.get(was)?;
    if is_place(place, place_of_variable(new, old, one)) && same_shape(&one.ty, &variable.ty) {
        Some(was)
    } else {
        None
    }
}

/// Where the collection at a place was among the old ones.
pub fn collection_was(old: &Names, new: &Names, place: usize) -> Option<usize>
    ensures { result ≡ carrying.collection_was old.now new.now place }
{
    let collection = new.collections.get(place)?;
    let was = place_of_collection(old, collection)?;
    let one = old.collections.get(was)?;
    if is_place(place, place_of_collection(new, one)) && same_shape(&one.ty, &collection.ty) {
        Some(was)
    } else {
        None
    }
}

// Takes the value at a place away, and leaves another for it, which is given back where there is
// none.
pub(crate) fn take<T>(values: &mut Vec<T>, place: Option<usize>, other: T) -> T
    ensures value { result ≡ value_or other values.old.items place }
    ensures left { MatchOption place (values.new.items ≡ values.old.items)
        (λ k. values.new.items ≡ slice_set values.old.items k other) }
{
    match place {
        Some(place) if place < values.len() => mem::replace(&mut values[place], other),
        _ => other,
    }
}

// Adds a value, for which there is room.
pub(crate) fn put<T: Drop>(values: &mut Vec<T>, value: T)
    requires room { vec_len values.old < vec_capacity values.old }
    ensures values { values.new.items ≡ values.old.items ++ value ∷ [] }
    ensures len { vec_len values.new ≡ vec_len values.old + 1 }
    ensures room { vec_capacity values.old ≤ vec_capacity values.new }
{
    match values.push(value) {
        Ok(()) => {}
        Err(_) => {}
    }
}

/// Moves what variables keep, and blanks for the others, to where there is room for them.
pub(crate) fn carry_variables(old: &Names, new: &Names, from: &mut Vec<Value>, to: &mut Vec<Value>)
    requires empty { to.old.items ≡ [] }
    requires room { length new.now.variables ≤ vec_capacity to.old }
    ensures { map view to.new.items ≡ carried_values (carrying.variable_was old.now new.now) blank
        (map view from.old.items) (length new.now.variables) }
{
    for place in 0..new.variables.len() {
        put(to, take(from, variable_was(old, new, place), Value::Blank));
    }
}

/// Moves what collections keep, and empty tables for the others, to where there is room for them.
pub(crate) fn carry_collections(
    alloc: Global,
    old: &Names,
    new: &Names,
    from: &mut Vec<Value>,
    to: &mut Vec<Value>,
)
    requires empty { to.old.items ≡ [] }
    requires room { length new.now.collections ≤ vec_capacity to.old }
    ensures { map view to.new.items ≡ carried_values (carrying.collection_was old.now new.now)
        (tab no_rows) (map view from.old.items) (length new.now.collections) }
{
    for place in 0..new.collections.len() {
        let none = Value::Tab(Rows::new(alloc));
        put(to, take(from, collection_was(old, new, place), none));
    }
}
