// Whether trees of an edited app are the ones that they were.
ghost use Rattle.std.specs.Prelude.{◌≡◌, ◌↔◌, ℕ, IfOk, IsTrue, MatchOption, None, Some};
ghost use Rattle.std.specs.Prelude.{slice_index_or};
ghost use Rattle.fx_types.specs.TypeView.{shape};
ghost use Rattle.fx_core.specs.Term.{all, cons, term_field_names, nil};
ghost use Rattle.fx_core.specs.Term.{field_terms as parts_of_fields};
ghost use Rattle.fx_core.specs.Reads.{IsAmong};
ghost use Rattle.fx_core.specs.declared.sources.Source.{Source as Src};
ghost use Rattle.recalc.specs.app_cells.Leaning.{cell_behind as behind};
ghost use Rattle.recalc.specs.Carrying.{AreOldPlaces, IsOldBehind, IsOldOne, IsOldPart};
ghost use Rattle.recalc.specs.Carrying.{IsOldSource, IsOldTop, IsOldTree, IsPast, subtree_at};
ghost use Rattle.recalc.specs.Carrying.{subtrees, top_of};
ghost use Rattle.recalc.specs.Carrying as carrying;
ghost use Rattle.session_state.specs.Carrying as session_carrying;

use crate::app_cells::{App, CellInfo};
use crate::session_sources::cell_behind;
use crate::standing::is_alone;
use fx_base::Memory;
use fx_core::trees::{CoreArgs, CoreFields, CoreNode};
use fx_core::{Core, Fun, Names, Source};
use fx_types::types::Ty;
use fx_typing::ways::same_shape;
use fx_value::same;
use session_state::{collection_was, variable_was};
use std::alloc::Global;

// Where the cell of an address stands.
fn place_of_cell(app: &App, info: &CellInfo) -> Option<usize>
    ensures { result ≡ carrying.place_of_cell app.now info.now }
{
    app.cells
        .as_slice()
        .iter()
        .position(|one| one.cell.name.is(&info.cell.name))
}

// Whether a place is the one that was found.
fn is_place(place: usize, found: Option<usize>) -> bool
    ensures { result ≡ session_carrying.is_place place found }
{
    match found {
        Some(found) => place == found,
        None => false,
    }
}

// Where a cell of an edited app was: the one of its address, if that has the same type.
fn cell_was(old: &App, new: &App, cell: usize) -> Option<usize>
    ensures { result ≡ carrying.cell_was old.now new.now cell }
{
    let info = new.cells.get(cell)?;
    let was = place_of_cell(old, info)?;
    let one = old.cells.get(was)?;
    if is_place(cell, place_of_cell(new, one)) && same_shape(&one.ty, &info.ty) {
        Some(was)
    } else {
        None
    }
}

/// Where each cell of an edited app was.
pub(crate) fn old_places(alloc: Global, old: &App, new: &App) -> Result<Vec<Option<usize>>, Memory>
    ensures { IfOk result (λ v. AreOldPlaces old.now new.now v.items) }
{
    let count = new.cells.len();
    let mut places = Vec::with_capacity(alloc, count)?;
    for cell in 0..count {
        places.push(cell_was(old, new, cell))?;
    }
    Ok(places)
}

/// The one of a cell.
pub(crate) fn place_at(places: &[Option<usize>], cell: usize) -> Option<usize>
    ensures { result ≡ slice_index_or places.now cell None }
{
    match places.get(cell) {
        Some(place) => *place,
        None => None,
    }
}

// Whether a cell of an edited app was this one, and has a value by itself where that one has.
#[tactic(auto, using(crate::proofs::Finding::place_tells))]
fn is_old_one(old: &App, new: &App, places: &[Option<usize>], cell: u32, one: u32) -> bool
    requires { AreOldPlaces old.now new.now places.now }
    ensures { IsTrue result ↔ IsOldOne old.now new.now cell one }
{
    is_place(one as usize, place_at(places, cell as usize))
        && is_alone(new, cell) == is_alone(old, one)
}

// Whether what a source leans on is what it was, if it leans on a cell.
fn is_old_behind(
    old: &App,
    new: &App,
    places: &[Option<usize>],
    source: Source,
    was: Source,
) -> bool
    requires { AreOldPlaces old.now new.now places.now }
    ensures { IsTrue result ↔ IsOldBehind old.now new.now (behind new.now.names source)
        (behind old.now.names was) }
{
    match (
        cell_behind(&new.names, source),
        cell_behind(&old.names, was),
    ) {
        (Some(cell), Some(one)) => is_old_one(old, new, places, cell, one),
        (None, None) => true,
        _ => false,
    }
}

// Whether a variable of an edited app was this one.
#[tactic(auto, using(crate::proofs::Finding::place_tells))]
fn is_old_variable(old: &Names, new: &Names, variable: u32, one: u32) -> bool
    ensures { IsTrue result ↔ (session_carrying.variable_was old.now new.now variable ≡ Some one) }
{
    is_place(one as usize, variable_was(old, new, variable as usize))
}

// Whether a collection of an edited app was this one.
#[tactic(auto, using(crate::proofs::Finding::place_tells))]
fn is_old_collection(old: &Names, new: &Names, collection: u32, one: u32) -> bool
    ensures { IsTrue result ↔ (session_carrying.collection_was old.now new.now collection
        ≡ Some one) }
{
    is_place(one as usize, collection_was(old, new, collection as usize))
}

// Whether a source of an edited app was this one.
fn is_old_source(
    old: &App,
    new: &App,
    places: &[Option<usize>],
    source: Source,
    was: Source,
) -> bool
    requires { AreOldPlaces old.now new.now places.now }
    ensures { IsTrue result ↔ IsOldSource old.now new.now source was }
{
    match (source, was) {
        (Source::Cell(cell), Source::Cell(one)) => is_old_one(old, new, places, cell, one),
        (Source::Global(place), Source::Global(one)) => {
            is_old_variable(&old.names, &new.names, place, one)
        }
        (Source::Context(place), Source::Context(one)) => {
            is_old_variable(&old.names, &new.names, place, one)
        }
        (Source::Gathered(place), Source::Gathered(one)) => {
            is_old_collection(&old.names, &new.names, place, one)
        }
        (Source::Input(place), Source::Input(one)) => {
            place == one && is_old_behind(old, new, places, source, was)
        }
        (Source::Chosen(place), Source::Chosen(one)) => {
            place == one && is_old_behind(old, new, places, source, was)
        }
        (Source::Table(place), Source::Table(one)) => place == one,
        (Source::Today, Source::Today) => true,
        _ => false,
    }
}

// Whether a source of an edited app was one of these.
fn is_old_read(
    old: &App,
    new: &App,
    places: &[Option<usize>],
    source: Source,
    were: &[Source],
) -> bool
    requires { AreOldPlaces old.now new.now places.now }
    ensures { IsTrue result ↔ ((r : Src) × IsAmong r were.now
        × IsOldSource old.now new.now source r) }
{
    for was in were {
        if is_old_source(old, new, places, source, *was) {
            return true;
        }
    }
    false
}

/// Whether each of these sources of an edited app was one of those.
pub(crate) fn are_old_reads(
    old: &App,
    new: &App,
    places: &[Option<usize>],
    sources: &[Source],
    were: &[Source],
) -> bool
    requires { AreOldPlaces old.now new.now places.now }
    ensures { IsTrue result ↔ ((x : Src) → IsAmong x sources.now
        → (r : Src) × IsAmong r were.now × IsOldSource old.now new.now x r) }
{
    for source in sources {
        if !is_old_read(old, new, places, *source, were) {
            return false;
        }
    }
    true
}

// Whether two types are one.
fn is_same_type(a: &Ty, b: &Ty) -> bool
    ensures { IsTrue result ↔ (shape a.now ≡ shape b.now) }
{
    same_shape(a, b)
}

// Whether two functions are one.
fn is_same_function(a: Fun, b: Fun) -> bool
    ensures { IsTrue result ↔ (a ≡ b) }
{
    a == b
}

// Whether fields have the names of others, in order.
fn have_same_names(fields: &CoreFields, others: &CoreFields) -> bool
    ensures { IsTrue result ↔ (term_field_names fields.now ≡ term_field_names others.now) }
{
    let xs = fields.as_slice();
    let ys = others.as_slice();
    if xs.len() != ys.len() {
        return false;
    }
    for (i, (name, _)) in xs.iter().enumerate() {
        // By index: behind a `zip` the whole lists have no names in an invariant.
        let (other, _) = &ys[i];
        if !name.is(other) {
            return false;
        }
    }
    true
}

// Whether what stands at the top of a tree of an edited app is what stood there, a source by its
// name. No part is looked at.
fn is_old_top(old: &App, new: &App, places: &[Option<usize>], tree: &Core, was: &Core) -> bool
    requires { AreOldPlaces old.now new.now places.now }
    ensures { IsTrue result ↔ IsOldTop (IsOldSource old.now new.now) (top_of tree.now)
        (top_of was.now) }
{
    match &tree.node {
        CoreNode::Const(a) => matches!(&was.node, CoreNode::Const(b) if same(a, b)),
        CoreNode::Read(a) => {
            matches!(&was.node, CoreNode::Read(b) if is_old_source(old, new, places, *a, *b))
        }
        CoreNode::Row(a) => matches!(&was.node, CoreNode::Row(b) if a == b),
        CoreNode::Item => matches!(&was.node, CoreNode::Item),
        CoreNode::Caught => matches!(&was.node, CoreNode::Caught),
        CoreNode::Dot(_, a) => matches!(&was.node, CoreNode::Dot(_, b) if a.is(b)),
        CoreNode::Call(a, _) =>
            matches!(&was.node, CoreNode::Call(b, _) if is_same_function(*a, *b)),
        CoreNode::Over(a, _, _) =>
            matches!(&was.node, CoreNode::Over(b, _, _) if is_same_function(*a, *b)),
        CoreNode::With(_, _) => matches!(&was.node, CoreNode::With(_, _)),
        CoreNode::Rec(a) => matches!(&was.node, CoreNode::Rec(b) if have_same_names(a, b)),
        CoreNode::List(a, _) => matches!(&was.node, CoreNode::List(b, _) if is_same_type(a, b)),
        CoreNode::All(_) => matches!(&was.node, CoreNode::All(_)),
        CoreNode::Any(_) => matches!(&was.node, CoreNode::Any(_)),
        CoreNode::If(_) => matches!(&was.node, CoreNode::If(_)),
        CoreNode::Switch(_) => matches!(&was.node, CoreNode::Switch(_)),
        CoreNode::IfError(_) => matches!(&was.node, CoreNode::IfError(_)),
        CoreNode::Coerce(_, a) => matches!(&was.node, CoreNode::Coerce(_, b) if is_same_type(a, b)),
        CoreNode::Chain(_) => matches!(&was.node, CoreNode::Chain(_)),
        CoreNode::User(a, _) => matches!(&was.node, CoreNode::User(b, _) if a == b),
        CoreNode::Act(_, _) => false,
    }
}

// The tree at a place among trees, counted from 0.
fn listed_part(parts: &CoreArgs, place: usize) -> Option<&Core>
    ensures { MatchOption result (subtree_at (all parts.now) place ≡ None)
        (λ t. subtree_at (all parts.now) place ≡ Some t.now) }
{
    parts.get(place)
}

// The same among fields.
#[tactic(auto, using(crate::proofs::Parts::field_found, crate::proofs::Parts::field_end))]
fn field_part(fields: &CoreFields, place: usize) -> Option<&Core>
    ensures { MatchOption result (subtree_at (parts_of_fields fields.now) place ≡ None)
        (λ t. subtree_at (parts_of_fields fields.now) place ≡ Some t.now) }
{
    match fields.get(place) {
        Some((_, part)) => Some(part),
        None => None,
    }
}

// The same of a tree alone.
fn only_part(part: &Core, place: usize) -> Option<&Core>
    ensures { MatchOption result (subtree_at (cons part.now nil) place ≡ None)
        (λ t. subtree_at (cons part.now nil) place ≡ Some t.now) }
{
    if place == 0 { Some(part) } else { None }
}

// The same of two trees.
fn either_part<'a>(first: &'a Core, second: &'a Core, place: usize) -> Option<&'a Core>
    ensures { MatchOption result (subtree_at (cons first.now (cons second.now nil)) place ≡ None)
        (λ t. subtree_at (cons first.now (cons second.now nil)) place ≡ Some t.now) }
{
    if place == 0 {
        Some(first)
    } else {
        only_part(second, place - 1)
    }
}

// The same of a tree before others.
fn headed_part<'a>(head: &'a Core, parts: &'a CoreArgs, place: usize) -> Option<&'a Core>
    ensures { MatchOption result (subtree_at (cons head.now (all parts.now)) place ≡ None)
        (λ t. subtree_at (cons head.now (all parts.now)) place ≡ Some t.now) }
{
    if place == 0 {
        Some(head)
    } else {
        listed_part(parts, place - 1)
    }
}

// The tree at a place under another.
fn part(tree: &Core, place: usize) -> Option<&Core>
    ensures { MatchOption result (subtree_at (subtrees tree.now) place ≡ None)
        (λ t. subtree_at (subtrees tree.now) place ≡ Some t.now) }
{
    match &tree.node {
        CoreNode::Const(_)
        | CoreNode::Read(_)
        | CoreNode::Row(_)
        | CoreNode::Item
        | CoreNode::Caught => None,
        CoreNode::Dot(part, _) | CoreNode::Coerce(part, _) => only_part(part, place),
        CoreNode::Over(_, table, parts) => headed_part(table, parts, place),
        CoreNode::With(record, formula) => either_part(record, formula, place),
        CoreNode::Rec(fields) => field_part(fields, place),
        CoreNode::Call(_, parts)
        | CoreNode::User(_, parts)
        | CoreNode::List(_, parts)
        | CoreNode::All(parts)
        | CoreNode::Any(parts)
        | CoreNode::If(parts)
        | CoreNode::Switch(parts)
        | CoreNode::IfError(parts)
        | CoreNode::Chain(parts)
        | CoreNode::Act(_, parts) => listed_part(parts, place),
    }
}

// A place after which no tree stands under another.
#[tactic(auto, using(crate::proofs::Parts::past_none, crate::proofs::Parts::past_one, crate::proofs::Parts::past_two, crate::proofs::Parts::past_listed, crate::proofs::Parts::past_headed, crate::proofs::Parts::past_fields))]
fn last_place(tree: &Core) -> usize
    ensures { IsPast result (subtrees tree.now) }
{
    match &tree.node {
        CoreNode::Const(_)
        | CoreNode::Read(_)
        | CoreNode::Row(_)
        | CoreNode::Item
        | CoreNode::Caught
        | CoreNode::Dot(_, _)
        | CoreNode::Coerce(_, _) => 0,
        CoreNode::With(_, _) => 1,
        CoreNode::Rec(fields) => fields.len(),
        CoreNode::Call(_, parts)
        | CoreNode::User(_, parts)
        | CoreNode::Over(_, _, parts)
        | CoreNode::List(_, parts)
        | CoreNode::All(parts)
        | CoreNode::Any(parts)
        | CoreNode::If(parts)
        | CoreNode::Switch(parts)
        | CoreNode::IfError(parts)
        | CoreNode::Chain(parts)
        | CoreNode::Act(_, parts) => parts.len(),
    }
}

/// Whether a tree of an edited app is this one of before, the sources by their names. None is that
/// acts.
#[cycle(is_old_tree)]
pub(crate) fn is_old_tree(
    old: &App,
    new: &App,
    places: &[Option<usize>],
    tree: &Core,
    was: &Core,
) -> bool
    requires { AreOldPlaces old.now new.now places.now }
    ensures { IsTrue result ↔ IsOldTree (IsOldSource old.now new.now) tree.now was.now }
{
    if !is_old_top(old, new, places, tree, was) {
        return false;
    }
    let last = last_place(tree).max(last_place(was));
    for place in 0..=last {
        if !is_old_part(old, new, places, tree, was, place) {
            return false;
        }
    }
    true
}

// Whether the tree at a place under another is the one there before, or none is there.
#[cycle(is_old_tree)]
fn is_old_part(
    old: &App,
    new: &App,
    places: &[Option<usize>],
    tree: &Core,
    was: &Core,
    place: usize,
) -> bool
    requires { AreOldPlaces old.now new.now places.now }
    ensures { IsTrue result ↔ IsOldPart (IsOldSource old.now new.now)
        (subtree_at (subtrees tree.now) place) (subtree_at (subtrees was.now) place) }
{
    match (part(tree, place), part(was, place)) {
        (Some(one), Some(other)) => is_old_tree(old, new, places, one, other),
        (None, None) => true,
        _ => false,
    }
}
