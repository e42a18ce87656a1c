//! Records made of their fields.
ghost use Rattle.std.specs.Prelude.{◌≡◌, IfOk, OnOk, length, map};
ghost use Rattle.fx_types.specs.Rising.{AreNamesRising};
ghost use Rattle.fx_types.specs.TypeView.{shape};
ghost use Rattle.fx_typing.specs.Builds as builds;
ghost use Rattle.fx_typing.specs.Columns as columns;
ghost use Rattle.fx_core.specs.ColumnLists as lists;
ghost use Rattle.fx_typing.specs.Answers.{IsAnswerOf};
ghost use Rattle.fx_typing.specs.TypedView.{typed};
ghost use Rattle.fx_node_typing.specs.Fields.{field_view, field_index};

use crate::limits::check_limits;
use fx_base::Memory;
use fx_core::{CoreFields, Rule, make_core};
use fx_types::types::{Columns, Ty};
use fx_types::words::Words;
use fx_typing::columns::put_column;
use fx_typing::typed::Typed;
use fx_typing::wrong::Wrong;
use std::alloc::Global;
use std::cmp::Ordering;

/// Whether a name is one of these.
pub fn is_one_of(name: &Words, names: &[Words]) -> bool
    ensures { result ≡ lists.is_one_of name.now names.now }
{
    for other in names {
        if other.is(name) {
            return true;
        }
    }
    false
}

/// Whether no name stands twice.
pub fn are_distinct(names: &[Words]) -> bool
    ensures { result ≡ builds.are_names_distinct names.now }
{
    for (place, name) in names.iter().enumerate() {
        if is_one_of(name, &names[place + 1..]) {
            return false;
        }
    }
    true
}

// The place of a name among fields: where it is, or where it would stand.
fn place_of(name: &Words, fields: &[(Words, Typed)]) -> Result<usize, usize>
    ensures { result ≡ field_index name.now fields.now }
{
    for (place, (other, _)) in fields.iter().enumerate() {
        match name.compare(other) {
            Ordering::Less => return Err(place),
            Ordering::Equal => return Ok(place),
            Ordering::Greater => {}
        }
    }
    Err(fields.len())
}

// Puts a field at its place among rising ones, instead of one of its name.
fn put_field(fields: &mut Vec<(Words, Typed)>, name: Words, part: Typed) -> Result<(), Memory>
    ensures { OnOk result (map field_view fields.new.items
        ≡ builds.put_field name (typed part) (map field_view fields.old.items)) }
{
    match place_of(&name, fields.as_slice()) {
        Ok(place) => fields[place] = (name, part),
        Err(place) => fields.insert(place, (name, part))?,
    }
    Ok(())
}

// The fields by rising names, each once.
fn put_fields(
    alloc: Global,
    names: Vec<Words>,
    parts: Vec<Typed>,
) -> Result<Vec<(Words, Typed)>, Memory>
    ensures { IfOk result (λ fs. map field_view fs.items
        ≡ builds.put_fields names.items (map typed parts.items)) }
{
    let mut names = names;
    let mut parts = parts;
    // As many as there are of both, and from the last on, as the definition puts them.
    names.truncate(parts.len());
    parts.truncate(names.len());
    let mut fields = Vec::new(alloc);
    while let Some(part) = parts.pop()
        && let Some(name) = names.pop()
    {
        put_field(&mut fields, name, part)?;
    }
    Ok(fields)
}

// A record of fields with rising names.
fn record_by(alloc: Global, fields: Vec<(Words, Typed)>) -> Result<Typed, Memory>
    requires { AreNamesRising (map field_view fields.items) }
    ensures { IfOk result (λ t. typed t ≡ builds.record_by (map field_view fields.items)) }
{
    let mut parts = CoreFields::new(alloc);
    let mut columns = Vec::new(alloc);
    for (name, part) in fields {
        columns.push((name.copy(alloc)?, part.ty))?;
        parts.push(name, part.core)?;
    }
    Ok(Typed {
        core: make_core::record_of(parts),
        ty: Ty::Rec(Columns::from_rising(columns)),
    })
}

/// The type of the record of these parts under these names, of which each stands once.
pub fn record_type(alloc: Global, names: &[Words], parts: &[Typed]) -> Result<Ty, Memory>
    ensures { IfOk result (λ t. shape t ≡ (builds.record_by
        (builds.put_fields names.now (map typed parts.now))).1) }
{
    let mut columns = Columns::new(alloc);
    // From the last on: of two fields of one name the first would stay.
    let mut place = names.len().min(parts.len());
    while place > 0 {
        place -= 1;
        let name = names[place].copy(alloc)?;
        let ty = parts[place].ty.copy(alloc)?;
        columns = put_column(name, ty, columns)?;
    }
    Ok(Ty::Rec(columns))
}

/// A record of these parts under these names, or the rule `NameTwice` or `LimitPassed`.
pub fn record_of(alloc: Global, names: Vec<Words>, parts: Vec<Typed>) -> Result<Typed, Wrong>
    ensures { IsAnswerOf typed (builds.typed_record names.items (map typed parts.items)) result }
{
    if !are_distinct(names.as_slice()) {
        return Err(Wrong::Refused(Rule::NameTwice));
    }
    let fields = put_fields(alloc, names, parts)?;
    check_limits(record_by(alloc, fields)?)
}
