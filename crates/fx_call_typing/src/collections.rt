//! Rows that are put in collections by name.
ghost use Rattle.std.specs.Prelude.{◌≡◌, map, if◌then◌else◌};
ghost use Rattle.fx_core.specs.declared.deeds.Deed.TheVariants as deed;
ghost use Rattle.fx_typing.specs.Deeds as deeds;
ghost use Rattle.fx_core.specs.Lawful.{IsLawful};
ghost use Rattle.fx_typing.specs.Answers.{IsAnswerOf};
ghost use Rattle.fx_typing.specs.TypedView.{typed};
ghost use Rattle.fx_resolve.specs.PartView.{judged_part};

use crate::gathering::{collect_deed, rows_for};
use crate::values::values;
use fx_core::deeds::Deed;
use fx_core::names::{Collection, Names};
use fx_core::{CoreArgs, Rule};
use fx_node_typing::given::{do_nothing, perform};
use fx_node_typing::lists::cores_of;
use fx_resolve::Part;
use fx_resolve::targets::find_collection;
use fx_types::types::Ty;
use fx_types::words::Words;
use fx_typing::typed::Typed;
use fx_typing::wrong::Wrong;
use std::alloc::Global;

// `Collect`, or `ClearCollect`, which clears, to this collection, whose number this is.
fn collect_to(
    alloc: Global,
    clears: bool,
    number: u32,
    collection: &Collection,
    values: Vec<Typed>,
) -> Result<Typed, Wrong>
    ensures { IsAnswerOf typed (deeds.collect_to
        (if clears then deed.ClearCollect else deed.Collect)
        (number, collection.now) (map typed values.items)) result }
{
    if values.is_empty() {
        return Err(Wrong::Refused(Rule::WrongCount));
    }
    let rows = rows_for(alloc, &collection.ty, values)?;
    Ok(perform(collect_deed(clears, number), cores_of(alloc, rows)?))
}

/// `Collect`, or `ClearCollect`, which clears: a collection and values.
pub fn collect_of(
    alloc: Global,
    clears: bool,
    names: &Names,
    name: &Words,
    parts: Vec<Part>,
) -> Result<Typed, Wrong>
    requires { IsLawful names.now }
    ensures { IsAnswerOf typed (deeds.collect_of
        (if clears then deed.ClearCollect else deed.Collect)
        names.now name.now (map judged_part parts.entry.items)) result }
{
    let values = values(alloc, parts)?;
    match find_collection(names, name) {
        Some((number, collection)) => collect_to(alloc, clears, number, collection, values),
        None => Err(Wrong::Refused(Rule::NotAVariable)),
    }
}

/// `Clear`: a collection.
pub fn clear_of(
    alloc: Global,
    names: &Names,
    name: &Words,
    parts: Vec<Part>,
) -> Result<Typed, Wrong>
    requires { IsLawful names.now }
    ensures { IsAnswerOf typed (deeds.clear_of names.now name.now
        (map judged_part parts.entry.items)) result }
{
    let Some((number, collection)) = find_collection(names, name) else {
        return Err(Wrong::Refused(Rule::NotAVariable));
    };
    match &collection.ty {
        Ty::Tab(_) => Ok(perform(Deed::Clear(number), CoreArgs::new(alloc))),
        // A collection of type Blank is a table without columns and rows.
        Ty::Blank => Ok(do_nothing(alloc)),
        _ => Err(Wrong::Refused(Rule::WrongType)),
    }
}
