//! The types that a round gives and changes.
ghost use Rattle.std.specs.Prelude.{◌≡◌, IfOk, map, replicate};
ghost use Rattle.fx_types.specs.TypeView.{shape};
ghost use Rattle.fx_types.specs.Types.{blanks};
ghost use Rattle.fx_typing.specs.Rounds as rounds;
ghost use Rattle.fx_infer.specs.SameTypes.{same_shapes, same_types};
ghost use Rattle.fx_infer.specs.TypesView.{types_view};

use crate::typed_names::TypedName;
use fx_base::Memory;
use fx_core::names::Names;
use fx_types::types::Ty;
use fx_typing::ways::same_shape;
use std::alloc::Global;

/// The types of all variables, collections, named formulas and controls' items, each in app order.
#[derive(Drop)]
pub struct Types {
    pub variables: Vec<Ty>,
    pub collections: Vec<Ty>,
    pub formulas: Vec<Ty>,
    pub items: Vec<Ty>,
}

// So many types that are Blank.
fn blank_types(alloc: Global, count: usize) -> Result<Vec<Ty>, Memory>
    ensures { IfOk result (λ ts. map shape ts.items ≡ replicate count blanks) }
{
    let mut types = Vec::new(alloc);
    for _ in 0..count {
        types.push(Ty::Blank)?;
    }
    Ok(types)
}

/// The types before the first round: all are Blank.
pub fn first_types(alloc: Global, names: &Names) -> Result<Types, Memory>
    ensures { IfOk result (λ ts. types_view ts ≡ rounds.first_types names.now) }
{
    Ok(Types {
        variables: blank_types(alloc, names.variables.len())?,
        collections: blank_types(alloc, names.collections.len())?,
        formulas: blank_types(alloc, names.formulas.len())?,
        items: blank_types(alloc, names.controls.len())?,
    })
}

// Whether these are the types of the things.
fn have_types<T: TypedName>(things: &[T], types: &[Ty]) -> bool
    ensures { result ≡ same_shapes (map shape types.now) (map T.type_of things.now) }
{
    let mut things = things;
    let mut types = types;
    while let ([thing, ..], [ty, ..]) = (things, types) {
        if !same_shape(ty, thing.ty()) {
            return false;
        }
        things = &things[1..];
        types = &types[1..];
    }
    things.is_empty() && types.is_empty()
}

/// Whether these are the types that the names have.
pub fn are_types_of(types: &Types, names: &Names) -> bool
    ensures { result ≡ same_types (types_view types.now) (rounds.types_in names.now) }
{
    have_types(names.variables.as_slice(), &types.variables)
        && have_types(names.collections.as_slice(), &types.collections)
        && have_types(names.formulas.as_slice(), &types.formulas)
        && have_types(names.controls.as_slice(), &types.items)
}
