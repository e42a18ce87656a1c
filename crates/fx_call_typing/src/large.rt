//! Variables and collections of types that pass the limits.
ghost use Rattle.std.specs.Prelude.{◌≡◌, map, option_map};
ghost use Rattle.fx_types.specs.TypeView.{shape};
ghost use Rattle.fx_typing.specs.Breaks as breaks;
ghost use Rattle.fx_core.specs.Lawful.{IsLawful};
ghost use Rattle.fx_resolve.specs.PartView.{judged_part};

use fx_core::functions::Acting;
use fx_core::names::{Collection, Names, Variable};
use fx_node_typing::limits::is_bounded;
use fx_resolve::Part;
use fx_resolve::targets::{find_collection, global_variable, screen_variable};
use fx_types::types::Ty;
use fx_types::words::Words;

// A type that passes the limits.
fn too_large<'n>(ty: &'n Ty) -> Option<&'n Ty>
    ensures { option_map (λ t. shape t.now) result ≡ breaks.too_large (shape ty.now) }
{
    if is_bounded(ty) {
        return None;
    }
    Some(ty)
}

// The type of a variable, if it passes the limits.
fn large_variable<'n>(found: Option<(u32, &'n Variable)>) -> Option<&'n Ty>
    ensures { option_map (λ t. shape t.now) result
        ≡ breaks.large_variable (option_map (λ e. (e.0, e.1.now)) found.entry) }
{
    match found {
        Some((_, variable)) => too_large(&variable.ty),
        None => None,
    }
}

// The type of a collection, if it passes the limits.
fn large_collection<'n>(found: Option<(u32, &'n Collection)>) -> Option<&'n Ty>
    ensures { option_map (λ t. shape t.now) result
        ≡ breaks.large_collection (option_map (λ e. (e.0, e.1.now)) found.entry) }
{
    match found {
        Some((_, collection)) => too_large(&collection.ty),
        None => None,
    }
}

// The first type that passes the limits, of the variables of these names of a screen.
fn large_on_screen<'n>(names: &'n Names, screen: Option<u32>, variables: &[Words]) -> Option<&'n Ty>
    requires { IsLawful names.now }
    ensures { option_map (λ t. shape t.now) result
        ≡ breaks.large_on_screen names.now screen variables.now }
{
    for name in variables {
        if let Some(ty) = large_variable(screen_variable(names, screen, name)) {
            return Some(ty);
        }
    }
    None
}

/// The first type that passes the limits, of the variables or the collection that an acting call
/// gives a value.
pub fn first_large_type<'n>(
    names: &'n Names,
    screen: Option<u32>,
    acting: Acting,
    all: &[Part],
) -> Option<&'n Ty>
    requires { IsLawful names.now }
    ensures { option_map (λ t. shape t.now) result
        ≡ breaks.large_given names.now screen acting (map judged_part all.now) }
{
    match (acting, all.first()) {
        (Acting::Set, Some(Part::Target(_, name))) => large_variable(global_variable(names, name)),
        (Acting::UpdateContext, Some(Part::Assigned(variables, _))) => {
            large_on_screen(names, screen, variables.as_slice())
        }
        (Acting::Collect | Acting::ClearCollect, Some(Part::Target(_, name))) => {
            large_collection(find_collection(names, name))
        }
        _ => None,
    }
}
