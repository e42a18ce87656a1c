//! Variables that are given values.
ghost use Rattle.std.specs.Prelude.{◌≡◌, ◌∷◌, ◌++◌, [], List, Result, Some, map, ℕ};
ghost use Rattle.fx_core.specs.declared.sources.Source.{Source as GivenSource};
ghost use Rattle.fx_typing.specs.Deeds as deeds;
ghost use Rattle.fx_typing.specs.Targets.{screen_variable};
ghost use Rattle.fx_typing.specs.Parts as parts;
ghost use Rattle.fx_core.specs.Lawful.{IsLawful};
ghost use Rattle.fx_core.specs.Term.{Term};
ghost use Rattle.fx_typing.specs.Answers.{IsAnswerOf};
ghost use Rattle.fx_typing.specs.TypedView.{typed};
ghost use Rattle.fx_resolve.specs.PartView.{judged_part};

use crate::values::values;
use fx_core::deeds::Deed;
use fx_core::names::{Names, Variable};
use fx_core::sources::Source;
use fx_core::{Core, Rule};
use fx_node_typing::arity::one;
use fx_node_typing::first_break::both;
use fx_node_typing::given::{alone, give, give_context, perform};
use fx_resolve::Part;
use fx_resolve::targets::{global_variable, screen_variable};
use fx_types::words::Words;
use fx_typing::typed::Typed;
use fx_typing::wrong::Wrong;
use std::alloc::Global;

// `Set` of this variable, whose number this is.
fn set_to(
    alloc: Global,
    number: u32,
    variable: &Variable,
    values: Vec<Typed>,
) -> Result<Typed, Wrong>
    ensures { IsAnswerOf typed (deeds.set_to (number, variable.now) (map typed values.items)) result }
{
    let Some(value) = one(values) else {
        return Err(Wrong::Refused(Rule::WrongCount));
    };
    let value = give(alloc, &variable.ty, value)?;
    Ok(perform(Deed::Set(number), alone(alloc, value.core)?))
}

/// `Set`: a global variable and its value.
pub fn set_of(alloc: Global, names: &Names, name: &Words, parts: Vec<Part>) -> Result<Typed, Wrong>
    requires { IsLawful names.now }
    ensures { IsAnswerOf typed (deeds.set_of names.now name.now (map judged_part parts.entry.items))
        result }
{
    let values = values(alloc, parts)?;
    match global_variable(names, name) {
        Some((number, variable)) => set_to(alloc, number, variable, values),
        None => Err(Wrong::Refused(Rule::NotAVariable)),
    }
}

// The variable of this name of a screen, with its value.
fn give_one(
    alloc: Global,
    names: &Names,
    screen: Option<u32>,
    name: &Words,
    value: Typed,
) -> Result<(Source, Core), Wrong>
    requires { IsLawful names.now }
    ensures { IsAnswerOf (λ g. g) (deeds.give_one (screen_variable names.now screen name.now)
        (typed value)) result }
{
    let Some((number, variable)) = screen_variable(names, screen, name) else {
        return Err(Wrong::Refused(Rule::NotAVariable));
    };
    let value = give(alloc, &variable.ty, value)?;
    Ok((Source::Context(number), value.core))
}

// One variable more with its value, or the lowest rule that is broken.
fn keep(
    kept: Result<Vec<(Source, Core)>, Wrong>,
    next: Result<(Source, Core), Wrong>,
) -> Result<Vec<(Source, Core)>, Wrong>
    ensures { (p : Result (List (GivenSource × Term)) ℕ) (q : Result (GivenSource × Term) ℕ)
        → IsAnswerOf (λ gs. gs.items) p kept → IsAnswerOf (λ g. g) q next
        → IsAnswerOf (λ gs. gs.items) (parts.lowest (λ gs g. gs ++ g ∷ []) p q) result }
{
    let (mut all, last) = both(kept, next)?;
    all.push(last)?;
    Ok(all)
}

// The variables of these names of a screen, with their values, or the lowest rule that one breaks.
fn give_all(
    alloc: Global,
    names: &Names,
    screen: Option<u32>,
    variables: Vec<Words>,
    values: Vec<Typed>,
) -> Result<Vec<(Source, Core)>, Wrong>
    requires { IsLawful names.now }
    ensures { IsAnswerOf (λ gs. gs.items) (deeds.give_all names.now screen variables.items
        (map typed values.items)) result }
{
    let mut given = Ok(Vec::new(alloc));
    let mut left = values.into_iter();
    for name in variables {
        let Some(value) = left.next() else {
            return given;
        };
        given = keep(given, give_one(alloc, names, screen, &name, value));
    }
    given
}

// `UpdateContext` of this part, on this screen.
fn update_by(alloc: Global, names: &Names, screen: u32, assigned: Part) -> Result<Typed, Wrong>
    requires { IsLawful names.now }
    ensures { IsAnswerOf typed (deeds.update_of names.now (Some screen)
        (judged_part assigned.entry ∷ [])) result }
{
    match assigned {
        Part::Assigned(variables, values) => {
            let given = give_all(alloc, names, Some(screen), variables, values)?;
            Ok(give_context(alloc, given)?)
        }
        _ => Err(Wrong::Refused(Rule::NotAVariable)),
    }
}

/// `UpdateContext`: variables of the formula's screen and their values.
pub fn update_of(
    alloc: Global,
    names: &Names,
    screen: Option<u32>,
    parts: Vec<Part>,
) -> Result<Typed, Wrong>
    requires { IsLawful names.now }
    ensures { IsAnswerOf typed (deeds.update_of names.now screen
        (map judged_part parts.entry.items)) result }
{
    let Some(screen) = screen else {
        return Err(Wrong::Refused(Rule::NotAVariable));
    };
    match one(parts) {
        Some(assigned) => update_by(alloc, names, screen, assigned),
        None => Err(Wrong::Refused(Rule::NotAVariable)),
    }
}
