//! Acting calls.
ghost use Rattle.std.specs.Prelude.{◌≡◌, Result, false, map, ℕ};
ghost use Rattle.fx_types.specs.Types.{Shape};
ghost use Rattle.fx_typing.specs.Deeds as deeds;
ghost use Rattle.fx_core.specs.Lawful.{IsLawful};
ghost use Rattle.fx_core.specs.Term.{Term};
ghost use Rattle.fx_typing.specs.Answers.{IsAnswerOf};
ghost use Rattle.fx_typing.specs.TypedView.{typed};
ghost use Rattle.fx_resolve.specs.PartView.{judged_part};
ghost use Rattle.fx_call_typing.specs.Acts.{is_by_name, named_call};

use crate::collections::{clear_of, collect_of};
use crate::filtering::{remove_if, update_if};
use crate::rows::{patch_of, remove_of};
use crate::values::{take_name, values};
use crate::variables::{set_of, update_of};
use fx_core::controls::input_ty;
use fx_core::deeds::Deed;
use fx_core::functions::Acting;
use fx_core::names::Names;
use fx_core::{CoreArgs, Rule};
use fx_node_typing::arity::one;
use fx_node_typing::given::{alone, do_nothing, perform};
use fx_node_typing::lists::come_to;
use fx_resolve::Part;
use fx_resolve::targets::{find_control, find_screen};
use fx_types::types::Ty;
use fx_types::words::Words;
use fx_typing::typed::Typed;
use fx_typing::wrong::Wrong;
use std::alloc::Global;

// `Navigate`: a screen.
fn navigate_of(alloc: Global, names: &Names, name: &Words, parts: Vec<Part>) -> Result<Typed, Wrong>
    requires { IsLawful names.now }
    ensures { IsAnswerOf typed (deeds.navigate_of names.now name.now
        (map judged_part parts.entry.items)) result }
{
    let Some((number, _)) = find_screen(names, name) else {
        return Err(Wrong::Refused(Rule::NotAVariable));
    };
    Ok(perform(Deed::Navigate(number), CoreArgs::new(alloc)))
}

// `Notify`: a text.
fn notify_of(alloc: Global, values: Vec<Typed>) -> Result<Typed, Wrong>
    ensures { IsAnswerOf typed (deeds.notify_of (map typed values.items)) result }
{
    let Some(value) = one(values) else {
        return Err(Wrong::Refused(Rule::WrongCount));
    };
    let value = come_to(alloc, value, &Ty::Text)?;
    Ok(perform(Deed::Notify, alone(alloc, value.core)?))
}

// `Reset`: a control. Of one that takes no input nothing is reset.
fn reset_of(alloc: Global, names: &Names, name: &Words, parts: Vec<Part>) -> Result<Typed, Wrong>
    requires { IsLawful names.now }
    ensures { IsAnswerOf typed (deeds.reset_of names.now name.now
        (map judged_part parts.entry.items)) result }
{
    let Some((number, control)) = find_control(names, name) else {
        return Err(Wrong::Refused(Rule::NotAVariable));
    };
    if input_ty(control.kind).is_none() {
        return Ok(do_nothing(alloc));
    }
    Ok(perform(Deed::Reset(number), CoreArgs::new(alloc)))
}

// Whether the first part of an acting call is a name alone.
fn is_by_name(acting: Acting) -> bool
    ensures { result ≡ is_by_name acting }
{
    !matches!(
        acting,
        Acting::UpdateContext | Acting::RemoveIf | Acting::UpdateIf | Acting::Notify
    )
}

// An acting call of what has this name.
fn act_on(
    alloc: Global,
    names: &Names,
    acting: Acting,
    name: &Words,
    rest: Vec<Part>,
) -> Result<Typed, Wrong>
    requires { IsLawful names.now }
    ensures { IsAnswerOf typed (named_call names.now acting name.now
        (map judged_part rest.entry.items)) result }
{
    match acting {
        Acting::Set => set_of(alloc, names, name, rest),
        Acting::Collect => collect_of(alloc, false, names, name, rest),
        Acting::ClearCollect => collect_of(alloc, true, names, name, rest),
        Acting::Clear => clear_of(alloc, names, name, rest),
        Acting::Patch => patch_of(alloc, names, name, rest),
        Acting::Remove => remove_of(alloc, names, name, rest),
        Acting::Navigate => navigate_of(alloc, names, name, rest),
        Acting::Reset => reset_of(alloc, names, name, rest),
        _ => Err(Wrong::Refused(Rule::NotAVariable)),
    }
}

// An acting call whose first part is no name alone.
fn act_plainly(
    alloc: Global,
    names: &Names,
    screen: Option<u32>,
    acting: Acting,
    parts: Vec<Part>,
) -> Result<Typed, Wrong>
    requires lawful { IsLawful names.now }
    requires plain { is_by_name acting ≡ false }
    ensures { IsAnswerOf typed (deeds.acted names.now screen acting
        (map judged_part parts.entry.items)) result }
{
    match acting {
        Acting::UpdateContext => update_of(alloc, names, screen, parts),
        Acting::RemoveIf => remove_if(alloc, names, parts),
        Acting::UpdateIf => update_if(alloc, names, parts),
        Acting::Notify => notify_of(alloc, values(alloc, parts)?),
        _ => unreachable!(),
    }
}

/// An acting call on this screen, whose parts are as many as it takes, or the rule that is broken.
pub fn act(
    alloc: Global,
    names: &Names,
    screen: Option<u32>,
    acting: Acting,
    parts: Vec<Part>,
) -> Result<Typed, Wrong>
    requires { IsLawful names.now }
    ensures { IsAnswerOf typed (deeds.acted names.now screen acting
        (map judged_part parts.entry.items)) result }
{
    if !is_by_name(acting) {
        return act_plainly(alloc, names, screen, acting, parts);
    }
    let (name, rest) = take_name(parts)?;
    act_on(alloc, names, acting, &name, rest)
}

/// What an acting call comes to: until the types of variables and collections are settled, one that
/// gives a value of a wrong type is done, and changes nothing.
pub fn until_settled(
    alloc: Global,
    settled: bool,
    made: Result<Typed, Wrong>,
) -> Result<Typed, Wrong>
    ensures { (r : Result (Term × Shape) ℕ) → IsAnswerOf typed r made
        → IsAnswerOf typed (deeds.until_settled settled r) result }
{
    match made {
        Ok(value) => Ok(value),
        Err(Wrong::Refused(rule)) => {
            // By number, as the definition of typing has rules.
            if !settled && rule.number() == Rule::VariableTypes.number() {
                Ok(do_nothing(alloc))
            } else {
                Err(Wrong::Refused(rule))
            }
        }
        Err(Wrong::Memory) => Err(Wrong::Memory),
    }
}
