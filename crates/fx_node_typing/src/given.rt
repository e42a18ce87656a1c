//! Values that are given to variables.
ghost use Rattle.std.specs.Prelude.{◌≡◌, ◌∷◌, [], IfOk};
ghost use Rattle.fx_types.specs.TypeView.{shape};
ghost use Rattle.fx_typing.specs.Deeds as deeds;
ghost use Rattle.fx_typing.specs.Answers.{IsAnswerOf};
ghost use Rattle.fx_typing.specs.TypedView.{typed};

use crate::lists::come_to;
use fx_base::Memory;
use fx_core::deeds::{Deed, Sources};
use fx_core::sources::Source;
use fx_core::{Core, CoreArgs, Rule, make_core};
use fx_types::types::Ty;
use fx_typing::typed::Typed;
use fx_typing::ways::same_shape;
use fx_typing::wrong::Wrong;
use fx_value::joining::join;
use std::alloc::Global;

/// A deed, which answers true.
pub fn perform(deed: Deed, parts: CoreArgs) -> Typed
    ensures { typed result ≡ deeds.done_by deed parts }
{
    Typed {
        core: make_core::act(deed, parts),
        ty: Ty::Boolean,
    }
}

/// A deed that changes nothing.
pub fn do_nothing(alloc: Global) -> Typed
    ensures { typed result ≡ deeds.nothing_done }
{
    perform(
        Deed::UpdateContext(Sources::new(alloc)),
        CoreArgs::new(alloc),
    )
}

/// A tree alone.
pub fn alone(alloc: Global, core: Core) -> Result<CoreArgs, Memory>
    ensures { IfOk result (λ cs. cs ≡ core ∷ []) }
{
    let mut cores = CoreArgs::new(alloc);
    cores.push(core)?;
    Ok(cores)
}

/// Whether another type joins to exactly this one.
pub fn joins_to(alloc: Global, ty: &Ty, other: &Ty) -> Result<bool, Memory>
    ensures { IfOk result (λ b. b ≡ deeds.joins_to (shape ty.now) (shape other.now)) }
{
    match join(alloc, ty, other)? {
        Some(joined) => Ok(same_shape(&joined, ty)),
        None => Ok(false),
    }
}

/// A value that is given to a variable of this type, or the rule `VariableTypes`.
pub fn give(alloc: Global, ty: &Ty, value: Typed) -> Result<Typed, Wrong>
    ensures { IsAnswerOf typed (deeds.given_variable (shape ty.now) (typed value)) result }
{
    if !joins_to(alloc, ty, &value.ty)? {
        return Err(Wrong::Refused(Rule::VariableTypes));
    }
    come_to(alloc, value, ty)
}

/// The deed that gives variables of a screen their values.
pub fn give_context(alloc: Global, given: Vec<(Source, Core)>) -> Result<Typed, Memory>
    ensures { IfOk result (λ t. typed t
        ≡ deeds.done_by (Deed.UpdateContext (deeds.given_sources given.items))
        (deeds.given_terms given.items)) }
{
    let mut sources = Sources::new(alloc);
    let mut cores = CoreArgs::new(alloc);
    for (source, core) in given {
        sources.push(source)?;
        cores.push(core)?;
    }
    Ok(perform(Deed::UpdateContext(sources), cores))
}
