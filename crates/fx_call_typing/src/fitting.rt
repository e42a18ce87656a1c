//! Parts of a wrong type, and names of no variable, whatever else a call breaks.
ghost use Rattle.std.specs.Prelude.{◌≡◌, ◌∷◌, [], IfOk, codes, map, not};
ghost use Rattle.fx_types.specs.TypeView.{shape};
ghost use Rattle.fx_types.specs.Types.{column_list};
ghost use Rattle.fx_core.specs.declared.functions.Acting.TheVariants as acts;
ghost use Rattle.fx_core.specs.declared.functions.Fun.TheVariants as fun;
ghost use Rattle.fx_typing.specs.Breaks as breaks;
ghost use Rattle.fx_typing.specs.Parts as parts;
ghost use Rattle.fx_core.specs.Lawful.{IsLawful};
ghost use Rattle.fx_typing.specs.Columns.{is_told_or_missing};
ghost use Rattle.fx_core.specs.ColumnLists.{field_in};
ghost use Rattle.fx_typing.specs.Ways.{is_open, way};
ghost use Rattle.fx_resolve.specs.PartView.{judged_part};

use fx_base::Memory;
use fx_core::functions::{Acting, Fun};
use fx_core::names::Names;
use fx_resolve::Part;
use fx_resolve::targets::screen_variable;
use fx_types::types::{Columns, Ty};
use fx_types::words::Words;
use fx_typing::Piece;
use fx_typing::columns::field_in;
use fx_typing::ways::{Way, way_to};
use std::alloc::Global;

// Whether a type comes to another.
fn is_open(alloc: Global, from: &Ty, to: &Ty) -> Result<bool, Memory>
    ensures { IfOk result (λ b. b ≡ is_open (way (shape from.now) (shape to.now))) }
{
    match way_to(alloc, from, to)? {
        Way::Same | Way::Changed => Ok(true),
        Way::Refused => Ok(false),
    }
}

// The name of the field that tells of an error.
fn message_name(alloc: Global) -> Result<Words, Memory>
    ensures { IfOk result (λ w. w ≡ codes "Message") }
{
    Ok(Words::of(alloc, "Message")?)
}

// Whether fields have a `Message` that is no text.
fn has_no_text(alloc: Global, columns: &Columns) -> Result<bool, Memory>
    ensures { IfOk result (λ b. b ≡ not (is_told_or_missing
        (field_in (codes "Message") (column_list columns.now)))) }
{
    let message = message_name(alloc)?;
    match field_in(&message, columns) {
        Some(told) => Ok(!is_open(alloc, told, &Ty::Text)?),
        None => Ok(false),
    }
}

// Whether a part is a record with a `Message` that is no text.
fn tells_no_text(alloc: Global, one: &Part) -> Result<bool, Memory>
    ensures { IfOk result (λ b. b ≡ breaks.mistells fun.Error (judged_part one.now ∷ [])) }
{
    match one {
        Part::Piece(Piece::Value(_, value)) => match &value.ty {
            Ty::Rec(columns) => has_no_text(alloc, columns),
            _ => Ok(false),
        },
        _ => Ok(false),
    }
}

/// Whether an error is told with a `Message` that is no text.
pub fn mistells(alloc: Global, fun: Fun, all: &[Part]) -> Result<bool, Memory>
    ensures { IfOk result (λ b. b ≡ breaks.mistells fun (map judged_part all.now)) }
{
    match (fun, all) {
        (Fun::Error, [one]) => tells_no_text(alloc, one),
        _ => Ok(false),
    }
}

// Whether a part can be a row or a change.
fn could_be_row(one: &Part) -> bool
    ensures { result ≡ breaks.could_be_row (judged_part one.now) }
{
    match one {
        Part::Piece(Piece::Value(_, value)) => matches!(value.ty, Ty::Rec(_) | Ty::Blank),
        _ => false,
    }
}

// Whether all parts can be rows or changes.
fn could_be_rows(all: &[Part]) -> bool
    ensures { result ≡ breaks.all_could breaks.could_be_row (map judged_part all.now) }
{
    for one in all {
        if !could_be_row(one) {
            return false;
        }
    }
    true
}

// Whether a part can be a condition.
fn could_be_condition(alloc: Global, one: &Part) -> Result<bool, Memory>
    ensures { IfOk result (λ b. b ≡ breaks.could_be_condition (judged_part one.now)) }
{
    match one {
        Part::Piece(Piece::Value(_, value)) => is_open(alloc, &value.ty, &Ty::Boolean),
        _ => Ok(false),
    }
}

// Whether all parts can be conditions.
fn could_be_conditions(alloc: Global, all: &[Part]) -> Result<bool, Memory>
    ensures { IfOk result (λ b. b ≡ breaks.all_could breaks.could_be_condition
        (map judged_part all.now)) }
{
    for one in all {
        if !could_be_condition(alloc, one)? {
            return Ok(false);
        }
    }
    Ok(true)
}

// Whether parts can be a condition and changes.
fn could_update(alloc: Global, all: &[Part]) -> Result<bool, Memory>
    ensures { (q : parts.JudgedPart) → IfOk result
        (λ b. b ≡ breaks.could_act acts.UpdateIf (q ∷ map judged_part all.now)) }
{
    let Some((condition, changes)) = all.split_first() else {
        return Ok(true);
    };
    Ok(could_be_condition(alloc, condition)? && could_be_rows(changes))
}

/// Whether the parts of an acting call can be rows, conditions and changes, whatever it acts on.
pub fn could_act(alloc: Global, acting: Acting, all: &[Part]) -> Result<bool, Memory>
    ensures { IfOk result (λ b. b ≡ breaks.could_act acting (map judged_part all.now)) }
{
    let Some((_, others)) = all.split_first() else {
        return Ok(true);
    };
    match acting {
        Acting::Patch | Acting::Remove => Ok(could_be_rows(others)),
        Acting::RemoveIf => could_be_conditions(alloc, others),
        Acting::UpdateIf => could_update(alloc, others),
        _ => Ok(true),
    }
}

// Whether all names are of variables of a screen.
fn all_on_screen(names: &Names, screen: Option<u32>, variables: &[Words]) -> bool
    requires { IsLawful names.now }
    ensures { result ≡ breaks.all_on_screen names.now screen variables.now }
{
    for name in variables {
        if screen_variable(names, screen, name).is_none() {
            return false;
        }
    }
    true
}

/// Whether an acting call gives values of a screen's variables to what is a variable of this
/// screen.
pub fn gives_variables(names: &Names, screen: Option<u32>, acting: Acting, all: &[Part]) -> bool
    requires { IsLawful names.now }
    ensures { result ≡ breaks.gives_variables names.now screen acting (map judged_part all.now) }
{
    match (acting, all.first()) {
        (Acting::UpdateContext, Some(Part::Assigned(variables, _))) => {
            all_on_screen(names, screen, variables.as_slice())
        }
        _ => true,
    }
}
