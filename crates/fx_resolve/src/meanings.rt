//! What the names of a formula mean.
ghost use Rattle.std.specs.Prelude.{◌≡◌, ◌<◌, Bool, IfOk, List, bytes_eq, length, option_map};
ghost use Rattle.std.specs.Str.{IsAscii};
ghost use Rattle.fx_types.specs.TypeView.{shape};
ghost use Rattle.fx_core.specs.Lawful.{IsLawful};
ghost use Rattle.fx_core.specs.Term.{nil, of};
ghost use Rattle.fx_core.specs.Term as top;
ghost use Rattle.fx_typing.specs.Meaning as sought;
ghost use Rattle.fx_typing.specs.Answers.{IsAnswerOf};
ghost use Rattle.fx_typing.specs.TypedView.{typed};
ghost use Rattle.fx_resolve.specs.MeaningView.{as_valued, in_formulas, meaning_view, place_view};
ghost use Rattle.fx_resolve.specs.ReservedView.{reserved_meaning};

use crate::scoped::{in_scopes, this_record};
use crate::scopes::Scopes;
use crate::tables::{columns_of, item_type};
use crate::targets::{
    find_collection, find_control, find_screen, find_table, global_variable, screen_variable,
};
use fx_base::Memory;
use fx_core::literals::{Enumeration, enumeration_of};
use fx_core::names::{ControlName, Names};
use fx_core::sources::Source;
use fx_core::{Rule, make_core};
use fx_types::types::Ty;
use fx_types::words::Words;
use fx_typing::columns::fault_type;
use fx_typing::{Typed, Wrong};
use std::alloc::Global;

/// Where a formula stands.
#[derive(Clone, Copy)]
pub struct Place<'a> {
    /// What its app names.
    pub names: &'a Names,
    /// The number of its screen.
    pub screen: Option<u32>,
    /// The number of the gallery whose item it sees.
    pub gallery: Option<u32>,
    /// Whether the types of variables and collections are settled: until then no value is of a
    /// wrong type for one.
    pub settled: bool,
}

/// What a name means.
#[derive(Drop)]
pub enum Meaning<'a> {
    /// A value.
    Valued(Typed),
    /// A control, with its number.
    Controlled(u32, &'a ControlName),
    /// A screen.
    Screened,
    /// An enumeration.
    Enumerated(Enumeration),
}

/// A name that no app declares.
#[derive(Clone, Copy)]
enum Reserved {
    ThisRecord,
    ThisItem,
    FirstError,
    Enumeration(Enumeration),
}

// What a source holds.
fn read_as(alloc: Global, source: Source, ty: &Ty) -> Result<Typed, Memory>
    ensures { IfOk result (λ t. typed t ≡ (of (top.read source) nil, shape ty.now)) }
{
    Ok(Typed {
        core: make_core::read(source),
        ty: ty.copy(alloc)?,
    })
}

// `ThisItem`: the item of the gallery that the formula sees.
fn this_item(alloc: Global, names: &Names, gallery: Option<u32>) -> Result<Option<Typed>, Memory>
    ensures { IfOk result (λ t. option_map as_valued t ≡ sought.this_item names.now gallery) }
{
    let Some(number) = gallery else {
        return Ok(None);
    };
    match names.controls.get(number as usize) {
        Some(control) => Ok(Some(Typed {
            core: make_core::item(),
            ty: item_type(alloc, control)?,
        })),
        None => Ok(None),
    }
}

// `FirstError`: the error that is caught around.
fn first_error(alloc: Global, catches: bool) -> Result<Option<Typed>, Memory>
    ensures { IfOk result (λ t. option_map as_valued t ≡ sought.first_error catches) }
{
    if !catches {
        return Ok(None);
    }
    Ok(Some(Typed {
        core: make_core::caught_error(),
        ty: fault_type(alloc)?,
    }))
}

// Whether a name is this word of ASCII characters.
fn is_word(name: &Words, word: &str) -> bool
    requires { IsAscii word.now }
    ensures { result ≡ bytes_eq name.now word.now }
{
    name.as_str() == word
}

// The reserved name that this is.
fn reserved_name(name: &Words) -> Option<Reserved>
    ensures { (p : sought.Place) → (ss : List sought.Scope) → (catches : Bool)
        → option_map (reserved_meaning p ss catches) result
        ≡ sought.reserved p ss catches name.now }
{
    if is_word(name, "ThisRecord") {
        Some(Reserved::ThisRecord)
    } else if is_word(name, "ThisItem") {
        Some(Reserved::ThisItem)
    } else if is_word(name, "FirstError") {
        Some(Reserved::FirstError)
    } else {
        enumeration_of(name.as_str()).map(Reserved::Enumeration)
    }
}

// What a reserved name means.
fn reserved_meaning<'a>(
    alloc: Global,
    at: &Place<'a>,
    scopes: &Scopes,
    catches: bool,
    reserved: Reserved,
) -> Result<Option<Meaning<'a>>, Memory>
    requires { length scopes.now < 256 }
    ensures { IfOk result (λ m. option_map meaning_view m
        ≡ reserved_meaning (place_view at.now) scopes.now catches reserved) }
{
    let found = match reserved {
        Reserved::ThisRecord => this_record(alloc, scopes)?,
        Reserved::ThisItem => this_item(alloc, at.names, at.gallery)?,
        Reserved::FirstError => first_error(alloc, catches)?,
        Reserved::Enumeration(enumeration) => {
            return Ok(Some(Meaning::Enumerated(enumeration)));
        }
    };
    Ok(match found {
        Some(found) => Some(Meaning::Valued(found)),
        None => None,
    })
}

// A name among the context variables of the formula's screen.
fn in_context(alloc: Global, at: &Place, name: &Words) -> Result<Option<Typed>, Memory>
    requires { IsLawful at.now.names.now }
    ensures { IfOk result (λ t. option_map as_valued t
        ≡ sought.in_context (place_view at.now) name.now) }
{
    match screen_variable(at.names, at.screen, name) {
        Some((number, variable)) => {
            let found = read_as(alloc, Source::Context(number), &variable.ty)?;
            Ok(Some(found))
        }
        None => Ok(None),
    }
}

// A name among the named formulas.
fn in_formulas(alloc: Global, names: &Names, name: &Words) -> Result<Option<Typed>, Memory>
    ensures { IfOk result (λ t. option_map as_valued t ≡ in_formulas names.now.formulas name.now) }
{
    match names.formulas.find(name) {
        Some(formula) => {
            let found = read_as(alloc, Source::Cell(formula.cell), &formula.ty)?;
            Ok(Some(found))
        }
        None => Ok(None),
    }
}

/// What a name means among the global ones, which are distinct.
pub fn in_globals<'a>(
    alloc: Global,
    names: &'a Names,
    name: &Words,
) -> Result<Option<Meaning<'a>>, Memory>
    requires { IsLawful names.now }
    ensures { IfOk result (λ m. option_map meaning_view m ≡ sought.in_globals names.now name.now) }
{
    if let Some((number, variable)) = global_variable(names, name) {
        let found = read_as(alloc, Source::Global(number), &variable.ty)?;
        return Ok(Some(Meaning::Valued(found)));
    }
    if let Some((number, collection)) = find_collection(names, name) {
        let found = read_as(alloc, Source::Gathered(number), &collection.ty)?;
        return Ok(Some(Meaning::Valued(found)));
    }
    if let Some(found) = in_formulas(alloc, names, name)? {
        return Ok(Some(Meaning::Valued(found)));
    }
    if let Some((number, table)) = find_table(names, name) {
        let found = Typed {
            core: make_core::read(Source::Table(number as u16)),
            ty: Ty::Tab(columns_of(alloc, table)?),
        };
        return Ok(Some(Meaning::Valued(found)));
    }
    if let Some((number, control)) = find_control(names, name) {
        return Ok(Some(Meaning::Controlled(number, control)));
    }
    Ok(find_screen(names, name).map(|_| Meaning::Screened))
}

/// What a name means: in the scopes, as a reserved name, among the context variables of the screen,
/// among the global names.
pub fn meaning_of<'a>(
    alloc: Global,
    at: &Place<'a>,
    scopes: &Scopes,
    catches: bool,
    name: &Words,
) -> Result<Option<Meaning<'a>>, Memory>
    requires lawful { IsLawful at.now.names.now }
    requires shallow { length scopes.now < 256 }
    ensures { IfOk result (λ m. option_map meaning_view m
        ≡ sought.meaning_of (place_view at.now) scopes.now catches name.now) }
{
    if let Some(found) = in_scopes(alloc, name, scopes)? {
        return Ok(Some(Meaning::Valued(found)));
    }
    if let Some(reserved) = reserved_name(name) {
        return reserved_meaning(alloc, at, scopes, catches, reserved);
    }
    if let Some(found) = in_context(alloc, at, name)? {
        return Ok(Some(Meaning::Valued(found)));
    }
    in_globals(alloc, at.names, name)
}

/// A name as a formula of its own: `UnknownName` where it means nothing or an enumeration, and
/// `WrongType` where it is a control or a screen.
pub fn as_value(meaning: Option<Meaning>) -> Result<Typed, Wrong>
    ensures { IsAnswerOf typed (sought.named (option_map meaning_view meaning.entry)) result }
{
    match meaning {
        Some(Meaning::Valued(value)) => Ok(value),
        Some(Meaning::Controlled(_, _) | Meaning::Screened) => Err(Wrong::Refused(Rule::WrongType)),
        Some(Meaning::Enumerated(_)) | None => Err(Wrong::Refused(Rule::UnknownName)),
    }
}
