//! What stands behind a dot.
ghost use Rattle.std.specs.Prelude.{◌≡◌, ◌&&◌, [], IfOk, Some, bytes_eq, encode_utf8_all};
ghost use Rattle.std.specs.Prelude.{if◌then◌else◌, nat_eq, pos};
ghost use Rattle.fx_types.specs.TypeView.{shape};
ghost use Rattle.fx_types.specs.Types.{column_list};
ghost use Rattle.fx_types.specs.ValueView.{view};
ghost use Rattle.fx_types.specs.Values.{text};
ghost use Rattle.fx_core.specs.Literals.{has_member};
ghost use Rattle.fx_core.specs.Controls.{input_type};
ghost use Rattle.fx_core.specs.Lawful.{IsLawful};
ghost use Rattle.fx_core.specs.SourceTypes.{property_of};
ghost use Rattle.fx_core.specs.declared.names.Property.{Property};
ghost use Rattle.fx_core.specs.ColumnLists.{field_in};
ghost use Rattle.fx_typing.specs.Meaning as sought;
ghost use Rattle.fx_typing.specs.Meaning.{first_match};
ghost use Rattle.fx_typing.specs.Answers.{IsAnswerOf};
ghost use Rattle.fx_typing.specs.TypedView.{typed};
ghost use Rattle.fx_resolve.specs.MeaningView.{meaning_view};

use crate::meanings::Meaning;
use crate::named::property_in;
use crate::tables::{item_type, property_type};
use fx_base::Memory;
use fx_core::controls::input_ty;
use fx_core::literals::Enumeration;
use fx_core::names::{ControlName, Names};
use fx_core::sources::Source;
use fx_core::{Core, Rule, make_core};
use fx_number::Num;
use fx_types::controls::Control;
use fx_types::types::{Columns, Ty};
use fx_types::values::{Rows, Value};
use fx_types::words::Words;
use fx_typing::columns::field_in;
use fx_typing::{Typed, Wrong};
use std::alloc::Global;

// A bound of a slider that says nothing of it: 100 at the top, 0 at the bottom.
fn bound_of(top: bool) -> Num
    ensures { result ≡ (if top then pos 1000000 else pos 0) }
{
    let units = if top { 1_000_000 } else { 0 };
    match Num::from_units(units) {
        Some(number) => number,
        None => unreachable!(),
    }
}

// The text without characters.
fn no_text(alloc: Global) -> Result<Value, Memory>
    ensures { IfOk result (λ v. view v ≡ text []) }
{
    Ok(Value::Text(Words::of(alloc, "")?))
}

// What a property other than `Visible` is where it isn't written.
fn own_default(alloc: Global, kind: Control, name: &str) -> Result<Value, Memory>
    ensures { IfOk result (λ v. view v ≡ sought.own_default kind name.now) }
{
    match kind {
        Control::Label | Control::Button => no_text(alloc),
        Control::Checkbox if name == "Text" => no_text(alloc),
        Control::Checkbox => Ok(Value::Boolean(false)),
        Control::Slider => Ok(Value::Number(bound_of(name == "Max"))),
        Control::TextInput | Control::DatePicker => Ok(Value::Blank),
        Control::Gallery => Ok(Value::Tab(Rows::new(alloc))),
    }
}

// What a property is where it isn't written.
fn default_of(alloc: Global, kind: Control, name: &str) -> Result<Value, Memory>
    ensures { IfOk result (λ v. view v ≡ sought.default_of kind name.now) }
{
    if name == "Visible" {
        return Ok(Value::Boolean(true));
    }
    own_default(alloc, kind, name)
}

// Whether a property tells what the user gave.
fn is_input(kind: Control, name: &str) -> bool
    ensures { result ≡ sought.is_input kind name.now }
{
    match kind {
        Control::TextInput => name == "Text",
        Control::Slider | Control::Checkbox => name == "Value",
        Control::DatePicker => name == "SelectedDate",
        Control::Label | Control::Button | Control::Gallery => false,
    }
}

// Whether a property tells which item the user chose.
fn is_chosen(kind: Control, name: &str) -> bool
    ensures { result ≡ sought.is_chosen kind name.now }
{
    kind == Control::Gallery && name == "Selected"
}

// The type of a property that isn't written: rows that aren't are a table without columns.
fn default_type(alloc: Global, kind: Control, name: &str, ty: Ty) -> Ty
    ensures { shape result ≡ sought.default_type kind name.now (shape ty) }
{
    if kind == Control::Gallery && name == "Items" {
        return Ty::Tab(Columns::new(alloc));
    }
    ty
}

// A written property is its cell, and another one its default.
fn cell_or_default(
    alloc: Global,
    names: &Names,
    number: u32,
    kind: Control,
    name: &Words,
    ty: Ty,
) -> Result<Typed, Memory>
    requires { IsLawful names.now }
    ensures { IfOk result (λ t. typed t ≡ sought.written_or kind name.now (shape ty)
        (first_match (λ (p : Property). nat_eq p.control number && bytes_eq p.name name.now) 0
        names.now.properties)) }
{
    if let Some((_, property)) = property_in(names.properties.as_slice(), number, name) {
        let core = make_core::read(Source::Cell(property.cell));
        return Ok(Typed { core, ty });
    }
    let core = make_core::constant(default_of(alloc, kind, name.as_str())?);
    let ty = default_type(alloc, kind, name.as_str(), ty);
    Ok(Typed { core, ty })
}

// A pure property of a control.
fn read_property(
    alloc: Global,
    names: &Names,
    number: u32,
    control: &ControlName,
    name: &Words,
) -> Result<Typed, Wrong>
    requires { IsLawful names.now }
    ensures { IsAnswerOf typed (sought.property_read names.now number control.now name.now
        (property_of name.now control.now)) result }
{
    match property_type(alloc, control, name)? {
        Some(ty) => {
            let found = cell_or_default(alloc, names, number, control.kind, name, ty)?;
            Ok(found)
        }
        None => Err(Wrong::Refused(Rule::UnknownColumn)),
    }
}

// What the user gave to a control.
fn read_input(number: u32, kind: Control) -> Result<Typed, Wrong>
    ensures { IsAnswerOf typed (sought.input_read number (input_type kind)) result }
{
    match input_ty(kind) {
        Some(ty) => Ok(Typed {
            core: make_core::read(Source::Input(number)),
            ty,
        }),
        None => Err(Wrong::Refused(Rule::UnknownColumn)),
    }
}

// A property of a control. One of a gallery's template isn't named: its value differs from item to
// item.
fn read_control(
    alloc: Global,
    names: &Names,
    number: u32,
    control: &ControlName,
    name: &Words,
) -> Result<Typed, Wrong>
    requires { IsLawful names.now }
    ensures { IsAnswerOf typed (sought.control_read names.now number control.now control.now.gallery
        name.now) result }
{
    if control.gallery.is_some() {
        return Err(Wrong::Refused(Rule::WrongType));
    }
    if is_chosen(control.kind, name.as_str()) {
        return Ok(Typed {
            core: make_core::read(Source::Chosen(number)),
            ty: item_type(alloc, control)?,
        });
    }
    if is_input(control.kind, name.as_str()) {
        return read_input(number, control.kind);
    }
    read_property(alloc, names, number, control, name)
}

// A member of an enumeration is the text of its name.
fn member_of(alloc: Global, enumeration: Enumeration, name: &Words) -> Result<Typed, Wrong>
    ensures { IsAnswerOf typed (sought.member_of (has_member enumeration (encode_utf8_all name.now))
        name.now) result }
{
    if !enumeration.has(name.as_str()) {
        return Err(Wrong::Refused(Rule::UnknownColumn));
    }
    Ok(Typed {
        core: make_core::constant(Value::Text(name.copy(alloc)?)),
        ty: Ty::Text,
    })
}

// A field of a record; other types have none.
fn read_field(alloc: Global, before: Typed, name: &Words) -> Result<Typed, Wrong>
    ensures { IsAnswerOf typed (sought.field_read before.core name.now (shape before.ty)) result }
{
    let Typed { core, ty } = before;
    match ty {
        Ty::Rec(columns) => known_field(alloc, core, name, &columns),
        _ => Err(Wrong::Refused(Rule::WrongType)),
    }
}

// A column of a record.
fn known_field(alloc: Global, core: Core, name: &Words, columns: &Columns) -> Result<Typed, Wrong>
    ensures { IsAnswerOf typed (sought.known_field core name.now
        (field_in name.now (column_list columns.now))) result }
{
    match field_in(name, columns) {
        Some(ty) => {
            let ty = ty.copy(alloc)?;
            Ok(Typed {
                core: make_core::dot(alloc, core, name.copy(alloc)?)?,
                ty,
            })
        }
        None => Err(Wrong::Refused(Rule::UnknownColumn)),
    }
}

/// What stands behind a dot, by what stands before it: a field of a record, a property of a control
/// or a member of an enumeration.
pub fn dot(alloc: Global, names: &Names, name: &Words, before: Meaning) -> Result<Typed, Wrong>
    requires { IsLawful names.now }
    ensures { IsAnswerOf typed (sought.dotted names.now name.now (Some (meaning_view before.entry)))
        result }
{
    match before {
        Meaning::Valued(value) => read_field(alloc, value, name),
        Meaning::Controlled(number, control) => read_control(alloc, names, number, control, name),
        Meaning::Enumerated(enumeration) => member_of(alloc, enumeration, name),
        Meaning::Screened => Err(Wrong::Refused(Rule::WrongType)),
    }
}
