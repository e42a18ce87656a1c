//! What a node gives to the names that it assigns.
ghost use Rattle.std.specs.Prelude.{◌≡◌, ◌++◌, IfOk, List, OnOk, Some, map, option_map};
ghost use Rattle.fx_types.specs.TypeView.{shape};
ghost use Rattle.fx_typing.specs.Plans as plans;
ghost use Rattle.fx_typing.specs.Rounds as rounds;
ghost use Rattle.fx_resolve.specs.MeaningView.{place_view};
ghost use Rattle.fx_resolve.specs.PartView.{judged_part};
ghost use Rattle.fx_resolve.specs.PlanView.{tree_head};
ghost use Rattle.fx_resolve.specs.SettingView.{setting};
ghost use Rattle.fx_typing.specs.Meaning.{Scope};
ghost use Rattle.fx_core.specs.Tree.{tree_field_names};
ghost use Rattle.fx_infer.specs.GivenView.{given_type_view, value_type, rows_type};

use fx_base::Memory;
use fx_core::expr::{Expr, FieldName, Node};
use fx_core::functions::Acting;
use fx_core::names::Names;
use fx_core::signatures::{SigShape, signature_in};
use fx_resolve::{Grant, Part, Place, Stand};
use fx_types::types::Ty;
use fx_types::words::Words;
use fx_typing::Piece;
use fx_typing::columns::row_columns;
use std::alloc::Global;

/// A type that is given to a name.
#[derive(Drop)]
pub enum Given {
    /// To a global variable.
    Global(Words, Ty),
    /// To a variable of a screen.
    Screen(Option<u32>, Words, Ty),
    /// To a collection.
    Collection(Words, Ty),
}

/// How a name is called.
pub fn call_shape(names: &Names, name: &Words) -> Option<SigShape>
    ensures { result ≡ plans.called_as names.now name.now }
{
    signature_in(names.signatures, name.as_str()).map(|signature| signature.shape)
}

// The type of a part that is a value.
fn value_type<'p>(one: &'p Part) -> Option<&'p Ty>
    ensures { option_map (λ t. shape t.now) result ≡ value_type (judged_part one.now) }
{
    match one {
        Part::Piece(Piece::Value(_, value)) => Some(&value.ty),
        Part::Piece(Piece::Label(_)) | Part::Meant(_) | Part::Target(_, _) | Part::Assigned(_, _) =>
            { None }
    }
}

// The type of the rows that a value of a type is collected as: a table's own, and else one row.
fn rows_type(alloc: Global, ty: &Ty) -> Result<Ty, Memory>
    ensures { IfOk result (λ t. shape t ≡ rows_type (shape ty.now)) }
{
    match ty {
        Ty::Tab(columns) => Ok(Ty::Tab(columns.copy(alloc)?)),
        row => Ok(Ty::Tab(row_columns(alloc, row.copy(alloc)?)?)),
    }
}

// What `Set` gives to a global variable.
fn give_global(
    alloc: Global,
    name: &Words,
    value: &Part,
    given: &mut Vec<Given>,
) -> Result<(), Memory>
    ensures { OnOk result (map given_type_view given.new.items ≡ map given_type_view given.old.items
        ++ rounds.value_given (rounds.to_global name.now) (judged_part value.now)) }
{
    if let Some(ty) = value_type(value) {
        given.push(Given::Global(name.copy(alloc)?, ty.copy(alloc)?))?;
    }
    Ok(())
}

// What `UpdateContext` gives to a variable of its screen.
fn give_screen(
    alloc: Global,
    screen: Option<u32>,
    name: &Words,
    value: &Part,
    given: &mut Vec<Given>,
) -> Result<(), Memory>
    ensures { OnOk result (map given_type_view given.new.items ≡ map given_type_view given.old.items
        ++ rounds.value_given (rounds.to_screen screen name.now) (judged_part value.now)) }
{
    if let Some(ty) = value_type(value) {
        given.push(Given::Screen(screen, name.copy(alloc)?, ty.copy(alloc)?))?;
    }
    Ok(())
}

// What a collected value gives to a collection.
fn give_row(alloc: Global, name: &Words, value: &Part, given: &mut Vec<Given>) -> Result<(), Memory>
    ensures { OnOk result (map given_type_view given.new.items ≡ map given_type_view given.old.items
        ++ rounds.given_by_node (rounds.to_collection name.now)
        (option_map rows_type (value_type (judged_part value.now)))) }
{
    if let Some(ty) = value_type(value) {
        given.push(Given::Collection(name.copy(alloc)?, rows_type(alloc, ty)?))?;
    }
    Ok(())
}

// What collected values give to a collection.
fn give_rows(
    alloc: Global,
    name: &Words,
    values: &[Part],
    given: &mut Vec<Given>,
) -> Result<(), Memory>
    ensures { OnOk result (map given_type_view given.new.items ≡ map given_type_view given.old.items
        ++ rounds.rows_given_to (rounds.to_collection name.now) (map judged_part values.now)) }
{
    for value in values {
        give_row(alloc, name, value, given)?;
    }
    Ok(())
}

// What the fields of a record give to the variables of a screen.
fn give_fields(
    alloc: Global,
    screen: Option<u32>,
    fields: &[(FieldName, Expr)],
    values: &[Part],
    given: &mut Vec<Given>,
) -> Result<(), Memory>
    ensures { OnOk result (map given_type_view given.new.items ≡ map given_type_view given.old.items
        ++ rounds.fields_given screen (tree_field_names fields.now) (map judged_part values.now)) }
{
    for (place, (name, _)) in fields.iter().enumerate() {
        let Some(value) = values.get(place) else {
            return Ok(());
        };
        give_screen(alloc, screen, &name.text, value, given)?;
    }
    Ok(())
}

// What a call of `Set` gives, by its parts.
fn give_by_set(alloc: Global, parts: &[Part], given: &mut Vec<Given>) -> Result<(), Memory>
    ensures { OnOk result (map given_type_view given.new.items ≡ map given_type_view given.old.items
        ++ rounds.call_gives (Some (SigShape.Act Acting.Set)) (map judged_part parts.now)) }
{
    let [first, value] = parts else {
        return Ok(());
    };
    match first {
        Part::Target(_, name) => give_global(alloc, name, value, given),
        Part::Piece(_) | Part::Meant(_) | Part::Assigned(_, _) => Ok(()),
    }
}

// What a call that collects gives, by its parts.
fn give_by_collect(alloc: Global, parts: &[Part], given: &mut Vec<Given>) -> Result<(), Memory>
    ensures { OnOk result (map given_type_view given.new.items ≡ map given_type_view given.old.items
        ++ rounds.call_gives (Some (SigShape.Act Acting.Collect)) (map judged_part parts.now)) }
{
    let [first, values @ ..] = parts else {
        return Ok(());
    };
    match first {
        Part::Target(_, name) => give_rows(alloc, name, values, given),
        Part::Piece(_) | Part::Meant(_) | Part::Assigned(_, _) => Ok(()),
    }
}

// What an acting call gives, by its parts.
fn give_by_act(
    alloc: Global,
    acting: Acting,
    parts: &[Part],
    given: &mut Vec<Given>,
) -> Result<(), Memory>
    ensures { OnOk result (map given_type_view given.new.items ≡ map given_type_view given.old.items
        ++ rounds.call_gives (Some (SigShape.Act acting)) (map judged_part parts.now)) }
{
    match acting {
        Acting::Set => give_by_set(alloc, parts, given),
        Acting::Collect | Acting::ClearCollect => give_by_collect(alloc, parts, given),
        Acting::UpdateContext
        | Acting::Clear
        | Acting::Patch
        | Acting::Remove
        | Acting::RemoveIf
        | Acting::UpdateIf
        | Acting::Navigate
        | Acting::Notify
        | Acting::Reset => Ok(()),
    }
}

/// Adds what a node gives itself, by its parts.
pub fn give(
    alloc: Global,
    at: &Place,
    stand: Stand,
    whole: &Expr,
    parts: &[Part],
    given: &mut Vec<Given>,
) -> Result<(), Memory>
    ensures { (ss : List Scope) → OnOk result
        (map given_type_view given.new.items ≡ map given_type_view given.old.items
        ++ rounds.node_gives (place_view at.now) (setting ss stand) (tree_head whole.now)
        (map judged_part parts.now)) }
{
    match &whole.node {
        Node::Call(name, _) => match call_shape(at.names, name) {
            Some(SigShape::Act(acting)) => give_by_act(alloc, acting, parts, given),
            Some(
                SigShape::One(_)
                | SigShape::Either(_, _)
                | SigShape::Literal(_)
                | SigShape::Form(_)
                | SigShape::With
                | SigShape::Table
                | SigShape::Today
                | SigShape::Defaults,
            )
            | None => Ok(()),
        },
        Node::Rec(fields) => match stand.grant {
            Grant::OnScreen(_) => give_fields(alloc, at.screen, fields.as_slice(), parts, given),
            Grant::Nothing
            | Grant::Acting
            | Grant::AnAlias
            | Grant::AColumn
            | Grant::ATarget
            | Grant::AliasedTarget
            | Grant::AMeaning(_) => Ok(()),
        },
        _ => Ok(()),
    }
}
