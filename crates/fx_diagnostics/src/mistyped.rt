//! The types of parts that don't fit.
ghost use Rattle.std.specs.Prelude.{◌≡◌, ◌++◌, ◌∷◌, [], IfOk, List, OnOk, Some, codes, map, true};
ghost use Rattle.std.specs.Str.{IsAscii};
ghost use Rattle.fx_types.specs.TypeView.{shape};
ghost use Rattle.fx_core.specs.declared.signatures.SigShape.TheVariants as sig;
ghost use Rattle.fx_typing.specs.Details as told;
ghost use Rattle.fx_typing.specs.Parts as parts;
ghost use Rattle.fx_typing.specs.Plans as plans;
ghost use Rattle.fx_typing.specs.Targets as targets;
ghost use Rattle.fx_core.specs.Lawful.{IsLawful};
ghost use Rattle.fx_resolve.specs.PartView.{judged_part};
ghost use Rattle.fx_resolve.specs.PlanView.{tree_head};

use crate::texts::{type_word, word};
use fx_base::Memory;
use fx_core::expr::{Expr, Node};
use fx_core::functions::Acting;
use fx_core::names::Names;
use fx_core::rows::{Takes, row_of};
use fx_core::signatures::{SigShape, signature_in};
use fx_resolve::targets::find_target;
use fx_resolve::{Part, pick};
use fx_types::types::Ty;
use fx_types::words::Words;
use fx_typing::Piece;
use std::alloc::Global;

// Adds a word of ASCII characters.
fn push_word(alloc: Global, text: &str, found: &mut Vec<Words>) -> Result<(), Memory>
    requires { IsAscii text.now }
    ensures { OnOk result (found.new.items ≡ found.old.items ++ text.now ∷ []) }
{
    let name = word(alloc, text)?;
    Ok(found.push(name)?)
}

// Adds the name of the type of rows that change, where there are such rows.
fn push_rows(
    alloc: Global,
    names: &Names,
    name: &Words,
    found: &mut Vec<Words>,
) -> Result<(), Memory>
    requires { IsLawful names.now }
    ensures { OnOk result (found.new.items
        ≡ found.old.items ++ told.some_name (targets.rows_named names.now name.now)) }
{
    match find_target(alloc, names, name)? {
        Some(rows) => push_word(alloc, type_word(&rows.ty), found),
        None => Ok(()),
    }
}

// Adds the name of a part's type; what is no value is called a record, and a column's name has no
// type.
fn push_part(alloc: Global, names: &Names, one: &Part, found: &mut Vec<Words>) -> Result<(), Memory>
    requires { IsLawful names.now }
    ensures { OnOk result (found.new.items
        ≡ found.old.items ++ told.part_names names.now (judged_part one.now)) }
{
    match one {
        Part::Piece(Piece::Value(_, value)) => push_word(alloc, type_word(&value.ty), found),
        Part::Piece(Piece::Label(_)) => Ok(()),
        Part::Meant(_) | Part::Assigned(_, _) => push_word(alloc, "Record", found),
        Part::Target(_, name) => push_rows(alloc, names, name, found),
    }
}

/// The names of the types of a part, of which there is one at most.
pub fn part_names(alloc: Global, names: &Names, one: &Part) -> Result<Vec<Words>, Memory>
    requires { IsLawful names.now }
    ensures { IfOk result (λ v. v.items ≡ told.part_names names.now (judged_part one.now)) }
{
    let mut found = Vec::new(alloc);
    push_part(alloc, names, one, &mut found)?;
    Ok(found)
}

// The names of the types of parts.
fn all_names(alloc: Global, names: &Names, all: &[Part]) -> Result<Vec<Words>, Memory>
    requires { IsLawful names.now }
    ensures { IfOk result (λ v. v.items ≡ told.all_names names.now (map judged_part all.now)) }
{
    let mut found = Vec::new(alloc);
    for one in all {
        push_part(alloc, names, one, &mut found)?;
    }
    Ok(found)
}

fn is_table(ty: &Ty) -> bool
    ensures { result ≡ told.is_table_shape (shape ty.now) }
{
    matches!(ty, Ty::Tab(_) | Ty::Blank)
}

fn is_table_place(takes: Takes) -> bool
    ensures { result ≡ told.is_table_place takes }
{
    matches!(takes, Takes::Table)
}

// Whether an acting call takes rows first.
fn takes_rows(acting: Acting) -> bool
    ensures { (qs : List parts.JudgedPart) → told.takes_table (Some (sig.Act acting)) qs ≡ result }
{
    matches!(
        acting,
        Acting::Patch | Acting::Remove | Acting::RemoveIf | Acting::UpdateIf
    )
}

// Whether a call takes a table first.
fn takes_table(shape: Option<SigShape>, all: &[Part]) -> bool
    ensures { result ≡ told.takes_table shape (map judged_part all.now) }
{
    match shape {
        Some(SigShape::One(fun) | SigShape::Literal(fun)) => is_table_place(row_of(fun).first),
        Some(SigShape::Either(scalars, rows)) => {
            is_table_place(row_of(pick(scalars, rows, all)).first)
        }
        Some(SigShape::Defaults) => true,
        Some(SigShape::Act(acting)) => takes_rows(acting),
        _ => false,
    }
}

// Whether a name stands for rows, or for nothing that is known.
fn are_rows(alloc: Global, names: &Names, name: &Words) -> Result<bool, Memory>
    requires { IsLawful names.now }
    ensures { IfOk result (λ b. b ≡ told.is_rows (targets.rows_named names.now name.now)) }
{
    match find_target(alloc, names, name)? {
        Some(rows) => Ok(is_table(&rows.ty)),
        None => Ok(true),
    }
}

// Whether a part is the rows that a call takes.
fn stands_as_table(alloc: Global, names: &Names, one: &Part) -> Result<bool, Memory>
    requires { IsLawful names.now }
    ensures { IfOk result (λ b. b ≡ told.stands_as_table names.now (judged_part one.now)) }
{
    match one {
        Part::Piece(Piece::Value(_, value)) => Ok(is_table(&value.ty)),
        Part::Target(_, name) => are_rows(alloc, names, name),
        Part::Piece(Piece::Label(_)) | Part::Meant(_) | Part::Assigned(_, _) => Ok(false),
    }
}

// The names of the types of the parts of a call that takes a table first: a wrong one is told
// alone.
fn names_over_table(alloc: Global, names: &Names, all: &[Part]) -> Result<Vec<Words>, Memory>
    requires { IsLawful names.now }
    ensures { IfOk result (λ v. v.items ≡ told.call_names names.now true (map judged_part all.now)) }
{
    match all.first() {
        Some(first) if !stands_as_table(alloc, names, first)? => part_names(alloc, names, first),
        _ => all_names(alloc, names, all),
    }
}

/// How a name is called.
pub fn call_shape(names: &Names, name: &Words) -> Option<SigShape>
    ensures { result ≡ plans.called_as names.now name.now }
{
    signature_in(names.signatures, name.as_str()).map(|signature| signature.shape)
}

// The names of the types of a call's parts.
fn call_names(
    alloc: Global,
    names: &Names,
    name: &Words,
    all: &[Part],
) -> Result<Vec<Words>, Memory>
    requires { IsLawful names.now }
    ensures { IfOk result (λ v. v.items ≡ told.call_names names.now
        (told.takes_table (plans.called_as names.now name.now) (map judged_part all.now))
        (map judged_part all.now)) }
{
    if takes_table(call_shape(names, name), all) {
        names_over_table(alloc, names, all)
    } else {
        all_names(alloc, names, all)
    }
}

// A record alone.
fn record_alone(alloc: Global) -> Result<Vec<Words>, Memory>
    ensures { IfOk result (λ v. v.items ≡ codes "Record" ∷ []) }
{
    let mut found = Vec::new(alloc);
    push_word(alloc, "Record", &mut found)?;
    Ok(found)
}

/// The names of the types of a node's parts. A name by itself that is no value is called a record,
/// and so is a name for rows where none belongs.
pub fn wrong_types(
    alloc: Global,
    names: &Names,
    whole: &Expr,
    all: &[Part],
) -> Result<Vec<Words>, Memory>
    requires { IsLawful names.now }
    ensures { IfOk result (λ v. v.items ≡ told.wrong_types names.now (tree_head whole.now)
        (map judged_part all.now)) }
{
    match &whole.node {
        Node::Name(_) | Node::Global(_) | Node::Alias(_, _) => record_alone(alloc),
        Node::Call(name, _) => call_names(alloc, names, name, all),
        _ => all_names(alloc, names, all),
    }
}
