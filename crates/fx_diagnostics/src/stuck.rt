//! Names that stand twice, and columns that aren't there.
ghost use Rattle.std.specs.Prelude.{◌≡◌, ◌∷◌, [], IfOk, List, Option, ℕ, map};
ghost use Rattle.fx_types.specs.TypeView.{shape};
ghost use Rattle.fx_types.specs.Types.{column_list};
ghost use Rattle.fx_typing.specs.Details as told;
ghost use Rattle.fx_core.specs.Lawful.{IsLawful};
ghost use Rattle.fx_core.specs.Tree as tree;
ghost use Rattle.fx_core.specs.ColumnLists as lists;
ghost use Rattle.fx_core.specs.ColumnLists.{before_last};
ghost use Rattle.fx_typing.specs.Local as local;
ghost use Rattle.fx_typing.specs.TypedView.{piece_view};
ghost use Rattle.fx_resolve.specs.PartView.{judged_part};
ghost use Rattle.fx_resolve.specs.PlanView.{tree_head};

use crate::acted::acted_column;
use crate::borrowed::all_pieces;
use crate::mistyped::call_shape;
use crate::texts::{nothing, word};
use fx_base::Memory;
use fx_call_typing::taken_name;
use fx_core::expr::{Expr, FieldName, Node};
use fx_core::names::Names;
use fx_core::rows::{Answer, row_of};
use fx_core::signatures::SigShape;
use fx_resolve::Part;
use fx_resolve::tables::item_columns;
use fx_types::types::Columns;
use fx_types::words::Words;
use fx_typing::columns::{field_in, rename_column};
use fx_typing::{Piece, Typed, Wrong};
use std::alloc::Global;

// Whether one of the fields has this name.
fn has_field(name: &Words, fields: &[(FieldName, Expr)]) -> bool
    ensures { result ≡ lists.is_one_of name.now (tree.tree_field_names fields.now) }
{
    for (other, _) in fields {
        if other.text.is(name) {
            return true;
        }
    }
    false
}

// The first name that stood before.
fn twice_in(alloc: Global, fields: &[(FieldName, Expr)]) -> Result<Words, Memory>
    ensures { IfOk result (λ w. w ≡ told.twice_after [] (tree.tree_field_names fields.now)) }
{
    for (place, (name, _)) in fields.iter().enumerate() {
        if has_field(&name.text, &fields[..place]) {
            return name.text.copy(alloc);
        }
    }
    nothing(alloc)
}

// The first name that is no column's, of those that are left out, shown or taken out of.
fn missing_column(alloc: Global, pieces: &[&Piece], columns: &Columns) -> Result<Words, Memory>
    ensures { IfOk result (λ w. w
        ≡ told.stuck_sought (map (λ p. piece_view p.now) pieces.now) (column_list columns.now)) }
{
    for one in pieces {
        let Piece::Label(name) = *one else {
            return nothing(alloc);
        };
        if field_in(name, columns).is_none() {
            return name.copy(alloc);
        }
    }
    nothing(alloc)
}

// The first name that is no column's, of those before the last, which is a new one.
fn missing_key(alloc: Global, pieces: &[&Piece], columns: &Columns) -> Result<Words, Memory>
    ensures { IfOk result (λ w. w
        ≡ told.stuck_sought (before_last (map (λ p. piece_view p.now) pieces.now))
        (column_list columns.now)) }
{
    match pieces {
        [keys @ .., _] => missing_column(alloc, keys, columns),
        [] => nothing(alloc),
    }
}

// The name at which columns can't be named anew.
fn stuck_rename(alloc: Global, pieces: &[&Piece], columns: Columns) -> Result<Words, Memory>
    ensures { IfOk result (λ w. w
        ≡ told.stuck_renamed (map (λ p. piece_view p.now) pieces.now) (column_list columns)) }
{
    let mut columns = columns;
    let mut more = pieces;
    while let [from, to, rest @ ..] = more {
        let (Piece::Label(from), Piece::Label(to)) = (*from, *to) else {
            return nothing(alloc);
        };
        if field_in(from, &columns).is_none() {
            return from.copy(alloc);
        }
        columns = match rename_column(alloc, from, to.copy(alloc)?, columns) {
            Ok(columns) => columns,
            Err(Wrong::Memory) => return Err(Memory),
            Err(Wrong::Refused(_)) => return to.copy(alloc),
        };
        more = rest;
    }
    nothing(alloc)
}

// The name at which a call of a first value and others is stuck.
fn stuck_behind(
    alloc: Global,
    answer: Answer,
    value: &Typed,
    others: &[&Piece],
) -> Result<Words, Memory>
    ensures { (a : Option (List ℕ)) → IfOk result (λ w. w ≡ told.stuck_by answer
        (local.value a value.now.core (shape value.now.ty)
        ∷ map (λ p. piece_view p.now) others.now)) }
{
    let columns = item_columns(alloc, &value.ty)?;
    match answer {
        Answer::Dropped | Answer::Shown => missing_column(alloc, others, &columns),
        Answer::Renamed => stuck_rename(alloc, others, columns),
        Answer::Grouped => missing_key(alloc, others, &columns),
        Answer::Ungrouped => missing_column(alloc, others, &columns),
        _ => word(alloc, "Kind"),
    }
}

// The name at which a call is stuck.
fn stuck_by(alloc: Global, answer: Answer, pieces: &[&Piece]) -> Result<Words, Memory>
    ensures { IfOk result (λ w. w ≡ told.stuck_by answer (map (λ p. piece_view p.now) pieces.now)) }
{
    let Some((first, others)) = pieces.split_first() else {
        return word(alloc, "Kind");
    };
    match *first {
        Piece::Value(_, value) => stuck_behind(alloc, answer, value, others),
        Piece::Label(_) => word(alloc, "Kind"),
    }
}

// The name at which a call of a function is stuck.
fn stuck_in(alloc: Global, shape: Option<SigShape>, all: &[Part]) -> Result<Words, Memory>
    ensures { IfOk result (λ w. w ≡ told.stuck_in shape (map judged_part all.now)) }
{
    match shape {
        Some(SigShape::One(fun)) => stuck_by(alloc, row_of(fun).answer, &all_pieces(alloc, all)?),
        _ => nothing(alloc),
    }
}

// The first new name of a call that is taken.
fn taken_name_in(alloc: Global, shape: Option<SigShape>, all: &[Part]) -> Result<Words, Memory>
    ensures { IfOk result (λ w. w ≡ told.taken_in shape (map judged_part all.now)) }
{
    let Some(SigShape::One(fun)) = shape else {
        return nothing(alloc);
    };
    match taken_name(alloc, fun, all)? {
        Some(name) => name.copy(alloc),
        None => nothing(alloc),
    }
}

/// The name that stands twice in a node.
pub fn repeated_name(
    alloc: Global,
    names: &Names,
    whole: &Expr,
    all: &[Part],
) -> Result<Words, Memory>
    ensures { IfOk result (λ w. w ≡ told.named_twice names.now (tree_head whole.now)
        (map judged_part all.now)) }
{
    match &whole.node {
        Node::Rec(fields) => twice_in(alloc, fields.as_slice()),
        Node::Call(name, _) => taken_name_in(alloc, call_shape(names, name), all),
        _ => nothing(alloc),
    }
}

// The column of a call that isn't there.
fn column_in(
    alloc: Global,
    names: &Names,
    shape: Option<SigShape>,
    all: &[Part],
) -> Result<Words, Memory>
    requires { IsLawful names.now }
    ensures { IfOk result (λ w. w ≡ told.column_in names.now shape (map judged_part all.now)) }
{
    match shape {
        Some(SigShape::Act(acting)) => acted_column(alloc, names, acting, all),
        _ => stuck_in(alloc, shape, all),
    }
}

/// The column, field, property or member that isn't there.
pub fn unknown_column(
    alloc: Global,
    names: &Names,
    whole: &Expr,
    all: &[Part],
) -> Result<Words, Memory>
    requires { IsLawful names.now }
    ensures { IfOk result (λ w. w ≡ told.unknown_column_detail names.now (tree_head whole.now)
        (map judged_part all.now)) }
{
    match &whole.node {
        Node::Dot(_, name) => name.copy(alloc),
        Node::Call(name, _) => column_in(alloc, names, call_shape(names, name), all),
        _ => nothing(alloc),
    }
}
