//! Where each part of a node stands.
ghost use Rattle.std.specs.Prelude.{◌≡◌, ◌≤◌, ◌+◌, IfOk, None, OnErr, OnOk, false, length, map};
ghost use Rattle.std.specs.Prelude.{take};
ghost use Rattle.fx_types.specs.TypeView.{shape};
ghost use Rattle.fx_typing.specs.Parts as parts;
ghost use Rattle.fx_typing.specs.Plans as plans;
ghost use Rattle.fx_typing.specs.TypedView.{piece_view};
ghost use Rattle.fx_core.specs.Lawful.{IsLawful};
ghost use Rattle.fx_typing.specs.WellTyped.{row_type};
ghost use Rattle.fx_resolve.specs.PartView.{judged_part};
ghost use Rattle.fx_resolve.specs.PlanView.{tree_head, part_scope};
ghost use Rattle.fx_resolve.specs.ScopeView.{scope};
ghost use Rattle.fx_resolve.specs.SettingView.{setting};

use crate::parts::Part;
use crate::plans::{Grant, Standing, plan_at};
use crate::scopes::{Scope, Scopes};
use crate::targets::target_columns;
use fx_base::Memory;
use fx_core::expr::Expr;
use fx_core::names::Names;
use fx_types::types::{Columns, Ty};
use fx_types::words::Words;
use fx_typing::Piece;
use std::alloc::Global;

/// Where a node stands, beside the scopes around it.
#[derive(Clone, Copy)]
pub struct Stand {
    /// Whether an error is caught around it.
    pub catches: bool,
    /// What its place allows.
    pub grant: Grant,
}

// A row of a table; of another type, which has no rows, without columns.
fn row_type(alloc: Global, ty: &Ty) -> Result<Ty, Memory>
    ensures { IfOk result (λ t. shape t ≡ row_type (shape ty.now)) }
{
    match ty {
        Ty::Tab(columns) => Ok(Ty::Rec(columns.copy(alloc)?)),
        _ => Ok(Ty::Rec(Columns::new(alloc))),
    }
}

// The type of a record's scope; another type has no fields.
fn record_type(alloc: Global, ty: &Ty) -> Result<Ty, Memory>
    ensures { IfOk result (λ t. shape t ≡ plans.record_type (shape ty.now)) }
{
    match ty {
        Ty::Rec(columns) => Ok(Ty::Rec(columns.copy(alloc)?)),
        _ => Ok(Ty::Rec(Columns::new(alloc))),
    }
}

// The scope of a row, with its name if it has one.
fn row_scope(alloc: Global, alias: &Option<Words>, row_type: Ty) -> Result<Scope, Memory>
    ensures { IfOk result (λ s. scope s ≡ plans.row_scope alias.now (shape row_type)) }
{
    Ok(Scope {
        row_type,
        alias: copy_name(alloc, alias)?,
        counted: true,
    })
}

// The scope of a row of a part.
fn piece_row(alloc: Global, names: &Names, first: &Piece) -> Result<Scope, Memory>
    ensures { IfOk result (λ s. scope s
        ≡ plans.first_row names.now (parts.piece (piece_view first.now))) }
{
    match first {
        Piece::Value(alias, value) => row_scope(alloc, alias, row_type(alloc, &value.ty)?),
        Piece::Label(_) => row_scope(alloc, &None, Ty::Rec(Columns::new(alloc))),
    }
}

// The scope of a row of the first part.
fn first_row(alloc: Global, names: &Names, first: &Part) -> Result<Scope, Memory>
    requires { IsLawful names.now }
    ensures { IfOk result (λ s. scope s ≡ plans.first_row names.now (judged_part first.now)) }
{
    match first {
        Part::Piece(first) => piece_row(alloc, names, first),
        Part::Target(alias, name) => {
            let columns = target_columns(alloc, names, name)?;
            row_scope(alloc, alias, Ty::Rec(columns))
        }
        Part::Meant(_) | Part::Assigned(_, _) => {
            row_scope(alloc, &None, Ty::Rec(Columns::new(alloc)))
        }
    }
}

// The same name, if there is one.
fn copy_name(alloc: Global, name: &Option<Words>) -> Result<Option<Words>, Memory>
    ensures { IfOk result (λ n. n ≡ name.now) }
{
    match name {
        Some(name) => Ok(Some(name.copy(alloc)?)),
        None => Ok(None),
    }
}

// The scope of a part itself, which is a record.
fn piece_record(alloc: Global, first: &Piece) -> Result<Scope, Memory>
    ensures { IfOk result (λ s. scope s ≡ plans.first_record (parts.piece (piece_view first.now))) }
{
    let row_type = match first {
        Piece::Value(_, value) => record_type(alloc, &value.ty)?,
        Piece::Label(_) => Ty::Rec(Columns::new(alloc)),
    };
    Ok(record_scope(row_type))
}

// The scope of a record.
fn record_scope(row_type: Ty) -> Scope
    ensures { scope result ≡ record { row_type = shape row_type; alias = None; counted = false } }
{
    Scope {
        row_type,
        alias: None,
        counted: false,
    }
}

// The scope of the first part itself, which is a record.
fn first_record(alloc: Global, first: &Part) -> Result<Scope, Memory>
    ensures { IfOk result (λ s. scope s ≡ plans.first_record (judged_part first.now)) }
{
    match first {
        Part::Piece(first) => piece_record(alloc, first),
        _ => Ok(record_scope(Ty::Rec(Columns::new(alloc)))),
    }
}

// Adds the scope that a part stands in, if it has one of its own.
fn open(
    alloc: Global,
    names: &Names,
    scopes: &mut Scopes,
    place: Standing,
    done: &[Part],
) -> Result<(), Memory>
    requires { IsLawful names.now }
    ensures ok { OnOk result (scopes.new
        ≡ plans.scopes_for names.now (part_scope place) scopes.old (map judged_part done.now)) }
    ensures err { OnErr result (scopes.new ≡ scopes.old) }
{
    match (place, done.first()) {
        (Standing::Inside, Some(first)) => scopes.push(first_row(alloc, names, first)?),
        (Standing::Bound, Some(first)) => scopes.push(first_record(alloc, first)?),
        _ => Ok(()),
    }
}

/// Adds to the scopes of a node the one that the part behind the done ones stands in, if it has one
/// of its own, and tells where that part stands. The node has so many parts. Behind the part the
/// scopes are to be cut to as many as they were.
pub fn enter(
    alloc: Global,
    names: &Names,
    scopes: &mut Scopes,
    whole: Stand,
    head: &Expr,
    count: usize,
    done: &[Part],
) -> Result<Stand, Memory>
    requires { IsLawful names.now }
    ensures ok { IfOk result (λ s. setting scopes.new s
        ≡ plans.setting_at names.now (setting scopes.old whole) (tree_head head.now) count
        (map judged_part done.now)) }
    ensures outer { OnOk result (take (length scopes.old) scopes.new ≡ scopes.old) }
    ensures one { OnOk result (length scopes.new ≤ length scopes.old + 1) }
    ensures err { OnErr result (scopes.new ≡ scopes.old) }
{
    let plan = plan_at(names, whole.grant, head, count, done);
    open(alloc, names, scopes, plan.standing, done)?;
    Ok(Stand {
        catches: whole.catches || plan.standing.is_catching(),
        grant: plan.grant,
    })
}
