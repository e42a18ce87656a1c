//! What whole formulas give to the names that they assign.
ghost use Rattle.std.specs.Prelude.{◌≡◌, ◌≤◌, ◌+◌, ◌++◌, All, IfOk, OnOk, [], length, map};
ghost use Rattle.fx_infer.specs.Below.{forest_of, tree_depth};
ghost use Rattle.fx_infer.specs.Judged.{IsJudgedBy};
ghost use Rattle.fx_infer.specs.declared.elaboration.Written.{Written};
ghost use Rattle.fx_typing.specs.Details.{IsToldBroken};
ghost use Rattle.fx_typing.specs.Parts.{Setting, part_count};
ghost use Rattle.fx_typing.specs.Plans.{setting_at};
ghost use Rattle.fx_typing.specs.Rounds as rounds;
ghost use Rattle.fx_typing.specs.Typing as typing;
ghost use Rattle.fx_core.specs.Lawful.{IsLawful};
ghost use Rattle.fx_resolve.specs.MeaningView.{place_view};
ghost use Rattle.fx_resolve.specs.PartView.{judged_part};
ghost use Rattle.fx_resolve.specs.PlanView.{tree_head};
ghost use Rattle.fx_resolve.specs.SettingView.{setting};
ghost use Rattle.fx_core.specs.Tree.{Tree};
ghost use Rattle.fx_typing.specs.Meaning as meaning;
ghost use Rattle.fx_infer.specs.CellView.{cell};
ghost use Rattle.fx_infer.specs.GivenView.{given_type_view};

use crate::Written;
use crate::assigning::may_give;
use crate::elaboration::outermost;
use crate::flaw::Halt;
use crate::giving::{Given, give};
use crate::judging::judge;
use crate::node_parts::{part_at, part_count};
use fx_base::Memory;
use fx_core::expr::Expr;
use fx_core::names::Names;
use fx_resolve::{Part, Place, Scopes, Stand, enter};
use fx_types::words::Words;
use fx_typing::Piece;
use std::alloc::Global;

// No name.
fn no_name(alloc: Global) -> Result<Words, Memory>
    ensures { IfOk result (λ w. w ≡ []) }
{
    Words::of(alloc, "")
}

// A part as the others know it: one that is broken is no value.
fn known_part<'a>(alloc: Global, answer: Result<Part<'a>, Halt>) -> Result<Part<'a>, Memory>
    ensures { (p : meaning.Place) → (s : Setting) → (e : Tree)
        → IsJudgedBy judged_part (typing.judge p s e) (IsToldBroken p s e) answer.entry
        → IfOk result (λ q. judged_part q ≡ rounds.or_unknown (typing.judge p s e)) }
{
    match answer {
        Ok(part) => Ok(part),
        Err(Halt::Refused(_)) => Ok(Part::Piece(Piece::Label(no_name(alloc)?))),
        Err(Halt::Memory) => Err(Memory),
    }
}

// Adds givings behind others.
fn append(given: &mut Vec<Given>, more: Vec<Given>) -> Result<(), Memory>
    ensures { OnOk result (map given_type_view given.new.items
        ≡ map given_type_view given.old.items ++ map given_type_view more.items) }
{
    for one in more {
        given.push(one)?;
    }
    Ok(())
}

// The part behind the done ones, of a node with so many parts, as the others know it; what is given
// in it is added.
#[cycle(walk)]
fn walk_next<'a>(
    alloc: Global,
    at: &Place<'a>,
    scopes: &mut Scopes,
    stand: Stand,
    whole: &Expr,
    count: usize,
    done: &[Part<'a>],
    next: &Expr,
    given: &mut Vec<Given>,
) -> Result<Part<'a>, Memory>
    requires lawful { IsLawful at.now.names.now }
    requires shallow { length scopes.old + (1 + tree_depth next.now) ≤ 256 }
    ensures scopes { scopes.new ≡ scopes.old }
    ensures part { IfOk result (λ q. judged_part q
        ≡ rounds.or_unknown (typing.judge (place_view at.now)
        (setting_at at.now.names.now (setting scopes.old stand) (tree_head whole.now) count
        (map judged_part done.now))
        next.now)) }
    ensures given { IfOk result (λ q. map given_type_view given.new.items
        ≡ map given_type_view given.old.items
        ++ rounds.given_in (place_view at.now)
        (setting_at at.now.names.now (setting scopes.old stand) (tree_head whole.now) count
        (map judged_part done.now))
        next.now) }
{
    let around = scopes.len();
    let inner = enter(alloc, at.names, scopes, stand, whole, count, done)?;
    let answer = walk_inside(alloc, at, scopes, inner, next, given);
    scopes.cut(around);
    answer
}

// A part where it stands, as the others know it; what is given in it is added. Walked and judged
// apart, since a part that is broken still gives what stands in it.
#[cycle(walk)]
fn walk_inside<'a>(
    alloc: Global,
    at: &Place<'a>,
    scopes: &mut Scopes,
    stand: Stand,
    whole: &Expr,
    given: &mut Vec<Given>,
) -> Result<Part<'a>, Memory>
    requires lawful { IsLawful at.now.names.now }
    requires shallow { length scopes.old + tree_depth whole.now ≤ 256 }
    ensures scopes { scopes.new ≡ scopes.old }
    ensures part { IfOk result (λ q. judged_part q
        ≡ rounds.or_unknown (typing.judge (place_view at.now) (setting scopes.old stand) whole.now)) }
    ensures given { IfOk result (λ q. map given_type_view given.new.items
        ≡ map given_type_view given.old.items
        ++ rounds.given_in (place_view at.now) (setting scopes.old stand) whole.now) }
{
    walk(alloc, at, scopes, stand, whole, given)?;
    let answer = judge(alloc, at, scopes, stand, whole);
    known_part(alloc, answer)
}

/// Adds what is given in a formula, in the order of its text. Each part is judged in its place,
/// also where others are broken. The scopes are left as they were.
#[cycle(walk)]
pub fn walk(
    alloc: Global,
    at: &Place,
    scopes: &mut Scopes,
    stand: Stand,
    whole: &Expr,
    given: &mut Vec<Given>,
) -> Result<(), Memory>
    requires lawful { IsLawful at.now.names.now }
    requires shallow { length scopes.old + tree_depth whole.now ≤ 256 }
    ensures scopes { scopes.new ≡ scopes.old }
    ensures given { OnOk result (map given_type_view given.new.items
        ≡ map given_type_view given.old.items
        ++ rounds.given_in (place_view at.now) (setting scopes.old stand) whole.now) }
{
    if !may_give(at.names, stand, whole) {
        return Ok(());
    }
    let count = part_count(whole);
    let mut done = Vec::new(alloc);
    // Apart, since what a node gives itself comes before what its parts give.
    let mut below = Vec::new(alloc);
    while let Some(next) = part_at(whole, done.len()) {
        let part = walk_next(
            alloc, at, scopes, stand, whole, count, &done, next, &mut below,
        )?;
        done.push(part)?;
    }
    give(alloc, at, stand, whole, &done, given)?;
    append(given, below)?;
    Ok(())
}

// Adds what a formula of the app gives.
fn walk_cell(
    alloc: Global,
    names: &Names,
    formula: &Written,
    given: &mut Vec<Given>,
) -> Result<(), Memory>
    requires lawful { IsLawful names.now }
    requires shallow { tree_depth formula.now.expr ≤ 256 }
    ensures { OnOk result (map given_type_view given.new.items ≡ map given_type_view given.old.items
        ++ rounds.given_in (rounds.placed_in_round names.now (cell formula.now))
        (typing.outermost_setting (cell formula.now).acts) (cell formula.now).formula) }
{
    let at = Place {
        names,
        screen: formula.screen,
        gallery: formula.item,
        settled: false,
    };
    let mut scopes = Scopes::new(alloc);
    walk(
        alloc,
        &at,
        &mut scopes,
        outermost(formula.place),
        &formula.expr,
        given,
    )
}

/// What the formulas of an app give to the names that they assign, in order.
pub fn collect_assignments(
    alloc: Global,
    names: &Names,
    cells: &[Written],
) -> Result<Vec<Given>, Memory>
    requires lawful { IsLawful names.now }
    requires shallow { All (λ (c : Written). tree_depth c.expr ≤ 256) cells.now }
    ensures { IfOk result (λ gs. map given_type_view gs.items
        ≡ rounds.all_given names.now (map cell cells.now)) }
{
    let mut given = Vec::new(alloc);
    for formula in cells {
        walk_cell(alloc, names, formula, &mut given)?;
    }
    Ok(given)
}
