//! Which nodes are admitted, as which parts.
ghost use Rattle.std.specs.Prelude.{◌≡◌, ◌≤◌, ◌+◌, [], length, map};
ghost use Rattle.fx_core.specs.Lawful.{IsLawful};
ghost use Rattle.fx_typing.specs.Details.{HasToldBroken, IsToldBroken};
ghost use Rattle.fx_typing.specs.Parts.{part_count};
ghost use Rattle.fx_typing.specs.Plans.{setting_at};
ghost use Rattle.fx_typing.specs.Typing as typing;
ghost use Rattle.fx_resolve.specs.MeaningView.{place_view};
ghost use Rattle.fx_resolve.specs.PartView.{judged_part};
ghost use Rattle.fx_resolve.specs.PlanView.{tree_head};
ghost use Rattle.fx_resolve.specs.SettingView.{setting};
ghost use Rattle.fx_infer.specs.Below.{forest_of, tree_depth};
ghost use Rattle.fx_infer.specs.Judged.{IsJudgedBy};

use crate::admitting::admit;
use crate::node_parts::{begins, part_at, part_count};
use crate::{Flaw, Halt, detail_of};
use fx_core::expr::Expr;
use fx_resolve::{Part, Place, Scopes, Stand, enter};
use fx_typing::Wrong;
use std::alloc::Global;

/// A node as a part of the whole, or the first node from the left that is broken while all its
/// parts are admitted. The scopes are left as they were.
#[cycle(judge)]
pub fn judge<'a>(
    alloc: Global,
    at: &Place<'a>,
    scopes: &mut Scopes,
    stand: Stand,
    whole: &Expr,
) -> Result<Part<'a>, Halt>
    requires lawful { IsLawful at.now.names.now }
    requires shallow { length scopes.old + tree_depth whole.now ≤ 256 }
    ensures scopes { scopes.new ≡ scopes.old }
    ensures judged { IsJudgedBy judged_part (typing.judge (place_view at.now)
        (setting scopes.old stand) whole.now)
        (IsToldBroken (place_view at.now) (setting scopes.old stand) whole.now) result }
{
    let parts = judge_parts(alloc, at, scopes, stand, whole)?;
    match admit(alloc, at, scopes, stand, whole, parts) {
        Ok(part) => Ok(part),
        Err(Wrong::Memory) => Err(Halt::Memory),
        Err(Wrong::Refused(rule)) => {
            // `admit` took the parts; they are judged again only to say what is broken.
            let parts = judge_parts(alloc, at, scopes, stand, whole)?;
            let detail = detail_of(alloc, at, scopes, stand, whole, parts, rule)?;
            Err(Halt::Refused(Flaw {
                at: begins(whole),
                rule,
                detail,
            }))
        }
    }
}

// The parts of a node, from the left, each where the ones before put it.
#[cycle(judge)]
fn judge_parts<'a>(
    alloc: Global,
    at: &Place<'a>,
    scopes: &mut Scopes,
    stand: Stand,
    whole: &Expr,
) -> Result<Vec<Part<'a>>, Halt>
    requires lawful { IsLawful at.now.names.now }
    requires shallow { length scopes.old + tree_depth whole.now ≤ 256 }
    ensures scopes { scopes.new ≡ scopes.old }
    ensures judged { IsJudgedBy (λ qs. map judged_part qs.items)
        (typing.judge_parts (place_view at.now) (setting scopes.old stand) (tree_head whole.now)
        (part_count (forest_of whole.now)) [] (forest_of whole.now))
        (HasToldBroken (place_view at.now) (setting scopes.old stand) (tree_head whole.now)
        (part_count (forest_of whole.now)) [] (forest_of whole.now)) result }
{
    let count = part_count(whole);
    let mut done = Vec::new(alloc);
    while let Some(next) = part_at(whole, done.len()) {
        let part = judge_next(alloc, at, scopes, stand, whole, count, &done, next)?;
        done.push(part)?;
    }
    Ok(done)
}

// The part behind the done ones, where these put it, of a node with so many parts.
#[cycle(judge)]
fn judge_next<'a>(
    alloc: Global,
    at: &Place<'a>,
    scopes: &mut Scopes,
    stand: Stand,
    whole: &Expr,
    count: usize,
    done: &[Part<'a>],
    next: &Expr,
) -> Result<Part<'a>, Halt>
    requires lawful { IsLawful at.now.names.now }
    requires shallow { length scopes.old + (1 + tree_depth next.now) ≤ 256 }
    ensures scopes { scopes.new ≡ scopes.old }
    ensures judged { IsJudgedBy judged_part
        (typing.judge (place_view at.now) (setting_at at.now.names.now (setting scopes.old stand)
        (tree_head whole.now) count (map judged_part done.now)) next.now)
        (IsToldBroken (place_view at.now) (setting_at at.now.names.now (setting scopes.old stand)
        (tree_head whole.now) count (map judged_part done.now)) next.now) result }
{
    let around = scopes.len();
    let inner = enter(alloc, at.names, scopes, stand, whole, count, done)?;
    // Without `?`, so that the scopes are cut back also where the part is broken.
    let answer = judge(alloc, at, scopes, inner, next);
    scopes.cut(around);
    answer
}
