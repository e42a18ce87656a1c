//! Several things as one, or the lowest rule that one of them breaks.
ghost use Rattle.std.specs.Prelude.{◌≡◌, ◌∷◌, ◌++◌, [], List, Result, map, ℕ};
ghost use Rattle.fx_types.specs.Types.{Shape};
ghost use Rattle.fx_typing.specs.Parts as parts;
ghost use Rattle.fx_core.specs.Term.{Term};
ghost use Rattle.fx_typing.specs.Answers.{IsAnswerOf};
ghost use Rattle.fx_typing.specs.TypedView.{typed};
ghost use Rattle.fx_node_typing.specs.Lowest as lowest;

use fx_typing::typed::Typed;
use fx_typing::wrong::Wrong;

// The lower of two rules that are broken.
fn lower(one: Wrong, other: Wrong) -> Wrong
    ensures { result ≡ lowest.lower one other }
{
    match (one, other) {
        (Wrong::Refused(one), Wrong::Refused(other)) => {
            if other.number() < one.number() {
                Wrong::Refused(other)
            } else {
                Wrong::Refused(one)
            }
        }
        _ => Wrong::Memory,
    }
}

/// Two things, or the lowest rule that one of them breaks.
pub fn both<A: Drop, B: Drop>(
    one: Result<A, Wrong>,
    other: Result<B, Wrong>,
) -> Result<(A, B), Wrong>
    ensures { result ≡ lowest.both one other }
{
    match (one, other) {
        (Ok(one), Ok(other)) => Ok((one, other)),
        (Ok(_), Err(wrong)) | (Err(wrong), Ok(_)) => Err(wrong),
        (Err(one), Err(other)) => Err(lower(one, other)),
    }
}

/// One thing more behind others, or the lowest rule that one of them breaks.
pub fn keep(
    kept: Result<Vec<Typed>, Wrong>,
    next: Result<Typed, Wrong>,
) -> Result<Vec<Typed>, Wrong>
    ensures { (p : Result (List (Term × Shape)) ℕ) (q : Result (Term × Shape) ℕ)
        → IsAnswerOf (λ xs. map typed xs.items) p kept → IsAnswerOf typed q next
        → IsAnswerOf (λ xs. map typed xs.items) (parts.lowest (λ xs x. xs ++ x ∷ []) p q) result }
{
    let (mut all, last) = both(kept, next)?;
    all.push(last)?;
    Ok(all)
}
