//! Reading the tokens once, from left to right. The descent can't tell a text that is too deep from
//! one without a tree. This can, since it keeps what is open in a list and doesn't recurse.
ghost use Rattle.std.specs.Prelude.{◌≡◌, IfOk};
ghost use Rattle.fx_parser.specs.Trees.{HasFormula, HasEntries, Judges};
ghost use Rattle.fx_parser.specs.Machine.{Ended};

use crate::machine::{innermost_of, may_end, perform, turn_at};
use crate::state::{State, Whole};
use fx_base::Memory;
use fx_grammar::Item;
use std::alloc::Global;

/// Whether tokens have a tree.
#[derive(Clone, Copy)]
pub enum Verdict {
    HasTree,
    /// There is none: the tokens before this place may go on to have a tree, and not together with
    /// the token at it. It is the number of tokens where they all may go on and do not end here.
    StopsAt(usize),
}

fn recognize(alloc: Global, whole: Whole, start: State, items: &[Item]) -> Result<Verdict, Memory>
    ensures { IfOk result (Ended whole start items.now) }
{
    let mut opened = Vec::new(alloc);
    let mut state = start;
    for (i, item) in items.iter().enumerate() {
        let innermost = innermost_of(opened.as_slice());
        let turn = turn_at(whole, state, innermost, &item.meaning);
        let Some(next) = perform(&mut opened, turn)? else {
            return Ok(Verdict::StopsAt(i));
        };
        state = next;
    }
    if may_end(whole, state, opened.as_slice()) {
        Ok(Verdict::HasTree)
    } else {
        Ok(Verdict::StopsAt(items.len()))
    }
}

/// Whether the tokens are a formula, however deep.
pub fn formula(alloc: Global, items: &[Item]) -> Result<Verdict, Memory>
    ensures { IfOk result (Judges HasFormula items.now) }
{
    recognize(alloc, Whole::Formula, State::Start, items)
}

/// Whether the tokens are named formulas, each however deep.
pub fn named_formulas(alloc: Global, items: &[Item]) -> Result<Verdict, Memory>
    ensures { IfOk result (Judges HasEntries items.now) }
{
    recognize(alloc, Whole::Named, State::Entry, items)
}
