//! The search: down from one number to what it reads, with a stack of its own. A recursion would go
//! as deep as the longest path.
ghost use Rattle.std.specs.Prelude.{◌≡◌, ◌≢◌, ℕ, ◌+◌, ◌<◌, ◌≤◌, ◌-◌, ◌^◌, ◌++◌, ◌∷◌, [], vec_len};
ghost use Rattle.std.specs.Prelude.{Some, slice_set, slice_get, take, drop, length, slice_index};
ghost use Rattle.std.specs.Prelude.{IfOk, IfErr, OnOk};
ghost use Rattle.std.specs.List.{sum_by, Contains};
ghost use Rattle.depend_graph.specs.Lists.{nth_list, lists_of, HoldBelow};
ghost use Rattle.depend_graph.specs.Turning.{TurnsToLeast};

use crate::closed_path::close_from_least;
use crate::end::OrderEnd;
use crate::state::State;
use fx_number::Memory;
use std::alloc::Global;

/// How far a search has come.
#[derive(Drop)]
pub(crate) struct Search {
    states: Vec<State>,
    /// The numbers that are open, each of which reads the next.
    path: Vec<u32>,
    /// The numbers that are done, each behind all that it reads.
    order: Vec<u32>,
}

/// What a number reads, so many before the end.
fn read_at(reads: &[Vec<u32>], number: u32, left: usize) -> u32
    requires number { number < length reads.now }
    requires any { 0 < left }
    requires within { left ≤ length (nth_list (lists_of reads.now) number) }
    ensures { result ≡ slice_index (nth_list (lists_of reads.now) number)
        (length (nth_list (lists_of reads.now) number) - left) }
{
    let list = &reads[number as usize];
    list[list.len() - left]
}

impl Search {
    ghost use Rattle.depend_graph.specs.Search.{visit_state, work_of, IsSearchState};
    ghost use Rattle.depend_graph.specs.Ends.{HasCauseIn};
    ghost use Rattle.depend_graph.specs.declared.state.State.TheVariants.{New, Open, Done};

    /// No number has been seen.
    pub(crate) fn new(alloc: Global, count: u32) -> Result<Search, Memory>
        ensures len { IfOk result (λ s. vec_len s.states ≡ count) }
        ensures new { IfOk result (λ s. (n : ℕ) → visit_state s.states.items n ≡ New) }
        ensures path { IfOk result (λ s. s.path.items ≡ []) }
        ensures order { IfOk result (λ s. s.order.items ≡ []) }
    {
        let mut states = Vec::new(alloc);
        for _ in 0..count {
            states.push(State::New)?;
        }
        Ok(Search {
            states,
            path: Vec::new(alloc),
            order: Vec::new(alloc),
        })
    }

    /// Goes down from a number until it is done.
    pub(crate) fn visit(
        &mut self,
        alloc: Global,
        reads: &[Vec<u32>],
        number: u32,
    ) -> Result<(), OrderEnd>
        requires number { number < vec_len self.old.states }
        requires len { length reads.now ≡ vec_len self.old.states }
        requires below { HoldBelow (vec_len self.old.states) (lists_of reads.now) }
        requires search { IsSearchState (lists_of reads.now) self.old.states.items
            self.old.path.items self.old.order.items }
        requires path { self.old.path.items ≡ [] }
        ensures len { OnOk result (vec_len self.new.states ≡ vec_len self.old.states) }
        ensures search { OnOk result (IsSearchState (lists_of reads.now) self.new.states.items
            self.new.path.items self.new.order.items) }
        ensures path { OnOk result (self.new.path.items ≡ []) }
        ensures seen { OnOk result (visit_state self.new.states.items number ≢ New) }
        ensures stay { OnOk result ((n : ℕ) → visit_state self.new.states.items n ≡ New
            → visit_state self.old.states.items n ≡ New) }
        ensures end { IfErr result (HasCauseIn (lists_of reads.now)) }
    {
        if let State::New = self.states[number as usize] {
            self.open(reads, number)?;
        }
        while let Some(last) = self.path.last().copied() {
            self.step(alloc, reads, last)?;
        }
        Ok(())
    }

    /// Looks at the next of what the last number of the path reads.
    fn step(&mut self, alloc: Global, reads: &[Vec<u32>], last: u32) -> Result<(), OrderEnd>
        requires last { slice_get self.old.path.items (vec_len self.old.path - 1) ≡ Some last }
        requires len { length reads.now ≡ vec_len self.old.states }
        requires below { HoldBelow (vec_len self.old.states) (lists_of reads.now) }
        requires search { IsSearchState (lists_of reads.now) self.old.states.items
            self.old.path.items self.old.order.items }
        ensures len { OnOk result (vec_len self.new.states ≡ vec_len self.old.states) }
        ensures search { OnOk result (IsSearchState (lists_of reads.now) self.new.states.items
            self.new.path.items self.new.order.items) }
        ensures stay { OnOk result ((n : ℕ) → visit_state self.new.states.items n ≡ New
            → visit_state self.old.states.items n ≡ New) }
        ensures less { OnOk result (sum_by work_of self.new.states.items
            < sum_by work_of self.old.states.items) }
        ensures end { IfErr result (HasCauseIn (lists_of reads.now)) }
    {
        let State::Open { place, left } = self.states[last as usize] else {
            unreachable!();
        };
        if left == 0 {
            self.close(last)?;
            return Ok(());
        }
        let read = read_at(reads, last, left);
        match self.states[read as usize] {
            State::New => self.open(reads, read)?,
            State::Open { place, .. } => {
                return Err(OrderEnd::Cycle(self.circle_from(alloc, place)?));
            }
            State::Done => {
                self.states[last as usize] = State::Open {
                    place,
                    left: left - 1,
                }
            }
        }
        Ok(())
    }

    /// The numbers of the path from this place on, from the least of them, which stands at the end
    /// again.
    fn circle_from(&self, alloc: Global, place: usize) -> Result<Vec<u32>, Memory>
        requires { place < vec_len self.now.path }
        ensures { IfOk result (λ path. TurnsToLeast (drop place self.now.path.items) path.items) }
    {
        close_from_least(alloc, &self.path[place..])
    }

    /// Puts a number at the end of the path.
    fn open(&mut self, reads: &[Vec<u32>], number: u32) -> Result<(), Memory>
        requires number { number < vec_len self.old.states }
        requires len { length reads.now ≡ vec_len self.old.states }
        ensures states { OnOk result (self.new.states.items ≡ slice_set self.old.states.items number
            (Open (vec_len self.old.path) (length (nth_list (lists_of reads.now) number)))) }
        ensures path { OnOk result (self.new.path.items ≡ self.old.path.items ++ number ∷ []) }
        ensures order { self.new.order ≡ self.old.order }
        ensures small { length (nth_list (lists_of reads.now) number) < 2 ^ 64 }
    {
        let place = self.path.len();
        let left = reads[number as usize].len();
        self.path.push(number)?;
        self.states[number as usize] = State::Open { place, left };
        Ok(())
    }

    /// Takes the last number from the path into the order.
    fn close(&mut self, last: u32) -> Result<(), Memory>
        requires { last < vec_len self.old.states }
        ensures states { OnOk result (self.new.states.items
            ≡ slice_set self.old.states.items last Done) }
        ensures path { OnOk result (self.new.path.items
            ≡ take (vec_len self.old.path - 1) self.old.path.items) }
        ensures order { OnOk result (self.new.order.items ≡ self.old.order.items ++ last ∷ []) }
    {
        self.order.push(last)?;
        self.path.pop();
        self.states[last as usize] = State::Done;
        Ok(())
    }

    /// The order in which the numbers were done.
    pub(crate) fn into_order(self) -> Vec<u32>
        ensures { result ≡ self.order }
    {
        self.order
    }
}
