// What bags of numbers do.
ghost use Rattle.std.specs.Prelude.{◌≡◌, ◌<◌, ◌^◌, [], length, Some, IfSome, OnOk};
ghost use Rattle.std.specs.Bool.{Decides};
ghost use Rattle.fx_number.specs.Decimal.{IsInRange};
ghost use Rattle.fx_value.specs.Aggregates.{SumsUp};
ghost use Rattle.number_bags.specs.Bags.{IsReady, now_in, then_in};
ghost use Rattle.number_bags.specs.Kept.{AreInRange};
ghost use Rattle.number_bags.specs.Rising.{IsRising, times, with_option, without_option};

use crate::bags::NumberBag;
use crate::changes::{absorb, is_counted, make_room, restore, settle, take};
use crate::counts::Counts;
use crate::extremes::{greater, greatest, least, lesser};
use crate::number::Number;
use crate::sums::{Sums, changed, has_place};
use fx_base::Memory;
use fx_number::Num;
use fx_types::Totals;
use std::alloc::Global;

/// A fact about a number, and no work.
fn in_range(number: &Option<Number>)
    ensures { IfSome number.now IsInRange }
{
    if let Some(number) = number {
        let _number = number.number();
    }
}

/// Whether a number is the one that came last.
fn is_late(late: &Option<Number>, number: Number) -> bool
    ensures { Decides result (late.now ≡ Some number) }
{
    match late {
        None => false,
        Some(late) => *late == number,
    }
}

/// The number behind a key, if there is one.
fn number_of(key: Option<Number>) -> Option<Num>
    ensures { result ≡ key }
{
    match key {
        None => None,
        Some(key) => Some(key.number()),
    }
}

impl NumberBag {
    /// No numbers.
    pub fn new(alloc: Global) -> NumberBag
        ensures { (now_in result ≡ []) × (then_in result ≡ []) }
    {
        NumberBag {
            counts: Counts::new(alloc),
            late: None,
            late_then: None,
            sums: Sums { count: 0, sum: 0 },
            sums_then: Sums { count: 0, sum: 0 },
        }
    }

    /// How many numbers there are.
    pub fn len(&self) -> u32
        ensures number { result ≡ length (now_in self.now) }
        ensures few { result < 2 ^ 32 }
    {
        self.sums.count
    }

    /// Whether a number stands there.
    pub fn has(&self, number: Number) -> bool
        ensures { Decides result (0 < times number (now_in self.now)) }
    {
        if is_late(&self.late, number) {
            return true;
        }
        is_counted(&self.counts, number)
    }

    /// Makes ready that a number is taken out, where it stands there, and that one is put in.
    pub fn prepare(&mut self, old: Option<Number>) -> Result<(), Memory>
        ensures now { now_in self.new ≡ now_in self.old }
        ensures then { then_in self.new ≡ then_in self.old }
        ensures ready { OnOk result (IsReady self.new old) }
    {
        has_place(self.sums)?;
        absorb(&mut self.counts, &self.late)?;
        self.late = None;
        make_room(&mut self.counts, &old)
    }

    /// Takes out the number for which it was made ready, where it stands there, and puts one in. It
    /// takes no memory.
    pub fn carry_out(&mut self, old: Option<Number>, new: Option<Number>)
        requires { IsReady self.old old }
        ensures now { now_in self.new ≡ with_option new (without_option old (now_in self.old)) }
        ensures then { then_in self.new ≡ then_in self.old }
    {
        in_range(&new);
        let gone = take(&mut self.counts, &old);
        self.sums = changed(self.sums, &gone, &new);
        self.late = new;
    }

    /// Ends a transaction without its changes, and takes no memory.
    pub fn restore(&mut self)
        ensures now { now_in self.new ≡ then_in self.old }
        ensures then { then_in self.new ≡ then_in self.old }
    {
        restore(&mut self.counts);
        self.late = self.late_then;
        self.sums = self.sums_then;
    }

    /// Ends a transaction with its changes, and takes no memory.
    pub fn settle(&mut self)
        ensures now { now_in self.new ≡ now_in self.old }
        ensures then { then_in self.new ≡ now_in self.old }
    {
        settle(&mut self.counts);
        self.late_then = self.late;
        self.sums_then = self.sums;
    }

    /// What the numbers come to.
    pub fn totals(&self) -> Totals
        ensures sums { SumsUp (now_in self.now) result }
        ensures in_range { AreInRange (now_in self.now) }
        ensures rising { IsRising (now_in self.now) }
        ensures few { length (now_in self.now) < 2 ^ 32 }
    {
        // `len` is called for its clause, by which the map's keys are in order.
        let _len = self.counts.entries.len();
        Totals {
            count: u64::from(self.sums.count),
            sum: self.sums.sum,
            least: number_of(lesser(least(&self.counts), self.late)),
            greatest: number_of(greater(greatest(&self.counts), self.late)),
        }
    }
}
