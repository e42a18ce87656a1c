// The least and the greatest of counted numbers.
ghost use Rattle.std.specs.Prelude.{List, Some, ℤ};
ghost use Rattle.fx_value.specs.Aggregates.{IsGreater, IsGreatest, IsLeast, IsLesser};
ghost use Rattle.number_bags.specs.Entries.{spread_now};
ghost use Rattle.number_bags.specs.Rising.{with_option};

use crate::counts::Counts;
use crate::number::Number;

/// The least number that is counted. Only those that a transaction has taken out are passed over.
pub fn least(counts: &Counts) -> Option<Number>
    ensures { IsLeast (spread_now counts.now.entries.entries) result }
{
    let _len = counts.entries.len();
    for (number, count) in &counts.entries {
        if count.is > 0 {
            return Some(*number);
        }
    }
    None
}

/// The greatest number that is counted.
pub fn greatest(counts: &Counts) -> Option<Number>
    ensures { IsGreatest (spread_now counts.now.entries.entries) result }
{
    let _len = counts.entries.len();
    for (number, count) in counts.entries.iter().rev() {
        if count.is > 0 {
            return Some(*number);
        }
    }
    None
}

/// The lesser of two numbers.
fn lesser_of(first: Number, second: Number) -> Number
    ensures { IsLesser (Some first) second result }
{
    if first.units() <= second.units() {
        first
    } else {
        second
    }
}

/// The greater of two numbers.
fn greater_of(first: Number, second: Number) -> Number
    ensures { IsGreater (Some first) second result }
{
    if second.units() <= first.units() {
        first
    } else {
        second
    }
}

/// The lesser of two numbers, where there are two.
pub fn lesser(first: Option<Number>, second: Option<Number>) -> Option<Number>
    ensures { (zs : List ℤ) → IsLeast zs first → IsLeast (with_option second zs) result }
{
    match (first, second) {
        (Some(first), Some(second)) => Some(lesser_of(first, second)),
        (None, number) | (number, None) => number,
    }
}

/// The greater of two numbers, where there are two.
pub fn greater(first: Option<Number>, second: Option<Number>) -> Option<Number>
    ensures { (zs : List ℤ) → IsGreatest zs first → IsGreatest (with_option second zs) result }
{
    match (first, second) {
        (Some(first), Some(second)) => Some(greater_of(first, second)),
        (None, number) | (number, None) => number,
    }
}
