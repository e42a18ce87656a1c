//! Bags of numbers.
ghost use Rattle.number_bags.specs.Entries.{spread_now, spread_then};
ghost use Rattle.number_bags.specs.Kept.{IsKept};
ghost use Rattle.number_bags.specs.Rising.{with_option};

use crate::counts::Counts;
use crate::number::Number;
use crate::sums::Sums;

/// Numbers, some of them more than once, as a transaction began and now.
///
/// A change is made ready first, which may want memory and changes nothing that is told. Then it is
/// carried out without memory, and so are both ends of a transaction.
#[derive(Drop)]
pub struct NumberBag {
    pub counts: Counts,
    /// The number that came last, until there is room for it among the counts.
    // So one can be put in without memory that wasn't known before.
    pub late: Option<Number>,
    pub late_then: Option<Number>,
    pub sums: Sums,
    pub sums_then: Sums,
    ghost kept: { IsKept sums sums_then (with_option late (spread_now counts.entries.entries))
        (with_option late_then (spread_then counts.entries.entries)) },
}
