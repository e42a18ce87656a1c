// Laws, and no work: an answer that is told by what holds of it is the only one.
ghost use Rattle.fx_tables.specs.Laws.{CountIfOnce, CountOnce, GreatestOnce, LeastOnce, SortOnce};
ghost use Rattle.fx_tables.specs.Laws.{SumOnce};

use crate::ordered_once;

/// Values have one sum.
pub fn sum_once()
    ensures { SumOnce }
{}

/// Values have one least number.
pub fn least_once()
    ensures { LeastOnce }
{}

/// Values have one greatest number.
pub fn greatest_once()
    ensures { GreatestOnce }
{}

/// A count is one number, or one error.
pub fn count_once()
    ensures { CountOnce }
{}

/// Conditions have one count of those that hold.
pub fn count_if_once()
    ensures { CountIfOnce }
{}

/// Rows have one order by their keys.
pub fn sort_once()
    ensures { SortOnce }
{
    ordered_once();
}
