// Laws of settled query expressions.
ghost use Rattle.fx_plan.specs.Settled.{SearchesAreWorth, SearchesHaveTypes, SettledAreNoMore};
ghost use Rattle.fx_plan.specs.Settled.{SettledAreWorth, SettledHaveTypes};

/// A law, and no work: what a query expression or a search is worth in which the values of its
/// constants stand for them, it is worth itself.
pub fn settled_are_worth()
    ensures queries { SettledAreWorth }
    ensures searches { SearchesAreWorth }
{}

/// A law, and no work: where the values of its constants fit theirs, it has the types that it had.
pub fn settled_have_types()
    ensures queries { SettledHaveTypes }
    ensures searches { SearchesHaveTypes }
{}

/// A law, and no work: it is no larger, and doesn't act where it didn't.
pub fn settled_are_no_more()
    ensures { SettledAreNoMore }
{}
