//! A law of occurrences.
ghost use Rattle.fx_primitives.specs.Substitution.{OneListOfOccurrences};

/// A law, and no work: a text has one list of separate occurrences of another, so that `substitute`
/// has one answer.
pub fn one_list_of_occurrences()
    ensures { OneListOfOccurrences }
{}
