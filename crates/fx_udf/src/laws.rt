// Laws of the trees that trees with calls become.
ghost use Rattle.fx_udf.specs.Laws.{AllHaveExpansions, OneExpansion};

/// A law, and no work: where it stands, a tree with calls becomes one tree without calls at most.
pub fn expansions_are_one()
    ensures { OneExpansion }
{}

/// A law, and no work: where functions have an order, each tree becomes a tree without calls whose
/// calls have an argument for each parameter.
pub fn all_have_expansions()
    ensures { AllHaveExpansions }
{}
