// Laws of query expressions.
ghost use Rattle.fx_plan.specs.Constants.{SketchesCanPlan};
ghost use Rattle.fx_plan.specs.Consumers.{CountsAreValues, FirstsAreValues, FoundAreValues};
ghost use Rattle.fx_plan.specs.Consumers.{ScansAreFirstRows, ScansAreValues, TotalsAreValues};
ghost use Rattle.fx_plan.specs.Limited.{FirstRowsAre, LimitedSketches, LimitedTypes, MixedAreTaken};
ghost use Rattle.fx_plan.specs.Mixed.{QueriesAreUnmixed, SplitsAreQueries};
ghost use Rattle.fx_plan.specs.TestValues.{TestsAreConditions};
ghost use Rattle.fx_plan.specs.Wholes.{PlansAreWhole};

use fx_value::compare_is_total;

/// A law, and no work: the constants of the sketch of a well typed tree are well typed in the scope
/// of the table's row, and with values that fit their types the sketch can be planned.
pub fn sketches_can_plan()
    ensures { SketchesCanPlan }
{}

/// A law, and no work: a row test comes to what the value of the condition decides from which its
/// pattern was made, with the values of its constants, errors included.
pub fn tests_are_conditions()
    ensures { TestsAreConditions }
{
    compare_is_total();
}

/// A law, and no work: where no constant is an error, the query of a plan gives the rows of its
/// query expression, in their order and with their ties, or the first of them.
pub fn plans_are_whole()
    ensures { PlansAreWhole }
{
    compare_is_total();
}

/// A law, and no work: of a query expression that isn't taken whole a formula takes the first rows,
/// and its error.
pub fn first_rows_are()
    ensures { FirstRowsAre }
{}

/// A law, and no work: what is asked of a mixed filter is one query, and it is worth that of its
/// other conditions over what is taken of this; no query expression is mixed.
pub fn mixed_filters()
    ensures queries { SplitsAreQueries }
    ensures unmixed { QueriesAreUnmixed }
    ensures taken { MixedAreTaken }
{}

/// A law, and no work: a tree whose query expressions give what is taken of them has the type that
/// it had.
pub fn limited_types()
    ensures { LimitedTypes }
{}

/// A law, and no work: a query expression that is taken whole has the sketch that it had, with what
/// its constants take.
pub fn limited_sketches()
    ensures { LimitedSketches }
{}

/// A law, and no work: what scans, counts and totals of planned queries answer is the value of the
/// query expression, of its first rows, and of the functions that take the whole of it.
pub fn answers_are_values()
    ensures scans { ScansAreValues }
    ensures first_rows { ScansAreFirstRows }
    ensures counts { CountsAreValues }
    ensures firsts { FirstsAreValues }
    ensures found { FoundAreValues }
    ensures totals { TotalsAreValues }
{
    compare_is_total();
}
