// Laws of calls over tables.
ghost use Rattle.fx_eval.specs.Laws.{ErrorIsWorth, MadeIsWorth, OneVisits, TypedCanMake};
ghost use Rattle.fx_eval.specs.Demands.{AnswersAreValues, ConstantsAreReady, FoundAreReady};
ghost use Rattle.fx_eval.specs.Demands.{SettledAreReady, SettledAreSmall, SettledAreValues};

use fx_plan::laws::{answers_are_values, sketches_can_plan};
use fx_plan::{settled_are_no_more, settled_are_worth, settled_have_types};
use fx_semantics::{one_value, values_fit};
use row_queries::rows_fit;

/// A law, and no work: what a function makes of the rows of a table, and of what its other parts
/// give, is what the call is worth, and so is an error in the place of the table.
pub fn made_is_worth()
    ensures made { MadeIsWorth }
    ensures error { ErrorIsWorth }
{}

/// A law, and no work: a well typed call over a table can be made of what its parts give, where
/// what stands around fits.
pub fn typed_can_make()
    ensures { TypedCanMake }
{}

/// A law, and no work: the constants of a query expression of which a tree takes something are
/// ready in the scope of a blank row where the tree is ready, and what a query with their values
/// answers, of which none is an error, is the value of the tree, or the row in whose scope the
/// tree's formula stands, and is ready.
pub fn queries_are_values()
    ensures ready { ConstantsAreReady }
    ensures worth { AnswersAreValues }
    ensures found { FoundAreReady }
{
    values_fit();
    sketches_can_plan();
    answers_are_values();
    rows_fit();
}

/// A law, and no work: a tree that is ready is so with the values of the constants of its query
/// expression in their places, what it is worth so it is worth, and it is no larger.
pub fn settled_are_values()
    ensures ready { SettledAreReady }
    ensures worth { SettledAreValues }
    ensures small { SettledAreSmall }
{
    values_fit();
    settled_have_types();
    settled_are_worth();
    settled_are_no_more();
}

/// A law, and no work: how many rows a tree visits is one number, where the values of its sources
/// are told.
pub fn visits_are_one()
    ensures { OneVisits }
{
    one_value();
}
