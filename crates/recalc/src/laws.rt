// Laws of the values that are kept, and of the rows that formulas visit.
ghost use Rattle.recalc.specs.ItemVisits.{OneItemVisits};
ghost use Rattle.recalc.specs.Kept.{CleanIsFresh};
ghost use Rattle.recalc.specs.Visits.{OneCellVisits};

use crate::app_semantics::one_fresh_at;
use crate::fx_semantics::one_value;

/// A law, and no work: the value that is kept of a clean cell is the one that its formula has
/// afresh, and so is each that it needs.
pub fn clean_is_fresh()
    ensures { CleanIsFresh }
{}

/// A law, and no work: how many rows evaluating a cell visits is one number, where all that its app
/// reads is told.
pub fn cell_visits_are_one()
    ensures { OneCellVisits }
{
    one_value();
    one_fresh_at();
}

/// A law, and no work: how many rows evaluating a formula of a template for an item visits is one
/// number, where all that its app reads is told.
pub fn item_visits_are_one()
    ensures { OneItemVisits }
{
    one_value();
    one_fresh_at();
}
