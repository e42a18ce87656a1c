//! Laws of behaviour formulas.
ghost use Rattle.fx_behave.specs.Unique.{GivesOne};
ghost use Rattle.session_requests.specs.WorldContext.{source_gives};
ghost use Rattle.session_requests.specs.OneActing.{OneActing};

use crate::app_semantics::{fitting_holds, one_fresh_at};
use fx_tables::row_calls::{
    count_if_once, count_once, greatest_once, least_once, sort_once, sum_once,
};

/// A law, and no work: a behaviour formula does one thing at most, whatever the tables were as the
/// transaction began.
pub fn one_acting()
    ensures { OneActing }
{
    one_fresh_at();
    fitting_holds();
    sum_once();
    least_once();
    greatest_once();
    count_once();
    count_if_once();
    sort_once();
}

/// A law, and no work: a source gives one value at most in a state.
pub(crate) fn one_source_value()
    ensures { GivesOne source_gives }
{
    one_fresh_at();
    fitting_holds();
}
