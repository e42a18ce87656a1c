// Laws of performings.
ghost use Rattle.fx_behave.specs.CutOff.{CutsGoOn};
ghost use Rattle.fx_behave.specs.Unique.{OnePerforming, PerformingsWrite};

use fx_deeds::World;
use fx_tables::row_calls::{
    count_if_once, count_once, greatest_once, least_once, sort_once, sum_once,
};

/// A law, and no work: over sources that give one value each, a tree has one performing at most.
pub fn one_performing<W: World>()
    ensures { OnePerforming W.gives }
{
    sum_once();
    least_once();
    greatest_once();
    count_once();
    count_if_once();
    sort_once();
}

/// A law, and no work: a performing writes all that it changes.
pub fn performings_write<W: World>()
    ensures { PerformingsWrite W.gives }
{}

/// A law, and no work: over sources that give one value each, the whole performing goes on from
/// where one was cut off.
pub fn cuts_go_on<W: World>()
    ensures { CutsGoOn W.gives }
{
    sum_once();
    least_once();
    greatest_once();
    count_once();
    count_if_once();
    sort_once();
}
