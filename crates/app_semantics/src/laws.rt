// Laws of fresh values.
ghost use Rattle.app_semantics.specs.Holding.{FittingHolds};
ghost use Rattle.app_semantics.specs.Laws.{FreshFits, OneFresh, OneFreshAt};

use fx_semantics::one_value;

/// A law, and no work: over a session whose values fit an accepted app, each fresh value fits the
/// type of its cell.
pub fn fresh_fits()
    ensures { FreshFits }
{}

/// A law, and no work: over a session whose values fit an accepted app, each cell has one fresh
/// value.
pub fn one_fresh()
    ensures { OneFresh }
{
    one_value();
}

/// A law, and no work: over a session whose values fit an accepted app, a cell has one fresh value,
/// whatever those have that it doesn't need.
pub fn one_fresh_at()
    ensures { OneFreshAt }
{
    one_value();
}

/// A law, and no work: the values of a session that fits an app's names fit them.
pub fn fitting_holds()
    ensures { FittingHolds }
{}
