// Laws of accepted apps.
ghost use Rattle.app_loader.specs.Accepted.{AcceptedHoldsTables, AcceptedIsSound};

use fx_semantics::admitted_is_placed;
use fx_typing::{admitted_is_typed, pure_is_quiet};

/// A law, and no work: an app that is accepted is sound. Its names are lawful and those of its
/// formulas, each formula has its type, each that acts can be performed, and each stands behind
/// those that it leans on.
pub fn accepted_is_sound()
    ensures { AcceptedIsSound }
{
    admitted_is_typed();
    pure_is_quiet();
    admitted_is_placed();
}

/// A law, and no work: an empty table fits each collection of an app that is accepted, since some
/// formula collects rows in it.
pub fn accepted_holds_tables()
    ensures { AcceptedHoldsTables }
{}
