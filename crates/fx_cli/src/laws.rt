//! Laws of runs.
ghost use Rattle.fx_cli.specs.Outside.{sight};
ghost use Rattle.fx_cli.specs.Statuses.{EightIsAnotherSchema, FiveIsAKeeperFault};
ghost use Rattle.fx_cli.specs.Statuses.{ServiceIsLeftServing, SixIsAFaultOfDoors};
ghost use Rattle.fx_cli.specs.Statuses.{ZeroOfASampleIsGenerated};

use crate::files::Files;
use crate::sink::Sink;
use app_wire::clock::Clock;
use app_wire::doors::Doors;
use row_keeper::Keeper;

/// A law, and no work: a sample load that ends with 0 put the sample to its requests, and wrote
/// what is told of that.
pub fn zero_of_a_sample_is_generated<D: Doors, K: Keeper, F: Files, O: Sink, C: Clock>()
    ensures { ZeroOfASampleIsGenerated (sight D.Doors K.Keeper F.Files O.Sink C.Clock) }
{}

/// A law, and no work: a run that ends with 5 counted a fault of the keeper.
pub fn five_is_a_keeper_fault<D: Doors, K: Keeper, F: Files, O: Sink, C: Clock>()
    ensures { FiveIsAKeeperFault (sight D.Doors K.Keeper F.Files O.Sink C.Clock) }
{}

/// A law, and no work: one that ends with 6 counted a fault of the doors.
pub fn six_is_a_fault_of_doors<D: Doors, K: Keeper, F: Files, O: Sink, C: Clock>()
    ensures { SixIsAFaultOfDoors (sight D.Doors K.Keeper F.Files O.Sink C.Clock) }
{}

/// A law, and no work: where the keeper is opened for the app of a file, one that ends with 8 found
/// another schema in it.
pub fn eight_is_another_schema<D: Doors, K: Keeper, F: Files, O: Sink, C: Clock>()
    ensures { EightIsAnotherSchema (sight D.Doors K.Keeper F.Files O.Sink C.Clock) }
{}

/// A law, and no work: where the words serve an app, a run that ends with 0 or 9 opened its keeper
/// over the store that they name, and leaves it shaped for the app that is served in the end and
/// its doors listening on the port that they name.
pub fn a_service_is_left_serving<D: Doors, K: Keeper, F: Files, O: Sink, C: Clock>()
    ensures { ServiceIsLeftServing (sight D.Doors K.Keeper F.Files O.Sink C.Clock) }
{}
