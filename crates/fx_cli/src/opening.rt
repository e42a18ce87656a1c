//! Keepers, as a run opens them.
ghost use Rattle.std.specs.Prelude.{◌≡◌, IfNone, IfOk, IsErrOf, OnErr, Some, false};
ghost use Rattle.fx_base.specs.Silence.{IsLater};
ghost use Rattle.fx_core.specs.Lawful.{IsLawfulSchema};
ghost use Rattle.row_keeper.specs.declared.keeper.KeeperEnd.TheVariants.{Failed};
ghost use Rattle.row_keeper.specs.Shaped.{by};
ghost use Rattle.row_requests.specs.Sound.{AreSound};
ghost use Rattle.fx_cli.specs.Opening.{Counted, IsAsked, IsStopped, Unsaid};

use fx_core::Schema;
use row_keeper::{Keeper, KeeperEnd};

/// Attaches the store of a name, and gives the keeper the shape of a schema. Where it keeps another
/// schema it answers that one.
pub(crate) fn open_keeper<K: Keeper>(
    keeper: &mut K,
    name: &str,
    schema: &Schema,
) -> Result<Option<Schema>, KeeperEnd>
    requires idle { K.in_transaction keeper.old ≡ false }
    requires lawful { IsLawfulSchema schema.now }
    ensures asked { IfOk result (λ other. IsAsked K.Keeper name.now schema.now other keeper.old
        keeper.new) }
    ensures shaped { IfOk result (λ other. IfNone other (K.shaped keeper.new ≡ by schema.now)) }
    ensures sound { IfOk result (λ other. IfNone other (AreSound schema.now (K.told keeper.new))) }
    ensures stopped { OnErr result (IsStopped K.Keeper name.now Unsaid keeper.old keeper.new) }
    ensures failed { IsErrOf result Failed → IsStopped K.Keeper name.now Counted keeper.old
        keeper.new }
    ensures idle { K.in_transaction keeper.new ≡ false }
    ensures later { IsLater (K.marks keeper.old) (K.marks keeper.new) }
{
    match keeper.attach(name) {
        Ok(()) => keeper.shape(schema),
        Err(end) => Err(end),
    }
}
