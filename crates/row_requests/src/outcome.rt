//! The end of a transaction.
ghost use Rattle.std.specs.Prelude.{◌≡◌, true, false, OnErr, OnOk};
ghost use Rattle.fx_base.specs.Silence.{MayFallSilent, SilenceCause};
ghost use Rattle.fx_base.specs.Telling.{Stays};
ghost use Rattle.fx_core.specs.declared.schema.Schema.{Schema};
ghost use Rattle.row_keeper.specs.Over.{Becomes, HasCause};
ghost use Rattle.row_keeper.specs.Shaped.{by};

use row_keeper::{Keeper, KeeperEnd};

/// Ends a transaction: with its changes where it is accepted, and else without them. A commit that
/// is refused has ended it without them.
pub fn settle<K: Keeper>(keeper: &mut K, accepted: bool) -> Result<(), KeeperEnd>
    requires begun { K.in_transaction keeper.old ≡ true }
    requires shaped { (s : Schema) × (K.shaped keeper.old ≡ by s) }
    ensures kept { accepted ≡ true → OnOk result (Becomes K.Keeper keeper.old keeper.new Stays) }
    ensures undone { accepted ≡ false → OnOk result
        (MayFallSilent (SilenceCause (K.marks keeper.old) (K.marks keeper.new)) Stays
        (K.began keeper.old) (K.told keeper.new)) }
    ensures stopped { OnErr result (MayFallSilent
        (SilenceCause (K.marks keeper.old) (K.marks keeper.new)) Stays (K.began keeper.old)
        (K.told keeper.new)) }
    ensures cause { HasCause K.Keeper keeper.old keeper.new result }
    ensures idle { K.in_transaction keeper.new ≡ false }
    ensures shaped { K.shaped keeper.new ≡ K.shaped keeper.old }
    ensures loan { K.loan keeper.new ≡ K.loan keeper.old }
{
    if accepted {
        keeper.commit()
    } else {
        keeper.back();
        Ok(())
    }
}
