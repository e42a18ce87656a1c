//! Why there is no tree.

ghost use Rattle.std.specs.Prelude.{◌≡◌};

use fx_base::Memory;
use std::alloc::{AllocError, AllocFailed};

/// Why the descent has no tree.
#[derive(Clone, Copy)]
pub enum End {
    /// There is none within the limit.
    Refused,
    Memory,
}

impl From<Memory> for End {
    ghost use Rattle.fx_parser.specs.declared.descent_end.End.TheVariants.{Memory};

    ghost from_gives = { λ _ e. e ≡ Memory };

    fn from(_: Memory) -> End {
        End::Memory
    }
}

impl From<AllocError> for End {
    ghost use Rattle.fx_parser.specs.declared.descent_end.End.TheVariants.{Memory};

    ghost from_gives = { λ _ e. e ≡ Memory };

    fn from(_: AllocError) -> End {
        End::Memory
    }
}

impl<T: Drop> From<AllocFailed<T>> for End {
    ghost use Rattle.fx_parser.specs.declared.descent_end.End.TheVariants.{Memory};

    ghost from_gives = { λ _ e. e ≡ Memory };

    fn from(_: AllocFailed<T>) -> End {
        End::Memory
    }
}
