//! Why there is no app.

use crate::broken::Broken;
use fx_base::Memory;
use std::alloc::{AllocError, AllocFailed};

/// Why there is no app.
#[derive(Drop)]
pub enum AppEnd {
    /// It breaks these rules.
    Refused(Vec<Broken>),
    /// Memory ran out.
    Memory,
}

impl From<Memory> for AppEnd {
    ghost use Rattle.std.specs.Prelude.{◌≡◌};
    ghost use Rattle.fx_core.specs.declared.app_end.AppEnd.TheVariants.{Memory as OutOfMemory};

    ghost from_gives = { λ _ e. e ≡ OutOfMemory };

    fn from(_error: Memory) -> AppEnd {
        AppEnd::Memory
    }
}

impl From<AllocError> for AppEnd {
    ghost use Rattle.std.specs.Prelude.{◌≡◌};
    ghost use Rattle.fx_core.specs.declared.app_end.AppEnd.TheVariants.{Memory as OutOfMemory};

    ghost from_gives = { λ _ e. e ≡ OutOfMemory };

    fn from(_error: AllocError) -> AppEnd {
        AppEnd::Memory
    }
}

impl<T: Drop> From<AllocFailed<T>> for AppEnd {
    ghost use Rattle.std.specs.Prelude.{◌≡◌};
    ghost use Rattle.fx_core.specs.declared.app_end.AppEnd.TheVariants.{Memory as OutOfMemory};

    ghost from_gives = { λ _ e. e ≡ OutOfMemory };

    fn from(_error: AllocFailed<T>) -> AppEnd {
        AppEnd::Memory
    }
}
