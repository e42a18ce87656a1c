//! Why a formula has no typed tree.

use fx_base::Memory;
use fx_core::Broken;
use std::alloc::{AllocError, AllocFailed};

/// Why a formula has no typed tree.
#[derive(Drop)]
pub enum InferEnd {
    /// It breaks this rule.
    Broken(Broken),
    /// Memory ran out.
    Memory,
}

impl From<Memory> for InferEnd {
    ghost use Rattle.std.specs.Prelude.{◌≡◌};
    ghost use Rattle.fx_infer.specs.declared.ends.InferEnd.TheVariants.{Memory as OutOfMemory};

    ghost from_gives = { λ _ e. e ≡ OutOfMemory };

    fn from(_error: Memory) -> InferEnd {
        InferEnd::Memory
    }
}

impl From<AllocError> for InferEnd {
    ghost use Rattle.std.specs.Prelude.{◌≡◌};
    ghost use Rattle.fx_infer.specs.declared.ends.InferEnd.TheVariants.{Memory as OutOfMemory};

    ghost from_gives = { λ _ e. e ≡ OutOfMemory };

    fn from(_error: AllocError) -> InferEnd {
        InferEnd::Memory
    }
}

impl<T: Drop> From<AllocFailed<T>> for InferEnd {
    ghost use Rattle.std.specs.Prelude.{◌≡◌};
    ghost use Rattle.fx_infer.specs.declared.ends.InferEnd.TheVariants.{Memory as OutOfMemory};

    ghost from_gives = { λ _ e. e ≡ OutOfMemory };

    fn from(_error: AllocFailed<T>) -> InferEnd {
        InferEnd::Memory
    }
}
