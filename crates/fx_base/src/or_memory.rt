//! The end of what may be refused, and for which memory may be wanting.

use crate::Memory;
use std::alloc::{AllocError, AllocFailed};

/// Why there is no answer.
#[derive(Clone, Copy)]
pub enum OrMemory<E> {
    /// It is refused, for this reason.
    Refused(E),
    /// Memory ran out.
    Memory,
}

// Written by hand: `from_gives` tells clauses which end `?` makes of each kind of want of memory.
impl<E> From<Memory> for OrMemory<E> {
    ghost use Rattle.std.specs.Prelude.{◌≡◌};
    ghost use Rattle.fx_base.specs.declared.or_memory.OrMemory.TheVariants.{Memory as OutOfMemory};

    ghost from_gives = { λ _ e. e ≡ OutOfMemory };

    fn from(_error: Memory) -> OrMemory<E> {
        OrMemory::Memory
    }
}

impl<E> From<AllocError> for OrMemory<E> {
    ghost use Rattle.std.specs.Prelude.{◌≡◌};
    ghost use Rattle.fx_base.specs.declared.or_memory.OrMemory.TheVariants.{Memory as OutOfMemory};

    ghost from_gives = { λ _ e. e ≡ OutOfMemory };

    fn from(_error: AllocError) -> OrMemory<E> {
        OrMemory::Memory
    }
}

impl<E, T: Drop> From<AllocFailed<T>> for OrMemory<E> {
    ghost use Rattle.std.specs.Prelude.{◌≡◌};
    ghost use Rattle.fx_base.specs.declared.or_memory.OrMemory.TheVariants.{Memory as OutOfMemory};

    ghost from_gives = { λ _ e. e ≡ OutOfMemory };

    fn from(_error: AllocFailed<T>) -> OrMemory<E> {
        OrMemory::Memory
    }
}
