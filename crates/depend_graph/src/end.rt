//! Why there is no order.

use fx_number::Memory;
use std::alloc::{AllocError, AllocFailed};

/// Why there is no order.
#[derive(Debug, Drop)]
pub enum OrderEnd {
    /// Numbers that read one another in a circle. The first is the least, and stands at the end
    /// again.
    Cycle(Vec<u32>),
    /// Memory ran out.
    Memory,
}

impl From<Memory> for OrderEnd {
    ghost use Rattle.std.specs.Prelude.{◌≡◌};
    ghost use Rattle.depend_graph.specs.declared.end.OrderEnd.TheVariants.{Memory as OutOfMemory};

    ghost from_gives = { λ _ e. e ≡ OutOfMemory };

    fn from(_error: Memory) -> OrderEnd {
        OrderEnd::Memory
    }
}

impl From<AllocError> for OrderEnd {
    ghost use Rattle.std.specs.Prelude.{◌≡◌};
    ghost use Rattle.depend_graph.specs.declared.end.OrderEnd.TheVariants.{Memory as OutOfMemory};

    ghost from_gives = { λ _ e. e ≡ OutOfMemory };

    fn from(_error: AllocError) -> OrderEnd {
        OrderEnd::Memory
    }
}

impl<T: Drop> From<AllocFailed<T>> for OrderEnd {
    ghost use Rattle.std.specs.Prelude.{◌≡◌};
    ghost use Rattle.depend_graph.specs.declared.end.OrderEnd.TheVariants.{Memory as OutOfMemory};

    ghost from_gives = { λ _ e. e ≡ OutOfMemory };

    fn from(_error: AllocFailed<T>) -> OrderEnd {
        OrderEnd::Memory
    }
}
