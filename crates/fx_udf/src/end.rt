//! Why functions have no order, or a tree isn't expanded.
ghost use Rattle.std.specs.Prelude.{◌≡◌};

use fx_base::Memory;
use std::alloc::{AllocError, AllocFailed};

/// Why functions have no order, or a tree isn't expanded.
#[derive(Drop)]
pub enum ExpandEnd {
    /// Functions that call one another in a circle. The first is the least, and stands at the end
    /// again.
    Recursion(Vec<u32>),
    /// The whole tree has more than 100,000 nodes.
    TooLarge,
    /// Scopes of tables stand in one another so deep, more than three.
    TooNested(u32),
    /// Scopes of any kind stand in one another so deep, more than 255.
    TooManyScopes(u32),
    /// Memory ran out, also where the whole tree would have more than 500 levels, since all that
    /// walks a tree takes memory for each of them.
    Memory,
}

impl From<Memory> for ExpandEnd {
    ghost use Rattle.fx_udf.specs.declared.end.ExpandEnd.TheVariants.{Memory as OutOfMemory};

    ghost from_gives = { λ _ e. e ≡ OutOfMemory };

    fn from(_: Memory) -> ExpandEnd {
        ExpandEnd::Memory
    }
}

impl From<AllocError> for ExpandEnd {
    ghost use Rattle.fx_udf.specs.declared.end.ExpandEnd.TheVariants.{Memory as OutOfMemory};

    ghost from_gives = { λ _ e. e ≡ OutOfMemory };

    fn from(_: AllocError) -> ExpandEnd {
        ExpandEnd::Memory
    }
}

impl<T: Drop> From<AllocFailed<T>> for ExpandEnd {
    ghost use Rattle.fx_udf.specs.declared.end.ExpandEnd.TheVariants.{Memory as OutOfMemory};

    ghost from_gives = { λ _ e. e ≡ OutOfMemory };

    fn from(_: AllocFailed<T>) -> ExpandEnd {
        ExpandEnd::Memory
    }
}
