//! What was kept when a performing began.
use std::marker::Brand;

/// A type that stands for what was kept then. A performing is proved for whatever that was, and who
/// begins it says what it is.
pub(crate) trait Start {
    ghost use Rattle.recalc.specs.Kept.{CacheState};

    /// What was kept.
    ghost start: { CacheState };
}

impl Start for Brand {
    ghost use Rattle.std.specs.Prelude.{[]};
    ghost use Rattle.fx_types.specs.Values.{blank};
    ghost use Rattle.recalc.specs.Kept.{no_cache_room};

    ghost start = { record {
      emptied = 0;
      last = 0;
      versions = [];
      stamps = [];
      values = record { cells = []; day = blank };
      room = no_cache_room;
    } };
}
