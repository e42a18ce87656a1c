//! Ranges of keys. A key is the bytes that stand for a scalar in an index.
ghost use Rattle.std.specs.Prelude.{◌≡◌, IfOk};
ghost use Rattle.std.specs.Cmp.Lexicographic.{slice_cmp, nat_list_eq_equiv, nat_list_cmp_total};
ghost use Rattle.std.specs.Cmp.Lexicographic.{texts_po, texts_ties};
ghost use Rattle.std.specs.Cmp.{partial_equiv_from_equiv};
ghost use Rattle.std.specs.Ordering.{nat_cmp};
ghost use Rattle.fx_types.specs.ValueView.{view};
ghost use Rattle.fx_value.specs.Keys.{key_bytes};
ghost use Rattle.fx_value.specs.Order.{IsScalar};

use fx_base::{InOrder, Memory};
use fx_types::Value;
use fx_value::key_of;
use std::alloc::Global;
use std::cmp::Ordering;
use std::marker::Model;

/// The bytes that stand for a scalar in an index, or a bound of a range of such bytes.
#[derive(Drop)]
pub struct Key {
    bytes: Vec<u8>,
}

impl Model for Key {
    ghost use Rattle.std.specs.Prelude.{ℕ, List};

    ghost Value = { List ℕ };

    ghost view = { λ a. a.bytes.items };
}

/// The keys from one on, up to but without another, or all from there on.
#[derive(Drop)]
pub struct KeyRange {
    pub from: Key,
    pub upto: Option<Key>,
}

/// Ranges in order.
pub type RangeList = InOrder<KeyRange>;

impl Key {
    /// The key of a scalar.
    pub fn of(alloc: Global, scalar: &Value) -> Result<Key, Memory>
        requires { IsScalar (view scalar.now) }
        ensures { IfOk result (λ k. k ≡ key_bytes (view scalar.now)) }
    {
        let bytes = key_of(alloc, scalar)?;
        Ok(Key { bytes })
    }

    /// These bytes as a bound.
    pub fn from_bytes(bytes: Vec<u8>) -> Key
        ensures { result ≡ bytes.items }
    {
        Key { bytes }
    }

    /// The bytes.
    pub fn as_bytes(&self) -> &[u8]
        ensures { result.now ≡ self.now }
    {
        self.bytes.as_slice()
    }
}

// By hand, since a derived comparison needs that what is seen of a key determines it, and its
// capacity isn't seen.
impl PartialEq for Key {
    ghost use Rattle.std.specs.Prelude.{bytes_eq};

    ghost eq = { bytes_eq };

    ghost laws = { partial_equiv_from_equiv nat_list_eq_equiv };

    fn eq(&self, other: &Key) -> bool {
        self.bytes.as_slice() == other.bytes.as_slice()
    }
}

impl Eq for Key {
    ghost laws = { nat_list_eq_equiv };
}

impl PartialOrd for Key {
    ghost use Rattle.std.specs.Prelude.{Some};

    ghost partial_cmp = { λ a b. Some (slice_cmp nat_cmp a b) };

    ghost laws = { texts_po };

    fn partial_cmp(&self, other: &Key) -> Option<Ordering> {
        Some(self.cmp(other))
    }
}

impl Ord for Key {
    ghost use Rattle.std.specs.Prelude.{refl};

    ghost cmp = { slice_cmp nat_cmp };

    ghost total = { nat_list_cmp_total };

    ghost matches_partial_cmp = { λ a b. refl };

    ghost matches_eq = { texts_ties };

    fn cmp(&self, other: &Key) -> Ordering {
        self.bytes.as_slice().cmp(other.bytes.as_slice())
    }
}
