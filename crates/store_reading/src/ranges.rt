// Which keys lie in ranges.
ghost use Rattle.std.specs.Prelude.{◌≡◌};
ghost use Rattle.row_queries.specs.Ranges.{in_range, in_ranges, is_before_end};

use row_queries::KeyRange;

/// Whether a key comes before the end of a range, where there is one.
fn ends_behind(range: &KeyRange, key: &[u8]) -> bool
    ensures { result ≡ is_before_end range.now.upto key.now }
{
    match &range.upto {
        Some(upto) => key.cmp(upto.as_bytes()).is_lt(),
        None => true,
    }
}

/// Whether a key lies in a range.
fn is_in_range(key: &[u8], range: &KeyRange) -> bool
    ensures { result ≡ in_range key.now range.now }
{
    range.from.as_bytes().cmp(key).is_le() && ends_behind(range, key)
}

/// Whether a key lies in one of some ranges.
pub fn is_in_ranges(ranges: &[KeyRange], key: &[u8]) -> bool
    ensures { result ≡ in_ranges ranges.now key.now }
{
    ranges.iter().any(|range| is_in_range(key, range))
}
