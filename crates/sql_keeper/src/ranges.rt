// Ranges of keys, and which numbers and lines lie in them.
ghost use Rattle.std.specs.Prelude.{◌≡◌, ◌≤◌, ◌^◌};
ghost use Rattle.row_queries.specs.Ranges.{in_range, in_ranges, is_before_end};

use row_lines::pieces::piece_at;
use row_queries::KeyRange;

/// The number of no row: one more than the last that a row may have.
const NO_ROW: u64 = 1 << 32;

/// Whether the key of a row's number comes before a bound.
fn is_before(id: u64, bound: &[u8]) -> bool
    requires { id ≤ 2 ^ 32 }
{
    let bytes = (id * 10_000 + (1 << 63)).to_be_bytes();
    match bound {
        [] => false,
        [mark, rest @ ..] => 1u8.cmp(mark).then(bytes.as_slice().cmp(rest)).is_lt(),
    }
}

/// The first number of a row, from 1 on, whose key doesn't come before a bound.
fn first_from(bound: &[u8]) -> u64
    ensures { result ≤ 2 ^ 32 }
{
    let mut low = 1;
    let mut high = NO_ROW;
    // Halved each time.
    'halving: for _ in 0..33 {
        if low >= high {
            return low;
        }
        let middle = low + (high - low) / 2;
        if is_before(middle, bound) {
            low = middle + 1;
        } else {
            high = middle;
        }
    }
    low
}

/// The first and the last number of rows in a range of their keys, if there are some.
pub fn numbers_in(range: &KeyRange) -> Option<(u32, u32)> {
    let low = first_from(range.from.as_bytes());
    let end = match &range.upto {
        Some(upto) => first_from(upto.as_bytes()),
        None => NO_ROW,
    };
    if low < end {
        Some((low as u32, (end - 1) as u32))
    } else {
        None
    }
}

/// Whether a key comes before the end of a range, where there is one.
fn ends_behind(range: &KeyRange, key: &[u8]) -> bool
    ensures { result ≡ is_before_end range.now.upto key.now }
{
    match &range.upto {
        Some(upto) => key.cmp(upto.as_bytes()).is_lt(),
        None => true,
    }
}

/// Whether a key lies in a range.
fn is_in_range(key: &[u8], range: &KeyRange) -> bool
    ensures { result ≡ in_range key.now range.now }
{
    range.from.as_bytes().cmp(key).is_le() && ends_behind(range, key)
}

/// Whether a key lies in one of some ranges.
pub fn is_in_ranges(ranges: &[KeyRange], key: &[u8]) -> bool
    ensures { result ≡ in_ranges ranges.now key.now }
{
    ranges.iter().any(|range| is_in_range(key, range))
}

/// Whether the key that a line has in a column lies in one of these ranges. Columns are counted
/// from 1.
pub fn lies_in(ranges: &[KeyRange], column: u16, body: &[u8]) -> bool {
    let Some(place) = column.checked_sub(1) else {
        return false;
    };
    match piece_at(body, place) {
        Some(key) => is_in_ranges(ranges, key),
        None => false,
    }
}
