// Queries of whole tables, and of the row of a number.
ghost use Rattle.std.specs.Prelude.{◌≡◌, ◌∷◌, [], Some, None, IfOk, MatchOption};
ghost use Rattle.std.specs.Bool.{Decides};
ghost use Rattle.fx_value.specs.Keys.{key_bytes};
ghost use Rattle.row_queries.specs.Ranges.{AreRangesRising};
ghost use Rattle.row_queries.specs.TableRows.{id_value};
ghost use Rattle.row_keeper.specs.Numbered.{one_row as one_row_query};
ghost use Rattle.row_keeper.specs.Rules.{only_key};
ghost use Rattle.row_counts.specs.Filling.{after_key, beyond as beyond_key};
ghost use Rattle.row_counts.specs.Filling.{page_after as page_after_query};
ghost use Rattle.row_counts.specs.Whole.{HoldAllKeys, IsOfAllRows, later_key, next_held};

use fx_base::{InOrder, Memory};
use fx_types::Cmp;
use row_keeper::scans::number_of;
use row_queries::{Key, KeyRange, Query, Test, TestNode};
use std::alloc::Global;

/// How many rows are read at once.
// They are in memory together, of up to two thousand bytes each.
pub const PAGE: u32 = 1_000;

/// The later of two keys.
fn later<'a>(first: &'a [u8], second: &'a [u8]) -> &'a [u8]
    ensures { result.now ≡ later_key first.now second.now }
{
    if first.cmp(second).is_le() {
        second
    } else {
        first
    }
}

/// Before which key all lie in ranges, where this one is behind those that hold all before another.
/// There is none where every key lies in them.
fn held_with<'a>(held: &'a [u8], range: &'a KeyRange) -> Option<&'a [u8]>
    ensures { MatchOption result (next_held held.now range.now ≡ None)
        (λ keys. next_held held.now range.now ≡ Some keys.now) }
{
    if range.from.as_bytes().cmp(held).is_le() {
        match &range.upto {
            None => None,
            Some(upto) => Some(later(held, upto.as_bytes())),
        }
    } else {
        Some(held)
    }
}

/// Whether every key lies in one of the ranges.
fn hold_every_key(ranges: &[KeyRange]) -> bool
    requires { AreRangesRising ranges.now }
    ensures { Decides result (HoldAllKeys ranges.now) }
{
    let mut held: &[u8] = &[];
    for range in ranges {
        match held_with(held, range) {
            None => return true,
            Some(keys) => held = keys,
        }
    }
    false
}

/// Whether a query asks all rows of its table, and is given all.
pub fn asks_all(query: &Query) -> bool
    requires { AreRangesRising query.now.ranges }
    ensures { Decides result (IsOfAllRows query.now) }
{
    matches!(query.test.node, TestNode::All)
        && query.take.is_none()
        && hold_every_key(query.ranges.as_slice())
}

/// The key of a row's number.
fn id_key(alloc: Global, id: u32) -> Result<Key, Memory>
    ensures { IfOk result (λ k. k ≡ key_bytes (id_value id)) }
{
    Key::of(alloc, &number_of(id))
}

/// The first bytes after a key.
fn end_of(alloc: Global, key: &Key) -> Result<Key, Memory>
    ensures { IfOk result (λ k. k ≡ after_key key.now) }
{
    let mut bytes = Vec::from_slice(alloc, key.as_bytes())?;
    bytes.push(0)?;
    Ok(Key::from_bytes(bytes))
}

/// The range of the key of a row's number alone.
fn only(alloc: Global, id: u32) -> Result<KeyRange, Memory>
    ensures { IfOk result (λ r. r ≡ only_key (key_bytes (id_value id))) }
{
    let from = id_key(alloc, id)?;
    let upto = Some(end_of(alloc, &from)?);
    Ok(KeyRange { from, upto })
}

/// The range of the keys after a number's.
fn beyond(alloc: Global, id: u32) -> Result<KeyRange, Memory>
    ensures { IfOk result (λ r. r ≡ beyond_key (key_bytes (id_value id))) }
{
    let from = end_of(alloc, &id_key(alloc, id)?)?;
    Ok(KeyRange { from, upto: None })
}

/// A range as the only one.
fn alone(alloc: Global, range: KeyRange) -> Result<InOrder<KeyRange>, Memory>
    ensures { IfOk result (λ rs. rs ≡ range ∷ []) }
{
    let mut ranges = InOrder::new(alloc);
    ranges.push(range)?;
    Ok(ranges)
}

/// Asks for the row of a number.
pub fn one_row(alloc: Global, table: u16, id: u32) -> Result<Query, Memory>
    ensures { IfOk result (λ q. q ≡ one_row_query table id) }
{
    Ok(Query {
        table,
        column: 0,
        ranges: alone(alloc, only(alloc, id)?)?,
        // Beside the range, by which a keeper finds the row: the test decides by the number itself.
        test: Test {
            node: TestNode::Compare(Cmp::Eq, 0, number_of(id)),
        },
        order: None,
        take: None,
    })
}

/// Asks for the first rows of greater numbers, as many as a page has.
pub fn page_after(alloc: Global, table: u16, after: u32) -> Result<Query, Memory>
    ensures { IfOk result (λ q. q ≡ page_after_query table after) }
{
    Ok(Query {
        table,
        column: 0,
        ranges: alone(alloc, beyond(alloc, after)?)?,
        test: Test {
            node: TestNode::All,
        },
        order: None,
        take: Some(PAGE),
    })
}
