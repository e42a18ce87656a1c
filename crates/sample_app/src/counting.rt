//! The rows that are kept.
ghost use Rattle.std.specs.Prelude.{◌≡◌, ◌∷◌, [], IfOk, IfSome, IsSome, Some, slice_get};
ghost use Rattle.row_keeper.specs.Over.{Becomes, HasCause};
ghost use Rattle.row_keeper.specs.Tables.{AreStatesOf, Tables, shapes_of};
ghost use Rattle.row_keeper.specs.Shaped.{by};
ghost use Rattle.sample_app.specs.Counts.{HasRowCount, every_row as every_row_of};

use fx_base::{InOrder, Memory};
use fx_core::Schema;
use row_keeper::{Keeper, KeeperEnd};
use row_queries::{Key, KeyRange, Query, Test, TestNode};
use std::alloc::Global;

/// How many rows the first table has; where there is no table, none.
pub fn count_rows<K: Keeper>(
    alloc: Global,
    keeper: &mut K,
    schema: &Schema,
) -> Result<u32, KeeperEnd>
    requires shaped { K.shaped keeper.old ≡ by schema.now }
    requires sound { IfSome (K.told keeper.old)
        (λ (t : Tables). AreStatesOf schema.now.tables t.states) }
    ensures counted { IfOk result (λ n. Becomes K.Keeper keeper.old keeper.new (HasRowCount n)) }
    ensures cause { HasCause K.Keeper keeper.old keeper.new result }
    ensures mode { K.in_transaction keeper.new ≡ K.in_transaction keeper.old }
    ensures loan { K.loan keeper.new ≡ K.loan keeper.old }
{
    if schema.tables.as_slice().is_empty() {
        return Ok(0);
    }
    count_first(alloc, keeper)
}

/// How many rows the first table has.
fn count_first<K: Keeper>(alloc: Global, keeper: &mut K) -> Result<u32, KeeperEnd>
    requires table { IsSome (slice_get (shapes_of (K.shaped keeper.old).now) 0) }
    ensures counted { IfOk result (λ n. Becomes K.Keeper keeper.old keeper.new (HasRowCount n)) }
    ensures cause { HasCause K.Keeper keeper.old keeper.new result }
    ensures mode { K.in_transaction keeper.new ≡ K.in_transaction keeper.old }
    ensures loan { K.loan keeper.new ≡ K.loan keeper.old }
{
    let query = every_row(alloc)?;
    match keeper.count(&query) {
        Ok(count) => Ok(count),
        Err(end) => Err(end),
    }
}

/// Asks for every row of the first table.
fn every_row(alloc: Global) -> Result<Query, Memory>
    ensures { IfOk result (λ q. q ≡ every_row_of) }
{
    let from = Key::from_bytes(Vec::new(alloc));
    let mut ranges = InOrder::new(alloc);
    ranges.push(KeyRange { from, upto: None })?;
    Ok(Query {
        table: 0,
        column: 0,
        ranges,
        test: Test {
            node: TestNode::All,
        },
        order: None,
        take: None,
    })
}
