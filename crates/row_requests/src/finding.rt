// The rows that requests ask for.
ghost use Rattle.std.specs.Prelude.{◌≡◌, ◌<◌, ◌∷◌, [], IfOk, IfSome, IsSome, IsSomeAnd, OnErr};
ghost use Rattle.std.specs.Prelude.{length, slice_get};
ghost use Rattle.std.specs.List.{All};
ghost use Rattle.fx_base.specs.Telling.{Stays};
ghost use Rattle.fx_types.specs.ValueView.{view};
ghost use Rattle.fx_value.specs.Keys.{key_bytes};
ghost use Rattle.row_queries.specs.TableRows.{IsRowOf, id_value as id_value_of};
ghost use Rattle.row_keeper.specs.Numbered.{one_row as one_row_query};
ghost use Rattle.row_keeper.specs.Over.{Becomes, BeganStays, HasCause};
ghost use Rattle.row_keeper.specs.Rules.{only_key};
ghost use Rattle.row_keeper.specs.Tables.{shapes_of};
ghost use Rattle.row_requests.specs.Queries.{FindsRow, FindsRows, VisitsPast, after_key};
ghost use Rattle.row_requests.specs.Queries.{beyond as beyond_key, next_rows as next_rows_query};

use fx_base::{InOrder, Memory};
use fx_number::Num;
use fx_types::{Cmp, Value};
use fx_value::keys_order;
use row_keeper::{Keeper, KeeperEnd};
use row_queries::{Key, KeyRange, Query, Row, Test, TestNode, asked_once};
use std::alloc::Global;

/// The ten-thousandths of 1.
const ONE: i64 = 10_000;

/// A row's number, as a value of the column `ID`.
fn id_value(id: u32) -> Value
    ensures { view result ≡ id_value_of id }
{
    match Num::from_units(i64::from(id) * ONE) {
        Some(number) => Value::Number(number),
        None => unreachable!(),
    }
}

/// The key of a row's number.
fn id_key(alloc: Global, id: u32) -> Result<Key, Memory>
    ensures { IfOk result (λ k. k ≡ key_bytes (id_value_of id)) }
{
    Key::of(alloc, &id_value(id))
}

/// The first bytes after a key.
fn end_of(alloc: Global, key: &Key) -> Result<Key, Memory>
    ensures { IfOk result (λ k. k ≡ after_key key.now) }
{
    let mut bytes = Vec::from_slice(alloc, key.as_bytes())?;
    bytes.push(0)?;
    Ok(Key::from_bytes(bytes))
}

/// The range of a number's key alone.
fn only(alloc: Global, id: u32) -> Result<KeyRange, Memory>
    ensures { IfOk result (λ r. r ≡ only_key (key_bytes (id_value_of id))) }
{
    let from = id_key(alloc, id)?;
    let upto = Some(end_of(alloc, &from)?);
    Ok(KeyRange { from, upto })
}

/// The range of the keys after a number's.
fn beyond(alloc: Global, id: u32) -> Result<KeyRange, Memory>
    ensures { IfOk result (λ r. r ≡ beyond_key (key_bytes (id_value_of id))) }
{
    let from = end_of(alloc, &id_key(alloc, id)?)?;
    Ok(KeyRange { from, upto: None })
}

/// A range as the only one.
fn alone(alloc: Global, range: KeyRange) -> Result<InOrder<KeyRange>, Memory>
    ensures { IfOk result (λ rs. rs ≡ range ∷ []) }
{
    let mut ranges = InOrder::new(alloc);
    ranges.push(range)?;
    Ok(ranges)
}

/// Asks for the row of a number.
fn one_row(alloc: Global, table: u16, id: u32) -> Result<Query, Memory>
    ensures { IfOk result (λ q. q ≡ one_row_query table id) }
{
    Ok(Query {
        table,
        column: 0,
        ranges: alone(alloc, only(alloc, id)?)?,
        // Beside the range, by which a keeper finds the row: the test decides by the number itself.
        test: Test {
            node: TestNode::Compare(Cmp::Eq, 0, id_value(id)),
        },
        order: None,
        take: None,
    })
}

/// Asks for the rows of greater numbers, one more than a page shows.
fn next_rows(alloc: Global, table: u16, after: u32) -> Result<Query, Memory>
    ensures { IfOk result (λ q. q ≡ next_rows_query table after) }
{
    Ok(Query {
        table,
        column: 0,
        ranges: alone(alloc, beyond(alloc, after)?)?,
        test: Test {
            node: TestNode::All,
        },
        order: None,
        take: Some(101),
    })
}

/// The row of a number, if there is one.
pub(crate) fn find_row<K: Keeper>(
    alloc: Global,
    keeper: &mut K,
    table: u16,
    id: u32,
) -> Result<Option<Row>, KeeperEnd>
    requires { IsSome (slice_get (shapes_of (K.shaped keeper.old).now) table) }
    ensures found { IfOk result (λ r. Becomes K.Keeper keeper.old keeper.new
        (FindsRow table id r)) }
    ensures fit { IfOk result (λ r. IfSome r (λ row. IsSomeAnd
        (slice_get (shapes_of (K.shaped keeper.old).now) table) (λ t. IsRowOf t row))) }
    ensures began { BeganStays K.Keeper keeper.old keeper.new }
    ensures cause { HasCause K.Keeper keeper.old keeper.new result }
    ensures mode { K.in_transaction keeper.new ≡ K.in_transaction keeper.old }
    ensures shaped { K.shaped keeper.new ≡ K.shaped keeper.old }
    ensures loan { K.loan keeper.new ≡ K.loan keeper.old }
{
    // Called for what it says: rows that stand by rising numbers are asked in that order.
    asked_once();
    let query = one_row(alloc, table, id)?;
    match keeper.scan(&query) {
        Ok(answer) => {
            let mut rows = answer.rows.into_items();
            Ok(rows.pop())
        }
        Err(end) => Err(end),
    }
}

/// The rows of greater numbers, one more than a page shows.
pub(crate) fn find_rows<K: Keeper>(
    alloc: Global,
    keeper: &mut K,
    table: u16,
    after: u32,
) -> Result<Vec<Row>, KeeperEnd>
    requires { IsSome (slice_get (shapes_of (K.shaped keeper.old).now) table) }
    ensures found { IfOk result (λ rows. Becomes K.Keeper keeper.old keeper.new
        (FindsRows table after rows.items)) }
    ensures fit { IfOk result (λ rows. IsSomeAnd
        (slice_get (shapes_of (K.shaped keeper.old).now) table) (λ t. All (IsRowOf t) rows.items)) }
    ensures visits { VisitsPast table after (K.told keeper.new) (K.visited keeper.old)
        (K.visited keeper.new) }
    ensures err { OnErr result (Becomes K.Keeper keeper.old keeper.new Stays) }
    ensures cause { HasCause K.Keeper keeper.old keeper.new result }
    ensures mode { K.in_transaction keeper.new ≡ K.in_transaction keeper.old }
    ensures shaped { K.shaped keeper.new ≡ K.shaped keeper.old }
    ensures loan { K.loan keeper.new ≡ K.loan keeper.old }
{
    // Both are called for what they say: such rows are asked in that order, and their keys go as
    // their numbers do.
    asked_once();
    keys_order();
    let query = next_rows(alloc, table, after)?;
    match keeper.scan(&query) {
        Ok(answer) => Ok(answer.rows.into_items()),
        Err(end) => Err(end),
    }
}
