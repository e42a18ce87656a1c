// The row of a key.
ghost use Rattle.std.specs.Prelude.{◌≡◌, ◌∷◌, [], IfOk, IfSome, IsSomeAnd, slice_get};
ghost use Rattle.fx_types.specs.ValueView.{view};
ghost use Rattle.fx_value.specs.Keys.{key_bytes};
ghost use Rattle.fx_value.specs.Order.{IsScalar};
ghost use Rattle.row_queries.specs.TableRows.{IsRowOf};
ghost use Rattle.row_keeper.specs.Over.{Becomes, BeganStays, HasCause};
ghost use Rattle.row_keeper.specs.Rules.{only_key};
ghost use Rattle.row_keeper.specs.Tables.{shapes_of};
ghost use Rattle.row_imports.specs.Lines.{CanSeek, FindsKeyed, one_keyed};

use fx_base::{InOrder, Memory};
use fx_types::{Cmp, Value};
use fx_value::{keys_order, value_is_proper};
use row_keeper::{Keeper, KeeperEnd};
use row_queries::{Key, KeyRange, Query, Row, Test, TestNode, asked_once};
use std::alloc::Global;

// The range of a key alone.
fn only(alloc: Global, key: &Value) -> Result<KeyRange, Memory>
    requires { IsScalar (view key.now) }
    ensures { IfOk result (λ r. r ≡ only_key (key_bytes (view key.now))) }
{
    let from = Key::of(alloc, key)?;
    let mut bytes = Vec::from_slice(alloc, from.as_bytes())?;
    bytes.push(0)?;
    let upto = Some(Key::from_bytes(bytes));
    Ok(KeyRange { from, upto })
}

// The range of a key as the only one.
fn alone(alloc: Global, key: &Value) -> Result<InOrder<KeyRange>, Memory>
    requires { IsScalar (view key.now) }
    ensures { IfOk result (λ rs. rs ≡ only_key (key_bytes (view key.now)) ∷ []) }
{
    let mut ranges = InOrder::new(alloc);
    ranges.push(only(alloc, key)?)?;
    Ok(ranges)
}

// Asks for the first row of a key.
fn query_of(alloc: Global, table: u16, column: u16, key: &Value) -> Result<Query, Memory>
    requires { IsScalar (view key.now) }
    ensures { IfOk result (λ q. q ≡ one_keyed table column (view key.now)) }
{
    Ok(Query {
        table,
        column,
        ranges: alone(alloc, key)?,
        // Beside the range, by which a keeper finds the row: the test decides by the value itself.
        test: Test {
            node: TestNode::Compare(Cmp::Eq, column, key.copy(alloc)?),
        },
        order: None,
        take: Some(1),
    })
}

/// The first row that has a key in the unique column of a number, if there is one. One call of the
/// keeper.
pub(crate) fn find_keyed<K: Keeper>(
    alloc: Global,
    keeper: &mut K,
    table: u16,
    column: u16,
    key: &Value,
) -> Result<Option<Row>, KeeperEnd>
    requires { CanSeek (shapes_of (K.shaped keeper.old).now) table column (view key.now) }
    ensures found { IfOk result (λ r. Becomes K.Keeper keeper.old keeper.new
        (FindsKeyed table column (view key.now) r)) }
    ensures fit { IfOk result (λ r. IfSome r (λ row. IsSomeAnd
        (slice_get (shapes_of (K.shaped keeper.old).now) table) (λ t. IsRowOf t row))) }
    ensures began { BeganStays K.Keeper keeper.old keeper.new }
    ensures cause { HasCause K.Keeper keeper.old keeper.new result }
    ensures mode { K.in_transaction keeper.new ≡ K.in_transaction keeper.old }
    ensures shaped { K.shaped keeper.new ≡ K.shaped keeper.old }
    ensures loan { K.loan keeper.new ≡ K.loan keeper.old }
{
    // These are called for what they say: rows that stand by rising numbers are asked in that
    // order, and values that count as one have one key.
    asked_once();
    keys_order();
    value_is_proper(key);
    let query = query_of(alloc, table, column, key)?;
    match keeper.scan(&query) {
        Ok(answer) => {
            let mut rows = answer.rows.into_items();
            Ok(rows.pop())
        }
        Err(end) => Err(end),
    }
}
