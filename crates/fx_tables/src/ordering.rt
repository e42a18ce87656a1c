// Rows in the order of their keys.
ghost use Rattle.std.specs.Prelude.{◌≡◌, IfOk, map, length};
ghost use Rattle.std.specs.List.{zip};
ghost use Rattle.fx_types.specs.ValueView.{view};
ghost use Rattle.fx_tables.specs.Keyed.{pair_of};
ghost use Rattle.fx_value.specs.Ordered.{IsOrderedBy, OrderedOnce, directed as directed_order};

use fx_base::Memory;
use fx_types::values::{Fields, Rows, Value};
use fx_value::{compare, compare_is_total};
use std::alloc::Global;
use std::cmp::Ordering;

// A row beside its key.
#[derive(Drop)]
struct Keyed<'a> {
    key: &'a Value,
    row: Fields,
}

/// The rows in the order of their keys, which stand at their places, or in the order turned round.
/// Rows of equal keys keep their order either way.
pub fn order_by(alloc: Global, rows: Rows, keys: &[Value], down: bool) -> Result<Rows, Memory>
    requires { length keys.now ≡ length rows }
    ensures { IfOk result (λ r. IsOrderedBy down (map view keys.now) rows r) }
{
    // A law is called for what it says, here that `sort_by` is given an order.
    compare_is_total();
    let mut keyed = beside_keys(alloc, rows, keys)?;
    keyed.sort_by(|a, b| directed_order(down, a.key, b.key))?;
    rows_of(alloc, keyed)
}

// Each row beside its key.
fn beside_keys(alloc: Global, rows: Rows, keys: &[Value]) -> Result<Vec<Keyed<'_>>, Memory>
    requires { length keys.now ≡ length rows }
    ensures { IfOk result (λ k. map pair_of k.items ≡ zip (map view keys.now) rows) }
{
    let items = rows.into_items();
    let mut keyed = Vec::with_capacity(alloc, items.len())?;
    for row in items {
        let key = &keys[keyed.len()];
        keyed.push(Keyed { key, row })?;
    }
    Ok(keyed)
}

// How two keys compare, either way.
fn directed_order(down: bool, a: &Value, b: &Value) -> Ordering
    ensures { result ≡ directed_order down (view a.now) (view b.now) }
{
    if down { compare(b, a) } else { compare(a, b) }
}

// The rows alone.
fn rows_of(alloc: Global, keyed: Vec<Keyed<'_>>) -> Result<Rows, Memory>
    ensures { IfOk result (λ r. r ≡ map (λ k. k.row) keyed.entry.items) }
{
    let mut rows = Vec::with_capacity(alloc, keyed.len())?;
    for item in keyed {
        rows.push(item.row)?;
    }
    Ok(Rows::from_items(rows))
}

/// A law, and no work: rows have one order by their keys.
pub fn ordered_once()
    ensures { OrderedOnce }
{
    compare_is_total();
}
