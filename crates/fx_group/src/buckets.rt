// Rows that are put into groups one after another.
ghost use Rattle.std.specs.Prelude.{◌≡◌, ◌<◌, ◌++◌, ◌∷◌, [], IfOk, OnOk, List, length, ℕ};
ghost use Rattle.std.specs.BTreeMap as tree;
ghost use Rattle.std.specs.List.{All};
ghost use Rattle.fx_tables.specs.Groups.{value_of};
ghost use Rattle.fx_value.specs.Columns.{Row};
ghost use Rattle.fx_value.specs.Keys.{IsProper, key_bytes};
ghost use Rattle.fx_value.specs.Order.{IsScalar};
ghost use Rattle.fx_group.specs.Buckets as held;

use fx_base::Memory;
use fx_types::values::{Fields, Value};
use fx_types::words::Words;
use fx_value::{key_of, value_is_proper};
use std::alloc::Global;
use std::collections::BTreeMap;

// The rows of each key, in the order in which the keys first appear.
#[derive(Drop)]
pub(crate) struct Buckets {
    // The first row of each key.
    pub(crate) firsts: Vec<Fields>,
    // The rows of each key, at the place of its first row.
    pub(crate) groups: Vec<Vec<Fields>>,
    // The place of each key, by the bytes of its values. Equal values, and no others, have equal
    // bytes.
    pub(crate) places: BTreeMap<Vec<Vec<u8>>, usize>,
}

impl Buckets {
    // No rows.
    pub(crate) fn new(alloc: Global) -> Buckets
        ensures { (ns : List (List ℕ)) → held.HoldsGroups ns result [] }
    {
        Buckets {
            firsts: Vec::new(alloc),
            groups: Vec::new(alloc),
            places: BTreeMap::new(alloc),
        }
    }
}

// Puts a row behind those of its key.
pub(crate) fn put_row(
    alloc: Global,
    buckets: &mut Buckets,
    keys: &[Words],
    row: Fields,
) -> Result<(), Memory>
    requires key { held.HasKey keys.now row }
    requires held { (rows : List Row) × held.HoldsGroups keys.now buckets.old rows }
    ensures proper { OnOk result (All (λ n. IsProper (value_of n row)) keys.now) }
    ensures held { (rows : List Row) → held.HoldsGroups keys.now buckets.old rows
        → OnOk result (held.HoldsGroups keys.now buckets.new (rows ++ row ∷ [])) }
{
    let key = bytes_of(alloc, &row, keys)?;
    match place_of(&buckets.places, &key) {
        Some(place) => put_behind(&mut buckets.groups, place, row),
        None => open_group(alloc, buckets, key, row),
    }
}

// The place of a key that there is already.
fn place_of(places: &BTreeMap<Vec<Vec<u8>>, usize>, key: &Vec<Vec<u8>>) -> Option<usize>
    ensures { result ≡ tree.get held.key_order places.now key.now }
{
    places.get(key).copied()
}

// Puts a row behind those of a group.
fn put_behind(groups: &mut Vec<Vec<Fields>>, place: usize, row: Fields) -> Result<(), Memory>
    requires { place < length groups.old.items }
    ensures { OnOk result (held.items_of groups.new.items
        ≡ held.with_behind place row (held.items_of groups.old.items)) }
{
    groups[place].push(row)?;
    Ok(())
}

// Begins the group of a new key with its first row.
fn open_group(
    alloc: Global,
    buckets: &mut Buckets,
    key: Vec<Vec<u8>>,
    row: Fields,
) -> Result<(), Memory>
    ensures { OnOk result (held.IsOpened buckets.old buckets.new key row) }
{
    let place = buckets.groups.len();
    buckets.firsts.push(row.copy(alloc)?)?;
    let mut rows = Vec::new(alloc);
    rows.push(row)?;
    buckets.groups.push(rows)?;
    buckets.places.insert(key, place)?;
    Ok(())
}

// The bytes of the values of a row's key.
fn bytes_of(alloc: Global, row: &Fields, keys: &[Words]) -> Result<Vec<Vec<u8>>, Memory>
    requires { held.HasKey keys.now row.now }
    ensures proper { IfOk result (λ _. All (λ n. IsProper (value_of n row.now)) keys.now) }
    ensures bytes { IfOk result (λ k. held.items_of k.items ≡ held.bytes_of keys.now row.now) }
{
    let mut bytes = Vec::with_capacity(alloc, keys.len())?;
    for key in keys {
        bytes.push(bytes_under(alloc, row, key)?)?;
    }
    Ok(bytes)
}

// The bytes of the value of a field; a field that is missing counts as blank.
fn bytes_under(alloc: Global, row: &Fields, name: &Words) -> Result<Vec<u8>, Memory>
    requires { IsScalar (value_of name.now row.now) }
    ensures proper { IsProper (value_of name.now row.now) }
    ensures bytes { IfOk result (λ k. k.items ≡ key_bytes (value_of name.now row.now)) }
{
    match row.value(name) {
        Some(value) => {
            value_is_proper(value);
            key_of(alloc, value)
        }
        None => key_of(alloc, &Value::Blank),
    }
}
