// The distinct ones among values.
ghost use Rattle.std.specs.Prelude.{◌≡◌, ◌++◌, ◌∷◌, [], IfOk, OnOk, List, map};
ghost use Rattle.std.specs.List.{All};
ghost use Rattle.fx_types.specs.Values.{Data};
ghost use Rattle.fx_types.specs.ValueView.{view};
ghost use Rattle.fx_value.specs.Keys.{IsProper};
ghost use Rattle.fx_value.specs.Order.{AreOfOneType, IsScalar};
ghost use Rattle.fx_tables.specs.Distinct.{distinct_of, value_row as value_row_of};
ghost use Rattle.fx_value.specs.Ordered.{AreKeys};
ghost use Rattle.fx_tables.specs.Seen.{HoldsFirsts};

use crate::unions::value_row;
use fx_base::Memory;
use fx_types::values::{Fields, Rows, Value};
use fx_value::{key_of, keys_order, value_is_proper};
use std::alloc::Global;
use std::collections::BTreeSet;

/// The values as rows with the one column `Value`, each value once, in the order in which they
/// first appear. They are scalars of one type, or blank.
pub fn distinct(alloc: Global, values: &[Value]) -> Result<Rows, Memory>
    requires { AreKeys (map view values.now) }
    ensures { IfOk result (λ r. r ≡ map value_row_of (distinct_of (map view values.now))) }
{
    let mut seen = BTreeSet::new(alloc);
    let mut rows = Vec::new(alloc);
    for value in values {
        take_first(alloc, &mut seen, &mut rows, value)?;
    }
    Ok(Rows::from_items(rows))
}

// Takes a value, unless an equal one was taken before.
fn take_first(
    alloc: Global,
    seen: &mut BTreeSet<Vec<u8>>,
    rows: &mut Vec<Fields>,
    value: &Value,
) -> Result<(), Memory>
    requires { IsScalar (view value.now) }
    ensures proper { IsProper (view value.now) }
    ensures adds { (ds : List Data) → HoldsFirsts seen.old rows.old.items ds
        → All (λ e. AreOfOneType e (view value.now)) ds → All IsProper ds
        → OnOk result (HoldsFirsts seen.new rows.new.items (ds ++ view value.now ∷ [])) }
{
    // Both are called for what they say: equal values, and no others, have equal keys.
    value_is_proper(value);
    keys_order();
    let key = key_of(alloc, value)?;
    if !seen.insert(key)? {
        return Ok(());
    }
    rows.push(value_row(alloc, value.copy(alloc)?)?)?;
    Ok(())
}
