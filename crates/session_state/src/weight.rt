//! The weight of a session, and how much it may become.
ghost use Rattle.std.specs.Prelude.{◌≡◌, ◌+◌, ◌-◌, ◌^◌, ◌<◌, ◌≤◌, MatchOption, length, map};
ghost use Rattle.std.specs.Prelude.{vec_len, slice_set, true, false, if◌then◌else◌};
ghost use Rattle.std.specs.List.{sum_by};
ghost use Rattle.fx_types.specs.ValueView.{view};
ghost use Rattle.session_state.specs.Sessions.{may_weigh, weighed};

use fx_types::values::Value;
use fx_value::weighing::weigh;

/// The most that a session's variables and collections may come to weigh, in bytes.
const MOST: u128 = 4_194_304;

/// The weight where one part is changed for another. None where it is refused: where it would both
/// have grown and be over the most.
fn weight_after(weight: u128, old: u64, new: u64) -> Option<u128>
    requires { old ≤ weight }
    ensures { MatchOption result (may_weigh weight (weight - old + new) ≡ false)
        (λ w. (w ≡ weight - old + new) × (may_weigh weight (weight - old + new) ≡ true)) }
{
    let after = (weight - u128::from(old)).checked_add(u128::from(new))?;
    if after <= weight || after <= MOST {
        Some(after)
    } else {
        None
    }
}

/// Changes one of the values of which the weight is a part, where the weight may become what it
/// then is.
pub(crate) fn put(values: &mut Vec<Value>, weight: &mut u128, number: u32, value: Value) -> bool
    requires there { number < vec_len values.old }
    requires part { sum_by weighed (map view values.old.items) ≤ weight.old }
    ensures answer { result ≡ may_weigh weight.old
        (weight.old - sum_by weighed (map view values.old.items)
        + sum_by weighed (slice_set (map view values.old.items) number (view value))) }
    ensures values { values.new.items ≡ (if result then slice_set values.old.items number value else
        values.old.items) }
    ensures weight { weight.new ≡ (if result
        then weight.old - sum_by weighed (map view values.old.items)
        + sum_by weighed (slice_set (map view values.old.items) number (view value))
        else weight.old) }
{
    let place = number as usize;
    let old = weigh(&values[place]);
    let Some(after) = weight_after(*weight, old, weigh(&value)) else {
        return false;
    };
    values[place] = value;
    *weight = after;
    true
}

/// What values weigh together. In 128 bits no sum is too great.
pub(crate) fn total_weight(values: &[Value]) -> u128
    requires { length values.now < 2 ^ 63 }
    ensures sum { result ≡ sum_by weighed (map view values.now) }
    ensures few { result < 2 ^ 127 }
{
    let mut sum = 0u128;
    for value in values {
        sum += u128::from(weigh(value));
    }
    sum
}
