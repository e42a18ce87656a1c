// The keys of scalars.
ghost use Rattle.std.specs.Prelude.{◌≡◌, ◌∷◌, IfOk};
ghost use Rattle.fx_types.specs.ValueView.{view};
ghost use Rattle.fx_value.specs.Keys.{key_bytes, IsProper, KeysOrder, KeysTell};
ghost use Rattle.fx_value.specs.Order.{IsScalar};

use fx_base::Memory;
use fx_types::values::Value;
use std::alloc::Global;

/// The bytes that stand for a scalar in an index, which order as `compare` does.
pub fn key_of(alloc: Global, v: &Value) -> Result<Vec<u8>, Memory>
    requires { IsScalar (view v.now) }
    ensures { IfOk result (λ k. k.items ≡ key_bytes (view v.now)) }
{
    match v {
        Value::Blank => key(alloc, 0, &[]),
        Value::Number(number) => {
            // Shifted by 2^63, so that bytes without a sign order as the numbers do.
            let shifted = i128::from(number.units()) + (1 << 63);
            key(alloc, 1, &(shifted as u64).to_be_bytes())
        }
        Value::Text(text) => key(alloc, 1, text.as_str().as_bytes()),
        Value::Boolean(truth) => key(alloc, 1, &[u8::from(*truth)]),
        Value::Date(day) => {
            let shifted = i64::from(day.days()) + (1 << 31);
            key(alloc, 1, &(shifted as u32).to_be_bytes())
        }
        _ => unreachable!(),
    }
}

// A key: 0 for blank and else 1, and behind it the bytes of the value.
fn key(alloc: Global, head: u8, bytes: &[u8]) -> Result<Vec<u8>, Memory>
    ensures { IfOk result (λ k. k.items ≡ head ∷ bytes.now) }
{
    let mut key = Vec::new(alloc);
    key.push(head)?;
    key.extend_from_slice(bytes)?;
    Ok(key)
}

/// A fact about every value, for the law of keys: a number and a day are in their ranges, and a
/// text is of scalar values.
// Each read is for its clause alone, by which what it gives is in range.
pub fn value_is_proper(v: &Value)
    ensures { IsProper (view v.now) }
{
    match v {
        Value::Number(number) => {
            let _units = number.units();
        }
        Value::Date(day) => {
            let _days = day.days();
        }
        Value::Text(text) => {
            let _text = text.as_str();
        }
        _ => {}
    }
}

/// A law, and no work: keys order as `compare` does, and are equal exactly where it answers
/// `Equal`.
pub fn keys_order()
    ensures order { KeysOrder }
    ensures tell { KeysTell }
{}
