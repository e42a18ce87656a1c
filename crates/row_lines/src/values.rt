// Values of columns out of their keys.
ghost use Rattle.std.specs.Prelude.{◌≡◌, true, IfOk, IfSome};
ghost use Rattle.fx_types.specs.TypeView.{shape};
ghost use Rattle.fx_types.specs.ValueView.{view};
ghost use Rattle.fx_value.specs.Fits.{fits_in};
ghost use Rattle.fx_value.specs.Order.{IsScalar};

use fx_base::Memory;
use fx_number::Num;
use fx_types::{Day, Ty, Value, Words};
use std::alloc::Global;

/// The number whose count plus 2^63 has these eight bytes.
fn number_of(bytes: &[u8]) -> Option<Num> {
    let &[a, b, c, d, e, f, g, h] = bytes else {
        return None;
    };
    let shifted = i128::from(u64::from_be_bytes([a, b, c, d, e, f, g, h]));
    Num::from_units(i64::try_from(shifted - (1 << 63)).ok()?)
}

/// The date whose day plus 2^31 has these four bytes.
fn day_of(bytes: &[u8]) -> Option<Day> {
    let &[a, b, c, d] = bytes else {
        return None;
    };
    let shifted = i64::from(u32::from_be_bytes([a, b, c, d]));
    Day::of(i32::try_from(shifted - (1 << 31)).ok()?)
}

/// The text of these bytes.
fn text_of(alloc: Global, bytes: &[u8]) -> Result<Option<Words>, Memory> {
    match std::str::from_utf8(bytes) {
        Ok(text) => Ok(Some(Words::of(alloc, text)?)),
        Err(_) => Ok(None),
    }
}

/// The value of a type whose key has these bytes behind its first one.
fn value_behind(alloc: Global, ty: &Ty, bytes: &[u8]) -> Result<Option<Value>, Memory>
    ensures { IfOk result (λ o. IfSome o (λ v. IsScalar (view v)
        × (fits_in (view v) (shape ty.now) ≡ true))) }
{
    match ty {
        Ty::Number => match number_of(bytes) {
            Some(number) => Ok(Some(Value::Number(number))),
            None => Ok(None),
        },
        Ty::Text => match text_of(alloc, bytes)? {
            Some(text) => Ok(Some(Value::Text(text))),
            None => Ok(None),
        },
        Ty::Boolean => Ok(Some(Value::Boolean(matches!(bytes, [1])))),
        Ty::Date => match day_of(bytes) {
            Some(day) => Ok(Some(Value::Date(day))),
            None => Ok(None),
        },
        _ => Ok(None),
    }
}

/// The value of a type whose key this may be: if there is one with this key, it is this value.
pub fn value_of(alloc: Global, ty: &Ty, key: &[u8]) -> Result<Option<Value>, Memory>
    ensures { IfOk result (λ o. IfSome o (λ v. IsScalar (view v)
        × (fits_in (view v) (shape ty.now) ≡ true))) }
{
    match key {
        [] => Ok(None),
        [0, ..] => Ok(Some(Value::Blank)),
        [_, bytes @ ..] => value_behind(alloc, ty, bytes),
    }
}
