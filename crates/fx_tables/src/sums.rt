// What is summed up of many numbers.
ghost use Rattle.std.specs.Prelude.{◌≡◌, ◌++◌, ◌∷◌, [], ◌+◌, ◌-◌, ◌^◌, ◌<◌, ◌≤◌, ◌+ℤ◌, IsSomeAnd};
ghost use Rattle.std.specs.Prelude.{List, map};
ghost use Rattle.fx_types.specs.Values.{Data};
ghost use Rattle.fx_types.specs.ValueView.{view};
ghost use Rattle.fx_value.specs.Aggregates.{IsGreater, IsLesser, IsBoundedSum, SumsUp, numbers_in};

use fx_number::Num;
use fx_types::aggregates::Totals;
use fx_types::values::Value;

/// How many numbers there are among these values, their sum in ten-thousandths, and the least and
/// the greatest of them. What is no number, as blank, is passed over.
pub fn totals(values: &[Value]) -> Totals
    ensures { SumsUp (numbers_in (map view values.now)) result }
{
    let mut totals = Totals {
        count: 0,
        sum: 0,
        least: None,
        greatest: None,
    };
    for value in values {
        totals = with_value(totals, value);
    }
    totals
}

// The totals with one more value.
fn with_value(totals: Totals, value: &Value) -> Totals
    requires room { totals.count < 2 ^ 64 - 1 }
    requires within { IsBoundedSum totals.count totals.sum }
    ensures few { result.count ≤ totals.count + 1 }
    ensures within { IsBoundedSum result.count result.sum }
    ensures adds { (ds : List Data) → SumsUp (numbers_in ds) totals
        → SumsUp (numbers_in (ds ++ view value.now ∷ [])) result }
{
    match value {
        Value::Number(number) => with_number(totals, *number),
        _ => totals,
    }
}

// The totals with one more number.
fn with_number(totals: Totals, number: Num) -> Totals
    requires room { totals.count < 2 ^ 64 - 1 }
    requires within { IsBoundedSum totals.count totals.sum }
    ensures count { result.count ≡ totals.count + 1 }
    ensures sum { result.sum ≡ totals.sum +ℤ number }
    ensures within { IsBoundedSum result.count result.sum }
    ensures least { IsSomeAnd result.least (IsLesser totals.least number) }
    ensures greatest { IsSomeAnd result.greatest (IsGreater totals.greatest number) }
{
    Totals {
        count: totals.count + 1,
        sum: totals.sum + i128::from(number.units()),
        least: Some(lesser(totals.least, number)),
        greatest: Some(greater(totals.greatest, number)),
    }
}

fn lesser(least: Option<Num>, number: Num) -> Num
    ensures { IsLesser least number result }
{
    match least {
        Some(least) if least.units() <= number.units() => least,
        _ => number,
    }
}

fn greater(greatest: Option<Num>, number: Num) -> Num
    ensures { IsGreater greatest number result }
{
    match greatest {
        Some(greatest) if number.units() <= greatest.units() => greatest,
        _ => number,
    }
}
