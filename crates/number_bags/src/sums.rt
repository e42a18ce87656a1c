// How many numbers there are, and their sum.
ghost use Rattle.std.specs.Prelude.{◌≡◌, ◌+◌, ◌≤◌, ◌+ℤ◌, OnOk};
ghost use Rattle.number_bags.specs.Sums.{HasPlace, HasPlaceAfter, size_of, value_of};

use crate::number::Number;
use fx_base::Memory;

#[derive(Clone, Copy, Debug, PartialEq, Eq)]
pub struct Sums {
    pub count: u32,
    pub sum: i128,
}

// No bag gets near it: so many numbers of 64 bits would have to stand there.
const FARTHEST: i128 = 1 << 100;

/// Whether there may be one number more, and one other.
pub fn has_place(sums: Sums) -> Result<(), Memory>
    ensures { OnOk result (HasPlace sums) }
{
    if sums.count < u32::MAX && -FARTHEST <= sums.sum && sums.sum <= FARTHEST {
        Ok(())
    } else {
        Err(Memory)
    }
}

/// The sums with one number less, if it is one, and one more.
pub fn changed(sums: Sums, old: &Option<Number>, new: &Option<Number>) -> Sums
    requires place { HasPlace sums }
    requires there { size_of old.now ≤ sums.count }
    ensures count { result.count + size_of old.now ≡ sums.count + size_of new.now }
    ensures sum { result.sum +ℤ value_of old.now ≡ sums.sum +ℤ value_of new.now }
{
    with(without(sums, old), new)
}

/// The sums without a number, if it is one.
fn without(sums: Sums, number: &Option<Number>) -> Sums
    requires place { HasPlace sums }
    requires there { size_of number.now ≤ sums.count }
    ensures count { result.count + size_of number.now ≡ sums.count }
    ensures sum { result.sum +ℤ value_of number.now ≡ sums.sum }
    ensures place { HasPlaceAfter result }
{
    match number {
        None => sums,
        Some(number) => Sums {
            count: sums.count - 1,
            sum: sums.sum - i128::from(number.units()),
        },
    }
}

/// The sums with a number more, if it is one.
fn with(sums: Sums, number: &Option<Number>) -> Sums
    requires { HasPlaceAfter sums }
    ensures count { result.count ≡ sums.count + size_of number.now }
    ensures sum { result.sum ≡ sums.sum +ℤ value_of number.now }
{
    match number {
        None => sums,
        Some(number) => Sums {
            count: sums.count + 1,
            sum: sums.sum + i128::from(number.units()),
        },
    }
}
