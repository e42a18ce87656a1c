//! Functions of numbers.
ghost use Rattle.std.specs.Prelude.{◌≡◌, IfOk, pos};
ghost use Rattle.fx_types.specs.ValueView.{view};
ghost use Rattle.fx_core.specs.declared.functions.Fun.TheVariants as fun;
ghost use Rattle.fx_scalar.specs.Arguments.{views};
ghost use Rattle.fx_scalar.specs.ScalarFunctions.{IsResult};

use crate::answers::{maybe, number};
use crate::arguments::{number_at, numbers, text_at, zero};
use fx_base::Memory;
use fx_number::{Num, Way};
use fx_primitives::with_kind;
use fx_types::{Ty, Value};
use std::alloc::Global;

pub(crate) fn add(alloc: Global, args: &[Value]) -> Result<Value, Memory>
    ensures { IfOk result (λ v. IsResult fun.AddNumbers (views args.now) (view v)) }
{
    let a = number_at(args, 0);
    let b = number_at(args, 1);
    number(alloc, with_kind(fx_number::add(a, b)))
}

pub(crate) fn subtract(alloc: Global, args: &[Value]) -> Result<Value, Memory>
    ensures { IfOk result (λ v. IsResult fun.SubNumbers (views args.now) (view v)) }
{
    let a = number_at(args, 0);
    let b = number_at(args, 1);
    number(alloc, with_kind(fx_number::sub(a, b)))
}

pub(crate) fn multiply(alloc: Global, args: &[Value]) -> Result<Value, Memory>
    ensures { IfOk result (λ v. IsResult fun.MulNumbers (views args.now) (view v)) }
{
    let a = number_at(args, 0);
    let b = number_at(args, 1);
    number(alloc, with_kind(fx_number::mul(a, b)))
}

pub(crate) fn divide(alloc: Global, args: &[Value]) -> Result<Value, Memory>
    ensures { IfOk result (λ v. IsResult fun.DivNumbers (views args.now) (view v)) }
{
    let a = number_at(args, 0);
    let b = number_at(args, 1);
    number(alloc, with_kind(fx_number::div(a, b)))
}

pub(crate) fn raise(alloc: Global, args: &[Value]) -> Result<Value, Memory>
    ensures { IfOk result (λ v. IsResult fun.PowNumbers (views args.now) (view v)) }
{
    let a = number_at(args, 0);
    let b = number_at(args, 1);
    number(alloc, fx_primitives::power(a, b))
}

pub(crate) fn modulo(alloc: Global, args: &[Value]) -> Result<Value, Memory>
    ensures { IfOk result (λ v. IsResult fun.Mod (views args.now) (view v)) }
{
    let a = number_at(args, 0);
    let b = number_at(args, 1);
    number(alloc, fx_primitives::modulo(a, b))
}

pub(crate) fn power(alloc: Global, args: &[Value]) -> Result<Value, Memory>
    ensures { IfOk result (λ v. IsResult fun.Power (views args.now) (view v)) }
{
    let a = number_at(args, 0);
    let b = number_at(args, 1);
    number(alloc, fx_primitives::power(a, b))
}

pub(crate) fn round(alloc: Global, args: &[Value]) -> Result<Value, Memory>
    ensures { IfOk result (λ v. IsResult fun.Round (views args.now) (view v)) }
{
    let a = number_at(args, 0);
    let b = number_at(args, 1);
    number(alloc, fx_primitives::round(a, b, Way::Near))
}

pub(crate) fn round_up(alloc: Global, args: &[Value]) -> Result<Value, Memory>
    ensures { IfOk result (λ v. IsResult fun.RoundUp (views args.now) (view v)) }
{
    let a = number_at(args, 0);
    let b = number_at(args, 1);
    number(alloc, fx_primitives::round(a, b, Way::Up))
}

pub(crate) fn round_down(alloc: Global, args: &[Value]) -> Result<Value, Memory>
    ensures { IfOk result (λ v. IsResult fun.RoundDown (views args.now) (view v)) }
{
    let a = number_at(args, 0);
    let b = number_at(args, 1);
    number(alloc, fx_primitives::round(a, b, Way::Down))
}

pub(crate) fn percent(alloc: Global, args: &[Value]) -> Result<Value, Memory>
    ensures { IfOk result (λ v. IsResult fun.Percent (views args.now) (view v)) }
{
    number(
        alloc,
        with_kind(fx_number::div(number_at(args, 0), hundred())),
    )
}

pub(crate) fn negate(alloc: Global, args: &[Value]) -> Result<Value, Memory>
    ensures { IfOk result (λ v. IsResult fun.Negate (views args.now) (view v)) }
{
    number(alloc, with_kind(fx_number::sub(zero(), number_at(args, 0))))
}

pub(crate) fn int(alloc: Global, args: &[Value]) -> Result<Value, Memory>
    ensures { IfOk result (λ v. IsResult fun.Int (views args.now) (view v)) }
{
    number(alloc, fx_primitives::int(number_at(args, 0)))
}

pub(crate) fn trunc(alloc: Global, args: &[Value]) -> Result<Value, Memory>
    ensures { IfOk result (λ v. IsResult fun.Trunc (views args.now) (view v)) }
{
    number(alloc, fx_primitives::trunc(number_at(args, 0)))
}

pub(crate) fn sum(alloc: Global, args: &[Value]) -> Result<Value, Memory>
    ensures { IfOk result (λ v. IsResult fun.Sum (views args.now) (view v)) }
{
    let numbers = numbers(alloc, args)?;
    maybe(alloc, fx_primitives::sum(&numbers))
}

pub(crate) fn min(alloc: Global, args: &[Value]) -> Result<Value, Memory>
    ensures { IfOk result (λ v. IsResult fun.Min (views args.now) (view v)) }
{
    let numbers = numbers(alloc, args)?;
    maybe(alloc, Ok(fx_primitives::min(&numbers)))
}

pub(crate) fn max(alloc: Global, args: &[Value]) -> Result<Value, Memory>
    ensures { IfOk result (λ v. IsResult fun.Max (views args.now) (view v)) }
{
    let numbers = numbers(alloc, args)?;
    maybe(alloc, Ok(fx_primitives::max(&numbers)))
}

pub(crate) fn average(alloc: Global, args: &[Value]) -> Result<Value, Memory>
    ensures { IfOk result (λ v. IsResult fun.Average (views args.now) (view v)) }
{
    let numbers = numbers(alloc, args)?;
    maybe(alloc, Ok(fx_primitives::average(&numbers)))
}

pub(crate) fn value(alloc: Global, args: &[Value]) -> Result<Value, Memory>
    ensures { IfOk result (λ v. IsResult fun.Value (views args.now) (view v)) }
{
    let text = Value::Text(text_at(alloc, args, 0)?);
    fx_value::coerce(alloc, text, &Ty::Number)
}

pub(crate) fn abs(args: &[Value]) -> Value
    ensures { IsResult fun.Abs (views args.now) (view result) }
{
    Value::Number(fx_primitives::abs(number_at(args, 0)))
}

fn hundred() -> Num
    ensures { result ≡ pos 1000000 }
{
    match Num::from_units(1_000_000) {
        Some(hundred) => hundred,
        None => unreachable!(),
    }
}
