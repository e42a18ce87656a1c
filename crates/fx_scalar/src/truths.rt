//! Functions that answer Booleans.
ghost use Rattle.std.specs.Prelude.{◌≡◌, IfOk, Some};
ghost use Rattle.fx_types.specs.ValueView.{view};
ghost use Rattle.fx_core.specs.declared.functions.Fun.TheVariants as fun;
ghost use Rattle.fx_value.specs.Operators.{CanCompare};
ghost use Rattle.fx_scalar.specs.Arguments.{argument_at as at_of, views};
ghost use Rattle.fx_scalar.specs.ScalarFunctions.{IsCompared, IsResult, coalesced};
ghost use Rattle.fx_scalar.specs.ScalarFunctions.{is_blank_or_empty as is_blank_value};
ghost use Rattle.fx_scalar.specs.ScalarFunctions.{is_fault as is_fault_value};

use crate::arguments::{at, at_or, text_at, truth_at};
use crate::lazy_forms::is_blank as is_blank_one;
use fx_base::Memory;
use fx_types::{Cmp, Value};
use std::alloc::Global;

pub(crate) fn is_in(alloc: Global, args: &[Value]) -> Result<Value, Memory>
    ensures { IfOk result (λ v. IsResult fun.In (views args.now) (view v)) }
{
    let first = text_at(alloc, args, 0)?;
    let second = text_at(alloc, args, 1)?;
    Ok(Value::Boolean(fx_primitives::contains(alloc, &second, &first)?))
}

pub(crate) fn is_exactly_in(alloc: Global, args: &[Value]) -> Result<Value, Memory>
    ensures { IfOk result (λ v. IsResult fun.ExactIn (views args.now) (view v)) }
{
    let first = text_at(alloc, args, 0)?;
    let second = text_at(alloc, args, 1)?;
    Ok(Value::Boolean(fx_primitives::contains_exactly(alloc, &second, &first)?))
}

pub(crate) fn starts_with(alloc: Global, args: &[Value]) -> Result<Value, Memory>
    ensures { IfOk result (λ v. IsResult fun.StartsWith (views args.now) (view v)) }
{
    let first = text_at(alloc, args, 0)?;
    let second = text_at(alloc, args, 1)?;
    Ok(Value::Boolean(fx_primitives::starts_with(alloc, &first, &second)?))
}

pub(crate) fn ends_with(alloc: Global, args: &[Value]) -> Result<Value, Memory>
    ensures { IfOk result (λ v. IsResult fun.EndsWith (views args.now) (view v)) }
{
    let first = text_at(alloc, args, 0)?;
    let second = text_at(alloc, args, 1)?;
    Ok(Value::Boolean(fx_primitives::ends_with(alloc, &first, &second)?))
}

// Whether an operator holds of the two arguments, which it compares.
pub(crate) fn holds(op: Cmp, args: &[Value]) -> Value
    requires { CanCompare op (at_of (views args.now) 0) (at_of (views args.now) 1) }
    ensures { IsCompared (Some op) (views args.now) (view result) }
{
    let blank = Value::Blank;
    let a = at_or(args, 0, &blank);
    let b = at_or(args, 1, &blank);
    Value::Boolean(fx_value::holds(op, a, b))
}

pub(crate) fn not(args: &[Value]) -> Value
    ensures { IsResult fun.Not (views args.now) (view result) }
{
    Value::Boolean(!truth_at(args, 0))
}

pub(crate) fn is_blank(args: &[Value]) -> bool
    ensures { result ≡ is_blank_value (at_of (views args.now) 0) }
{
    match at(args, 0) {
        Some(arg) => is_blank_one(arg),
        None => true,
    }
}

pub(crate) fn is_error(args: &[Value]) -> bool
    ensures { result ≡ is_fault_value (at_of (views args.now) 0) }
{
    matches!(at(args, 0), Some(Value::Fault(_)))
}

// The first argument that is neither blank nor an empty text, and else blank.
pub(crate) fn coalesce(alloc: Global, args: &[Value]) -> Result<Value, Memory>
    ensures { IfOk result (λ v. view v ≡ coalesced (views args.now)) }
{
    for arg in args {
        if !is_blank_one(arg) {
            return arg.copy(alloc);
        }
    }
    Ok(Value::Blank)
}
