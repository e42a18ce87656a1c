//! Functions of dates. A blank date makes the answer blank.
ghost use Rattle.std.specs.Prelude.{◌≡◌, IfOk};
ghost use Rattle.fx_types.specs.ValueView.{view};
ghost use Rattle.fx_core.specs.declared.functions.Fun.TheVariants as fun;
ghost use Rattle.fx_scalar.specs.Arguments.{views};
ghost use Rattle.fx_scalar.specs.ScalarFunctions.{IsResult, IsToday};

use crate::answers::{date as date_value, whole};
use crate::arguments::{date_at, no_text, number_at, text_at, whole_at};
use fx_base::Memory;
use fx_core::{DateFormat, TimeUnit};
use fx_types::{Value, Words};
use std::alloc::Global;

pub(crate) fn add_to_date(alloc: Global, args: &[Value]) -> Result<Value, Memory>
    ensures { IfOk result (λ v. IsResult fun.AddDateNumber (views args.now) (view v)) }
{
    match date_at(args, 0) {
        Some(day) => date_value(alloc, fx_primitives::add_days(day, number_at(args, 1))),
        None => Ok(Value::Blank),
    }
}

pub(crate) fn add_date_to(alloc: Global, args: &[Value]) -> Result<Value, Memory>
    ensures { IfOk result (λ v. IsResult fun.AddNumberDate (views args.now) (view v)) }
{
    match date_at(args, 1) {
        Some(day) => date_value(alloc, fx_primitives::add_days(day, number_at(args, 0))),
        None => Ok(Value::Blank),
    }
}

pub(crate) fn take_from_date(alloc: Global, args: &[Value]) -> Result<Value, Memory>
    ensures { IfOk result (λ v. IsResult fun.SubDateNumber (views args.now) (view v)) }
{
    match date_at(args, 0) {
        Some(day) => date_value(alloc, fx_primitives::sub_days(day, number_at(args, 1))),
        None => Ok(Value::Blank),
    }
}

pub(crate) fn day(alloc: Global, args: &[Value]) -> Result<Value, Memory>
    ensures { IfOk result (λ v. IsResult fun.Day (views args.now) (view v)) }
{
    match date_at(args, 0) {
        Some(day) => whole(alloc, i128::from(fx_primitives::day_of_month(day))),
        None => Ok(Value::Blank),
    }
}

pub(crate) fn month(alloc: Global, args: &[Value]) -> Result<Value, Memory>
    ensures { IfOk result (λ v. IsResult fun.Month (views args.now) (view v)) }
{
    match date_at(args, 0) {
        Some(day) => whole(alloc, i128::from(fx_primitives::month(day))),
        None => Ok(Value::Blank),
    }
}

pub(crate) fn year(alloc: Global, args: &[Value]) -> Result<Value, Memory>
    ensures { IfOk result (λ v. IsResult fun.Year (views args.now) (view v)) }
{
    match date_at(args, 0) {
        Some(day) => whole(alloc, i128::from(fx_primitives::year(day))),
        None => Ok(Value::Blank),
    }
}

pub(crate) fn weekday(alloc: Global, args: &[Value]) -> Result<Value, Memory>
    ensures { IfOk result (λ v. IsResult fun.Weekday (views args.now) (view v)) }
{
    match date_at(args, 0) {
        Some(day) => whole(alloc, i128::from(fx_primitives::weekday(day))),
        None => Ok(Value::Blank),
    }
}

pub(crate) fn days_between(alloc: Global, args: &[Value]) -> Result<Value, Memory>
    ensures { IfOk result (λ v. IsResult fun.SubDates (views args.now) (view v)) }
{
    let Some(first) = date_at(args, 0) else {
        return Ok(Value::Blank);
    };
    let Some(second) = date_at(args, 1) else {
        return Ok(Value::Blank);
    };
    whole(
        alloc,
        i128::from(fx_primitives::days_between(first, second)),
    )
}

pub(crate) fn date(alloc: Global, args: &[Value]) -> Result<Value, Memory>
    ensures { IfOk result (λ v. IsResult fun.Date (views args.now) (view v)) }
{
    let year = whole_at(args, 0);
    let month = whole_at(args, 1);
    date_value(alloc, fx_primitives::date(year, month, whole_at(args, 2)))
}

pub(crate) fn read_date(alloc: Global, args: &[Value]) -> Result<Value, Memory>
    ensures { IfOk result (λ v. IsResult fun.DateValue (views args.now) (view v)) }
{
    let text = text_at(alloc, args, 0)?;
    date_value(alloc, fx_primitives::date_value(text.as_str()))
}

pub(crate) fn date_add(alloc: Global, unit: TimeUnit, args: &[Value]) -> Result<Value, Memory>
    ensures { IfOk result (λ v. IsResult (fun.DateAdd unit) (views args.now) (view v)) }
{
    match date_at(args, 0) {
        Some(day) => {
            let count = whole_at(args, 1);
            date_value(alloc, fx_primitives::date_add(day, count, unit))
        }
        None => Ok(Value::Blank),
    }
}

pub(crate) fn date_diff(alloc: Global, unit: TimeUnit, args: &[Value]) -> Result<Value, Memory>
    ensures { IfOk result (λ v. IsResult (fun.DateDiff unit) (views args.now) (view v)) }
{
    let Some(first) = date_at(args, 0) else {
        return Ok(Value::Blank);
    };
    let Some(second) = date_at(args, 1) else {
        return Ok(Value::Blank);
    };
    whole(
        alloc,
        i128::from(fx_primitives::date_diff(first, second, unit)),
    )
}

// The text of a date by a format, and the empty text of a blank one.
pub(crate) fn format_date(
    alloc: Global,
    format: DateFormat,
    args: &[Value],
) -> Result<Value, Memory>
    ensures { IfOk result (λ v. IsResult (fun.FormatDate format) (views args.now) (view v)) }
{
    match date_at(args, 0) {
        Some(day) => {
            let text = fx_primitives::format_day(alloc, day, format)?;
            Ok(Value::Text(Words::of(alloc, text.as_str())?))
        }
        None => Ok(Value::Text(no_text(alloc)?)),
    }
}

/// The day of a moment in UTC, given in seconds since 1970-01-01: `InvalidArgument` exactly past
/// 9999-12-31.
pub fn today(alloc: Global, moment: u64) -> Result<Value, Memory>
    ensures { IfOk result (λ v. IsToday moment (view v)) }
{
    date_value(alloc, fx_primitives::today(moment))
}
