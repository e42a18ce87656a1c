//! Functions of texts.
ghost use Rattle.std.specs.Prelude.{◌≡◌, IfOk};
ghost use Rattle.fx_types.specs.ValueView.{view};
ghost use Rattle.fx_core.specs.declared.functions.Fun.TheVariants as fun;
ghost use Rattle.fx_primitives.specs.Search.{IsFound};
ghost use Rattle.fx_scalar.specs.Arguments.{text_at as text_of, views};
ghost use Rattle.fx_scalar.specs.ScalarFunctions.{IsResult, start_of};

use crate::answers::{count, position, text};
use crate::arguments::{at, maybe_number_at, maybe_whole_at, no_text, text_at, texts, whole_at};
use fx_base::Memory;
use fx_core::NumberFormat;
use fx_types::{Kind, Value};
use std::alloc::Global;

pub(crate) fn concatenate(alloc: Global, args: &[Value]) -> Result<Value, Memory>
    ensures { IfOk result (λ v. IsResult fun.Concatenate (views args.now) (view v)) }
{
    let texts = texts(alloc, args)?;
    text(alloc, fx_primitives::concatenate(alloc, &texts)?)
}

pub(crate) fn length(alloc: Global, args: &[Value]) -> Result<Value, Memory>
    ensures { IfOk result (λ v. IsResult fun.Len (views args.now) (view v)) }
{
    let text = text_at(alloc, args, 0)?;
    count(alloc, fx_primitives::length(&text))
}

pub(crate) fn left(alloc: Global, args: &[Value]) -> Result<Value, Memory>
    ensures { IfOk result (λ v. IsResult fun.Left (views args.now) (view v)) }
{
    let all = text_at(alloc, args, 0)?;
    text(alloc, fx_primitives::left(alloc, &all, whole_at(args, 1))?)
}

pub(crate) fn right(alloc: Global, args: &[Value]) -> Result<Value, Memory>
    ensures { IfOk result (λ v. IsResult fun.Right (views args.now) (view v)) }
{
    let all = text_at(alloc, args, 0)?;
    text(alloc, fx_primitives::right(alloc, &all, whole_at(args, 1))?)
}

pub(crate) fn mid(alloc: Global, args: &[Value]) -> Result<Value, Memory>
    ensures { IfOk result (λ v. IsResult fun.Mid (views args.now) (view v)) }
{
    let all = text_at(alloc, args, 0)?;
    let count = maybe_whole_at(args, 2);
    text(
        alloc,
        fx_primitives::mid(alloc, &all, whole_at(args, 1), count)?,
    )
}

pub(crate) fn lower(alloc: Global, args: &[Value]) -> Result<Value, Memory>
    ensures { IfOk result (λ v. IsResult fun.Lower (views args.now) (view v)) }
{
    let all = text_at(alloc, args, 0)?;
    text(alloc, fx_primitives::lower(alloc, &all)?)
}

pub(crate) fn upper(alloc: Global, args: &[Value]) -> Result<Value, Memory>
    ensures { IfOk result (λ v. IsResult fun.Upper (views args.now) (view v)) }
{
    let all = text_at(alloc, args, 0)?;
    text(alloc, fx_primitives::upper(alloc, &all)?)
}

pub(crate) fn trim(alloc: Global, args: &[Value]) -> Result<Value, Memory>
    ensures { IfOk result (λ v. IsResult fun.Trim (views args.now) (view v)) }
{
    let all = text_at(alloc, args, 0)?;
    text(alloc, fx_primitives::trim(alloc, &all)?)
}

pub(crate) fn find(alloc: Global, args: &[Value]) -> Result<Value, Memory>
    ensures { IfOk result (λ v. IsResult fun.Find (views args.now) (view v)) }
{
    position(alloc, find_place(alloc, args)?)
}

// The position at which the first text is found in the second.
fn find_place(alloc: Global, args: &[Value]) -> Result<Result<Option<usize>, Kind>, Memory>
    ensures { IfOk result (let a = views args.now in
        IsFound (text_of a 0) (text_of a 1) (start_of a)) }
{
    let part = text_at(alloc, args, 0)?;
    let all = text_at(alloc, args, 1)?;
    fx_primitives::find(alloc, &part, &all, start(args))
}

// The position from which a text is sought.
fn start(args: &[Value]) -> i64
    ensures { result ≡ start_of (views args.now) }
{
    match maybe_whole_at(args, 2) {
        Some(position) => position,
        None => 1,
    }
}

pub(crate) fn substitute(alloc: Global, args: &[Value]) -> Result<Value, Memory>
    ensures { IfOk result (λ v. IsResult fun.Substitute (views args.now) (view v)) }
{
    let all = text_at(alloc, args, 0)?;
    let old = text_at(alloc, args, 1)?;
    let new = text_at(alloc, args, 2)?;
    let number = maybe_whole_at(args, 3);
    text(
        alloc,
        fx_primitives::substitute(alloc, &all, &old, &new, number)?,
    )
}

pub(crate) fn replace(alloc: Global, args: &[Value]) -> Result<Value, Memory>
    ensures { IfOk result (λ v. IsResult fun.Replace (views args.now) (view v)) }
{
    let all = text_at(alloc, args, 0)?;
    let new = text_at(alloc, args, 3)?;
    let count = whole_at(args, 2);
    text(
        alloc,
        fx_primitives::replace(alloc, &all, whole_at(args, 1), count, &new)?,
    )
}

// The text of a number by a format, and the empty text of a blank one.
pub(crate) fn format_number(
    alloc: Global,
    format: NumberFormat,
    args: &[Value],
) -> Result<Value, Memory>
    ensures { IfOk result (λ v. IsResult (fun.FormatNumber format) (views args.now) (view v)) }
{
    match maybe_number_at(args, 0) {
        Some(number) => Ok(Value::Text(fx_primitives::format(alloc, number, format)?)),
        None => Ok(Value::Text(no_text(alloc)?)),
    }
}

// The argument, which is a text, a table or blank already.
pub(crate) fn same(alloc: Global, args: &[Value]) -> Result<Value, Memory>
    ensures text { IfOk result (λ v. IsResult fun.Text (views args.now) (view v)) }
    ensures table { IfOk result (λ v. IsResult fun.Table (views args.now) (view v)) }
{
    match at(args, 0) {
        Some(arg) => arg.copy(alloc),
        None => Ok(Value::Blank),
    }
}
