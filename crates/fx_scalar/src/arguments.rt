//! Arguments, read as values of one type. A blank number is 0, a blank text empty, a blank Boolean
//! false.
ghost use Rattle.std.specs.Prelude.{◌≡◌, [], IfOk, MatchOption, map, option_map, pos};
ghost use Rattle.fx_types.specs.ValueView.{view};
ghost use Rattle.fx_types.specs.Values.{blank, fault};
ghost use Rattle.fx_scalar.specs.Arguments.{argument_at as at_of, date_at as date_of};
ghost use Rattle.fx_scalar.specs.Arguments.{first_fault as first_fault_of, maybe_date};
ghost use Rattle.fx_scalar.specs.Arguments.{maybe_number, maybe_truth};
ghost use Rattle.fx_scalar.specs.Arguments.{maybe_whole_at as maybe_whole_of};
ghost use Rattle.fx_scalar.specs.Arguments.{number_at as number_of, text_at as text_of, text_in};
ghost use Rattle.fx_scalar.specs.Arguments.{truth_at as truth_of, views, whole_at as whole_of};

use fx_base::Memory;
use fx_number::Num;
use fx_types::{Day, Fault, Value, Words};
use std::alloc::Global;

/// The first error among arguments, from the left.
pub(crate) fn first_fault(args: &[Value]) -> Option<&Fault>
    ensures { option_map (λ f. fault f.now.kind f.now.message) result
        ≡ first_fault_of (views args.now) }
{
    for arg in args {
        if let Value::Fault(fault) = arg {
            return Some(fault);
        }
    }
    None
}

/// The argument at a place, if there is one.
pub(crate) fn at(args: &[Value], place: usize) -> Option<&Value>
    ensures { MatchOption result (at_of (views args.now) place ≡ blank)
        (λ arg. at_of (views args.now) place ≡ view arg.now) }
{
    args.get(place)
}

/// The argument at a place, and this blank where there is none.
// The blank is lent by the caller, so that no argument is copied.
pub(crate) fn at_or<'a>(args: &'a [Value], place: usize, none: &'a Value) -> &'a Value
    requires { view none.now ≡ blank }
    ensures { view result.now ≡ at_of (views args.now) place }
{
    match at(args, place) {
        Some(arg) => arg,
        None => none,
    }
}

/// The number at a place.
pub(crate) fn number_at(args: &[Value], place: usize) -> Num
    ensures { result ≡ number_of (views args.now) place }
{
    maybe_number_at(args, place).unwrap_or(zero())
}

/// The number at a place, if it has one.
pub(crate) fn maybe_number_at(args: &[Value], place: usize) -> Option<Num>
    ensures { result ≡ maybe_number (at_of (views args.now) place) }
{
    match at(args, place) {
        Some(arg) => number(arg),
        None => None,
    }
}

/// The number at a place, cut towards zero to a whole one.
pub(crate) fn whole_at(args: &[Value], place: usize) -> i64
    ensures { result ≡ whole_of (views args.now) place }
{
    fx_primitives::whole_part(number_at(args, place))
}

/// The same where there is an argument at that place.
pub(crate) fn maybe_whole_at(args: &[Value], place: usize) -> Option<i64>
    ensures { result ≡ maybe_whole_of (views args.now) place }
{
    if place < args.len() {
        Some(whole_at(args, place))
    } else {
        None
    }
}

/// The text at a place.
pub(crate) fn text_at(alloc: Global, args: &[Value], place: usize) -> Result<Words, Memory>
    ensures { IfOk result (λ w. w ≡ text_of (views args.now) place) }
{
    match at(args, place) {
        Some(arg) => text(alloc, arg),
        None => no_text(alloc),
    }
}

/// The Boolean at a place.
pub(crate) fn truth_at(args: &[Value], place: usize) -> bool
    ensures { result ≡ truth_of (views args.now) place }
{
    match at(args, place) {
        Some(arg) => truth(arg).unwrap_or(false),
        None => false,
    }
}

/// The date at a place, if it has one.
pub(crate) fn date_at(args: &[Value], place: usize) -> Option<Day>
    ensures { result ≡ date_of (views args.now) place }
{
    match at(args, place) {
        Some(arg) => date(arg),
        None => None,
    }
}

/// The texts of all arguments.
#[tactic(auto, using(crate::proofs::ArgumentLemmas::mapped_more))]
pub(crate) fn texts(alloc: Global, args: &[Value]) -> Result<Vec<Words>, Memory>
    ensures { IfOk result (λ v. v.items ≡ map text_in (views args.now)) }
{
    let mut texts = Vec::with_capacity(alloc, args.len())?;
    for arg in args {
        texts.push(text(alloc, arg)?)?;
    }
    Ok(texts)
}

/// The numbers of all arguments, blank ones as none.
#[tactic(auto, using(crate::proofs::ArgumentLemmas::mapped_more))]
pub(crate) fn numbers(alloc: Global, args: &[Value]) -> Result<Vec<Option<Num>>, Memory>
    ensures { IfOk result (λ v. v.items ≡ map maybe_number (views args.now)) }
{
    let mut numbers = Vec::with_capacity(alloc, args.len())?;
    for arg in args {
        numbers.push(number(arg))?;
    }
    Ok(numbers)
}

/// The number of an argument, if it has one.
pub(crate) fn number(arg: &Value) -> Option<Num>
    ensures { result ≡ maybe_number (view arg.now) }
{
    match arg {
        Value::Number(number) => Some(*number),
        _ => None,
    }
}

/// The text of an argument, which is empty where it has none.
pub(crate) fn text(alloc: Global, arg: &Value) -> Result<Words, Memory>
    ensures { IfOk result (λ w. w ≡ text_in (view arg.now)) }
{
    match arg {
        Value::Text(words) => words.copy(alloc),
        _ => no_text(alloc),
    }
}

fn truth(arg: &Value) -> Option<bool>
    ensures { result ≡ maybe_truth (view arg.now) }
{
    match arg {
        Value::Boolean(truth) => Some(*truth),
        _ => None,
    }
}

fn date(arg: &Value) -> Option<Day>
    ensures { result ≡ maybe_date (view arg.now) }
{
    match arg {
        Value::Date(day) => Some(*day),
        _ => None,
    }
}

/// The empty text.
pub(crate) fn no_text(alloc: Global) -> Result<Words, Memory>
    ensures { IfOk result (λ w. w ≡ []) }
{
    Words::of(alloc, "")
}

/// The number 0.
pub(crate) fn zero() -> Num
    ensures { result ≡ pos 0 }
{
    match Num::from_units(0) {
        Some(zero) => zero,
        None => unreachable!(),
    }
}
