//! The table of scalar functions.
ghost use Rattle.std.specs.Prelude.{◌≡◌, IfOk, IsTrue, option_map};
ghost use Rattle.fx_types.specs.ValueView.{view};
ghost use Rattle.fx_types.specs.Values.{fault};
ghost use Rattle.fx_core.specs.Rows.{row_of};
ghost use Rattle.fx_scalar.specs.Arguments.{views};
ghost use Rattle.fx_scalar.specs.Fitting.{FitPlaces, FitsAnswer};
ghost use Rattle.fx_scalar.specs.ScalarFunctions.{CanApply, CanCompareIf, IsAnswer, IsResult};
ghost use Rattle.fx_scalar.specs.ScalarFunctions.{answered_fault as answered_fault_of};
ghost use Rattle.fx_scalar.specs.ScalarFunctions.{comparison_of, is_strict as is_strict_function};
ghost use Rattle.fx_scalar.specs.ScalarFunctions.{is_value};

use crate::arguments::first_fault;
use crate::{dates, errors, numbers, texts, truths};
use fx_base::Memory;
use fx_core::Fun;
use fx_types::{Cmp, Fault, Value};
use std::alloc::Global;

/// What a function of values, or an operator, answers to its arguments. Blank arguments count as 0,
/// as an empty text or as false; a blank date makes the answer blank. The first error from the left
/// is answered, but `IsError` and `IsBlankOrError` tell whether there is one, and `Coalesce` passes
/// over those behind its answer. An error that the function makes has no message, but for that of
/// `Error`. Where the arguments fit their places, the answer fits its type.
pub fn apply(alloc: Global, fun: Fun, args: &[Value]) -> Result<Value, Memory>
    requires { CanApply fun (views args.now) }
    ensures answer { IfOk result (λ v. IsAnswer fun (views args.now) (view v)) }
    ensures fits { IfOk result (λ v. FitPlaces fun (views args.now)
        → FitsAnswer (row_of fun).answer (views args.now) (view v)) }
{
    match answered_fault(fun, args) {
        Some(fault) => Ok(Value::Fault(fault.copy(alloc)?)),
        None => calculate(alloc, fun, args),
    }
}

// The error that is answered in place of a result.
fn answered_fault(fun: Fun, args: &[Value]) -> Option<&Fault>
    ensures { option_map (λ f. fault f.now.kind f.now.message) result
        ≡ answered_fault_of fun (views args.now) }
{
    if is_strict(fun) {
        first_fault(args)
    } else {
        None
    }
}

fn is_strict(fun: Fun) -> bool
    ensures { result ≡ is_strict_function fun }
{
    match fun {
        Fun::Coalesce | Fun::IsError | Fun::IsBlankOrError => false,
        _ => true,
    }
}

// The table: a line for each function.
fn calculate(alloc: Global, fun: Fun, args: &[Value]) -> Result<Value, Memory>
    requires of_values { IsTrue (is_value (row_of fun).first) }
    requires comparable { CanCompareIf (comparison_of fun) (views args.now) }
    ensures { IfOk result (λ v. IsResult fun (views args.now) (view v)) }
{
    match fun {
        Fun::AddNumbers => numbers::add(alloc, args),
        Fun::SubNumbers => numbers::subtract(alloc, args),
        Fun::MulNumbers => numbers::multiply(alloc, args),
        Fun::DivNumbers => numbers::divide(alloc, args),
        Fun::PowNumbers => numbers::raise(alloc, args),
        Fun::Percent => numbers::percent(alloc, args),
        Fun::Negate => numbers::negate(alloc, args),
        Fun::AddDateNumber => dates::add_to_date(alloc, args),
        Fun::AddNumberDate => dates::add_date_to(alloc, args),
        Fun::SubDateNumber => dates::take_from_date(alloc, args),
        Fun::SubDates => dates::days_between(alloc, args),
        Fun::Concatenation | Fun::Concatenate => texts::concatenate(alloc, args),
        Fun::EqualNumbers | Fun::EqualTexts | Fun::EqualBooleans | Fun::EqualDates => {
            Ok(truths::holds(Cmp::Eq, args))
        }
        Fun::UnequalNumbers | Fun::UnequalTexts | Fun::UnequalBooleans | Fun::UnequalDates => Ok(
            truths::holds(Cmp::Ne, args),
        ),
        Fun::LessNumbers | Fun::LessDates => Ok(truths::holds(Cmp::Lt, args)),
        Fun::LessEqualNumbers | Fun::LessEqualDates => Ok(truths::holds(Cmp::Le, args)),
        Fun::GreaterNumbers | Fun::GreaterDates => Ok(truths::holds(Cmp::Gt, args)),
        Fun::GreaterEqualNumbers | Fun::GreaterEqualDates => Ok(truths::holds(Cmp::Ge, args)),
        Fun::In => truths::is_in(alloc, args),
        Fun::ExactIn => truths::is_exactly_in(alloc, args),
        Fun::Not => Ok(truths::not(args)),
        Fun::Abs => Ok(numbers::abs(args)),
        Fun::Int => numbers::int(alloc, args),
        Fun::Trunc => numbers::trunc(alloc, args),
        Fun::Round => numbers::round(alloc, args),
        Fun::RoundUp => numbers::round_up(alloc, args),
        Fun::RoundDown => numbers::round_down(alloc, args),
        Fun::Mod => numbers::modulo(alloc, args),
        Fun::Power => numbers::power(alloc, args),
        Fun::Sum => numbers::sum(alloc, args),
        Fun::Min => numbers::min(alloc, args),
        Fun::Max => numbers::max(alloc, args),
        Fun::Average => numbers::average(alloc, args),
        Fun::Value => numbers::value(alloc, args),
        Fun::Len => texts::length(alloc, args),
        Fun::Left => texts::left(alloc, args),
        Fun::Right => texts::right(alloc, args),
        Fun::Mid => texts::mid(alloc, args),
        Fun::Lower => texts::lower(alloc, args),
        Fun::Upper => texts::upper(alloc, args),
        Fun::Trim => texts::trim(alloc, args),
        Fun::Find => texts::find(alloc, args),
        Fun::Substitute => texts::substitute(alloc, args),
        Fun::Replace => texts::replace(alloc, args),
        Fun::StartsWith => truths::starts_with(alloc, args),
        Fun::EndsWith => truths::ends_with(alloc, args),
        Fun::Text => texts::same(alloc, args),
        Fun::Table => texts::same(alloc, args),
        Fun::FormatNumber(format) => texts::format_number(alloc, format, args),
        Fun::FormatDate(format) => dates::format_date(alloc, format, args),
        Fun::Blank => Ok(Value::Blank),
        Fun::IsBlank => Ok(Value::Boolean(truths::is_blank(args))),
        Fun::Coalesce => truths::coalesce(alloc, args),
        Fun::IsError => Ok(Value::Boolean(truths::is_error(args))),
        Fun::IsBlankOrError => Ok(Value::Boolean(truths::is_error(args) || truths::is_blank(args))),
        Fun::Error => errors::error(alloc, args),
        Fun::Date => dates::date(alloc, args),
        Fun::DateAdd(unit) => dates::date_add(alloc, unit, args),
        Fun::DateDiff(unit) => dates::date_diff(alloc, unit, args),
        Fun::Day => dates::day(alloc, args),
        Fun::Month => dates::month(alloc, args),
        Fun::Year => dates::year(alloc, args),
        Fun::Weekday => dates::weekday(alloc, args),
        Fun::DateValue => dates::read_date(alloc, args),
        // Functions of tables aren't called here. They are listed, so that no new function is taken
        // for one.
        Fun::Filter
        | Fun::LookUp
        | Fun::Sort(_)
        | Fun::First
        | Fun::Last
        | Fun::FirstN
        | Fun::LastN
        | Fun::CountRows
        | Fun::CountIf
        | Fun::IsEmpty
        | Fun::SumRows
        | Fun::MinRows
        | Fun::MaxRows
        | Fun::AverageRows
        | Fun::AddColumns
        | Fun::DropColumns
        | Fun::ShowColumns
        | Fun::RenameColumns
        | Fun::GroupBy
        | Fun::Ungroup
        | Fun::Distinct
        | Fun::ForAll
        | Fun::Concat => unreachable!(),
    }
}
