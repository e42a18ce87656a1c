// What the parts of a call come to.
ghost use Rattle.std.specs.Prelude.{◌≡◌, false, length, map, option_map, Some, if◌then◌else◌};
ghost use Rattle.fx_types.specs.ValueView.{view};
ghost use Rattle.fx_types.specs.Values.{text};
ghost use Rattle.fx_eval.specs.Given.{is_inner as is_inner_place, IsEach, IsName, IsOnce};
ghost use Rattle.fx_eval.specs.Given.{count_argument, each, argument_values, once, argument_value};
ghost use Rattle.fx_eval.specs.Given.{values_in};
ghost use Rattle.fx_eval.specs.TableCalls.{IsOneOrNone, IsOneFormula};
ghost use Rattle.fx_core.specs.Term.{over};
ghost use Rattle.fx_typing.specs.WellTyped.{inside, plain, standing_at};

use fx_core::functions::Fun;
use fx_core::rows::{Takes, row_of};
use fx_types::values::Value;
use fx_types::words::Words;

/// What a part of a call over a table comes to.
#[derive(Drop)]
pub enum Answers {
    /// A value, where the part stands in no row's scope.
    Once(Value),
    /// A value for each row in order, each in the scope of its row.
    Each(Vec<Value>),
}

/// Whether a part of a call over a table stands in the scope of a row, by its place among so many;
/// the table is at place 0.
pub fn is_formula(fun: Fun, count: usize, place: usize) -> bool
    ensures { standing_at (over fun) count place ≡ (if result then inside else plain) }
{
    is_inner(row_of(fun).takes(count, place))
}

fn is_inner(takes: Takes) -> bool
    ensures { result ≡ is_inner_place takes }
{
    match takes {
        Takes::Formula(_) | Takes::ScalarFormula | Takes::AnyFormula | Takes::RowFormula => true,
        _ => false,
    }
}

// The values of the one formula.
pub(crate) fn only(answers: Vec<Answers>) -> Vec<Value>
    requires { IsOneFormula (map argument_values answers.items) }
    ensures values { map view result.items ≡ values_in (map argument_values answers.items) }
    ensures long { length result.items ≡ length (values_in (map argument_values answers.items)) }
{
    values_of(answers.into_iter().next())
}

// The one value, where it is not left out.
pub(crate) fn count(answers: Vec<Answers>) -> Option<Value>
    requires { IsOneOrNone (map argument_values answers.items) }
    ensures { option_map view result ≡ count_argument (map argument_values answers.items) }
{
    value(answers.into_iter().next())
}

// The values of a formula.
pub(crate) fn values_of(answers: Option<Answers>) -> Vec<Value>
    requires { IsEach (option_map argument_values answers) }
    ensures { option_map argument_values answers ≡ Some (each (map view result.items)) }
{
    match answers {
        Some(Answers::Each(values)) => values,
        _ => unreachable!(),
    }
}

// The name of a column.
pub(crate) fn name_of(answers: Option<Answers>) -> Words
    requires { IsName (option_map argument_values answers) }
    ensures { option_map argument_values answers ≡ Some (once (text result)) }
{
    match answers {
        Some(Answers::Once(Value::Text(name))) => name,
        _ => unreachable!(),
    }
}

// A value that may be left out.
pub(crate) fn value(answers: Option<Answers>) -> Option<Value>
    requires { IsOnce (option_map argument_values answers) }
    ensures { option_map view result ≡ argument_value (option_map argument_values answers) }
{
    match answers {
        None => None,
        Some(Answers::Once(value)) => Some(value),
        Some(Answers::Each(_)) => unreachable!(),
    }
}
