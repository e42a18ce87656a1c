//! What the forms and functions that evaluate no more parts than they need decide by values.
ghost use Rattle.std.specs.Prelude.{◌≡◌};
ghost use Rattle.fx_types.specs.ValueView.{view};
ghost use Rattle.fx_scalar.specs.LazyForms.{CanMatch, IsSplit, decision_of, equality};
ghost use Rattle.fx_scalar.specs.LazyForms.{none_left as none_left_of};
ghost use Rattle.fx_scalar.specs.ScalarFunctions.{is_blank_or_empty as is_blank_value};

use fx_core::Form;
use fx_types::{Cmp, Fault, Value};

/// What the value of a condition decides.
#[derive(Drop)]
pub enum Decision {
    /// The condition is met.
    Met,
    /// It is not met.
    Unmet,
    /// It is this error, which is the answer.
    Error(Fault),
}

/// What the value of a condition decides: true meets it, false and blank do not.
pub fn decide(condition: Value) -> Decision
    ensures { result ≡ decision_of (view condition) }
{
    match condition {
        Value::Fault(fault) => Decision::Error(fault),
        Value::Boolean(true) => Decision::Met,
        _ => Decision::Unmet,
    }
}

/// What a match of `Switch` decides, by whether `=` holds of the value and the match.
pub fn decide_match(wanted: &Value, value: Value) -> Decision
    requires { CanMatch (view wanted.now) (view value) }
    ensures { result ≡ decision_of (equality (view wanted.now) (view value)) }
{
    match value {
        Value::Fault(fault) => Decision::Error(fault),
        value => decide(Value::Boolean(fx_value::holds(Cmp::Eq, wanted, &value))),
    }
}

/// What a form is worth where no part is left and none has decided: `And` is true, `Or` false, and
/// all else blank.
pub fn exhausted_value(form: Form) -> Value
    ensures { view result ≡ none_left_of form }
{
    match form {
        Form::All => Value::Boolean(true),
        Form::Any => Value::Boolean(false),
        Form::If | Form::Switch | Form::IfError => Value::Blank,
    }
}

/// Whether a value is blank or an empty text, which `Coalesce` passes over.
pub fn is_blank(value: &Value) -> bool
    ensures { result ≡ is_blank_value (view value.now) }
{
    match value {
        Value::Blank => true,
        Value::Text(text) => text.as_str().is_empty(),
        _ => false,
    }
}

/// A value that is no error, or the error.
pub fn without_error(value: Value) -> Result<Value, Fault>
    ensures { IsSplit (view value) result }
{
    match value {
        Value::Fault(fault) => Err(fault),
        value => Ok(value),
    }
}
