//! The forms, part by part: what each makes of the value of a part.
ghost use Rattle.std.specs.Prelude.{◌≡◌};
ghost use Rattle.fx_types.specs.ValueView.{view};
ghost use Rattle.fx_eval.specs.Courses.{by_decision, coalesces, form_end, ends_in_branch};
ghost use Rattle.fx_eval.specs.Courses.{course_going, turned_by, turning};
ghost use Rattle.fx_eval.specs.Kinds.{CanTurn};

use fx_core::Form;
use fx_scalar::{Decision, decide, decide_match, exhausted_value, is_blank};
use fx_types::{Fault, Value};

/// Where a form stands before a part.
pub enum Course {
    /// Conditions, of which none was false yet.
    All,
    /// Conditions, of which none was true yet.
    Any,
    /// A condition and its branch, or a last branch.
    If,
    /// The value that matches are compared with.
    Switch,
    /// A match with this value and its branch, or a last branch.
    Match(Value),
    /// A value and its fallback, or a last value, behind this value.
    Recover(Value),
    /// Values, of which each was blank or an empty text.
    Coalesce,
}

// By hand, so that it is called: what is derived is opened wherever a value may end, which costs
// proofs seconds each time.
impl Drop for Course {
    fn drop(self) {
        match self {
            Course::All => {}
            Course::Any => {}
            Course::If => {}
            Course::Switch => {}
            Course::Match(_) => {}
            Course::Recover(_) => {}
            Course::Coalesce => {}
        }
    }
}

/// What the value of a part makes of a form.
#[derive(Drop)]
pub enum Turn {
    /// The form's value.
    Answer(Value),
    /// The next part's value is the form's.
    Branch,
    /// The next part's value, where this error is caught, is the form's.
    Fallback(Fault),
    /// The form goes on with the next part.
    Further(Course),
    /// The form goes on behind the next part.
    Beyond(Course),
}

impl Course {
    /// Whether a part that stands alone at the end is the form's value.
    pub fn ends_in_branch(&self) -> bool
        ensures { result ≡ ends_in_branch (course_going self.now) }
    {
        matches!(self, Course::If | Course::Match(_) | Course::Recover(_))
    }

    /// What the form is worth where no part is left.
    pub fn end(self) -> Value
        ensures { view result ≡ form_end (course_going self) }
    {
        match self {
            Course::All => exhausted_value(Form::All),
            Course::Any => exhausted_value(Form::Any),
            Course::Recover(value) => value,
            _ => Value::Blank,
        }
    }

    /// What the value of a part makes of the form.
    pub fn turn(self, value: Value) -> Turn
        requires { CanTurn (course_going self) (view value) }
        ensures { turning result ≡ turned_by (course_going self) (view value) }
    {
        match self {
            Course::All => by_decision(
                decide(value),
                Turn::Further(Course::All),
                Turn::Answer(Value::Boolean(false)),
            ),
            Course::Any => by_decision(
                decide(value),
                Turn::Answer(Value::Boolean(true)),
                Turn::Further(Course::Any),
            ),
            Course::If => by_decision(decide(value), Turn::Branch, Turn::Beyond(Course::If)),
            Course::Switch => match value {
                Value::Fault(fault) => Turn::Answer(Value::Fault(fault)),
                value => Turn::Further(Course::Match(value)),
            },
            Course::Match(wanted) => {
                let decision = decide_match(&wanted, value);
                by_decision(decision, Turn::Branch, Turn::Beyond(Course::Match(wanted)))
            }
            Course::Recover(_) => match value {
                Value::Fault(fault) => Turn::Fallback(fault),
                value => Turn::Beyond(Course::Recover(value)),
            },
            Course::Coalesce => coalesce(value),
        }
    }
}

// By what a condition decides; its error is the form's value.
fn by_decision(decision: Decision, met: Turn, unmet: Turn) -> Turn
    ensures { turning result ≡ by_decision decision (turning met) (turning unmet) }
{
    match decision {
        Decision::Met => met,
        Decision::Unmet => unmet,
        Decision::Error(fault) => Turn::Answer(Value::Fault(fault)),
    }
}

// What `Coalesce` makes of a value: a blank one and an empty text are passed over.
fn coalesce(value: Value) -> Turn
    ensures { turning result ≡ turned_by coalesces (view value) }
{
    if is_blank(&value) {
        Turn::Further(Course::Coalesce)
    } else {
        Turn::Answer(value)
    }
}
