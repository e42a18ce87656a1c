// Whether the constants of a test are sound.
ghost use Rattle.std.specs.Prelude.{◌≡◌, true};
ghost use Rattle.fx_types.specs.ValueView.{view};
ghost use Rattle.row_queries.specs.Conditions.{condition_list};
ghost use Rattle.row_queries.specs.RowTests.{HasNoFaults, HaveNoFaults, IsNoFault};

use fx_types::Value;
use row_queries::{Test, TestNode};

fn is_no_fault(value: &Value) -> bool
    ensures { result ≡ true → IsNoFault (view value.now) }
{
    !matches!(value, Value::Fault(_))
}

/// Whether no constant of a test is an error.
#[cycle(constants)]
pub fn is_sound(test: &Test) -> bool
    ensures { result ≡ true → HasNoFaults test.now }
{
    match &test.node {
        TestNode::All => true,
        TestNode::Flag(_) => true,
        TestNode::Const(value) => is_no_fault(value),
        TestNode::Compare(_, _, value) => is_no_fault(value),
        TestNode::IsBlank(_) => true,
        TestNode::Starts(_, value) => is_no_fault(value),
        TestNode::Contains(_, value) => is_no_fault(value),
        TestNode::And(tests) => are_sound(tests.as_slice()),
        TestNode::Or(tests) => are_sound(tests.as_slice()),
        TestNode::Not(test) => is_sound(test),
    }
}

#[cycle(constants)]
fn are_sound(tests: &[Test]) -> bool
    ensures { result ≡ true → HaveNoFaults (condition_list tests.now) }
{
    for test in tests {
        if !is_sound(test) {
            return false;
        }
    }
    true
}
