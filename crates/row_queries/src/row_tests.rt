//! Row tests: what a row must meet.
ghost use Rattle.std.specs.Prelude.{◌≡◌, ◌≤◌, ◌++◌, ◌∷◌, [], length, slice_get, Some, OnOk, OnErr};
ghost use Rattle.std.specs.Prelude.{MatchOption};

use fx_base::Memory;
use fx_types::{Cmp, Value};
use std::alloc::Global;
use std::marker::Model;

/// A row test: what a row must meet.
#[cycle(row_test)]
pub struct Test {
    pub node: TestNode,
}

// By hand, so that it is called: what is derived is opened wherever a value may end, which costs
// proofs seconds each time.
impl Drop for Test {
    fn drop(self) {
        let Test { node: _ } = self;
    }
}

/// What stands at the top of a row test. Columns go by number, and `ID` is column 0.
#[cycle(row_test)]
#[derive(Drop)]
pub enum TestNode {
    /// Every row meets it.
    All,
    /// A Boolean column is true.
    Flag(u16),
    /// A Boolean is true.
    Const(Value),
    /// A column, compared with a value.
    Compare(Cmp, u16, Value),
    /// A column is blank or an empty text.
    IsBlank(u16),
    /// The text in a column begins with another one, without case.
    Starts(u16, Value),
    /// Another text stands in the text in a column, without case.
    Contains(u16, Value),
    /// Tests from left to right, up to the first that isn't met or is an error.
    And(Tests),
    /// Tests from left to right, up to the first that is met or is an error.
    Or(Tests),
    /// A test that isn't met.
    Not(Box<Test>),
}

/// Row tests in order.
#[cycle(row_test)]
#[derive(Drop)]
pub struct Tests {
    items: Vec<Test>,
}

impl Model for Test {
    ghost use Rattle.row_queries.specs.Conditions.{Condition, condition_size};
    ghost use Rattle.row_queries.specs.ConditionCode.{condition_code};

    ghost Value = { Condition };

    ghost coded = { condition_code };

    ghost use Rattle.row_queries.specs.ConditionView.{condition};

    ghost view = { λ a. condition a.node };

    ghost size = { condition_size };

    ghost use Rattle.std.proofs.Common.{arith};
    ghost use Rattle.row_queries.specs.ConditionFalls.{test_falls};

    ghost size_decreases = { λ a h. omega (arith, test_falls a.node) };
}

impl Model for Tests {
    ghost use Rattle.std.specs.Prelude.{List};
    ghost use Rattle.row_queries.specs.Conditions.{Condition, conditions_size};
    ghost use Rattle.row_queries.specs.ConditionCode.{conditions_code};

    ghost Value = { List Condition };

    ghost coded = { conditions_code };

    ghost view = { λ a. a.items.items };

    ghost size = { conditions_size };

    ghost use Rattle.std.proofs.Common.{arith};
    ghost use Rattle.row_queries.specs.ConditionFalls.{conditions_fall};

    ghost size_decreases = { λ a h. omega (arith, conditions_fall a.items.items) };
}

/// What a row test comes to.
#[derive(Clone, Copy)]
pub enum Held {
    Yes,
    No,
    Error,
}

impl Tests {
    /// No tests.
    pub fn new(alloc: Global) -> Tests
        ensures { result ≡ [] }
    {
        Tests {
            items: Vec::new(alloc),
        }
    }

    /// Adds a test at the end.
    pub fn push(&mut self, test: Test) -> Result<(), Memory>
        ensures ok { OnOk result (self.new ≡ self.old ++ test ∷ []) }
        ensures err { OnErr result (self.new ≡ self.old) }
    {
        self.items.push(test)?;
        Ok(())
    }

    /// How many tests there are.
    pub fn len(&self) -> usize
        ensures { result ≡ length self.now }
    {
        self.items.len()
    }

    /// The test at a place, counted from 0.
    pub fn get(&self, place: usize) -> Option<&Test>
        ensures { MatchOption result (length self.now ≤ place)
            (λ t. slice_get self.now place ≡ Some t.now) }
    {
        self.items.get(place)
    }

    /// The tests in order.
    pub fn as_slice(&self) -> &[Test]
        ensures { result.now ≡ self.now }
    {
        self.items.as_slice()
    }
}
