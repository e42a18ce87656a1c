//! Row tests without their constants.
ghost use Rattle.std.specs.Prelude.{◌≡◌, ◌≤◌, ◌++◌, ◌∷◌, [], length, slice_get, Some, OnOk, OnErr};
ghost use Rattle.std.specs.Prelude.{MatchOption};

use fx_base::Memory;
use fx_types::Cmp;
use std::alloc::Global;
use std::marker::Model;

/// A row test whose constants stand in a list beside it.
#[cycle(pattern)]
pub struct Pattern {
    pub node: PatternNode,
}

// By hand, so that it is called: what is derived is opened wherever a value may end, which costs
// proofs seconds each time.
impl Drop for Pattern {
    fn drop(self) {
        let Pattern { node: _ } = self;
    }
}

/// What stands at the top of a pattern. Columns go by number, and `ID` is column 0. The last number
/// of a variant that has a constant is its place.
#[cycle(pattern)]
#[derive(Drop)]
pub enum PatternNode {
    /// Every row meets it.
    All,
    /// A Boolean column is true.
    Flag(u16),
    /// A Boolean is true.
    Const(u32),
    /// A column, compared with a constant.
    Compare(Cmp, u16, u32),
    /// A column is blank or an empty text.
    IsBlank(u16),
    /// The text in a column begins with a constant, without case.
    Starts(u16, u32),
    /// A constant stands in the text in a column, without case.
    Contains(u16, u32),
    /// Patterns from left to right, up to the first that isn't met or is an error.
    And(Patterns),
    /// Patterns from left to right, up to the first that is met or is an error.
    Or(Patterns),
    /// A pattern that isn't met.
    Not(Box<Pattern>),
}

/// Patterns in order.
#[cycle(pattern)]
#[derive(Drop)]
pub struct Patterns {
    items: Vec<Pattern>,
}

impl Model for Pattern {
    ghost use Rattle.fx_plan.specs.Outlines.{Outline, outline_size};
    ghost use Rattle.fx_plan.specs.OutlineCode.{outline_code};

    ghost Value = { Outline };

    ghost coded = { outline_code };

    ghost use Rattle.fx_plan.specs.OutlineView.{outline};

    ghost view = { λ a. outline a.node };

    ghost size = { outline_size };

    ghost use Rattle.std.proofs.Common.{arith};
    ghost use Rattle.fx_plan.specs.OutlineFalls.{pattern_falls};

    ghost size_decreases = { λ a h. omega (arith, pattern_falls a.node) };
}

impl Model for Patterns {
    ghost use Rattle.std.specs.Prelude.{List};
    ghost use Rattle.fx_plan.specs.Outlines.{Outline, outlines_size};
    ghost use Rattle.fx_plan.specs.OutlineCode.{outlines_code};

    ghost Value = { List Outline };

    ghost coded = { outlines_code };

    ghost view = { λ a. a.items.items };

    ghost size = { outlines_size };

    ghost use Rattle.std.proofs.Common.{arith};
    ghost use Rattle.fx_plan.specs.OutlineFalls.{outlines_fall};

    ghost size_decreases = { λ a h. omega (arith, outlines_fall a.items.items) };
}

impl Patterns {
    /// No patterns.
    pub fn new(alloc: Global) -> Patterns
        ensures { result ≡ [] }
    {
        Patterns {
            items: Vec::new(alloc),
        }
    }

    /// Adds a pattern at the end.
    pub fn push(&mut self, pattern: Pattern) -> Result<(), Memory>
        ensures ok { OnOk result (self.new ≡ self.old ++ pattern ∷ []) }
        ensures err { OnErr result (self.new ≡ self.old) }
    {
        self.items.push(pattern)?;
        Ok(())
    }

    /// How many patterns there are.
    pub fn len(&self) -> usize
        ensures { result ≡ length self.now }
    {
        self.items.len()
    }

    /// The pattern at a place, counted from 0.
    pub fn get(&self, place: usize) -> Option<&Pattern>
        ensures { MatchOption result (length self.now ≤ place)
            (λ p. slice_get self.now place ≡ Some p.now) }
    {
        self.items.get(place)
    }

    /// The patterns in order.
    pub fn as_slice(&self) -> &[Pattern]
        ensures { result.now ≡ self.now }
    {
        self.items.as_slice()
    }
}
