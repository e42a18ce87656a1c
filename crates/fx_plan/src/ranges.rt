//! Ranges of keys: on the first indexed column that a conjunct of a test compares.
ghost use Rattle.std.specs.Prelude.{◌≡◌, ◌≢◌, ◌≤◌, ◌∷◌, [], None, true, false, length, pos, IfOk};
ghost use Rattle.std.specs.Prelude.{MatchOption, ◌⊎◌};
ghost use Rattle.fx_types.specs.declared.comparisons.Cmp.TheVariants.{Ne};
ghost use Rattle.fx_types.specs.TypeView.{shape};
ghost use Rattle.fx_types.specs.ValueView.{view};
ghost use Rattle.fx_types.specs.Values.{number};
ghost use Rattle.fx_value.specs.Keys.{key_bytes};
ghost use Rattle.fx_value.specs.Operators.{holds_of};
ghost use Rattle.fx_value.specs.Order.{IsScalar};
ghost use Rattle.fx_plan.specs.Ranges.{AllTaken, IsReach, NoRowIsMissed, TakesComparisons};
ghost use Rattle.fx_plan.specs.Ranges.{everything as everything_of, all_comparisons, comparisons};
ghost use Rattle.fx_plan.specs.Ranges.{is_numbers, is_reached, serves};
ghost use Rattle.fx_plan.specs.Spans.{AreTakenBy, IsSpan, IsSpanOf, after as after_key, both_from};
ghost use Rattle.fx_plan.specs.Spans.{both_ranges, both_spans, both_upto, joined_spans};
ghost use Rattle.fx_plan.specs.Spans.{least as least_key, no_keys as nothing};
ghost use Rattle.fx_plan.specs.Spans.{range_by as by_constant, range_by_blank as by_blank};
ghost use Rattle.fx_plan.specs.Spans.{range_of as of_constant, span_ranges};
ghost use Rattle.row_queries.specs.Conditions.{condition_list};
ghost use Rattle.row_queries.specs.Queries.{IsIndexed};
ghost use Rattle.row_queries.specs.Ranges.{AreRangesRising, HoldEveryKey};

use fx_base::{InOrder, Memory};
use fx_core::{Column, TableShape};
use fx_number::Num;
use fx_types::{Cmp, Ty, Value};
use fx_value::{compare_is_total, holds, key_of, keys_order, value_is_proper};
use row_queries::{Key, KeyRange, RangeList, Test, TestNode};
use std::alloc::Global;

/// The ranges of keys that a query looks through, and their column.
#[derive(Drop)]
pub struct Reach {
    pub column: u16,
    pub ranges: RangeList,
}

// Where the values lie that meet some comparisons: a range of the keys of those other than blank,
// whether blank meets them, and whether 0 does.
#[derive(Drop)]
struct Span {
    range: KeyRange,
    blank: bool,
    zero: bool,
}

/// The ranges on the first indexed column that a conjunct of the test compares by `=`, `<`, `<=`,
/// `>` or `>=`, where each column takes its comparisons: the keys of exactly the values that meet
/// all of these, and blank's in a column of numbers also where 0 meets them. Where there is no such
/// column, all keys.
pub fn ranges_of(alloc: Global, table: &TableShape, test: &Test) -> Result<Reach, Memory>
    requires taken { TakesComparisons table.now test.now }
    requires few { length table.now.columns ≤ 63 }
    ensures ranges { IfOk result (λ r. IsReach table.now test.now r) }
    ensures within { IfOk result (λ r. r.column ≤ length table.now.columns) }
    ensures rises { IfOk result (λ r. AreRangesRising r.ranges) }
    ensures reaches { IfOk result (λ r. IsIndexed table.now r.column ⊎ HoldEveryKey r.ranges) }
{
    if let Some(span) = span_of(alloc, test, 0, true)? {
        return reach_on(alloc, 0, true, span);
    }
    let columns = table.columns.as_slice();
    for (place, column) in columns.iter().enumerate() {
        let number = place as u16 + 1;
        if let Some(span) = span_on(alloc, test, column, number)? {
            return reach_on(alloc, number, is_number(column), span);
        }
    }
    everything(alloc)
}

/// A law, and no work: no row outside the ranges meets the test.
pub fn no_row_is_missed()
    ensures { NoRowIsMissed }
{}

// Where the values lie that meet the comparisons of an indexed column, if there are any.
fn span_on(alloc: Global, test: &Test, column: &Column, number: u16) -> Result<Option<Span>, Memory>
    requires { AllTaken (shape column.now.ty) (comparisons number test.now) }
    ensures { IfOk result (λ found. MatchOption found
        (is_reached column.now number test.now ≡ false)
        (λ s. (is_reached column.now number test.now ≡ true)
        × IsSpan (is_numbers (shape column.now.ty)) s (comparisons number test.now))) }
{
    if column.indexed || column.unique {
        span_of(alloc, test, number, is_number(column))
    } else {
        Ok(None)
    }
}

fn is_number(column: &Column) -> bool
    ensures { result ≡ is_numbers (shape column.now.ty) }
{
    matches!(column.ty, Ty::Number)
}

/// All keys.
pub fn everything(alloc: Global) -> Result<Reach, Memory>
    ensures { IfOk result (λ r. (r.column ≡ 0) × (r.ranges ≡ everything_of)) }
{
    let mut ranges = InOrder::new(alloc);
    let from = Key::from_bytes(Vec::new(alloc));
    ranges.push(KeyRange { from, upto: None })?;
    Ok(Reach { column: 0, ranges })
}

// The ranges of a span on a column.
fn reach_on(alloc: Global, column: u16, numbers: bool, span: Span) -> Result<Reach, Memory>
    ensures { IfOk result (λ r. (r.column ≡ column) × (r.ranges ≡ span_ranges numbers span)) }
{
    let mut ranges = InOrder::new(alloc);
    // A blank cell compares as 0 in a column of numbers, and its key stands apart from that of 0.
    if span.blank || (numbers && span.zero) {
        let from = Key::from_bytes(vec![in alloc; 0]?);
        let upto = Some(least(alloc)?);
        ranges.push(KeyRange { from, upto })?;
    }
    ranges.push(span.range)?;
    Ok(Reach { column, ranges })
}

// Where the values lie that meet the comparisons of a column among the conjuncts, if there are any.
#[cycle(span_of)]
fn span_of(alloc: Global, test: &Test, column: u16, numbers: bool) -> Result<Option<Span>, Memory>
    requires { AreTakenBy numbers (comparisons column test.now) }
    ensures { IfOk result (λ found. IsSpanOf numbers found (comparisons column test.now)) }
{
    match &test.node {
        TestNode::Compare(op, at, constant) => {
            if *at == column && is_served(*op) {
                Ok(Some(one(alloc, *op, constant, numbers)?))
            } else {
                Ok(None)
            }
        }
        TestNode::And(tests) => span_of_all(alloc, tests.as_slice(), column, numbers),
        _ => Ok(None),
    }
}

// The same for several tests.
#[cycle(span_of)]
fn span_of_all(
    alloc: Global,
    tests: &[Test],
    column: u16,
    numbers: bool,
) -> Result<Option<Span>, Memory>
    requires { AreTakenBy numbers (all_comparisons column (condition_list tests.now)) }
    ensures { IfOk result (λ found. IsSpanOf numbers found
        (all_comparisons column (condition_list tests.now))) }
{
    let mut found = None;
    for test in tests {
        let next = span_of(alloc, test, column, numbers)?;
        found = join(found, next);
    }
    Ok(found)
}

// The span of comparisons of which one part has this one and the other part that one, if there are
// any.
fn join(a: Option<Span>, b: Option<Span>) -> Option<Span>
    ensures { result ≡ joined_spans a b }
{
    match (a, b) {
        (None, b) => b,
        (a, None) => a,
        (Some(a), Some(b)) => Some(two(a, b)),
    }
}

fn two(a: Span, b: Span) -> Span
    ensures { result ≡ both_spans a b }
{
    let blank = a.blank && b.blank;
    let zero = a.zero && b.zero;
    Span {
        range: both(a.range, b.range),
        blank,
        zero,
    }
}

// What lies in both ranges.
fn both(a: KeyRange, b: KeyRange) -> KeyRange
    ensures { result ≡ both_ranges a b }
{
    KeyRange {
        from: later(a.from, b.from),
        upto: sooner(a.upto, b.upto),
    }
}

fn later(a: Key, b: Key) -> Key
    ensures { result ≡ both_from a b }
{
    if a <= b { b } else { a }
}

fn sooner(a: Option<Key>, b: Option<Key>) -> Option<Key>
    ensures { result ≡ both_upto a b }
{
    match (a, b) {
        (None, b) => b,
        (a, None) => a,
        (Some(a), Some(b)) => Some(if a <= b { a } else { b }),
    }
}

// Whether ranges serve a comparison by this operator.
fn is_served(op: Cmp) -> bool
    ensures value { result ≡ serves op }
    ensures not_ne { result ≡ true → op ≢ Ne }
{
    !matches!(op, Cmp::Ne)
}

// The span of one comparison.
fn one(alloc: Global, op: Cmp, constant: &Value, numbers: bool) -> Result<Span, Memory>
    requires served { op ≢ Ne }
    requires taken { AreTakenBy numbers ((op, view constant.now) ∷ []) }
    ensures { IfOk result (λ s. IsSpan numbers s ((op, view constant.now) ∷ [])) }
{
    keys_order();
    compare_is_total();
    value_is_proper(constant);
    let range = range_of(alloc, op, constant, numbers)?;
    let blank = holds(op, &Value::Blank, constant);
    let zero = zero_holds(op, constant, numbers);
    Ok(Span { range, blank, zero })
}

// Whether 0 compares so with a constant, in a column of numbers.
fn zero_holds(op: Cmp, constant: &Value, numbers: bool) -> bool
    requires { AreTakenBy numbers ((op, view constant.now) ∷ []) }
    ensures { numbers ≡ true → result ≡ holds_of op (number (pos 0)) (view constant.now) }
{
    numbers && holds(op, &zero(), constant)
}

fn zero() -> Value
    ensures { view result ≡ number (pos 0) }
{
    match Num::from_units(0) {
        Some(zero) => Value::Number(zero),
        None => unreachable!(),
    }
}

// The keys of the values other than blank that compare so with a constant.
fn range_of(alloc: Global, op: Cmp, constant: &Value, numbers: bool) -> Result<KeyRange, Memory>
    requires { IsScalar (view constant.now) }
    ensures { IfOk result (λ r. r ≡ of_constant op numbers (view constant.now)) }
{
    match constant {
        Value::Blank => range_by_blank(alloc, op, numbers),
        _ => range_by(alloc, op, constant),
    }
}

// The same for blank.
fn range_by_blank(alloc: Global, op: Cmp, numbers: bool) -> Result<KeyRange, Memory>
    ensures { IfOk result (λ r. r ≡ by_blank op numbers) }
{
    match op {
        Cmp::Eq => no_keys(alloc),
        _ => {
            if numbers {
                range_by(alloc, op, &zero())
            } else {
                no_keys(alloc)
            }
        }
    }
}

// The same for a constant other than blank.
fn range_by(alloc: Global, op: Cmp, constant: &Value) -> Result<KeyRange, Memory>
    requires { IsScalar (view constant.now) }
    ensures { IfOk result (λ r. r ≡ by_constant op (view constant.now)) }
{
    let (from, upto) = match op {
        Cmp::Eq => (Key::of(alloc, constant)?, Some(after(alloc, constant)?)),
        Cmp::Ne => (least(alloc)?, None),
        Cmp::Lt => (least(alloc)?, Some(Key::of(alloc, constant)?)),
        Cmp::Le => (least(alloc)?, Some(after(alloc, constant)?)),
        Cmp::Gt => (after(alloc, constant)?, None),
        Cmp::Ge => (Key::of(alloc, constant)?, None),
    };
    Ok(KeyRange { from, upto })
}

fn no_keys(alloc: Global) -> Result<KeyRange, Memory>
    ensures { IfOk result (λ r. r ≡ nothing) }
{
    Ok(KeyRange {
        from: least(alloc)?,
        upto: Some(least(alloc)?),
    })
}

// The least key of a value other than blank.
fn least(alloc: Global) -> Result<Key, Memory>
    ensures { IfOk result (λ k. k ≡ least_key) }
{
    Ok(Key::from_bytes(vec![in alloc; 1]?))
}

// The key after a value's. With a 0 behind it: no key lies between the two.
fn after(alloc: Global, constant: &Value) -> Result<Key, Memory>
    requires { IsScalar (view constant.now) }
    ensures { IfOk result (λ k. k ≡ after_key (key_bytes (view constant.now))) }
{
    let mut bytes = key_of(alloc, constant)?;
    bytes.push(0)?;
    Ok(Key::from_bytes(bytes))
}
