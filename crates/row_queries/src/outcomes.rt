//! What row tests come to on rows.
ghost use Rattle.std.specs.Prelude.{◌≡◌, ◌⊎◌, [], IfOk, IsSome, MatchOption, OnErr, Some};
ghost use Rattle.std.specs.Prelude.{slice_get};
ghost use Rattle.caseless.specs.Caseless.{default_case_fold};
ghost use Rattle.fx_types.specs.ValueView.{view};
ghost use Rattle.fx_types.specs.Values.{text as text_data};
ghost use Rattle.fx_value.specs.Operators.{CanCompare, holds_of};
ghost use Rattle.row_queries.specs.Conditions.{condition_list};
ghost use Rattle.row_queries.specs.Judgements.{judged_outcome};
ghost use Rattle.row_queries.specs.RowTests.{CanAsk, CanAskAll, IsTruth, all_outcome, any_outcome};
ghost use Rattle.row_queries.specs.RowTests.{is_prefix, begins_without_case, decided, decided_by};
ghost use Rattle.row_queries.specs.RowTests.{outcome_fault, has_part_without_case, held_of};
ghost use Rattle.row_queries.specs.RowTests.{is_empty_value, outcome, text_or_empty, met, unmet};
ghost use Rattle.row_queries.specs.RowTests.{HasValue, ReadTextWhile, ReadsText};
ghost use Rattle.row_queries.specs.RowTests.{has_part as has_part_in, reversed as reversed_outcome};
ghost use Rattle.row_queries.specs.TableRows.{id_value, value_at, values_of};

use crate::row_tests::{Held, Test, TestNode};
use crate::rows::Row;
use fx_base::Memory;
use fx_number::Num;
use fx_types::{Cmp, Fault, Value, Words};
use fx_value::holds;
use std::alloc::Global;

/// What a row test comes to, and the constant that is an error where it is one.
#[derive(Drop)]
pub enum Judgement<'t> {
    Met,
    Unmet,
    Failed(&'t Fault),
}

/// Whether a row meets a test. Memory is taken only where a text is looked into.
pub fn meets(alloc: Global, test: &Test, row: &Row) -> Result<Held, Memory>
    requires { CanAsk (values_of row.now) test.now }
    ensures value { IfOk result (λ h. h ≡ held_of (outcome (values_of row.now) test.now)) }
    ensures memory { OnErr result (ReadsText (values_of row.now) test.now) }
{
    match judge(alloc, test, row)? {
        Judgement::Met => Ok(Held::Yes),
        Judgement::Unmet => Ok(Held::No),
        Judgement::Failed(_) => Ok(Held::Error),
    }
}

/// The error of a test on a row, if it is one. Memory is taken only where a text is looked into,
/// and for the error.
pub fn fault_of(alloc: Global, test: &Test, row: &Row) -> Result<Option<Fault>, Memory>
    requires { CanAsk (values_of row.now) test.now }
    ensures value { IfOk result (λ f. f ≡ outcome_fault (outcome (values_of row.now) test.now)) }
    ensures memory { OnErr result (ReadsText (values_of row.now) test.now
        ⊎ IsSome (outcome_fault (outcome (values_of row.now) test.now))) }
{
    match judge(alloc, test, row)? {
        Judgement::Failed(fault) => Ok(Some(fault.copy(alloc)?)),
        _ => Ok(None),
    }
}

/// What a test comes to on a row.
#[cycle(judge)]
pub fn judge<'t>(alloc: Global, test: &'t Test, row: &Row) -> Result<Judgement<'t>, Memory>
    requires { CanAsk (values_of row.now) test.now }
    ensures value { IfOk result (λ j. judged_outcome j ≡ outcome (values_of row.now) test.now) }
    ensures memory { OnErr result (ReadsText (values_of row.now) test.now) }
{
    match &test.node {
        TestNode::All => Ok(Judgement::Met),
        TestNode::Flag(column) => Ok(flag(row, *column)),
        TestNode::Const(value) => Ok(constant(value)),
        TestNode::Compare(op, column, value) => Ok(match value {
            Value::Fault(fault) => Judgement::Failed(fault),
            _ => decision(compares(row, *op, *column, value)),
        }),
        TestNode::IsBlank(column) => Ok(decision(is_blank(row, *column))),
        TestNode::Starts(column, value) => match value {
            Value::Fault(fault) => Ok(Judgement::Failed(fault)),
            _ => Ok(decision(starts(alloc, row, *column, value)?)),
        },
        TestNode::Contains(column, value) => match value {
            Value::Fault(fault) => Ok(Judgement::Failed(fault)),
            _ => Ok(decision(contains(alloc, row, *column, value)?)),
        },
        TestNode::And(tests) => judge_all(alloc, tests.as_slice(), row),
        TestNode::Or(tests) => judge_any(alloc, tests.as_slice(), row),
        TestNode::Not(test) => Ok(reverse(judge(alloc, test, row)?)),
    }
}

// What tests from left to right come to, up to the first that isn't met or is an error.
#[cycle(judge)]
fn judge_all<'t>(alloc: Global, tests: &'t [Test], row: &Row) -> Result<Judgement<'t>, Memory>
    requires { CanAskAll (values_of row.now) (condition_list tests.now) }
    ensures value { IfOk result (λ j. judged_outcome j
        ≡ all_outcome (values_of row.now) (condition_list tests.now)) }
    ensures memory { OnErr result (ReadTextWhile met (values_of row.now) (condition_list tests.now)) }
{
    for test in tests {
        match judge(alloc, test, row)? {
            Judgement::Met => {}
            other => return Ok(other),
        }
    }
    Ok(Judgement::Met)
}

// What tests from left to right come to, up to the first that is met or is an error.
#[cycle(judge)]
fn judge_any<'t>(alloc: Global, tests: &'t [Test], row: &Row) -> Result<Judgement<'t>, Memory>
    requires { CanAskAll (values_of row.now) (condition_list tests.now) }
    ensures value { IfOk result (λ j. judged_outcome j
        ≡ any_outcome (values_of row.now) (condition_list tests.now)) }
    ensures memory { OnErr result (ReadTextWhile unmet (values_of row.now)
        (condition_list tests.now)) }
{
    for test in tests {
        match judge(alloc, test, row)? {
            Judgement::Unmet => {}
            other => return Ok(other),
        }
    }
    Ok(Judgement::Unmet)
}

fn reverse(judgement: Judgement<'_>) -> Judgement<'_>
    ensures { judged_outcome result ≡ reversed_outcome (judged_outcome judgement.entry) }
{
    match judgement {
        Judgement::Met => Judgement::Unmet,
        Judgement::Unmet => Judgement::Met,
        Judgement::Failed(fault) => Judgement::Failed(fault),
    }
}

fn decision<'t>(holds: bool) -> Judgement<'t>
    ensures { judged_outcome result ≡ decided holds }
{
    if holds {
        Judgement::Met
    } else {
        Judgement::Unmet
    }
}

// A Boolean as a test.
fn constant(value: &Value) -> Judgement<'_>
    ensures { judged_outcome result ≡ decided_by (view value.now) }
{
    match value {
        Value::Boolean(truth) => decision(*truth),
        Value::Fault(fault) => Judgement::Failed(fault),
        _ => Judgement::Unmet,
    }
}

// A Boolean column as a test.
fn flag<'t>(row: &Row, column: u16) -> Judgement<'t>
    requires { HasValue (values_of row.now) column IsTruth }
    ensures { judged_outcome result ≡ decided_by (value_at (values_of row.now) column) }
{
    match cell(row, column) {
        Some(Value::Boolean(truth)) => decision(*truth),
        _ => Judgement::Unmet,
    }
}

// Whether a column's value compares so with another one.
fn compares(row: &Row, op: Cmp, column: u16, value: &Value) -> bool
    requires { HasValue (values_of row.now) column (λ v. CanCompare op v (view value.now)) }
    ensures { result ≡ holds_of op (value_at (values_of row.now) column) (view value.now) }
{
    match cell(row, column) {
        Some(cell) => holds(op, cell, value),
        None => holds(op, &number_of(row.id), value),
    }
}

// Whether a column is blank or an empty text.
fn is_blank(row: &Row, column: u16) -> bool
    requires { IsSome (slice_get (values_of row.now) column) }
    ensures { result ≡ is_empty_value (value_at (values_of row.now) column) }
{
    match cell(row, column) {
        Some(Value::Blank) => true,
        Some(Value::Text(text)) => is_empty_text(text),
        _ => false,
    }
}

fn is_empty_text(text: &Words) -> bool
    ensures { result ≡ is_empty_value (text_data text.now) }
{
    text.as_str().is_empty()
}

fn empty_text(alloc: Global) -> Result<Words, Memory>
    ensures { IfOk result (λ t. t ≡ []) }
{
    Words::of(alloc, "")
}

// Whether the text in a column begins with another one, without case.
fn starts(alloc: Global, row: &Row, column: u16, part: &Value) -> Result<bool, Memory>
    requires { IsSome (slice_get (values_of row.now) column) }
    ensures { IfOk result (λ b. b ≡ begins_without_case (value_at (values_of row.now) column)
        (view part.now)) }
{
    let empty = empty_text(alloc)?;
    let text = cell_text(row, column, &empty);
    starts_with(alloc, text, text_of(part, &empty))
}

// Whether another text stands in the text in a column, without case.
fn contains(alloc: Global, row: &Row, column: u16, part: &Value) -> Result<bool, Memory>
    requires { IsSome (slice_get (values_of row.now) column) }
    ensures { IfOk result (λ b. b ≡ has_part_without_case (value_at (values_of row.now) column)
        (view part.now)) }
{
    let empty = empty_text(alloc)?;
    let text = cell_text(row, column, &empty);
    has_part(alloc, text, text_of(part, &empty))
}

// Whether a text begins with a part, without case.
fn starts_with(alloc: Global, text: &Words, part: &Words) -> Result<bool, Memory>
    ensures { IfOk result (λ b. b ≡ is_prefix (default_case_fold text.now)
        (default_case_fold part.now)) }
{
    fx_primitives::starts_with(alloc, text, part)
}

// Whether a text has a part somewhere, without case.
fn has_part(alloc: Global, text: &Words, part: &Words) -> Result<bool, Memory>
    ensures { IfOk result (λ b. b ≡ has_part_in (default_case_fold text.now)
        (default_case_fold part.now)) }
{
    Ok(fx_primitives::contains(alloc, text, part)?)
}

// The text in a column, or an empty one. The empty one is lent by the caller, so that no text is
// copied.
fn cell_text<'t>(row: &'t Row, column: u16, empty: &'t Words) -> &'t Words
    requires place { IsSome (slice_get (values_of row.now) column) }
    requires empty { empty.now ≡ [] }
    ensures { result.now ≡ text_or_empty (value_at (values_of row.now) column) }
{
    match cell(row, column) {
        Some(cell) => text_of(cell, empty),
        None => empty,
    }
}

// The text in a value, or an empty one.
fn text_of<'t>(value: &'t Value, empty: &'t Words) -> &'t Words
    requires { empty.now ≡ [] }
    ensures { result.now ≡ text_or_empty (view value.now) }
{
    match value {
        Value::Text(text) => text,
        _ => empty,
    }
}

// The value of a column other than `ID`.
fn cell(row: &Row, column: u16) -> Option<&Value>
    requires { IsSome (slice_get (values_of row.now) column) }
    ensures { MatchOption result (column ≡ 0)
        (λ v. slice_get (values_of row.now) column ≡ Some (view v.now)) }
{
    match column.checked_sub(1) {
        Some(place) => row.cells.get(place as usize),
        None => None,
    }
}

// The number of a row as a value.
fn number_of(id: u32) -> Value
    ensures { view result ≡ id_value id }
{
    match Num::from_units(i64::from(id) * 10_000) {
        Some(number) => Value::Number(number),
        None => unreachable!(),
    }
}
