// What conditions come to for each row.
ghost use Rattle.std.specs.Prelude.{◌≡◌, ◌∷◌, [], IfOk, length, map, true};
ghost use Rattle.fx_types.specs.ValueView.{view};
ghost use Rattle.fx_types.specs.Values.{boolean};
ghost use Rattle.fx_types.specs.declared.values.Value.TheVariants.{Boolean};
ghost use Rattle.fx_tables.specs.RowCalls.{holds as holds_in, verdict_of};
ghost use Rattle.fx_eval.specs.Given.{argument_values};
ghost use Rattle.fx_eval.specs.TableCalls.{AreFormulas, look_up_answer, IsConditionAndFormula};
ghost use Rattle.fx_eval.specs.TableCalls.{value_found, verdicts as verdicts_of, with_condition};
ghost use Rattle.fx_value.specs.Columns.{Row};
ghost use Rattle.fx_tables.specs.Unions.{fault_or, is_fault};

use crate::answers::{Answers, values_of};
use fx_base::Memory;
use fx_tables::row_calls::{look_up, verdict};
use fx_types::values::{Rows, Value};
use std::alloc::{AllocError, Global};

// The verdict of all conditions for each row.
pub(crate) fn verdicts(
    alloc: Global,
    rows: &Rows,
    conditions: Vec<Answers>,
) -> Result<Vec<Value>, Memory>
    requires { AreFormulas (length rows.now) (map argument_values conditions.items) }
    ensures value { IfOk result (λ vs. map view vs.items
        ≡ verdicts_of rows.now (map argument_values conditions.items)) }
    ensures each { IfOk result (λ vs. length vs.items ≡ length rows.now) }
{
    let mut verdicts = truths(alloc, rows)?;
    for condition in conditions {
        verdicts = with_one_more(alloc, verdicts, values_of(Some(condition)))?;
    }
    Ok(verdicts)
}

// `true` for each row.
fn truths(alloc: Global, rows: &Rows) -> Result<Vec<Value>, Memory>
    ensures { IfOk result (λ vs. map view vs.items ≡ map (λ (r : Row). boolean true) rows.now) }
{
    Ok(each_truth(alloc, rows)?)
}

fn each_truth(alloc: Global, rows: &Rows) -> Result<Vec<Value>, AllocError>
    ensures { IfOk result (λ vs. vs.items ≡ map (λ (r : Row). Boolean true) rows.now) }
{
    rows.as_slice()
        .iter()
        .map(|_row| Value::Boolean(true))
        .collect(alloc)
}

// The verdicts with one more condition of each row.
fn with_one_more(
    alloc: Global,
    verdicts: Vec<Value>,
    conditions: Vec<Value>,
) -> Result<Vec<Value>, Memory>
    requires { length conditions.items ≡ length verdicts.items }
    ensures { IfOk result (λ vs. map view vs.items
        ≡ with_condition (map view verdicts.items) (map view conditions.items)) }
{
    let mut joined = Vec::with_capacity(alloc, verdicts.len())?;
    let mut left = conditions.into_iter();
    for verdict in verdicts {
        let Some(condition) = left.next() else {
            unreachable!()
        };
        joined.push(both(alloc, verdict, condition)?)?;
    }
    Ok(joined)
}

// The first error of two conditions, else whether both hold.
fn both(alloc: Global, left: Value, right: Value) -> Result<Value, Memory>
    ensures { IfOk result (λ v. view v ≡ verdict_of (view left ∷ view right ∷ [])) }
{
    Ok(verdict(vec![in alloc; left, right]?))
}

fn is_error(value: &Value) -> bool
    ensures { result ≡ is_fault (view value.now) }
{
    matches!(value, Value::Fault(_))
}

fn holds(condition: &Value) -> bool
    ensures { result ≡ holds_in (view condition.now) }
{
    matches!(condition, Value::Boolean(true))
}

// The first row whose condition holds, or what the formula gave for it.
pub(crate) fn find(alloc: Global, rows: Rows, answers: Vec<Answers>) -> Result<Value, Memory>
    requires { IsConditionAndFormula (length rows) (map argument_values answers.items) }
    ensures { IfOk result (λ v. view v ≡ look_up_answer rows (map argument_values answers.items)) }
{
    let mut left = answers.into_iter();
    let conditions = values_of(left.next());
    match left.next() {
        None => look_up(alloc, rows, conditions),
        Some(values) => Ok(value_where(conditions, values_of(Some(values)))),
    }
}

// The first error of a condition, else the value at the place of the first that holds, or blank.
fn value_where(conditions: Vec<Value>, values: Vec<Value>) -> Value
    requires { length values.items ≡ length conditions.items }
    ensures { view result ≡ fault_or (map view conditions.items)
        (value_found (map view conditions.items) (map view values.items)) }
{
    let found = first_that_holds(conditions.as_slice(), values);
    let verdict = verdict(conditions);
    if is_error(&verdict) { verdict } else { found }
}

// The value at the place of the first condition that holds, or blank.
fn first_that_holds(conditions: &[Value], values: Vec<Value>) -> Value
    requires { length values.items ≡ length conditions.now }
    ensures { view result ≡ value_found (map view conditions.now) (map view values.items) }
{
    let mut left = values.into_iter();
    for condition in conditions {
        let Some(value) = left.next() else {
            unreachable!()
        };
        if holds(condition) {
            return value;
        }
    }
    Value::Blank
}
