// What is given for rows, judged.
ghost use Rattle.std.specs.Prelude.{◌≡◌, IfOk, option_map};
ghost use Rattle.fx_types.specs.ValueView.{view};
ghost use Rattle.fx_types.specs.Words.{scalars_of};
ghost use Rattle.row_requests.specs.Changes.{change_refusal as broken_of, column_named};
ghost use Rattle.row_requests.specs.Changes.{has_type as has_type_of, first_refusal};
ghost use Rattle.row_requests.specs.Changes.{kept_refusal as kept_refusal_of};
ghost use Rattle.row_requests.specs.Changes.{column_name_at as name_at_of, rule_of_given};
ghost use Rattle.row_requests.specs.GivenRows.{AreScalars};

use crate::bodies::Given;
use crate::rule::Rule;
use fx_base::Memory;
use fx_core::Column;
use fx_types::{Value, Words};
use fx_value::fits;
use row_keeper::RowRefusal;
use std::alloc::Global;
use view_text::{Detail, Refusal};

/// The column of a name.
fn column_named<'a>(columns: &'a [Column], name: &Words) -> Option<&'a Column>
    ensures { option_map (λ c. c.now) result ≡ column_named name.now columns.now }
{
    columns.iter().find(|column| column.name.is(name))
}

/// Whether a value is one of the column's type, or blank.
fn has_type(column: &Column, value: &Option<Value>) -> bool
    ensures { result ≡ has_type_of column.now (option_map view value.now) }
{
    match value {
        Some(value) => fits(value, &column.ty),
        None => false,
    }
}

/// The rule that a value breaks which is given under a name.
fn rule_of_given(columns: &[Column], name: &Words, value: &Option<Value>) -> Option<Rule>
    ensures { result ≡ rule_of_given (column_named name.now columns.now) (option_map view value.now) }
{
    match column_named(columns, name) {
        None => Some(Rule::Column),
        Some(column) if has_type(column, value) => None,
        Some(_) => Some(Rule::ColumnType),
    }
}

/// The refusal of a rule that breaks.
fn refuse_cell(alloc: Global, at: u32, column: &str, rule: Rule) -> Result<Refusal, Memory>
    ensures { IfOk result (λ r. r ≡ broken_of at (scalars_of column.now) rule) }
{
    let column = Words::of(alloc, column)?;
    let rule = Words::of(alloc, rule.name())?;
    Ok(Refusal {
        code: 23,
        detail: Detail::Row(at, column, rule),
    })
}

/// The first value given that breaks a rule of its column.
pub(crate) fn judge(
    alloc: Global,
    at: u32,
    columns: &[Column],
    given: &Given,
) -> Result<Option<Refusal>, Memory>
    ensures is { IfOk result (λ r. r ≡ first_refusal at columns.now given.now) }
    ensures scalars { AreScalars given.now }
{
    for (name, value) in given.as_slice() {
        if let Some(rule) = rule_of_given(columns, name, value) {
            return Ok(Some(refuse_cell(alloc, at, name.as_str(), rule)?));
        }
    }
    Ok(None)
}

/// The name of the column of a number, where `ID` is 0.
fn name_at(columns: &[Column], column: Option<u16>) -> &str
    ensures { scalars_of result.now ≡ name_at_of columns.now column }
{
    match column {
        Some(number) => match columns.get(usize::from(number).saturating_sub(1)) {
            Some(column) => column.name.as_str(),
            None => "",
        },
        None => "",
    }
}

/// The refusal of a rule that the keeper named.
pub(crate) fn kept_refusal(
    alloc: Global,
    at: u32,
    columns: &[Column],
    refusal: RowRefusal,
) -> Result<Refusal, Memory>
    ensures { IfOk result (λ r. r ≡ kept_refusal_of at columns.now refusal) }
{
    refuse_cell(
        alloc,
        at,
        name_at(columns, refusal.column),
        Rule::of(refusal.rule),
    )
}
