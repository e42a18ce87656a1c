//! What a function makes of a table.
ghost use Rattle.std.specs.Prelude.{◌≡◌, IfOk, length, map};
ghost use Rattle.fx_types.specs.ValueView.{view};
ghost use Rattle.fx_core.specs.ColumnLists.{before_last};
ghost use Rattle.fx_tables.specs.Groups.{CanGroup, CanUngroup, grouped_by, last_name, ungrouped_by};
ghost use Rattle.fx_semantics.specs.Rows.{is_falling as is_falling_in};
ghost use Rattle.fx_tables.specs.AggregateCalls.{concatenated_by};
ghost use Rattle.fx_eval.specs.Given.{argument_values, separator_in, values_in};
ghost use Rattle.fx_eval.specs.TableCalls.{CanMake, IsJoining, IsMadeOf};

use crate::answers::{Answers, count, only, value, values_of};
use crate::columns::{names, new_columns, renamings};
use crate::conditions::{find, verdicts};
use fx_base::Memory;
use fx_core::functions::Fun;
use fx_core::literals::SortOrder;
use fx_tables::row_calls as calls;
use fx_types::values::{Rows, Value};
use fx_types::words::Words;
use std::alloc::Global;

/// What a function makes of the rows of a table, and of what its other parts came to.
pub fn over(alloc: Global, fun: Fun, rows: Rows, answers: Vec<Answers>) -> Result<Value, Memory>
    requires { CanMake fun rows (map argument_values answers.items) }
    ensures { IfOk result (λ v. IsMadeOf fun rows (map argument_values answers.items) (view v)) }
{
    match fun {
        Fun::Filter => {
            let conditions = verdicts(alloc, &rows, answers)?;
            calls::filter(alloc, rows, conditions)
        }
        Fun::LookUp => find(alloc, rows, answers),
        Fun::Sort(order) => calls::sort(alloc, rows, only(answers), is_falling(order)),
        Fun::First => Ok(calls::first(rows)),
        Fun::Last => Ok(calls::last(rows)),
        Fun::FirstN => Ok(calls::first_n(rows, count(answers))),
        Fun::LastN => Ok(calls::last_n(rows, count(answers))),
        Fun::CountRows => calls::count_rows(alloc, &rows),
        Fun::CountIf => calls::count_if(alloc, verdicts(alloc, &rows, answers)?),
        Fun::IsEmpty => Ok(calls::is_empty(&rows)),
        Fun::SumRows => calls::sum(alloc, only(answers)),
        Fun::MinRows => calls::min(alloc, only(answers)),
        Fun::MaxRows => calls::max(alloc, only(answers)),
        Fun::AverageRows => calls::average(alloc, only(answers)),
        Fun::AddColumns => calls::add_columns(alloc, rows, new_columns(alloc, answers)?),
        Fun::DropColumns => calls::drop_columns(alloc, rows, names(alloc, answers)?.as_slice()),
        Fun::ShowColumns => calls::show_columns(alloc, rows, names(alloc, answers)?.as_slice()),
        Fun::RenameColumns => {
            calls::rename_columns(alloc, rows, renamings(alloc, answers)?.as_slice())
        }
        Fun::GroupBy => group_by(alloc, rows, names(alloc, answers)?.as_slice()),
        Fun::Ungroup => ungroup_by(alloc, rows, names(alloc, answers)?.as_slice()),
        Fun::Distinct => calls::distinct_values(alloc, only(answers)),
        Fun::ForAll => calls::for_all(alloc, only(answers)),
        Fun::Concat => concatenate(alloc, answers),
        _ => unreachable!(),
    }
}

// The rows in groups: by keys, and behind these the name of the groups.
fn group_by(alloc: Global, rows: Rows, names: &[Words]) -> Result<Value, Memory>
    requires { CanGroup (before_last names.now) (last_name names.now) rows }
    ensures { IfOk result (λ v. view v ≡ grouped_by names.now rows) }
{
    match names {
        [keys @ .., group] => fx_group::group(alloc, rows, keys, group.as_str()),
        [] => fx_group::group(alloc, rows, names, ""),
    }
}

// The rows out of their groups, whose name comes last.
fn ungroup_by(alloc: Global, rows: Rows, names: &[Words]) -> Result<Value, Memory>
    requires { CanUngroup (last_name names.now) rows }
    ensures { IfOk result (λ v. view v ≡ ungrouped_by names.now rows) }
{
    match names {
        [.., group] => fx_group::ungroup(alloc, rows, group.as_str()),
        [] => fx_group::ungroup(alloc, rows, ""),
    }
}

fn is_falling(order: SortOrder) -> bool
    ensures { result ≡ is_falling_in order }
{
    match order {
        SortOrder::Ascending => false,
        SortOrder::Descending => true,
    }
}

// The texts of the formula joined, with the separator between each two.
fn concatenate(alloc: Global, answers: Vec<Answers>) -> Result<Value, Memory>
    requires { IsJoining (map argument_values answers.items) }
    ensures { IfOk result (λ v. view v ≡ concatenated_by
        (separator_in (map argument_values answers.items))
        (values_in (map argument_values answers.items))) }
{
    let mut left = answers.into_iter();
    let values = values_of(left.next());
    let separator = value(left.next()).unwrap_or(Value::Blank);
    calls::concat(alloc, values, separator)
}
