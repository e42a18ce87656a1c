// The names of columns, and what stands beside them.
ghost use Rattle.std.specs.Prelude.{◌≡◌, IfOk, map};
ghost use Rattle.fx_tables.specs.NewColumn.{column_seen, renaming_seen};
ghost use Rattle.fx_eval.specs.Given.{new_columns, argument_values, column_names_in, pairs_in};
ghost use Rattle.fx_eval.specs.TableCalls.{AreNewColumns, AreColumnNames, AreNamePairs};

use crate::answers::{Answers, name_of, values_of};
use fx_base::Memory;
use fx_tables::row_calls::{NewColumn, Renaming};
use fx_types::words::Words;
use std::alloc::Global;

pub(crate) fn names(alloc: Global, answers: Vec<Answers>) -> Result<Vec<Words>, Memory>
    requires { AreColumnNames (map argument_values answers.items) }
    ensures { IfOk result (λ ns. ns.items ≡ column_names_in (map argument_values answers.items)) }
{
    let mut names = Vec::with_capacity(alloc, answers.len())?;
    for answer in answers {
        names.push(name_of(Some(answer)))?;
    }
    Ok(names)
}

// Each name with the values of the formula behind it.
pub(crate) fn new_columns(alloc: Global, answers: Vec<Answers>) -> Result<Vec<NewColumn>, Memory>
    requires { AreNewColumns (map argument_values answers.items) }
    ensures { IfOk result (λ cs. map column_seen cs.items
        ≡ new_columns (map argument_values answers.items)) }
{
    let mut columns = Vec::new(alloc);
    let mut left = answers.into_iter();
    while let Some(name) = left.next() {
        let Some(values) = left.next() else {
            unreachable!()
        };
        columns.push(NewColumn {
            name: name_of(Some(name)),
            values: values_of(Some(values)),
        })?;
    }
    Ok(columns)
}

// Each name with the one behind it.
pub(crate) fn renamings(alloc: Global, answers: Vec<Answers>) -> Result<Vec<Renaming>, Memory>
    requires { AreNamePairs (map argument_values answers.items) }
    ensures { IfOk result (λ rs. map renaming_seen rs.items
        ≡ pairs_in (map argument_values answers.items)) }
{
    let mut renamings = Vec::new(alloc);
    let mut left = answers.into_iter();
    while let Some(from) = left.next() {
        let Some(to) = left.next() else {
            unreachable!()
        };
        renamings.push(Renaming {
            from: name_of(Some(from)),
            to: name_of(Some(to)),
        })?;
    }
    Ok(renamings)
}
