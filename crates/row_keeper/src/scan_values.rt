//! What queries of a keeper come to as values.
ghost use Rattle.std.specs.Prelude.{◌≡◌, ◌≤◌, IfOk, Some};
ghost use Rattle.std.specs.List.{All};
ghost use Rattle.fx_base.specs.Telling.{Stays};
ghost use Rattle.fx_types.specs.ValueView.{view};
ghost use Rattle.fx_core.specs.Lawful.{IsLawfulSchema, IsLawfulTable};
ghost use Rattle.row_keeper.specs.Over.{AttachedStays, Becomes, BeganStays, HasCause};
ghost use Rattle.row_keeper.specs.Tables.{rows_told};
ghost use Rattle.row_keeper.specs.Shaped.{by};
ghost use Rattle.row_queries.specs.Answers.{IsScanValue, rows_counted, table_or_fault};
ghost use Rattle.row_queries.specs.Queries.{IsQuery};
ghost use Rattle.row_queries.specs.TableRows.{IsRowOf};
ghost use Rattle.row_queries.specs.Visits.{VisitsAtLeast, VisitsTold};

use crate::row_tables::table;
use crate::{Keeper, KeeperEnd};
use fx_base::Memory;
use fx_core::{Schema, TableShape};
use fx_types::Value;
use row_queries::{Query, RowList};
use std::alloc::Global;

/// The table of the rows that a query gives, or the first error of its test in the query's order.
/// `Failed` only where the keeper counted a fault.
pub fn scan<K: Keeper>(
    alloc: Global,
    keeper: &mut K,
    schema: &Schema,
    query: &Query,
) -> Result<Value, KeeperEnd>
    requires lawful { IsLawfulSchema schema.now }
    requires shaped { K.shaped keeper.old ≡ by schema.now }
    requires query { IsQuery schema.now.tables query.now }
    ensures value { IfOk result (λ v. IsScanValue schema.now.tables (rows_told (K.told keeper.new))
        query.now (view v)) }
    ensures told { Becomes K.Keeper keeper.old keeper.new Stays }
    ensures began { BeganStays K.Keeper keeper.old keeper.new }
    ensures attached { AttachedStays K.Keeper keeper.old keeper.new }
    ensures shaped { K.shaped keeper.new ≡ K.shaped keeper.old }
    ensures mode { K.in_transaction keeper.new ≡ K.in_transaction keeper.old }
    ensures cause { HasCause K.Keeper keeper.old keeper.new result }
    ensures visited { K.visited keeper.old ≤ K.visited keeper.new }
    ensures least { IfOk result (λ v. VisitsAtLeast (rows_counted (view v)) (K.visited keeper.old)
        (K.visited keeper.new)) }
    ensures most { VisitsTold (rows_told (K.told keeper.new)) query.now (K.visited keeper.old)
        (K.visited keeper.new) }
    ensures loan { K.loan keeper.new ≡ K.loan keeper.old }
{
    let answer = keeper.scan(query)?;
    match schema.tables.get(query.table as usize) {
        Some(shape) => Ok(answer_value(alloc, shape, answer)?),
        None => unreachable!(),
    }
}

// What a scan of a table answers, as a value.
fn answer_value(alloc: Global, shape: &TableShape, answer: RowList) -> Result<Value, Memory>
    requires lawful { IsLawfulTable shape.now }
    requires fit { All (IsRowOf shape.now) answer.rows }
    ensures { IfOk result (λ v. view v ≡ table_or_fault shape.now answer.rows answer.fault) }
{
    let RowList { rows, fault } = answer;
    match fault {
        Some(fault) => Ok(Value::Fault(fault)),
        None => table(alloc, shape, rows.as_slice()),
    }
}
