// Tables of a keeper, as formulas ask for them.
ghost use Rattle.std.specs.Prelude.{◌≡◌, ◌+◌, ◌≤◌, IfOk, IfSome, IsSome, OnErr, length, slice_get};
ghost use Rattle.fx_base.specs.Telling.{Stays};
ghost use Rattle.fx_types.specs.ValueView.{view};
ghost use Rattle.fx_core.specs.Lawful.{IsLawfulSchema};
ghost use Rattle.recalc.specs.Asking.{HasRead};
ghost use Rattle.recalc.specs.Queries.{IsTableValue, whole_table as whole_query};
ghost use Rattle.row_keeper.specs.Over.{Becomes, BeganStays, HasCause};
ghost use Rattle.row_keeper.specs.Tables.{rows_told};
ghost use Rattle.row_keeper.specs.Shaped.{by};
ghost use Rattle.row_queries.specs.TableRows.{rows_at};

use crate::fx_plan::ranges::everything;
use fx_base::Memory;
use fx_core::Schema;
use fx_types::Value;
use row_keeper::scan_values::scan;
use row_keeper::{Keeper, KeeperEnd};
use row_queries::{Query, Test, TestNode, asked_once};
use std::alloc::Global;

/// Asks for all rows of a table.
fn whole_table(alloc: Global, table: u16) -> Result<Query, Memory>
    ensures { IfOk result (λ q. q ≡ whole_query table) }
{
    let reach = everything(alloc)?;
    Ok(Query {
        table,
        column: 0,
        ranges: reach.ranges,
        test: Test {
            node: TestNode::All,
        },
        order: None,
        take: None,
    })
}

/// The value of a table: all of its rows, each of which is visited once.
pub fn table_value<K: Keeper>(
    alloc: Global,
    keeper: &mut K,
    schema: &Schema,
    table: u16,
) -> Result<Value, KeeperEnd>
    requires lawful { IsLawfulSchema schema.now }
    requires shaped { K.shaped keeper.old ≡ by schema.now }
    requires table { IsSome (slice_get schema.now.tables table) }
    ensures value { IfOk result (λ v. IsTableValue schema.now.tables (rows_told (K.told keeper.new))
        table (view v)) }
    ensures told { Becomes K.Keeper keeper.old keeper.new Stays }
    ensures began { BeganStays K.Keeper keeper.old keeper.new }
    ensures cause { HasCause K.Keeper keeper.old keeper.new result }
    ensures shaped { K.shaped keeper.new ≡ K.shaped keeper.old }
    ensures mode { K.in_transaction keeper.new ≡ K.in_transaction keeper.old }
    ensures visited { K.visited keeper.old ≤ K.visited keeper.new }
    ensures most { IfSome (rows_told (K.told keeper.new))
        (λ rows. K.visited keeper.new ≤ K.visited keeper.old + length (rows_at rows table)) }
    ensures loan { K.loan keeper.new ≡ K.loan keeper.old }
{
    // Called for what it says: rows that stand by rising numbers are asked in that order.
    asked_once();
    let query = whole_table(alloc, table)?;
    scan(alloc, keeper, schema, &query)
}
