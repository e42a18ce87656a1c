// A keeper between two cases.
ghost use Rattle.std.specs.Prelude.{◌≡◌, Option, Some, IsSomeAnd, slice_get, true};
ghost use Rattle.fx_core.specs.declared.schema.Schema.{Schema as SchemaValue};
ghost use Rattle.row_queries.specs.Queries.{CanTotal, IsQuery};
ghost use Rattle.row_queries.specs.RowTests.{HasNoFaults};
ghost use Rattle.row_queries.specs.TableRows.{AreCellsOf};
ghost use Rattle.row_keeper.specs.MovedTables.{AreMoves};
ghost use Rattle.row_keeper.specs.Tables.{shapes_of};
ghost use Rattle.keeper_cases.specs.Stock.{IsInStep, IsStock};

use crate::said::Said;
use app_names::is_lawful_schema;
use fx_core::Schema;
use row_keeper::{Keeper, Reshaped, TableMove};
use row_queries::{Cells, Query};

/// What the cases have come to.
#[derive(Clone, Copy)]
pub struct Stage {
    /// Whether the keeper has the table.
    pub is_shaped: bool,
    /// Whether a transaction is begun.
    pub is_begun: bool,
}

/// Shapes the keeper by a schema: that of the table, or another.
pub fn shape<K: Keeper>(
    keeper: &mut K,
    stage: &mut Stage,
    schema: &Schema,
    is_stock: bool,
    said: &mut Said,
)
    requires step { IsInStep stage.old.is_shaped stage.old.is_begun (K.shaped keeper.old)
        (K.in_transaction keeper.old) }
    requires stock { is_stock ≡ true → IsStock (Some schema.now) }
    ensures { IsInStep stage.new.is_shaped stage.new.is_begun (K.shaped keeper.new)
        (K.in_transaction keeper.new) }
{
    if stage.is_begun || !is_lawful_schema(schema) {
        return said.put("not now");
    }
    match keeper.shape(schema) {
        Ok(None) => {
            stage.is_shaped = is_stock;
            said.put("kept");
        }
        Ok(Some(other)) => said.put_other(&other),
        Err(why) => {
            stage.is_shaped = false;
            said.put_end(why);
        }
    }
}

/// Begins a transaction.
pub fn begin<K: Keeper>(keeper: &mut K, stage: &mut Stage, said: &mut Said)
    requires { IsInStep stage.old.is_shaped stage.old.is_begun (K.shaped keeper.old)
        (K.in_transaction keeper.old) }
    ensures { IsInStep stage.new.is_shaped stage.new.is_begun (K.shaped keeper.new)
        (K.in_transaction keeper.new) }
{
    if stage.is_begun {
        return said.put("not now");
    }
    let begun = keeper.begin();
    stage.is_begun = begun.is_ok();
    said.put_done(begun);
}

/// Ends a transaction with its changes.
pub fn commit<K: Keeper>(keeper: &mut K, stage: &mut Stage, said: &mut Said)
    requires { IsInStep stage.old.is_shaped stage.old.is_begun (K.shaped keeper.old)
        (K.in_transaction keeper.old) }
    ensures { IsInStep stage.new.is_shaped stage.new.is_begun (K.shaped keeper.new)
        (K.in_transaction keeper.new) }
{
    if !stage.is_shaped || !stage.is_begun {
        return said.put("not now");
    }
    let ended = keeper.commit();
    stage.is_begun = false;
    said.put_done(ended);
}

/// Ends a transaction without its changes.
pub fn back<K: Keeper>(keeper: &mut K, stage: &mut Stage, said: &mut Said)
    requires { IsInStep stage.old.is_shaped stage.old.is_begun (K.shaped keeper.old)
        (K.in_transaction keeper.old) }
    ensures { IsInStep stage.new.is_shaped stage.new.is_begun (K.shaped keeper.new)
        (K.in_transaction keeper.new) }
{
    if !stage.is_begun {
        return said.put("not now");
    }
    keeper.back();
    stage.is_begun = false;
    said.put("done");
}

/// Puts a new row, or other cells into the row of a number.
pub fn put<K: Keeper>(keeper: &mut K, stage: Stage, id: Option<u32>, cells: &Cells, said: &mut Said)
    requires step { IsInStep stage.is_shaped stage.is_begun (K.shaped keeper.old)
        (K.in_transaction keeper.old) }
    requires fit { (s : SchemaValue) → IsStock (Some s)
        → IsSomeAnd (slice_get s.tables 0) (λ t. AreCellsOf t.columns cells.now) }
    ensures { IsInStep stage.is_shaped stage.is_begun (K.shaped keeper.new)
        (K.in_transaction keeper.new) }
{
    if !stage.is_shaped || !stage.is_begun {
        return said.put("not now");
    }
    match id {
        None => said.put_row(keeper.insert(0, cells)),
        Some(id) => said.put_row(keeper.replace(0, id, cells)),
    }
}

/// Takes a row out.
pub fn remove<K: Keeper>(keeper: &mut K, stage: Stage, id: u32, said: &mut Said)
    requires { IsInStep stage.is_shaped stage.is_begun (K.shaped keeper.old)
        (K.in_transaction keeper.old) }
    ensures { IsInStep stage.is_shaped stage.is_begun (K.shaped keeper.new)
        (K.in_transaction keeper.new) }
{
    if !stage.is_shaped || !stage.is_begun {
        return said.put("not now");
    }
    said.put_removed(keeper.remove(0, id));
}

/// Moves the table to another like it. Where that gives no answer nothing may be asked of the
/// keeper before its transaction is taken back, and so it is at once.
pub fn reshape<K: Keeper>(
    keeper: &mut K,
    stage: &mut Stage,
    schema: &Schema,
    moves: &[TableMove],
    said: &mut Said,
)
    requires step { IsInStep stage.old.is_shaped stage.old.is_begun (K.shaped keeper.old)
        (K.in_transaction keeper.old) }
    requires stock { IsStock (Some schema.now) }
    requires moves { (o : Option SchemaValue) → IsStock o
        → AreMoves (shapes_of o) schema.now.tables moves.now }
    ensures { IsInStep stage.new.is_shaped stage.new.is_begun (K.shaped keeper.new)
        (K.in_transaction keeper.new) }
{
    if !stage.is_shaped || !stage.is_begun || !is_lawful_schema(schema) {
        return said.put("not now");
    }
    match keeper.reshape(schema, moves) {
        Ok(Reshaped::Done) => said.put("moved"),
        Ok(Reshaped::Broken(table, refusal)) => said.put_broken(table, refusal),
        Err(why) => {
            keeper.back();
            stage.is_begun = false;
            said.put_end(why);
        }
    }
}

/// The rows of a query.
pub fn scan<K: Keeper>(keeper: &mut K, stage: Stage, query: &Query, said: &mut Said)
    requires step { IsInStep stage.is_shaped stage.is_begun (K.shaped keeper.old)
        (K.in_transaction keeper.old) }
    requires query { (o : Option SchemaValue) → IsStock o → IsQuery (shapes_of o) query.now }
    ensures { IsInStep stage.is_shaped stage.is_begun (K.shaped keeper.new)
        (K.in_transaction keeper.new) }
{
    if !stage.is_shaped {
        return said.put("not now");
    }
    match keeper.scan(query) {
        Ok(answer) => said.put_rows(answer.rows.as_slice()),
        Err(why) => said.put_end(why),
    }
}

/// How many these are.
pub fn count<K: Keeper>(keeper: &mut K, stage: Stage, query: &Query, said: &mut Said)
    requires step { IsInStep stage.is_shaped stage.is_begun (K.shaped keeper.old)
        (K.in_transaction keeper.old) }
    requires query { (o : Option SchemaValue) → IsStock o → IsQuery (shapes_of o) query.now }
    requires sound { HasNoFaults query.now.test }
    ensures { IsInStep stage.is_shaped stage.is_begun (K.shaped keeper.new)
        (K.in_transaction keeper.new) }
{
    if !stage.is_shaped {
        return said.put("not now");
    }
    match keeper.count(query) {
        Ok(count) => said.put_count(u64::from(count)),
        Err(why) => said.put_end(why),
    }
}

/// What their quantities come to.
pub fn total<K: Keeper>(keeper: &mut K, stage: Stage, query: &Query, said: &mut Said)
    requires step { IsInStep stage.is_shaped stage.is_begun (K.shaped keeper.old)
        (K.in_transaction keeper.old) }
    requires query { (o : Option SchemaValue) → IsStock o → IsQuery (shapes_of o) query.now }
    requires sound { HasNoFaults query.now.test }
    requires column { (o : Option SchemaValue) → IsStock o → CanTotal (shapes_of o) query.now 2 }
    ensures { IsInStep stage.is_shaped stage.is_begun (K.shaped keeper.new)
        (K.in_transaction keeper.new) }
{
    if !stage.is_shaped {
        return said.put("not now");
    }
    match keeper.total(query, 2) {
        Ok(totals) => said.put_total(totals.count, totals.sum),
        Err(why) => said.put_end(why),
    }
}
